// The fields of damage cases and floodable lengths.
ghost use Rattle.std.specs.Prelude.{◌≡◌, IfSome};
ghost use Rattle.hull_report.specs.Spelling as spelling;
ghost use Rattle.hull_report.specs.Spelling.{IsLine};
ghost use Rattle.hull_report.specs.Outcomes as reading;

use crate::line::{CaseEnd, Line, ReasonLine, SafeBox};
use crate::words::Words;

#[tactic(auto, unfolding(crate::specs::Outcomes::damage_at))]
pub(crate) fn damage(words: &mut Words<'_>) -> Option<Line>
    ensures value { result ≡ reading.damage_at words.old.rest.now }
    ensures fits { IfSome result IsLine }
{
    Some(Line::Damage {
        case: words.u32()?,
        end: case_end(words)?,
    })
}

#[tactic(auto, unfolding(crate::specs::Outcomes::end_at))]
pub(crate) fn case_end(words: &mut Words<'_>) -> Option<CaseEnd>
    ensures value { result ≡ reading.end_at words.old.rest.now }
    ensures fits { IfSome result (λ e. spelling.AreWords (spelling.end_words e)) }
{
    let mut ahead = *words;
    match ahead.sides() {
        Some(sides) => Some(CaseEnd::Settled { sides }),
        None => unsettled(words),
    }
}

#[tactic(auto, unfolding(crate::specs::Outcomes::unsettled_at))]
fn unsettled(words: &mut Words<'_>) -> Option<CaseEnd>
    ensures value { result ≡ reading.unsettled_at words.old.rest.now }
    ensures fits { IfSome result (λ e. spelling.AreWords (spelling.end_words e)) }
{
    if words.next() == b"sinks".as_slice() {
        return Some(CaseEnd::Sinks {
            left: words.figure()?,
        });
    }
    match words.next() {
        tip if tip == b"fore".as_slice() => Some(CaseEnd::NoStartFore),
        tip if tip == b"aft".as_slice() => Some(CaseEnd::NoStartAft),
        _ => None,
    }
}

#[tactic(auto, unfolding(crate::specs::Outcomes::safe_at))]
pub(crate) fn safe(words: &mut Words<'_>) -> Option<Line>
    ensures value { result ≡ reading.safe_at words.old.rest.now }
    ensures fits { IfSome result IsLine }
{
    Some(Line::Safe {
        centre: words.u32()?,
        reach: reach(words),
    })
}

#[tactic(auto, unfolding(crate::specs::Outcomes::box_at))]
fn reach(words: &mut Words<'_>) -> Option<SafeBox>
    ensures value { result ≡ reading.box_at words.old.rest.now }
    ensures fits { spelling.AreWords (spelling.reach_words result) }
{
    Some(SafeBox {
        length: words.u32()?,
        sides: words.sides()?,
    })
}

#[tactic(auto, unfolding(crate::specs::Outcomes::next_line_at))]
pub(crate) fn next(words: &mut Words<'_>) -> Option<Line>
    ensures value { result ≡ reading.next_line_at words.old.rest.now }
    ensures fits { IfSome result IsLine }
{
    Some(Line::Next {
        centre: words.u32()?,
        length: words.u32()?,
        reason: reason(words)?,
    })
}

#[tactic(auto, unfolding(crate::specs::Outcomes::reason_at))]
fn reason(words: &mut Words<'_>) -> Option<ReasonLine>
    ensures value { result ≡ reading.reason_at words.old.rest.now }
    ensures fits { IfSome result (λ r. spelling.AreWords (spelling.reason_words r)) }
{
    match words.next() {
        name if name == b"over".as_slice() => over(words),
        name if name == b"touch".as_slice() => touch(words),
        name if name == b"sinks".as_slice() => Some(ReasonLine::Sinks),
        name if name == b"nostart".as_slice() => Some(ReasonLine::NoStart),
        name if name == b"endofship".as_slice() => Some(ReasonLine::EndOfShip),
        _ => None,
    }
}

#[tactic(auto, unfolding(crate::specs::Outcomes::over_at))]
fn over(words: &mut Words<'_>) -> Option<ReasonLine>
    ensures value { result ≡ reading.over_at words.old.rest.now }
    ensures fits { IfSome result (λ r. spelling.AreWords (spelling.reason_words r)) }
{
    Some(ReasonLine::Over {
        station: words.u32()?,
        sides: words.sides()?,
    })
}

#[tactic(auto, unfolding(crate::specs::Outcomes::touch_at))]
fn touch(words: &mut Words<'_>) -> Option<ReasonLine>
    ensures value { result ≡ reading.touch_at words.old.rest.now }
    ensures fits { IfSome result (λ r. spelling.AreWords (spelling.reason_words r)) }
{
    Some(ReasonLine::Touch {
        station: words.u32()?,
        sides: words.sides()?,
    })
}
