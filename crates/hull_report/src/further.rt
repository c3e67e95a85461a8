// The fields of lines of further reports: tanks, strength, flooded arms, limiting heights.
ghost use Rattle.std.specs.Prelude.{◌≡◌, IfSome};
ghost use Rattle.hull_report.specs.Spelling as spelling;
ghost use Rattle.hull_report.specs.Spelling.{IsLine};
ghost use Rattle.hull_report.specs.Further as reading;

use crate::line::{LimitLine, Line};
use crate::outcomes::case_end;
use crate::verdicts::cause_of;
use crate::words::Words;

#[tactic(auto, unfolding(crate::specs::Further::further_at))]
pub(crate) fn further(name: &[u8], words: &mut Words<'_>) -> Option<Line>
    ensures value { result ≡ reading.further_at name.now words.old.rest.now }
    ensures fits { IfSome result IsLine }
{
    match name {
        name if name == b"tank".as_slice() => tank(words),
        name if name == b"float".as_slice() => float(words),
        name if name == b"strength".as_slice() => strength(words),
        name if name == b"darm".as_slice() => flooded_arm(words),
        name if name == b"dshort".as_slice() => flooded_short(words),
        name if name == b"hulllimits".as_slice() => Some(Line::LimitsHead),
        name if name == b"limit".as_slice() => limit(words),
        name if name == b"beyond".as_slice() => beyond(words),
        _ => None,
    }
}

#[tactic(auto, unfolding(crate::specs::Further::tank_at))]
fn tank(words: &mut Words<'_>) -> Option<Line>
    ensures value { result ≡ reading.tank_at words.old.rest.now }
    ensures fits { IfSome result IsLine }
{
    Some(Line::Tank {
        compartment: words.u32()?,
        level: words.u32()?,
        volume: words.figure()?,
        lcg: words.figure_or_absent()?,
        kg: words.figure_or_absent()?,
        inertia: words.figure()?,
    })
}

#[tactic(auto, unfolding(crate::specs::Further::float_at))]
fn float(words: &mut Words<'_>) -> Option<Line>
    ensures value { result ≡ reading.float_at words.old.rest.now }
    ensures fits { IfSome result IsLine }
{
    Some(Line::Float {
        end: case_end(words)?,
    })
}

#[tactic(auto, unfolding(crate::specs::Further::strength_at))]
fn strength(words: &mut Words<'_>) -> Option<Line>
    ensures value { result ≡ reading.strength_at words.old.rest.now }
    ensures fits { IfSome result IsLine }
{
    Some(Line::Strength {
        station: words.u32()?,
        x: words.u32()?,
        shear: words.figure()?,
        bend: words.figure()?,
    })
}

#[tactic(auto, unfolding(crate::specs::Further::flooded_arm_at))]
fn flooded_arm(words: &mut Words<'_>) -> Option<Line>
    ensures value { result ≡ reading.flooded_arm_at words.old.rest.now }
    ensures fits { IfSome result IsLine }
{
    let case = words.u32()?;
    let degree = words.u32()?;
    let d1 = words.i64()?;
    let d2 = words.i64()?;
    let port = words.lever()?;
    let star = words.lever()?;
    Some(Line::FloodedArm {
        case,
        degree,
        d1,
        d2,
        port_gz: port.gz,
        port_area: port.area,
        star_gz: star.gz,
        star_area: star.area,
    })
}

#[tactic(auto, unfolding(crate::specs::Further::flooded_short_at))]
fn flooded_short(words: &mut Words<'_>) -> Option<Line>
    ensures value { result ≡ reading.flooded_short_at words.old.rest.now }
    ensures fits { IfSome result IsLine }
{
    Some(Line::FloodedShort {
        case: words.u32()?,
        degree: words.u32()?,
        left: words.figure()?,
    })
}

#[tactic(auto, unfolding(crate::specs::Further::limit_at))]
fn limit(words: &mut Words<'_>) -> Option<Line>
    ensures value { result ≡ reading.limit_at words.old.rest.now }
    ensures fits { IfSome result IsLine }
{
    Some(Line::Limit {
        mass: words.u64()?,
        height: words.u32(),
    })
}

#[tactic(auto, unfolding(crate::specs::Further::beyond_at))]
fn beyond(words: &mut Words<'_>) -> Option<Line>
    ensures value { result ≡ reading.beyond_at words.old.rest.now }
    ensures fits { IfSome result IsLine }
{
    Some(Line::Beyond {
        mass: words.u64()?,
        height: words.u32()?,
        why: why(words)?,
    })
}

#[tactic(auto, unfolding(crate::specs::Further::why_at))]
fn why(words: &mut Words<'_>) -> Option<LimitLine>
    ensures value { result ≡ reading.why_at words.old.rest.now }
    ensures fits { IfSome result (λ l. spelling.AreWords (spelling.limit_words l)) }
{
    match words.next() {
        name if name == b"endofrange".as_slice() => Some(LimitLine::EndOfRange),
        name if name == b"fail".as_slice() => fail(words),
        name if name == b"undecided".as_slice() => undecided(words),
        _ => None,
    }
}

#[tactic(auto, unfolding(crate::specs::Further::fail_at))]
fn fail(words: &mut Words<'_>) -> Option<LimitLine>
    ensures value { result ≡ reading.fail_at words.old.rest.now }
    ensures fits { IfSome result (λ l. spelling.AreWords (spelling.limit_words l)) }
{
    let cause = cause_of(words)?;
    Some(LimitLine::Fail {
        criterion: cause.criterion,
        shown: cause.shown,
    })
}

#[tactic(auto, unfolding(crate::specs::Further::undecided_at))]
fn undecided(words: &mut Words<'_>) -> Option<LimitLine>
    ensures value { result ≡ reading.undecided_at words.old.rest.now }
    ensures fits { IfSome result (λ l. spelling.AreWords (spelling.limit_words l)) }
{
    let cause = cause_of(words)?;
    Some(LimitLine::Undecided {
        criterion: cause.criterion,
        shown: cause.shown,
    })
}
