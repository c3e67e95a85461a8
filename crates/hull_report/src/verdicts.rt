// The fields of verdicts.
ghost use Rattle.std.specs.Prelude.{◌≡◌, IfSome};
ghost use Rattle.hull_report.specs.Spelling as spelling;
ghost use Rattle.hull_report.specs.Spelling.{IsLine};
ghost use Rattle.hull_report.specs.Verdicts as reading;

use crate::line::{Call, Line, ShownLine};
use crate::names::SideLine;
use crate::words::Words;

/// Why the verdict isn't pass.
#[derive(Clone, Copy)]
pub(crate) struct Cause {
    pub(crate) criterion: u32,
    pub(crate) side: Option<SideLine>,
    pub(crate) shown: ShownLine,
}

#[tactic(auto, unfolding(crate::specs::Verdicts::verdict_at))]
pub(crate) fn verdict(words: &mut Words<'_>) -> Option<Line>
    ensures value { result ≡ reading.verdict_at words.old.rest.now }
    ensures fits { IfSome result IsLine }
{
    Some(Line::Verdict { call: call(words)? })
}

#[tactic(auto, unfolding(crate::specs::Verdicts::call_at))]
fn call(words: &mut Words<'_>) -> Option<Call>
    ensures value { result ≡ reading.call_at words.old.rest.now }
    ensures fits { IfSome result (λ c. spelling.AreWords (spelling.call_words c)) }
{
    match words.next() {
        name if name == b"pass".as_slice() => Some(Call::Pass),
        name if name == b"fail".as_slice() => fail(words),
        name if name == b"undecided".as_slice() => undecided(words),
        _ => None,
    }
}

#[tactic(auto, unfolding(crate::specs::Verdicts::fail_at))]
fn fail(words: &mut Words<'_>) -> Option<Call>
    ensures value { result ≡ reading.fail_at words.old.rest.now }
    ensures fits { IfSome result (λ c. spelling.AreWords (spelling.call_words c)) }
{
    let Cause {
        criterion,
        side,
        shown,
    } = cause_of(words)?;
    Some(Call::Fail {
        criterion,
        side,
        shown,
    })
}

#[tactic(auto, unfolding(crate::specs::Verdicts::undecided_at))]
fn undecided(words: &mut Words<'_>) -> Option<Call>
    ensures value { result ≡ reading.undecided_at words.old.rest.now }
    ensures fits { IfSome result (λ c. spelling.AreWords (spelling.call_words c)) }
{
    let Cause {
        criterion,
        side,
        shown,
    } = cause_of(words)?;
    Some(Call::Undecided {
        criterion,
        side,
        shown,
    })
}

/// The criterion, the side where one is named, and what is shown.
#[tactic(auto, unfolding(crate::specs::Verdicts::cause_at))]
pub(crate) fn cause_of(words: &mut Words<'_>) -> Option<Cause>
    ensures value { result ≡ reading.cause_at words.old.rest.now }
    ensures fits { IfSome result (λ c. spelling.AreWords (spelling.cause_words c.criterion c.side c.shown)) }
{
    Some(Cause {
        criterion: words.criterion()?,
        side: words.side(),
        shown: shown(words)?,
    })
}

#[tactic(auto, unfolding(crate::specs::Verdicts::shown_at))]
fn shown(words: &mut Words<'_>) -> Option<ShownLine>
    ensures value { result ≡ reading.shown_at words.old.rest.now }
    ensures fits { IfSome result (λ s. spelling.AreWords (spelling.shown_words s)) }
{
    match words.next() {
        name if name == b"interval".as_slice() => interval(words),
        name if name == b"pair".as_slice() => pair(words),
        name if name == b"leak".as_slice() => leak(words),
        name if name == b"heel".as_slice() => heel(words),
        name if name == b"heels".as_slice() => heels(words),
        _ => None,
    }
}

#[tactic(auto, unfolding(crate::specs::Verdicts::interval_at))]
fn interval(words: &mut Words<'_>) -> Option<ShownLine>
    ensures value { result ≡ reading.interval_at words.old.rest.now }
    ensures fits { IfSome result (λ s. spelling.AreWords (spelling.shown_words s)) }
{
    Some(ShownLine::Interval {
        degree: words.u32()?,
        figure: words.figure()?,
    })
}

#[tactic(auto, unfolding(crate::specs::Verdicts::pair_at))]
fn pair(words: &mut Words<'_>) -> Option<ShownLine>
    ensures value { result ≡ reading.pair_at words.old.rest.now }
    ensures fits { IfSome result (λ s. spelling.AreWords (spelling.shown_words s)) }
{
    Some(ShownLine::Pair {
        low: words.u32()?,
        high: words.u32()?,
    })
}

#[tactic(auto, unfolding(crate::specs::Verdicts::leak_at))]
fn leak(words: &mut Words<'_>) -> Option<ShownLine>
    ensures value { result ≡ reading.leak_at words.old.rest.now }
    ensures fits { IfSome result (λ s. spelling.AreWords (spelling.shown_words s)) }
{
    Some(ShownLine::Leak {
        opening: words.u32()?,
        degree: words.u32()?,
        figure: words.figure()?,
    })
}

#[tactic(auto, unfolding(crate::specs::Verdicts::heel_at))]
fn heel(words: &mut Words<'_>) -> Option<ShownLine>
    ensures value { result ≡ reading.heel_at words.old.rest.now }
    ensures fits { IfSome result (λ s. spelling.AreWords (spelling.shown_words s)) }
{
    Some(ShownLine::Heel {
        q: words.u32()?,
        q2: words.u32()?,
        figure: words.figure()?,
    })
}

#[tactic(auto, unfolding(crate::specs::Verdicts::heels_at))]
fn heels(words: &mut Words<'_>) -> Option<ShownLine>
    ensures value { result ≡ reading.heels_at words.old.rest.now }
    ensures fits { IfSome result (λ s. spelling.AreWords (spelling.shown_words s)) }
{
    Some(ShownLine::Heels {
        q: words.u32()?,
        q2: words.u32()?,
        p: words.u32()?,
        p2: words.u32()?,
    })
}
