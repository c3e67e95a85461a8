// Findings on both sides, marks and the verdict.
ghost use Rattle.std.specs.Prelude.{◌≡◌, ◌+◌, ◌≤◌, length};
ghost use Rattle.intact_criteria.specs.Finding.{on_both, mark_of, first_failing, first_unsure, verdict_of};

use crate::finding::{Finding, Found, Mark, Side, Verdict};

/// What is found on both sides, with the first side that has this mark.
pub(crate) fn on_both(port: Finding, starboard: Finding) -> Found
    ensures { result ≡ on_both port starboard }
{
    match port {
        Finding::Fails(shown) => Found::Fails(Side::Port, shown),
        Finding::Holds => match starboard {
            Finding::Fails(shown) => Found::Fails(Side::Starboard, shown),
            Finding::Unsure(shown) => Found::Unsure(Side::Starboard, shown),
            Finding::Holds => Found::Holds,
        },
        Finding::Unsure(shown) => match starboard {
            Finding::Fails(other) => Found::Fails(Side::Starboard, other),
            _ => Found::Unsure(Side::Port, shown),
        },
    }
}

pub(crate) fn mark_of(found: &Found) -> Mark
    ensures { result ≡ mark_of found.now }
{
    match found {
        Found::Holds => Mark::Holds,
        Found::Fails(_, _) => Mark::Fails,
        Found::Unsure(_, _) => Mark::Unsure,
    }
}

/// Fail with the first that fails; where none does, Undecided with the first that is unsure; else Pass.
pub(crate) fn verdict_of(founds: &[Found]) -> Verdict
    requires { length founds.now ≤ 6 }
    ensures { result ≡ verdict_of founds.now }
{
    if let Some(failing) = first_failing(founds, 1) {
        return failing;
    }
    match first_unsure(founds, 1) {
        Some(undecided) => undecided,
        None => Verdict::Pass,
    }
}

fn first_failing(founds: &[Found], criterion: u32) -> Option<Verdict>
    requires { criterion + length founds.now ≤ 7 }
    ensures { result ≡ first_failing criterion founds.now }
{
    match founds {
        [] => None,
        [found, others @ ..] => match found {
            Found::Fails(side, shown) => Some(Verdict::Fail {
                criterion,
                side: *side,
                shown: *shown,
            }),
            _ => first_failing(others, criterion + 1),
        },
    }
}

fn first_unsure(founds: &[Found], criterion: u32) -> Option<Verdict>
    requires { criterion + length founds.now ≤ 7 }
    ensures { result ≡ first_unsure criterion founds.now }
{
    match founds {
        [] => None,
        [found, rest @ ..] => match found {
            Found::Unsure(side, shown) => Some(Verdict::Undecided {
                criterion,
                side: *side,
                shown: *shown,
            }),
            _ => first_unsure(rest, criterion + 1),
        },
    }
}
