// Leaks by the intervals of the openings' depths, and the degrees that the degree of downflooding may have.
ghost use Rattle.std.specs.Prelude.{◌≡◌, ◌↔◌, ◌≤◌, ◌<◌, length, IsTrue, MatchOption};
ghost use Rattle.intact_criteria.specs.Degrees.{SomeFrom};
ghost use Rattle.intact_criteria.specs.Downflooding.{Passes, SomePasses, IsFirstPlace, IsMost, IsCandidate, ShowsFirst, ShowsNextLeak, ShowsFirstLeak};
ghost use Rattle.intact_criteria.specs.Readings.{ends_of, leaks_of, depth_at};

use crate::depth::depth;
use crate::finding::Shown;
use angle_bounds::Bracket;
use dynamic_lever::ArmTable;
use hull_model::Opening;
use outward_interval::Span;

/// The last degree to which the degree of downflooding is looked for.
const LAST: u32 = 40;

/// A test of the interval of a depth: it lies above 0, it may be above 0, or it may be above 0 or not.
#[derive(Clone, Copy)]
pub(crate) enum Test {
    Above,
    MayBeAbove,
    Unclear,
}

fn passes(test: Test, depth: Span<20>) -> bool
    ensures { IsTrue result ↔ Passes test (ends_of depth) }
{
    match test {
        Test::Above => 0 < depth.lo(),
        Test::MayBeAbove => 0 < depth.hi(),
        Test::Unclear => depth.lo() <= 0 && 0 < depth.hi(),
    }
}

/// Whether the depth of the opening at a place passes a test at a degree.
fn passes_at(
    brackets: &[Bracket; 91],
    arms: &ArmTable,
    openings: &[Opening],
    test: Test,
    degree: u32,
    place: usize,
) -> bool
    requires degree { degree ≤ 90 }
    requires place { place < length openings.now }
    ensures { IsTrue result ↔ Passes test (depth_at brackets.now arms.now openings.now place degree) }
{
    passes(test, depth(brackets, arms, openings, place, degree))
}

/// The place of the first opening whose depth passes a test at a degree.
fn first_place(
    brackets: &[Bracket; 91],
    arms: &ArmTable,
    openings: &[Opening],
    test: Test,
    degree: u32,
) -> Option<usize>
    requires { degree ≤ 90 }
    ensures { MatchOption result (¬ SomePasses (leaks_of brackets.now arms.now openings.now) test degree) (IsFirstPlace (length openings.now) (λ place. Passes test (depth_at brackets.now arms.now openings.now place degree))) }
{
    for place in 0..openings.len() {
        if passes_at(brackets, arms, openings, test, degree, place) {
            return Some(place);
        }
    }
    None
}

/// Whether the depth of some opening passes a test at a degree.
fn some_passes(
    brackets: &[Bracket; 91],
    arms: &ArmTable,
    openings: &[Opening],
    test: Test,
    degree: u32,
) -> bool
    requires { degree ≤ 90 }
    ensures { IsTrue result ↔ SomePasses (leaks_of brackets.now arms.now openings.now) test degree }
{
    first_place(brackets, arms, openings, test, degree).is_some()
}

/// The greatest degree that the degree of downflooding may have.
pub(crate) fn most_degree(brackets: &[Bracket; 91], arms: &ArmTable, openings: &[Opening]) -> u32
    ensures most { IsMost (leaks_of brackets.now arms.now openings.now) result }
    ensures within { result ≤ 40 }
{
    for degree in 0..LAST + 1 {
        if some_passes(brackets, arms, openings, Test::Above, degree) {
            return degree.saturating_sub(1);
        }
    }
    LAST
}

/// Whether the degree of downflooding may have this value.
pub(crate) fn is_candidate(
    brackets: &[Bracket; 91],
    arms: &ArmTable,
    openings: &[Opening],
    most: u32,
    degree: u32,
) -> bool
    requires most { most ≤ 40 }
    requires degree { degree ≤ 40 }
    ensures { IsTrue result ↔ IsCandidate (leaks_of brackets.now arms.now openings.now) most degree }
{
    if degree == most {
        return true;
    }
    if degree < most && some_passes(brackets, arms, openings, Test::MayBeAbove, degree + 1) {
        return true;
    }
    degree == 0 && some_passes(brackets, arms, openings, Test::MayBeAbove, 0)
}

/// The depth of the first opening that passes a test at a degree, as it is shown.
fn shown_first(
    brackets: &[Bracket; 91],
    arms: &ArmTable,
    openings: &[Opening],
    test: Test,
    degree: u32,
) -> Shown
    requires degree { degree ≤ 90 }
    requires few { length openings.now ≤ 64 }
    requires some { SomePasses (leaks_of brackets.now arms.now openings.now) test degree }
    ensures { ShowsFirst (leaks_of brackets.now arms.now openings.now) test degree result }
{
    match first_place(brackets, arms, openings, test, degree) {
        Some(place) => Shown::Leak {
            opening: place as u32 + 1,
            degree,
            span: depth(brackets, arms, openings, place, degree),
        },
        None => unreachable!(),
    }
}

/// The leak at the degree after the greatest, or at 0 where a depth lies above 0 there.
pub(crate) fn next_leak(
    brackets: &[Bracket; 91],
    arms: &ArmTable,
    openings: &[Opening],
    most: u32,
) -> Shown
    requires few { length openings.now ≤ 64 }
    requires most { IsMost (leaks_of brackets.now arms.now openings.now) most }
    requires below { most < 40 }
    ensures { ShowsNextLeak (leaks_of brackets.now arms.now openings.now) most result }
{
    let at_once = some_passes(brackets, arms, openings, Test::Above, 0);
    let degree = if at_once { 0 } else { most + 1 };
    shown_first(brackets, arms, openings, Test::Above, degree)
}

/// The first leak, by degrees up to the greatest and then by openings, of which it isn't clear whether it is above 0.
pub(crate) fn first_leak(
    brackets: &[Bracket; 91],
    arms: &ArmTable,
    openings: &[Opening],
    most: u32,
) -> Shown
    requires few { length openings.now ≤ 64 }
    requires most { most ≤ 40 }
    requires some { SomeFrom 0 most (SomePasses (leaks_of brackets.now arms.now openings.now) Test.Unclear) }
    ensures { ShowsFirstLeak (leaks_of brackets.now arms.now openings.now) most result }
{
    for degree in 0..most + 1 {
        if some_passes(brackets, arms, openings, Test::Unclear, degree) {
            return shown_first(brackets, arms, openings, Test::Unclear, degree);
        }
    }
    unreachable!()
}
