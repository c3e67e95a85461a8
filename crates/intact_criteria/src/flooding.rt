// The rule for an area up to the degree of downflooding.
ghost use Rattle.std.specs.Prelude.{◌≡◌, ◌↔◌, ◌≤◌, ◌<◌, ℕ, length, IsTrue, MatchOption};
ghost use Rattle.intact_criteria.specs.AreaToFlooding.{area_between, IsMarked, IsFirstMarked, ShowsFailing, IsFound};
ghost use Rattle.intact_criteria.specs.Downflooding.{IsMost, IsCandidate};
ghost use Rattle.intact_criteria.specs.Finding.{IsInterval};
ghost use Rattle.intact_criteria.specs.Readings.{separation_at, leaks_of};
ghost use Rattle.intact_criteria.specs.Tables.{AreSmallArms};

use crate::areas::area;
use crate::finding::{Finding, Mark, Shown, Side};
use crate::leaks::{first_leak, is_candidate, most_degree, next_leak};
use angle_bounds::Bracket;
use dynamic_lever::ArmTable;
use hull_model::Opening;

/// What an area is asked: to reach a limit, in units of 2^-20 mm·rad, from a degree `base` on, on a side.
#[derive(Clone, Copy)]
pub(crate) struct Ask {
    pub(crate) side: Side,
    pub(crate) base: u32,
    pub(crate) limit: i128,
    ghost early: { base ≤ 30 },
}

/// The finding on a side, where the area from `base` up to the degree of downflooding is to reach the limit.
pub(crate) fn area_to_flooding(
    brackets: &[Bracket; 91],
    arms: &ArmTable,
    openings: &[Opening],
    ask: Ask,
) -> Finding
    requires small { AreSmallArms arms.now }
    requires few { length openings.now ≤ 64 }
    ensures { IsFound (leaks_of brackets.now arms.now openings.now) (separation_at arms.now ask.side) ask.base ask.limit result }
{
    let most = most_degree(brackets, arms, openings);
    match first_marked(brackets, arms, openings, ask, most, Mark::Unsure) {
        Some(degree) => Finding::Unsure(shown_area(arms, ask, degree)),
        None => found_apart(brackets, arms, openings, ask, most),
    }
}

/// The same where each degree that the degree of downflooding may have holds or fails.
fn found_apart(
    brackets: &[Bracket; 91],
    arms: &ArmTable,
    openings: &[Opening],
    ask: Ask,
    most: u32,
) -> Finding
    requires small { AreSmallArms arms.now }
    requires few { length openings.now ≤ 64 }
    requires most { IsMost (leaks_of brackets.now arms.now openings.now) most }
    requires within { most ≤ 40 }
    requires apart { (k : ℕ) → IsCandidate (leaks_of brackets.now arms.now openings.now) most k → ¬ IsMarked (separation_at arms.now ask.side) ask.base ask.limit Mark.Unsure k }
    ensures { IsFound (leaks_of brackets.now arms.now openings.now) (separation_at arms.now ask.side) ask.base ask.limit result }
{
    match first_marked(brackets, arms, openings, ask, most, Mark::Fails) {
        None => Finding::Holds,
        Some(_failing) => match first_marked(brackets, arms, openings, ask, most, Mark::Holds) {
            None => Finding::Fails(shown_failing(brackets, arms, openings, ask, most)),
            Some(_holding) => Finding::Unsure(first_leak(brackets, arms, openings, most)),
        },
    }
}

/// Whether the area up to a degree is so marked.
fn is_marked(arms: &ArmTable, ask: Ask, mark: Mark, degree: u32) -> bool
    requires small { AreSmallArms arms.now }
    requires degree { degree ≤ 90 }
    ensures { IsTrue result ↔ IsMarked (separation_at arms.now ask.side) ask.base ask.limit mark degree }
{
    if degree < ask.base {
        return mark == Mark::Fails;
    }
    let span = area(arms, ask.side, ask.base, degree);
    match mark {
        Mark::Holds => ask.limit <= span.lo(),
        Mark::Fails => span.hi() < ask.limit,
        Mark::Unsure => span.lo() < ask.limit && ask.limit <= span.hi(),
    }
}

/// Whether the degree of downflooding may have this value, and the area up to it is so marked.
fn is_so_marked(
    brackets: &[Bracket; 91],
    arms: &ArmTable,
    openings: &[Opening],
    ask: Ask,
    most: u32,
    mark: Mark,
    degree: u32,
) -> bool
    requires small { AreSmallArms arms.now }
    requires most { most ≤ 40 }
    requires degree { degree ≤ 40 }
    ensures { IsTrue result ↔ (IsCandidate (leaks_of brackets.now arms.now openings.now) most degree × IsMarked (separation_at arms.now ask.side) ask.base ask.limit mark degree) }
{
    is_candidate(brackets, arms, openings, most, degree) && is_marked(arms, ask, mark, degree)
}

/// The first degree up to the greatest that the degree of downflooding may have and that is so marked.
fn first_marked(
    brackets: &[Bracket; 91],
    arms: &ArmTable,
    openings: &[Opening],
    ask: Ask,
    most: u32,
    mark: Mark,
) -> Option<u32>
    requires small { AreSmallArms arms.now }
    requires most { most ≤ 40 }
    ensures { MatchOption result ((k : ℕ) → IsCandidate (leaks_of brackets.now arms.now openings.now) most k → ¬ IsMarked (separation_at arms.now ask.side) ask.base ask.limit mark k) (IsFirstMarked (leaks_of brackets.now arms.now openings.now) (separation_at arms.now ask.side) most ask.base ask.limit mark) }
{
    for degree in 0..most + 1 {
        if is_so_marked(brackets, arms, openings, ask, most, mark, degree) {
            return Some(degree);
        }
    }
    None
}

/// The area up to a degree, as it is shown.
fn shown_area(arms: &ArmTable, ask: Ask, degree: u32) -> Shown
    requires small { AreSmallArms arms.now }
    requires degree { degree ≤ 90 }
    ensures { IsInterval degree (area_between (separation_at arms.now ask.side) ask.base degree) result }
{
    Shown::Interval {
        degree,
        span: area(arms, ask.side, ask.base, degree),
    }
}

/// What is shown where each degree that the degree of downflooding may have fails.
fn shown_failing(
    brackets: &[Bracket; 91],
    arms: &ArmTable,
    openings: &[Opening],
    ask: Ask,
    most: u32,
) -> Shown
    requires small { AreSmallArms arms.now }
    requires few { length openings.now ≤ 64 }
    requires most { IsMost (leaks_of brackets.now arms.now openings.now) most }
    requires within { most ≤ 40 }
    ensures { ShowsFailing (leaks_of brackets.now arms.now openings.now) (separation_at arms.now ask.side) most ask.base result }
{
    if ask.base <= most {
        shown_area(arms, ask, most)
    } else {
        next_leak(brackets, arms, openings, most)
    }
}
