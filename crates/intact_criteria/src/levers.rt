// The ends of the intervals of GZ, and the degrees at which they are greatest or reach a limit.
ghost use Rattle.std.specs.Prelude.{◌≡◌, ◌≤◌, ◌<◌, ◌-◌, ◌≤ℤ◌, MatchOption};
ghost use Rattle.intact_criteria.specs.Degrees.{EachFrom, IsFirst, IsFirstGreatest};
ghost use Rattle.intact_criteria.specs.Levers.{end_at};
ghost use Rattle.intact_criteria.specs.Readings.{gz_at};

use crate::finding::Side;
use crate::readings::gz;
use dynamic_lever::ArmTable;

/// Which end of an interval.
#[derive(Clone, Copy)]
pub(crate) enum End {
    Lower,
    Upper,
}

/// An end of GZ at a degree on a side, in units of 2^-20 mm.
pub(crate) fn lever(arms: &ArmTable, side: Side, end: End, degree: u32) -> i128
    requires { degree ≤ 90 }
    ensures { result ≡ end_at end (gz_at arms.now side degree) }
{
    let span = gz(arms, side, degree);
    match end {
        End::Lower => span.lo(),
        End::Upper => span.hi(),
    }
}

/// The first degree from one to another at which an end of GZ reaches a limit.
pub(crate) fn first_reaching(
    arms: &ArmTable,
    side: Side,
    end: End,
    limit: i128,
    from: u32,
    to: u32,
) -> Option<u32>
    requires { to ≤ 90 }
    ensures { MatchOption result (EachFrom from to (λ k. ¬ (limit ≤ℤ end_at end (gz_at arms.now side k)))) (IsFirst from to (λ k. limit ≤ℤ end_at end (gz_at arms.now side k))) }
{
    for degree in from..to + 1 {
        if limit <= lever(arms, side, end, degree) {
            return Some(degree);
        }
    }
    None
}

/// The first degree from one to another at which an end of GZ is greatest.
pub(crate) fn first_greatest(arms: &ArmTable, side: Side, end: End, from: u32, to: u32) -> u32
    requires order { from ≤ to }
    requires last { to ≤ 90 }
    ensures { IsFirstGreatest from to (λ k. end_at end (gz_at arms.now side k)) result }
{
    let mut best = from;
    for degree in from + 1..to + 1 {
        if lever(arms, side, end, best) < lever(arms, side, end, degree) {
            best = degree;
        }
    }
    best
}
