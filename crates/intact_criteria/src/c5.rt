// C5: where GZ is greatest.
ghost use Rattle.std.specs.Prelude.{◌≤◌, ◌↔◌, ◌≤ℤ◌, ◌<ℤ◌, IsTrue};
ghost use Rattle.intact_criteria.specs.C5.{IsFound};
ghost use Rattle.intact_criteria.specs.Readings.{gz_at};

use crate::finding::{Finding, Shown, Side};
use crate::levers::{End, first_greatest, lever};
use dynamic_lever::ArmTable;

/// The finding on a side.
pub(crate) fn greatest_lever(arms: &ArmTable, side: Side) -> Finding
    ensures { IsFound (gz_at arms.now side) result }
{
    let lower_before = first_greatest(arms, side, End::Lower, 0, 24);
    let upper_before = first_greatest(arms, side, End::Upper, 0, 24);
    let lower_after = first_greatest(arms, side, End::Lower, 25, 90);
    let upper_after = first_greatest(arms, side, End::Upper, 25, 90);
    if is_at_most(arms, side, upper_before, lower_after) {
        Finding::Holds
    } else if is_below(arms, side, upper_after, lower_before) {
        Finding::Fails(Shown::Pair {
            low: lower_before,
            high: upper_after,
        })
    } else {
        Finding::Unsure(Shown::Pair {
            low: upper_before,
            high: upper_after,
        })
    }
}

/// Whether the upper end of GZ at one degree is at most the lower end at another.
fn is_at_most(arms: &ArmTable, side: Side, upper: u32, lower: u32) -> bool
    requires upper { upper ≤ 90 }
    requires lower { lower ≤ 90 }
    ensures { IsTrue result ↔ ((gz_at arms.now side upper).hi ≤ℤ (gz_at arms.now side lower).lo) }
{
    lever(arms, side, End::Upper, upper) <= lever(arms, side, End::Lower, lower)
}

/// Whether the upper end of GZ at one degree is below the lower end at another.
fn is_below(arms: &ArmTable, side: Side, upper: u32, lower: u32) -> bool
    requires upper { upper ≤ 90 }
    requires lower { lower ≤ 90 }
    ensures { IsTrue result ↔ ((gz_at arms.now side upper).hi <ℤ (gz_at arms.now side lower).lo) }
{
    lever(arms, side, End::Upper, upper) < lever(arms, side, End::Lower, lower)
}
