// Reading the tables.
ghost use Rattle.std.specs.Prelude.{◌≡◌, ◌≤◌, ◌<◌, Some, length, slice_get};
ghost use Rattle.outward_interval.specs.Ends.{EndsBelow};
ghost use Rattle.intact_criteria.specs.Tables.{AreSmallArms};
ghost use Rattle.intact_criteria.specs.Readings.{HasEnds, on_side, gz_at, separation_at};

use crate::finding::Side;
use dynamic_lever::{Arm, ArmTable};
use hull_model::Opening;
use outward_interval::Span;

/// The row of a degree, at most 90.
pub fn arm_at(arms: &ArmTable, degree: u32) -> &Arm
    requires { degree ≤ 90 }
    ensures row { slice_get arms.now.rows degree ≡ Some result.now }
    ensures count { length arms.now.rows ≡ 91 }
{
    &arms.rows[degree as usize]
}

/// The opening at a place of the list.
pub(crate) fn opening_at(openings: &[Opening], place: usize) -> &Opening
    requires { place < length openings.now }
    ensures { slice_get openings.now place ≡ Some result.now }
{
    &openings[place]
}

/// Of two spans, port first, that of a side.
fn of_side(side: Side, spans: &[Span<20>; 2]) -> Span<20>
    ensures { on_side side spans.now ≡ Some result }
{
    match side {
        Side::Port => spans[0],
        Side::Starboard => spans[1],
    }
}

/// GZ of a degree, at most 90, on a side, in mm.
pub fn gz(arms: &ArmTable, side: Side, degree: u32) -> Span<20>
    requires { degree ≤ 90 }
    ensures ends { HasEnds (gz_at arms.now side degree) result }
    ensures small { AreSmallArms arms.now → EndsBelow 95 result.lo result.hi }
{
    of_side(side, &arm_at(arms, degree).gz)
}

/// The separation of a degree on a side, in mm.
pub(crate) fn separation(arms: &ArmTable, side: Side, degree: u32) -> Span<20>
    requires { degree ≤ 90 }
    ensures ends { HasEnds (separation_at arms.now side degree) result }
    ensures small { AreSmallArms arms.now → EndsBelow 95 result.lo result.hi }
{
    of_side(side, &arm_at(arms, degree).sep)
}
