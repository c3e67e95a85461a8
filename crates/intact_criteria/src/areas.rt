// Areas under GZ between degrees.
ghost use Rattle.std.specs.Prelude.{◌≤◌};
ghost use Rattle.outward_interval.specs.Ends.{EndsBelow};
ghost use Rattle.intact_criteria.specs.AreaToFlooding.{area_between};
ghost use Rattle.intact_criteria.specs.Readings.{HasEnds, separation_at, nothing};
ghost use Rattle.intact_criteria.specs.Tables.{AreSmallArms};

use crate::finding::Side;
use crate::readings::separation;
use dynamic_lever::ArmTable;
use outward_interval::Span;

/// The area under GZ on a side from one degree to another, both at most 90, in mm·rad: the difference of the separations,
/// and 0 from a degree to itself. The ends lie below 2^96 in magnitude.
pub fn area(arms: &ArmTable, side: Side, from: u32, to: u32) -> Span<20>
    requires from { from ≤ 90 }
    requires to { to ≤ 90 }
    requires small { AreSmallArms arms.now }
    ensures ends { HasEnds (area_between (separation_at arms.now side) from to) result }
    ensures bound { EndsBelow 96 result.lo result.hi }
{
    if from == to {
        no_area()
    } else {
        separation(arms, side, to) - separation(arms, side, from)
    }
}

fn no_area() -> Span<20>
    ensures { HasEnds nothing result }
{
    match Span::new(0, 0) {
        Some(span) => span,
        None => unreachable!(),
    }
}
