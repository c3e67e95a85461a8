// C3: the area under GZ from 30 degrees to the degree of downflooding.
ghost use Rattle.std.specs.Prelude.{◌≤◌, length};
ghost use Rattle.intact_criteria.specs.C3.{IsFound};
ghost use Rattle.intact_criteria.specs.Readings.{separation_at, leaks_of};
ghost use Rattle.intact_criteria.specs.Tables.{AreSmallArms};

use crate::finding::{Finding, Side};
use crate::flooding::{Ask, area_to_flooding};
use angle_bounds::Bracket;
use dynamic_lever::ArmTable;
use hull_model::Opening;

/// 30 mm·rad in units of 2^-20.
const LEAST_AREA: i128 = 30 << 20;

/// The finding on a side.
pub(crate) fn later_area(
    brackets: &[Bracket; 91],
    arms: &ArmTable,
    openings: &[Opening],
    side: Side,
) -> Finding
    requires small { AreSmallArms arms.now }
    requires few { length openings.now ≤ 64 }
    ensures { IsFound (leaks_of brackets.now arms.now openings.now) (separation_at arms.now side) result }
{
    let ask = Ask {
        side,
        base: 30,
        limit: LEAST_AREA,
    };
    area_to_flooding(brackets, arms, openings, ask)
}
