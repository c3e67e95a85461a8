// C1: the area under GZ up to 30 degrees.
ghost use Rattle.std.specs.Prelude.{◌≡◌};
ghost use Rattle.intact_criteria.specs.C1.{IsFound};
ghost use Rattle.intact_criteria.specs.Readings.{separation_at};
ghost use Rattle.intact_criteria.specs.Tables.{AreSmallArms};

use crate::areas::area;
use crate::finding::{Finding, Side};
use crate::limit::against_limit;
use dynamic_lever::ArmTable;

/// 55 mm·rad in units of 2^-20.
const LEAST_AREA: i128 = 55 << 20;

/// The finding on a side.
pub(crate) fn area_to_30(arms: &ArmTable, side: Side) -> Finding
    requires { AreSmallArms arms.now }
    ensures { IsFound (separation_at arms.now side) result }
{
    against_limit(LEAST_AREA, 30, area(arms, side, 0, 30))
}
