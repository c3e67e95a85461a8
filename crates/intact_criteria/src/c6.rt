// C6: GM.
ghost use Rattle.std.specs.Prelude.{◌≡◌};
ghost use Rattle.intact_criteria.specs.C6.{IsFound};
ghost use Rattle.intact_criteria.specs.Readings.{ends_of};

use crate::finding::Finding;
use crate::limit::against_limit;
use dynamic_lever::UprightRow;

/// 150 mm in units of 2^-20.
const LEAST_GM: i128 = 150 << 20;

/// The finding, the same on both sides.
pub(crate) fn metacentric_height(upright: &UprightRow) -> Finding
    ensures { IsFound (ends_of upright.now.gm) result }
{
    against_limit(LEAST_GM, 0, upright.gm)
}
