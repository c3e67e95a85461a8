// C4: GZ from 30 degrees on.
ghost use Rattle.std.specs.Prelude.{◌≤◌};
ghost use Rattle.intact_criteria.specs.C4.{IsFound};
ghost use Rattle.intact_criteria.specs.Finding.{IsInterval};
ghost use Rattle.intact_criteria.specs.Readings.{gz_at};

use crate::finding::{Finding, Shown, Side};
use crate::levers::{End, first_greatest, first_reaching};
use crate::readings::gz;
use dynamic_lever::ArmTable;

/// 200 mm in units of 2^-20.
const LEAST_LEVER: i128 = 200 << 20;

/// The finding on a side.
pub(crate) fn lever_from_30(arms: &ArmTable, side: Side) -> Finding
    ensures { IsFound (gz_at arms.now side) result }
{
    if first_reaching(arms, side, End::Lower, LEAST_LEVER, 30, 90).is_some() {
        return Finding::Holds;
    }
    match first_reaching(arms, side, End::Upper, LEAST_LEVER, 30, 90) {
        Some(degree) => Finding::Unsure(shown_at(arms, side, degree)),
        None => Finding::Fails(shown_at(
            arms,
            side,
            first_greatest(arms, side, End::Upper, 30, 90),
        )),
    }
}

/// GZ at a degree, as it is shown.
fn shown_at(arms: &ArmTable, side: Side, degree: u32) -> Shown
    requires { degree ≤ 90 }
    ensures { IsInterval degree (gz_at arms.now side degree) result }
{
    Shown::Interval {
        degree,
        span: gz(arms, side, degree),
    }
}
