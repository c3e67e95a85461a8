// Lines of a loading and of its levers.
ghost use Rattle.std.specs.Prelude.{◌≡◌, ◌≤◌, IfOk, length};
ghost use Rattle.outward_interval.specs.Ends.{EndsBelow};
ghost use Rattle.exact_algebra.proofs.Span.{IsLeastSpanOf};
ghost use Rattle.hull_report.specs.Spelling.{AreLines, IsLine, IsWord, figure};
ghost use Rattle.intact_criteria.specs.Tables.{AreSmallArms};
ghost use Rattle.hull_cli.specs.Loads.{IsLoadLine};
ghost use Rattle.hull_cli.specs.Stability.{AreArmLines, IsArmLine, IsLever, IsUprightLine};

use crate::units::{PLACES, TO_METRES};
use crate::version::tells_sides;
use draft_bracket::Drafts;
use dynamic_lever::{ArmTable, UprightRow};
use exact_fraction::Memory;
use hull_report::Line;
use intact_criteria::{Side, area, arm_at, gz};
use loading_sheet::Loading;
use outward_interval::Figure;
use std::alloc::Global;

/// The mass, and where its centre lies, in the words of a job's version.
pub(crate) fn load_line(version: u32, loading: &Loading) -> Line
    ensures line { IsLoadLine version loading.now result }
    ensures grammar { IsLine result }
{
    let mass = loading.mass;
    let lcg = loading.lcg().figure(TO_METRES, PLACES);
    let tcg = loading.tcg().figure(TO_METRES, PLACES);
    let kg = loading.kg().figure(TO_METRES, PLACES);
    if tells_sides(version) {
        Line::Load2 { mass, lcg, tcg, kg }
    } else {
        Line::Load { mass, lcg, kg }
    }
}

/// The ship upright.
pub(crate) fn upright_line(row: &UprightRow) -> Line
    requires kb { EndsBelow 95 row.now.kb.lo row.now.kb.hi }
    requires bm { EndsBelow 95 row.now.bm.lo row.now.bm.hi }
    requires gm { EndsBelow 95 row.now.gm.lo row.now.gm.hi }
    ensures line { IsUprightLine row.now result }
    ensures grammar { IsLine result }
{
    Line::Upright {
        d1: row.drafts.d1,
        d2: row.drafts.d2,
        kb: row.kb.figure(TO_METRES, PLACES),
        bm: row.bm.figure(TO_METRES, PLACES),
        gm: row.gm.figure(TO_METRES, PLACES),
    }
}

/// The levers from 0 to 90 degrees, in the words of a job's version.
pub(crate) fn arm_lines(alloc: Global, version: u32, arms: &ArmTable) -> Result<Vec<Line>, Memory>
    requires { AreSmallArms arms.now }
    ensures lines { IfOk result (λ lines. AreArmLines version arms.now lines.items) }
    ensures grammar { IfOk result (λ lines. AreLines lines.items) }
{
    let mut lines = Vec::new(alloc);
    for degree in 0..91 {
        lines.push(arm_line(version, arms, degree))?;
    }
    Ok(lines)
}

fn arm_line(version: u32, arms: &ArmTable, degree: u32) -> Line
    requires degree { degree ≤ 90 }
    requires small { AreSmallArms arms.now }
    ensures line { IsArmLine version arms.now degree result }
    ensures grammar { IsLine result }
{
    let Drafts { d1, d2 } = arm_at(arms, degree).drafts;
    let port = lever_to(arms, Side::Port, degree);
    let starboard = lever_to(arms, Side::Starboard, degree);
    if tells_sides(version) {
        Line::Arm2 {
            degree,
            d1,
            d2,
            port_gz: port.gz,
            port_area: port.area,
            star_gz: starboard.gz,
            star_area: starboard.area,
        }
    } else {
        Line::Arm {
            degree,
            d1,
            d2,
            gz: port.gz,
            area: port.area,
        }
    }
}

/// GZ in m to a side, and the area below it in m·rad from upright.
#[derive(Clone, Copy, Debug, PartialEq, Eq)]
struct Lever {
    gz: Figure,
    area: Figure,
}

fn lever_to(arms: &ArmTable, side: Side, degree: u32) -> Lever
    requires degree { degree ≤ 90 }
    requires small { AreSmallArms arms.now }
    ensures lever { IsLever arms.now side degree result }
    ensures grammar { IsWord (figure result.gz) × IsWord (figure result.area) }
{
    Lever {
        gz: gz(arms, side, degree).figure(TO_METRES, PLACES),
        area: area(arms, side, 0, degree).figure(TO_METRES, PLACES),
    }
}
