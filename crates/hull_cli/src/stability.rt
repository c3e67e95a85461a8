// The stability of a hull with the items of a job.
ghost use Rattle.std.specs.Prelude.{◌≡◌, ◌↔◌, ◌+◌, List, IsErr, IfOk, IfErr, length};
ghost use Rattle.draft_bracket.specs.DraftBracket.{IsTooHeavy, OfHulls};
ghost use Rattle.hull_report.specs.Spelling.{AreLines};
ghost use Rattle.intact_criteria.specs.Bounds.{IsBoundedVerdict};
ghost use Rattle.intact_criteria.specs.Tables.{AreRowsOf};
ghost use Rattle.job_reader.specs.declared.job.Item.{Item};
ghost use Rattle.loading_sheet.specs.Centre.{displaced};
ghost use Rattle.loading_sheet.specs.Loads.{IsLoadingOf};
ghost use Rattle.hull_cli.specs.Loads.{UnderLoad};
ghost use Rattle.hull_cli.specs.Stability.{AreArmLines, AreFindingLines, AreStabilityLines, IsJudged, NamesCriterion};
ghost use Rattle.hull_cli.specs.Stops.{StopsStability};

use crate::findings::{mark_lines, verdict_line};
use crate::levers::{arm_lines, upright_line};
use crate::loading::{load_first, loading_of};
use draft_bracket::TooHeavy;
use dynamic_lever::{ArmTable, UprightRow, arms, upright};
use exact_fraction::Memory;
use hull_model::Water;
use hull_polyhedron::Faces;
use hull_report::Line;
use intact_criteria::{Findings, judge};
use job_reader::Job;
use loading_sheet::Loading;
use report_run::{Refusal, Stop};
use std::alloc::Global;

/// The load, the ship upright, the levers from 0 to 90 degrees, the marks of the six criteria and the verdict. Stops where
/// the items make no loading, and where it is too heavy. The faces are the hull's boundary.
pub(crate) fn stability_lines(alloc: Global, faces: &Faces, job: &Job) -> Result<Vec<Line>, Stop>
    ensures lines { IfOk result (λ lines. OfHulls faces.now (λ hull. UnderLoad job.now (AreStabilityLines hull job.now) lines.items)) }
    ensures count { IfOk result (λ lines. length lines.items ≡ 100) }
    ensures grammar { IfOk result (λ lines. AreLines lines.items) }
    ensures stops { IfErr result (λ why. OfHulls faces.now (λ hull. StopsStability hull job.now.water job.now.items why)) }
{
    let loading = loading_of(job.items.as_slice())?;
    let standing = standing_of(faces, &loading, &job.water)?;
    let judged = judged_lines(alloc, faces, job, &loading, &standing)?;
    Ok(load_first(alloc, job.version, &loading, &judged)?)
}

/// The levers of a loading, and the ship upright.
#[derive(Clone, Copy, Debug)]
pub(crate) struct Standing {
    pub(crate) arms: ArmTable,
    pub(crate) upright: UprightRow,
}

/// The levers of a loading, and the ship upright. Stops where the loading is too heavy.
pub(crate) fn standing_of(faces: &Faces, loading: &Loading, water: &Water) -> Result<Standing, Stop>
    ensures rows { IfOk result (λ standing. AreRowsOf faces.now loading.now water.now standing.arms standing.upright) }
    ensures too_heavy { OfHulls faces.now (λ hull. IsErr result ↔ IsTooHeavy hull (displaced loading.now water.now)) }
    ensures stops { IfErr result (λ why. OfHulls faces.now (λ hull. (items : List Item) → IsLoadingOf items loading.now → StopsStability hull water.now items why)) }
{
    let mass = loading.mass;
    match arms(faces, loading, water) {
        Ok(arms) => match upright(faces, loading, water) {
            Ok(upright) => Ok(Standing { arms, upright }),
            Err(TooHeavy { six }) => Err(Stop::Refused(Refusal::Heavy { mass, six })),
        },
        Err(TooHeavy { six }) => Err(Stop::Refused(Refusal::Heavy { mass, six })),
    }
}

/// The ship upright, the levers from 0 to 90 degrees, the marks of the six criteria and the verdict.
pub(crate) fn judged_lines(
    alloc: Global,
    faces: &Faces,
    job: &Job,
    loading: &Loading,
    standing: &Standing,
) -> Result<Vec<Line>, Memory>
    requires loaded { IsLoadingOf job.now.items loading.now }
    requires rows { AreRowsOf faces.now loading.now job.now.water standing.now.arms standing.now.upright }
    ensures lines { IfOk result (λ lines. OfHulls faces.now (λ hull. AreStabilityLines hull job.now loading.now lines.items)) }
    ensures count { IfOk result (λ lines. length lines.items ≡ 99) }
    ensures grammar { IfOk result (λ lines. AreLines lines.items) }
{
    let levers = arm_lines(alloc, job.version, &standing.arms)?;
    finding_lines(alloc, faces, job, loading, standing, &levers)
}

/// The ship upright, these lines of its levers, the marks of the six criteria and the verdict.
pub(crate) fn finding_lines(
    alloc: Global,
    faces: &Faces,
    job: &Job,
    loading: &Loading,
    standing: &Standing,
    levers: &[Line],
) -> Result<Vec<Line>, Memory>
    requires loaded { IsLoadingOf job.now.items loading.now }
    requires rows { AreRowsOf faces.now loading.now job.now.water standing.now.arms standing.now.upright }
    requires levers { AreLines levers.now }
    ensures lines { IfOk result (λ lines. OfHulls faces.now (λ hull. AreFindingLines hull job.now loading.now standing.now.arms levers.now lines.items)) }
    ensures count { IfOk result (λ lines. length lines.items ≡ 8 + length levers.now) }
    ensures grammar { IfOk result (λ lines. AreLines lines.items) }
{
    let findings = judge(&standing.arms, &standing.upright, job.openings.as_slice());
    let mut lines = Vec::new(alloc);
    lines.push(upright_line(&standing.upright))?;
    lines.extend_from_slice(levers)?;
    lines.extend_from_slice(&mark_lines(alloc, &findings.marks)?)?;
    lines.push(verdict_line(job.version, &findings.verdict))?;
    Ok(lines)
}
