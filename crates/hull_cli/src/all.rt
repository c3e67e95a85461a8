// Every table that a job asks for.
ghost use Rattle.std.specs.Prelude.{◌≡◌, ◌≤◌, ◌^◌, IfOk, IfErr, length};
ghost use Rattle.hull_model.specs.Body.{IsHull};
ghost use Rattle.hull_polyhedron.specs.FacesOf.{AreFacesOf};
ghost use Rattle.hull_report.specs.Spelling.{AreLines};
ghost use Rattle.hull_report.specs.declared.names.Command.TheVariants as command;
ghost use Rattle.intact_criteria.specs.Tables.{AreRowsOf};
ghost use Rattle.loading_sheet.specs.Loads.{IsLoadingOf};
ghost use Rattle.hull_cli.specs.Loads.{UnderLoad};
ghost use Rattle.hull_cli.specs.Stops.{StopsTables};
ghost use Rattle.hull_cli.specs.Tables.{AreAllLines, AreShipLines};

use crate::cross::cross_lines;
use crate::damage::case_lines;
use crate::floodable::length_lines;
use crate::hydro::hydro_lines;
use crate::loading::{load_first, loading_of};
use crate::section::bonjean_lines;
use crate::stability::{Standing, judged_lines, standing_of};
use exact_fraction::Memory;
use hull_model::Hull;
use hull_polyhedron::Faces;
use hull_report::Line;
use job_reader::Job;
use loading_sheet::Loading;
use report_run::Stop;
use std::alloc::Global;

/// Every table that a job asks for, the load line once. Stops where the items make no loading, where it is too heavy, and at
/// the first displacement that is. The faces are the hull's boundary.
pub(crate) fn all_lines(
    alloc: Global,
    hull: &Hull,
    faces: &Faces,
    job: &Job,
) -> Result<Vec<Line>, Stop>
    requires hull { IsHull hull.now }
    requires faces { AreFacesOf hull.now faces.now }
    ensures lines { IfOk result (λ lines. AreAllLines hull.now job.now lines.items) }
    ensures few { IfOk result (λ lines. length lines.items ≤ 2 ^ 31) }
    ensures grammar { IfOk result (λ lines. AreLines lines.items) }
    ensures stops { IfErr result (StopsTables command.All job.now hull.now) }
{
    let items = job.items.as_slice();
    let masses = job.masses.as_slice();
    let drafts = job.drafts.as_slice();
    let loading = loading_of(items)?;
    let standing = standing_of(faces, &loading, &job.water)?;
    let curves = cross_lines(alloc, faces, &job.water, masses)?;
    let mut lines = hydro_lines(alloc, faces, &job.water, drafts)?;
    lines.extend_from_slice(&bonjean_lines(alloc, hull, drafts)?)?;
    lines.extend_from_slice(&curves)?;
    lines.extend_from_slice(&ship_lines(alloc, hull, faces, job, &loading, &standing)?)?;
    Ok(lines)
}

// The load, the levers with their verdict, the damage cases and the floodable lengths.
fn ship_lines(
    alloc: Global,
    hull: &Hull,
    faces: &Faces,
    job: &Job,
    loading: &Loading,
    standing: &Standing,
) -> Result<Vec<Line>, Memory>
    requires hull { IsHull hull.now }
    requires faces { AreFacesOf hull.now faces.now }
    requires loaded { IsLoadingOf job.now.items loading.now }
    requires rows { AreRowsOf faces.now loading.now job.now.water standing.now.arms standing.now.upright }
    ensures lines { IfOk result (λ lines. UnderLoad job.now (AreShipLines hull.now job.now) lines.items) }
    ensures few { IfOk result (λ lines. length lines.items ≤ 196) }
    ensures grammar { IfOk result (λ lines. AreLines lines.items) }
{
    let damages = job.damages.as_slice();
    let mut lines = judged_lines(alloc, faces, job, loading, standing)?;
    lines.extend_from_slice(&case_lines(alloc, faces, damages, loading, &job.water)?)?;
    lines.extend_from_slice(&length_lines(alloc, hull, faces, job, loading)?)?;
    load_first(alloc, job.version, loading, &lines)
}
