// The report on a made ship.
ghost use Rattle.std.specs.Prelude.{◌≡◌, ◌≤◌, ◌^◌, ℕ, IfOk, length};
ghost use Rattle.hull_maker.specs.MadeHull.{stations_of};
ghost use Rattle.hull_maker.specs.MadeJob.{IsMadeJob};
ghost use Rattle.hull_model.specs.Body.{IsHull};
ghost use Rattle.hull_polyhedron.specs.FacesOf.{AreFacesOf};
ghost use Rattle.hull_report.specs.Spelling.{AreLines};
ghost use Rattle.intact_criteria.specs.Tables.{AreRowsOf};
ghost use Rattle.loading_sheet.specs.Loads.{IsLoadingOf};
ghost use Rattle.hull_cli.specs.Loads.{UnderLoad};
ghost use Rattle.hull_cli.specs.Report.{IsMadeReport};
ghost use Rattle.hull_cli.specs.Tables.{AreMadeLines, AreTrialLines};

use crate::damage::case_lines;
use crate::hydro::hydro_lines;
use crate::loading::load_first;
use crate::stability::{Standing, finding_lines, standing_of};
use crate::tables::{first_lines, report_lines};
use exact_fraction::Memory;
use hull_maker::{made_hull, made_job, the_made_ship_floats};
use hull_model::Hull;
use hull_polyhedron::{Faces, faces_of};
use hull_report::{Command, Line};
use job_reader::Job;
use loading_sheet::{Loading, load};
use std::alloc::Global;

/// The report on the made ship of a seed, which no file takes part in and nothing refuses.
pub(crate) fn made_report(alloc: Global, seed: u32) -> Result<Vec<Line>, Memory>
    ensures reports { IfOk result (λ lines. IsMadeReport seed lines.items) }
    ensures grammar { IfOk result (λ lines. AreLines lines.items) }
{
    let hull = made_hull(alloc, seed)?;
    let job = made_job(alloc)?;
    let faces = faces_of(alloc, &hull)?;
    let first = first_lines(&job, Command::Make, &hull, &faces);
    let rows = made_lines(alloc, &hull, &faces, &job)?;
    report_lines(alloc, &first, &rows)
}

// The hydro lines, the load, and what is found under it.
fn made_lines(alloc: Global, hull: &Hull, faces: &Faces, job: &Job) -> Result<Vec<Line>, Memory>
    requires hull { IsHull hull.now }
    requires seed { (seed : ℕ) × (hull.now ≡ stations_of seed) }
    requires faces { AreFacesOf hull.now faces.now }
    requires made { IsMadeJob job.now }
    ensures lines { IfOk result (λ lines. AreMadeLines hull.now job.now lines.items) }
    ensures few { IfOk result (λ lines. length lines.items ≤ 2 ^ 31) }
    ensures grammar { IfOk result (λ lines. AreLines lines.items) }
{
    let loading = made_loading(job);
    let standing = made_standing(hull, faces, job, &loading);
    let drafts = job.drafts.as_slice();
    let mut lines = hydro_lines(alloc, faces, &job.water, drafts)?;
    lines.extend_from_slice(&trial_lines(alloc, hull, faces, job, &loading, &standing)?)?;
    Ok(lines)
}

// The loading of a made job, which always has one.
fn made_loading(job: &Job) -> Loading
    requires { IsMadeJob job.now }
    ensures { IsLoadingOf job.now.items result }
{
    the_made_ship_floats();
    match load(job.items.as_slice()) {
        Ok(loading) => loading,
        Err(_) => unreachable!(),
    }
}

// The levers of a made ship, which always floats.
fn made_standing(hull: &Hull, faces: &Faces, job: &Job, loading: &Loading) -> Standing
    requires hull { IsHull hull.now }
    requires seed { (seed : ℕ) × (hull.now ≡ stations_of seed) }
    requires faces { AreFacesOf hull.now faces.now }
    requires made { IsMadeJob job.now }
    requires loaded { IsLoadingOf job.now.items loading.now }
    ensures { AreRowsOf faces.now loading.now job.now.water result.arms result.upright }
{
    the_made_ship_floats();
    match standing_of(faces, loading, &job.water) {
        Ok(standing) => standing,
        Err(_) => unreachable!(),
    }
}

// The load, the ship upright, the marks, the verdict and the damage cases.
fn trial_lines(
    alloc: Global,
    hull: &Hull,
    faces: &Faces,
    job: &Job,
    loading: &Loading,
    standing: &Standing,
) -> Result<Vec<Line>, Memory>
    requires hull { IsHull hull.now }
    requires faces { AreFacesOf hull.now faces.now }
    requires loaded { IsLoadingOf job.now.items loading.now }
    requires rows { AreRowsOf faces.now loading.now job.now.water standing.now.arms standing.now.upright }
    ensures lines { IfOk result (λ lines. UnderLoad job.now (AreTrialLines hull.now job.now) lines.items) }
    ensures few { IfOk result (λ lines. length lines.items ≤ 41) }
    ensures grammar { IfOk result (λ lines. AreLines lines.items) }
{
    let damages = job.damages.as_slice();
    let mut lines = finding_lines(alloc, faces, job, loading, standing, &[])?;
    lines.extend_from_slice(&case_lines(alloc, faces, damages, loading, &job.water)?)?;
    load_first(alloc, job.version, loading, &lines)
}
