// Floodable lengths of a hull with the items of a job.
ghost use Rattle.std.specs.Prelude.{◌≡◌, ◌≤◌, ◌*◌, pos, ◌≤ℤ◌, IfOk, IfErr, IfSome, length};
ghost use Rattle.hull_model.specs.Body.{IsHull, IsWithin};
ghost use Rattle.hull_polyhedron.specs.FacesOf.{AreFacesOf};
ghost use Rattle.hull_report.specs.Spelling.{AreLines, AreWords, IsLine, reason_words};
ghost use Rattle.floodable_length.specs.Reach.{IsReach};
ghost use Rattle.job_reader.specs.Limits.{is_from};
ghost use Rattle.hull_cli.specs.Lengths.{AreFloodableLines, AreLinesOfCentre, AreLinesOfPlan, IsNextLine, IsReasonLine, IsSafeLine};
ghost use Rattle.hull_cli.specs.Lists.{Joined};
ghost use Rattle.hull_cli.specs.Loads.{UnderLoad};
ghost use Rattle.hull_cli.specs.Stops.{StopsLoad};

use crate::damage::sides_of;
use crate::loading::{load_first, loading_of};
use exact_fraction::Memory;
use floodable_length::{Reach, Reason, floodable};
use hull_model::Hull;
use hull_polyhedron::Faces;
use hull_report::{Line, ReasonLine, SafeBox};
use job_reader::{FloodPlan, Job};
use loading_sheet::Loading;
use report_run::Stop;
use std::alloc::Global;

/// The load, and at each centre of the job's plan how far the ship may flood. Stops where the items make no loading. The
/// faces are the hull's boundary.
pub(crate) fn floodable_lines(
    alloc: Global,
    hull: &Hull,
    faces: &Faces,
    job: &Job,
) -> Result<Vec<Line>, Stop>
    requires { AreFacesOf hull.now faces.now }
    ensures lines { IfOk result (λ lines. UnderLoad job.now (AreFloodableLines hull.now job.now) lines.items) }
    ensures few { IfOk result (λ lines. length lines.items ≤ 65) }
    ensures grammar { IfOk result (λ lines. AreLines lines.items) }
    ensures stops { IfErr result (StopsLoad job.now.items) }
{
    let loading = loading_of(job.items.as_slice())?;
    let lengths = length_lines(alloc, hull, faces, job, &loading)?;
    Ok(load_first(alloc, job.version, &loading, &lengths)?)
}

/// The lines of the centres, if the job has a plan. The faces are the hull's boundary.
pub(crate) fn length_lines(
    alloc: Global,
    hull: &Hull,
    faces: &Faces,
    job: &Job,
    loading: &Loading,
) -> Result<Vec<Line>, Memory>
    requires { AreFacesOf hull.now faces.now }
    ensures lines { IfOk result (λ lines. AreLinesOfPlan (record { stations = hull.now; faces = faces.now; loading = loading.now; water = job.now.water; margin = job.now.margin }) job.now.floodable lines.items) }
    ensures few { IfOk result (λ lines. length lines.items ≤ 64) }
    ensures grammar { IfOk result (λ lines. AreLines lines.items) }
{
    match &job.floodable {
        Some(plan) => plan_lines(alloc, hull, faces, job, loading, plan),
        None => Ok(Vec::new(alloc)),
    }
}

// The lines of all centres of a plan.
fn plan_lines(
    alloc: Global,
    hull: &Hull,
    faces: &Faces,
    job: &Job,
    loading: &Loading,
    plan: &FloodPlan,
) -> Result<Vec<Line>, Memory>
    requires { AreFacesOf hull.now faces.now }
    ensures lines { IfOk result (λ lines. Joined (AreLinesOfCentre (record { stations = hull.now; faces = faces.now; loading = loading.now; water = job.now.water; margin = job.now.margin }) plan.now) plan.now.centres lines.items) }
    ensures few { IfOk result (λ lines. length lines.items ≤ 64) }
    ensures grammar { IfOk result (λ lines. AreLines lines.items) }
{
    let mut lines = Vec::new(alloc);
    for centre in plan.centres.as_slice() {
        let at = centre_lines(alloc, hull, faces, job, loading, plan, *centre)?;
        lines.extend_from_slice(&at)?;
    }
    Ok(lines)
}

// The lines of a centre.
fn centre_lines(
    alloc: Global,
    hull: &Hull,
    faces: &Faces,
    job: &Job,
    loading: &Loading,
    plan: &FloodPlan,
    centre: i64,
) -> Result<[Line; 2], Memory>
    requires faces { AreFacesOf hull.now faces.now }
    requires centre { IsWithin (pos 524287) centre }
    ensures lines { IfOk result (λ lines. AreLinesOfCentre (record { stations = hull.now; faces = faces.now; loading = loading.now; water = job.now.water; margin = job.now.margin }) plan.now centre lines) }
    ensures grammar { IfOk result (λ lines. AreLines lines) }
{
    let reach = floodable(
        alloc,
        hull,
        faces,
        loading,
        &job.water,
        job.margin,
        centre,
        plan.step,
        plan.permeability,
    )?;
    Ok([safe_line(centre, &reach), next_line(centre, &reach)])
}

// The length that is safe.
fn safe_line(centre: i64, reach: &Reach) -> Line
    requires centre { IsWithin (pos 524287) centre }
    requires length { IfSome reach.now.safe (λ safe. IsWithin (pos 524287) safe.0) }
    ensures line { IsSafeLine centre reach.now result }
    ensures grammar { IsLine result }
{
    Line::Safe {
        centre: centre as u32,
        reach: match reach.safe {
            Some((length, levels)) => Some(SafeBox {
                length: length as u32,
                sides: sides_of(&levels),
            }),
            None => None,
        },
    }
}

// The length one step longer, and why it isn't safe.
fn next_line(centre: i64, reach: &Reach) -> Line
    requires centre { IsWithin (pos 524287) centre }
    requires length { IsWithin (pos 624287) reach.now.next.0 }
    ensures line { IsNextLine centre reach.now result }
    ensures grammar { IsLine result }
{
    let (length, reason) = reach.next;
    Line::Next {
        centre: centre as u32,
        length: length as u32,
        reason: reason_of(reason),
    }
}

fn reason_of(reason: Reason) -> ReasonLine
    ensures words { IsReasonLine reason result }
    ensures grammar { AreWords (reason_words result) }
{
    match reason {
        Reason::EndOfShip => ReasonLine::EndOfShip,
        Reason::Sinks => ReasonLine::Sinks,
        Reason::NoStart => ReasonLine::NoStart,
        Reason::Over { station, at } => ReasonLine::Over {
            station,
            sides: sides_of(&at),
        },
        Reason::Touch { station, at } => ReasonLine::Touch {
            station,
            sides: sides_of(&at),
        },
    }
}
