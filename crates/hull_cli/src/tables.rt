// Tables of what a job asks for.
ghost use Rattle.std.specs.Prelude.{◌≡◌, ◌≤◌, ◌+◌, ◌^◌, [], ◌∷◌, ◌++◌, IfOk, IfErr, length};
ghost use Rattle.draft_bracket.specs.DraftBracket.{six_of};
ghost use Rattle.hull_model.specs.Body.{IsHull};
ghost use Rattle.hull_polyhedron.specs.FacesOf.{AreFacesOf};
ghost use Rattle.hull_report.specs.Spelling.{AreLines};
ghost use Rattle.hull_report.specs.declared.line.Line.TheVariants as line;
ghost use Rattle.hull_cli.specs.Report as report;
ghost use Rattle.hull_cli.specs.Report.{IsTablesReport};
ghost use Rattle.hull_cli.specs.Stops.{StopsTables};
ghost use Rattle.hull_cli.specs.Tables.{AreTableLines};
ghost use Rattle.hull_cli.specs.Words.{HasTables};

use crate::all::all_lines;
use crate::cross::cross_lines;
use crate::damage::damage_lines;
use crate::floodable::floodable_lines;
use crate::hull_line::hull_line;
use crate::hydro::hydro_lines;
use crate::section::bonjean_lines;
use crate::stability::stability_lines;
use exact_fraction::Memory;
use hull_model::Hull;
use hull_polyhedron::{Faces, faces_of, six_volume};
use hull_report::{Command, Line};
use job_reader::Job;
use report_run::Stop;
use std::alloc::Global;

/// The report of a command's tables.
pub(crate) fn tables_report(
    alloc: Global,
    command: Command,
    hull: &Hull,
    job: &Job,
) -> Result<Vec<Line>, Stop>
    requires { HasTables command }
    ensures reports { IfOk result (λ lines. IsTablesReport command hull.now job.now lines.items) }
    ensures grammar { IfOk result (λ lines. AreLines lines.items) }
    ensures stops { IfErr result (StopsTables command job.now hull.now) }
{
    let faces = faces_of(alloc, hull)?;
    let first = first_lines(job, command, hull, &faces);
    let rows = table_lines(alloc, command, hull, &faces, job)?;
    Ok(report_lines(alloc, &first, &rows)?)
}

/// The first lines of a report: the header, the hull and the body. The faces are the hull's boundary.
pub(crate) fn first_lines(job: &Job, command: Command, hull: &Hull, faces: &Faces) -> [Line; 3]
    requires { AreFacesOf hull.now faces.now }
    ensures lines { result ≡ line.Header job.now.version command ∷ report.hull_line hull.now ∷ line.Body (six_of hull.now) ∷ [] }
    ensures kept { IsHull hull.now }
    ensures grammar { AreLines result }
{
    [
        Line::Header {
            version: job.version,
            command,
        },
        hull_line(hull),
        Line::Body {
            six: six_volume(faces),
        },
    ]
}

fn table_lines(
    alloc: Global,
    command: Command,
    hull: &Hull,
    faces: &Faces,
    job: &Job,
) -> Result<Vec<Line>, Stop>
    requires command { HasTables command }
    requires hull { IsHull hull.now }
    requires faces { AreFacesOf hull.now faces.now }
    ensures lines { IfOk result (λ lines. AreTableLines command hull.now job.now lines.items) }
    ensures few { IfOk result (λ lines. length lines.items ≤ 2 ^ 31) }
    ensures grammar { IfOk result (λ lines. AreLines lines.items) }
    ensures stops { IfErr result (StopsTables command job.now hull.now) }
{
    let drafts = job.drafts.as_slice();
    match command {
        Command::Hydro => Ok(hydro_lines(alloc, faces, &job.water, drafts)?),
        Command::Bonjean => Ok(bonjean_lines(alloc, hull, drafts)?),
        Command::Cross => cross_lines(alloc, faces, &job.water, job.masses.as_slice()),
        Command::Stability => stability_lines(alloc, faces, job),
        Command::Damage => damage_lines(alloc, faces, job),
        Command::Floodable => floodable_lines(alloc, hull, faces, job),
        Command::All => all_lines(alloc, hull, faces, job),
        _ => unreachable!(),
    }
}

/// Rows between the first lines and the last, which counts all.
pub(crate) fn report_lines(
    alloc: Global,
    first: &[Line; 3],
    rows: &[Line],
) -> Result<Vec<Line>, Memory>
    requires few { length rows.now ≤ 2 ^ 31 }
    requires first { AreLines first.now }
    requires rows { AreLines rows.now }
    ensures lines { IfOk result (λ lines. lines.items ≡ first.now ++ (rows.now ++ line.End (4 + length rows.now) ∷ [])) }
    ensures grammar { IfOk result (λ lines. AreLines lines.items) }
{
    let end = Line::End {
        lines: 4 + rows.len() as u32,
    };
    let mut lines = Vec::from_slice(alloc, first)?;
    lines.extend_from_slice(rows)?;
    lines.push(end)?;
    Ok(lines)
}
