// Sections of a hull.
ghost use Rattle.std.specs.Prelude.{◌≡◌, ◌≤◌, ◌<◌, ◌*◌, pos, true, IfOk, IfErr, length};
ghost use Rattle.std.specs.List.{list_all};
ghost use Rattle.hull_model.specs.Body.{IsWithin};
ghost use Rattle.job_reader.specs.Limits.{is_from};
ghost use Rattle.hull_report.specs.Spelling.{IsLine, AreLines};
ghost use Rattle.hull_cli.specs.Report.{IsSectionReport};
ghost use Rattle.hull_cli.specs.Sections.{IsSectionLine, AreSectionLines};
ghost use Rattle.hull_cli.specs.Stops.{StopsSection};
ghost use Rattle.hull_cli.specs.Tables.{AreBonjeanLines};

use crate::hull_line::hull_line;
use bonjean_curves::section;
use exact_fraction::Memory;
use hull_model::{Hull, Station};
use hull_report::{Command, Line};
use report_run::{Refusal, Stop};
use std::alloc::Global;

/// The report on one station.
pub(crate) fn section_report(
    alloc: Global,
    hull: &Hull,
    station: u32,
    draft: u32,
) -> Result<Vec<Line>, Stop>
    requires { draft ≤ 131071 }
    ensures reports { IfOk result (λ lines. IsSectionReport hull.now station draft lines.items) }
    ensures grammar { IfOk result (λ lines. AreLines lines.items) }
    ensures stops { IfErr result (StopsSection hull.now station) }
{
    if station as usize >= hull.stations().len() {
        return Err(Stop::Refused(Refusal::Station(station)));
    }
    let lines = [
        Line::Header {
            version: 1,
            command: Command::Section,
        },
        hull_line(hull),
        section_line(hull, station as usize, draft),
        Line::End { lines: 4 },
    ];
    Ok(Vec::from_slice(alloc, &lines)?)
}

/// The lines of all stations, draft after draft.
pub(crate) fn bonjean_lines(alloc: Global, hull: &Hull, drafts: &[u32]) -> Result<Vec<Line>, Memory>
    requires { list_all (is_from 0 131071) drafts.now ≡ true }
    ensures lines { IfOk result (λ lines. AreBonjeanLines hull.now drafts.now lines.items) }
    ensures count { IfOk result (λ lines. length lines.items ≡ length drafts.now * length hull.now) }
    ensures grammar { IfOk result (λ lines. AreLines lines.items) }
{
    let mut lines = Vec::new(alloc);
    for draft in drafts {
        let sections = section_lines(alloc, hull, *draft)?;
        lines.extend_from_slice(&sections)?;
    }
    Ok(lines)
}

// The lines of all stations at a draft.
fn section_lines(alloc: Global, hull: &Hull, draft: u32) -> Result<Vec<Line>, Memory>
    requires { draft ≤ 131071 }
    ensures lines { IfOk result (λ lines. AreSectionLines hull.now draft lines.items) }
    ensures grammar { IfOk result (λ lines. AreLines lines.items) }
{
    let mut lines = Vec::new(alloc);
    for station in 0..hull.stations().len() {
        lines.push(section_line(hull, station, draft))?;
    }
    Ok(lines)
}

fn section_line(hull: &Hull, station: usize, draft: u32) -> Line
    requires there { station < length hull.now }
    requires draft { draft ≤ 131071 }
    ensures line { IsSectionLine hull.now draft station result }
    ensures grammar { IsLine result }
{
    let at = &hull.stations()[station];
    let spans = section(hull, station, draft);
    Line::Section {
        station: station as u32,
        x: place_of(at),
        draft,
        area: spans.area.figure(6, 6),
        moment: spans.moment.figure(9, 9),
    }
}

// The x of a station, in mm.
fn place_of(station: &Station) -> u32
    requires { IsWithin (pos 524287) station.now.x }
    ensures { pos result ≡ station.now.x }
{
    station.x as u32
}
