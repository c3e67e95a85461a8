// Hydrostatic rows of a hull.
ghost use Rattle.std.specs.Prelude.{◌≡◌, ◌≤◌, true, List, IfOk, length};
ghost use Rattle.std.specs.List.{list_all};
ghost use Rattle.hull_model.specs.declared.station.Station.{Station};
ghost use Rattle.hull_model.specs.Body.{IsHull};
ghost use Rattle.hull_polyhedron.specs.FacesOf.{AreFacesOf};
ghost use Rattle.hydro_tables.specs.Row.{AreBounded, IsBoundedIfThere};
ghost use Rattle.job_reader.specs.Limits.{is_from};
ghost use Rattle.hull_report.specs.Spelling.{IsLine, IsWord, AreLines, AreWords, figure_or_absent, figure_words, may_be_absent};
ghost use Rattle.hull_cli.specs.Lists.{Pairwise};
ghost use Rattle.hull_cli.specs.Tables.{AreHydroLines, IsHydroLine, IsFigureOf, IsColumnFigure, columns_of};

use crate::units::PLACES;
use exact_fraction::Memory;
use hull_model::Water;
use hull_polyhedron::Faces;
use hull_report::Line;
use hydro_tables::{HydroRow, hydro_row};
use outward_interval::{Figure, Span};
use std::alloc::Global;

/// The lines of a hull at drafts; the faces are the hull's boundary.
pub(crate) fn hydro_lines(
    alloc: Global,
    faces: &Faces,
    water: &Water,
    drafts: &[u32],
) -> Result<Vec<Line>, Memory>
    requires { list_all (is_from 0 131071) drafts.now ≡ true }
    ensures lines { IfOk result (λ lines. (hull : List Station) → IsHull hull → AreFacesOf hull faces.now → AreHydroLines hull water.now drafts.now lines.items) }
    ensures count { IfOk result (λ lines. length lines.items ≡ length drafts.now) }
    ensures grammar { IfOk result (λ lines. AreLines lines.items) }
{
    let mut lines = Vec::new(alloc);
    for draft in drafts {
        lines.push(hydro_line(faces, water, *draft))?;
    }
    Ok(lines)
}

fn hydro_line(faces: &Faces, water: &Water, draft: u32) -> Line
    requires { draft ≤ 131071 }
    ensures line { (hull : List Station) → IsHull hull → AreFacesOf hull faces.now → IsHydroLine hull water.now draft result }
    ensures grammar { IsLine result }
{
    let row = hydro_row(faces, water, draft);
    Line::Hydro {
        draft,
        figures: figures_of(&row),
    }
}

// The row as it is printed: m³, t, m, m, m², m, m, m, m, t/cm, t·m/cm.
fn figures_of(row: &HydroRow) -> [Option<Figure>; 11]
    requires { AreBounded row.now }
    ensures printed { Pairwise IsColumnFigure (columns_of row.now) result }
    ensures words { AreWords (figure_words may_be_absent result) }
{
    [
        figure_of(Some(row.volume), 9),
        figure_of(Some(row.displacement), 0),
        figure_of(row.lcb, 3),
        figure_of(row.kb, 3),
        figure_of(Some(row.area), 6),
        figure_of(row.lcf, 3),
        figure_of(row.bmt, 3),
        figure_of(row.bml, 3),
        figure_of(row.kmt, 3),
        figure_of(Some(row.tpc), 0),
        figure_of(row.mct, 0),
    ]
}

fn figure_of(span: Option<Span<20>>, shift: u32) -> Option<Figure>
    requires shift { shift ≤ 12 }
    requires ends { IsBoundedIfThere span }
    ensures printed { IsFigureOf shift span result }
    ensures word { IsWord (figure_or_absent true result) }
{
    match span {
        Some(span) => Some(span.figure(shift, PLACES)),
        None => None,
    }
}
