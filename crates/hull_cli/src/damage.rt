// Damage cases of a hull with the items of a job.
ghost use Rattle.std.specs.Prelude.{◌≡◌, ◌≤◌, List, IfOk, IfErr, length};
ghost use Rattle.draft_bracket.specs.DraftBracket.{OfHulls};
ghost use Rattle.hull_report.specs.Spelling.{AreLines, AreWords, IsLine, end_words, sides_words};
ghost use Rattle.outward_interval.specs.Ends.{EndsBelow};
ghost use Rattle.damage_box.specs.Residuals.{IsHullOf};
ghost use Rattle.hull_model.specs.declared.station.Station.{Station};
ghost use Rattle.hull_cli.specs.Damages as spec;
ghost use Rattle.hull_cli.specs.Damages.{AreDamageLines, AreOfSomeHull, EndsAs, IsCaseLine};
ghost use Rattle.hull_cli.specs.Lists.{NumberedPairs};
ghost use Rattle.hull_cli.specs.Loads.{UnderLoad};
ghost use Rattle.hull_cli.specs.Stops.{StopsLoad};

use crate::loading::{load_first, loading_of};
use crate::units::PLACES;
use compartment_loss::{FloodedHull, flood};
use damage_box::{DraftBox, SettleFault, Tip, settle};
use exact_fraction::Memory;
use hull_model::Water;
use hull_polyhedron::Faces;
use hull_report::{CaseEnd, Line, Sides};
use job_reader::{Damage, Job};
use loading_sheet::Loading;
use report_run::Stop;
use std::alloc::Global;

/// Of a span in mm³, the power of ten to m³.
const TO_CUBIC_METRES: u32 = 9;

/// The load, and how each damage case ends. Stops where the items make no loading. The faces are the hull's boundary.
pub(crate) fn damage_lines(alloc: Global, faces: &Faces, job: &Job) -> Result<Vec<Line>, Stop>
    requires { AreOfSomeHull faces.now }
    ensures lines { IfOk result (λ lines. OfHulls faces.now (λ hull. UnderLoad job.now (AreDamageLines hull job.now) lines.items)) }
    ensures few { IfOk result (λ lines. length lines.items ≤ 33) }
    ensures grammar { IfOk result (λ lines. AreLines lines.items) }
    ensures stops { IfErr result (StopsLoad job.now.items) }
{
    let loading = loading_of(job.items.as_slice())?;
    let cases = case_lines(alloc, faces, job.damages.as_slice(), &loading, &job.water)?;
    Ok(load_first(alloc, job.version, &loading, &cases)?)
}

/// A line for each case, numbered from 1. The faces are the hull's boundary.
pub(crate) fn case_lines(
    alloc: Global,
    faces: &Faces,
    damages: &[Damage],
    loading: &Loading,
    water: &Water,
) -> Result<Vec<Line>, Memory>
    requires few { length damages.now ≤ 32 }
    requires faces { AreOfSomeHull faces.now }
    ensures lines { IfOk result (λ lines. OfHulls faces.now (λ hull. NumberedPairs (IsCaseLine hull water.now loading.now) 1 damages.now lines.items)) }
    ensures count { IfOk result (λ lines. length lines.items ≡ length damages.now) }
    ensures grammar { IfOk result (λ lines. AreLines lines.items) }
{
    let mut lines = Vec::new(alloc);
    let mut case = 0;
    for damage in damages {
        case += 1;
        lines.push(case_line(alloc, faces, case, damage, loading, water)?)?;
    }
    Ok(lines)
}

fn case_line(
    alloc: Global,
    faces: &Faces,
    case: u32,
    damage: &Damage,
    loading: &Loading,
    water: &Water,
) -> Result<Line, Memory>
    requires { AreOfSomeHull faces.now }
    ensures line { IfOk result (λ line. OfHulls faces.now (λ hull. IsCaseLine hull water.now loading.now case damage.now line)) }
    ensures grammar { IfOk result IsLine }
{
    let flooded = flood(alloc, faces, damage.slabs.as_slice())?;
    Ok(Line::Damage {
        case,
        end: end_of(&flooded, loading, water),
    })
}

// How a flooded hull ends.
fn end_of(flooded: &FloodedHull, loading: &Loading, water: &Water) -> CaseEnd
    requires { (hull : List Station) × IsHullOf flooded.now hull }
    ensures ends { (hull : List Station) → IsHullOf flooded.now hull → EndsAs flooded.now loading.now water.now hull result }
    ensures grammar { AreWords (end_words result) }
{
    match settle(flooded, loading, water) {
        Ok(levels) => CaseEnd::Settled {
            sides: sides_of(&levels),
        },
        Err(SettleFault::Sinks { left }) => CaseEnd::Sinks {
            left: left.figure(TO_CUBIC_METRES, PLACES),
        },
        Err(SettleFault::NoStart { tip: Tip::Fore, .. }) => CaseEnd::NoStartFore,
        Err(SettleFault::NoStart { tip: Tip::Aft, .. }) => CaseEnd::NoStartAft,
    }
}

/// The levels of a box, as they are printed.
pub(crate) fn sides_of(levels: &DraftBox) -> Sides
    ensures sides { result ≡ spec.sides_of levels.now }
    ensures grammar { AreWords (sides_words result) }
{
    Sides {
        a1: levels.a1,
        a2: levels.a2,
        f1: levels.f1,
        f2: levels.f2,
    }
}
