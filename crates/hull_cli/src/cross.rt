// Cross curves of a hull.
ghost use Rattle.std.specs.Prelude.{◌≡◌, ◌↔◌, ◌≤◌, ◌*◌, ◌^◌, true, IsErr, IfOk, IfErr, length};
ghost use Rattle.std.specs.List.{list_all};
ghost use Rattle.exact_fraction.specs.Fraction.{fraction_of};
ghost use Rattle.cross_curves.specs.Kn.{IsBigNeed};
ghost use Rattle.draft_bracket.specs.DraftBracket.{IsNeed, IsTooHeavy, OfHulls, six_of};
ghost use Rattle.hull_report.specs.Spelling.{AreLines, IsLine};
ghost use Rattle.job_reader.specs.Limits.{is_from};
ghost use Rattle.loading_sheet.specs.Centre.{displaced_by};
ghost use Rattle.hull_cli.specs.Curves.{AreCrossLines, IsCrossLine, IsCurve};
ghost use Rattle.hull_cli.specs.Stops.{StopsCurve, StopsCurves};

use crate::units::{PLACES, TO_METRES};
use angle_bounds::{Degree, bracket_of};
use cross_curves::kn_near;
use draft_bracket::{Guess, TooHeavy};
use exact_fraction::Ratio;
use hull_model::Water;
use hull_polyhedron::Faces;
use hull_report::Line;
use loading_sheet::volume_displaced;
use report_run::{Refusal, Stop};
use std::alloc::Global;

/// The lines of a hull at displacements in kg: for each a line at every whole degree of heel. Stops at the first that is
/// too heavy. The faces are the hull's boundary.
pub(crate) fn cross_lines(
    alloc: Global,
    faces: &Faces,
    water: &Water,
    masses: &[u64],
) -> Result<Vec<Line>, Stop>
    requires { list_all (is_from 1 68719476736) masses.now ≡ true }
    ensures lines { IfOk result (λ lines. OfHulls faces.now (λ hull. AreCrossLines hull water.now masses.now lines.items)) }
    ensures count { IfOk result (λ lines. length lines.items ≡ length masses.now * 91) }
    ensures grammar { IfOk result (λ lines. AreLines lines.items) }
    ensures stops { IfErr result (λ why. OfHulls faces.now (λ hull. StopsCurves hull water.now masses.now why)) }
{
    let mut lines = Vec::new(alloc);
    for mass in masses {
        let curve = curve(alloc, faces, water, *mass)?;
        lines.extend_from_slice(&curve)?;
    }
    Ok(lines)
}

// The lines of one displacement, from 0 degrees to 90.
fn curve(alloc: Global, faces: &Faces, water: &Water, mass: u64) -> Result<Vec<Line>, Stop>
    requires some { 1 ≤ mass }
    requires most { mass ≤ 2 ^ 36 }
    ensures lines { IfOk result (λ lines. OfHulls faces.now (λ hull. IsCurve hull water.now mass lines.items)) }
    ensures count { IfOk result (λ lines. length lines.items ≡ 91) }
    ensures light { IfOk result (λ _. OfHulls faces.now (λ hull. ¬ (IsTooHeavy hull (displaced_by mass water.now)))) }
    ensures grammar { IfOk result (λ lines. AreLines lines.items) }
    ensures stops { IfErr result (λ why. OfHulls faces.now (λ hull. StopsCurve hull water.now mass why)) }
{
    let mut guess = Guess::new();
    let mut lines = Vec::new(alloc);
    for degree in 0..91 {
        match cross_line(faces, water, mass, degree, &mut guess) {
            Ok(line) => lines.push(line)?,
            Err(TooHeavy { six }) => return Err(Stop::Refused(Refusal::Heavy { mass, six })),
        }
    }
    Ok(lines)
}

fn cross_line(
    faces: &Faces,
    water: &Water,
    mass: u64,
    degree: u32,
    guess: &mut Guess,
) -> Result<Line, TooHeavy>
    requires some { 1 ≤ mass }
    requires most { mass ≤ 2 ^ 36 }
    requires degree { degree ≤ 90 }
    ensures line { IfOk result (λ line. OfHulls faces.now (λ hull. IsCrossLine hull water.now mass degree line)) }
    ensures grammar { IfOk result IsLine }
    ensures too_heavy { OfHulls faces.now (λ hull. IsErr result ↔ IsTooHeavy hull (displaced_by mass water.now)) }
    ensures six { IfErr result (λ e. OfHulls faces.now (λ hull. e.six ≡ six_of hull)) }
{
    let bracket = match Degree::new(degree) {
        Some(degree) => bracket_of(degree),
        None => unreachable!(),
    };
    match kn_near(faces, &bracket, &need_of(mass, water), guess) {
        Ok(cell) => Ok(Line::Cross {
            mass,
            degree,
            d1: cell.drafts.d1,
            d2: cell.drafts.d2,
            kn: cell.kn.figure(TO_METRES, PLACES),
        }),
        Err(e) => Err(e),
    }
}

// The volume that a mass displaces, as it is asked of draft brackets.
fn need_of(mass: u64, water: &Water) -> Ratio
    requires some { 1 ≤ mass }
    requires most { mass ≤ 2 ^ 36 }
    ensures same { fraction_of result ≡ displaced_by mass water.now }
    ensures need { IsNeed result }
    ensures big { IsBigNeed (fraction_of result) }
{
    volume_displaced(mass, water)
}
