// The levers at each whole degree.
ghost use Rattle.std.specs.Prelude.{◌≡◌, ◌↔◌, ◌≤◌, ℕ, Some, IsErr, IfOk, IfErr, slice_get};
ghost use Rattle.hull_polyhedron.specs.FacesOf.{AreFacesOf};
ghost use Rattle.angle_bounds.specs.declared.bracket.Bracket.{Bracket};
ghost use Rattle.draft_bracket.specs.DraftBracket.{OfHulls, six_of, IsTooHeavy, IsSharpBracket};
ghost use Rattle.loading_sheet.specs.Centre.{displaced};
ghost use Rattle.dynamic_lever.specs.declared.rows.Arm.{Arm};
ghost use Rattle.dynamic_lever.specs.Levers.{gz, separation};
ghost use Rattle.dynamic_lever.specs.Rows.{HoldOnSides, AreNarrowLevers, AreLeversOver, IsArmAt};
ghost use Rattle.dynamic_lever.specs.Sides.{AreSmallLevers};

use crate::levers::levers_in;
use crate::need::need_of;
use crate::rows::{Arm, ArmTable};
use angle_bounds::{Bracket, Degree, bracket_of};
use draft_bracket::{Drafts, Guess, TooHeavy, float_near};
use flux_moments::PlaneBox;
use hull_model::Water;
use hull_polyhedron::Faces;
use loading_sheet::Loading;

/// The righting levers and separations of a loading to both sides, at each whole degree of heel from 0 to 90.
///
/// Each row has the sharp draft bracket of the displaced volume, as `float_at` gives it, and encloses the figures in mm at
/// every level plane of it. Their widths are those of [`levers_in`] over the box of these planes, and their ends lie below
/// 2^95 in magnitude. TooHeavy comes exactly where the ship displaces more than the whole hull has. The faces are the hull's
/// boundary.
pub fn arms(faces: &Faces, loading: &Loading, water: &Water) -> Result<ArmTable, TooHeavy>
    ensures rows { IfOk result (λ table. (k : ℕ) (arm : Arm) → slice_get table.rows k ≡ Some arm → IsArmAt faces.now loading.now water.now k arm) }
    ensures too_heavy { OfHulls faces.now (λ hull. IsErr result ↔ IsTooHeavy hull (displaced loading.now water.now)) }
    ensures six { IfErr result (λ e. OfHulls faces.now (λ hull. e.six ≡ six_of hull)) }
{
    let mut guess = Guess::new();
    let upright = arm_at(faces, 0, loading, water, &mut guess)?;
    let mut rows = [upright; 91];
    for k in 1..91 {
        rows[k as usize] = arm_at(faces, k, loading, water, &mut guess)?;
    }
    Ok(ArmTable { rows })
}

fn arm_at(
    faces: &Faces,
    k: u32,
    loading: &Loading,
    water: &Water,
    guess: &mut Guess,
) -> Result<Arm, TooHeavy>
    requires degree { k ≤ 90 }
    ensures row { IfOk result (IsArmAt faces.now loading.now water.now k) }
    ensures too_heavy { OfHulls faces.now (λ hull. IsErr result ↔ IsTooHeavy hull (displaced loading.now water.now)) }
    ensures six { IfErr result (λ e. OfHulls faces.now (λ hull. e.six ≡ six_of hull)) }
{
    let bracket = match Degree::new(k) {
        Some(degree) => bracket_of(degree),
        None => unreachable!(),
    };
    match float_near(faces, &bracket, &need_of(loading, water), guess) {
        Ok(drafts) => Ok(arm_over(faces, &bracket, drafts, loading, water)),
        Err(e) => Err(e),
    }
}

// The row of a draft bracket that was found.
fn arm_over(
    faces: &Faces,
    bracket: &Bracket,
    drafts: Drafts,
    loading: &Loading,
    water: &Water,
) -> Arm
    ensures drafts { result.drafts ≡ drafts }
    ensures gz { OfHulls faces.now (HoldOnSides bracket.now drafts.d1 drafts.d2 (gz loading.now water.now) result.gz) }
    ensures sep { OfHulls faces.now (HoldOnSides bracket.now drafts.d1 drafts.d2 (separation loading.now water.now) result.sep) }
    ensures gz_width { AreNarrowLevers bracket.now drafts.d1 drafts.d2 faces.now loading.now water.now result.gz }
    ensures sep_width { AreNarrowLevers bracket.now drafts.d1 drafts.d2 faces.now loading.now water.now result.sep }
    ensures gz_ends { AreSmallLevers result.gz }
    ensures sep_ends { AreSmallLevers result.sep }
{
    match PlaneBox::level(*bracket, drafts.d1, drafts.d2) {
        Some(planes) => {
            let levers = levers_in(faces, &planes, loading, water);
            let (gz, sep) = (levers.gz, levers.sep);
            Arm { drafts, gz, sep }
        }
        None => unreachable!(),
    }
}
