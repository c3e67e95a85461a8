// The ship upright.
ghost use Rattle.std.specs.Prelude.{◌≡◌, ◌↔◌, IsErr, IfOk, IfErr};
ghost use Rattle.angle_bounds.specs.Degrees.{IsDegreeBracket};
ghost use Rattle.draft_bracket.specs.DraftBracket.{OfHulls, six_of, IsTooHeavy, IsSharpBracket};
ghost use Rattle.loading_sheet.specs.Centre.{displaced};
ghost use Rattle.dynamic_lever.specs.Rows.{IsUprightOver, IsUprightRow};

use crate::need::need_of;
use crate::rows::UprightRow;
use crate::stability::upright_stability;
use angle_bounds::{Bracket, Degree, bracket_of};
use draft_bracket::{Drafts, TooHeavy, float_in};
use flux_moments::PlaneBox;
use hull_model::Water;
use hull_polyhedron::Faces;
use loading_sheet::Loading;

/// KB, BM and GM of a loading on the ship upright, at every level plane of the sharp draft bracket of 0 degrees.
///
/// The widths are those of [`upright_stability`] over these planes, and the ends lie below 2^95 in magnitude. TooHeavy comes
/// exactly where the ship displaces more than the whole hull has. The faces are the hull's boundary.
pub fn upright(faces: &Faces, loading: &Loading, water: &Water) -> Result<UprightRow, TooHeavy>
    ensures row { IfOk result (IsUprightRow faces.now loading.now water.now) }
    ensures too_heavy { OfHulls faces.now (λ hull. IsErr result ↔ IsTooHeavy hull (displaced loading.now water.now)) }
    ensures six { IfErr result (λ e. OfHulls faces.now (λ hull. e.six ≡ six_of hull)) }
{
    let bracket = match Degree::new(0) {
        Some(degree) => bracket_of(degree),
        None => unreachable!(),
    };
    match float_in(faces, &bracket, &need_of(loading, water)) {
        Ok(drafts) => Ok(row_over(faces, &bracket, drafts, loading, water)),
        Err(e) => Err(e),
    }
}

// The row of a draft bracket that was found.
fn row_over(
    faces: &Faces,
    bracket: &Bracket,
    drafts: Drafts,
    loading: &Loading,
    water: &Water,
) -> UprightRow
    requires degree { IsDegreeBracket 0 bracket.now.low.c bracket.now.low.s bracket.now.low.r bracket.now.high.c bracket.now.high.s bracket.now.high.r }
    requires sharp { OfHulls faces.now (IsSharpBracket faces.now bracket.now (displaced loading.now water.now) drafts.d1 drafts.d2) }
    ensures { IsUprightOver faces.now loading.now water.now bracket.now result }
{
    match PlaneBox::level(*bracket, drafts.d1, drafts.d2) {
        Some(planes) => {
            let heights = upright_stability(faces, &planes, loading, water);
            UprightRow {
                drafts,
                kb: heights.kb,
                bm: heights.bm,
                gm: heights.gm,
            }
        }
        None => unreachable!(),
    }
}
