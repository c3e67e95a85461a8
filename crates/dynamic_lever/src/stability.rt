// The stability of a ship that stands upright.
ghost use Rattle.std.specs.Prelude.{ℕ, ◌^◌, ◌*◌, ◌+◌, List};
ghost use Rattle.exact_algebra.proofs.Fraction.{Fraction, ◌⊕◌, ◌⊖◌, ◌⊗◌};
ghost use Rattle.exact_algebra.proofs.Span.{ContainsFraction};
ghost use Rattle.exact_algebra.proofs.Whole.{whole};
ghost use Rattle.hull_model.specs.declared.station.Station.{Station};
ghost use Rattle.hull_model.specs.Body.{IsHull};
ghost use Rattle.hull_model.specs.Waterplane.{upright};
ghost use Rattle.hull_polyhedron.specs.FacesOf.{AreFacesOf};
ghost use Rattle.outward_interval.specs.Ends.{EndsBelow};
ghost use Rattle.outward_interval.specs.Widths.{units, IsNarrow};
ghost use Rattle.flux_moments.specs.Limits.{EndsAtMost};
ghost use Rattle.flux_moments.specs.Planes.{IsIn};
ghost use Rattle.flux_moments.specs.Widths.{reach_of, volume_bound, lid_bound};
ghost use Rattle.dynamic_lever.specs.Levers.{kb, bm, gm, over_volume, gm_by, quotient_bound};

use crate::quotient::over_volume;
use flux_moments::{LidSums, PlaneBox, Wet, lid, measure};
use hull_model::Water;
use hull_polyhedron::Faces;
use loading_sheet::Loading;
use outward_interval::Span;

/// Heights in mm of a ship that stands upright.
#[derive(Clone, Copy, Debug, PartialEq, Eq)]
pub(crate) struct Upright {
    /// The centre of buoyancy above the base.
    pub(crate) kb: Span<20>,
    /// The transverse metacentre above the centre of buoyancy.
    pub(crate) bm: Span<20>,
    /// The metacentre above the centre of the loading.
    pub(crate) gm: Span<20>,
}

/// Encloses KB, BM and GM of a loading at every upright plane of a box that has one level everywhere. The faces are the
/// hull's boundary.
///
/// KB and BM are no wider than what was measured may be over the displaced volume, and 2^-16 mm; GM than both together.
/// The ends lie below 2^95 in magnitude.
pub(crate) fn upright_stability(
    faces: &Faces,
    planes: &PlaneBox,
    loading: &Loading,
    water: &Water,
) -> Upright
    ensures kb { (stations : List Station) → IsHull stations → AreFacesOf stations faces.now → (at : Fraction) → IsIn planes.now (upright at) → ContainsFraction 20 result.kb.lo result.kb.hi (kb loading.now water.now at stations) }
    ensures bm { (stations : List Station) → IsHull stations → AreFacesOf stations faces.now → (at : Fraction) → IsIn planes.now (upright at) → ContainsFraction 20 result.bm.lo result.bm.hi (bm loading.now water.now at stations) }
    ensures gm { (stations : List Station) → IsHull stations → AreFacesOf stations faces.now → (at : Fraction) → IsIn planes.now (upright at) → ContainsFraction 20 result.gm.lo result.gm.hi (gm loading.now water.now at stations) }
    ensures ends { EndsBelow 95 result.kb.lo result.kb.hi × EndsBelow 95 result.bm.lo result.bm.hi × EndsBelow 95 result.gm.lo result.gm.hi }
    ensures kb_width { IsNarrow 20 (quotient_bound loading.now water.now (reach_of faces.now planes.now ⊗ volume_bound faces.now planes.now)) result.kb.lo result.kb.hi }
    ensures bm_width { IsNarrow 20 (quotient_bound loading.now water.now ((whole faces.now.half_breadth ⊗ whole faces.now.half_breadth) ⊗ lid_bound faces.now planes.now.a1 planes.now.a2)) result.bm.lo result.bm.hi }
    ensures gm_width { IsNarrow 20 (quotient_bound loading.now water.now (reach_of faces.now planes.now ⊗ volume_bound faces.now planes.now) ⊕ quotient_bound loading.now water.now ((whole faces.now.half_breadth ⊗ whole faces.now.half_breadth) ⊗ lid_bound faces.now planes.now.a1 planes.now.a2)) result.gm.lo result.gm.hi }
{
    let below = measure(faces, planes);
    let lid = lid(faces, planes.a1, planes.a2);
    upright_of(&below, &lid, loading, water)
}

fn upright_of(below: &Wet, lid: &LidSums, loading: &Loading, water: &Water) -> Upright
    requires mu { EndsBelow 113 below.now.mu.lo below.now.mu.hi }
    requires syy { EndsBelow 113 lid.now.syy.lo lid.now.syy.hi }
    ensures kb { (m : Fraction) → ContainsFraction 20 below.now.mu.lo below.now.mu.hi m → ContainsFraction 20 result.kb.lo result.kb.hi (over_volume loading.now water.now m) }
    ensures bm { (i : Fraction) → ContainsFraction 20 lid.now.syy.lo lid.now.syy.hi i → ContainsFraction 20 result.bm.lo result.bm.hi (over_volume loading.now water.now i) }
    ensures gm { (m i : Fraction) → ContainsFraction 20 below.now.mu.lo below.now.mu.hi m → ContainsFraction 20 lid.now.syy.lo lid.now.syy.hi i → ContainsFraction 20 result.gm.lo result.gm.hi (gm_by loading.now water.now m i) }
    ensures kb_ends { (most : ℕ) → EndsAtMost (most * 500000) below.now.mu.lo below.now.mu.hi → EndsAtMost most result.kb.lo result.kb.hi }
    ensures bm_ends { (most : ℕ) → EndsAtMost (most * 500000) lid.now.syy.lo lid.now.syy.hi → EndsAtMost most result.bm.lo result.bm.hi }
    ensures gm_ends { (most more : ℕ) → EndsAtMost (most * 500000) below.now.mu.lo below.now.mu.hi → EndsAtMost (more * 500000) lid.now.syy.lo lid.now.syy.hi → EndsAtMost ((most + more) + 2 ^ 75) result.gm.lo result.gm.hi }
    ensures kb_width { (w : Fraction) → IsNarrow 20 w below.now.mu.lo below.now.mu.hi → IsNarrow 20 (quotient_bound loading.now water.now w) result.kb.lo result.kb.hi }
    ensures bm_width { (v : Fraction) → IsNarrow 20 v lid.now.syy.lo lid.now.syy.hi → IsNarrow 20 (quotient_bound loading.now water.now v) result.bm.lo result.bm.hi }
    ensures gm_width { (w v : Fraction) → IsNarrow 20 w below.now.mu.lo below.now.mu.hi → IsNarrow 20 v lid.now.syy.lo lid.now.syy.hi → IsNarrow 20 (quotient_bound loading.now water.now w ⊕ quotient_bound loading.now water.now v) result.gm.lo result.gm.hi }
{
    let kb = over_volume(below.mu, loading, water);
    let bm = over_volume(lid.syy, loading, water);
    Upright {
        kb,
        bm,
        gm: above_centre(kb, bm, loading.kg()),
    }
}

fn above_centre(kb: Span<20>, bm: Span<20>, kg: Span<20>) -> Span<20>
    requires kb { EndsBelow 106 kb.lo kb.hi }
    requires bm { EndsBelow 106 bm.lo bm.hi }
    requires kg { EndsBelow 106 kg.lo kg.hi }
    ensures contains { (x y z : Fraction) → ContainsFraction 20 kb.lo kb.hi x → ContainsFraction 20 bm.lo bm.hi y → ContainsFraction 20 kg.lo kg.hi z → ContainsFraction 20 result.lo result.hi ((x ⊕ y) ⊖ z) }
    ensures ends { (k l m : ℕ) → EndsAtMost k kb.lo kb.hi → EndsAtMost l bm.lo bm.hi → EndsAtMost m kg.lo kg.hi → EndsAtMost ((k + l) + m) result.lo result.hi }
    ensures narrow { (u v w : Fraction) → IsNarrow 20 u kb.lo kb.hi → IsNarrow 20 v bm.lo bm.hi → IsNarrow 20 w kg.lo kg.hi → IsNarrow 20 ((u ⊕ v) ⊕ w) result.lo result.hi }
{
    kb + bm - kg
}
