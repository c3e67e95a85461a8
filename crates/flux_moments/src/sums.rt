// The integrals below the planes of a box.
ghost use Rattle.std.specs.Prelude.{◌*◌, ◌^◌, ℕ, Bool, List, pos};
ghost use Rattle.exact_algebra.proofs.Fraction.{Fraction, ◌⊗◌, inverse};
ghost use Rattle.exact_algebra.proofs.Span.{ContainsFraction};
ghost use Rattle.exact_algebra.proofs.Whole.{whole};
ghost use Rattle.hull_model.specs.declared.station.Station.{Station};
ghost use Rattle.hull_model.specs.Body.{IsHull};
ghost use Rattle.hull_model.specs.Submerged as submerged;
ghost use Rattle.hull_model.specs.Submerged.{submerged_volume};
ghost use Rattle.hull_model.specs.Waterplane.{Waterplane};
ghost use Rattle.hull_polyhedron.specs.FacesOf.{AreFacesOf};
ghost use Rattle.outward_interval.specs.Ends.{EndsBelow};
ghost use Rattle.outward_interval.specs.Widths.{IsNarrow};
ghost use Rattle.flux_moments.specs.Clear.{AreClear, open_bound};
ghost use Rattle.flux_moments.specs.Limits.{EndsAtMost};
ghost use Rattle.flux_moments.specs.Planes.{IsIn};
ghost use Rattle.flux_moments.specs.Wets.{AllFields};
ghost use Rattle.flux_moments.specs.Widths.{reach_of, volume_bound};

use crate::strip_sums::{strip_sums, volume_of_strips};
use crate::{PlaneBox, Wet};
use hull_polyhedron::Faces;
use outward_interval::Span;

/// Encloses the volume, and the integrals of x, of the distance towards the low side and of the height, of the part of
/// a hull that lies below a plane, for each plane of the box. The faces are the hull's boundary.
///
/// The volume is no wider than W, eight times A (δ + η H + 2^-16 mm): A is half the sum of the magnitudes of the faces'
/// doubled areas seen from the side and from above, and 2^17 mm²; δ the greater rise of the levels, η the greater
/// width of the bracket's spans, H the greatest magnitude of a level with the greatest height and half-breadth. `mx` is
/// no wider than the last x times W, `mv` and `mu` than H times W. The volume is no wider than half of W, so a
/// caller may move an end of it outwards by as much.
///
/// A strip is clear where at all planes of the box each point of its two stations and each mirror image lies under
/// water by η H + 2^-16 mm, or each lies as far above it. For each choice of strips that are clear, with A' for the
/// sum over the faces of the other strips of half their doubled areas and 16 mm², the volume is no wider than
/// 8 A' (δ + η H + 2^-16 mm) + 2^-10 mm³, and `mx` than the last x times that.
///
/// The ends lie below 2^113 units of 2^-20 in magnitude, those of the volume below 2^91; those of `mv` are at most
/// 5 · 2^108, those of `mu` at most 3 · 2^111. One pass over the strips: one that is wholly under water at all planes
/// adds its totals, a dry one nothing. Of the others each face stands for the column between its wet part and the
/// plane, and a face that points downwards adds what one that points upwards takes away.
pub fn measure(faces: &Faces, planes: &PlaneBox) -> Wet
    ensures volume { (stations : List Station) → IsHull stations → AreFacesOf stations faces.now → (plane : Waterplane) → IsIn planes.now plane → ContainsFraction 20 result.volume.lo result.volume.hi (submerged_volume plane stations) }
    ensures mx { (stations : List Station) → IsHull stations → AreFacesOf stations faces.now → (plane : Waterplane) → IsIn planes.now plane → ContainsFraction 20 result.mx.lo result.mx.hi (submerged.mx plane stations) }
    ensures mv { (stations : List Station) → IsHull stations → AreFacesOf stations faces.now → (plane : Waterplane) → IsIn planes.now plane → ContainsFraction 20 result.mv.lo result.mv.hi (submerged.mv plane stations) }
    ensures mu { (stations : List Station) → IsHull stations → AreFacesOf stations faces.now → (plane : Waterplane) → IsIn planes.now plane → ContainsFraction 20 result.mu.lo result.mu.hi (submerged.mu plane stations) }
    ensures ends { AllFields (λ s. EndsBelow 113 s.lo s.hi) result }
    ensures volume_ends { EndsBelow 91 result.volume.lo result.volume.hi }
    ensures mv_ends { EndsAtMost (5 * 2 ^ 108) result.mv.lo result.mv.hi }
    ensures mu_ends { EndsAtMost (3 * 2 ^ 111) result.mu.lo result.mu.hi }
    ensures volume_width { IsNarrow 20 (volume_bound faces.now planes.now) result.volume.lo result.volume.hi }
    ensures volume_room { IsNarrow 20 (volume_bound faces.now planes.now ⊗ inverse (whole (pos 2))) result.volume.lo result.volume.hi }
    ensures mx_width { IsNarrow 20 (whole faces.now.last_x ⊗ volume_bound faces.now planes.now) result.mx.lo result.mx.hi }
    ensures sharp_width { (chosen : ℕ → Bool) → AreClear faces.now planes.now chosen → IsNarrow 20 (open_bound faces.now planes.now chosen) result.volume.lo result.volume.hi }
    ensures sharp_mx_width { (chosen : ℕ → Bool) → AreClear faces.now planes.now chosen → IsNarrow 20 (whole faces.now.last_x ⊗ open_bound faces.now planes.now chosen) result.mx.lo result.mx.hi }
    ensures mv_width { IsNarrow 20 (reach_of faces.now planes.now ⊗ volume_bound faces.now planes.now) result.mv.lo result.mv.hi }
    ensures mu_width { IsNarrow 20 (reach_of faces.now planes.now ⊗ volume_bound faces.now planes.now) result.mu.lo result.mu.hi }
{
    let sums = strip_sums(faces, planes);
    Wet {
        volume: sums.volume.over_whole(2),
        mx: sums.mx.over_whole(2),
        mv: sums.mv.over_whole(2),
        mu: sums.mu.over_whole(4),
    }
}

/// Encloses the volume alone, as [`measure`] does and no wider, at less cost. The ends lie below 2^91 units in
/// magnitude.
pub fn volume_below(faces: &Faces, planes: &PlaneBox) -> Span<20>
    ensures ends { EndsBelow 91 result.lo result.hi }
    ensures width { IsNarrow 20 (volume_bound faces.now planes.now) result.lo result.hi }
    ensures sharp_width { (chosen : ℕ → Bool) → AreClear faces.now planes.now chosen → IsNarrow 20 (open_bound faces.now planes.now chosen) result.lo result.hi }
    ensures volume { (stations : List Station) → IsHull stations → AreFacesOf stations faces.now → (plane : Waterplane) → IsIn planes.now plane → ContainsFraction 20 result.lo result.hi (submerged_volume plane stations) }
{
    let sum = volume_of_strips(faces, planes);
    sum.over_whole(2)
}
