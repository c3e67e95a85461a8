// The columns between a face and the waterplane.
ghost use Rattle.std.specs.Prelude.{◌*◌, ◌+◌, ◌≡◌, ◌^◌, ◌≤ℤ◌, pos, unsigned_abs, [], ◌∷◌};
ghost use Rattle.std.specs.List.{AllByRecursion};
ghost use Rattle.exact_algebra.proofs.Fraction.{Fraction, one, ◌⊗◌, ◌⊕◌, negative, ◌≼◌};
ghost use Rattle.exact_algebra.proofs.Span.{ContainsFraction};
ghost use Rattle.exact_algebra.proofs.Whole.{whole};
ghost use Rattle.exact_fraction.specs.Bounds.{MagnitudeBelow};
ghost use Rattle.hull_model.specs.Faces.{IsFace, triangle_of};
ghost use Rattle.hull_model.specs.Waterplane.{Waterplane, side_distance};
ghost use Rattle.outward_interval.specs.Ends.{EndsBelow};
ghost use Rattle.outward_interval.specs.Widths.{IsNarrow, IsNear};
ghost use Rattle.hull_polyhedron.specs.Columns.{middle};
ghost use Rattle.plane_clip.specs.Enclosure.{CornerDepths, AreWithin, mean_at};
ghost use Rattle.hull_model.specs.WetMean.{wet_depth};
ghost use Rattle.flux_moments.specs.ColumnSizes.{AreColumnSizes, AreColumnWidths};
ghost use Rattle.flux_moments.specs.Columns.{moment_at, column_volume, column_integral};
ghost use Rattle.flux_moments.specs.Limits.{EndsAtMost, EndsLess};
ghost use Rattle.flux_moments.specs.Planes.{IsIn, cosine, sine};
ghost use Rattle.flux_moments.specs.Wets.{AreEndsAtMost, AreColumnEnds};
ghost use Rattle.flux_moments.specs.Sizes.{BoxSize, HasSize, Reaches, spread, doubled_area, column_width, product_width, volume_part};

use crate::corner::{Corner, Elevation, depth_of, times_cosine, times_sine};
use crate::dry::{are_dry, is_nothing, nothing};
use crate::{PlaneBox, ShipLength, Wet};
use hull_model::Face;
use outward_interval::Span;
use plane_clip::wet_depths;

/// The integrals over the columns between the wet part of a face and the waterplane, each with the sign that it has in
/// the sum over a boundary: twice the volume and the integrals of x and of the side, four times that of the height.
pub(crate) fn columns(face: &Face, planes: &PlaneBox, way: ShipLength) -> Wet
    requires face { IsFace face.now }
    requires between { AllByRecursion (λ n. (way.first ≤ℤ n.x) × (n.x ≤ℤ way.last)) face.now.p }
    ensures ends { AreColumnEnds 1 result }
    ensures volume { (plane : Waterplane) → IsIn planes.now plane → ContainsFraction 20 result.volume.lo result.volume.hi (column_volume plane way.first way.last face.now ⊗ whole (pos 2)) }
    ensures mx { (plane : Waterplane) → IsIn planes.now plane → ContainsFraction 20 result.mx.lo result.mx.hi (column_integral plane way.first way.last (λ p. p.x) face.now ⊗ whole (pos 2)) }
    ensures mv { (plane : Waterplane) → IsIn planes.now plane → ContainsFraction 20 result.mv.lo result.mv.hi (column_integral plane way.first way.last (side_distance plane) face.now ⊗ whole (pos 2)) }
    ensures mu { (plane : Waterplane) → IsIn planes.now plane → ContainsFraction 20 result.mu.lo result.mu.hi (column_integral plane way.first way.last (middle plane way.first way.last) face.now ⊗ whole (pos 4)) }
    ensures widths { (b : BoxSize) (h : Fraction) → HasSize planes.now b → one ≼ h → AllByRecursion (Reaches b h) face.now.p → AreColumnWidths (whole way.last) h (spread b h) (doubled_area face.now) result }
{
    let [p, q, r] = face.p;
    let first = Elevation::of(planes, way, p);
    let second = Elevation::of(planes, way, q);
    let third = Elevation::of(planes, way, r);
    if are_dry(&[first.depth, second.depth, third.depth]) {
        return Wet::nothing();
    }
    let factor = factor_of(face, planes);
    if is_nothing(factor) {
        return Wet::nothing();
    }
    columns_at(
        &first.corner(planes, p),
        &second.corner(planes, q),
        &third.corner(planes, r),
        factor,
    )
}

/// Twice the volume of the column between the wet part of a face and the waterplane, with its sign.
pub(crate) fn volume_column(face: &Face, planes: &PlaneBox, way: ShipLength) -> Span<20>
    requires face { IsFace face.now }
    requires between { AllByRecursion (λ n. (way.first ≤ℤ n.x) × (n.x ≤ℤ way.last)) face.now.p }
    ensures ends { EndsAtMost (7 * 2 ^ 75) result.lo result.hi }
    ensures contains { (plane : Waterplane) → IsIn planes.now plane → ContainsFraction 20 result.lo result.hi (column_volume plane way.first way.last face.now ⊗ whole (pos 2)) }
    ensures narrow { (b : BoxSize) (h : Fraction) → HasSize planes.now b → one ≼ h → AllByRecursion (Reaches b h) face.now.p → IsNarrow 20 (volume_part (spread b h) (doubled_area face.now)) result.lo result.hi }
{
    let [p, q, r] = face.p;
    let first = depth_of(planes, way, p);
    let second = depth_of(planes, way, q);
    let third = depth_of(planes, way, r);
    let depths = [first, second, third];
    if are_dry(&depths) {
        return nothing();
    }
    let factor = factor_of(face, planes);
    if is_nothing(factor) {
        return nothing();
    }
    let means = wet_depths(depths);
    means.depth.scaled_by(factor)
}

/// The integrals over the columns of a triangle with these corners, with a factor for its area.
pub(crate) fn columns_at(first: &Corner, second: &Corner, third: &Corner, factor: Span<40>) -> Wet
    requires factor { EndsLess (3 * 2 ^ 76) factor.lo factor.hi }
    ensures ends { AreColumnEnds 1 result }
    ensures volume { (d : CornerDepths) (a : Fraction) → AreWithin (first.now.depth ∷ second.now.depth ∷ third.now.depth ∷ []) d → ContainsFraction 40 factor.lo factor.hi a → ContainsFraction 20 result.volume.lo result.volume.hi (mean_at wet_depth d ⊗ a) }
    ensures mx { (d : CornerDepths) (a : Fraction) → AreWithin (first.now.depth ∷ second.now.depth ∷ third.now.depth ∷ []) d → ContainsFraction 40 factor.lo factor.hi a → ContainsFraction 20 result.mx.lo result.mx.hi (moment_at d a (whole first.now.x) (whole second.now.x) (whole third.now.x)) }
    ensures mv { (d : CornerDepths) (a u v w : Fraction) → AreWithin (first.now.depth ∷ second.now.depth ∷ third.now.depth ∷ []) d → ContainsFraction 40 factor.lo factor.hi a → ContainsFraction 20 first.now.side.lo first.now.side.hi u → ContainsFraction 20 second.now.side.lo second.now.side.hi v → ContainsFraction 20 third.now.side.lo third.now.side.hi w → ContainsFraction 20 result.mv.lo result.mv.hi (moment_at d a u v w) }
    ensures mu { (d : CornerDepths) (a u v w : Fraction) → AreWithin (first.now.depth ∷ second.now.depth ∷ third.now.depth ∷ []) d → ContainsFraction 40 factor.lo factor.hi a → ContainsFraction 20 first.now.middle.lo first.now.middle.hi u → ContainsFraction 20 second.now.middle.lo second.now.middle.hi v → ContainsFraction 20 third.now.middle.lo third.now.middle.hi w → ContainsFraction 20 result.mu.lo result.mu.hi (moment_at d a u v w) }
    ensures widths { (x s h a e : Fraction) → AreColumnSizes s h a e first.now second.now third.now factor → whole (pos (unsigned_abs first.now.x)) ≼ x → whole (pos (unsigned_abs second.now.x)) ≼ x → whole (pos (unsigned_abs third.now.x)) ≼ x → AreColumnWidths x h s a result }
{
    let means = wet_depths([first.depth, second.depth, third.depth]);
    let moments = weighted(first, means.weighted[0], factor)
        + weighted(second, means.weighted[1], factor)
        + weighted(third, means.weighted[2], factor);
    Wet {
        volume: means.depth.scaled_by(factor),
        ..moments
    }
}

/// Twice the area of a face as it is seen along the height, above 0 where the face points downwards.
fn factor_of(face: &Face, planes: &PlaneBox) -> Span<40>
    requires { IsFace face.now }
    ensures ends { EndsLess (3 * 2 ^ 76) result.lo result.hi }
    ensures contains { (plane : Waterplane) → IsIn planes.now plane → ContainsFraction 40 result.lo result.hi (negative (sine plane ⊗ whole face.now.ay ⊕ cosine plane ⊗ whole face.now.az)) }
    ensures narrow { (e : Fraction) → IsNarrow 40 e planes.now.bracket.c.lo planes.now.bracket.c.hi → IsNarrow 40 e planes.now.bracket.s.lo planes.now.bracket.s.hi → IsNarrow 40 (e ⊗ doubled_area face.now) result.lo result.hi }
    ensures near { IsNear 40 (doubled_area face.now) result.lo result.hi }
{
    let across = times_sine(&planes.bracket, face.ay);
    let along = times_cosine(&planes.bracket, face.az);
    -(across + along)
}

fn weighted(corner: &Corner, mean: Span<20>, factor: Span<40>) -> Wet
    requires mean { EndsBelow 41 mean.lo mean.hi }
    requires factor { EndsLess (3 * 2 ^ 76) factor.lo factor.hi }
    ensures ends { AreEndsAtMost (3 * 2 ^ 77) (3 * 2 ^ 96 + 2 ^ 19) (3 * 2 ^ 94 + 2 ^ 60) (27 * 2 ^ 94 + 2 ^ 60) result }
    ensures mx { (m a : Fraction) → ContainsFraction 20 mean.lo mean.hi m → ContainsFraction 40 factor.lo factor.hi a → ContainsFraction 20 result.mx.lo result.mx.hi ((m ⊗ a) ⊗ whole corner.now.x) }
    ensures mv { (m a v : Fraction) → ContainsFraction 20 mean.lo mean.hi m → ContainsFraction 40 factor.lo factor.hi a → ContainsFraction 20 corner.now.side.lo corner.now.side.hi v → ContainsFraction 20 result.mv.lo result.mv.hi ((m ⊗ a) ⊗ v) }
    ensures mu { (m a u : Fraction) → ContainsFraction 20 mean.lo mean.hi m → ContainsFraction 40 factor.lo factor.hi a → ContainsFraction 20 corner.now.middle.lo corner.now.middle.hi u → ContainsFraction 20 result.mu.lo result.mu.hi ((m ⊗ a) ⊗ u) }
    ensures mx_width { (w m e a : Fraction) → IsNarrow 20 w mean.lo mean.hi → IsNear 20 m mean.lo mean.hi → IsNarrow 40 (e ⊗ a) factor.lo factor.hi → IsNear 40 a factor.lo factor.hi → IsNarrow 20 (column_width w m e a ⊗ whole (pos (unsigned_abs corner.now.x))) result.mx.lo result.mx.hi }
    ensures mv_width { (w m e a v n : Fraction) → IsNarrow 20 w mean.lo mean.hi → IsNear 20 m mean.lo mean.hi → IsNarrow 40 (e ⊗ a) factor.lo factor.hi → IsNear 40 a factor.lo factor.hi → IsNarrow 20 v corner.now.side.lo corner.now.side.hi → IsNear 20 n corner.now.side.lo corner.now.side.hi → IsNarrow 20 (product_width w m e a v n) result.mv.lo result.mv.hi }
    ensures mu_width { (w m e a v n : Fraction) → IsNarrow 20 w mean.lo mean.hi → IsNear 20 m mean.lo mean.hi → IsNarrow 40 (e ⊗ a) factor.lo factor.hi → IsNear 40 a factor.lo factor.hi → IsNarrow 20 v corner.now.middle.lo corner.now.middle.hi → IsNear 20 n corner.now.middle.lo corner.now.middle.hi → IsNarrow 20 (product_width w m e a v n) result.mu.lo result.mu.hi }
{
    let column = mean.scaled_by(factor);
    Wet {
        volume: column,
        mx: column.times_whole(i128::from(corner.x)),
        mv: column * corner.side,
        mu: column * corner.middle,
    }
}
