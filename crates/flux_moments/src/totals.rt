// Sums over the columns of parts of a boundary.
ghost use Rattle.std.specs.Prelude.{◌≡◌, ℕ, ◌<◌, ◌^◌, List, length, pos};
ghost use Rattle.std.specs.List.{AllByRecursion};
ghost use Rattle.exact_algebra.proofs.Fraction.{Fraction, one, ◌⊗◌, ◌⊕◌, ◌≼◌};
ghost use Rattle.exact_algebra.proofs.Span.{ContainsFraction};
ghost use Rattle.exact_algebra.proofs.Whole.{whole};
ghost use Rattle.hull_model.specs.Waterplane.{Waterplane, side_distance};
ghost use Rattle.hull_polyhedron.specs.Columns.{middle};
ghost use Rattle.plane_clip.specs.Between.{IsPartWithin};
ghost use Rattle.outward_interval.specs.Ends.{EndsBelow};
ghost use Rattle.flux_moments.specs.Planes.{IsIn};
ghost use Rattle.outward_interval.specs.Widths.{units, IsNarrow};
ghost use Rattle.hull_model.specs.Fractions.{sum_over};
ghost use Rattle.flux_moments.specs.PartSizes.{ArePartsReached, ArePartSumWidths, part_area, part_volume, part_length, part_height};
ghost use Rattle.flux_moments.specs.Sizes.{BoxSize, spread};
ghost use Rattle.flux_moments.specs.Shared.{Shared, HoldShares, shared_columns};
ghost use Rattle.flux_moments.specs.Wets.{AllFields, AreColumnEnds};

use crate::part_columns::part_columns;
use crate::{PlaneBox, ShipLength, Wet};
use hull_polyhedron::Faces;
use plane_clip::Part;

/// Encloses the integrals over the columns of parts of a hull's boundary, for all planes of the box: for each list of
/// triangles and shares that the parts hold, their shares of the columns together. Fewer than 2^22 parts, which lie
/// between the hull's ends. The ends lie below 2^121 units of 2^-20 in magnitude, those of the volume below 2^99.
pub fn part_sums(faces: &Faces, parts: &[Part], planes: &PlaneBox) -> Wet
    requires placed { AllByRecursion (IsPartWithin faces.now.first_x faces.now.last_x) parts.now }
    requires few { length parts.now < 2 ^ 22 }
    ensures volume { (plane : Waterplane) (ts : List Shared) → IsIn planes.now plane → HoldShares parts.now ts → ContainsFraction 20 result.volume.lo result.volume.hi (shared_columns plane faces.now.first_x faces.now.last_x (λ p. one) ts) }
    ensures mx { (plane : Waterplane) (ts : List Shared) → IsIn planes.now plane → HoldShares parts.now ts → ContainsFraction 20 result.mx.lo result.mx.hi (shared_columns plane faces.now.first_x faces.now.last_x (λ p. p.x) ts) }
    ensures mv { (plane : Waterplane) (ts : List Shared) → IsIn planes.now plane → HoldShares parts.now ts → ContainsFraction 20 result.mv.lo result.mv.hi (shared_columns plane faces.now.first_x faces.now.last_x (side_distance plane) ts) }
    ensures mu { (plane : Waterplane) (ts : List Shared) → IsIn planes.now plane → HoldShares parts.now ts → ContainsFraction 20 result.mu.lo result.mu.hi (shared_columns plane faces.now.first_x faces.now.last_x (middle plane faces.now.first_x faces.now.last_x) ts) }
    ensures ends { AllFields (λ s. EndsBelow 121 s.lo s.hi) result }
    ensures volume_ends { EndsBelow 99 result.volume.lo result.volume.hi }
    ensures volume_width { (b : BoxSize) (h t : Fraction) (y z : ℕ) → ArePartsReached planes.now parts.now b h y z → sum_over (λ p. part_volume h (spread b h) (part_area p)) parts.now ≼ t ⊗ whole (pos 2) → IsNarrow 20 (t ⊕ units 20 2) result.volume.lo result.volume.hi }
    ensures mx_width { (b : BoxSize) (h t : Fraction) (y z : ℕ) → ArePartsReached planes.now parts.now b h y z → sum_over (λ p. part_length (whole faces.now.last_x) h (spread b h) (part_area p)) parts.now ≼ t ⊗ whole (pos 2) → IsNarrow 20 (t ⊕ units 20 2) result.mx.lo result.mx.hi }
    ensures mv_width { (b : BoxSize) (h t : Fraction) (y z : ℕ) → ArePartsReached planes.now parts.now b h y z → sum_over (λ p. part_height h (spread b h) (part_area p)) parts.now ≼ t ⊗ whole (pos 2) → IsNarrow 20 (t ⊕ units 20 2) result.mv.lo result.mv.hi }
    ensures mu_width { (b : BoxSize) (h t : Fraction) (y z : ℕ) → ArePartsReached planes.now parts.now b h y z → sum_over (λ p. part_height h (spread b h) (part_area p)) parts.now ≼ t ⊗ whole (pos 4) → IsNarrow 20 (t ⊕ units 20 2) result.mu.lo result.mu.hi }
{
    let way = ShipLength {
        first: faces.first_x(),
        last: faces.last_x(),
    };
    let sums = doubled_sums(parts, planes, way);
    Wet {
        volume: sums.volume.over_whole(2),
        mx: sums.mx.over_whole(2),
        mv: sums.mv.over_whole(2),
        mu: sums.mu.over_whole(4),
    }
}

/// The sums over the columns of parts: twice the volume and the integrals of x and of the side, four times that of the
/// height.
fn doubled_sums(parts: &[Part], planes: &PlaneBox, way: ShipLength) -> Wet
    requires placed { AllByRecursion (IsPartWithin way.first way.last) parts.now }
    requires few { length parts.now < 2 ^ 22 }
    ensures volume { (plane : Waterplane) (ts : List Shared) → IsIn planes.now plane → HoldShares parts.now ts → ContainsFraction 20 result.volume.lo result.volume.hi (shared_columns plane way.first way.last (λ p. one) ts ⊗ whole (pos 2)) }
    ensures mx { (plane : Waterplane) (ts : List Shared) → IsIn planes.now plane → HoldShares parts.now ts → ContainsFraction 20 result.mx.lo result.mx.hi (shared_columns plane way.first way.last (λ p. p.x) ts ⊗ whole (pos 2)) }
    ensures mv { (plane : Waterplane) (ts : List Shared) → IsIn planes.now plane → HoldShares parts.now ts → ContainsFraction 20 result.mv.lo result.mv.hi (shared_columns plane way.first way.last (side_distance plane) ts ⊗ whole (pos 2)) }
    ensures mu { (plane : Waterplane) (ts : List Shared) → IsIn planes.now plane → HoldShares parts.now ts → ContainsFraction 20 result.mu.lo result.mu.hi (shared_columns plane way.first way.last (middle plane way.first way.last) ts ⊗ whole (pos 4)) }
    ensures ends { AreColumnEnds 4194303 result }
    ensures widths { (b : BoxSize) (h : Fraction) (y z : ℕ) → ArePartsReached planes.now parts.now b h y z → ArePartSumWidths (whole way.last) h (spread b h) parts.now result }
{
    let mut sums = Wet::nothing();
    for part in parts {
        sums = sums + part_columns(part, planes, way);
    }
    sums
}
