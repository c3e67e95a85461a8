// The columns between parts of faces and an upright plane.
ghost use Rattle.std.specs.Prelude.{◌≡◌, ◌↔◌, IsTrue, ◌<◌, ◌≤◌, ◌+◌, ◌*◌, ◌^◌, ◌≤ℤ◌, ℕ, pos, unsigned_abs, List, length};
ghost use Rattle.std.specs.List.{AllByRecursion};
ghost use Rattle.exact_algebra.proofs.Fraction.{Fraction, one, ◌⊕◌, ◌⊗◌, ◌≼◌};
ghost use Rattle.exact_algebra.proofs.Span.{ContainsFraction};
ghost use Rattle.exact_algebra.proofs.Whole.{whole};
ghost use Rattle.hull_model.specs.Fractions.{sum_over};
ghost use Rattle.hull_model.specs.TriangleCut.{Triangle};
ghost use Rattle.hull_model.specs.Waterplane.{Waterplane, Position};
ghost use Rattle.hull_polyhedron.specs.Columns as model;
ghost use Rattle.outward_interval.specs.Ends.{EndsBelow};
ghost use Rattle.outward_interval.specs.Widths.{units, IsNarrow, IsNear};
ghost use Rattle.plane_clip.specs.Between.{IsPartWithin};
ghost use Rattle.plane_clip.specs.Extents.{IsCornerExtent, IsPartExtent};
ghost use Rattle.plane_clip.specs.Parts.{HoldsCorner, HoldsShare};
ghost use Rattle.flux_moments.specs.Limits.{EndsAtMost, EndsLess};
ghost use Rattle.flux_moments.specs.PartSizes.{ArePartsReached, part_area, part_volume, part_length};
ghost use Rattle.flux_moments.specs.Planes.{IsIn, AreLevelEnds};
ghost use Rattle.flux_moments.specs.Shared.{Shared, HoldShares, shared_columns};
ghost use Rattle.flux_moments.specs.Sizes.{BoxSize, HasSize, spread};
ghost use Rattle.flux_moments.specs.declared.box_levels.ShipLength as ghost_length;
ghost use Rattle.flux_moments.specs.declared.plane_box.PlaneBox as ghost_planes;
ghost use Rattle.compartment_loss.specs.Upright.{IsUpright};

use crate::UprightWet;
use crate::upright::{Known, Place};
use crate::upright_column::{KnownColumn, nothing};
use flux_moments::{PlaneBox, ShipLength, are_dry};
use outward_interval::Span;
use plane_clip::{Part, PartCorner, wet_depths};

/// The sums over the columns of parts: twice the volume, and twice the integral of x.
pub(crate) fn part_column_sums(parts: &[Part], planes: &PlaneBox, way: ShipLength) -> UprightWet
    requires placed { AllByRecursion (IsPartWithin way.first way.last) parts.now }
    requires few { length parts.now < 2 ^ 22 }
    requires upright { IsUpright planes.now }
    ensures volume_ends { EndsAtMost (4194303 * 2 ^ 79) result.volume.lo result.volume.hi }
    ensures mx_ends { EndsAtMost (4194303 * 2 ^ 99) result.mx.lo result.mx.hi }
    ensures volume { (plane : Waterplane) (ts : List Shared) → IsIn planes.now plane → HoldShares parts.now ts → ContainsFraction 20 result.volume.lo result.volume.hi (shared_columns plane way.first way.last (λ p. one) ts ⊗ whole (pos 2)) }
    ensures mx { (plane : Waterplane) (ts : List Shared) → IsIn planes.now plane → HoldShares parts.now ts → ContainsFraction 20 result.mx.lo result.mx.hi (shared_columns plane way.first way.last (λ p. p.x) ts ⊗ whole (pos 2)) }
    ensures volume_width { (b : BoxSize) (h : Fraction) (y z : ℕ) → ArePartsReached planes.now parts.now b h y z → IsNarrow 20 (sum_over (λ p. part_volume h (spread b h) (part_area p)) parts.now) result.volume.lo result.volume.hi }
    ensures mx_width { (b : BoxSize) (h : Fraction) (y z : ℕ) → ArePartsReached planes.now parts.now b h y z → IsNarrow 20 (sum_over (λ p. part_length (whole way.last) h (spread b h) (part_area p)) parts.now) result.mx.lo result.mx.hi }
{
    let mut known = Known::start(planes, way);
    let mut sums = nothing();
    for part in parts {
        let column = part_column(part, planes, way, known);
        known = column.known;
        sums = UprightWet {
            volume: sums.volume + column.wet.volume,
            mx: sums.mx + column.wet.mx,
        };
    }
    sums
}

/// Twice the volume of the column between the wet part of a part of a face and an upright plane, and twice the integral
/// of x over it. A part that is dry, or seen edgewise from above, has none.
fn part_column(part: &Part, planes: &PlaneBox, way: ShipLength, known: Known) -> KnownColumn
    requires within { IsPartWithin way.first way.last part.now }
    requires upright { IsUpright planes.now }
    requires near { AreLevelEnds planes.now way.first way.last known.near.x known.near.level.lo known.near.level.hi }
    requires far { AreLevelEnds planes.now way.first way.last known.far.x known.far.level.lo known.far.level.hi }
    ensures near { AreLevelEnds planes.now way.first way.last result.known.near.x result.known.near.level.lo result.known.near.level.hi }
    ensures far { AreLevelEnds planes.now way.first way.last result.known.far.x result.known.far.level.lo result.known.far.level.hi }
    ensures volume_ends { EndsAtMost (2 ^ 79) result.wet.volume.lo result.wet.volume.hi }
    ensures mx_ends { EndsAtMost (2 ^ 99) result.wet.mx.lo result.wet.mx.hi }
    ensures volume { (plane : Waterplane) (share : Fraction) (t : Triangle Position) → IsIn planes.now plane → HoldsShare part.now share t → ContainsFraction 20 result.wet.volume.lo result.wet.volume.hi ((model.column plane way.first way.last (λ p. one) t ⊗ share) ⊗ whole (pos 2)) }
    ensures mx { (plane : Waterplane) (share : Fraction) (t : Triangle Position) → IsIn planes.now plane → HoldsShare part.now share t → ContainsFraction 20 result.wet.mx.lo result.wet.mx.hi ((model.column plane way.first way.last (λ p. p.x) t ⊗ share) ⊗ whole (pos 2)) }
    ensures volume_width { (b : BoxSize) (h : Fraction) (y z : ℕ) → HasSize planes.now b → one ≼ h → b.level ⊕ whole (pos (z + y)) ≼ h → IsPartExtent y z 3 part.now → IsNarrow 20 (part_volume h (spread b h) (part_area part.now)) result.wet.volume.lo result.wet.volume.hi }
    ensures mx_width { (b : BoxSize) (h : Fraction) (y z : ℕ) → HasSize planes.now b → one ≼ h → b.level ⊕ whole (pos (z + y)) ≼ h → IsPartExtent y z 3 part.now → IsNarrow 20 (part_length (whole way.last) h (spread b h) (part_area part.now)) result.wet.mx.lo result.wet.mx.hi }
{
    if is_edgewise(part) {
        return KnownColumn {
            wet: nothing(),
            known,
        };
    }
    let at_a = known.with(planes, way, place_of(&part.a));
    let at_b = at_a.with(planes, way, place_of(&part.b));
    let at_c = at_b.with(planes, way, place_of(&part.c));
    let first = corner_depth(at_a.near, &part.a);
    let second = corner_depth(at_b.near, &part.b);
    let third = corner_depth(at_c.near, &part.c);
    let depths = [first, second, third];
    if are_dry(&depths) {
        return KnownColumn {
            wet: nothing(),
            known: at_c,
        };
    }
    let means = wet_depths(depths);
    let factor = -part.az;
    let moment = scaled_place(means.weighted[0], factor, part.a.x)
        + scaled_place(means.weighted[1], factor, part.b.x)
        + scaled_place(means.weighted[2], factor, part.c.x);
    KnownColumn {
        wet: UprightWet {
            volume: means.depth.scaled_by(factor),
            mx: moment,
        },
        known: at_c,
    }
}

/// Whether a part is seen edgewise from above: its area from there is exactly 0.
fn is_edgewise(part: &Part) -> bool
    ensures { IsTrue result ↔ ((part.now.az.lo ≡ pos 0) × (part.now.az.hi ≡ pos 0)) }
{
    part.az.lo() == 0 && part.az.hi() == 0
}

fn place_of(corner: &PartCorner) -> i64
    ensures { result ≡ corner.now.x }
{
    corner.x as i64
}

/// The depth of a corner, by the level at its place.
fn corner_depth(place: Place, corner: &PartCorner) -> Span<20>
    requires same { place.x ≡ corner.now.x }
    ensures ends { EndsAtMost (9 * 2 ^ 37 + 1) result.lo result.hi }
    ensures contains { (planes : ghost_planes.PlaneBox) (way : ghost_length.ShipLength) → IsUpright planes → AreLevelEnds planes way.first way.last place.x place.level.lo place.level.hi → (way.first ≤ℤ corner.now.x) × (corner.now.x ≤ℤ way.last) → (plane : Waterplane) (p : Position) → IsIn planes plane → HoldsCorner corner.now p → ContainsFraction 20 result.lo result.hi (model.depth plane way.first way.last p) }
    ensures narrow { (planes : ghost_planes.PlaneBox) (way : ghost_length.ShipLength) → AreLevelEnds planes way.first way.last place.x place.level.lo place.level.hi → (way.first ≤ℤ corner.now.x) × (corner.now.x ≤ℤ way.last) → (b : BoxSize) (h : Fraction) (y z : ℕ) → HasSize planes b → one ≼ h → IsCornerExtent y z 3 corner.now → IsNarrow 20 ((spread b h ⊕ units 20 8) ⊕ units 20 4) result.lo result.hi }
    ensures near { (planes : ghost_planes.PlaneBox) (way : ghost_length.ShipLength) → AreLevelEnds planes way.first way.last place.x place.level.lo place.level.hi → (way.first ≤ℤ corner.now.x) × (corner.now.x ≤ℤ way.last) → (b : BoxSize) (h : Fraction) (y z : ℕ) → HasSize planes b → b.level ⊕ whole (pos (z + y)) ≼ h → IsCornerExtent y z 3 corner.now → IsNear 20 (h ⊕ units 20 2) result.lo result.hi }
{
    place.level - corner.z
}

/// A mean times a factor for the area, and times a place.
fn scaled_place(mean: Span<20>, factor: Span<20>, x: i128) -> Span<20>
    requires mean { EndsBelow 41 mean.lo mean.hi }
    requires factor { EndsLess (2 ^ 57) factor.lo factor.hi }
    requires x { unsigned_abs x < 2 ^ 19 }
    ensures ends { EndsAtMost (2 ^ 97 + 2 ^ 19) result.lo result.hi }
    ensures contains { (m a : Fraction) → ContainsFraction 20 mean.lo mean.hi m → ContainsFraction 20 factor.lo factor.hi a → ContainsFraction 20 result.lo result.hi ((m ⊗ a) ⊗ whole x) }
    ensures narrow { (w m v n : Fraction) → IsNarrow 20 w mean.lo mean.hi → IsNear 20 m mean.lo mean.hi → IsNarrow 20 v factor.lo factor.hi → IsNear 20 n factor.lo factor.hi → IsNarrow 20 (((m ⊗ v ⊕ n ⊗ w) ⊕ units 20 2) ⊗ whole (pos (unsigned_abs x))) result.lo result.hi }
{
    mean.scaled_by(factor).times_whole(x)
}
