// What is left at an upright plane, for searches.
ghost use Rattle.std.specs.Prelude.{◌≡◌, ◌<◌, ◌≤◌, ◌*◌, ◌^◌, ℕ, List, length, pos, unsigned_abs};
ghost use Rattle.std.specs.List.{AllByRecursion};
ghost use Rattle.exact_algebra.proofs.Fraction.{Fraction, one, ◌⊕◌, ◌⊗◌, ◌≼◌};
ghost use Rattle.exact_algebra.proofs.Span.{ContainsFraction};
ghost use Rattle.exact_algebra.proofs.Whole.{whole};
ghost use Rattle.hull_model.specs.declared.station.Station.{Station};
ghost use Rattle.hull_model.specs.Body.{IsHull};
ghost use Rattle.hull_model.specs.Faces.{IsFace};
ghost use Rattle.hull_model.specs.Flooded.{volume_left, mx_left};
ghost use Rattle.hull_model.specs.Fractions.{sum_over};
ghost use Rattle.hull_model.specs.Submerged as submerged;
ghost use Rattle.hull_model.specs.Waterplane.{Waterplane};
ghost use Rattle.hull_polyhedron.specs.Between.{LieBetween};
ghost use Rattle.hull_polyhedron.specs.FacesOf.{AreFacesOf};
ghost use Rattle.outward_interval.specs.Ends.{EndsBelow};
ghost use Rattle.outward_interval.specs.Widths.{units, IsNarrow};
ghost use Rattle.plane_clip.specs.Between.{IsPartWithin};
ghost use Rattle.flux_moments.specs.PartSizes.{ArePartsReached, part_area, part_volume, part_length};
ghost use Rattle.flux_moments.specs.Shared.{Shared, HoldShares, shared_columns};
ghost use Rattle.flux_moments.specs.Columns.{columns_volume, columns_mx};
ghost use Rattle.flux_moments.specs.Limits.{EndsAtMost};
ghost use Rattle.flux_moments.specs.Planes.{IsIn};
ghost use Rattle.flux_moments.specs.Sizes.{BoxSize, AreReached, spread, doubled_area, volume_part, length_part};
ghost use Rattle.flux_moments.specs.Widths.{volume_bound};
ghost use Rattle.flux_moments.specs.declared.plane_box.PlaneBox as plane_box;
ghost use Rattle.compartment_loss.specs.LeftWidths.{left_bound};
ghost use Rattle.compartment_loss.specs.Upright.{IsUprightPlane, IsUprightBox, IsUpright};

use crate::upright::Known;
use crate::upright_column::{column, nothing};
use crate::upright_part::part_column_sums;
use crate::{FloodedHull, UprightWet};
use flux_moments::{PlaneBox, ShipLength};
use hull_model::Face;
use hull_polyhedron::Faces;
use plane_clip::Part;

/// Encloses what is left of the volume and of the integral of x, as [`left`](crate::left) does and no wider, at the one
/// upright plane with the level `a` at the first station and `f` at the last, in grid units of 1/1024 mm.
///
/// The ends lie below 2^102 units of 2^-20 in magnitude for the volume, and below 2^122 for the integral of x. It costs
/// far less than `left`: a face needs the means of the depths at its corners alone, and one that is seen edgewise from
/// above nothing.
pub fn left_at(flood: &FloodedHull, a: i64, f: i64) -> UprightWet
    requires a { unsigned_abs a ≤ 2 ^ 30 }
    requires f { unsigned_abs f ≤ 2 ^ 30 }
    ensures volume { (stations : List Station) → IsHull stations → AreFacesOf stations flood.now.faces.now → (plane : Waterplane) → IsUprightPlane a f plane → ContainsFraction 20 result.volume.lo result.volume.hi (volume_left plane stations flood.now.slabs.items) }
    ensures mx { (stations : List Station) → IsHull stations → AreFacesOf stations flood.now.faces.now → (plane : Waterplane) → IsUprightPlane a f plane → ContainsFraction 20 result.mx.lo result.mx.hi (mx_left plane stations flood.now.slabs.items) }
    ensures volume_width { (planes : plane_box.PlaneBox) → IsUprightBox a f planes → IsNarrow 20 (left_bound flood.now planes) result.volume.lo result.volume.hi }
    ensures mx_width { (planes : plane_box.PlaneBox) → IsUprightBox a f planes → IsNarrow 20 (whole flood.now.faces.now.last_x ⊗ left_bound flood.now planes) result.mx.lo result.mx.hi }
    ensures volume_ends { EndsBelow 102 result.volume.lo result.volume.hi }
    ensures mx_ends { EndsBelow 122 result.mx.lo result.mx.hi }
{
    let planes = box_at(a, f);
    let all = body_at(flood.faces, &planes);
    if flood.parts.is_empty() {
        return all;
    }
    let lost = lost_at(flood.faces, &flood.parts, &planes);
    UprightWet {
        volume: all.volume - lost.volume,
        mx: all.mx - lost.mx,
    }
}

fn box_at(a: i64, f: i64) -> PlaneBox
    requires a { unsigned_abs a ≤ 2 ^ 30 }
    requires f { unsigned_abs f ≤ 2 ^ 30 }
    ensures upright { IsUprightBox a f result }
    ensures contains { (plane : Waterplane) → IsUprightPlane a f plane → IsIn result plane }
{
    match PlaneBox::upright(a, a, f, f) {
        Some(planes) => planes,
        None => unreachable!(),
    }
}

/// The volume of the columns of parts, and the integral of x.
fn lost_at(faces: &Faces, parts: &[Part], planes: &PlaneBox) -> UprightWet
    requires placed { AllByRecursion (IsPartWithin faces.now.first_x faces.now.last_x) parts.now }
    requires few { length parts.now < 2 ^ 22 }
    requires upright { IsUpright planes.now }
    ensures volume { (plane : Waterplane) (ts : List Shared) → IsIn planes.now plane → HoldShares parts.now ts → ContainsFraction 20 result.volume.lo result.volume.hi (shared_columns plane faces.now.first_x faces.now.last_x (λ p. one) ts) }
    ensures mx { (plane : Waterplane) (ts : List Shared) → IsIn planes.now plane → HoldShares parts.now ts → ContainsFraction 20 result.mx.lo result.mx.hi (shared_columns plane faces.now.first_x faces.now.last_x (λ p. p.x) ts) }
    ensures volume_width { (b : BoxSize) (h t : Fraction) (y z : ℕ) → ArePartsReached planes.now parts.now b h y z → sum_over (λ p. part_volume h (spread b h) (part_area p)) parts.now ≼ t ⊗ whole (pos 2) → IsNarrow 20 (t ⊕ units 20 2) result.volume.lo result.volume.hi }
    ensures mx_width { (b : BoxSize) (h t : Fraction) (y z : ℕ) → ArePartsReached planes.now parts.now b h y z → sum_over (λ p. part_length (whole faces.now.last_x) h (spread b h) (part_area p)) parts.now ≼ t ⊗ whole (pos 2) → IsNarrow 20 (t ⊕ units 20 2) result.mx.lo result.mx.hi }
    ensures volume_ends { EndsBelow 101 result.volume.lo result.volume.hi }
    ensures mx_ends { EndsBelow 121 result.mx.lo result.mx.hi }
{
    let way = ShipLength {
        first: faces.first_x(),
        last: faces.last_x(),
    };
    let sums = part_column_sums(parts, planes, way);
    UprightWet {
        volume: sums.volume.over_whole(2),
        mx: sums.mx.over_whole(2),
    }
}

/// The volume below an upright plane, and the integral of x.
fn body_at(faces: &Faces, planes: &PlaneBox) -> UprightWet
    requires { IsUpright planes.now }
    ensures volume { (stations : List Station) → IsHull stations → AreFacesOf stations faces.now → (plane : Waterplane) → IsIn planes.now plane → ContainsFraction 20 result.volume.lo result.volume.hi (submerged.submerged_volume plane stations) }
    ensures mx { (stations : List Station) → IsHull stations → AreFacesOf stations faces.now → (plane : Waterplane) → IsIn planes.now plane → ContainsFraction 20 result.mx.lo result.mx.hi (submerged.mx plane stations) }
    ensures volume_width { IsNarrow 20 (volume_bound faces.now planes.now) result.volume.lo result.volume.hi }
    ensures mx_width { IsNarrow 20 (whole faces.now.last_x ⊗ volume_bound faces.now planes.now) result.mx.lo result.mx.hi }
    ensures volume_ends { EndsBelow 93 result.volume.lo result.volume.hi }
    ensures mx_ends { EndsBelow 113 result.mx.lo result.mx.hi }
{
    let way = ShipLength {
        first: faces.first_x(),
        last: faces.last_x(),
    };
    let sums = column_sums(faces.list(), planes, way);
    UprightWet {
        volume: sums.volume.over_whole(2),
        mx: sums.mx.over_whole(2),
    }
}

/// The sums over the columns of faces: twice the volume, and twice the integral of x.
fn column_sums(faces: &[Face], planes: &PlaneBox, way: ShipLength) -> UprightWet
    requires limits { AllByRecursion IsFace faces.now }
    requires between { LieBetween way.first way.last faces.now }
    requires few { length faces.now < 2 ^ 14 }
    requires upright { IsUpright planes.now }
    ensures volume_ends { EndsAtMost (16383 * 2 ^ 79) result.volume.lo result.volume.hi }
    ensures mx_ends { EndsAtMost (16383 * (3 * 2 ^ 97)) result.mx.lo result.mx.hi }
    ensures volume { (plane : Waterplane) → IsIn planes.now plane → ContainsFraction 20 result.volume.lo result.volume.hi (columns_volume plane way.first way.last faces.now ⊗ whole (pos 2)) }
    ensures mx { (plane : Waterplane) → IsIn planes.now plane → ContainsFraction 20 result.mx.lo result.mx.hi (columns_mx plane way.first way.last faces.now ⊗ whole (pos 2)) }
    ensures volume_width { (b : BoxSize) (h : Fraction) → AreReached planes.now faces.now b h → IsNarrow 20 (sum_over (λ f. volume_part (spread b h) (doubled_area f)) faces.now) result.volume.lo result.volume.hi }
    ensures mx_width { (b : BoxSize) (h : Fraction) → AreReached planes.now faces.now b h → IsNarrow 20 (sum_over (λ f. length_part (whole way.last) (spread b h) (doubled_area f)) faces.now) result.mx.lo result.mx.hi }
{
    let mut known = Known::start(planes, way);
    let mut sums = nothing();
    for face in faces {
        let column = column(face, planes, way, known);
        known = column.known;
        sums = UprightWet {
            volume: sums.volume + column.wet.volume,
            mx: sums.mx + column.wet.mx,
        };
    }
    sums
}
