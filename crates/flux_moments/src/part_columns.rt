// The columns between parts of faces and the waterplane.
ghost use Rattle.std.specs.Prelude.{◌≡◌, ℕ, ◌+◌, ◌*◌, ◌^◌, pos};
ghost use Rattle.exact_algebra.proofs.Fraction.{Fraction, one, ◌⊗◌, ◌⊕◌, negative, ◌≼◌};
ghost use Rattle.exact_algebra.proofs.Span.{ContainsFraction};
ghost use Rattle.exact_algebra.proofs.Whole.{whole};
ghost use Rattle.hull_model.specs.FaceParts.{area_y, area_z};
ghost use Rattle.hull_model.specs.TriangleCut.{Triangle};
ghost use Rattle.hull_model.specs.Waterplane.{Waterplane, Position, height, side_distance, level_at};
ghost use Rattle.hull_polyhedron.specs.Columns.{depth, middle, column};
ghost use Rattle.plane_clip.specs.Between.{IsPlaced, IsPartWithin};
ghost use Rattle.outward_interval.specs.Widths.{units, IsNarrow, IsNear};
ghost use Rattle.plane_clip.specs.Extents.{IsCornerExtent, IsPartExtent};
ghost use Rattle.plane_clip.specs.Limits.{IsThin};
ghost use Rattle.plane_clip.specs.Parts.{HoldsCorner, HoldsShare};
ghost use Rattle.flux_moments.specs.Limits.{EndsAtMost, EndsLess};
ghost use Rattle.flux_moments.specs.Planes.{HasDirectionIn, IsIn, cosine, sine};
ghost use Rattle.flux_moments.specs.PartSizes.{part_area, ArePartWidths};
ghost use Rattle.flux_moments.specs.Sizes.{BoxSize, HasSize, spread, IsCornerSize};
ghost use Rattle.flux_moments.specs.Wets.{AreColumnEnds};

use crate::box_levels::levels_at;
use crate::corner::Corner;
use crate::face_columns::columns_at;
use crate::{PlaneBox, ShipLength, Wet};
use angle_bounds::Bracket;
use outward_interval::Span;
use plane_clip::{Part, PartCorner};

/// The integrals over the columns between the wet part of a part of a face and the waterplane, as those of a face: twice
/// the volume and the integrals of x and of the side, four times that of the height.
pub(crate) fn part_columns(part: &Part, planes: &PlaneBox, way: ShipLength) -> Wet
    requires { IsPartWithin way.first way.last part.now }
    ensures ends { AreColumnEnds 1 result }
    ensures volume { (plane : Waterplane) (share : Fraction) (t : Triangle Position) → IsIn planes.now plane → HoldsShare part.now share t → ContainsFraction 20 result.volume.lo result.volume.hi ((column plane way.first way.last (λ p. one) t ⊗ share) ⊗ whole (pos 2)) }
    ensures mx { (plane : Waterplane) (share : Fraction) (t : Triangle Position) → IsIn planes.now plane → HoldsShare part.now share t → ContainsFraction 20 result.mx.lo result.mx.hi ((column plane way.first way.last (λ p. p.x) t ⊗ share) ⊗ whole (pos 2)) }
    ensures mv { (plane : Waterplane) (share : Fraction) (t : Triangle Position) → IsIn planes.now plane → HoldsShare part.now share t → ContainsFraction 20 result.mv.lo result.mv.hi ((column plane way.first way.last (side_distance plane) t ⊗ share) ⊗ whole (pos 2)) }
    ensures mu { (plane : Waterplane) (share : Fraction) (t : Triangle Position) → IsIn planes.now plane → HoldsShare part.now share t → ContainsFraction 20 result.mu.lo result.mu.hi ((column plane way.first way.last (middle plane way.first way.last) t ⊗ share) ⊗ whole (pos 4)) }
    ensures widths { (b : BoxSize) (h : Fraction) (y z : ℕ) → HasSize planes.now b → one ≼ h → b.level ⊕ whole (pos (z + y)) ≼ h → IsPartExtent y z 3 part.now → ArePartWidths (whole way.last) h (spread b h) (part_area part.now) result }
{
    let first = corner_of(&part.a, planes, way);
    let second = corner_of(&part.b, planes, way);
    let third = corner_of(&part.c, planes, way);
    columns_at(&first, &second, &third, factor_of(part, &planes.bracket))
}

fn corner_of(corner: &PartCorner, planes: &PlaneBox, way: ShipLength) -> Corner
    requires { IsPlaced way.first way.last corner.now.x }
    ensures x { result.x ≡ corner.now.x }
    ensures depth { (plane : Waterplane) (p : Position) → IsIn planes.now plane → HoldsCorner corner.now p → ContainsFraction 20 result.depth.lo result.depth.hi (depth plane way.first way.last p) }
    ensures side { (plane : Waterplane) (p : Position) → IsIn planes.now plane → HoldsCorner corner.now p → ContainsFraction 20 result.side.lo result.side.hi (side_distance plane p) }
    ensures middle { (plane : Waterplane) (p : Position) → IsIn planes.now plane → HoldsCorner corner.now p → ContainsFraction 20 result.middle.lo result.middle.hi (level_at plane way.first way.last p.x ⊕ height plane p) }
    ensures size { (b : BoxSize) (h s : Fraction) (y z : ℕ) → HasSize planes.now b → b.level ⊕ whole (pos (z + y)) ≼ h → IsCornerExtent y z 3 corner.now → spread b h ⊕ units 20 8 ≼ s → IsCornerSize s h result.depth result.side result.middle }
{
    let x = place_of(corner);
    let level = levels_at(planes, way, x);
    let height = height_of(corner, &planes.bracket);
    Corner {
        x,
        depth: level - height,
        side: side_of(corner, &planes.bracket),
        middle: level + height,
    }
}

fn place_of(corner: &PartCorner) -> i64
    ensures { result ≡ corner.now.x }
{
    corner.x as i64
}

/// The height of a corner, for all directions of a bracket.
fn height_of(corner: &PartCorner, bracket: &Bracket) -> Span<20>
    ensures ends { EndsAtMost (2 ^ 37 + 1) result.lo result.hi }
    ensures contains { (plane : Waterplane) (p : Position) → HasDirectionIn bracket.now plane → HoldsCorner corner.now p → ContainsFraction 20 result.lo result.hi (height plane p) }
    ensures narrow { (e : Fraction) (y z : ℕ) → IsNarrow 40 e bracket.now.c.lo bracket.now.c.hi → IsNarrow 40 e bracket.now.s.lo bracket.now.s.hi → IsCornerExtent y z 3 corner.now → IsNarrow 20 (e ⊗ whole (pos (z + y)) ⊕ units 20 10) result.lo result.hi }
    ensures near { (y z : ℕ) → IsCornerExtent y z 3 corner.now → IsNear 20 (whole (pos (z + y)) ⊕ units 20 1) result.lo result.hi }
{
    let along = bracket.c.scaled_by(corner.z);
    let across = bracket.s.scaled_by(corner.y);
    (along + across).rescale()
}

/// The distance of a corner from the centreplane towards the low side, for all directions of a bracket.
fn side_of(corner: &PartCorner, bracket: &Bracket) -> Span<20>
    ensures ends { EndsAtMost (2 ^ 37 + 1) result.lo result.hi }
    ensures contains { (plane : Waterplane) (p : Position) → HasDirectionIn bracket.now plane → HoldsCorner corner.now p → ContainsFraction 20 result.lo result.hi (side_distance plane p) }
    ensures narrow { (e : Fraction) (y z : ℕ) → IsNarrow 40 e bracket.now.c.lo bracket.now.c.hi → IsNarrow 40 e bracket.now.s.lo bracket.now.s.hi → IsCornerExtent y z 3 corner.now → IsNarrow 20 (e ⊗ whole (pos (z + y)) ⊕ units 20 10) result.lo result.hi }
    ensures near { (y z : ℕ) → IsCornerExtent y z 3 corner.now → IsNear 20 (whole (pos (z + y)) ⊕ units 20 1) result.lo result.hi }
{
    let along = bracket.s.scaled_by(corner.z);
    let across = bracket.c.scaled_by(corner.y);
    (along - across).rescale()
}

/// Twice the area of a part as it is seen along the height, above 0 where it points downwards.
fn factor_of(part: &Part, bracket: &Bracket) -> Span<40>
    ensures ends { EndsLess (3 * 2 ^ 76) result.lo result.hi }
    ensures contains { (plane : Waterplane) (share : Fraction) (t : Triangle Position) → HasDirectionIn bracket.now plane → HoldsShare part.now share t → ContainsFraction 40 result.lo result.hi (negative (sine plane ⊗ (area_y t ⊗ share) ⊕ cosine plane ⊗ (area_z t ⊗ share))) }
    ensures narrow { (e : Fraction) → IsNarrow 40 e bracket.now.c.lo bracket.now.c.hi → IsNarrow 40 e bracket.now.s.lo bracket.now.s.hi → IsThin 3 part.now.ay.lo part.now.ay.hi → IsThin 3 part.now.az.lo part.now.az.hi → IsNarrow 40 (e ⊗ part_area part.now ⊕ units 20 8) result.lo result.hi }
    ensures near { IsNear 40 (part_area part.now) result.lo result.hi }
{
    let across = bracket.s.scaled_by(part.ay);
    let along = bracket.c.scaled_by(part.az);
    -(across + along)
}
