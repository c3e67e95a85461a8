// Corners of a face at the planes of a box.
ghost use Rattle.std.specs.Prelude.{◌≡◌, ◌+◌, ◌*◌, ◌^◌, ◌≤ℤ◌, ◌-ℤ◌, ◌*ℤ◌, ℤ, pos, unsigned_abs};
ghost use Rattle.exact_algebra.proofs.Fraction.{Fraction, ◌⊕◌, ◌⊗◌, negative, ◌≼◌};
ghost use Rattle.exact_algebra.proofs.Span.{ContainsFraction};
ghost use Rattle.exact_algebra.proofs.Whole.{whole};
ghost use Rattle.exact_fraction.specs.Bounds.{MagnitudeBelow};
ghost use Rattle.hull_model.specs.Nodes.{IsNode};
ghost use Rattle.hull_model.specs.Waterplane.{Waterplane, position_of, height, side_distance, level_at};
ghost use Rattle.outward_interval.specs.Widths.{units, IsNarrow, IsNear};
ghost use Rattle.flux_moments.specs.Columns as columns;
ghost use Rattle.flux_moments.specs.Limits.{EndsAtMost};
ghost use Rattle.flux_moments.specs.Planes.{HasDirectionIn, IsIn, cosine, sine};
ghost use Rattle.flux_moments.specs.Sizes.{BoxSize, HasSize, IsLevelBox, distance, Reaches, spread, margin, IsElevationSize, IsCornerSize};

use crate::box_levels::levels_at;
use crate::multiples::Multiples;
use crate::{PlaneBox, ShipLength};
use angle_bounds::Bracket;
use hull_model::Node;
use outward_interval::Span;

/// A corner at the planes of a box, in mm: x, the depth, the distance towards the low side, and the sum of the level
/// and the height.
#[derive(Clone, Copy)]
pub(crate) struct Corner {
    pub(crate) x: i64,
    pub(crate) depth: Span<20>,
    pub(crate) side: Span<20>,
    pub(crate) middle: Span<20>,
    ghost place: { MagnitudeBelow 19 x },
    ghost depth_ends: { EndsAtMost (9 * 2 ^ 37 + 1) depth.lo depth.hi },
    ghost side_ends: { EndsAtMost (2 ^ 37 + 1) side.lo side.hi },
    ghost middle_ends: { EndsAtMost (9 * 2 ^ 37 + 1) middle.lo middle.hi },
}

/// The depth of a corner, and the sum of the level and its height, in mm, at the planes of a box.
#[derive(Clone, Copy)]
pub(crate) struct Elevation {
    pub(crate) depth: Span<20>,
    pub(crate) middle: Span<20>,
    ghost depth_ends: { EndsAtMost (9 * 2 ^ 37 + 1) depth.lo depth.hi },
    ghost middle_ends: { EndsAtMost (9 * 2 ^ 37 + 1) middle.lo middle.hi },
}

impl Elevation {
    pub(crate) fn of(planes: &PlaneBox, way: ShipLength, node: Node) -> Elevation
        requires node { IsNode node }
        requires between { (way.first ≤ℤ node.x) × (node.x ≤ℤ way.last) }
        ensures depth { (plane : Waterplane) → IsIn planes.now plane → ContainsFraction 20 result.depth.lo result.depth.hi (columns.depth_of plane way.first way.last node) }
        ensures middle { (plane : Waterplane) → IsIn planes.now plane → ContainsFraction 20 result.middle.lo result.middle.hi (level_at plane way.first way.last (whole node.x) ⊕ height plane (position_of node)) }
        ensures size { (b : BoxSize) (h : Fraction) → HasSize planes.now b → Reaches b h node → IsElevationSize (spread b h) h result.depth result.middle }
    {
        let level = levels_at(planes, way, node.x);
        let height = height_of(&planes.bracket, node);
        Elevation {
            depth: level - height,
            middle: level + height,
        }
    }

    /// The corner at this node.
    pub(crate) fn corner(self, planes: &PlaneBox, node: Node) -> Corner
        requires node { IsNode node }
        ensures x { result.x ≡ node.x }
        ensures depth { result.depth ≡ self.depth }
        ensures side { (plane : Waterplane) → IsIn planes.now plane → ContainsFraction 20 result.side.lo result.side.hi (side_distance plane (position_of node)) }
        ensures middle { result.middle ≡ self.middle }
        ensures size { (b : BoxSize) (h : Fraction) → HasSize planes.now b → Reaches b h node → IsElevationSize (spread b h) h self.depth self.middle → IsCornerSize (spread b h) h result.depth result.side result.middle }
    {
        Corner {
            x: node.x,
            depth: self.depth,
            side: side_of(&planes.bracket, node),
            middle: self.middle,
        }
    }
}

/// The depth of a node, for all planes of a box.
pub(crate) fn depth_of(planes: &PlaneBox, way: ShipLength, node: Node) -> Span<20>
    requires node { IsNode node }
    requires between { (way.first ≤ℤ node.x) × (node.x ≤ℤ way.last) }
    ensures ends { EndsAtMost (9 * 2 ^ 37 + 1) result.lo result.hi }
    ensures contains { (plane : Waterplane) → IsIn planes.now plane → ContainsFraction 20 result.lo result.hi (columns.depth_of plane way.first way.last node) }
    ensures narrow { (b : BoxSize) (h : Fraction) → HasSize planes.now b → Reaches b h node → IsNarrow 20 (spread b h ⊕ units 20 4) result.lo result.hi }
    ensures near { (b : BoxSize) (h : Fraction) → HasSize planes.now b → Reaches b h node → IsNear 20 (h ⊕ units 20 2) result.lo result.hi }
    ensures under { (b : BoxSize) (h : Fraction) → HasSize planes.now b → Reaches b h node → ((plane : Waterplane) → IsIn planes.now plane → margin b h ≼ columns.depth_of plane way.first way.last node) → pos 1 ≤ℤ result.lo }
    ensures out { (b : BoxSize) (h : Fraction) → HasSize planes.now b → Reaches b h node → ((plane : Waterplane) → IsIn planes.now plane → columns.depth_of plane way.first way.last node ≼ negative (margin b h)) → result.hi ≤ℤ pos 0 }
    ensures level { (d1 d2 : ℤ) → IsLevelBox planes.now d1 d2 → (result.lo ≡ (d1 *ℤ pos 1024) -ℤ (node.z *ℤ pos (2 ^ 20))) × (result.hi ≡ (d2 *ℤ pos 1024) -ℤ (node.z *ℤ pos (2 ^ 20))) }
{
    levels_at(planes, way, node.x) - height_of(&planes.bracket, node)
}

/// The height of a node, for all directions of a bracket.
fn height_of(bracket: &Bracket, node: Node) -> Span<20>
    requires { IsNode node }
    ensures ends { EndsAtMost (2 ^ 37 + 1) result.lo result.hi }
    ensures contains { (plane : Waterplane) → HasDirectionIn bracket.now plane → ContainsFraction 20 result.lo result.hi (height plane (position_of node)) }
    ensures narrow { (e : Fraction) → IsNarrow 40 e bracket.now.c.lo bracket.now.c.hi → IsNarrow 40 e bracket.now.s.lo bracket.now.s.hi → IsNarrow 20 (e ⊗ distance node ⊕ units 20 2) result.lo result.hi }
    ensures near { IsNear 20 (distance node ⊕ units 20 1) result.lo result.hi }
    ensures upright { (bracket.now.c.lo ≡ pos (2 ^ 40)) × (bracket.now.c.hi ≡ pos (2 ^ 40)) → (bracket.now.s.lo ≡ pos 0) × (bracket.now.s.hi ≡ pos 0) → (result.lo ≡ node.z *ℤ pos (2 ^ 20)) × (result.hi ≡ node.z *ℤ pos (2 ^ 20)) }
{
    let along = Multiples::of(bracket.c, node.z);
    let across = Multiples::of(bracket.s, node.y);
    along.plus(across)
}

/// The distance of a node from the centreplane towards the low side, for all directions of a bracket.
fn side_of(bracket: &Bracket, node: Node) -> Span<20>
    requires { IsNode node }
    ensures ends { EndsAtMost (2 ^ 37 + 1) result.lo result.hi }
    ensures contains { (plane : Waterplane) → HasDirectionIn bracket.now plane → ContainsFraction 20 result.lo result.hi (side_distance plane (position_of node)) }
    ensures narrow { (e : Fraction) → IsNarrow 40 e bracket.now.c.lo bracket.now.c.hi → IsNarrow 40 e bracket.now.s.lo bracket.now.s.hi → IsNarrow 20 (e ⊗ distance node ⊕ units 20 2) result.lo result.hi }
    ensures near { IsNear 20 (distance node ⊕ units 20 1) result.lo result.hi }
{
    let along = Multiples::of(bracket.s, node.z);
    let across = Multiples::of(bracket.c, node.y);
    along.minus(across)
}

/// The cosine times a whole number, for all directions of a bracket.
pub(crate) fn times_cosine(bracket: &Bracket, n: i64) -> Span<40>
    requires { MagnitudeBelow 41 n }
    ensures ends { EndsAtMost (2 ^ 40 * unsigned_abs n) result.lo result.hi }
    ensures contains { (plane : Waterplane) → HasDirectionIn bracket.now plane → ContainsFraction 40 result.lo result.hi (cosine plane ⊗ whole n) }
    ensures narrow { (e : Fraction) → IsNarrow 40 e bracket.now.c.lo bracket.now.c.hi → IsNarrow 40 (e ⊗ whole (pos (unsigned_abs n))) result.lo result.hi }
    ensures same { (k : ℤ) → bracket.now.c.lo ≡ k → bracket.now.c.hi ≡ k → (result.lo ≡ k *ℤ n) × (result.hi ≡ k *ℤ n) }
{
    times(bracket.c, n)
}

/// The sine times a whole number, for all directions of a bracket.
pub(crate) fn times_sine(bracket: &Bracket, n: i64) -> Span<40>
    requires { MagnitudeBelow 41 n }
    ensures ends { EndsAtMost (2 ^ 40 * unsigned_abs n) result.lo result.hi }
    ensures contains { (plane : Waterplane) → HasDirectionIn bracket.now plane → ContainsFraction 40 result.lo result.hi (sine plane ⊗ whole n) }
    ensures narrow { (e : Fraction) → IsNarrow 40 e bracket.now.s.lo bracket.now.s.hi → IsNarrow 40 (e ⊗ whole (pos (unsigned_abs n))) result.lo result.hi }
    ensures same { (k : ℤ) → bracket.now.s.lo ≡ k → bracket.now.s.hi ≡ k → (result.lo ≡ k *ℤ n) × (result.hi ≡ k *ℤ n) }
{
    times(bracket.s, n)
}

/// All numbers of a span from 0 to 1, each times a whole number.
fn times(part: Span<40>, n: i64) -> Span<40>
    requires part { EndsAtMost (2 ^ 40) part.lo part.hi }
    requires n { MagnitudeBelow 41 n }
    ensures ends { EndsAtMost (2 ^ 40 * unsigned_abs n) result.lo result.hi }
    ensures contains { (x : Fraction) → ContainsFraction 40 part.lo part.hi x → ContainsFraction 40 result.lo result.hi (x ⊗ whole n) }
    ensures narrow { (e : Fraction) → IsNarrow 40 e part.lo part.hi → IsNarrow 40 (e ⊗ whole (pos (unsigned_abs n))) result.lo result.hi }
    ensures same { (k : ℤ) → part.lo ≡ k → part.hi ≡ k → (result.lo ≡ k *ℤ n) × (result.hi ≡ k *ℤ n) }
{
    part.times_whole(i128::from(n))
}
