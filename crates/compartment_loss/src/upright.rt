// Depths at an upright plane.
ghost use Rattle.std.specs.Prelude.{◌≡◌, ◌*◌, ◌+◌, ◌^◌, ◌≤ℤ◌, ◌*ℤ◌, pos};
ghost use Rattle.exact_algebra.proofs.Fraction.{Fraction, ◌⊕◌};
ghost use Rattle.exact_algebra.proofs.Span.{ContainsFraction};
ghost use Rattle.hull_model.specs.Nodes.{IsNode};
ghost use Rattle.hull_model.specs.Waterplane.{Waterplane};
ghost use Rattle.outward_interval.specs.Widths.{units, IsNarrow, IsNear};
ghost use Rattle.flux_moments.specs.Columns as columns;
ghost use Rattle.flux_moments.specs.Limits.{EndsAtMost};
ghost use Rattle.flux_moments.specs.Planes.{IsIn, AreLevelEnds};
ghost use Rattle.flux_moments.specs.Sizes.{BoxSize, HasSize, Reaches, spread};
ghost use Rattle.flux_moments.specs.declared.box_levels.ShipLength as ghost_length;
ghost use Rattle.flux_moments.specs.declared.plane_box.PlaneBox as ghost_planes;
ghost use Rattle.compartment_loss.specs.Upright.{IsUpright};

use flux_moments::{PlaneBox, ShipLength, trimmed_levels_at};
use hull_model::Node;
use outward_interval::Span;

/// x, and the level of an upright plane there.
#[derive(Clone, Copy)]
pub(crate) struct Place {
    pub(crate) x: i64,
    pub(crate) level: Span<20>,
    ghost ends: { EndsAtMost (2 ^ 40) level.lo level.hi },
}

/// The places last asked for, the last one first. Neighbouring faces share their stations, so few levels are divided.
#[derive(Clone, Copy)]
pub(crate) struct Known {
    pub(crate) near: Place,
    pub(crate) far: Place,
}

impl Known {
    /// The first station.
    pub(crate) fn start(planes: &PlaneBox, way: ShipLength) -> Known
        ensures near { AreLevelEnds planes.now way.first way.last result.near.x result.near.level.lo result.near.level.hi }
        ensures far { AreLevelEnds planes.now way.first way.last result.far.x result.far.level.lo result.far.level.hi }
    {
        let place = place_at(planes, way, way.first);
        Known {
            near: place,
            far: place,
        }
    }

    /// With x as the last.
    pub(crate) fn with(self, planes: &PlaneBox, way: ShipLength, x: i64) -> Known
        requires between { (way.first ≤ℤ x) × (x ≤ℤ way.last) }
        requires near { AreLevelEnds planes.now way.first way.last self.near.x self.near.level.lo self.near.level.hi }
        requires far { AreLevelEnds planes.now way.first way.last self.far.x self.far.level.lo self.far.level.hi }
        ensures x { result.near.x ≡ x }
        ensures near { AreLevelEnds planes.now way.first way.last result.near.x result.near.level.lo result.near.level.hi }
        ensures far { AreLevelEnds planes.now way.first way.last result.far.x result.far.level.lo result.far.level.hi }
    {
        if self.near.x == x {
            self
        } else if self.far.x == x {
            Known {
                near: self.far,
                far: self.near,
            }
        } else {
            Known {
                near: place_at(planes, way, x),
                far: self.near,
            }
        }
    }
}

/// The level at x, with x.
fn place_at(planes: &PlaneBox, way: ShipLength, x: i64) -> Place
    requires { (way.first ≤ℤ x) × (x ≤ℤ way.last) }
    ensures x { result.x ≡ x }
    ensures levels { AreLevelEnds planes.now way.first way.last result.x result.level.lo result.level.hi }
{
    Place {
        x,
        level: trimmed_levels_at(planes, way, x),
    }
}

/// The depth of a node, by the level at its place.
pub(crate) fn depth_of(place: Place, node: Node) -> Span<20>
    requires node { IsNode node }
    requires same { place.x ≡ node.x }
    ensures ends { EndsAtMost (9 * 2 ^ 37 + 1) result.lo result.hi }
    ensures contains { (planes : ghost_planes.PlaneBox) (way : ghost_length.ShipLength) → IsUpright planes → AreLevelEnds planes way.first way.last place.x place.level.lo place.level.hi → (way.first ≤ℤ node.x) × (node.x ≤ℤ way.last) → (plane : Waterplane) → IsIn planes plane → ContainsFraction 20 result.lo result.hi (columns.depth_of plane way.first way.last node) }
    ensures narrow { (planes : ghost_planes.PlaneBox) (way : ghost_length.ShipLength) → AreLevelEnds planes way.first way.last place.x place.level.lo place.level.hi → (way.first ≤ℤ node.x) × (node.x ≤ℤ way.last) → (b : BoxSize) (h : Fraction) → HasSize planes b → Reaches b h node → IsNarrow 20 (spread b h ⊕ units 20 4) result.lo result.hi }
    ensures near { (planes : ghost_planes.PlaneBox) (way : ghost_length.ShipLength) → AreLevelEnds planes way.first way.last place.x place.level.lo place.level.hi → (way.first ≤ℤ node.x) × (node.x ≤ℤ way.last) → (b : BoxSize) (h : Fraction) → HasSize planes b → Reaches b h node → IsNear 20 (h ⊕ units 20 2) result.lo result.hi }
{
    place.level - height_of(node)
}

/// The height of a node, exactly.
fn height_of(node: Node) -> Span<20>
    requires { IsNode node }
    ensures { (result.lo ≡ node.z *ℤ pos (2 ^ 20)) × (result.hi ≡ node.z *ℤ pos (2 ^ 20)) }
{
    let units = i128::from(node.z) * 1048576;
    match Span::new(units, units) {
        Some(span) => span,
        None => unreachable!(),
    }
}
