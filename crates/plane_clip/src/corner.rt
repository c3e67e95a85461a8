// Corners of parts of a face.
ghost use Rattle.std.specs.Prelude.{◌≡◌, ℕ, suc, ◌*◌, ◌^◌, ◌≤◌, ◌≤ℤ◌, pos, unsigned_abs};
ghost use Rattle.exact_algebra.proofs.Fraction.{Fraction, ◌⊗◌, inverse};
ghost use Rattle.exact_algebra.proofs.Span.{ContainsFraction};
ghost use Rattle.exact_algebra.proofs.Whole.{whole};
ghost use Rattle.hull_model.specs.Body.{IsWithin};
ghost use Rattle.hull_model.specs.Fractions.{interpolated};
ghost use Rattle.hull_model.specs.Nodes.{IsNode};
ghost use Rattle.hull_model.specs.Waterplane.{Position, position_of};
ghost use Rattle.plane_clip.specs.Limits.{EndsAtMost};

use crate::parts::{exact, mixed};
use hull_model::Node;
use outward_interval::Span;

/// A corner of a part of a face: x in whole mm, and spans of the other coordinates.
#[derive(Clone, Copy)]
pub struct PartCorner {
    pub x: i128,
    pub y: Span<20>,
    pub z: Span<20>,
    ghost place: { IsWithin (pos 524287) x },
    ghost y_ends: { EndsAtMost (65535 * 2 ^ 20) y.lo y.hi },
    ghost z_ends: { EndsAtMost (65535 * 2 ^ 20) z.lo z.hi },
}

impl PartCorner {
    ghost use Rattle.plane_clip.specs.Parts.{HoldsCorner};
    ghost use Rattle.plane_clip.specs.Extents.{IsCornerExtent};
    ghost use Rattle.plane_clip.specs.Ways.{IsOnWay};
    ghost use Rattle.plane_clip.specs.Clipped.{meets};

    /// A corner of a face.
    pub(crate) fn of(node: Node) -> PartCorner
        requires { IsNode node }
        ensures x { result.x ≡ node.x }
        ensures holds { HoldsCorner result (position_of node) }
        ensures extent { (y z : ℕ) → unsigned_abs node.y ≤ y → unsigned_abs node.z ≤ z → IsCornerExtent y z 0 result }
    {
        PartCorner {
            x: i128::from(node.x),
            y: exact(node.y),
            z: exact(node.z),
        }
    }

    /// The point at `at` of the edge to another corner.
    pub(crate) fn crossing(&self, other: &PartCorner, at: i128) -> PartCorner
        requires { IsOnWay at self.now.x other.now.x }
        ensures x { result.x ≡ at }
        ensures holds { (p q : Position) → HoldsCorner self.now p → HoldsCorner other.now q → HoldsCorner result (meets at p q) }
        ensures extent { (y z k : ℕ) → IsCornerExtent y z k self.now → IsCornerExtent y z k other.now → IsCornerExtent y z (suc k) result }
    {
        if self.x > other.x {
            self.at_part(other, at, self.x - at, self.x - other.x)
        } else {
            self.at_part(other, at, at - self.x, other.x - self.x)
        }
    }

    fn at_part(&self, other: &PartCorner, at: i128, n: i128, d: i128) -> PartCorner
        requires place { IsWithin (pos 524287) at }
        requires part { (pos 0 ≤ℤ n) × (n ≤ℤ d) }
        requires whole { (pos 1 ≤ℤ d) × (d ≤ℤ pos (2 ^ 20)) }
        ensures x { result.x ≡ at }
        ensures y { (x y : Fraction) → ContainsFraction 20 self.now.y.lo self.now.y.hi x → ContainsFraction 20 other.now.y.lo other.now.y.hi y → ContainsFraction 20 result.y.lo result.y.hi (interpolated (whole n ⊗ inverse (whole d)) x y) }
        ensures z { (x y : Fraction) → ContainsFraction 20 self.now.z.lo self.now.z.hi x → ContainsFraction 20 other.now.z.lo other.now.z.hi y → ContainsFraction 20 result.z.lo result.z.hi (interpolated (whole n ⊗ inverse (whole d)) x y) }
        ensures extent { (y z k : ℕ) → IsCornerExtent y z k self.now → IsCornerExtent y z k other.now → IsCornerExtent y z (suc k) result }
    {
        PartCorner {
            x: at,
            y: mixed(self.y, other.y, n, d),
            z: mixed(self.z, other.z, n, d),
        }
    }
}

/// At the origin: what an `ArrayVec` has in places that aren't used.
impl Default for PartCorner {
    fn default() -> PartCorner {
        PartCorner {
            x: 0,
            y: exact(0),
            z: exact(0),
        }
    }
}
