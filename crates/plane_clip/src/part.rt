// Triangles that a face is clipped to.
ghost use Rattle.std.specs.Prelude.{◌≡◌, ◌≤◌, ℕ, suc, ◌-◌, ◌*◌, ◌^◌, ℤ, pos};
ghost use Rattle.exact_algebra.proofs.Fraction.{Fraction, ◌⊗◌};
ghost use Rattle.exact_algebra.proofs.Span.{ContainsFraction};
ghost use Rattle.plane_clip.specs.Limits.{EndsAtMost, IsThin};
ghost use Rattle.plane_clip.specs.Ways.{IsOnWay, quotient_of};

use crate::corner::PartCorner;
use crate::parts::{exact, portion};
use crate::way::{Share, Way};
use hull_model::Face;
use outward_interval::Span;

/// A part of a face: its corners, and twice its area as it is seen along y and along z.
#[derive(Clone, Copy)]
pub struct Part {
    pub a: PartCorner,
    pub b: PartCorner,
    pub c: PartCorner,
    pub ay: Span<20>,
    pub az: Span<20>,
    ghost ay_ends: { EndsAtMost ((2 ^ 36 - 1) * 2 ^ 20) ay.lo ay.hi },
    ghost az_ends: { EndsAtMost ((2 ^ 37 - 1) * 2 ^ 20) az.lo az.hi },
}

impl Part {
    ghost use Rattle.hull_model.specs.TriangleCut.{Triangle, triangle};
    ghost use Rattle.hull_model.specs.Waterplane.{Position};
    ghost use Rattle.plane_clip.specs.Clipped.{meets};
    ghost use Rattle.hull_model.specs.Faces.{IsFace};
    ghost use Rattle.hull_polyhedron.specs.Between.{IsInside};
    ghost use Rattle.std.specs.List.{AllByRecursion};
    ghost use Rattle.plane_clip.specs.Between.{IsPartWithin};
    ghost use Rattle.plane_clip.specs.Parts.{HoldsPart, HoldsShare, face_at};
    ghost use Rattle.plane_clip.specs.Extents.{IsPartExtent};

    /// The whole of a face.
    pub(crate) fn of(face: &Face) -> Part
        requires { IsFace face.now }
        ensures holds { HoldsPart result (face_at face.now) }
        ensures extent { (y z : ℕ) → AllByRecursion (IsInside (pos y) (pos z)) face.now.p → IsPartExtent y z 0 result }
    {
        let [a, b, c] = face.p;
        Part {
            a: PartCorner::of(a),
            b: PartCorner::of(b),
            c: PartCorner::of(c),
            ay: exact(face.ay),
            az: exact(face.az),
        }
    }

    /// With the second corner first.
    pub(crate) fn second(&self) -> Part
        ensures corners { (result.a ≡ self.now.b) × (result.b ≡ self.now.c) × (result.c ≡ self.now.a) }
        ensures holds { (t : Triangle Position) → HoldsPart self.now t → HoldsPart result (triangle t.b t.c t.a) }
        ensures extent { (y z k : ℕ) → IsPartExtent y z k self.now → IsPartExtent y z k result }
    {
        Part {
            a: self.b,
            b: self.c,
            c: self.a,
            ay: self.ay,
            az: self.az,
        }
    }

    /// The part at the first corner, up to the place `at`.
    pub(crate) fn tip(&self, at: i128) -> Part
        requires second { IsOnWay at self.now.a.x self.now.b.x }
        requires third { IsOnWay at self.now.a.x self.now.c.x }
        ensures holds { (t : Triangle Position) → HoldsPart self.now t → HoldsPart result (triangle t.a (meets at t.a t.b) (meets at t.a t.c)) }
        ensures extent { (y z k : ℕ) → IsPartExtent y z k self.now → IsPartExtent y z (suc k) result }
    {
        let to_second = Way::of(self.a.x, self.b.x, at);
        let to_third = Way::of(self.a.x, self.c.x, at);
        self.portion(
            self.a,
            self.a.crossing(&self.b, at),
            self.a.crossing(&self.c, at),
            to_second.times(to_third),
        )
    }

    /// What is left without the tip: the triangle with the second corner and the third.
    pub(crate) fn behind_second(&self, at: i128) -> Part
        requires second { IsOnWay at self.now.a.x self.now.b.x }
        ensures holds { (t : Triangle Position) → HoldsPart self.now t → HoldsPart result (triangle (meets at t.a t.b) t.b t.c) }
        ensures extent { (y z k : ℕ) → IsPartExtent y z k self.now → IsPartExtent y z (suc k) result }
    {
        let to_second = Way::of(self.a.x, self.b.x, at);
        self.portion(
            self.a.crossing(&self.b, at),
            self.b,
            self.c,
            to_second.rest().share(),
        )
    }

    /// What is left without the tip: the triangle with the third corner alone.
    pub(crate) fn behind_third(&self, at: i128) -> Part
        requires second { IsOnWay at self.now.a.x self.now.b.x }
        requires third { IsOnWay at self.now.a.x self.now.c.x }
        ensures holds { (t : Triangle Position) → HoldsPart self.now t → HoldsPart result (triangle (meets at t.a t.b) t.c (meets at t.a t.c)) }
        ensures extent { (y z k : ℕ) → IsPartExtent y z k self.now → IsPartExtent y z (suc k) result }
    {
        let to_second = Way::of(self.a.x, self.b.x, at);
        let to_third = Way::of(self.a.x, self.c.x, at);
        self.portion(
            self.a.crossing(&self.b, at),
            self.c,
            self.a.crossing(&self.c, at),
            to_second.times(to_third.rest()),
        )
    }

    /// The part with so many thousandths of its areas.
    pub fn thousandths(&self, n: u32) -> Part
        requires { n ≤ 1000 }
        ensures corners { (result.a ≡ self.now.a) × (result.b ≡ self.now.b) × (result.c ≡ self.now.c) }
        ensures holds { (t : Triangle Position) → HoldsPart self.now t → HoldsShare result (quotient_of (pos n) (pos 1000)) t }
        ensures placed { (first last : ℤ) → IsPartWithin first last self.now → IsPartWithin first last result }
        ensures extent { (y z k : ℕ) → IsPartExtent y z k self.now → IsPartExtent y z (suc k) result }
    {
        self.portion(self.a, self.b, self.c, Share::thousandths(n))
    }

    /// A triangle of such corners that has so much of the area.
    fn portion(&self, a: PartCorner, b: PartCorner, c: PartCorner, share: Share) -> Part
        ensures corners { (result.a ≡ a) × (result.b ≡ b) × (result.c ≡ c) }
        ensures ay { (x : Fraction) → ContainsFraction 20 self.now.ay.lo self.now.ay.hi x → ContainsFraction 20 result.ay.lo result.ay.hi (x ⊗ quotient_of share.n share.d) }
        ensures az { (x : Fraction) → ContainsFraction 20 self.now.az.lo self.now.az.hi x → ContainsFraction 20 result.az.lo result.az.hi (x ⊗ quotient_of share.n share.d) }
        ensures ay_thin { (k : ℕ) → IsThin k self.now.ay.lo self.now.ay.hi → IsThin (suc k) result.ay.lo result.ay.hi }
        ensures az_thin { (k : ℕ) → IsThin k self.now.az.lo self.now.az.hi → IsThin (suc k) result.az.lo result.az.hi }
    {
        Part {
            a,
            b,
            c,
            ay: portion(self.ay, share.n, share.d),
            az: portion(self.az, share.n, share.d),
        }
    }
}

/// At the origin, with no area.
impl Default for Part {
    fn default() -> Part {
        Part {
            a: PartCorner::default(),
            b: PartCorner::default(),
            c: PartCorner::default(),
            ay: exact(0),
            az: exact(0),
        }
    }
}
