// The boundary of a hull.
ghost use Rattle.std.specs.Prelude.{◌≡◌, ◌<◌, ◌^◌, length};
ghost use Rattle.std.specs.List.{AllByRecursion};
ghost use Rattle.std.proofs.Props.{props};
ghost use Rattle.hull_model.specs.Faces.{IsFace};
ghost use Rattle.hull_polyhedron.specs.Between.{AreEnds, AreHeights, IsBetween, LieBetween, IsInside, IsReach, LieInside};
ghost use Rattle.hull_polyhedron.specs.Parts.{IsPartOf, AreInOrder};
ghost use Rattle.hull_polyhedron.specs.SideAreas.{LieLow};

use crate::strips::Strips;
use crate::{FaceList, Totals};
use hull_model::{Face, Node};

/// The boundary of a hull: the faces of its tetrahedra that are left after opposite ones cancel, and
/// between what the hull lies.
///
/// Faces of no area are left out. There are fewer than 16384. Every corner lies from the first station to
/// the last, both ends included, no farther from the centreplane than the half-breadth, not below the base,
/// and no higher than `high_z`.
#[derive(Debug, Drop)]
pub struct Faces {
    pub(crate) list: FaceList,
    pub(crate) strips: Strips,
    pub(crate) first_x: i64,
    pub(crate) last_x: i64,
    pub(crate) low_z: i64,
    pub(crate) high_z: i64,
    pub(crate) half_breadth: i64,
    ghost few: { length list < 2 ^ 14 },
    ghost parts: { AllByRecursion (IsPartOf (length list)) strips.face_parts.items } by { Prim.hlevel props },
    ghost ends: { AreEnds first_x last_x },
    ghost between: { LieBetween first_x last_x list } by { Prim.hlevel props },
    ghost heights: { AreHeights low_z high_z },
    ghost reach: { IsReach half_breadth high_z },
    ghost inside: { LieInside half_breadth high_z list } by { Prim.hlevel props },
    ghost nodes_between: { AllByRecursion (IsBetween first_x last_x) strips.nodes.items } by { Prim.hlevel props },
    ghost nodes_inside: { AllByRecursion (IsInside half_breadth high_z) strips.nodes.items } by { Prim.hlevel props },
    ghost order: { AreInOrder strips.face_parts.items } by { Prim.hlevel props },
    ghost low: { LieLow half_breadth high_z list strips } by { Prim.hlevel props },
}

impl Faces {
    ghost use Rattle.std.specs.Prelude.{◌≤◌, ◌+◌, ◌-◌, ◌*◌, unsigned_abs};
    ghost use Rattle.hull_model.specs.Nodes.{IsNode};
    ghost use Rattle.hull_polyhedron.specs.StripsOf.{strip_count, strip_faces, strip_nodes, total, side_area, AreApart};

    /// The faces in order.
    pub fn list(&self) -> &[Face]
        ensures same { result.now ≡ self.now.list }
        ensures limits { AllByRecursion IsFace self.now.list }
        ensures few { length self.now.list < 2 ^ 14 }
        ensures between { LieBetween self.now.first_x self.now.last_x self.now.list }
        ensures inside { LieInside self.now.half_breadth self.now.high_z self.now.list }
    {
        self.list.as_slice()
    }

    /// x of the first station, in mm, from 0 to 524287 and below that of the last.
    pub fn first_x(&self) -> i64
        ensures same { result ≡ self.now.first_x }
        ensures ends { AreEnds self.now.first_x self.now.last_x }
    {
        self.first_x
    }

    /// x of the last station, in mm, from 0 to 524287.
    pub fn last_x(&self) -> i64
        ensures same { result ≡ self.now.last_x }
        ensures ends { AreEnds self.now.first_x self.now.last_x }
    {
        self.last_x
    }

    /// The least height of a point, in mm, from 0 to `high_z`.
    pub fn low_z(&self) -> i64
        ensures same { result ≡ self.now.low_z }
        ensures heights { AreHeights self.now.low_z self.now.high_z }
    {
        self.low_z
    }

    /// The greatest height of a point, in mm, from 0 to 65535.
    pub fn high_z(&self) -> i64
        ensures same { result ≡ self.now.high_z }
        ensures reach { IsReach self.now.half_breadth self.now.high_z }
    {
        self.high_z
    }

    /// The greatest half-breadth of a point, in mm, from 1 to 65535.
    pub fn half_breadth(&self) -> i64
        ensures same { result ≡ self.now.half_breadth }
        ensures reach { IsReach self.now.half_breadth self.now.high_z }
    {
        self.half_breadth
    }

    /// The number of strips, one less than there are stations. A strip is the body between two neighbouring
    /// stations; the strips are numbered from 0, from aft to fore. No face is in two of them.
    pub fn strips(&self) -> usize
        ensures count { result ≡ strip_count self.now }
        ensures few { result ≤ 63 }
        ensures apart { AreApart self.now }
    {
        self.strips.face_parts.len()
    }

    /// The faces of a strip, in the order of the list: those from its aft station to its fore one that lie
    /// in no plane of constant x.
    pub fn strip_faces(&self, strip: usize) -> &[Face]
        requires { strip < strip_count self.now }
        ensures same { result.now ≡ strip_faces self.now strip }
        ensures limits { AllByRecursion IsFace result.now }
        ensures few { length result.now < 2 ^ 14 }
        ensures between { LieBetween self.now.first_x self.now.last_x result.now }
        ensures inside { LieInside self.now.half_breadth self.now.high_z result.now }
    {
        let part = self.strips.face_parts[strip];
        &self.list.as_slice()[part.from..part.to]
    }

    /// The points of a strip's two stations, those of the aft one first, each in its order, on the side of
    /// positive y.
    pub fn strip_nodes(&self, strip: usize) -> &[Node]
        requires { strip < strip_count self.now }
        ensures same { result.now ≡ strip_nodes self.now strip }
        ensures limits { AllByRecursion IsNode result.now }
        ensures between { AllByRecursion (IsBetween self.now.first_x self.now.last_x) result.now }
        ensures inside { AllByRecursion (IsInside self.now.half_breadth self.now.high_z) result.now }
    {
        self.strips.nodes(strip)
    }

    /// The totals of the strips from one number to just below another, whole and exact. For each strip six times
    /// the volume is at most 2^64, 24 times the integral of x 2^85 and that of z 2^82; the latter is also at most
    /// 12 times what is seen from the side of the strip's faces, doubled, times the half-breadth and `high_z`.
    pub fn total(&self, from: usize, to: usize) -> Totals
        requires ordered { from ≤ to }
        requires within { to ≤ strip_count self.now }
        ensures same { result ≡ total self.now from to }
        ensures six { unsigned_abs result.six ≤ (to - from) * 2 ^ 64 }
        ensures mx24 { unsigned_abs result.mx24 ≤ (to - from) * 2 ^ 85 }
        ensures mz24 { unsigned_abs result.mz24 ≤ (to - from) * 2 ^ 82 }
        ensures reach { to ≡ from + 1 → unsigned_abs result.mz24 ≤ 12 * (side_area self.now from * (unsigned_abs self.now.half_breadth * unsigned_abs self.now.high_z)) }
    {
        self.strips.total(from, to)
    }
}
