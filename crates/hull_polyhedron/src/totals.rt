// Totals over tetrahedra.
ghost use Rattle.std.specs.Prelude.{◌≡◌, ◌≤◌, ◌+ℤ◌, ◌-ℤ◌, ◌*ℤ◌, pos, [], ◌∷◌, length, map};
ghost use Rattle.exact_fraction.specs.Bounds.{MagnitudeBelow};
ghost use Rattle.hull_model.specs.Nodes.{IsNode};
ghost use Rattle.hull_model.specs.Strips.{corners_of};
ghost use Rattle.hull_model.specs.Tetrahedra.{six_times};
ghost use Rattle.hull_model.specs.TetrahedronCut.{tetrahedron};
ghost use Rattle.hull_polyhedron.specs.Totals.{totals_of};
ghost use Rattle.hull_polyhedron.specs.TotalsModel as model;
ghost use Rattle.hull_polyhedron.specs.TotalsModel.{both_sides, triangle_totals, AreAtMost};

use hull_model::{Node, StripTriangle, Tet, six_of};

/// Six times the volume of a part of a hull in mm³, and 24 times the integrals of x and of z over it in mm⁴.
#[derive(Clone, Copy, Debug, PartialEq, Eq)]
pub struct Totals {
    pub six: i128,
    pub mx24: i128,
    pub mz24: i128,
}

impl Totals {
    pub(crate) fn none() -> Totals
        ensures value { result ≡ model.none }
        ensures size { AreAtMost 0 result }
    {
        Totals {
            six: 0,
            mx24: 0,
            mz24: 0,
        }
    }

    // A tetrahedron with its mirror image, which has the same volume and the same integrals of x and z.
    fn of_pair(a: Node, b: Node, c: Node, d: Node) -> Totals
        requires a { IsNode a }
        requires b { IsNode b }
        requires c { IsNode c }
        requires d { IsNode d }
        ensures value { result ≡ totals_of (both_sides (tetrahedron a b c d ∷ [])) }
        ensures size { AreAtMost 1 result }
    {
        let x = sum_of_four(a.x, b.x, c.x, d.x);
        let z = sum_of_four(a.z, b.z, c.z, d.z);
        Totals::doubled(six_within_limits(a, b, c, d), x, z)
    }

    // Twice six times the volume, and that times the sums over the corners.
    fn doubled(six: i128, x: i64, z: i64) -> Totals
        requires six { MagnitudeBelow 55 six }
        requires x { MagnitudeBelow 21 x }
        requires z { MagnitudeBelow 18 z }
        ensures { result ≡ model.doubled six x z }
    {
        Totals {
            six: plus(six, six),
            mx24: doubled_product(six, x),
            mz24: doubled_product(six, z),
        }
    }

    // The three tetrahedra between a strip triangle and its feet, with their mirror images.
    fn of_triangle(t: &StripTriangle) -> Totals
        ensures value { result ≡ triangle_totals (corners_of t.now ∷ []) }
        ensures size { AreAtMost 3 result }
    {
        let (a, b, c) = (t.a.foot(), t.b.foot(), t.c.foot());
        Totals::of_pair(a, b, c, t.c)
            .with(Totals::of_pair(a, b, t.b, t.c))
            .with(Totals::of_pair(a, t.a, t.b, t.c))
    }

    /// Those of a strip, by the triangles between its stations.
    pub(crate) fn of_strip(triangles: &[StripTriangle]) -> Totals
        requires { length triangles.now ≤ 64 }
        ensures value { result ≡ triangle_totals (map corners_of triangles.now) }
        ensures size { AreAtMost 192 result }
    {
        let mut sum = Totals::none();
        for t in triangles {
            sum = sum.with(Totals::of_triangle(t));
        }
        sum
    }

    pub(crate) fn with(self, other: Totals) -> Totals
        requires first { AreAtMost 12288 self }
        requires second { AreAtMost 192 other }
        ensures { result ≡ model.plus self other }
    {
        Totals {
            six: plus(self.six, other.six),
            mx24: plus(self.mx24, other.mx24),
            mz24: plus(self.mz24, other.mz24),
        }
    }

    pub(crate) fn without(self, other: Totals) -> Totals
        requires first { AreAtMost 12288 self }
        requires second { AreAtMost 12288 other }
        ensures { result ≡ model.minus self other }
    {
        Totals {
            six: minus(self.six, other.six),
            mx24: minus(self.mx24, other.mx24),
            mz24: minus(self.mz24, other.mz24),
        }
    }
}

fn six_within_limits(a: Node, b: Node, c: Node, d: Node) -> i128
    requires a { IsNode a }
    requires b { IsNode b }
    requires c { IsNode c }
    requires d { IsNode d }
    ensures value { result ≡ pos (six_times (tetrahedron a b c d)) }
    ensures size { MagnitudeBelow 55 result }
{
    six_of(&Tet { n: [a, b, c, d] })
}

fn plus(a: i128, b: i128) -> i128
    requires a { MagnitudeBelow 100 a }
    requires b { MagnitudeBelow 100 b }
    ensures { result ≡ a +ℤ b }
{
    a + b
}

fn minus(a: i128, b: i128) -> i128
    requires a { MagnitudeBelow 100 a }
    requires b { MagnitudeBelow 100 b }
    ensures { result ≡ a -ℤ b }
{
    a - b
}

fn sum_of_four(a: i64, b: i64, c: i64, d: i64) -> i64
    requires a { MagnitudeBelow 19 a }
    requires b { MagnitudeBelow 19 b }
    requires c { MagnitudeBelow 19 c }
    requires d { MagnitudeBelow 19 d }
    ensures { result ≡ ((a +ℤ b) +ℤ c) +ℤ d }
{
    a + b + c + d
}

// 2·a·b.
fn doubled_product(a: i128, b: i64) -> i128
    requires a { MagnitudeBelow 55 a }
    requires b { MagnitudeBelow 21 b }
    ensures { result ≡ (a *ℤ b) +ℤ (a *ℤ b) }
{
    let product = a * i128::from(b);
    product + product
}
