// Differences of nodes, and products of them.
ghost use Rattle.std.specs.Prelude.{◌≡◌, ◌*ℤ◌, ◌-ℤ◌, ◌+ℤ◌};
ghost use Rattle.exact_fraction.specs.Bounds.{MagnitudeBelow};
ghost use Rattle.hull_model.specs.Nodes.{IsNode};
ghost use Rattle.hull_model.specs.Vectors as vectors;

use crate::Node;

/// The way from one node to another in mm, or a product of two ways in mm².
#[derive(Clone, Copy, Debug, PartialEq, Eq)]
pub struct Vector {
    pub x: i64,
    pub y: i64,
    pub z: i64,
}

impl Vector {
    pub(crate) fn between(from: Node, to: Node) -> Vector
        requires from { IsNode from }
        requires to { IsNode to }
        ensures value { result ≡ vectors.way from to }
        ensures size { vectors.AreBelow 20 result }
    {
        Vector {
            x: difference(to.x, from.x),
            y: difference(to.y, from.y),
            z: difference(to.z, from.z),
        }
    }

    pub(crate) fn cross(self, other: Vector) -> Vector
        requires first { vectors.AreBelow 20 self }
        requires second { vectors.AreBelow 20 other }
        ensures value { result ≡ vectors.cross self other }
        ensures size { vectors.AreBelow 41 result }
    {
        Vector {
            x: minor(self.y, other.z, self.z, other.y),
            y: minor(self.z, other.x, self.x, other.z),
            z: minor(self.x, other.y, self.y, other.x),
        }
    }

    pub(crate) fn dot(self, other: Vector) -> i128
        requires first { vectors.AreBelow 41 self }
        requires second { vectors.AreBelow 20 other }
        ensures value { result ≡ vectors.dot self other }
        ensures size { MagnitudeBelow 63 result }
    {
        sum(
            long_product(self.x, other.x),
            long_product(self.y, other.y),
            long_product(self.z, other.z),
        )
    }
}

fn difference(a: i64, b: i64) -> i64
    requires a { MagnitudeBelow 19 a }
    requires b { MagnitudeBelow 19 b }
    ensures value { result ≡ a -ℤ b }
    ensures size { MagnitudeBelow 20 result }
{
    a - b
}

fn sum(a: i128, b: i128, c: i128) -> i128
    requires a { MagnitudeBelow 61 a }
    requires b { MagnitudeBelow 61 b }
    requires c { MagnitudeBelow 61 c }
    ensures value { result ≡ (a +ℤ b) +ℤ c }
    ensures size { MagnitudeBelow 63 result }
{
    a + b + c
}

// a·b - c·d.
fn minor(a: i64, b: i64, c: i64, d: i64) -> i64
    requires a { MagnitudeBelow 20 a }
    requires b { MagnitudeBelow 20 b }
    requires c { MagnitudeBelow 20 c }
    requires d { MagnitudeBelow 20 d }
    ensures value { result ≡ (a *ℤ b) -ℤ (c *ℤ d) }
    ensures size { MagnitudeBelow 41 result }
{
    product(a, b) - product(c, d)
}

fn product(a: i64, b: i64) -> i64
    requires a { MagnitudeBelow 20 a }
    requires b { MagnitudeBelow 20 b }
    ensures value { result ≡ a *ℤ b }
    ensures size { MagnitudeBelow 40 result }
{
    a * b
}

fn long_product(a: i64, b: i64) -> i128
    requires a { MagnitudeBelow 41 a }
    requires b { MagnitudeBelow 20 b }
    ensures value { result ≡ a *ℤ b }
    ensures size { MagnitudeBelow 61 result }
{
    i128::from(a) * i128::from(b)
}
