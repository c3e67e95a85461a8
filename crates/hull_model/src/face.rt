// Faces of the body.
ghost use Rattle.std.specs.Prelude.{◌≡◌};
ghost use Rattle.exact_fraction.specs.Bounds.{MagnitudeBelow};
ghost use Rattle.hull_model.specs.Nodes.{IsNode};
ghost use Rattle.hull_model.specs.TriangleCut.{triangle};
ghost use Rattle.hull_model.specs.Faces.{face_of, triangle_of, determinant, IsFace};

use crate::Node;
use crate::vector::Vector;

const ORIGIN: Node = Node { x: 0, y: 0, z: 0 };

/// A triangle by its corners, and the doubled area vector that their order gives.
///
/// `ax`, `ay` and `az` are in mm²: the vector product of the ways from the first corner to the second
/// and to the third. For a face of the body it points outwards.
#[derive(Clone, Copy, Debug, PartialEq, Eq)]
pub struct Face {
    pub p: [Node; 3],
    pub ax: i64,
    pub ay: i64,
    pub az: i64,
}

impl Face {
    /// The face with these corners. The condition is that they lie within the limits of a [`Node`].
    pub fn of(a: Node, b: Node, c: Node) -> Face
        requires a { IsNode a }
        requires b { IsNode b }
        requires c { IsNode c }
        ensures same { result ≡ face_of (triangle a b c) }
        ensures limits { IsFace result }
    {
        let area = Vector::between(a, b).cross(Vector::between(a, c));
        Face {
            p: [a, b, c],
            ax: area.x,
            ay: area.y,
            az: area.z,
        }
    }

    /// Six times the volume between the face and the origin, in mm³: above 0 where the face points away
    /// from the origin, below 0 where it points towards it.
    pub fn determinant(&self) -> i128
        requires { IsFace self.now }
        ensures value { result ≡ determinant (triangle_of self.now) }
        ensures size { MagnitudeBelow 63 result }
    {
        let [a, b, c] = self.p;
        let area = Vector::between(a, b).cross(Vector::between(a, c));
        area.dot(Vector::between(ORIGIN, a))
    }
}
