// Points of the body.
ghost use Rattle.std.specs.Prelude.{◌≡◌, pos};
ghost use Rattle.hull_model.specs.Body.{IsPoint, IsWithin};
ghost use Rattle.hull_model.specs.Nodes as nodes;

use crate::Point;

/// A point of the body in whole mm.
///
/// `x` runs from aft to fore, `y` from the centreplane to starboard, `z` upwards from the base. In the
/// calls of this crate `x` lies from 0 to 524287, `y` from -65535 to 65535 and `z` from 0 to 65535.
#[derive(Clone, Copy, Debug, PartialEq, Eq)]
pub struct Node {
    pub x: i64,
    pub y: i64,
    pub z: i64,
}

impl Node {
    /// The node of a station's point, on the side of positive y.
    pub fn starboard(x: i64, point: Point) -> Node
        requires place { IsWithin (pos 524287) x }
        requires point { IsPoint point }
        ensures same { result ≡ nodes.node_at x point }
        ensures limits { nodes.IsStarboard result }
    {
        Node {
            x,
            y: point.y,
            z: point.z,
        }
    }

    /// The node of another point of the same station.
    pub(crate) fn at_same_station(self, point: Point) -> Node
        requires node { nodes.IsStarboard self }
        requires point { IsPoint point }
        ensures same { result ≡ nodes.node_at self.x point }
        ensures limits { nodes.IsStarboard result }
    {
        Node::starboard(self.x, point)
    }

    /// The foot on the centreplane.
    pub fn foot(self) -> Node
        ensures { result ≡ nodes.foot self }
    {
        Node {
            x: self.x,
            y: 0,
            z: self.z,
        }
    }

    /// The mirror image in the centreplane.
    pub fn mirrored(self) -> Node
        requires { nodes.IsNode self }
        ensures same { result ≡ nodes.mirrored self }
        ensures limits { nodes.IsNode result }
    {
        Node {
            x: self.x,
            y: -self.y,
            z: self.z,
        }
    }
}
