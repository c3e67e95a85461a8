// Triangles between two neighbouring stations.
ghost use Rattle.hull_model.specs.Nodes.{IsStarboard};

use crate::Node;

/// A triangle between two neighbouring stations, its corners in order of station, then point.
///
/// The corners have a half-breadth of at least 0, within the limits of a [`Node`].
#[derive(Clone, Copy, Debug, PartialEq, Eq)]
pub struct StripTriangle {
    pub a: Node,
    pub b: Node,
    pub c: Node,
    ghost first: { IsStarboard a },
    ghost second: { IsStarboard b },
    ghost third: { IsStarboard c },
}
