// Whether a strip lies wholly under the waterplanes of a box, above them, or is cut.
ghost use Rattle.std.specs.Prelude.{◌≡◌, ◌≢◌, ◌⊎◌, ◌↔◌, ◌≤ℤ◌, ◌<ℤ◌, IsTrue, pos};
ghost use Rattle.std.specs.List.{AllByRecursion};
ghost use Rattle.exact_algebra.proofs.Fraction.{Fraction};
ghost use Rattle.hull_model.specs.Nodes.{IsNode};
ghost use Rattle.hull_polyhedron.specs.Between.{IsBetween};
ghost use Rattle.flux_moments.specs.Sizes.{BoxSize, HasSize};
ghost use Rattle.flux_moments.specs.Water.{IsUnder, IsOut, IsFarUnder, IsFarOut};

use crate::corner::depth_of;
use crate::{PlaneBox, ShipLength};
use hull_model::Node;
use outward_interval::Span;

/// How a strip lies at all waterplanes of a box: wholly under water, dry, or neither at one of them for all that is known.
#[derive(Clone, Copy, Debug, PartialEq, Eq)]
pub(crate) enum Water {
    Wet,
    Dry,
    Cut,
}

/// How a strip lies with these points and their mirror images.
pub(crate) fn water_of(nodes: &[Node], planes: &PlaneBox, way: ShipLength) -> Water
    requires limits { AllByRecursion IsNode nodes.now }
    requires between { AllByRecursion (IsBetween way.first way.last) nodes.now }
    ensures wet { result ≡ Water.Wet → AllByRecursion (IsUnder planes.now way.first way.last) nodes.now }
    ensures clear { (b : BoxSize) (h : Fraction) → HasSize planes.now b → AllByRecursion (IsFarUnder planes.now way.first way.last b h) nodes.now ⊎ AllByRecursion (IsFarOut planes.now way.first way.last b h) nodes.now → result ≢ Water.Cut }
    ensures dry { result ≡ Water.Dry → AllByRecursion (IsOut planes.now way.first way.last) nodes.now }
{
    if are_under(nodes, planes, way) {
        Water::Wet
    } else if are_out(nodes, planes, way) {
        Water::Dry
    } else {
        Water::Cut
    }
}

fn are_under(nodes: &[Node], planes: &PlaneBox, way: ShipLength) -> bool
    requires limits { AllByRecursion IsNode nodes.now }
    requires between { AllByRecursion (IsBetween way.first way.last) nodes.now }
    ensures under { IsTrue result → AllByRecursion (IsUnder planes.now way.first way.last) nodes.now }
    ensures clear { (b : BoxSize) (h : Fraction) → HasSize planes.now b → AllByRecursion (IsFarUnder planes.now way.first way.last b h) nodes.now → IsTrue result }
{
    let mut rest = nodes;
    while let [node, after @ ..] = rest {
        if !is_under(*node, planes, way) {
            return false;
        }
        rest = after;
    }
    true
}

fn are_out(nodes: &[Node], planes: &PlaneBox, way: ShipLength) -> bool
    requires limits { AllByRecursion IsNode nodes.now }
    requires between { AllByRecursion (IsBetween way.first way.last) nodes.now }
    ensures out { IsTrue result → AllByRecursion (IsOut planes.now way.first way.last) nodes.now }
    ensures clear { (b : BoxSize) (h : Fraction) → HasSize planes.now b → AllByRecursion (IsFarOut planes.now way.first way.last b h) nodes.now → IsTrue result }
{
    let mut rest = nodes;
    while let [node, after @ ..] = rest {
        if !is_out(*node, planes, way) {
            return false;
        }
        rest = after;
    }
    true
}

fn is_under(node: Node, planes: &PlaneBox, way: ShipLength) -> bool
    requires node { IsNode node }
    requires between { (way.first ≤ℤ node.x) × (node.x ≤ℤ way.last) }
    ensures under { IsTrue result → IsUnder planes.now way.first way.last node }
    ensures clear { (b : BoxSize) (h : Fraction) → HasSize planes.now b → IsFarUnder planes.now way.first way.last b h node → IsTrue result }
{
    let depth = depth_of(planes, way, node);
    let mirror = depth_of(planes, way, node.mirrored());
    is_above(depth) && is_above(mirror)
}

fn is_out(node: Node, planes: &PlaneBox, way: ShipLength) -> bool
    requires node { IsNode node }
    requires between { (way.first ≤ℤ node.x) × (node.x ≤ℤ way.last) }
    ensures out { IsTrue result → IsOut planes.now way.first way.last node }
    ensures clear { (b : BoxSize) (h : Fraction) → HasSize planes.now b → IsFarOut planes.now way.first way.last b h node → IsTrue result }
{
    let depth = depth_of(planes, way, node);
    let mirror = depth_of(planes, way, node.mirrored());
    is_no_higher(depth) && is_no_higher(mirror)
}

/// Whether all of a span lies above 0.
fn is_above(span: Span<20>) -> bool
    ensures { IsTrue result ↔ pos 0 <ℤ span.lo }
{
    span.lo() > 0
}

/// Whether none of a span does.
fn is_no_higher(span: Span<20>) -> bool
    ensures { IsTrue result ↔ span.hi ≤ℤ pos 0 }
{
    span.hi() <= 0
}
