// Tetrahedra.
ghost use Rattle.std.specs.Prelude.{◌≡◌, ◌++◌, map, pos, OnOk, IfOk};
ghost use Rattle.std.specs.List.{AllByRecursion, flat_map};
ghost use Rattle.hull_model.specs.declared.node.Node.{Node};
ghost use Rattle.hull_model.specs.Nodes.{IsNode, mirrored};
ghost use Rattle.hull_model.specs.TriangleCut.{triangle};
ghost use Rattle.hull_model.specs.TetrahedronCut.{Tetrahedron, with_corners};
ghost use Rattle.hull_model.specs.Strips.{corners_of};
ghost use Rattle.hull_model.specs.Tetrahedra.{to_centreplane, hull_tetrahedra, tet_of, six_times, IsWithinLimits};

use crate::vector::Vector;
use crate::zipper::all_triangles;
use crate::{Hull, Node, StripTriangle};
use exact_fraction::Memory;
use std::alloc::Global;

/// A tetrahedron by its four corners.
#[derive(Clone, Copy, Debug, PartialEq, Eq)]
pub struct Tet {
    pub n: [Node; 4],
}

/// Six times the volume of a tetrahedron in mm³, at least 0.
///
/// The condition is that its corners lie within the limits of a [`Node`].
pub fn six_of(t: &Tet) -> i128
    requires { IsWithinLimits t.now }
    ensures { (s : Tetrahedron Node) → t.now ≡ tet_of s → result ≡ pos (six_times s) }
{
    let [a, b, c, d] = t.n;
    let area = Vector::between(a, b).cross(Vector::between(a, c));
    area.dot(Vector::between(a, d)).abs()
}

/// The tetrahedra of a hull.
///
/// Each strip triangle A, B, C with its feet A', B', C' on the centreplane gives A' B' C' C, A' B' B C and
/// A' A B C: strip by strip and triangle by triangle, and then the mirror images of all in the same order.
pub fn tets_of(alloc: Global, hull: &Hull) -> Result<Vec<Tet>, Memory>
    ensures tets { IfOk result (λ tets. tets.items ≡ map tet_of (hull_tetrahedra hull.now)) }
    ensures limits { IfOk result (λ tets. AllByRecursion IsWithinLimits tets.items) }
{
    let triangles = all_triangles(alloc, hull.stations())?;
    let mut tets = Vec::new(alloc);
    push_half(&mut tets, &triangles)?;
    push_mirrored(&mut tets, &triangles)?;
    Ok(tets)
}

fn push_half(tets: &mut Vec<Tet>, triangles: &[StripTriangle]) -> Result<(), Memory>
    ensures limits { AllByRecursion IsWithinLimits tets.old.items → OnOk result (AllByRecursion IsWithinLimits tets.new.items) }
    ensures tets { OnOk result (tets.new.items ≡ tets.old.items ++ map tet_of (flat_map to_centreplane (map corners_of triangles.now))) }
{
    for t in triangles {
        push_three(tets, t.a, t.b, t.c)?;
    }
    Ok(())
}

fn push_mirrored(tets: &mut Vec<Tet>, triangles: &[StripTriangle]) -> Result<(), Memory>
    ensures limits { AllByRecursion IsWithinLimits tets.old.items → OnOk result (AllByRecursion IsWithinLimits tets.new.items) }
    ensures tets { OnOk result (tets.new.items ≡ tets.old.items ++ map tet_of (map (with_corners mirrored) (flat_map to_centreplane (map corners_of triangles.now)))) }
{
    for t in triangles {
        push_three(tets, t.a.mirrored(), t.b.mirrored(), t.c.mirrored())?;
    }
    Ok(())
}

#[tactic(auto, using(crate::proofs::Rounds::append))]
fn push_three(tets: &mut Vec<Tet>, a: Node, b: Node, c: Node) -> Result<(), Memory>
    requires a { IsNode a }
    requires b { IsNode b }
    requires c { IsNode c }
    ensures limits { AllByRecursion IsWithinLimits tets.old.items → OnOk result (AllByRecursion IsWithinLimits tets.new.items) }
    ensures tets { OnOk result (tets.new.items ≡ tets.old.items ++ map tet_of (to_centreplane (triangle a b c))) }
{
    let (d, e, f) = (a.foot(), b.foot(), c.foot());
    tets.push(Tet { n: [d, e, f, c] })?;
    tets.push(Tet { n: [d, e, b, c] })?;
    tets.push(Tet { n: [d, a, b, c] })?;
    Ok(())
}
