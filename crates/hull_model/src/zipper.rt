// The zipper between two neighbouring stations.
ghost use Rattle.std.specs.Prelude.{◌≡◌, ◌++◌, ◌+◌, ◌≤◌, length, map, OnOk, IfOk};
ghost use Rattle.std.specs.List.{AllByRecursion};
ghost use Rattle.hull_model.specs.Body.{IsPoint, IsStation};
ghost use Rattle.hull_model.specs.Nodes.{IsStarboard, node_at};
ghost use Rattle.hull_model.specs.Zipper.{zipper, between_stations, strip_triangles};
ghost use Rattle.hull_model.specs.Strips as strips;
ghost use Rattle.hull_model.specs.Strips.{corners_of};

use crate::{Node, Point, Station, StripTriangle};
use exact_fraction::Memory;
use std::alloc::Global;

/// The triangles between two neighbouring stations, from the lowest points to the highest.
///
/// A zipper stands at first on the lowest point of each station. It advances on the station whose next
/// point is lower; where both are equally high on the aft one, and where one is at its end on the other.
/// Each advance makes a triangle of the two points on which it stood and the new one. The condition is
/// that both stations are within the limits of a hull's.
pub fn triangles_between(
    alloc: Global,
    aft: &Station,
    fore: &Station,
) -> Result<Vec<StripTriangle>, Memory>
    requires aft { IsStation aft.now }
    requires fore { IsStation fore.now }
    ensures { IfOk result (λ all. map corners_of all.items ≡ between_stations aft.now fore.now) }
{
    let mut triangles = Vec::new(alloc);
    push_strip(&mut triangles, aft, fore)?;
    Ok(triangles)
}

/// The strip triangles of stations in order, strip by strip.
pub(crate) fn all_triangles(
    alloc: Global,
    stations: &[Station],
) -> Result<Vec<StripTriangle>, Memory>
    requires { AllByRecursion IsStation stations.now }
    ensures { IfOk result (λ all. map corners_of all.items ≡ strip_triangles stations.now) }
{
    let mut triangles = Vec::new(alloc);
    let mut rest = stations;
    while let [aft, fore, ..] = rest {
        push_strip(&mut triangles, aft, fore)?;
        rest = &rest[1..];
    }
    Ok(triangles)
}

fn push_strip(
    triangles: &mut Vec<StripTriangle>,
    aft: &Station,
    fore: &Station,
) -> Result<(), Memory>
    requires aft { IsStation aft.now }
    requires fore { IsStation fore.now }
    ensures { OnOk result (map corners_of triangles.new.items ≡ map corners_of triangles.old.items ++ between_stations aft.now fore.now) }
{
    if let [low_aft, aft_rest @ ..] = aft.points.as_slice() {
        if let [low_fore, fore_rest @ ..] = fore.points.as_slice() {
            let a = Node::starboard(aft.x, *low_aft);
            let b = Node::starboard(fore.x, *low_fore);
            push_zipper(triangles, a, aft_rest, b, fore_rest)?;
        }
    }
    Ok(())
}

// The triangles from the nodes a and b on, where aft and fore are the points left of their stations.
fn push_zipper(
    triangles: &mut Vec<StripTriangle>,
    a: Node,
    aft: &[Point],
    b: Node,
    fore: &[Point],
) -> Result<(), Memory>
    requires a { IsStarboard a }
    requires aft { AllByRecursion IsPoint aft.now }
    requires b { IsStarboard b }
    requires fore { AllByRecursion IsPoint fore.now }
    requires few { length aft.now + length fore.now ≤ 64 }
    ensures { OnOk result (map corners_of triangles.new.items ≡ map corners_of triangles.old.items ++ zipper a (map (node_at a.x) aft.now) b (map (node_at b.x) fore.now)) }
{
    let mut p = a;
    let mut q = b;
    let mut aft_rest = aft;
    let mut fore_rest = fore;
    while aft_rest.len() + fore_rest.len() > 0 {
        if takes_aft(aft_rest, fore_rest) {
            let next = p.at_same_station(aft_rest[0]);
            triangles.push(StripTriangle {
                a: p,
                b: next,
                c: q,
            })?;
            p = next;
            aft_rest = &aft_rest[1..];
        } else {
            let next = q.at_same_station(fore_rest[0]);
            triangles.push(StripTriangle {
                a: p,
                b: q,
                c: next,
            })?;
            q = next;
            fore_rest = &fore_rest[1..];
        }
    }
    Ok(())
}

// Whether the zipper advances on the aft chain, given the points that are left of both.
fn takes_aft(aft: &[Point], fore: &[Point]) -> bool
    ensures { result ≡ strips.takes_aft aft.now fore.now }
{
    match (aft, fore) {
        ([], _) => false,
        ([_, ..], []) => true,
        ([next, ..], [fore_next, ..]) => next.z <= fore_next.z,
    }
}
