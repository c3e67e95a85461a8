// The boundary, listed: the aft end, strip by strip, and the fore end.
ghost use Rattle.std.specs.Prelude.{◌≡◌, ◌++◌, length, map, OnOk, IfOk};
ghost use Rattle.std.specs.List.{AllByRecursion, flat_map};
ghost use Rattle.hull_model.specs.Body.{IsStation};
ghost use Rattle.hull_model.specs.Nodes.{IsNode};
ghost use Rattle.hull_model.specs.Zipper.{chain};
ghost use Rattle.hull_model.specs.SignedFaces as signed;
ghost use Rattle.hull_model.specs.Strips.{corners_of};
ghost use Rattle.hull_polyhedron.specs.Listed as triangles;
ghost use Rattle.hull_polyhedron.specs.Listed.{kept, sides, wall, end_wall, bottom, top, strip, strips, first_end, last_end, listed};
ghost use Rattle.hull_polyhedron.specs.Parts.{parts_from};
ghost use Rattle.hull_polyhedron.specs.StripLists.{face_lists};

use crate::FaceList;
use crate::part::Part;
use crate::strips::push_chain;
use exact_fraction::Memory;
use hull_model::{Face, Node, Station, StripTriangle, triangles_between};
use std::alloc::Global;

/// The faces of stations in order, and which of them are those of each strip.
pub(crate) fn listed_faces(
    alloc: Global,
    stations: &[Station],
) -> Result<(FaceList, Vec<Part>), Memory>
    requires { AllByRecursion IsStation stations.now }
    ensures faces { IfOk result (λ all. all.0 ≡ kept (listed stations.now)) }
    ensures parts { IfOk result (λ all. all.1.items ≡ parts_from (length (kept (first_end stations.now))) (face_lists stations.now)) }
{
    let mut faces = FaceList::new(alloc);
    let mut parts = Vec::new(alloc);
    push_first_end(alloc, &mut faces, stations)?;
    push_strips(alloc, &mut faces, &mut parts, stations)?;
    push_last_end(alloc, &mut faces, stations)?;
    Ok((faces, parts))
}

fn push_first_end(alloc: Global, faces: &mut FaceList, stations: &[Station]) -> Result<(), Memory>
    requires { AllByRecursion IsStation stations.now }
    ensures { OnOk result (faces.new ≡ faces.old ++ kept (first_end stations.now)) }
{
    if let [first, ..] = stations {
        let chain = chain_of(alloc, first)?;
        push_end(faces, &chain, true)?;
    }
    Ok(())
}

fn push_last_end(alloc: Global, faces: &mut FaceList, stations: &[Station]) -> Result<(), Memory>
    requires { AllByRecursion IsStation stations.now }
    ensures { OnOk result (faces.new ≡ faces.old ++ kept (last_end stations.now)) }
{
    if let [.., last] = stations {
        let chain = chain_of(alloc, last)?;
        push_end(faces, &chain, false)?;
    }
    Ok(())
}

fn push_strips(
    alloc: Global,
    faces: &mut FaceList,
    parts: &mut Vec<Part>,
    stations: &[Station],
) -> Result<(), Memory>
    requires { AllByRecursion IsStation stations.now }
    ensures faces { OnOk result (faces.new ≡ faces.old ++ kept (strips stations.now)) }
    ensures parts { OnOk result (parts.new.items ≡ parts.old.items ++ parts_from (length faces.old) (face_lists stations.now)) }
{
    let mut rest = stations;
    while let [aft, fore, ..] = rest {
        let from = faces.len();
        push_strip(alloc, faces, aft, fore)?;
        parts.push(Part {
            from,
            to: faces.len(),
        })?;
        rest = &rest[1..];
    }
    Ok(())
}

fn push_strip(
    alloc: Global,
    faces: &mut FaceList,
    aft: &Station,
    fore: &Station,
) -> Result<(), Memory>
    requires aft { IsStation aft.now }
    requires fore { IsStation fore.now }
    ensures { OnOk result (faces.new ≡ faces.old ++ kept (strip aft.now fore.now)) }
{
    let triangles = triangles_between(alloc, aft, fore)?;
    push_sides(faces, &triangles)?;
    let aft_chain = chain_of(alloc, aft)?;
    let fore_chain = chain_of(alloc, fore)?;
    push_bottom(faces, &aft_chain, &fore_chain)?;
    push_top(faces, &aft_chain, &fore_chain)?;
    Ok(())
}

fn push_sides(faces: &mut FaceList, triangles: &[StripTriangle]) -> Result<(), Memory>
    ensures { OnOk result (faces.new ≡ faces.old ++ kept (flat_map sides (map corners_of triangles.now))) }
{
    for t in triangles {
        push_both_sides(faces, t)?;
    }
    Ok(())
}

// A strip triangle on the centreplane is its own mirror image, so that its two faces cancel.
fn push_both_sides(faces: &mut FaceList, t: &StripTriangle) -> Result<(), Memory>
    ensures { OnOk result (faces.new ≡ faces.old ++ kept (sides (corners_of t.now))) }
{
    if is_on_centreplane(t) {
        return Ok(());
    }
    let outwards = turns_back(t);
    faces.push(t.a, t.b, t.c, outwards)?;
    faces.push(t.a.mirrored(), t.b.mirrored(), t.c.mirrored(), !outwards)?;
    Ok(())
}

fn is_on_centreplane(t: &StripTriangle) -> bool
    ensures { result ≡ triangles.is_on_centreplane (corners_of t.now) }
{
    t.a.y == 0 && t.b.y == 0 && t.c.y == 0
}

// Whether the corners turn from z to x, seen along y, so that they stand outwards on the starboard side.
fn turns_back(t: &StripTriangle) -> bool
    ensures { result ≡ signed.turns_back (corners_of t.now) }
{
    0 < Face::of(t.a, t.b, t.c).ay
}

// The nodes of a station's points.
fn chain_of(alloc: Global, station: &Station) -> Result<Vec<Node>, Memory>
    requires { IsStation station.now }
    ensures same { IfOk result (λ nodes. nodes.items ≡ chain station.now) }
    ensures limits { IfOk result (λ nodes. AllByRecursion IsNode nodes.items) }
{
    let mut nodes = Vec::new(alloc);
    push_chain(&mut nodes, station)?;
    Ok(nodes)
}

fn push_bottom(faces: &mut FaceList, aft: &[Node], fore: &[Node]) -> Result<(), Memory>
    requires aft { AllByRecursion IsNode aft.now }
    requires fore { AllByRecursion IsNode fore.now }
    ensures { OnOk result (faces.new ≡ faces.old ++ kept (bottom aft.now fore.now)) }
{
    if let [p, ..] = aft {
        if let [q, ..] = fore {
            push_wall(faces, *p, *q, false)?;
        }
    }
    Ok(())
}

fn push_top(faces: &mut FaceList, aft: &[Node], fore: &[Node]) -> Result<(), Memory>
    requires aft { AllByRecursion IsNode aft.now }
    requires fore { AllByRecursion IsNode fore.now }
    ensures { OnOk result (faces.new ≡ faces.old ++ kept (top aft.now fore.now)) }
{
    if let [.., p] = aft {
        if let [.., q] = fore {
            push_wall(faces, *p, *q, true)?;
        }
    }
    Ok(())
}

// The walls along the nodes of the first or the last station.
fn push_end(faces: &mut FaceList, chain: &[Node], outwards: bool) -> Result<(), Memory>
    requires { AllByRecursion IsNode chain.now }
    ensures { OnOk result (faces.new ≡ faces.old ++ kept (end_wall outwards chain.now)) }
{
    let mut rest = chain;
    while let [low, high, ..] = rest {
        push_wall(faces, *low, *high, outwards)?;
        rest = &rest[1..];
    }
    Ok(())
}

// The wall from port to starboard along the edge from p to q.
fn push_wall(faces: &mut FaceList, p: Node, q: Node, outwards: bool) -> Result<(), Memory>
    requires p { IsNode p }
    requires q { IsNode q }
    ensures { OnOk result (faces.new ≡ faces.old ++ kept (wall outwards p q)) }
{
    let (p_foot, q_foot) = (p.foot(), q.foot());
    let (p_port, q_port) = (p.mirrored(), q.mirrored());
    faces.push(p_foot, q_foot, q, outwards)?;
    faces.push(p_foot, p, q, !outwards)?;
    faces.push(p_foot, q_foot, q_port, !outwards)?;
    faces.push(p_foot, p_port, q_port, outwards)?;
    Ok(())
}
