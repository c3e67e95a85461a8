// What a boundary keeps of the strips of its hull.
ghost use Rattle.std.specs.Prelude.{◌≡◌, ◌++◌, ◌≤◌, ◌<◌, ◌+◌, ◌-◌, ◌*◌, ◌^◌, [], ◌∷◌, unsigned_abs, length, map, OnOk, IfOk};
ghost use Rattle.std.specs.List.{AllByRecursion, slice_range};
ghost use Rattle.std.proofs.Props.{props};
ghost use Rattle.hull_model.specs.Body.{IsStation};
ghost use Rattle.hull_model.specs.Nodes.{IsNode};
ghost use Rattle.hull_model.specs.Tetrahedra.{hull_tetrahedra};
ghost use Rattle.hull_model.specs.Zipper.{chain};
ghost use Rattle.hull_polyhedron.specs.Parts.{part_at, parts_from, IsPartOf};
ghost use Rattle.hull_polyhedron.specs.Strips.{station_nodes, strips_of};
ghost use Rattle.hull_polyhedron.specs.StripLists.{node_lists, joined};
ghost use Rattle.hull_polyhedron.specs.Totals.{totals_of};
ghost use Rattle.hull_polyhedron.specs.TotalsModel.{none, minus, running_from, totals_at, AreAtMost, GrowByStrips};

use crate::part::Part;
use crate::totals::Totals;
use exact_fraction::Memory;
use hull_model::{Node, Station, triangles_between};
use std::alloc::Global;

/// The strips of a hull: which faces of its boundary are whose, the points of their stations, and the
/// totals up to each station.
#[derive(Debug, Drop)]
pub(crate) struct Strips {
    pub face_parts: Vec<Part>,
    pub nodes: Vec<Node>,
    pub node_parts: Vec<Part>,
    pub totals: Vec<Totals>,
    ghost few: { length face_parts.items ≤ 63 },
    ghost parted: { length node_parts.items ≡ length face_parts.items },
    ghost counted: { length totals.items ≡ length face_parts.items + 1 },
    ghost limits: { AllByRecursion IsNode nodes.items } by { Prim.hlevel props },
    ghost parts: { AllByRecursion (IsPartOf (length nodes.items)) node_parts.items } by { Prim.hlevel props },
    ghost sizes: { AllByRecursion (AreAtMost 12288) totals.items } by { Prim.hlevel props },
    ghost steps: { GrowByStrips totals.items } by { Prim.hlevel props },
}

impl Strips {
    pub(crate) fn nodes(&self, strip: usize) -> &[Node]
        requires { strip < length self.now.face_parts.items }
        ensures same { result.now ≡ slice_range self.now.nodes.items (part_at self.now.node_parts.items strip).from (part_at self.now.node_parts.items strip).to }
        ensures limits { AllByRecursion IsNode result.now }
    {
        let part = self.node_parts[strip];
        &self.nodes[part.from..part.to]
    }

    pub(crate) fn total(&self, from: usize, to: usize) -> Totals
        requires ordered { from ≤ to }
        requires within { to ≤ length self.now.face_parts.items }
        ensures same { result ≡ minus (totals_at self.now.totals.items to) (totals_at self.now.totals.items from) }
        ensures six { unsigned_abs result.six ≤ (to - from) * 2 ^ 64 }
        ensures mx24 { unsigned_abs result.mx24 ≤ (to - from) * 2 ^ 85 }
        ensures mz24 { unsigned_abs result.mz24 ≤ (to - from) * 2 ^ 82 }
    {
        self.totals[to].without(self.totals[from])
    }
}

/// The points of the two stations of each strip, strip by strip, and which of them are whose.
pub(crate) fn strip_nodes(
    alloc: Global,
    stations: &[Station],
) -> Result<(Vec<Node>, Vec<Part>), Memory>
    requires { AllByRecursion IsStation stations.now }
    ensures nodes { IfOk result (λ all. all.0.items ≡ joined (node_lists stations.now)) }
    ensures parts { IfOk result (λ all. all.1.items ≡ parts_from 0 (node_lists stations.now)) }
    ensures limits { IfOk result (λ all. AllByRecursion IsNode all.0.items) }
{
    let mut nodes = Vec::new(alloc);
    let mut parts = Vec::new(alloc);
    let mut rest = stations;
    while let [aft, fore, ..] = rest {
        let from = nodes.len();
        push_chain(&mut nodes, aft)?;
        push_chain(&mut nodes, fore)?;
        parts.push(Part {
            from,
            to: nodes.len(),
        })?;
        rest = &rest[1..];
    }
    Ok((nodes, parts))
}

/// Adds the nodes of a station's points.
pub(crate) fn push_chain(nodes: &mut Vec<Node>, station: &Station) -> Result<(), Memory>
    requires { IsStation station.now }
    ensures same { OnOk result (nodes.new.items ≡ nodes.old.items ++ chain station.now) }
    ensures limits { AllByRecursion IsNode nodes.old.items → OnOk result (AllByRecursion IsNode nodes.new.items) }
{
    let x = station.x;
    for point in station.points.as_slice() {
        nodes.push(Node::starboard(x, *point))?;
    }
    Ok(())
}

/// The totals of the strips up to each station, from the first station on.
pub(crate) fn running_totals(alloc: Global, stations: &[Station]) -> Result<Vec<Totals>, Memory>
    requires few { length stations.now ≤ 64 }
    requires limits { AllByRecursion IsStation stations.now }
    ensures value { IfOk result (λ all. all.items ≡ none ∷ running_from none (strips_of stations.now)) }
    ensures size { IfOk result (λ all. AllByRecursion (AreAtMost 12288) all.items) }
    ensures steps { IfOk result (λ all. GrowByStrips all.items) }
{
    let mut sum = Totals::none();
    let mut all = Vec::new(alloc);
    all.push(sum)?;
    let mut rest = stations;
    while let [aft, fore, ..] = rest {
        sum = sum.with(strip_totals(alloc, aft, fore)?);
        all.push(sum)?;
        rest = &rest[1..];
    }
    Ok(all)
}

// Those of the strip between two stations.
fn strip_totals(alloc: Global, aft: &Station, fore: &Station) -> Result<Totals, Memory>
    requires aft { IsStation aft.now }
    requires fore { IsStation fore.now }
    ensures value { IfOk result (λ sum. sum ≡ totals_of (hull_tetrahedra (aft.now ∷ fore.now ∷ []))) }
    ensures size { IfOk result (λ sum. AreAtMost 192 sum) }
{
    let triangles = triangles_between(alloc, aft, fore)?;
    Ok(Totals::of_strip(&triangles))
}
