// The calls that make a boundary and measure it.
ghost use Rattle.std.specs.Prelude.{◌≡◌, ◌<◌, ◌^◌, ◌+◌, ◌≤◌, ◌+ℤ◌, unsigned_abs, length, map, pos, List, IfOk};
ghost use Rattle.std.specs.List.{AllByRecursion};
ghost use Rattle.exact_algebra.proofs.Fraction.{◌⊗◌};
ghost use Rattle.exact_algebra.proofs.Whole.{whole};
ghost use Rattle.exact_fraction.specs.Bounds.{MagnitudeBelow};
ghost use Rattle.hull_model.specs.declared.station.Station.{Station};
ghost use Rattle.hull_model.specs.Body.{IsHull};
ghost use Rattle.hull_model.specs.Boundary.{sum_of};
ghost use Rattle.hull_model.specs.Faces.{determinant, triangle_of, IsFace};
ghost use Rattle.hull_model.specs.Tetrahedra.{hull_tetrahedra, six_times};
ghost use Rattle.hull_model.specs.Fractions.{sum_over};
ghost use Rattle.hull_model.specs.TetrahedronCut.{with_corners};
ghost use Rattle.hull_model.specs.Waterplane.{position_of};
ghost use Rattle.hull_model.specs.Submerged.{first_x, last_x, volume_of};
ghost use Rattle.hull_polyhedron.specs.Between.{AreEnds, AreHeights, IsBetween, LieBetween, IsInside, IsReach, LieInside};
ghost use Rattle.hull_polyhedron.specs.Extent.{IsLeast, IsGreatest};
ghost use Rattle.hull_polyhedron.specs.FacesOf.{AreFacesOf};
ghost use Rattle.hull_polyhedron.specs.Parts.{IsPartOf, AreInOrder};
ghost use Rattle.hull_polyhedron.specs.SideAreas.{LieLow};

use crate::boundary::listed_faces;
use crate::extent::Extent;
use crate::strips::{Strips, running_totals, strip_nodes};
use crate::{FaceList, Faces};
use exact_fraction::Memory;
use hull_model::{Face, Hull, Station};
use std::alloc::Global;

/// The boundary of a hull: the signed faces of its tetrahedra after opposite ones cancel, those of no
/// area left out.
///
/// First come the faces of the aft end, then strip by strip those of the sides, the bottom and the top,
/// and last those of the fore end.
pub fn faces_of(alloc: Global, hull: &Hull) -> Result<Faces, Memory>
    ensures { IfOk result (λ faces. AreFacesOf hull.now faces) }
{
    let stations = hull.stations();
    let (list, face_parts) = listed_faces(alloc, stations)?;
    let (nodes, node_parts) = strip_nodes(alloc, stations)?;
    let totals = running_totals(alloc, stations)?;
    let strips = Strips {
        face_parts,
        nodes,
        node_parts,
        totals,
    };
    let (first_x, last_x) = (first_x_of(stations), last_x_of(stations));
    Ok(assembled(list, strips, first_x, last_x, extent_of(stations)))
}

fn assembled(list: FaceList, strips: Strips, first_x: i64, last_x: i64, extent: Extent) -> Faces
    requires few { length list < 2 ^ 14 }
    requires parts { AllByRecursion (IsPartOf (length list)) strips.face_parts.items }
    requires ends { AreEnds first_x last_x }
    requires between { LieBetween first_x last_x list }
    requires heights { AreHeights extent.low_z extent.high_z }
    requires reach { IsReach extent.half_breadth extent.high_z }
    requires inside { LieInside extent.half_breadth extent.high_z list }
    requires nodes_between { AllByRecursion (IsBetween first_x last_x) strips.nodes.items }
    requires nodes_inside { AllByRecursion (IsInside extent.half_breadth extent.high_z) strips.nodes.items }
    requires order { AreInOrder strips.face_parts.items }
    requires low { LieLow extent.half_breadth extent.high_z list strips }
    ensures list { result.list ≡ list }
    ensures face_parts { result.strips.face_parts.items ≡ strips.face_parts.items }
    ensures nodes { result.strips.nodes.items ≡ strips.nodes.items }
    ensures node_parts { result.strips.node_parts.items ≡ strips.node_parts.items }
    ensures totals { result.strips.totals.items ≡ strips.totals.items }
    ensures first_x { result.first_x ≡ first_x }
    ensures last_x { result.last_x ≡ last_x }
    ensures low_z { result.low_z ≡ extent.low_z }
    ensures high_z { result.high_z ≡ extent.high_z }
    ensures half_breadth { result.half_breadth ≡ extent.half_breadth }
{
    Faces {
        list,
        strips,
        first_x,
        last_x,
        low_z: extent.low_z,
        high_z: extent.high_z,
        half_breadth: extent.half_breadth,
    }
}

fn first_x_of(stations: &[Station]) -> i64
    ensures { result ≡ first_x stations.now }
{
    match stations {
        [first, ..] => first.x,
        [] => 0,
    }
}

fn last_x_of(stations: &[Station]) -> i64
    ensures { result ≡ last_x stations.now }
{
    match stations {
        [.., last] => last.x,
        [] => 0,
    }
}

fn extent_of(stations: &[Station]) -> Extent
    requires { IsHull stations.now }
    ensures low_z { IsLeast (λ p. p.z) stations.now result.low_z }
    ensures high_z { IsGreatest (λ p. p.z) stations.now result.high_z }
    ensures half_breadth { IsGreatest (λ p. p.y) stations.now result.half_breadth }
{
    let lowest = stations[0].points.as_slice()[0];
    Extent::at(&lowest).with_stations(stations)
}

/// Six times the volume of the hull in mm³, below 2^78.
pub fn six_volume(faces: &Faces) -> i128
    ensures size { MagnitudeBelow 78 result }
    ensures tetrahedra { (stations : List Station) → IsHull stations → AreFacesOf stations faces.now → result ≡ sum_of (λ t. pos (six_times t)) (hull_tetrahedra stations) }
    ensures uncut { (stations : List Station) → IsHull stations → AreFacesOf stations faces.now → whole result ≡ whole (pos 6) ⊗ sum_over volume_of (map (with_corners position_of) (hull_tetrahedra stations)) }
{
    sum_of_determinants(faces.list())
}

fn sum_of_determinants(faces: &[Face]) -> i128
    requires limits { AllByRecursion IsFace faces.now }
    requires few { length faces.now < 2 ^ 14 }
    ensures sum { result ≡ sum_of determinant (map triangle_of faces.now) }
    ensures size { MagnitudeBelow 78 result }
{
    let mut sum = 0;
    let mut rest = faces;
    while let [face, after @ ..] = rest {
        sum = plus(sum, face.determinant());
        rest = after;
    }
    sum
}

fn plus(sum: i128, term: i128) -> i128
    requires sum { MagnitudeBelow 100 sum }
    requires term { MagnitudeBelow 63 term }
    ensures value { result ≡ sum +ℤ term }
    ensures size { unsigned_abs result ≤ unsigned_abs sum + 2 ^ 63 }
{
    sum + term
}
