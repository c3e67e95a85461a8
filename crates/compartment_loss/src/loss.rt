// What flooded slabs leave.
ghost use Rattle.std.specs.Prelude.{◌≡◌, ◌≤◌, true, List, length, IfOk};
ghost use Rattle.exact_algebra.proofs.Fraction.{◌⊗◌};
ghost use Rattle.exact_algebra.proofs.Span.{ContainsFraction};
ghost use Rattle.exact_algebra.proofs.Whole.{whole};
ghost use Rattle.hull_model.specs.declared.station.Station.{Station};
ghost use Rattle.hull_model.specs.Body.{IsHull};
ghost use Rattle.hull_model.specs.Flooded.{volume_left, mx_left, mv_left, mu_left};
ghost use Rattle.hull_model.specs.Slabs.{are_apart};
ghost use Rattle.hull_model.specs.Waterplane.{Waterplane};
ghost use Rattle.hull_polyhedron.specs.FacesOf.{AreFacesOf};
ghost use Rattle.outward_interval.specs.Ends.{EndsBelow};
ghost use Rattle.outward_interval.specs.Widths.{IsNarrow};
ghost use Rattle.flux_moments.specs.Planes.{IsIn};
ghost use Rattle.flux_moments.specs.Wets.{AllFields};
ghost use Rattle.flux_moments.specs.Widths.{reach_of};
ghost use Rattle.compartment_loss.specs.LeftWidths.{left_bound};

use crate::FloodedHull;
use crate::parts::push_slab;
use exact_fraction::Memory;
use flux_moments::{PlaneBox, Wet, measure, part_sums};
use hull_model::Slab;
use hull_polyhedron::Faces;
use std::alloc::Global;

/// The hull with slabs flooded. The parts of the faces in the slabs are found here, once for all planes.
pub fn flood<'a>(alloc: Global, faces: &'a Faces, slabs: &[Slab]) -> Result<FloodedHull<'a>, Memory>
    requires few { length slabs.now ≤ 64 }
    requires apart { are_apart slabs.now ≡ true }
    ensures { IfOk result (λ f. (f.faces.now ≡ faces.now) × (f.slabs.items ≡ slabs.now)) }
{
    let boundary = faces.list();
    let mut parts = Vec::new(alloc);
    let mut rest = slabs;
    while let [slab, after @ ..] = rest {
        push_slab(&mut parts, boundary, slab)?;
        rest = after;
    }
    let slabs = Vec::from_slice(alloc, slabs)?;
    Ok(FloodedHull {
        faces,
        slabs,
        parts,
    })
}

/// Encloses what is left, where the slabs are flooded, of the volume and the integrals of x, of the distance towards the
/// low side and of the height, of the part of the hull that lies below a plane, for each plane of the box.
///
/// With n slabs and N faces the volume is no wider than n + 1 times W + N H 2^-12 mm²: W is the width that [`measure`]
/// allows for the whole hull, and H the greatest magnitude of a level with the greatest height and half-breadth. `mx` is
/// no wider than the last x times that, `mv` and `mu` than H times that. The ends lie below 2^122 units of 2^-20 in
/// magnitude, those of the volume below 2^100.
pub fn left(flood: &FloodedHull, planes: &PlaneBox) -> Wet
    ensures volume { (stations : List Station) → IsHull stations → AreFacesOf stations flood.now.faces.now → (plane : Waterplane) → IsIn planes.now plane → ContainsFraction 20 result.volume.lo result.volume.hi (volume_left plane stations flood.now.slabs.items) }
    ensures mx { (stations : List Station) → IsHull stations → AreFacesOf stations flood.now.faces.now → (plane : Waterplane) → IsIn planes.now plane → ContainsFraction 20 result.mx.lo result.mx.hi (mx_left plane stations flood.now.slabs.items) }
    ensures mv { (stations : List Station) → IsHull stations → AreFacesOf stations flood.now.faces.now → (plane : Waterplane) → IsIn planes.now plane → ContainsFraction 20 result.mv.lo result.mv.hi (mv_left plane stations flood.now.slabs.items) }
    ensures mu { (stations : List Station) → IsHull stations → AreFacesOf stations flood.now.faces.now → (plane : Waterplane) → IsIn planes.now plane → ContainsFraction 20 result.mu.lo result.mu.hi (mu_left plane stations flood.now.slabs.items) }
    ensures volume_width { IsNarrow 20 (left_bound flood.now planes.now) result.volume.lo result.volume.hi }
    ensures mx_width { IsNarrow 20 (whole flood.now.faces.now.last_x ⊗ left_bound flood.now planes.now) result.mx.lo result.mx.hi }
    ensures mv_width { IsNarrow 20 (reach_of flood.now.faces.now planes.now ⊗ left_bound flood.now planes.now) result.mv.lo result.mv.hi }
    ensures mu_width { IsNarrow 20 (reach_of flood.now.faces.now planes.now ⊗ left_bound flood.now planes.now) result.mu.lo result.mu.hi }
    ensures ends { AllFields (λ s. EndsBelow 122 s.lo s.hi) result }
    ensures volume_ends { EndsBelow 100 result.volume.lo result.volume.hi }
{
    let all = measure(flood.faces, planes);
    if flood.parts.is_empty() {
        return all;
    }
    all - part_sums(flood.faces, &flood.parts, planes)
}
