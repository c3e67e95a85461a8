// Hulls with flooded slabs.
ghost use Rattle.std.specs.Prelude.{◌≡◌, ◌<◌, ◌^◌, length};
ghost use Rattle.std.specs.Int.RustNames.{unsigned_abs};
ghost use Rattle.std.specs.List.{AllByRecursion};
ghost use Rattle.std.proofs.Props.{props};
ghost use Rattle.hull_model.specs.Faces.{IsFace};
ghost use Rattle.plane_clip.specs.Between.{IsPartWithin};
ghost use Rattle.plane_clip.specs.Extents.{ArePartExtents};
ghost use Rattle.flux_moments.specs.Shared.{HoldShares};
ghost use Rattle.compartment_loss.specs.Flooding.{flooded_parts};

use hull_model::Slab;
use hull_polyhedron::Faces;
use plane_clip::Part;

/// A hull of which slabs are flooded: its boundary, and the slabs.
///
/// The parts of the boundary's faces in the slabs are kept with the flooded shares of their areas.
#[derive(Drop)]
pub struct FloodedHull<'a> {
    pub(crate) faces: &'a Faces,
    pub(crate) slabs: Vec<Slab>,
    pub(crate) parts: Vec<Part>,
    ghost held: { ∥ HoldShares parts.items (flooded_parts faces.now.list slabs.items) ∥₁ },
    ghost placed: { AllByRecursion (IsPartWithin faces.now.first_x faces.now.last_x) parts.items } by { Prim.hlevel props },
    ghost extents: { ArePartExtents (unsigned_abs faces.now.half_breadth) (unsigned_abs faces.now.high_z) 3 parts.items } by { Prim.hlevel props },
    ghost limits: { ∥ AllByRecursion IsFace faces.now.list ∥₁ },
    ghost few: { length parts.items < 2 ^ 22 },
}

impl<'a> FloodedHull<'a> {
    /// The boundary of the hull.
    pub fn faces(&self) -> &'a Faces
        ensures { result.now ≡ self.now.faces.now }
    {
        self.faces
    }
}
