// The parts of a boundary that are lost.
ghost use Rattle.std.specs.Prelude.{◌≡◌, ◌*◌, ◌≤◌, List, length, OnOk};
ghost use Rattle.std.specs.List.{AllByRecursion};
ghost use Rattle.hull_model.specs.Faces.{IsFace};
ghost use Rattle.hull_model.specs.Flooded.{flooded_share};
ghost use Rattle.hull_model.specs.TriangleCut.{Triangle};
ghost use Rattle.hull_model.specs.Waterplane.{Position};
ghost use Rattle.plane_clip.specs.Between.{HoldParts};
ghost use Rattle.compartment_loss.specs.Flooding.{Room, IsFaceIn, LieIn, IsPartIn, Grows, shared, face_in, faces_in};

use exact_fraction::Memory;
use hull_model::{Face, Slab};
use plane_clip::{Part, parts_of};

/// Adds the parts of all faces in a slab.
pub(crate) fn push_slab(parts: &mut Vec<Part>, faces: &[Face], slab: &Slab) -> Result<(), Memory>
    requires { AllByRecursion IsFace faces.now }
    ensures { (r : Room) → LieIn r faces.now → OnOk result (Grows r parts.old.items parts.new.items (faces_in faces.now slab.now) (4 * length faces.now)) }
{
    let mut rest = faces;
    while let [face, after @ ..] = rest {
        push_face(parts, face, slab)?;
        rest = after;
    }
    Ok(())
}

/// Adds the parts of a face in a slab.
fn push_face(parts: &mut Vec<Part>, face: &Face, slab: &Slab) -> Result<(), Memory>
    requires { IsFace face.now }
    ensures { (r : Room) → IsFaceIn r face.now → OnOk result (Grows r parts.old.items parts.new.items (face_in slab.now face.now) 4) }
{
    push_shares(parts, &parts_of(face, slab.aft, slab.fore), slab)
}

/// Adds the flooded shares of parts.
fn push_shares(parts: &mut Vec<Part>, more: &[Part], slab: &Slab) -> Result<(), Memory>
    ensures { (r : Room) (us : List (Triangle Position)) → HoldParts more.now us → AllByRecursion (IsPartIn r 2) more.now → OnOk result (Grows r parts.old.items parts.new.items (shared (flooded_share slab.now) us) (length more.now)) }
{
    let mut rest = more;
    while let [part, after @ ..] = rest {
        parts.push(part.thousandths(slab.permeability))?;
        rest = after;
    }
    Ok(())
}
