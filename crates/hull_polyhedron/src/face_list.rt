// Faces in order, each of some area.
ghost use Rattle.std.specs.Prelude.{◌≡◌, ◌++◌, [], ◌∷◌, if◌then◌else◌, length, OnOk};
ghost use Rattle.std.specs.List.{AllByRecursion};
ghost use Rattle.hull_model.specs.Nodes.{IsNode};
ghost use Rattle.hull_model.specs.TriangleCut.{triangle};
ghost use Rattle.hull_model.specs.SignedFaces.{turned};
ghost use Rattle.hull_model.specs.Faces.{IsFace, triangle_of};
ghost use Rattle.hull_polyhedron.specs.Listed as listed;
ghost use Rattle.hull_polyhedron.specs.Listed.{kept};

use exact_fraction::Memory;
use hull_model::{Face, Node};
use std::alloc::Global;
use std::marker::Model;

/// Faces in order. Contracts see their list.
///
/// The corners of each lie within the limits of a [`Node`], and its area vector is the one that their
/// order gives.
#[derive(Debug, Drop)]
pub struct FaceList {
    list: Vec<Face>,
}

impl Model for FaceList {
    ghost use Rattle.std.specs.Prelude.{List};
    ghost use Rattle.std.specs.List.{AllByRecursion};
    ghost use Rattle.hull_model.specs.declared.face.Face.{Face};
    ghost use Rattle.hull_model.specs.Faces.{IsFace};

    ghost Value = { List Face };

    ghost view = { λ faces. faces.list.items };

    ghost invariant = { λ faces. AllByRecursion IsFace faces.list.items };
}

impl FaceList {
    pub(crate) fn new(alloc: Global) -> FaceList
        ensures { result ≡ [] }
    {
        FaceList {
            list: Vec::new(alloc),
        }
    }

    /// The faces in order.
    pub fn as_slice(&self) -> &[Face]
        ensures same { result.now ≡ self.now }
        ensures limits { AllByRecursion IsFace self.now }
    {
        &self.list
    }

    pub(crate) fn len(&self) -> usize
        ensures { result ≡ length self.now }
    {
        self.list.len()
    }

    /// Adds the triangle with these corners, or the same the other way round. One of no area is left out.
    pub(crate) fn push(&mut self, a: Node, b: Node, c: Node, outwards: bool) -> Result<(), Memory>
        requires a { IsNode a }
        requires b { IsNode b }
        requires c { IsNode c }
        ensures { OnOk result (self.new ≡ self.old ++ kept ((if outwards then triangle a b c else turned (triangle a b c)) ∷ [])) }
    {
        let face = if outwards {
            Face::of(a, b, c)
        } else {
            Face::of(b, a, c)
        };
        if has_area(&face) {
            self.list.push(face)?;
        }
        Ok(())
    }
}

fn has_area(face: &Face) -> bool
    requires { IsFace face.now }
    ensures { result ≡ listed.has_area (triangle_of face.now) }
{
    face.ax != 0 || face.ay != 0 || face.az != 0
}
