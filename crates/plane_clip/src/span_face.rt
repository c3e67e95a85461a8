// Parts of faces by spans of their corners and areas.
ghost use Rattle.std.specs.Prelude.{◌≡◌, ◌*ℤ◌, ◌^◌, ℕ, pos};
ghost use Rattle.hull_model.specs.Body.{IsWithin};
ghost use Rattle.hull_model.specs.Faces.{IsFace};
ghost use Rattle.hull_model.specs.TriangleCut.{Triangle};
ghost use Rattle.hull_model.specs.Waterplane.{Position};
ghost use Rattle.plane_clip.specs.Between.{clipped_face};
ghost use Rattle.plane_clip.specs.Parts.{HoldsPart};
ghost use Rattle.plane_clip.specs.SpanFaces.{HoldsFace, HoldFaces, IsThinFace, AreThinFaces};
ghost use Rattle.plane_clip.specs.Extents.{IsPartExtent};

use crate::clipping::parts_of;
use crate::part::Part;
use crate::parts::exact;
use arrayvec::ArrayVec;
use hull_model::Face;
use outward_interval::Span;

/// A triangle by spans of the coordinates of its corners in mm, and of twice its area in mm² as it is seen along y and
/// along z.
#[derive(Clone, Copy, Debug, PartialEq, Eq)]
pub struct SpanFace {
    pub x: [Span<20>; 3],
    pub y: [Span<20>; 3],
    pub z: [Span<20>; 3],
    pub ay: Span<20>,
    pub az: Span<20>,
}

/// The triangles of the part of a face between two places along the ship, from 0 to 524287 mm: none of a face in a plane
/// of constant x. The spans of x are exact, the others at most 2 units of 2^-20 wide.
pub fn between(face: &Face, xa: i64, xb: i64) -> ArrayVec<SpanFace, 5>
    requires face { IsFace face.now }
    requires aft { IsWithin (pos 524287) xa }
    requires fore { IsWithin (pos 524287) xb }
    ensures holds { HoldFaces result.items (clipped_face xa xb face.now) }
    ensures thin { AreThinFaces 2 result.items }
{
    let parts = parts_of(face, xa, xb);
    let mut rest = parts.as_slice();
    let mut spans = ArrayVec::new();
    while let [part, after @ ..] = rest {
        spans.push(spans_of(part));
        rest = after;
    }
    spans
}

fn spans_of(part: &Part) -> SpanFace
    ensures holds { (t : Triangle Position) → HoldsPart part.now t → HoldsFace result t }
    ensures thin { (y z k : ℕ) → IsPartExtent y z k part.now → IsThinFace k result }
{
    SpanFace {
        x: [place_of(part.a.x), place_of(part.b.x), place_of(part.c.x)],
        y: [part.a.y, part.b.y, part.c.y],
        z: [part.a.z, part.b.z, part.c.z],
        ay: part.ay,
        az: part.az,
    }
}

fn place_of(x: i128) -> Span<20>
    requires { IsWithin (pos 524287) x }
    ensures { (result.lo ≡ x *ℤ pos (2 ^ 20)) × (result.hi ≡ x *ℤ pos (2 ^ 20)) }
{
    exact(x as i64)
}

/// At the origin, with no area: what an `ArrayVec` has in places that aren't used.
impl Default for SpanFace {
    fn default() -> SpanFace {
        let nothing = [exact(0), exact(0), exact(0)];
        SpanFace {
            x: nothing,
            y: nothing,
            z: nothing,
            ay: exact(0),
            az: exact(0),
        }
    }
}
