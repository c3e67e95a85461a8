// The parts of faces between two places along the ship.
ghost use Rattle.std.specs.Prelude.{◌≡◌, ◌≤◌, ◌++◌, ℕ, suc, ℤ, pos, length};
ghost use Rattle.std.specs.List.{AllByRecursion};
ghost use Rattle.hull_model.specs.Body.{IsWithin};
ghost use Rattle.hull_model.specs.Faces.{IsFace};
ghost use Rattle.hull_polyhedron.specs.Between.{IsInside};
ghost use Rattle.hull_model.specs.TriangleCut.{Triangle};
ghost use Rattle.hull_model.specs.Waterplane.{Position};
ghost use Rattle.plane_clip.specs.Clipped.{clipped};
ghost use Rattle.plane_clip.specs.Between as lists;
ghost use Rattle.plane_clip.specs.Between.{HoldParts, IsPlaced, IsPartWithin, clipped_face};
ghost use Rattle.plane_clip.specs.Clips.{clip_parts};
ghost use Rattle.plane_clip.specs.Parts.{HoldsPart};
ghost use Rattle.plane_clip.specs.Extents.{IsPartExtent, ArePartExtents};

use crate::clip::Clip;
use crate::part::Part;
use arrayvec::ArrayVec;
use hull_model::Face;

/// The triangles of a face's part from one place along the ship to another: none of a face in a plane of constant x.
pub fn parts_of(face: &Face, aft: i64, fore: i64) -> ArrayVec<Part, 5>
    requires face { IsFace face.now }
    requires aft { IsWithin (pos 524287) aft }
    requires fore { IsWithin (pos 524287) fore }
    ensures holds { HoldParts result.items (clipped_face aft fore face.now) }
    ensures placed { (first last : ℤ) → AllByRecursion (λ n. IsPlaced first last n.x) face.now.p → AllByRecursion (IsPartWithin first last) result.items }
    ensures extent { (y z : ℕ) → AllByRecursion (IsInside (pos y) (pos z)) face.now.p → ArePartExtents y z 2 result.items }
    ensures few { length result.items ≤ 4 }
{
    if is_flat(face) {
        ArrayVec::new()
    } else {
        parts_between(&Part::of(face), i128::from(aft), i128::from(fore))
    }
}

/// The triangles of a triangle's part from one place along the ship to another.
fn parts_between(part: &Part, aft: i128, fore: i128) -> ArrayVec<Part, 5>
    requires aft { IsWithin (pos 524287) aft }
    requires fore { IsWithin (pos 524287) fore }
    ensures holds { (t : Triangle Position) → HoldsPart part.now t → HoldParts result.items (clipped aft fore t) }
    ensures extent { (y z k : ℕ) → IsPartExtent y z k part.now → ArePartExtents y z (suc (suc k)) result.items }
    ensures few { length result.items ≤ 4 }
{
    let mut parts = ArrayVec::new();
    match Clip::forward(part, aft) {
        Clip::Nothing => {}
        Clip::One(part) => push_all(&mut parts, Clip::aft(&part, fore)),
        Clip::Two(part, other) => {
            push_all(&mut parts, Clip::aft(&part, fore));
            push_all(&mut parts, Clip::aft(&other, fore));
        }
    }
    parts
}

/// Whether the face lies in a plane of constant x.
fn is_flat(face: &Face) -> bool
    ensures { result ≡ lists.is_flat face.now }
{
    let [a, b, c] = face.p;
    b.x == a.x && c.x == a.x
}

fn push_all(parts: &mut ArrayVec<Part, 5>, clip: Clip)
    requires { length parts.old.items ≤ 2 }
    ensures { parts.new.items ≡ parts.old.items ++ clip_parts clip }
{
    match clip {
        Clip::Nothing => {}
        Clip::One(part) => parts.push(part),
        Clip::Two(part, other) => {
            parts.push(part);
            parts.push(other);
        }
    }
}
