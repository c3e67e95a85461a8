// A face clipped between two places along the ship.
ghost use Rattle.hull_model.specs.Faces.{IsFace};

use crate::{SpanFace, between};
use hull_model::{Face, Node};
use outward_interval::Span;
use std::test::Fail;

// From x = 0 to x = 30: twice its area is -900 mm² as it is seen along z.
fn face() -> Face
    ensures { IsFace result }
{
    Face::of(
        Node { x: 0, y: 0, z: 0 },
        Node { x: 30, y: 30, z: 0 },
        Node { x: 30, y: 0, z: 30 },
    )
}

// The areas together contain so many mm².
fn hold(faces: &[SpanFace], area: i64) -> bool {
    let (mut lo, mut hi) = (0i128, 0i128);
    for face in faces {
        lo = lo.saturating_add(face.az.lo());
        hi = hi.saturating_add(face.az.hi());
    }
    let units = i128::from(area).saturating_mul(1 << 20);
    lo <= units && units <= hi
}

fn is_at(x: Span<20>, aft: i128, fore: i128) -> bool {
    x.lo() == x.hi() && aft <= x.lo() && x.hi() <= fore
}

// Every corner lies exactly at one place or the other or between, in units, and no area is more than 2 units wide.
fn are_between(faces: &[SpanFace], aft: i128, fore: i128) -> bool {
    for face in faces {
        let [a, b, c] = face.x;
        if !is_at(a, aft, fore) || !is_at(b, aft, fore) || !is_at(c, aft, fore) {
            return false;
        }
        if face.az.hi().saturating_sub(face.az.lo()) > 2 {
            return false;
        }
    }
    true
}

// Four ninths of the face lie aft of 20, one ninth aft of 10.
#[test]
fn the_middle_of_a_face(rt: HostRuntime) -> Result<(), Fail> {
    let middle = between(&face(), 10, 20);
    assert_eq!(rt; middle.as_slice().len(), 3);
    assert!(rt; hold(middle.as_slice(), -300));
    assert!(rt; are_between(middle.as_slice(), 10 << 20, 20 << 20));
    Ok(())
}

#[test]
fn corners_on_both_planes(rt: HostRuntime) -> Result<(), Fail> {
    let whole = between(&face(), 0, 30);
    assert!(rt; hold(whole.as_slice(), -900));
    assert!(rt; are_between(whole.as_slice(), 0, 30 << 20));
    assert_eq!(rt; between(&face(), 30, 31).as_slice().len(), 0);
    Ok(())
}

#[test]
fn nothing_of_a_face_in_a_plane_of_constant_x(rt: HostRuntime) -> Result<(), Fail> {
    let flat = Face::of(
        Node { x: 15, y: 0, z: 0 },
        Node { x: 15, y: 30, z: 0 },
        Node { x: 15, y: 0, z: 30 },
    );
    assert_eq!(rt; between(&flat, 10, 20).as_slice().len(), 0);
    Ok(())
}
