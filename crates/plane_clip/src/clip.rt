// A triangle clipped to one side of a plane of constant x.
ghost use Rattle.std.specs.Prelude.{◌≡◌, ℕ, suc, ℤ, pos, int_lt};
ghost use Rattle.hull_model.specs.Body.{IsWithin};

use crate::part::Part;

/// What a triangle is clipped to.
#[derive(Clone, Copy)]
pub(crate) enum Clip {
    Nothing,
    One(Part),
    Two(Part, Part),
}

impl Clip {
    ghost use Rattle.hull_model.specs.TriangleCut.{Triangle};
    ghost use Rattle.hull_model.specs.Waterplane.{Position};
    ghost use Rattle.plane_clip.specs.Clipped.{clip_by, lone_by, clip_forward, clip_aft};
    ghost use Rattle.plane_clip.specs.Clips.{HoldsClip, clip_parts};
    ghost use Rattle.plane_clip.specs.Extents.{IsPartExtent, ArePartExtents};
    ghost use Rattle.plane_clip.specs.Parts.{HoldsPart};
    ghost use Rattle.plane_clip.specs.Ways.{IsOnWay, AreSides};

    /// Where the first corner lies alone on its side.
    fn alone(part: &Part, at: i128, above: bool) -> Clip
        requires second { IsOnWay at part.now.a.x part.now.b.x }
        requires third { IsOnWay at part.now.a.x part.now.c.x }
        ensures holds { (t : Triangle Position) → HoldsPart part.now t → HoldsClip result (lone_by above at t.a t.b t.c) }
        ensures extent { (y z k : ℕ) → IsPartExtent y z k part.now → ArePartExtents y z (suc k) (clip_parts result) }
    {
        if above {
            Clip::One(part.tip(at))
        } else {
            Clip::Two(part.behind_second(at), part.behind_third(at))
        }
    }

    /// By which corners are on the side that is kept.
    fn by_sides(part: &Part, at: i128, a: bool, b: bool, c: bool) -> Clip
        requires ab { AreSides at part.now.a.x part.now.b.x a b }
        requires bc { AreSides at part.now.b.x part.now.c.x b c }
        requires ca { AreSides at part.now.c.x part.now.a.x c a }
        ensures holds { (t : Triangle Position) → HoldsPart part.now t → HoldsClip result (clip_by a b c at t.a t.b t.c) }
        ensures extent { (y z k : ℕ) → IsPartExtent y z k part.now → ArePartExtents y z (suc k) (clip_parts result) }
    {
        if b == c {
            if a != b {
                Clip::alone(part, at, a)
            } else if a {
                Clip::One(*part)
            } else {
                Clip::Nothing
            }
        } else if a == c {
            Clip::alone(&part.second(), at, b)
        } else {
            Clip::alone(&part.second().second(), at, c)
        }
    }

    /// The part forward of a place.
    pub(crate) fn forward(part: &Part, at: i128) -> Clip
        requires { IsWithin (pos 524287) at }
        ensures holds { (t : Triangle Position) → HoldsPart part.now t → HoldsClip result (clip_forward at t) }
        ensures extent { (y z k : ℕ) → IsPartExtent y z k part.now → ArePartExtents y z (suc k) (clip_parts result) }
    {
        Clip::by_sides(part, at, part.a.x > at, part.b.x > at, part.c.x > at)
    }

    /// The part aft of a place.
    pub(crate) fn aft(part: &Part, at: i128) -> Clip
        requires { IsWithin (pos 524287) at }
        ensures holds { (t : Triangle Position) → HoldsPart part.now t → HoldsClip result (clip_aft at t) }
        ensures extent { (y z k : ℕ) → IsPartExtent y z k part.now → ArePartExtents y z (suc k) (clip_parts result) }
    {
        Clip::by_sides(part, at, part.a.x < at, part.b.x < at, part.c.x < at)
    }
}
