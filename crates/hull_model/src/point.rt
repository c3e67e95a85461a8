// One offset.
ghost use Rattle.std.specs.Prelude.{◌≡◌, ◌↔◌, IsTrue};
ghost use Rattle.hull_model.specs.Body.{IsPoint, IsOutboard};

/// The greatest half-breadth and the greatest height of a hull, in mm.
pub const MOST_OFFSET: i64 = 65535;

/// A point of a station: a half-breadth and a height.
///
/// `y` is the distance from the centreplane and `z` the height above the base, both in whole mm. In a
/// [`Hull`](crate::Hull) both lie from 0 to 65535.
#[derive(Clone, Copy, Debug, PartialEq, Eq)]
pub struct Point {
    pub y: i64,
    pub z: i64,
}

impl Point {
    pub(crate) fn is_within_limits(&self) -> bool
        ensures { IsTrue result ↔ IsPoint self.now }
    {
        (0..=MOST_OFFSET).contains(&self.y) && (0..=MOST_OFFSET).contains(&self.z)
    }

    pub(crate) fn is_outboard(&self) -> bool
        ensures { IsTrue result ↔ IsOutboard self.now }
    {
        0 < self.y
    }
}
