// The margin line.
ghost use Rattle.std.specs.Prelude.{◌≡◌, ◌≤◌, ◌<◌, ◌^◌, pos, ◌+ℤ◌, ◌-ℤ◌, ◌*ℤ◌, unsigned_abs};
ghost use Rattle.std.specs.List.{AllByRecursion};
ghost use Rattle.hull_model.specs.Body.{IsWithin, IsPoint, IsStation};
ghost use Rattle.floodable_length.specs.MarginLine.{top_of, margin_point, level_along, is_under, first_under};
ghost use Rattle.floodable_length.specs.LoadedShip.{ship_of, IsShip};

use crate::products::product;
use crate::ship::Ship;
use damage_box::DraftBox;
use hull_model::{Point, Station};

/// Grid units in a mm.
const GRID: i64 = 1024;

/// The margin point of a station and the level there, both times the distance of the end stations.
#[derive(Clone, Copy, Debug)]
struct Heights {
    point: i64,
    level: i64,
}

impl Ship<'_> {
    /// The number of the first station whose margin point is under the upright plane of level `a` at the first station and
    /// `f` at the last, in grid units.
    pub(crate) fn first_under(&self, a: i64, f: i64) -> Option<u32>
        requires ship { IsShip (ship_of self.now) }
        requires a { unsigned_abs a ≤ 2 ^ 30 }
        requires f { unsigned_abs f ≤ 2 ^ 30 }
        ensures { result ≡ first_under self.now.margin self.now.stations.now a f }
    {
        let mut number = 0;
        let mut rest = self.stations;
        while let [station, after @ ..] = rest {
            if self.is_under(station, a, f) {
                return Some(number);
            }
            number += 1;
            rest = after;
        }
        None
    }

    /// Whether the level at a station is above its margin point.
    fn is_under(&self, station: &Station, a: i64, f: i64) -> bool
        requires station { IsStation station.now }
        requires margin { self.now.margin ≤ 10000 }
        requires a { unsigned_abs a ≤ 2 ^ 30 }
        requires f { unsigned_abs f ≤ 2 ^ 30 }
        ensures { result ≡ is_under self.now.margin self.now.faces.now.first_x self.now.faces.now.last_x a f station.now }
    {
        let heights = self.heights(station, a, f);
        heights.point < heights.level
    }

    /// The heights at a station.
    fn heights(&self, station: &Station, a: i64, f: i64) -> Heights
        requires station { IsStation station.now }
        requires margin { self.now.margin ≤ 10000 }
        requires a { unsigned_abs a ≤ 2 ^ 30 }
        requires f { unsigned_abs f ≤ 2 ^ 30 }
        ensures point { result.point ≡ margin_point self.now.margin station.now *ℤ (self.now.faces.now.last_x -ℤ self.now.faces.now.first_x) }
        ensures level { result.level ≡ level_along self.now.margin self.now.faces.now.first_x self.now.faces.now.last_x a f station.now }
    {
        let first = self.faces.first_x();
        let last = self.faces.last_x();
        let point = margin_point(station, self.margin);
        Heights {
            point: product(point, distance(first, last)),
            level: level_along(a, f, distance(first, station.x), distance(station.x, last)),
        }
    }

    /// How far the margin line is above the greatest levels of a box, where it is the least: a guess goes by it.
    pub(crate) fn clearance(&self, at: &DraftBox) -> i64
        requires ship { IsShip (ship_of self.now) }
    {
        let mut least = i64::MAX;
        let mut rest = self.stations;
        while let [station, after @ ..] = rest {
            let heights = self.heights(station, at.a2, at.f2);
            least = least.min(heights.point.saturating_sub(heights.level));
            rest = after;
        }
        least
    }
}

/// The level at `aft` from the first station and `fore` from the last, times the distance of those.
fn level_along(a: i64, f: i64, aft: i64, fore: i64) -> i64
    requires a { unsigned_abs a ≤ 2 ^ 30 }
    requires f { unsigned_abs f ≤ 2 ^ 30 }
    requires aft { unsigned_abs aft < 2 ^ 20 }
    requires fore { unsigned_abs fore < 2 ^ 20 }
    ensures { result ≡ (a *ℤ fore) +ℤ (f *ℤ aft) }
{
    product(a, fore) + product(f, aft)
}

/// From one place along the ship to another, in mm.
fn distance(from: i64, to: i64) -> i64
    requires from { IsWithin (pos 524287) from }
    requires to { IsWithin (pos 524287) to }
    ensures value { result ≡ to -ℤ from }
    ensures size { unsigned_abs result < 2 ^ 20 }
{
    to - from
}

/// The height of a station's margin point, in grid units.
fn margin_point(station: &Station, margin: u32) -> i64
    requires station { IsStation station.now }
    requires margin { margin ≤ 10000 }
    ensures value { result ≡ margin_point margin station.now }
    ensures size { unsigned_abs result ≤ 2 ^ 30 }
{
    GRID * (top(station.points.as_slice()) - i64::from(margin))
}

/// The height of the top point, in mm.
fn top(points: &[Point]) -> i64
    requires { AllByRecursion IsPoint points.now }
    ensures value { result ≡ top_of points.now }
    ensures within { IsWithin (pos 65535) result }
{
    match points {
        [.., point] => point.z,
        [] => 0,
    }
}
