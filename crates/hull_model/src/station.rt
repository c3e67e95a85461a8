// A station and its points.
ghost use Rattle.std.specs.Prelude.{◌≡◌, ◌↔◌, IsTrue};
ghost use Rattle.std.specs.List.{AllByRecursion};
ghost use Rattle.hull_model.specs.Lists.{AnyByRecursion, Rises};
ghost use Rattle.hull_model.specs.Body.{IsPoint, IsOutboard, IsStation};

use crate::Point;
use std::marker::Model;

/// The greatest x of a station, in mm.
const MOST_X: i64 = 524287;

/// The most points of a station.
const MOST_POINTS: usize = 32;

/// The points of a station, lowest first. Contracts see their list.
#[derive(Debug, Drop)]
pub struct Points {
    list: Vec<Point>,
}

impl Model for Points {
    ghost use Rattle.std.specs.Prelude.{List};
    ghost use Rattle.hull_model.specs.declared.point.Point.{Point};

    ghost Value = { List Point };

    ghost view = { λ points. points.list.items };
}

impl Points {
    /// The points of a list, in its order. Takes no memory.
    pub fn new(list: Vec<Point>) -> Points
        ensures { result ≡ list.items }
    {
        Points { list }
    }

    /// The points in order.
    pub fn as_slice(&self) -> &[Point]
        ensures { result.now ≡ self.now }
    {
        &self.list
    }

    /// The list that the points are kept in. Takes no memory.
    pub fn into_vec(self) -> Vec<Point>
        ensures { result.items ≡ self }
    {
        self.list
    }
}

/// A transverse section of the hull: its place along the ship, and its points.
///
/// `x` is in whole mm from aft to fore. In a [`Hull`](crate::Hull) it lies from 0 to 524287 and the
/// heights of the points rise strictly.
#[derive(Debug, Drop)]
pub struct Station {
    pub x: i64,
    pub points: Points,
}

impl Station {
    pub(crate) fn is_within_limits(&self) -> bool
        ensures { IsTrue result ↔ IsStation self.now }
    {
        let points = self.points.as_slice();
        (0..=MOST_X).contains(&self.x)
            && (1..=MOST_POINTS).contains(&points.len())
            && heights_rise(points)
            && are_within_limits(points)
    }

    pub(crate) fn has_breadth(&self) -> bool
        ensures { IsTrue result ↔ AnyByRecursion IsOutboard self.now.points }
    {
        let mut rest = self.points.as_slice();
        while let [point, after @ ..] = rest {
            if point.is_outboard() {
                return true;
            }
            rest = after;
        }
        false
    }
}

fn heights_rise(points: &[Point]) -> bool
    ensures { IsTrue result ↔ Rises (λ p. p.z) points.now }
{
    let mut rest = points;
    while let [low, high, ..] = rest {
        if low.z >= high.z {
            return false;
        }
        rest = &rest[1..];
    }
    true
}

fn are_within_limits(points: &[Point]) -> bool
    ensures { IsTrue result ↔ AllByRecursion IsPoint points.now }
{
    let mut rest = points;
    while let [point, after @ ..] = rest {
        if !point.is_within_limits() {
            return false;
        }
        rest = after;
    }
    true
}
