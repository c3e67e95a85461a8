// The made hull.
ghost use Rattle.std.specs.Prelude.{◌≡◌, ◌≤◌, ◌<◌, OnOk, IfOk};
ghost use Rattle.hull_maker.specs.Draws.{after};
ghost use Rattle.hull_maker.specs.MadeHull as spec;

use crate::draws::Draws;
use exact_fraction::Memory;
use hull_model::{Hull, Point, Points, Station};
use std::alloc::Global;

/// How many stations there are, and how many points each has.
const STATIONS: u32 = 41;

const POINTS: u32 = 16;

/// From one station to the next, and from one point to the next, in mm.
const SPACING: i64 = 2500;

const RISE: i64 = 600;

/// A made hull of 41 stations with 16 points each, the same for a seed on every machine.
///
/// The stations are 2500 mm apart, the points 600 mm. A half-breadth in mm is 100 times the product of two numbers, one for the
/// station, from 1 at the ends to 11 amidships, and one for the height, from 1 at the base to 8; and a draw from 0 to 99.
pub fn made_hull(alloc: Global, seed: u32) -> Result<Hull, Memory>
    ensures { IfOk result (λ hull. hull ≡ spec.stations_of seed) }
{
    let mut draws = Draws { state: seed };
    let mut stations = Vec::new(alloc);
    for i in 0..STATIONS {
        stations.push(made_station(alloc, &mut draws, i)?)?;
    }
    match Hull::of(stations) {
        Some(hull) => Ok(hull),
        None => unreachable!(),
    }
}

// The station with this number.
fn made_station(alloc: Global, draws: &mut Draws, i: u32) -> Result<Station, Memory>
    requires { i ≤ 40 }
    ensures station { IfOk result (λ station. station ≡ spec.station i draws.old.state) }
    ensures state { OnOk result (draws.new.state ≡ after 16 draws.old.state) }
{
    let mut points = Vec::new(alloc);
    for j in 0..POINTS {
        points.push(made_point(i, j, draws.draw()))?;
    }
    Ok(Station {
        x: SPACING * i64::from(i),
        points: Points::new(points),
    })
}

// The point with this number.
fn made_point(i: u32, j: u32, draw: u32) -> Point
    requires i { i ≤ 40 }
    requires j { j < 16 }
    requires draw { draw < 100 }
    ensures { result ≡ spec.point i j draw }
{
    Point {
        y: i64::from(least_breadth(i, j) + draw),
        z: RISE * i64::from(j),
    }
}

// A half-breadth without its draw.
fn least_breadth(i: u32, j: u32) -> u32
    requires { i ≤ 40 }
    ensures value { result ≡ spec.least_breadth i j }
    ensures range { result ≤ 8800 }
{
    100 * (i.min(40 - i).min(10) + 1) * (j.min(7) + 1)
}
