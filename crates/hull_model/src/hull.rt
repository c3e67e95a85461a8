// The hull and what it keeps.
ghost use Rattle.std.specs.Prelude.{◌≡◌, ◌↔◌, ◌≤◌, IsTrue, length};
ghost use Rattle.std.specs.List.{AllByRecursion};
ghost use Rattle.hull_model.specs.Lists.{AnyByRecursion, Rises};
ghost use Rattle.hull_model.specs.Body.{IsStation, IsHull, HasBreadth};

use crate::Station;
use std::marker::Model;

/// A hull by its stations, aft to fore. Contracts see the list of its stations.
///
/// It keeps: 3 to 64 stations, whose x rise strictly from 0 to 524287; in each 2 to 32 points, or 1 to 32
/// in the first and the last, whose heights rise strictly; half-breadths and heights from 0 to 65535; and
/// some half-breadth above 0, so that the hull has a volume.
#[derive(Debug, Drop)]
pub struct Hull {
    stations: Vec<Station>,
}

impl Model for Hull {
    ghost use Rattle.std.specs.Prelude.{List};
    ghost use Rattle.hull_model.specs.declared.station.Station.{Station};

    ghost Value = { List Station };

    ghost use Rattle.hull_model.specs.Body.{IsHull};

    ghost view = { λ hull. hull.stations.items };

    ghost invariant = { λ hull. IsHull hull.stations.items };
}

impl Hull {
    ghost use Rattle.std.specs.Prelude.{◌↔◌, IsSome, IfSome};

    /// The hull of these stations: Some exactly where they have all that a hull keeps, of the points as given.
    ///
    /// Nothing is dropped, sorted or mended.
    pub fn of(stations: Vec<Station>) -> Option<Hull>
        ensures some { IsSome result ↔ IsHull stations.items }
        ensures same { IfSome result (λ hull. hull ≡ stations.items) }
    {
        if is_hull(&stations) {
            Some(Hull { stations })
        } else {
            None
        }
    }

    /// The stations, aft to fore.
    pub fn stations(&self) -> &[Station]
        ensures same { result.now ≡ self.now }
        ensures kept { IsHull self.now }
    {
        &self.stations
    }
}

fn is_hull(stations: &[Station]) -> bool
    ensures { IsTrue result ↔ IsHull stations.now }
{
    (3..=64).contains(&stations.len())
        && places_rise(stations)
        && are_within_limits(stations)
        && have_strips(&stations[1..stations.len() - 1])
        && have_breadth(stations)
}

fn places_rise(stations: &[Station]) -> bool
    ensures { IsTrue result ↔ Rises (λ s. s.x) stations.now }
{
    let mut rest = stations;
    while let [aft, fore, ..] = rest {
        if aft.x >= fore.x {
            return false;
        }
        rest = &rest[1..];
    }
    true
}

fn are_within_limits(stations: &[Station]) -> bool
    ensures { IsTrue result ↔ AllByRecursion IsStation stations.now }
{
    let mut rest = stations;
    while let [station, after @ ..] = rest {
        if !station.is_within_limits() {
            return false;
        }
        rest = after;
    }
    true
}

// Whether each station has two points at least.
fn have_strips(stations: &[Station]) -> bool
    ensures { IsTrue result ↔ AllByRecursion (λ s. 2 ≤ length s.points) stations.now }
{
    let mut rest = stations;
    while let [station, after @ ..] = rest {
        if station.points.as_slice().len() < 2 {
            return false;
        }
        rest = after;
    }
    true
}

fn have_breadth(stations: &[Station]) -> bool
    ensures { IsTrue result ↔ HasBreadth stations.now }
{
    let mut rest = stations;
    while let [station, after @ ..] = rest {
        if station.has_breadth() {
            return true;
        }
        rest = after;
    }
    false
}
