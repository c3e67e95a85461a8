// The stations: runs of rows at one x.
ghost use Rattle.std.specs.Prelude.{◌≡◌, ◌⊎◌, ℕ, ◌==◌, ◌<◌, ◌∷◌, length, map, IfOk, IfErr, OnOk};
ghost use Rattle.std.specs.List.{take_while};
ghost use Rattle.offset_reader.specs.Heights.{heights_fault};
ghost use Rattle.offset_reader.specs.Points as points;
ghost use Rattle.offset_reader.specs.Stations as spec;

use crate::OffsetFault;
use crate::heights::{check_heights, kept_rows};
use crate::row::Row;
use hull_model::{Point, Points, Station};
use std::alloc::Global;

const FEWEST_STATIONS: u32 = 3;

const MOST_STATIONS: u32 = 64;

const MOST_POINTS: usize = 32;

// The rows of the first station, and those after them.
fn first_station(rows: &[Row]) -> (&[Row], &[Row])
    requires { 0 < length rows.now }
    ensures some { 0 < length result.0.now }
    ensures shorter { length result.1.now < length rows.now }
    ensures split { spec.stations_of rows.now ≡ result.0.now ∷ spec.stations_of result.1.now }
{
    rows.split_at(run_length(rows, rows[0].x))
}

// How many rows at the start have this x.
fn run_length(rows: &[Row], x: u32) -> usize
    ensures { result ≡ length (take_while (λ r. r.x == x) rows.now) }
{
    rows.iter().take_while(|row| row.x == x).count()
}

/// The first height that is out of order in its station.
pub(crate) fn check_order(rows: &[Row]) -> Result<(), OffsetFault>
    ensures ok { OnOk result (heights_fault (spec.stations_of rows.now) ≡ None) }
    ensures err { IfErr result (λ e. heights_fault (spec.stations_of rows.now) ≡ Some e) }
{
    let mut rest = rows;
    while let [_, ..] = rest {
        let (station, after) = first_station(rest);
        check_heights(station)?;
        rest = after;
    }
    Ok(())
}

/// The fault of too few or too many stations.
pub(crate) fn check_count(rows: &[Row]) -> Result<(), OffsetFault>
    ensures ok { OnOk result (spec.count_fault (spec.stations_of rows.now) ≡ None) }
    ensures err { IfErr result (λ e. spec.count_fault (spec.stations_of rows.now) ≡ Some e) }
{
    let mut stations: u32 = 0;
    let mut rest = rows;
    while let [first, ..] = rest {
        if stations == MOST_STATIONS {
            return Err(OffsetFault::TooManyStations { row: first.number });
        }
        stations += 1;
        rest = first_station(rest).1;
    }
    if stations < FEWEST_STATIONS {
        return Err(OffsetFault::FewStations { stations });
    }
    Ok(())
}

/// The stations with the points that they keep.
pub(crate) fn stations_of(alloc: Global, rows: &[Row]) -> Result<Vec<Station>, OffsetFault>
    ensures ok { IfOk result (λ v. (points.points_fault (spec.stations_of rows.now) ≡ None)
        × (v.items ≡ map points.station_of (spec.stations_of rows.now))) }
    ensures err { IfErr result (λ e. (e ≡ OffsetFault.Memory)
        ⊎ (points.points_fault (spec.stations_of rows.now) ≡ Some e)) }
{
    let mut stations = Vec::new(alloc);
    let mut is_first = true;
    let mut rest = rows;
    while let [_, ..] = rest {
        let (station, after) = first_station(rest);
        stations.push(station_of(alloc, station, is_first || after.is_empty())?)?;
        is_first = false;
        rest = after;
    }
    Ok(stations)
}

fn station_of(alloc: Global, rows: &[Row], is_end: bool) -> Result<Station, OffsetFault>
    requires { 0 < length rows.now }
    ensures ok { IfOk result (λ s. (points.station_points_fault is_end rows.now ≡ None)
        × (s ≡ points.station_of rows.now)) }
    ensures err { IfErr result (λ e. (e ≡ OffsetFault.Memory)
        ⊎ (points.station_points_fault is_end rows.now ≡ Some e)) }
{
    let first = rows[0];
    let kept = kept_rows(rows);
    if !is_end && kept.len() == 1 {
        return Err(OffsetFault::FewPoints { row: first.number });
    }
    if kept.len() > MOST_POINTS {
        return Err(OffsetFault::TooManyPoints { row: first.number });
    }
    Ok(Station {
        x: i64::from(first.x),
        points: points_of(alloc, kept)?,
    })
}

fn points_of(alloc: Global, rows: &[Row]) -> Result<Points, OffsetFault>
    ensures ok { IfOk result (λ all. all ≡ map points.point_of rows.now) }
    ensures err { IfErr result (λ e. e ≡ OffsetFault.Memory) }
{
    let mut points = Vec::new(alloc);
    for row in rows {
        points.push(Point {
            y: i64::from(row.y),
            z: i64::from(row.z),
        })?;
    }
    Ok(Points::new(points))
}
