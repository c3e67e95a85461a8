// Floodable lengths of a box of 100 m by 20 m by 10 m and of a cargo ship. The values were computed by a program that cuts
// the tetrahedra by exact fractions.
ghost use Rattle.std.specs.Prelude.{◌≡◌, ◌≤◌, ◌%◌, pos, ◌≤ℤ◌, nat_abs};
ghost use Rattle.hull_model.specs.Body.{IsWithin};

use crate::{Reach, Reason, floodable};
use damage_box::DraftBox;
use hull_model::{Hull, Point, Points, Station, Water};
use hull_polyhedron::faces_of;
use loading_sheet::Loading;
use std::alloc::Global;
use std::process::Abort;
use std::test::Fail;

// A station on each line: x, and half-breadths over heights.
const BARGE: &str = "\
0 10000/0 10000/10000\n\
50000 10000/0 10000/10000\n\
100000 10000/0 10000/10000";

const CARGO: &str = "\
0 0/0 0/1000 0/3000 1500/6000 6000/9000 7500/12000\n\
5000 0/0 400/1000 900/3000 3800/6000 7300/9000 8200/12000\n\
10000 200/0 1200/1000 2500/3000 5900/6000 8300/9000 8700/12000\n\
15000 800/0 2600/1000 4600/3000 7500/6000 8800/9000 8950/12000\n\
20000 1900/0 4400/1000 6500/3000 8500/6000 9000/9000 9000/12000\n\
25000 3400/0 6200/1000 7900/3000 8900/6000 9000/9000 9000/12000\n\
30000 5000/0 7600/1000 8700/3000 9000/6000 9000/9000 9000/12000\n\
35000 6200/0 8300/1000 8950/3000 9000/6000 9000/9000 9000/12000\n\
40000 6800/0 8600/1000 9000/3000 9000/6000 9000/9000 9000/12000\n\
45000 7000/0 8700/1000 9000/3000 9000/6000 9000/9000 9000/12000\n\
50000 7000/0 8700/1000 9000/3000 9000/6000 9000/9000 9000/12000\n\
55000 7000/0 8700/1000 9000/3000 9000/6000 9000/9000 9000/12000\n\
60000 6800/0 8600/1000 9000/3000 9000/6000 9000/9000 9000/12000\n\
65000 6300/0 8300/1000 8950/3000 9000/6000 9000/9000 9000/12000\n\
70000 5400/0 7700/1000 8700/3000 8950/6000 9000/9000 9000/12000\n\
75000 4200/0 6600/1000 8000/3000 8600/6000 8850/9000 9000/12000\n\
80000 2900/0 5200/1000 6900/3000 7800/6000 8300/9000 8800/12000\n\
85000 1700/0 3600/1000 5300/3000 6400/6000 7200/9000 8200/12000\n\
90000 800/0 2200/1000 3500/3000 4600/6000 5600/9000 7100/12000\n\
95000 200/0 900/1000 1700/3000 2500/6000 3500/9000 5200/12000\n\
102000 0/12000";

// The margin point of the barge in grid units.
const MARGIN_POINT: i64 = 9924 * 1024;

// Half of the barge is under water.
const HALF: Loading = Loading {
    mass: 10_250_000,
    mx: 512_500_000_000,
    my: 0,
    mz: 93_275_000_000,
};

fn hull_of(alloc: Global, text: &str) -> Result<Option<Hull>, Fail> {
    let mut stations = Vec::new(alloc);
    for line in text.lines() {
        let mut x = 0;
        let mut points = Vec::new(alloc);
        for word in line.split(' ') {
            match word.split_once('/') {
                Some((y, z)) => points.push(Point {
                    y: y.parse()?,
                    z: z.parse()?,
                })?,
                None => x = word.parse()?,
            }
        }
        stations.push(Station {
            x,
            points: Points::new(points),
        })?;
    }
    Ok(Hull::of(stations))
}

// In sea water and with the least margin.
fn reach(
    rt: &impl Abort,
    alloc: Global,
    text: &str,
    loading: &Loading,
    centre: i64,
    step: i64,
    permeability: u32,
) -> Result<Reach, Fail>
    requires centre { IsWithin (pos 524287) centre }
    requires step { (pos 2 ≤ℤ step) × (step ≤ℤ pos 100000) }
    requires even { nat_abs step % 2 ≡ 0 }
    requires permeability { permeability ≤ 1000 }
{
    let hull = hull_of(alloc, text)?.expect(rt, "a hull");
    let faces = faces_of(alloc, &hull)?;
    let water = Water {
        density: 1025,
        length_bp: 100000,
    };
    Ok(floodable(
        alloc,
        &hull,
        &faces,
        loading,
        &water,
        76,
        centre,
        step,
        permeability,
    )?)
}

fn length(reach: &Reach) -> Option<i64> {
    match reach.safe {
        Some((length, _)) => Some(length),
        None => None,
    }
}

// The length, the station and the box of the next length, where that is over.
fn over(reach: &Reach) -> Option<(i64, u32, DraftBox)> {
    match reach.next.1 {
        Reason::Over { station, at } => Some((reach.next.0, station, at)),
        _ => None,
    }
}

fn touched(reach: &Reach) -> Option<(i64, u32, DraftBox)> {
    match reach.next.1 {
        Reason::Touch { station, at } => Some((reach.next.0, station, at)),
        _ => None,
    }
}

// 10000 m³ on the 1008 m² that are left are 9.9206 m.
#[test]
fn the_middle_of_a_barge(rt: HostRuntime) -> Result<(), Fail> {
    let reach = reach(&rt, rt.alloc(), BARGE, &HALF, 50000, 100, 1000)?;
    match reach.safe {
        Some((length, at)) => {
            assert_eq!(rt; length, 49600);
            assert!(rt; at.a1 <= 10158730 && 10158731 <= at.a2);
            assert!(rt; at.f1 <= 10158730 && 10158731 <= at.f2);
            assert!(rt; at.a2 <= MARGIN_POINT && at.f2 <= MARGIN_POINT);
        }
        None => assert!(rt; false),
    }
    let (length, station, at) = over(&reach).expect(&rt, "over");
    assert_eq!(rt; (length, station), (49700, 0));
    assert!(rt; at.a1 > MARGIN_POINT);
    Ok(())
}

// Slabs of 500 mm, 200 mm and less from an end, and about a centre beyond the ship.
#[test]
fn centres_at_the_ends_of_a_barge(rt: HostRuntime) -> Result<(), Fail> {
    let at_200 = reach(&rt, rt.alloc(), BARGE, &HALF, 200, 500, 1000)?;
    assert_eq!(rt;
        (length(&at_200), at_200.next),
        (Some(0), (500, Reason::EndOfShip))
    );
    let at_99900 = reach(&rt, rt.alloc(), BARGE, &HALF, 99900, 500, 1000)?;
    assert_eq!(rt;
        (length(&at_99900), at_99900.next),
        (Some(0), (500, Reason::EndOfShip))
    );
    let beyond = reach(&rt, rt.alloc(), BARGE, &HALF, 120000, 500, 1000)?;
    assert_eq!(rt;
        (length(&beyond), beyond.next),
        (Some(0), (500, Reason::EndOfShip))
    );
    Ok(())
}

// The slab from the first station on is within the ship.
#[test]
fn a_slab_that_ends_at_a_station(rt: HostRuntime) -> Result<(), Fail> {
    let reach = reach(&rt, rt.alloc(), BARGE, &HALF, 1000, 500, 1000)?;
    assert_eq!(rt;
        (length(&reach), reach.next),
        (Some(2000), (2500, Reason::EndOfShip))
    );
    Ok(())
}

// 8000 m³ are left of a barge that needs 10000.
#[test]
fn a_length_that_sinks(rt: HostRuntime) -> Result<(), Fail> {
    let reach = reach(&rt, rt.alloc(), BARGE, &HALF, 50000, 60000, 1000)?;
    assert_eq!(rt;
        (length(&reach), reach.next),
        (Some(0), (60000, Reason::Sinks))
    );
    Ok(())
}

// It floats at 9976 mm, above the margin line.
#[test]
fn a_barge_that_is_too_deep(rt: HostRuntime) -> Result<(), Fail> {
    let loading = Loading {
        mass: 20_450_000,
        mx: 1_022_500_000_000,
        my: 0,
        mz: 0,
    };
    let reach = reach(&rt, rt.alloc(), BARGE, &loading, 50000, 100, 1000)?;
    assert!(rt; reach.safe.is_none());
    let (length, station, at) = over(&reach).expect(&rt, "over");
    assert_eq!(rt; (length, station), (0, 0));
    assert!(rt; at.a1 > MARGIN_POINT);
    Ok(())
}

// It floats half a grid unit above the margin line.
#[test]
fn a_barge_that_touches(rt: HostRuntime) -> Result<(), Fail> {
    let loading = Loading {
        mass: 20_344_201,
        mx: 1_017_210_050_000,
        my: 0,
        mz: 0,
    };
    let reach = reach(&rt, rt.alloc(), BARGE, &loading, 50000, 100, 1000)?;
    assert!(rt; reach.safe.is_none());
    let (length, station, at) = touched(&reach).expect(&rt, "touched");
    assert_eq!(rt; (length, station), (0, 0));
    assert!(rt; at.a1 <= MARGIN_POINT && at.a2 > MARGIN_POINT);
    Ok(())
}

#[test]
fn a_barge_that_is_too_heavy(rt: HostRuntime) -> Result<(), Fail> {
    let loading = Loading {
        mass: 20_500_001,
        mx: 1_025_000_050_000,
        my: 0,
        mz: 0,
    };
    let reach = reach(&rt, rt.alloc(), BARGE, &loading, 50000, 100, 1000)?;
    assert_eq!(rt; (length(&reach), reach.next), (None, (0, Reason::Sinks)));
    Ok(())
}

// All of it stands at the last station.
#[test]
fn a_load_that_no_waterplane_carries(rt: HostRuntime) -> Result<(), Fail> {
    let loading = Loading {
        mass: 15_375_000,
        mx: 1_537_500_000_000,
        my: 0,
        mz: 0,
    };
    let reach = reach(&rt, rt.alloc(), BARGE, &loading, 50000, 100, 1000)?;
    assert_eq!(rt; (length(&reach), reach.next), (None, (0, Reason::NoStart)));
    Ok(())
}

// The example's own load. Aft the first station is under, forward the last.
#[test]
fn the_cargo_ship(rt: HostRuntime) -> Result<(), Fail> {
    let loading = Loading {
        mass: 8_380_000,
        mx: 415_160_000_000,
        my: 0,
        mz: 49_930_000_000,
    };
    let aft = reach(&rt, rt.alloc(), CARGO, &loading, 30000, 1000, 800)?;
    let (next, station, at) = over(&aft).expect(&rt, "over");
    assert_eq!(rt; (length(&aft), next, station), (Some(29000), 30000, 0));
    assert!(rt; at.a1 <= 12464922 && 12464922 <= at.a2);
    assert!(rt; at.f1 <= 5562302 && 5562302 <= at.f2);
    let fore = reach(&rt, rt.alloc(), CARGO, &loading, 60000, 1000, 800)?;
    let (next, station, at) = over(&fore).expect(&rt, "over");
    assert_eq!(rt; (length(&fore), next, station), (Some(31000), 32000, 20));
    assert!(rt; at.a1 <= 7284701 && 7284701 <= at.a2);
    assert!(rt; at.f1 <= 12257166 && 12257166 <= at.f2);
    Ok(())
}
