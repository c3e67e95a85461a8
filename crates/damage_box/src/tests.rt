// Flooded barges, worked by hand, and the example's cargo ship.
use crate::{Corner, DraftBox, SettleFault, Tip, settle};
use compartment_loss::flood;
use hull_model::{Hull, Point, Points, Slab, Station, Water};
use hull_polyhedron::{Faces, faces_of};
use loading_sheet::Loading;
use std::alloc::Global;
use std::process::Abort;
use std::test::Fail;

// Sea water, and 10250 t of which 10000 m³ are displaced, at half the length.
const SEA: Water = Water {
    density: 1025,
    length_bp: 100_000,
};

const AMIDSHIPS: Loading = Loading {
    mass: 10_250_000,
    mx: 512_500_000_000,
    my: 0,
    mz: 93_275_000_000,
};

// The same, 200 m ahead of the first station.
const AHEAD: Loading = Loading {
    mass: 10_250_000,
    mx: 2_050_000_000_000,
    my: 0,
    mz: 93_275_000_000,
};

const AFT: Loading = Loading {
    mass: 10_250_000,
    mx: 0,
    my: 0,
    mz: 93_275_000_000,
};

const EIGHT_THOUSAND: i128 = 8_000_000_000_000 << 20;

// A box of 100 m by 20 m by 10 m.
fn barge(alloc: Global) -> Result<Option<Faces>, Fail> {
    let mut stations = Vec::new(alloc);
    for x in [0, 50_000, 100_000] {
        let mut points = Vec::new(alloc);
        points.push(Point { y: 10_000, z: 0 })?;
        points.push(Point {
            y: 10_000,
            z: 10_000,
        })?;
        stations.push(Station {
            x,
            points: Points::new(points),
        })?;
    }
    match Hull::of(stations) {
        Some(hull) => Ok(Some(faces_of(alloc, &hull)?)),
        None => Ok(None),
    }
}

// The box of the barge with a slab flooded.
fn settled(
    rt: &impl Abort,
    alloc: Global,
    slab: Option<Slab>,
    loading: &Loading,
) -> Result<Result<DraftBox, SettleFault>, Fail> {
    let faces = barge(alloc)?.expect(rt, "a hull");
    let flooded = match slab {
        Some(slab) => flood(alloc, &faces, &[slab])?,
        None => flood(alloc, &faces, &[])?,
    };
    Ok(settle(&flooded, loading, &SEA))
}

// Whether a level of n / d mm lies between two in grid units.
fn holds(low: i64, high: i64, n: i128, d: i128) -> bool {
    i128::from(low).saturating_mul(d) <= n.saturating_mul(1024)
        && n.saturating_mul(1024) <= i128::from(high).saturating_mul(d)
}

// Whether the sides are a few grid units apart, with levels of n / d mm at both stations between them.
fn is_around(found: &DraftBox, aft: (i128, i128), fore: (i128, i128)) -> bool {
    holds(found.a1, found.a2, aft.0, aft.1)
        && holds(found.f1, found.f2, fore.0, fore.1)
        && found.a2.saturating_sub(found.a1) <= 4
        && found.f2.saturating_sub(found.f1) <= 4
}

// Whether a corner lies at these levels, or at most two grid units higher.
fn is_at(corner: &Corner, a: i64, f: i64) -> bool {
    let by = corner.a.saturating_sub(a);
    by == corner.f.saturating_sub(f) && 0 <= by && by <= 2
}

// The barge with a slab flooded floats with these levels.
fn floats(
    rt: &impl Abort,
    alloc: Global,
    slab: Option<Slab>,
    aft: (i128, i128),
    fore: (i128, i128),
) -> Result<bool, Fail> {
    match settled(rt, alloc, slab, &AMIDSHIPS)? {
        Ok(found) => Ok(is_around(&found, aft, fore)),
        Err(_) => Ok(false),
    }
}

#[test]
fn a_barge_with_its_last_tenth_flooded(rt: HostRuntime) -> Result<(), Fail> {
    let slab = Slab::new(90_000, 100_000, 1000);
    assert!(rt; floats(&rt, rt.alloc(), slab, (100_000, 27), (1_900_000, 243))?);
    Ok(())
}

#[test]
fn a_slab_that_lets_no_water_in(rt: HostRuntime) -> Result<(), Fail> {
    let slab = Slab::new(90_000, 100_000, 0);
    assert!(rt; floats(&rt, rt.alloc(), slab, (5000, 1), (5000, 1))?);
    Ok(())
}

#[test]
fn a_barge_with_no_slab_flooded(rt: HostRuntime) -> Result<(), Fail> {
    assert!(rt; floats(&rt, rt.alloc(), None, (5000, 1), (5000, 1))?);
    Ok(())
}

// 8000 m³ are left.
#[test]
fn a_barge_that_sinks(rt: HostRuntime) -> Result<(), Fail> {
    let slab = Slab::new(0, 60_000, 1000);
    match settled(&rt, rt.alloc(), slab, &AMIDSHIPS)? {
        Err(SettleFault::Sinks { left }) => {
            assert!(rt; left.lo() <= EIGHT_THOUSAND && EIGHT_THOUSAND <= left.hi());
        }
        _ => assert!(rt; false),
    }
    Ok(())
}

// The load lies ahead of all that is left, or as far aft as that reaches: so no candidate qualifies, and the first is the
// plane of 16 mm at the draft of 5 m.
#[test]
fn a_load_ahead_of_the_barge(rt: HostRuntime) -> Result<(), Fail> {
    match settled(&rt, rt.alloc(), None, &AHEAD)? {
        Err(SettleFault::NoStart { tip, tried }) => {
            assert_eq!(rt; tip, Tip::Fore);
            assert!(rt; is_at(&tried[0], 5_111_808, 5_128_192));
        }
        _ => assert!(rt; false),
    }
    Ok(())
}

#[test]
fn a_load_at_the_first_station_of_the_barge(rt: HostRuntime) -> Result<(), Fail> {
    match settled(&rt, rt.alloc(), None, &AFT)? {
        Err(SettleFault::NoStart { tip, tried }) => {
            assert_eq!(rt; tip, Tip::Aft);
            assert!(rt; is_at(&tried[0], 5_128_192, 5_111_808));
        }
        _ => assert!(rt; false),
    }
    Ok(())
}

// A station on each line: x, and half-breadths over heights.
const CARGO: &str = "\
0 0/0 0/1000 0/3000 1500/6000 6000/9000 7500/12000\n\
5000 0/0 400/1000 900/3000 3800/6000 7300/9000 8200/12000\n\
10000 200/0 1200/1000 2500/3000 5900/6000 8300/9000 8700/12000\n\
15000 800/0 2600/1000 4600/3000 7500/6000 8800/9000 8950/12000\n\
20000 1900/0 4400/1000 6500/3000 8500/6000 9000/9000 9000/12000\n\
25000 3400/0 6200/1000 7900/3000 8900/6000 9000/9000 9000/12000\n\
30000 5000/0 7600/1000 8700/3000 9000/6000 9000/9000 9000/12000\n\
35000 6200/0 8300/1000 8950/3000 9000/6000 9000/9000 9000/12000\n\
40000 6800/0 8600/1000 9000/3000 9000/6000 9000/9000 9000/12000\n\
45000 7000/0 8700/1000 9000/3000 9000/6000 9000/9000 9000/12000\n\
50000 7000/0 8700/1000 9000/3000 9000/6000 9000/9000 9000/12000\n\
55000 7000/0 8700/1000 9000/3000 9000/6000 9000/9000 9000/12000\n\
60000 6800/0 8600/1000 9000/3000 9000/6000 9000/9000 9000/12000\n\
65000 6300/0 8300/1000 8950/3000 9000/6000 9000/9000 9000/12000\n\
70000 5400/0 7700/1000 8700/3000 8950/6000 9000/9000 9000/12000\n\
75000 4200/0 6600/1000 8000/3000 8600/6000 8850/9000 9000/12000\n\
80000 2900/0 5200/1000 6900/3000 7800/6000 8300/9000 8800/12000\n\
85000 1700/0 3600/1000 5300/3000 6400/6000 7200/9000 8200/12000\n\
90000 800/0 2200/1000 3500/3000 4600/6000 5600/9000 7100/12000\n\
95000 200/0 900/1000 1700/3000 2500/6000 3500/9000 5200/12000\n\
102000 0/12000";

// The example's load.
const DEPARTURE: Loading = Loading {
    mass: 8_380_000,
    mx: 415_160_000_000,
    my: 0,
    mz: 49_710_000_000,
};

fn hull_of(alloc: Global, text: &str) -> Result<Option<Hull>, Fail> {
    let mut stations = Vec::new(alloc);
    for line in text.lines() {
        let mut x = 0;
        let mut points = Vec::new(alloc);
        for word in line.split(' ') {
            match word.split_once('/') {
                Some((y, z)) => points.push(Point {
                    y: y.parse()?,
                    z: z.parse()?,
                })?,
                None => x = word.parse()?,
            }
        }
        stations.push(Station {
            x,
            points: Points::new(points),
        })?;
    }
    Ok(Hull::of(stations))
}

fn faces_from(alloc: Global, text: &str) -> Result<Option<Faces>, Fail> {
    match hull_of(alloc, text)? {
        Some(hull) => Ok(Some(faces_of(alloc, &hull)?)),
        None => Ok(None),
    }
}

// Whether the cargo ship with a slab flooded has a box within these levels, which a search by exact fractions gave, or a grid
// unit past them.
fn is_within(
    rt: &impl Abort,
    alloc: Global,
    slab: Option<Slab>,
    aft: (i64, i64),
    fore: (i64, i64),
) -> Result<bool, Fail> {
    let faces = faces_from(alloc, CARGO)?.expect(rt, "a hull");
    let flooded = flood(alloc, &faces, &[slab.expect(rt, "a slab")])?;
    match settle(&flooded, &DEPARTURE, &SEA) {
        Ok(found) => Ok(
            aft.0.saturating_sub(1) <= found.a1
                && found.a2 <= aft.1.saturating_add(1)
                && fore.0.saturating_sub(1) <= found.f1
                && found.f2 <= fore.1.saturating_add(1),
        ),
        Err(_) => Ok(false),
    }
}

#[test]
fn the_cargo_ship_with_its_forehold_flooded(rt: HostRuntime) -> Result<(), Fail> {
    let slab = Slab::new(70_000, 85_000, 700);
    assert!(rt;
        is_within(
            &rt,
            rt.alloc(),
            slab,
            (5_837_188, 5_837_191),
            (9_468_601, 9_468_604)
        )?
    );
    Ok(())
}

#[test]
fn the_cargo_ship_with_its_engine_room_flooded(rt: HostRuntime) -> Result<(), Fail> {
    let slab = Slab::new(10_000, 20_000, 850);
    assert!(rt;
        is_within(
            &rt,
            rt.alloc(),
            slab,
            (8_516_632, 8_516_635),
            (5_644_566, 5_644_569)
        )?
    );
    Ok(())
}
