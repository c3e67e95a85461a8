// A barge of 100 m by 20 m by 10 m that floats at 5 m with 10250 t, half a metre off the centreplane.
mod cargo;

use crate::{arms, upright};
use draft_bracket::TooHeavy;
use exact_fraction::Ratio;
use hull_model::{Hull, Point, Points, Station, Water};
use hull_polyhedron::{Faces, faces_of};
use job_reader::Item;
use loading_sheet::{Loading, load};
use outward_interval::{Encloses, Span};
use std::alloc::Global;
use std::test::Fail;

fn barge(alloc: Global) -> Result<Option<Faces>, Fail> {
    let mut stations = Vec::new(alloc);
    for x in [0, 50000, 100000] {
        let mut points = Vec::new(alloc);
        points.push(Point { y: 10000, z: 0 })?;
        points.push(Point { y: 10000, z: 10000 })?;
        stations.push(Station {
            x,
            points: Points::new(points),
        })?;
    }
    faces_with(alloc, stations)
}

fn faces_with(alloc: Global, stations: Vec<Station>) -> Result<Option<Faces>, Fail> {
    match Hull::of(stations) {
        Some(hull) => Ok(Some(faces_of(alloc, &hull)?)),
        None => Ok(None),
    }
}

fn holds(span: Span<20>, num: i128, den: i128) -> Result<bool, Fail> {
    let ratio = Ratio::new(num, den).ok_or("no ratio")?;
    let (lo, hi) = (span.lo(), span.hi());
    Ok(
        lo.unsigned_abs() < 1 << 90
            && hi.unsigned_abs() < 1 << 90
            && span.meets(&ratio)
            && hi.saturating_sub(lo) < 1 << 16,
    )
}

// A mass in kg at a height of 7 m, half a metre to starboard.
fn loaded(mass: u64) -> Result<Loading, Fail> {
    loaded_at(mass, 7000)
}

fn loaded_at(mass: u64, z: i64) -> Result<Loading, Fail> {
    if 1 <= mass && mass <= 1 << 36 && 0 <= z && z <= 65535 {
        let items = [Item {
            mass,
            x: 50000,
            y: 500,
            z,
            free_surface: 0,
        }];
        Ok(load(&items).ok().ok_or("no loading")?)
    } else {
        Err("no mass")?
    }
}

const WATER: Water = Water {
    density: 1025,
    length_bp: 100000,
};

// At some degrees the levers and the separations, each to port and to starboard, as an exact computation over fractions
// found them at a plane of the bracket: the floors in units of 2^-20 mm.
const LEVERS: &str = "\
0 524288000 -524288000 4718592000 4718592000\n\
30 2054076442 1145982960 5355130978 4830843027\n\
60 557672687 33384673 6169214098 5261120652\n\
90 -2097152000 -2097152000 5767168000 4718592000";

fn is_near(span: Span<20>, word: Option<&str>) -> Result<bool, Fail> {
    let floor: i128 = word.ok_or("no figure")?.parse()?;
    Ok(span.lo() <= floor && floor <= span.hi() && span.units() <= 1 << 16)
}

#[test]
fn levers_of_a_barge(rt: HostRuntime) -> Result<(), Fail> {
    let faces = barge(rt.alloc())?.expect(&rt, "a hull");
    let table = arms(&faces, &loaded(10_250_000)?, &WATER)
        .ok()
        .expect(&rt, "arms");
    for line in LEVERS.lines() {
        let mut words = line.split(' ');
        let k: usize = words.next().ok_or("no degree")?.parse()?;
        let row = table.rows.get(k).ok_or("no row")?;
        assert!(rt; is_near(row.gz[0], words.next())?, "{line}");
        assert!(rt; is_near(row.gz[1], words.next())?, "{line}");
        assert!(rt; is_near(row.sep[0], words.next())?, "{line}");
        assert!(rt; is_near(row.sep[1], words.next())?, "{line}");
    }
    Ok(())
}

#[test]
fn heights_of_a_barge_upright(rt: HostRuntime) -> Result<(), Fail> {
    let faces = barge(rt.alloc())?.expect(&rt, "a hull");
    let row = upright(&faces, &loaded(10_250_000)?, &WATER)
        .ok()
        .expect(&rt, "a row");
    assert!(rt; row.drafts.d1 <= 5_120_000 && 5_120_000 <= row.drafts.d2);
    assert!(rt; holds(row.kb, 2500, 1)?);
    assert!(rt; holds(row.bm, 20000, 3)?);
    assert!(rt; holds(row.gm, 6500, 3)?);
    Ok(())
}

// The centre at 9.1 m: GM is 2500 + 20000/3 - 9100 mm.
#[test]
fn a_high_centre_of_a_barge_upright(rt: HostRuntime) -> Result<(), Fail> {
    let faces = barge(rt.alloc())?.expect(&rt, "a hull");
    let row = upright(&faces, &loaded_at(10_250_000, 9100)?, &WATER)
        .ok()
        .expect(&rt, "a row");
    assert!(rt; holds(row.gm, 200, 3)?);
    Ok(())
}

#[test]
fn a_barge_too_heavy(rt: HostRuntime) -> Result<(), Fail> {
    let faces = barge(rt.alloc())?.expect(&rt, "a hull");
    let heavy = loaded(20_500_001)?;
    let six = 120_000_000_000_000;
    assert_eq!(rt; arms(&faces, &heavy, &WATER).err(), Some(TooHeavy { six }));
    assert_eq!(rt;
        upright(&faces, &heavy, &WATER).err(),
        Some(TooHeavy { six })
    );
    Ok(())
}
