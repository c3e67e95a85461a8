// Flooded slabs. The values were computed by a program that cuts the tetrahedra by exact fractions.
use crate::{FloodedHull, flood, left, left_at};
use angle_bounds::{Triple, exact};
use flux_moments::{PlaneBox, Wet, measure};
use hull_model::{Hull, Point, Points, Slab, Station};
use hull_polyhedron::{Faces, faces_of};
use outward_interval::Span;
use std::alloc::Global;
use std::process::Abort;
use std::test::Fail;

const HEELED: Triple = Triple { c: 12, s: 5, r: 13 };

// A station on each line: x, and half-breadths over heights.
const BARGE: &str = "\
0 10000/0 10000/10000\n\
50000 10000/0 10000/10000\n\
100000 10000/0 10000/10000";

const CARGO: &str = "\
0 0/0 0/1000 0/3000 1500/6000 6000/9000 7500/12000\n\
5000 0/0 400/1000 900/3000 3800/6000 7300/9000 8200/12000\n\
10000 200/0 1200/1000 2500/3000 5900/6000 8300/9000 8700/12000\n\
15000 800/0 2600/1000 4600/3000 7500/6000 8800/9000 8950/12000\n\
20000 1900/0 4400/1000 6500/3000 8500/6000 9000/9000 9000/12000\n\
25000 3400/0 6200/1000 7900/3000 8900/6000 9000/9000 9000/12000\n\
30000 5000/0 7600/1000 8700/3000 9000/6000 9000/9000 9000/12000\n\
35000 6200/0 8300/1000 8950/3000 9000/6000 9000/9000 9000/12000\n\
40000 6800/0 8600/1000 9000/3000 9000/6000 9000/9000 9000/12000\n\
45000 7000/0 8700/1000 9000/3000 9000/6000 9000/9000 9000/12000\n\
50000 7000/0 8700/1000 9000/3000 9000/6000 9000/9000 9000/12000\n\
55000 7000/0 8700/1000 9000/3000 9000/6000 9000/9000 9000/12000\n\
60000 6800/0 8600/1000 9000/3000 9000/6000 9000/9000 9000/12000\n\
65000 6300/0 8300/1000 8950/3000 9000/6000 9000/9000 9000/12000\n\
70000 5400/0 7700/1000 8700/3000 8950/6000 9000/9000 9000/12000\n\
75000 4200/0 6600/1000 8000/3000 8600/6000 8850/9000 9000/12000\n\
80000 2900/0 5200/1000 6900/3000 7800/6000 8300/9000 8800/12000\n\
85000 1700/0 3600/1000 5300/3000 6400/6000 7200/9000 8200/12000\n\
90000 800/0 2200/1000 3500/3000 4600/6000 5600/9000 7100/12000\n\
95000 200/0 900/1000 1700/3000 2500/6000 3500/9000 5200/12000\n\
102000 0/12000";

// Of each plane the levels in grid units at the first station and at the last, and of the volume, mx, mv and mu that
// are left the floor and the ceiling in units of 2^-20. Of the barge without its last tenth: 9000 m³ and 405000 m⁴.
const WITHOUT_A_TENTH: &str =
    "5120000 5120000 9437184000000000000 9437184000000000000 424673280000000000000000 424673280000000000000000 0 0 23592960000000000000000 23592960000000000000000";

const WHOLE: &str =
    "5120000 5120000 10485760000000000000 10485760000000000000 524288000000000000000000 524288000000000000000000 0 0 26214400000000000000000 26214400000000000000000";

// Half of the last tenth is left, and nothing of the one before.
const WITHOUT_TWO: &str =
    "5120000 5120000 8912896000000000000 8912896000000000000 385351680000000000000000 385351680000000000000000 0 0 22282240000000000000000 22282240000000000000000";

const CARGO_LEFT: &str = "\
6144000 6144000 5123121632994521212 5123121632994521213 240229728884832664095500 240229728884832664095501 0 0 16559968660933042424242 16559968660933042424243\n\
5120000 7168000 5031930379860757908 5031930379860757909 247362636021629901482775 247362636021629901482776 0 0 16127364587723871057363 16127364587723871057364\n\
7168000 4608000 5020662396848576567 5020662396848576568 221027295102648737640145 221027295102648737640146 0 0 16129245306222306501831 16129245306222306501832\n\
9216000 9216000 8333988740623515151 8333988740623515152 384145648404944514233241 384145648404944514233242 0 0 40727184818632766060606 40727184818632766060607";

const CARGO_HEELED: &str =
    "6144000 6144000 5736700768452804561 5736700768452804562 266415767281898860190815 266415767281898860190816 17596871552120175913082 17596871552120175913083 16984717534039689649932 16984717534039689649933";

fn hull_of(alloc: Global, text: &str) -> Result<Option<Hull>, Fail> {
    let mut stations = Vec::new(alloc);
    for line in text.lines() {
        let mut x = 0;
        let mut points = Vec::new(alloc);
        for word in line.split(' ') {
            match word.split_once('/') {
                Some((y, z)) => points.push(Point {
                    y: y.parse()?,
                    z: z.parse()?,
                })?,
                None => x = word.parse()?,
            }
        }
        stations.push(Station {
            x,
            points: Points::new(points),
        })?;
    }
    Ok(Hull::of(stations))
}

fn faces_from(alloc: Global, text: &str) -> Result<Option<Faces>, Fail> {
    match hull_of(alloc, text)? {
        Some(hull) => Ok(Some(faces_of(alloc, &hull)?)),
        None => Ok(None),
    }
}

fn is_around(span: Span<20>, low: i128, high: i128, width: i128) -> bool {
    span.lo() <= low && high <= span.hi() && span.hi().saturating_sub(span.lo()) <= width
}

// Whether the spans hold the values and are so narrow, for the integrals times 2^17 mm.
fn hold(wet: &Wet, cells: &[i128], width: i128) -> bool {
    let far = width.saturating_mul(1 << 17);
    cells.len() == 8
        && is_around(wet.volume, cells[0], cells[1], width)
        && is_around(wet.mx, cells[2], cells[3], far)
        && is_around(wet.mv, cells[4], cells[5], far)
        && is_around(wet.mu, cells[6], cells[7], far)
}

// Whether that of the upright plane with these levels holds the first four values.
fn hold_upright(flooded: &FloodedHull, aft: i64, fore: i64, cells: &[i128], width: i128) -> bool {
    if aft.unsigned_abs() > 1 << 30 || fore.unsigned_abs() > 1 << 30 || cells.len() != 8 {
        return false;
    }
    let wet = left_at(flooded, aft, fore);
    is_around(wet.volume, cells[0], cells[1], width)
        && is_around(wet.mx, cells[2], cells[3], width.saturating_mul(1 << 17))
}

// What is left at the planes of a table, level where the hull is heeled, is no wider than a cubic metre.
fn check(
    rt: &impl Abort,
    alloc: Global,
    flooded: &FloodedHull,
    table: &str,
    heeled: bool,
) -> Result<(), Fail> {
    for line in table.lines() {
        let mut words = line.split(' ');
        let aft = words.next().expect(rt, "a level").parse()?;
        let fore = words.next().expect(rt, "a level").parse()?;
        let mut cells = Vec::new(alloc);
        for word in words {
            cells.push(word.parse()?)?;
        }
        let planes = if heeled {
            PlaneBox::level(exact(HEELED), aft, fore)
        } else {
            PlaneBox::upright(aft, aft, fore, fore)
        };
        let wet = left(flooded, &planes.expect(rt, "levels"));
        assert!(rt; hold(&wet, &cells, 1000000000 << 20), "{line}");
        assert!(rt;
            heeled || hold_upright(flooded, aft, fore, &cells, 1000000000 << 20),
            "{line}"
        );
    }
    Ok(())
}

#[test]
fn the_last_tenth_of_a_barge(rt: HostRuntime) -> Result<(), Fail> {
    let faces = faces_from(rt.alloc(), BARGE)?.expect(&rt, "a hull");
    let slab = Slab::new(90000, 100000, 1000).expect(&rt, "a slab");
    let flooded = flood(rt.alloc(), &faces, &[slab])?;
    check(&rt, rt.alloc(), &flooded, WITHOUT_A_TENTH, false)?;
    assert_eq!(rt; flooded.faces().last_x(), 100000);
    Ok(())
}

#[test]
fn a_slab_that_reaches_past_the_hull(rt: HostRuntime) -> Result<(), Fail> {
    let faces = faces_from(rt.alloc(), BARGE)?.expect(&rt, "a hull");
    let slab = Slab::new(90000, 120000, 1000).expect(&rt, "a slab");
    let flooded = flood(rt.alloc(), &faces, &[slab])?;
    check(&rt, rt.alloc(), &flooded, WITHOUT_A_TENTH, false)
}

#[test]
fn nothing_floods(rt: HostRuntime) -> Result<(), Fail> {
    let faces = faces_from(rt.alloc(), BARGE)?.expect(&rt, "a hull");
    let slab = Slab::new(90000, 100000, 0).expect(&rt, "a slab");
    check(
        &rt,
        rt.alloc(),
        &flood(rt.alloc(), &faces, &[slab])?,
        WHOLE,
        false,
    )?;
    let intact = flood(rt.alloc(), &faces, &[])?;
    let planes = PlaneBox::upright(5120000, 5120000, 5120000, 5120000).expect(&rt, "levels");
    assert_eq!(rt; left(&intact, &planes), measure(&faces, &planes));
    Ok(())
}

#[test]
fn two_slabs_that_touch(rt: HostRuntime) -> Result<(), Fail> {
    let faces = faces_from(rt.alloc(), BARGE)?.expect(&rt, "a hull");
    let aft = Slab::new(80000, 90000, 1000).expect(&rt, "a slab");
    let fore = Slab::new(90000, 100000, 500).expect(&rt, "a slab");
    let flooded = flood(rt.alloc(), &faces, &[aft, fore])?;
    check(&rt, rt.alloc(), &flooded, WITHOUT_TWO, false)
}

// The forehold, the midhold and the engine room of the example.
#[test]
fn three_compartments_of_the_cargo_ship(rt: HostRuntime) -> Result<(), Fail> {
    let faces = faces_from(rt.alloc(), CARGO)?.expect(&rt, "a hull");
    let forehold = Slab::new(70000, 85000, 700).expect(&rt, "a slab");
    let midhold = Slab::new(50000, 66000, 700).expect(&rt, "a slab");
    let engine_room = Slab::new(10000, 20000, 850).expect(&rt, "a slab");
    let flooded = flood(rt.alloc(), &faces, &[forehold, midhold, engine_room])?;
    check(&rt, rt.alloc(), &flooded, CARGO_LEFT, false)?;
    check(&rt, rt.alloc(), &flooded, CARGO_HEELED, true)
}
