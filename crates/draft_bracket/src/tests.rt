// Draft brackets of a box of 100 m by 20 m by 10 m, by hand, and of a cargo ship of 102 m, whose levels an exact
// computation over fractions found.
ghost use Rattle.std.specs.Prelude.{◌≤◌};
ghost use Rattle.draft_bracket.specs.DraftBracket.{IsNeed};

use crate::{Drafts, Guess, TooHeavy, float_at, float_near};
use angle_bounds::{Degree, bracket_of};
use exact_fraction::Ratio;
use hull_model::{Hull, Point, Points, Station};
use hull_polyhedron::{Faces, faces_of};
use std::alloc::Global;
use std::process::Abort;
use std::test::Fail;

// Stations by x, with half-breadths at heights.
const BARGE: &str = "\
0 10000,0 10000,10000\n\
50000 10000,0 10000,10000\n\
100000 10000,0 10000,10000";

const CARGO: &str = "\
0 0,0 0,1000 0,3000 1500,6000 6000,9000 7500,12000\n\
5000 0,0 400,1000 900,3000 3800,6000 7300,9000 8200,12000\n\
10000 200,0 1200,1000 2500,3000 5900,6000 8300,9000 8700,12000\n\
15000 800,0 2600,1000 4600,3000 7500,6000 8800,9000 8950,12000\n\
20000 1900,0 4400,1000 6500,3000 8500,6000 9000,9000 9000,12000\n\
25000 3400,0 6200,1000 7900,3000 8900,6000 9000,9000 9000,12000\n\
30000 5000,0 7600,1000 8700,3000 9000,6000 9000,9000 9000,12000\n\
35000 6200,0 8300,1000 8950,3000 9000,6000 9000,9000 9000,12000\n\
40000 6800,0 8600,1000 9000,3000 9000,6000 9000,9000 9000,12000\n\
45000 7000,0 8700,1000 9000,3000 9000,6000 9000,9000 9000,12000\n\
50000 7000,0 8700,1000 9000,3000 9000,6000 9000,9000 9000,12000\n\
55000 7000,0 8700,1000 9000,3000 9000,6000 9000,9000 9000,12000\n\
60000 6800,0 8600,1000 9000,3000 9000,6000 9000,9000 9000,12000\n\
65000 6300,0 8300,1000 8950,3000 9000,6000 9000,9000 9000,12000\n\
70000 5400,0 7700,1000 8700,3000 8950,6000 9000,9000 9000,12000\n\
75000 4200,0 6600,1000 8000,3000 8600,6000 8850,9000 9000,12000\n\
80000 2900,0 5200,1000 6900,3000 7800,6000 8300,9000 8800,12000\n\
85000 1700,0 3600,1000 5300,3000 6400,6000 7200,9000 8200,12000\n\
90000 800,0 2200,1000 3500,3000 4600,6000 5600,9000 7100,12000\n\
95000 200,0 900,1000 1700,3000 2500,6000 3500,9000 5200,12000\n\
102000 0,12000";

// Two wedges, keel to keel, with a plate of no breadth from 4 m to 6 m of height between them.
const WAIST: &str = "\
0 10000,0 0,4000 0,6000 10000,10000\n\
50000 10000,0 0,4000 0,6000 10000,10000\n\
100000 10000,0 0,4000 0,6000 10000,10000";

// A mass in kg in water of 1025 kg/m³, a degree, and the levels between which the ship floats there.
const CARGO_LEVELS: &str = "\
8380000 0 6705461 6705462\n\
8380000 1 6704274 6704275\n\
8380000 30 5616559 5616561\n\
8380000 60 2972591 2972593\n\
8380000 89 -121532 -121530\n\
8380000 90 -230720 -230719\n\
6000000 0 5057957 5057958\n\
6000000 45 2788282 2788284\n\
6000000 90 -2345093 -2345092";

fn faces_with(alloc: Global, lines: &str) -> Result<Option<Faces>, Fail> {
    let mut stations = Vec::new(alloc);
    for line in lines.lines() {
        let mut points = Vec::new(alloc);
        let mut words = line.split(' ');
        let x: i64 = words.next().ok_or("no station")?.parse()?;
        for word in words {
            let (y, z) = word.split_once(',').ok_or("no point")?;
            points.push(Point {
                y: y.parse()?,
                z: z.parse()?,
            })?;
        }
        stations.push(Station {
            x,
            points: Points::new(points),
        })?;
    }
    match Hull::of(stations) {
        Some(hull) => Ok(Some(faces_of(alloc, &hull)?)),
        None => Ok(None),
    }
}

// The volume in mm³ of a mass in kg, in water of 1025 kg/m³.
fn volume_of(rt: &impl Abort, mass: u32) -> Ratio
    requires { 1 ≤ mass }
    ensures { IsNeed result }
{
    Ratio::new(i128::from(mass) * 1_000_000_000, 1025).expect(rt, "within bounds")
}

fn degree(rt: &impl Abort, k: u32) -> Degree {
    Degree::new(k).expect(rt, "at most 90")
}

// Whether the levels lie around two others, two grid units away at most.
fn is_near(drafts: &Result<Drafts, TooHeavy>, low: i64, high: i64) -> bool {
    match drafts {
        Ok(d) => d.d1 <= low && low <= d.d1 + 2 && high <= d.d2 && d.d2 - 2 <= high,
        Err(_) => false,
    }
}

// Whether the levels lie around two others, a tenth of a millimetre away at most.
fn spans(drafts: &Result<Drafts, TooHeavy>, low: i64, high: i64) -> bool {
    match drafts {
        Ok(d) => d.d1 <= low && low - 102 <= d.d1 && high <= d.d2 && d.d2 <= high + 102,
        Err(_) => false,
    }
}

#[test]
fn the_barge_at_its_load(rt: HostRuntime) -> Result<(), Fail> {
    let faces = faces_with(rt.alloc(), BARGE)?.expect(&rt, "a hull");
    let need = volume_of(&rt, 10250000);
    for (k, level) in [(0, 5120000), (90, 0)] {
        let drafts = float_at(&faces, degree(&rt, k), &need);
        assert!(rt; is_near(&drafts, level, level), "{k}: {drafts:?}");
    }
    Ok(())
}

#[test]
fn the_barge_wholly_under_and_too_heavy(rt: HostRuntime) -> Result<(), Fail> {
    let faces = faces_with(rt.alloc(), BARGE)?.expect(&rt, "a hull");
    let degree = degree(&rt, 30);
    let whole = float_at(&faces, degree, &volume_of(&rt, 20500000));
    let (d1, d2) = (20480000, 20480000);
    assert_eq!(rt; whole, Ok(Drafts { d1, d2 }));
    let heavier = float_at(&faces, degree, &volume_of(&rt, 20500001));
    let six = 120000000000000;
    assert_eq!(rt; heavier, Err(TooHeavy { six }));
    Ok(())
}

// The volume of the lower wedge is that of every level of the plate.
#[test]
fn a_ship_floats_at_its_waist(rt: HostRuntime) -> Result<(), Fail> {
    let faces = faces_with(rt.alloc(), WAIST)?.expect(&rt, "a hull");
    let drafts = float_at(&faces, degree(&rt, 0), &volume_of(&rt, 4100000));
    assert!(rt; spans(&drafts, 4096000, 6144000), "{drafts:?}");
    Ok(())
}

#[test]
fn the_cargo_ship_at_two_loads(rt: HostRuntime) -> Result<(), Fail> {
    let faces = faces_with(rt.alloc(), CARGO)?.expect(&rt, "a hull");
    let mut guess = Guess::new();
    for line in CARGO_LEVELS.lines() {
        let mut words = line.split(' ');
        let mass: u32 = words.next().ok_or("no mass")?.parse()?;
        let k: u32 = words.next().ok_or("no degree")?.parse()?;
        let low: i64 = words.next().ok_or("no level")?.parse()?;
        let high: i64 = words.next().ok_or("no level")?.parse()?;
        assert!(rt; 1 <= mass);
        let bracket = bracket_of(degree(&rt, k));
        let drafts = float_near(&faces, &bracket, &volume_of(&rt, mass), &mut guess);
        assert!(rt; is_near(&drafts, low, high), "{line}: {drafts:?}");
    }
    Ok(())
}
