// Hulls below upright planes. The values were computed by a program that cuts the tetrahedra by exact fractions.
mod lids;

ghost use Rattle.std.specs.Prelude.{◌≡◌, IfSome};
ghost use Rattle.flux_moments.specs.Wets.{AllFields};

use crate::{PlaneBox, Wet, measure, volume_below};
use angle_bounds::{Triple, exact};
use hull_model::{Hull, Point, Points, Station};
use hull_polyhedron::{Faces, faces_of};
use outward_interval::Span;
use std::alloc::Global;
use std::process::Abort;
use std::test::Fail;

const UPRIGHT: Triple = Triple { c: 1, s: 0, r: 1 };

const HEELED: Triple = Triple { c: 12, s: 5, r: 13 };

const BARGE: &str = "\
0 10000/0 10000/10000\n\
50000 10000/0 10000/10000\n\
100000 10000/0 10000/10000";

// The cargo ship, a station on each line: x, and half-breadths over heights.
const CARGO: &str = "\
0 0/0 0/1000 0/3000 1500/6000 6000/9000 7500/12000\n\
5000 0/0 400/1000 900/3000 3800/6000 7300/9000 8200/12000\n\
10000 200/0 1200/1000 2500/3000 5900/6000 8300/9000 8700/12000\n\
15000 800/0 2600/1000 4600/3000 7500/6000 8800/9000 8950/12000\n\
20000 1900/0 4400/1000 6500/3000 8500/6000 9000/9000 9000/12000\n\
25000 3400/0 6200/1000 7900/3000 8900/6000 9000/9000 9000/12000\n\
30000 5000/0 7600/1000 8700/3000 9000/6000 9000/9000 9000/12000\n\
35000 6200/0 8300/1000 8950/3000 9000/6000 9000/9000 9000/12000\n\
40000 6800/0 8600/1000 9000/3000 9000/6000 9000/9000 9000/12000\n\
45000 7000/0 8700/1000 9000/3000 9000/6000 9000/9000 9000/12000\n\
50000 7000/0 8700/1000 9000/3000 9000/6000 9000/9000 9000/12000\n\
55000 7000/0 8700/1000 9000/3000 9000/6000 9000/9000 9000/12000\n\
60000 6800/0 8600/1000 9000/3000 9000/6000 9000/9000 9000/12000\n\
65000 6300/0 8300/1000 8950/3000 9000/6000 9000/9000 9000/12000\n\
70000 5400/0 7700/1000 8700/3000 8950/6000 9000/9000 9000/12000\n\
75000 4200/0 6600/1000 8000/3000 8600/6000 8850/9000 9000/12000\n\
80000 2900/0 5200/1000 6900/3000 7800/6000 8300/9000 8800/12000\n\
85000 1700/0 3600/1000 5300/3000 6400/6000 7200/9000 8200/12000\n\
90000 800/0 2200/1000 3500/3000 4600/6000 5600/9000 7100/12000\n\
95000 200/0 900/1000 1700/3000 2500/6000 3500/9000 5200/12000\n\
102000 0/12000";

// A box of the greatest coordinates.
const LIMITS: &str = "\
0 65535/0 65535/65535\n\
262143 65535/0 65535/65535\n\
524287 65535/0 65535/65535";

// Heeled by the angle of cosine 12/13, of levels from one to the other: the volume and mv, their floor and ceiling.
const BARGE_HEELED: &str = "\
4726153 4726154 10485760000000000000 10485760000000000000 39302928774928774928774 39302928774928774928775";

// Of each plane the levels in grid units at the first station and at the last, and of the volume, mx, mv and mu the
// floor and the ceiling in units of 2^-20.
const BARGE_BELOW: &str = "\
5120000 5120000 10485760000000000000 10485760000000000000 524288000000000000000000 524288000000000000000000 0 0 26214400000000000000000 26214400000000000000000\n\
4096000 6144000 10485760000000000000 10485760000000000000 559240533333333333333333 559240533333333333333334 0 0 26563925333333333333333 26563925333333333333334\n\
0 0 0 0 0 0 0 0 0 0\n\
10240000 10240000 20971520000000000000 20971520000000000000 1048576000000000000000000 1048576000000000000000000 0 0 104857600000000000000000 104857600000000000000000";

const CARGO_BELOW: &str = "\
0 0 0 0 0 0 0 0 0 0\n\
1024000 1024000 951494853214814814 951494853214814815 48925461385165432098765 48925461385165432098766 0 0 505992897422222222222 505992897422222222223\n\
4096000 4096000 4791892346339842873 4791892346339842874 243586270858712303733179 243586270858712303733180 0 0 10315946206039057239057 10315946206039057239058\n\
6144000 6144000 7725483771345454545 7725483771345454546 387674857371198530762167 387674857371198530762168 0 0 25026467455224242424242 25026467455224242424243\n\
8192000 8192000 10890811198462850729 10890811198462850730 538873684578808239522044 538873684578808239522045 0 0 47217751960565656565656 47217751960565656565657\n\
12288000 12288000 17700574549333333333 17700574549333333334 860488728576000000000000 860488728576000000000000 0 0 115475489314133333333333 115475489314133333333334\n\
14336000 14336000 17700574549333333333 17700574549333333334 860488728576000000000000 860488728576000000000000 0 0 115475489314133333333333 115475489314133333333334\n\
-1024000 5120000 2303143140139424953 2303143140139424954 148693733739770290705532 148693733739770290705533 0 0 3508730657248991110060 3508730657248991110061\n\
8193023 3071999 7250532948520767785 7250532948520767786 319371212674477332811885 319371212674477332811886 0 0 23373857735840416088023 23373857735840416088024\n\
11264001 -11263999 3180722047204607462 3180722047204607463 67515779572487401892784 67515779572487401892785 0 0 12805189712456055205131 12805189712456055205132\n\
3333333 7777777 6801183250019703203 6801183250019703204 377686220258348537298349 377686220258348537298350 0 0 20494635154450055452103 20494635154450055452104\n\
1073741824 -1073741824 9294567246933333333 9294567246933333334 267655529248641865539550 267655529248641865539551 0 0 61476845486800000000000 61476845486800000000000";

const LIMITS_BELOW: &str = "\
33554432 33554432 2361142709106895749120 2361142709106895749120 618958213764763525809438720 618958213764763525809438720 0 0 38684962146007379953582080 38684962146007379953582080\n\
67108864 67108864 4722213361856702054400 4722213361856702054400 1237897538423882374997606400 1237897538423882374997606400 0 0 154735126334639484567552000 154735126334639484567552000\n\
1073741824 -1073741824 2287323223012740005887 2287323223012740005888 290535479846845287617961301 290535479846845287617961302 0 0 74143963890986696762632875 74143963890986696762632875";

fn hull_of(alloc: Global, text: &str) -> Result<Option<Hull>, Fail> {
    let mut stations = Vec::new(alloc);
    for line in text.lines() {
        let mut x = 0;
        let mut points = Vec::new(alloc);
        for word in line.split(' ') {
            match word.split_once('/') {
                Some((y, z)) => points.push(Point {
                    y: y.parse()?,
                    z: z.parse()?,
                })?,
                None => x = word.parse()?,
            }
        }
        stations.push(Station {
            x,
            points: Points::new(points),
        })?;
    }
    Ok(Hull::of(stations))
}

fn faces_from(alloc: Global, text: &str) -> Result<Option<Faces>, Fail> {
    match hull_of(alloc, text)? {
        Some(hull) => Ok(Some(faces_of(alloc, &hull)?)),
        None => Ok(None),
    }
}

fn is_within(span: Span<20>, low: i128, high: i128, width: i128) -> bool {
    span.lo() <= low && high <= span.hi() && span.hi().saturating_sub(span.lo()) <= width
}

// Whether the spans hold the values and are narrow: no wider than eight times 2^-16 mm times the area, for the
// integrals times the last x, and times 2^21 mm.
fn holds(wet: &Wet, cells: &[i128], area: i128, last_x: i128) -> bool {
    let width = area.saturating_mul(128);
    let far = width.saturating_mul(1 << 21);
    cells.len() == 8
        && is_within(wet.volume, cells[0], cells[1], width)
        && is_within(wet.mx, cells[2], cells[3], width.saturating_mul(last_x))
        && is_within(wet.mv, cells[4], cells[5], far)
        && is_within(wet.mu, cells[6], cells[7], far)
}

// The area is that of the faces seen from the side and from above, and 2^17 mm².
fn check(
    rt: &impl Abort,
    alloc: Global,
    hull: &str,
    table: &str,
    area: i128,
    last_x: i128,
) -> Result<(), Fail> {
    let faces = faces_from(alloc, hull)?.expect(rt, "a hull");
    for line in table.lines() {
        let mut words = line.split(' ');
        let aft = words.next().expect(rt, "a level").parse()?;
        let fore = words.next().expect(rt, "a level").parse()?;
        let mut cells = Vec::new(alloc);
        for word in words {
            cells.push(word.parse()?)?;
        }
        let planes = PlaneBox::upright(aft, aft, fore, fore).expect(rt, "levels");
        let wet = measure(&faces, &planes);
        assert!(rt; holds(&wet, &cells, area, last_x), "{line}");
        assert_eq!(rt; volume_below(&faces, &planes), wet.volume, "{line}");
    }
    Ok(())
}

#[test]
fn the_barge_at_four_planes(rt: HostRuntime) -> Result<(), Fail> {
    check(&rt, rt.alloc(), BARGE, BARGE_BELOW, 6000131072, 100000)
}

// The area times eight times 65 · 2^-16 mm is W, but for the width of the cosine and the sine, which is 2^-40 at most.
#[test]
fn the_heeled_barge(rt: HostRuntime) -> Result<(), Fail> {
    let faces = faces_from(rt.alloc(), BARGE)?.expect(&rt, "a hull");
    for line in BARGE_HEELED.lines() {
        let mut words = line.split(' ');
        let low = words.next().expect(&rt, "a level").parse()?;
        let high = words.next().expect(&rt, "a level").parse()?;
        let mut cells = Vec::new(rt.alloc());
        for word in words {
            cells.push(word.parse()?)?;
        }
        let planes = PlaneBox::level(exact(HEELED), low, high).expect(&rt, "levels");
        let wet = measure(&faces, &planes);
        let width = 6000131072i128.saturating_mul(8321);
        let far = width.saturating_mul(24616);
        assert!(rt;
            cells.len() == 4
                && is_within(wet.volume, cells[0], cells[1], width)
                && is_within(wet.mv, cells[2], cells[3], far),
            "{line}"
        );
    }
    Ok(())
}

#[test]
fn the_cargo_ship_at_twelve_planes(rt: HostRuntime) -> Result<(), Fail> {
    check(&rt, rt.alloc(), CARGO, CARGO_BELOW, 5717931072, 102000)
}

#[test]
fn a_hull_of_the_greatest_coordinates(rt: HostRuntime) -> Result<(), Fail> {
    check(&rt, rt.alloc(), LIMITS, LIMITS_BELOW, 206155022342, 524287)
}

#[test]
fn boxes_at_their_limits(rt: HostRuntime) {
    let most = 1073741824;
    for (a1, a2, f1, f2, want) in [
        (0, 0, 0, 0, true),
        (-most, most, -most, most, true),
        (1, 0, 0, 0, false),
        (0, 0, 1, 0, false),
        (-most - 1, 0, 0, 0, false),
        (0, most + 1, 0, 0, false),
        (0, 0, -most - 1, 0, false),
        (0, 0, 0, most + 1, false),
        (i64::MIN, i64::MAX, 0, 0, false),
    ] {
        assert_eq!(rt;
            PlaneBox::upright(a1, a2, f1, f2).is_some(),
            want,
            "{a1} {a2} {f1} {f2}"
        );
    }
}

// A hull that is wholly under water at all planes of a box has its own volume, whatever the levels.
#[test]
fn a_barge_under_water(rt: HostRuntime) -> Result<(), Fail> {
    let faces = faces_from(rt.alloc(), BARGE)?.expect(&rt, "a hull");
    let planes = PlaneBox::upright(12288000, 12289024, 12288000, 12289024).expect(&rt, "levels");
    let wet = measure(&faces, &planes);
    let (volume, mx) = (20971520000000000000, 1048576000000000000000000);
    assert!(rt; is_within(wet.volume, volume, volume, 1024), "the volume");
    assert!(rt; is_within(wet.mx, mx, mx, 102400000), "the integral of x");
    assert_eq!(rt; volume_below(&faces, &planes), wet.volume);
    Ok(())
}

// The volume below a box of planes runs from that below its lowest plane to that below its highest.
#[test]
fn a_box_of_planes_holds_all_its_planes(rt: HostRuntime) -> Result<(), Fail> {
    let faces = faces_from(rt.alloc(), BARGE)?.expect(&rt, "a hull");
    let planes = PlaneBox::upright(5120000, 5121024, 5120000, 5121024).expect(&rt, "levels");
    let volume = measure(&faces, &planes).volume;
    assert!(rt; volume.lo() <= 10485760000000000000 && 10487857152000000000 <= volume.hi());
    let twice = measure(&faces, &planes) + measure(&faces, &planes);
    assert_eq!(rt; twice.volume.lo(), volume.lo().saturating_mul(2));
    let level = PlaneBox::level(exact(UPRIGHT), 5120000, 5121024).expect(&rt, "levels");
    assert_eq!(rt; measure(&faces, &level), measure(&faces, &planes));
    Ok(())
}

fn wet(low: i128, high: i128) -> Option<Wet>
    ensures { IfSome result (λ w. AllFields (λ s. (s.lo ≡ low) × (s.hi ≡ high)) w) }
{
    let span = Span::new(low, high)?;
    Some(Wet {
        volume: span,
        mx: span,
        mv: span,
        mu: span,
    })
}

#[test]
fn fields_are_added_and_taken_away(rt: HostRuntime) {
    let whole = wet(10, 12).expect(&rt, "ends");
    let part = wet(-1, 3).expect(&rt, "ends");
    let sum = wet(9, 15).expect(&rt, "ends");
    let rest = wet(7, 13).expect(&rt, "ends");
    assert_eq!(rt; whole + part, sum);
    assert_eq!(rt; whole - part, rest);
}
