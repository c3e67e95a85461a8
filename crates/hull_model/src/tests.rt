mod plain;

use crate::{Hull, Point, Points, Station, six_of, tets_of};
use plain::{Fraction, Plane, submerged};
use std::alloc::{AllocError, Global};
use std::test::Fail;

// Stations at these x, each with these half-breadths and heights.
fn stations_of(
    alloc: Global,
    places: &[i64],
    offsets: &[(i64, i64)],
) -> Result<Vec<Station>, AllocError> {
    let mut stations = Vec::new(alloc);
    for x in places {
        let mut points = Vec::new(alloc);
        for (y, z) in offsets {
            points.push(Point { y: *y, z: *z })?;
        }
        stations.push(Station {
            x: *x,
            points: Points::new(points),
        })?;
    }
    Ok(stations)
}

#[test]
fn a_hull_has_what_the_rules_say(rt: HostRuntime) -> Result<(), Fail> {
    let barge = [(10000, 0), (10000, 10000)];
    for (places, offsets, is_hull) in [
        ([0, 50000, 100000].as_slice(), barge.as_slice(), true),
        ([0, 50000, 524287].as_slice(), barge.as_slice(), true),
        ([0, 50000, 524288].as_slice(), barge.as_slice(), false),
        ([0, 50000].as_slice(), barge.as_slice(), false),
        ([0, 50000, 50000].as_slice(), barge.as_slice(), false),
        (
            [0, 1, 2].as_slice(),
            [(0, 0), (65535, 65535)].as_slice(),
            true,
        ),
        ([0, 1, 2].as_slice(), [(0, 0), (65536, 1)].as_slice(), false),
        ([0, 1, 2].as_slice(), [(1, 0), (1, 0)].as_slice(), false),
        ([0, 1, 2].as_slice(), [(0, 0), (0, 1)].as_slice(), false),
        ([0, 1, 2].as_slice(), [(1, 0)].as_slice(), false),
    ] {
        let stations = stations_of(rt.alloc(), places, offsets)?;
        let hull = Hull::of(stations);
        assert_eq!(rt; hull.is_some(), is_hull, "{places:?} {offsets:?}");
        if let Some(hull) = hull {
            assert_eq!(rt; hull.stations().len(), places.len());
        }
    }
    Ok(())
}

#[test]
fn points_give_their_list_back(rt: HostRuntime) -> Result<(), Fail> {
    let points = Points::new(vec![in rt.alloc(); Point { y: 3, z: 4 }]?);
    assert_eq!(rt; points.as_slice(), [Point { y: 3, z: 4 }].as_slice());
    assert_eq!(rt;
        points.into_vec().as_slice(),
        [Point { y: 3, z: 4 }].as_slice()
    );
    Ok(())
}

const BARGE: &[(i64, i64)] = &[(10000, 0), (10000, 10000)];

#[test]
fn the_barge_has_24_tetrahedra(rt: HostRuntime) -> Result<(), Fail> {
    let stations = stations_of(rt.alloc(), &[0, 50000, 100000], BARGE)?;
    let hull = Hull::of(stations).expect(&rt, "a hull");
    let tets = tets_of(rt.alloc(), &hull)?;
    assert_eq!(rt; tets.len(), 24);
    let mut sum = 0i128;
    for t in &tets {
        sum = i128::wrapping_add(sum, six_of(t));
    }
    assert_eq!(rt; sum, 120000000000000);
    Ok(())
}

#[test]
fn the_plain_program_gives_the_worked_values(rt: HostRuntime) -> Result<(), Fail> {
    let wedge: &[(i64, i64)] = &[(0, 0), (10000, 10000)];
    for (offsets, c, s, r, level, over, volume, mu) in [
        (BARGE, 1, 0, 1, 5000, 1, 10000000000000, 25000000000000000),
        (BARGE, 1, 0, 1, 10000, 1, 20000000000000, 100000000000000000),
        (BARGE, 1, 0, 1, 0, 1, 0, 0),
        (wedge, 1, 0, 1, 5000, 1, 2500000000000, 8333333333333333),
        (
            BARGE,
            12,
            5,
            13,
            60000,
            13,
            10000000000000,
            17735042735042735,
        ),
    ] {
        let stations = stations_of(rt.alloc(), &[0, 50000, 100000], offsets)?;
        let hull = Hull::of(stations).expect(&rt, "a hull");
        let height = Fraction::new(level, over).expect(&rt, "a level");
        let plane = Plane {
            c,
            s,
            r,
            a: height,
            f: height,
            first: 0,
            last: 100000,
        };
        let all = submerged(rt.alloc(), &hull, plane).expect(&rt, "128 bits suffice");
        assert_eq!(rt; all.volume, Fraction::whole(volume), "{c} {level}");
        assert_eq!(rt; all.mu.floor(), Some(mu), "{c} {level}");
    }
    Ok(())
}
