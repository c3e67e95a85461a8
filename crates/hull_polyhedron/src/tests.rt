use crate::{Faces, faces_of, six_volume};
use hull_model::{Hull, Point, Points, Station, six_of, tets_of};
use std::alloc::Global;
use std::test::Fail;

const BARGE: &str = "\
0 10000/0 10000/10000\n\
50000 10000/0 10000/10000\n\
100000 10000/0 10000/10000";

// The cargo ship, a station on each line: x, and half-breadths over heights.
const CARGO: &str = "\
0 0/0 0/1000 0/3000 1500/6000 6000/9000 7500/12000\n\
5000 0/0 400/1000 900/3000 3800/6000 7300/9000 8200/12000\n\
10000 200/0 1200/1000 2500/3000 5900/6000 8300/9000 8700/12000\n\
15000 800/0 2600/1000 4600/3000 7500/6000 8800/9000 8950/12000\n\
20000 1900/0 4400/1000 6500/3000 8500/6000 9000/9000 9000/12000\n\
25000 3400/0 6200/1000 7900/3000 8900/6000 9000/9000 9000/12000\n\
30000 5000/0 7600/1000 8700/3000 9000/6000 9000/9000 9000/12000\n\
35000 6200/0 8300/1000 8950/3000 9000/6000 9000/9000 9000/12000\n\
40000 6800/0 8600/1000 9000/3000 9000/6000 9000/9000 9000/12000\n\
45000 7000/0 8700/1000 9000/3000 9000/6000 9000/9000 9000/12000\n\
50000 7000/0 8700/1000 9000/3000 9000/6000 9000/9000 9000/12000\n\
55000 7000/0 8700/1000 9000/3000 9000/6000 9000/9000 9000/12000\n\
60000 6800/0 8600/1000 9000/3000 9000/6000 9000/9000 9000/12000\n\
65000 6300/0 8300/1000 8950/3000 9000/6000 9000/9000 9000/12000\n\
70000 5400/0 7700/1000 8700/3000 8950/6000 9000/9000 9000/12000\n\
75000 4200/0 6600/1000 8000/3000 8600/6000 8850/9000 9000/12000\n\
80000 2900/0 5200/1000 6900/3000 7800/6000 8300/9000 8800/12000\n\
85000 1700/0 3600/1000 5300/3000 6400/6000 7200/9000 8200/12000\n\
90000 800/0 2200/1000 3500/3000 4600/6000 5600/9000 7100/12000\n\
95000 200/0 900/1000 1700/3000 2500/6000 3500/9000 5200/12000\n\
102000 0/12000";

fn hull_of(alloc: Global, text: &str) -> Result<Option<Hull>, Fail> {
    let mut stations = Vec::new(alloc);
    for line in text.lines() {
        let mut x = 0;
        let mut points = Vec::new(alloc);
        for word in line.split(' ') {
            match word.split_once('/') {
                Some((y, z)) => points.push(Point {
                    y: y.parse()?,
                    z: z.parse()?,
                })?,
                None => x = word.parse()?,
            }
        }
        stations.push(Station {
            x,
            points: Points::new(points),
        })?;
    }
    Ok(Hull::of(stations))
}

// The numbers of tetrahedra, and of those among them without volume; and the boundary.
fn counted(alloc: Global, text: &str) -> Result<Option<(usize, usize, Faces)>, Fail> {
    match hull_of(alloc, text)? {
        Some(hull) => {
            let tets = tets_of(alloc, &hull)?;
            let mut flat: usize = 0;
            for tet in tets.as_slice() {
                if six_of(tet) == 0 {
                    flat = flat.saturating_add(1);
                }
            }
            Ok(Some((tets.len(), flat, faces_of(alloc, &hull)?)))
        }
        None => Ok(None),
    }
}

#[test]
fn the_barge_has_32_faces(rt: HostRuntime) -> Result<(), Fail> {
    let (count, flat, faces) = counted(rt.alloc(), BARGE)?.expect(&rt, "a hull");
    assert_eq!(rt; (count, flat), (24, 0));
    assert_eq!(rt; faces.list().len(), 32);
    assert_eq!(rt; six_volume(&faces), 120000000000000);
    assert_eq!(rt; (faces.first_x(), faces.last_x()), (0, 100000));
    assert_eq!(rt; (faces.low_z(), faces.high_z()), (0, 10000));
    assert_eq!(rt; faces.half_breadth(), 10000);
    Ok(())
}

#[test]
fn the_barge_has_two_strips(rt: HostRuntime) -> Result<(), Fail> {
    let (_, _, faces) = counted(rt.alloc(), BARGE)?.expect(&rt, "a hull");
    assert_eq!(rt; faces.strips(), 2);
    if faces.strips() == 2 {
        let both = faces.total(0, 2);
        assert_eq!(rt;
            (both.six, both.mx24, both.mz24),
            (120000000000000, 24000000000000000000, 2400000000000000000)
        );
        let aft = faces.total(0, 1);
        assert_eq!(rt;
            (aft.six, aft.mx24, aft.mz24),
            (60000000000000, 6000000000000000000, 1200000000000000000)
        );
        let none = faces.total(1, 1);
        assert_eq!(rt; (none.six, none.mx24, none.mz24), (0, 0, 0));
        assert_eq!(rt;
            (faces.strip_faces(0).len(), faces.strip_faces(1).len()),
            (12, 12)
        );
        assert_eq!(rt;
            (faces.strip_nodes(0).len(), faces.strip_nodes(1).len()),
            (4, 4)
        );
    }
    Ok(())
}

#[test]
fn the_cargo_ship_has_548_faces(rt: HostRuntime) -> Result<(), Fail> {
    let (count, flat, faces) = counted(rt.alloc(), CARGO)?.expect(&rt, "a hull");
    assert_eq!(rt; (count, flat), (1170, 30));
    assert_eq!(rt; faces.list().len(), 548);
    assert_eq!(rt; six_volume(&faces), 101283500000000);
    assert_eq!(rt; (faces.first_x(), faces.last_x()), (0, 102000));
    assert_eq!(rt; (faces.low_z(), faces.high_z()), (0, 12000));
    assert_eq!(rt; faces.half_breadth(), 9000);
    Ok(())
}
