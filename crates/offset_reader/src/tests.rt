// The table of refusals, and what an accepted file keeps.

use crate::{OffsetFault, read_offsets};
use hull_model::{Hull, Point};
use std::alloc::Global;
use std::process::Abort;
use std::test::Fail;

// Three stations with a flat bottom and a deck line.
const CLOSED: &str = "0,0,0\n0,8000,0\n0,9000,7000\n0,0,7000\n\
1000,0,0\n1000,8000,0\n1000,9000,7000\n1000,0,7000\n\
2000,0,0\n2000,8000,0\n2000,9000,7000\n2000,0,7000\n";

fn read(rt: &impl Abort, alloc: Global, bytes: &[u8]) -> Result<Hull, OffsetFault> {
    assert!(rt; bytes.len() < 10000);
    read_offsets(alloc, bytes)
}

fn has_outer_points(rt: &impl Abort, hull: &Hull) {
    let outer = [Point { y: 8000, z: 0 }, Point { y: 9000, z: 7000 }];
    assert_eq!(rt; hull.stations().len(), 3);
    for station in hull.stations() {
        assert_eq!(rt; station.points.as_slice(), outer.as_slice());
    }
}

#[test]
fn a_flat_bottom_and_a_deck_line_keep_their_outer_points(rt: HostRuntime) -> Result<(), Fail> {
    let alloc = rt.alloc();
    let hull = read(&rt, alloc, CLOSED.as_bytes())?;
    has_outer_points(&rt, &hull);
    Ok(())
}

#[test]
fn a_byte_order_mark_changes_nothing(rt: HostRuntime) -> Result<(), Fail> {
    let alloc = rt.alloc();
    let mut marked = Vec::from_slice(alloc, b"\xEF\xBB\xBF")?;
    marked.extend_from_slice(CLOSED.as_bytes())?;
    let hull = read(&rt, alloc, &marked)?;
    has_outer_points(&rt, &hull);
    Ok(())
}

#[test]
fn a_file_is_refused_by_its_first_fault(rt: HostRuntime) -> Result<(), Fail> {
    let alloc = rt.alloc();
    for (text, fault) in [
        (
            "0,1,0\n0,2,3000\n0,3,3000\n0,4,6000\n",
            OffsetFault::Height { row: 3 },
        ),
        (
            "0,1,0\n0,1,9\n5,1,0\n4,1,0\n",
            OffsetFault::Backwards { row: 4 },
        ),
        ("0,-1,0\n", OffsetFault::Negative { row: 1, column: 2 }),
        ("0,65536,0\n", OffsetFault::Range { row: 1, column: 2 }),
        ("0,1.5,0\n", OffsetFault::Number { row: 1, column: 2 }),
        (
            "0,10000,0\n0,10000,10000\n50000,10000,0\n50000,10000,10000\n\
            100000,10000,0\n100000,10000",
            OffsetFault::Columns { row: 6 },
        ),
        ("", OffsetFault::FewStations { stations: 0 }),
        (
            "0,10000,0\n0,10000,10000\n50000,10000,0\n50000,10000,10000\n",
            OffsetFault::FewStations { stations: 2 },
        ),
        (
            "0,5,0\n0,5,9\n5,5,4\n10,5,0\n10,5,9\n",
            OffsetFault::FewPoints { row: 3 },
        ),
        (
            "0,0,0\n0,0,9\n5,0,0\n5,-0,9\n10,0,0\n10, 0\t,9\n",
            OffsetFault::NoVolume,
        ),
        (
            "0,1,0\n0,1,0\n0,1,9\n0,1,9\n0,1,5\n5,1\n",
            OffsetFault::Columns { row: 6 },
        ),
    ] {
        match read(&rt, alloc, text.as_bytes()) {
            Ok(_) => assert!(&rt; false, "{text}"),
            Err(found) => assert_eq!(rt; found, fault, "{text}"),
        }
    }
    Ok(())
}

#[test]
fn long_files_are_refused_where_they_grow_too_long(rt: HostRuntime) -> Result<(), Fail> {
    let alloc = rt.alloc();
    let mut stations = String::new(alloc);
    for x in 0..65 {
        write!(stations, "{x},1,0\n{x},1,9\n")?;
    }
    let found = read(&rt, alloc, stations.as_bytes()).err();
    assert_eq!(rt; found, Some(OffsetFault::TooManyStations { row: 129 }));

    let mut points = String::new(alloc);
    for z in 0..33 {
        write!(points, "0,1,{z}\n")?;
    }
    points.push_str("5,1,0\n5,1,9\n10,1,0\n10,1,9\n")?;
    let found = read(&rt, alloc, points.as_bytes()).err();
    assert_eq!(rt; found, Some(OffsetFault::TooManyPoints { row: 1 }));
    Ok(())
}

// The barge without its last row.
const BARGE: &str = "0,10000,0\n0,10000,10000\n50000,10000,0\n50000,10000,10000\n100000,10000,0\n";

fn last_height(hull: &Hull) -> Option<i64> {
    let station = hull.stations().last()?;
    let point = station.points.as_slice().last()?;
    Some(point.z)
}

#[test]
fn a_file_may_be_cut_in_its_last_row(rt: HostRuntime) -> Result<(), Fail> {
    let alloc = rt.alloc();
    for (row, answer) in [
        ("100000,10000,10000\n", Ok(Some(10000))),
        ("100000,10000,10000\r", Ok(Some(10000))),
        ("100000,10000,10000", Ok(Some(10000))),
        ("100000,10000,1000", Ok(Some(1000))),
        ("100000,10000,1", Ok(Some(1))),
        (
            "100000,10000,",
            Err(OffsetFault::Number { row: 6, column: 3 }),
        ),
        ("100000,10000", Err(OffsetFault::Columns { row: 6 })),
        ("100000,", Err(OffsetFault::Columns { row: 6 })),
        ("1", Err(OffsetFault::Columns { row: 6 })),
        ("", Ok(Some(0))),
    ] {
        let text = format!(in alloc; "{BARGE}{row}")?;
        let found = read(&rt, alloc, text.as_bytes()).map(|hull| last_height(&hull));
        assert_eq!(rt; found, answer, "{row}");
    }
    Ok(())
}
