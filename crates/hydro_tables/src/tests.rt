// Rows of boxes and of a prism, by hand: a barge of 100 m by 20 m by 10 m, a hull of that length with straight sides from
// the base up to 20 m at the height of 10 m, and a box of 2 mm by 2 mm by 1 m.
use crate::{HydroRow, hydro_row};
use exact_fraction::Ratio;
use hull_model::{Hull, Point, Points, Station, Water};
use hull_polyhedron::{Faces, faces_of};
use outward_interval::Span;
use std::alloc::Global;
use std::process::Abort;
use std::test::Fail;

/// Stations at both ends and in the middle; half-breadths at the base and at the height.
struct Body {
    length: i64,
    half_breadths: [i64; 2],
    height: i64,
}

const BARGE: Body = Body {
    length: 100000,
    half_breadths: [10000, 10000],
    height: 10000,
};

const WEDGE: Body = Body {
    length: 100000,
    half_breadths: [0, 10000],
    height: 10000,
};

const SMALL: Body = Body {
    length: 2,
    half_breadths: [1, 1],
    height: 1000,
};

// At each draft: volume, displacement, lcb, kb, area, lcf, bmt, bml, kmt, tpc, mct. With the deck in the waterplane the lid
// is whole; with the deck below it there is none.
const BARGE_ROWS: &str = "\
0 0 0 - - 0 - - - - 0 -\n\
5000 10000000000000 10250 50000 2500 2000000000 50000 20000/3 500000/3 55000/6 41/2 1025/6\n\
10000 20000000000000 20500 50000 5000 2000000000 50000 10000/3 250000/3 25000/3 41/2 1025/6\n\
12000 20000000000000 20500 50000 5000 0 - 0 - 5000 0 -";

const WEDGE_ROWS: &str = "\
0 0 0 - - 0 - - - - 0 -\n\
5000 2500000000000 5125/2 50000 10000/3 1000000000 50000 10000/3 1000000/3 20000/3 41/4 1025/12";

// Its MCT is far below one unit, so that the span has 0 too.
const SMALL_ROWS: &str = "\
1 4 41/10000000000 1 1/2 4 1 1/3 1/3 5/6 41/1000000000 0\n\
900 3600 369/100000000 1 450 4 1 1/2700 1/2700 1215001/2700 41/1000000000 0";

// In units of 2^-20, in the same order.
const WIDEST: [i128; 11] = [1 << 31, 8, 256, 32, 4096, 4, 8, 512, 32, 4, 2];

const WIDEST_SMALL: [i128; 11] = [8; 11];

fn faces_of_body(alloc: Global, body: &Body) -> Result<Option<Faces>, Fail> {
    let mut stations = Vec::new(alloc);
    let [low, high] = body.half_breadths;
    for x in [0, body.length / 2, body.length] {
        let mut points = Vec::new(alloc);
        points.push(Point { y: low, z: 0 })?;
        points.push(Point {
            y: high,
            z: body.height,
        })?;
        stations.push(Station {
            x,
            points: Points::new(points),
        })?;
    }
    match Hull::of(stations) {
        Some(hull) => Ok(Some(faces_of(alloc, &hull)?)),
        None => Ok(None),
    }
}

fn ratio_of(text: &str) -> Result<Ratio, Fail> {
    let ratio = match text.split_once('/') {
        Some((num, den)) => Ratio::new(num.parse()?, den.parse()?),
        None => Ratio::new(text.parse()?, 1),
    };
    Ok(ratio.ok_or("no ratio")?)
}

// Whether the span holds the number and is narrow, or is absent where the cell says so.
fn is_cell(cell: &str, span: Option<Span<20>>, widest: i128) -> Result<bool, Fail> {
    match span {
        Some(span) => {
            let (lo, hi) = (span.lo(), span.hi());
            Ok(
                cell != "-"
                    && lo.unsigned_abs() < 1 << 90
                    && hi.unsigned_abs() < 1 << 90
                    && span.meets(&ratio_of(cell)?)
                    && hi.saturating_sub(lo) <= widest,
            )
        }
        None => Ok(cell == "-"),
    }
}

fn columns(row: &HydroRow) -> [Option<Span<20>>; 11] {
    [
        Some(row.volume),
        Some(row.displacement),
        row.lcb,
        row.kb,
        Some(row.area),
        row.lcf,
        row.bmt,
        row.bml,
        row.kmt,
        Some(row.tpc),
        row.mct,
    ]
}

fn check(
    rt: &impl Abort,
    alloc: Global,
    body: &Body,
    table: &str,
    widest: [i128; 11],
) -> Result<(), Fail> {
    let faces = faces_of_body(alloc, body)?.expect(rt, "a hull");
    let water = Water {
        density: 1025,
        length_bp: 100000,
    };
    for line in table.lines() {
        let mut cells = line.split(' ');
        let draft: u32 = cells.next().expect(rt, "a draft").parse()?;
        assert!(rt; draft <= 131071);
        let row = hydro_row(&faces, &water, draft);
        let spans = columns(&row);
        for k in 0..11 {
            let cell = cells.next().expect(rt, "a cell");
            assert!(rt; is_cell(cell, spans[k], widest[k])?, "{line}: {cell}");
        }
    }
    Ok(())
}

#[test]
fn the_barge_at_four_drafts(rt: HostRuntime) -> Result<(), Fail> {
    check(&rt, rt.alloc(), &BARGE, BARGE_ROWS, WIDEST)
}

#[test]
fn the_wedge_at_two_drafts(rt: HostRuntime) -> Result<(), Fail> {
    check(&rt, rt.alloc(), &WEDGE, WEDGE_ROWS, WIDEST)
}

#[test]
fn the_small_box_at_two_drafts(rt: HostRuntime) -> Result<(), Fail> {
    check(&rt, rt.alloc(), &SMALL, SMALL_ROWS, WIDEST_SMALL)
}
