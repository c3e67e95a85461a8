// Lids of hulls. The values were computed by a program that cuts the tetrahedra by exact fractions.
use super::{BARGE, CARGO, LIMITS, faces_from, is_within};
use crate::{LidSums, lid};
use std::alloc::Global;
use std::process::Abort;
use std::test::Fail;

// Of each level in grid units the area, the integrals of x, of y² and of x²: the floor and the ceiling in units of 2^-20. The
// barge's bottom lies at level 0, its deck at 10240000.
const BARGE_LIDS: &str = "\
0 0 0 0 0 0 0 0 0\n\
5120000 2097152000000000 2097152000000000 104857600000000000000 104857600000000000000 69905066666666666666666 69905066666666666666667 6990506666666666666666666 6990506666666666666666667\n\
10240000 2097152000000000 2097152000000000 104857600000000000000 104857600000000000000 69905066666666666666666 69905066666666666666667 6990506666666666666666666 6990506666666666666666667\n\
10240001 0 0 0 0 0 0 0 0\n\
12288000 0 0 0 0 0 0 0 0";

const CARGO_LIDS: &str = "\
0 0 0 0 0 0 0 0 0\n\
1024 771062221747723 771062221747724 39805087924019898241 39805087924019898242 8930780246003669596567 8930780246003669596568 2293281781911460066121748 2293281781911460066121749\n\
1024000 1133649009777777 1133649009777778 57892068020780246913 57892068020780246914 21209563898901069958847 21209563898901069958848 3415600243937027160493827 3415600243937027160493828\n\
4096000 1402750373322558 1402750373322559 69947709387365733655 69947709387365733656 30591359653709060192327 30591359653709060192328 4222374330866069085188059 4222374330866069085188060\n\
6144001 1530442799197606 1530442799197607 74146211583674430461 74146211583674430462 34865635592918551990212 34865635592918551990213 4505609658270623193450444 4505609658270623193450445\n\
8192000 1632420292352861 1632420292352862 77098186098438898525 77098186098438898526 38396831225310166056259 38396831225310166056260 4723616304291344180253257 4723616304291344180253258\n\
12288000 1760978534400000 1760978534400000 84257905049600000000 84257905049600000000 43953824901802666666666 43953824901802666666667 5346001787289600000000000 5346001787289600000000000\n\
14336000 0 0 0 0 0 0 0 0";

const LIMITS_LIDS: &str = "\
33554432 72056357089443840 72056357089443840 18889105644676621271040 18889105644676621271040 103156750889759656378368000 103156750889759656378368000 6602208354087047824219832320 6602208354087047824219832320\n\
67107840 72056357089443840 72056357089443840 18889105644676621271040 18889105644676621271040 103156750889759656378368000 103156750889759656378368000 6602208354087047824219832320 6602208354087047824219832320";

// Whether the sums hold the values and are narrow: no wider than the area of all faces as they are seen from above times
// 2^-32, and 2^-18 mm² for each face, both times the greatest square of a coordinate where that is integrated.
fn holds(sums: &LidSums, cells: &[i128], width: i128, breadth: i128, last_x: i128) -> bool {
    let across = width.saturating_mul(breadth).saturating_mul(breadth);
    let along = width.saturating_mul(last_x);
    cells.len() == 8
        && is_within(sums.area, cells[0], cells[1], width)
        && is_within(sums.sx, cells[2], cells[3], along)
        && is_within(sums.syy, cells[4], cells[5], across)
        && is_within(sums.sxx, cells[6], cells[7], along.saturating_mul(last_x))
}

// The area is that of the faces seen from above, in mm².
fn check(
    rt: &impl Abort,
    alloc: Global,
    hull: &str,
    table: &str,
    area: i128,
    breadth: i128,
    last_x: i128,
) -> Result<(), Fail> {
    let faces = faces_from(alloc, hull)?.expect(rt, "a hull");
    let count = faces.list().len() as i128;
    let width = (area >> 12).saturating_add(count.saturating_mul(4));
    for line in table.lines() {
        let mut words = line.split(' ');
        let level: i64 = words.next().expect(rt, "a level").parse()?;
        let mut cells = Vec::new(alloc);
        for word in words {
            cells.push(word.parse()?)?;
        }
        assert!(rt; level.unsigned_abs() <= 1073741824);
        let sums = lid(&faces, level, level);
        assert!(rt; holds(&sums, &cells, width, breadth, last_x), "{line}");
    }
    Ok(())
}

#[test]
fn a_deck_is_part_of_the_lid_and_a_bottom_is_not(rt: HostRuntime) -> Result<(), Fail> {
    check(
        &rt,
        rt.alloc(),
        BARGE,
        BARGE_LIDS,
        4000000000,
        10000,
        100000,
    )
}

#[test]
fn the_cargo_ship_at_eight_levels(rt: HostRuntime) -> Result<(), Fail> {
    check(&rt, rt.alloc(), CARGO, CARGO_LIDS, 3400000000, 9000, 102000)
}

#[test]
fn lids_of_the_greatest_coordinates(rt: HostRuntime) -> Result<(), Fail> {
    check(
        &rt,
        rt.alloc(),
        LIMITS,
        LIMITS_LIDS,
        137437000000,
        65535,
        524287,
    )
}

// The area of the deck, where a level reaches it, and none above it.
#[test]
fn levels_around_the_deck_hold_both_lids(rt: HostRuntime) -> Result<(), Fail> {
    let faces = faces_from(rt.alloc(), BARGE)?.expect(&rt, "a hull");
    let area = lid(&faces, 10240000, 10240001).area;
    assert!(rt; area.lo() <= 0 && 2097152000000000 <= area.hi());
    Ok(())
}
