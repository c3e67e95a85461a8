// Means worked by hand, and a table of exact ones.
ghost use Rattle.std.specs.Prelude.{IfSome};
ghost use Rattle.outward_interval.specs.Ends.{EndsBelow};

mod parts;
mod rows;

use crate::{WetShare, wet, wet_depths};
use outward_interval::Span;
use rows::ROWS;
use std::test::Fail;

// The numbers of a row.
const ENDS: usize = 6;

const SHARES: usize = 10;

const DEPTHS: usize = 4;

const NUMBERS: usize = 34;

fn depth(lo: i64, hi: i64) -> Option<Span<20>>
    ensures { IfSome result (λ s. EndsBelow 41 s.lo s.hi) }
{
    if lo.unsigned_abs() < 1 << 41 && hi.unsigned_abs() < 1 << 41 {
        Span::new(i128::from(lo), i128::from(hi))
    } else {
        None
    }
}

fn at(x: i64, y: i64, z: i64) -> Option<WetShare> {
    Some(wet([depth(x, x)?, depth(y, y)?, depth(z, z)?]))
}

fn numbers_of(line: &str) -> Option<[i64; NUMBERS]> {
    let mut numbers = [0; NUMBERS];
    let mut words = line.split(' ');
    for place in 0..NUMBERS {
        numbers[place] = words.next()?.parse::<i64>().ok()?;
    }
    Some(numbers)
}

// The span reaches from at most so many units below the first number to as many above the second.
fn is_around(lo: i128, hi: i128, low: i64, high: i64, units: u8) -> bool {
    let (low, high, units) = (i128::from(low), i128::from(high), i128::from(units));
    lo <= low && low - units <= lo && high <= hi && hi <= high + units
}

// A quarter of the triangle is wet, and the mean depth is a twelfth of a millimetre: between 87381 and 87382 units.
#[test]
fn one_corner_a_millimetre_below_the_water(rt: HostRuntime) -> Result<(), Fail> {
    let means = at(1 << 20, -(1 << 20), -(1 << 20)).ok_or("no depths")?;
    assert!(rt; means.share.lo() <= 1 << 38 && 1 << 38 <= means.share.hi());
    assert!(rt; means.depth.lo() <= 87381 && 87382 <= means.depth.hi());
    Ok(())
}

#[test]
fn all_dry_and_all_wet_are_exact(rt: HostRuntime) -> Result<(), Fail> {
    let dry = at(-5, 0, -7).ok_or("no depths")?;
    assert_eq!(rt; (dry.share.lo(), dry.share.hi()), (0, 0));
    assert_eq!(rt; (dry.depth.lo(), dry.depth.hi()), (0, 0));
    let wet = at(3 << 20, 6 << 20, 3 << 20).ok_or("no depths")?;
    assert_eq!(rt; (wet.share.lo(), wet.share.hi()), (1 << 40, 1 << 40));
    assert_eq!(rt; (wet.depth.lo(), wet.depth.hi()), (4 << 20, 4 << 20));
    Ok(())
}

// The shares, in the order of a row.
fn shares_of(means: &WetShare) -> [Span<40>; SHARES] {
    let corner = means.corner;
    let pair = means.pair;
    [
        means.share,
        corner[0],
        corner[1],
        corner[2],
        pair[0],
        pair[1],
        pair[2],
        pair[3],
        pair[4],
        pair[5],
    ]
}

fn depths_of(means: &WetShare) -> [Span<20>; DEPTHS] {
    let weighted = means.weighted;
    [means.depth, weighted[0], weighted[1], weighted[2]]
}

fn agrees(means: &WetShare, numbers: &[i64; NUMBERS]) -> bool {
    let shares = shares_of(means);
    let depths = depths_of(means);
    for mean in 0..SHARES {
        let place = ENDS + 2 * mean;
        let (low, high) = (numbers[place], numbers[place + 1]);
        if !is_around(shares[mean].lo(), shares[mean].hi(), low, high, 8) {
            return false;
        }
    }
    for mean in 0..DEPTHS {
        let place = ENDS + 2 * (SHARES + mean);
        let (low, high) = (numbers[place], numbers[place + 1]);
        if !is_around(depths[mean].lo(), depths[mean].hi(), low, high, 4) {
            return false;
        }
    }
    true
}

#[test]
fn encloses_the_exact_means_of_each_row(rt: HostRuntime) -> Result<(), Fail> {
    let mut count: u32 = 0;
    for line in ROWS.lines() {
        let numbers = numbers_of(line).ok_or("no numbers")?;
        let x = depth(numbers[0], numbers[1]).ok_or("no depth")?;
        let y = depth(numbers[2], numbers[3]).ok_or("no depth")?;
        let z = depth(numbers[4], numbers[5]).ok_or("no depth")?;
        let means = wet([x, y, z]);
        assert!(rt; agrees(&means, &numbers), "{line}");
        let alone = wet_depths([x, y, z]);
        assert_eq!(rt; alone.depth, means.depth);
        for k in 0..3 {
            assert_eq!(rt; alone.weighted[k], means.weighted[k]);
        }
        count = count.wrapping_add(1);
    }
    assert_eq!(rt; count, 60);
    Ok(())
}
