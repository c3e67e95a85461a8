// The mean of the depth where it is above 0, alone and weighted by coordinates.
ghost use Rattle.std.specs.Prelude.{◌≡◌, ◌+◌, ◌*◌, ◌^◌, ◌<◌, ◌≤◌, ◌+ℤ◌, unsigned_abs};
ghost use Rattle.plane_clip.specs.Rounded.{Near, AreSmall, is_over, cube, scale, depth_tip, quotient_of_sum, sum_of, depths_from, depths_by, first_depths, depth_ends};

use crate::rounding::{bound_of, is_under_water, part_at, rest_of, scaled};

/// The mean depth in units of 2^-20 mm, and the depth weighted by the coordinate of each corner.
#[derive(Clone, Copy)]
pub(crate) struct Depths {
    pub(crate) depth: i64,
    pub(crate) first: i64,
    pub(crate) second: i64,
    pub(crate) third: i64,
}

impl Depths {
    /// With the second corner in the first's place.
    pub(crate) fn second(self) -> Depths
        ensures depth { result.depth ≡ self.depth }
        ensures first { result.first ≡ self.third }
        ensures second { result.second ≡ self.first }
        ensures third { result.third ≡ self.second }
    {
        Depths {
            depth: self.depth,
            first: self.third,
            second: self.first,
            third: self.second,
        }
    }
}

// What a tip adds: three times the mean depth, and twelve times the weighted means.
#[derive(Clone, Copy)]
struct Tip {
    depth: u64,
    first: u64,
    second: u64,
    third: u64,
    ghost small: { (depth < 2 ^ 42) × (first < 2 ^ 43 + 2 ^ 9) × (second < 2 ^ 43 + 2 ^ 9) × (third < 2 ^ 43 + 2 ^ 9) },
}

const NO_TIP: Tip = Tip {
    depth: 0,
    first: 0,
    second: 0,
    third: 0,
};

const NO_DEPTHS: Depths = Depths {
    depth: 0,
    first: 0,
    second: 0,
    third: 0,
};

// The product of a depth and two parts.
fn cubed(a: u64, t: u64, s: u64, up: bool) -> u64
    requires depth { a < 2 ^ 41 }
    requires parts { (t ≤ 2 ^ 40 + 1) × (s ≤ 2 ^ 40 + 1) }
    ensures value { result ≡ cube up a t s }
    ensures small { result ≤ 2 ^ 41 + 2 ^ 5 }
{
    let square = u128::from(t) * u128::from(s);
    let floor = (u128::from(a) * square >> 80) as u64;
    if up { floor + 1 } else { floor }
}

// The tip at a corner of this magnitude of depth, with the parts of its edges.
fn tip_of(a: u64, t: u64, s: u64, up: bool) -> Tip
    requires depth { a < 2 ^ 41 }
    requires parts { (t ≤ 2 ^ 40) × (s ≤ 2 ^ 40) }
    ensures depth { result.depth ≡ (depth_tip up a t s).depth }
    ensures first { result.first ≡ (depth_tip up a t s).first }
    ensures second { result.second ≡ (depth_tip up a t s).second }
    ensures third { result.third ≡ (depth_tip up a t s).third }
{
    let (before, behind) = (bound_of(t, up), bound_of(s, up));
    let depth = cubed(a, before, behind, up);
    Tip {
        depth,
        first: scaled(depth, 2199023255552 + rest_of(t, up) + rest_of(s, up), up),
        second: scaled(depth, before, up),
        third: scaled(depth, behind, up),
    }
}

#[inline(always)]
fn third_of(whole: i64, tip: u64, up: bool) -> i64
    requires whole { unsigned_abs whole < 3 * 2 ^ 41 }
    requires tip { tip < 2 ^ 42 }
    ensures value { result ≡ quotient_of_sum up 3 whole tip }
    ensures small { unsigned_abs result < 2 ^ 42 }
{
    if up {
        (whole + tip as i64 + 2).div_euclid(3)
    } else {
        (whole + tip as i64).div_euclid(3)
    }
}

#[inline(always)]
fn twelfth_of(whole: i64, tip: u64, up: bool) -> i64
    requires whole { unsigned_abs whole < 2 ^ 43 }
    requires tip { tip < 2 ^ 43 + 2 ^ 9 }
    ensures value { result ≡ quotient_of_sum up 12 whole tip }
    ensures small { unsigned_abs result < 2 ^ 41 }
{
    if up {
        (whole + tip as i64 + 11).div_euclid(12)
    } else {
        (whole + tip as i64).div_euclid(12)
    }
}

#[inline(always)]
fn sum(x: i64, y: i64, z: i64) -> i64
    requires near { Near x × Near y × Near z }
    ensures value { result ≡ sum_of x y z }
    ensures small { unsigned_abs result < 3 * 2 ^ 41 }
{
    x + y + z
}

#[inline(always)]
fn plus(sum: i64, x: i64) -> i64
    requires sum { unsigned_abs sum < 3 * 2 ^ 41 }
    requires near { Near x }
    ensures value { result ≡ sum +ℤ x }
    ensures small { unsigned_abs result < 2 ^ 43 }
{
    sum + x
}

// The means that the depths of a whole triangle and a tip make up.
#[inline(always)]
fn made_up(x: i64, y: i64, z: i64, tip: Tip, up: bool) -> Depths
    requires near { Near x × Near y × Near z }
    ensures depth { result.depth ≡ quotient_of_sum up 3 (sum_of x y z) tip.depth }
    ensures first { result.first ≡ quotient_of_sum up 12 (sum_of x y z +ℤ x) tip.first }
    ensures second { result.second ≡ quotient_of_sum up 12 (sum_of x y z +ℤ y) tip.second }
    ensures third { result.third ≡ quotient_of_sum up 12 (sum_of x y z +ℤ z) tip.third }
    ensures small { AreSmall result.depth result.first result.second result.third }
{
    let sum = sum(x, y, z);
    Depths {
        depth: third_of(sum, tip.depth, up),
        first: twelfth_of(plus(sum, x), tip.first, up),
        second: twelfth_of(plus(sum, y), tip.second, up),
        third: twelfth_of(plus(sum, z), tip.third, up),
    }
}

/// The means where the first corner may lie alone on its side, with the parts of its edges.
pub(crate) fn depths_of(x: i64, y: i64, z: i64, t: u64, s: u64, up: bool) -> Depths
    requires near { Near x × Near y × Near z }
    requires parts { (t ≤ 2 ^ 40) × (s ≤ 2 ^ 40) }
    ensures depth { result.depth ≡ (depths_by up (is_over x) (is_over y) x y z t s).depth }
    ensures first { result.first ≡ (depths_by up (is_over x) (is_over y) x y z t s).first }
    ensures second { result.second ≡ (depths_by up (is_over x) (is_over y) x y z t s).second }
    ensures third { result.third ≡ (depths_by up (is_over x) (is_over y) x y z t s).third }
    ensures small { AreSmall result.depth result.first result.second result.third }
{
    match (is_under_water(x), is_under_water(y)) {
        (false, false) => NO_DEPTHS,
        (true, true) => made_up(x, y, z, NO_TIP, up),
        (true, false) => made_up(0, 0, 0, tip_of(x.unsigned_abs(), t, s, up), up),
        (false, true) => made_up(x, y, z, tip_of(x.unsigned_abs(), t, s, up), up),
    }
}
