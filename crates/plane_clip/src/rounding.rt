// Products and quotients, rounded down or up.
ghost use Rattle.std.specs.Prelude.{◌≡◌, ◌+◌, ◌*◌, ◌/◌, ◌^◌, ◌≤◌, ◌<◌};
ghost use Rattle.plane_clip.specs.Rounded.{scale, quotient, bound, rest, part, part_between, is_over, Near};

/// One in units of 2^-40.
pub(crate) const ONE: u64 = 1 << 40;

pub(crate) fn is_under_water(h: i64) -> bool
    ensures { result ≡ is_over h }
{
    h > 0
}

/// The product in units of 2^-40.
pub(crate) fn scaled(x: u64, y: u64, up: bool) -> u64
    requires first { x ≤ 2 ^ 44 }
    requires second { y ≤ 2 ^ 43 }
    ensures value { result ≡ scale up x y }
    ensures small { y ≤ 2 ^ 40 + 1 → result ≤ x + 2 ^ 5 }
    ensures most { y ≤ 2 ^ 42 → result ≤ 4 * x + 1 }
{
    let floor = (u128::from(x) * u128::from(y) >> 40) as u64;
    if up { floor + 1 } else { floor }
}

// Divisors are written out, so that each quotient below is a product and a shift.
pub(crate) fn over_three(n: u64, up: bool) -> u64
    ensures { result ≡ quotient up 3 n }
{
    if up { n.div_ceil(3) } else { n / 3 }
}

pub(crate) fn over_six(n: u64, up: bool) -> u64
    ensures { result ≡ quotient up 6 n }
{
    if up { n.div_ceil(6) } else { n / 6 }
}

pub(crate) fn over_twelve(n: u64, up: bool) -> u64
    ensures { result ≡ quotient up 12 n }
{
    if up { n.div_ceil(12) } else { n / 12 }
}

/// A bound of a part that was rounded down.
pub(crate) fn bound_of(t: u64, up: bool) -> u64
    requires { t ≤ 2 ^ 40 }
    ensures value { result ≡ bound up t }
    ensures most { result ≤ 2 ^ 40 + 1 }
{
    if up { t + 1 } else { t }
}

/// A bound of the complement of a part that was rounded down.
pub(crate) fn rest_of(t: u64, up: bool) -> u64
    requires { t ≤ 2 ^ 40 }
    ensures value { result ≡ rest up t }
    ensures most { result ≤ 2 ^ 40 }
{
    if up {
        ONE - t
    } else {
        (ONE - 1).saturating_sub(t)
    }
}

// a / (a + b) in units of 2^-40, rounded down, by two divisions of one word.
fn part_of(a: u64, b: u64) -> u64
    requires first { a < 2 ^ 41 }
    requires second { b < 2 ^ 41 }
    requires some { 0 < a + b }
    ensures value { result ≡ part a b }
    ensures most { result ≤ 2 ^ 40 }
{
    let whole = a + b;
    let first = a * 4194304;
    let above = first / whole;
    let left = first % whole;
    above * 262144 + left * 262144 / whole
}

/// The part of the edge between two depths that lies before the crossing point, rounded down; 0 where both
/// lie on one side.
pub(crate) fn part_at(x: i64, y: i64) -> u64
    requires near { Near x × Near y }
    ensures value { result ≡ part_between x y }
    ensures most { result ≤ 2 ^ 40 }
{
    if is_under_water(x) == is_under_water(y) {
        0
    } else {
        part_of(x.unsigned_abs(), y.unsigned_abs())
    }
}
