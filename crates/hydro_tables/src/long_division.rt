// Quotients of spans by long division. 2^20 times what is divided need not fit 128 bits: the whole quotient is taken
// first, and then what is left over is scaled and divided.
ghost use Rattle.std.specs.Prelude.{◌≡◌, ◌≤◌, ◌<◌, ◌^◌, ℤ, pos, neg_ℤ, ◌+ℤ◌, ◌*ℤ◌, ◌≤ℤ◌, ◌<ℤ◌, unsigned_abs};
ghost use Rattle.exact_algebra.specs.Span.{IsFloor, IsCeiling};
ghost use Rattle.exact_fraction.specs.Bounds.{MagnitudeBelow};
ghost use Rattle.outward_interval.specs.Ends.{EndsBelow, AreQuotientEnds, least_divisor, greatest_divisor};
ghost use Rattle.hydro_tables.specs.Bounds.{IsSmallBeside};

use outward_interval::Span;

/// Units of a span in one.
const UNITS: i128 = 1 << 20;

/// The least span of all quotients, where none reaches 2^94.
pub(crate) fn over(moment: Span<20>, divisor: Span<20>) -> Span<20>
    requires divisor { pos 1 ≤ℤ divisor.lo }
    requires size { EndsBelow 96 divisor.lo divisor.hi }
    requires small { IsSmallBeside 94 divisor moment }
    ensures { AreQuotientEnds 20 moment.lo moment.hi divisor.lo divisor.hi result.lo result.hi }
{
    let (from, to) = ends_over(moment, divisor);
    match Span::new(from, to) {
        Some(quotients) => quotients,
        None => unreachable!(),
    }
}

fn ends_over(moment: Span<20>, divisor: Span<20>) -> (i128, i128)
    requires divisor { pos 1 ≤ℤ divisor.lo }
    requires size { EndsBelow 96 divisor.lo divisor.hi }
    requires small { IsSmallBeside 94 divisor moment }
    ensures ends { AreQuotientEnds 20 moment.lo moment.hi divisor.lo divisor.hi result.0 result.1 }
    ensures low { MagnitudeBelow 126 result.0 }
    ensures high { MagnitudeBelow 126 result.1 }
{
    let low = moment.lo();
    let high = moment.hi();
    let from = floor_of_quotient(low, divisor_of_least(low, divisor));
    let to = ceiling_of_quotient(high, divisor_of_greatest(high, divisor));
    (from, to)
}

fn divisor_of_least(n: i128, divisor: Span<20>) -> i128
    ensures { result ≡ least_divisor n divisor.lo divisor.hi }
{
    if n < 0 { divisor.lo() } else { divisor.hi() }
}

fn divisor_of_greatest(n: i128, divisor: Span<20>) -> i128
    ensures { result ≡ greatest_divisor n divisor.lo divisor.hi }
{
    if n < 0 { divisor.hi() } else { divisor.lo() }
}

// The floor of n · 2^20 / d, where n / d is below 2^94 in magnitude.
fn floor_of_quotient(n: i128, d: i128) -> i128
    requires divisor { pos 1 ≤ℤ d }
    requires size { MagnitudeBelow 96 d }
    requires small { pos (unsigned_abs n) <ℤ (d *ℤ pos (2 ^ 94)) }
    ensures floor { IsFloor (n *ℤ pos (2 ^ 20)) (unsigned_abs d) result }
    ensures size { MagnitudeBelow 126 result }
{
    let whole = n.div_euclid(d);
    let rest = n.rem_euclid(d);
    joined(whole, part_of(rest, d))
}

// The ceiling of n · 2^20 / d, where n / d is below 2^94 in magnitude.
fn ceiling_of_quotient(n: i128, d: i128) -> i128
    requires divisor { pos 1 ≤ℤ d }
    requires size { MagnitudeBelow 96 d }
    requires number { MagnitudeBelow 126 n }
    requires small { pos (unsigned_abs n) <ℤ (d *ℤ pos (2 ^ 94)) }
    ensures ceiling { IsCeiling (n *ℤ pos (2 ^ 20)) (unsigned_abs d) result }
    ensures size { MagnitudeBelow 126 result }
{
    opposite(floor_of_quotient(opposite(n), d))
}

// The floor of rest · 2^20 / d.
fn part_of(rest: i128, d: i128) -> i128
    requires divisor { pos 1 ≤ℤ d }
    requires size { MagnitudeBelow 96 d }
    requires rest { unsigned_abs rest < unsigned_abs d }
    ensures floor { IsFloor (rest *ℤ pos (2 ^ 20)) (unsigned_abs d) result }
    ensures size { unsigned_abs result ≤ 2 ^ 20 }
{
    (rest * UNITS).div_euclid(d)
}

fn joined(whole: i128, part: i128) -> i128
    requires whole { unsigned_abs whole ≤ 2 ^ 94 }
    requires part { unsigned_abs part ≤ 2 ^ 20 }
    ensures value { result ≡ (whole *ℤ pos (2 ^ 20)) +ℤ part }
    ensures size { MagnitudeBelow 126 result }
{
    whole * UNITS + part
}

fn opposite(n: i128) -> i128
    requires { MagnitudeBelow 126 n }
    ensures value { result ≡ neg_ℤ n }
    ensures size { MagnitudeBelow 126 result }
{
    -n
}
