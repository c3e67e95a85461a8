ghost use Rattle.std.specs.Prelude.{◌≡◌, true, ℤ, ◌+ℤ◌, ◌-ℤ◌, ◌*ℤ◌};
ghost use Rattle.exact_fraction.specs.Bounds.{MagnitudeBelow};
ghost use Rattle.outward_interval.specs.Ends.{EndsBelow, ProductsBelow};

use crate::{Encloses, Span, decimal_out, excess, join_spans};
use exact_fraction::Ratio;
use std::test::Fail;

#[test]
fn figures_are_rounded_outwards_and_printed_in_full(rt: HostRuntime) -> Result<(), Fail> {
    for (lo, hi, shift, places, low, high, text) in [
        (-1, -1, 0, 6, -1, 0, "[-0.000001,0.000000]"),
        (
            1 << 20,
            1 << 20,
            0,
            6,
            1_000_000,
            1_000_000,
            "[1.000000,1.000000]",
        ),
        (1, 1, 9, 9, 0, 1, "[0.000000000,0.000000001]"),
        (3 << 19, 3 << 19, 0, 0, 1, 2, "[1.,2.]"),
        (-(5 << 20), 7 << 20, 3, 2, -1, 1, "[-0.01,0.01]"),
    ] {
        let span: Span<20> = Span::new(lo, hi).ok_or("no span")?;
        assert_eq!(rt; (span.lo(), span.hi()), (lo, hi));
        assert!(rt; lo.unsigned_abs() < 1 << 96 && hi.unsigned_abs() < 1 << 96);
        assert!(rt; shift <= 12 && places <= 9);
        let figure = span.figure(shift, places);
        assert_eq!(rt; (figure.lo, figure.hi), (low, high));
        let printed = decimal_out(rt.alloc(), figure, places)?;
        assert_eq!(rt; printed.as_str(), text);
    }
    Ok(())
}

#[test]
fn a_span_keeps_its_bounds(rt: HostRuntime) {
    let most: i128 = (1 << 126) - 1;
    for (lo, hi, is_span) in [
        (-most, most, true),
        (0, 0, true),
        (1, 0, false),
        (0, most + 1, false),
        (-most - 1, 0, false),
    ] {
        let span: Option<Span<60>> = Span::new(lo, hi);
        assert_eq!(rt; span.is_some(), is_span, "{lo} {hi}");
    }
    let fine: Option<Span<61>> = Span::new(0, 0);
    assert!(rt; fine.is_none());
}

#[test]
fn products_are_rounded_outwards(rt: HostRuntime) -> Result<(), Fail> {
    let most: i128 = (1 << 126) - 1;
    for (lo, hi, other_lo, other_hi, low, high) in [
        (1, 1, 1, 1, 0, 1),
        (-3, -1, 1, 1, -2, 0),
        (-3, 2, -5, 4, -6, 8),
        (-most, most, 1, 1, -(1 << 125), 1 << 125),
    ] {
        let a: Span<1> = Span::new(lo, hi).ok_or("no span")?;
        let b: Span<1> = Span::new(other_lo, other_hi).ok_or("no span")?;
        let product = multiplied(a, b).ok_or("no product")?;
        assert_eq!(rt; (product.lo(), product.hi()), (low, high));
    }
    Ok(())
}

fn multiplied(a: Span<1>, b: Span<1>) -> Option<Span<1>> {
    if is_small_product(a.lo, b.lo)
        && is_small_product(a.lo, b.hi)
        && is_small_product(a.hi, b.lo)
        && is_small_product(a.hi, b.hi)
    {
        Some(a * b)
    } else {
        None
    }
}

fn is_small_product(a: i128, b: i128) -> bool
    ensures { result ≡ true → MagnitudeBelow 126 (a *ℤ b) }
{
    match a.checked_mul(b) {
        Some(product) => product.unsigned_abs() < 1 << 126,
        None => false,
    }
}

#[test]
fn sums_are_exact(rt: HostRuntime) -> Result<(), Fail> {
    let most: i128 = (1 << 126) - 1;
    for (lo, hi, other_lo, other_hi, low, high) in [
        (1, 2, 10, 20, 11, 22),
        (-most, most - 1, 0, 1, -most, most),
        (-most, 0, 0, 0, -most, 0),
    ] {
        let a: Span<60> = Span::new(lo, hi).ok_or("no span")?;
        let b: Span<60> = Span::new(other_lo, other_hi).ok_or("no span")?;
        let sum = added(a, b).ok_or("no sum")?;
        assert_eq!(rt; (sum.lo(), sum.hi()), (low, high));
        let opposite = -b;
        assert_eq!(rt; (-opposite.lo(), -opposite.hi()), (other_hi, other_lo));
        let both = join_spans(a, b);
        assert_eq!(rt;
            (both.lo(), both.hi()),
            (lo.min(other_lo), hi.max(other_hi))
        );
    }
    Ok(())
}

fn added(a: Span<60>, b: Span<60>) -> Option<Span<60>> {
    if is_small_sum(a.lo, b.lo) && is_small_sum(a.hi, b.hi) {
        Some(a + b)
    } else {
        None
    }
}

fn is_small_sum(a: i128, b: i128) -> bool
    ensures { result ≡ true → MagnitudeBelow 126 (a +ℤ b) }
{
    match a.checked_add(b) {
        Some(sum) => sum.unsigned_abs() < 1 << 126,
        None => false,
    }
}

#[test]
fn quotients_are_rounded_outwards(rt: HostRuntime) -> Result<(), Fail> {
    for (lo, hi, by, low, high) in [(1, 7, 2, 0, 4), (-7, -1, 2, -4, 0), (-6, 9, 3, -2, 3)] {
        let a: Span<2> = Span::new(lo, hi).ok_or("no span")?;
        let over = a.over_whole(by);
        assert_eq!(rt; (over.lo(), over.hi()), (low, high));
    }
    for (lo, hi, by_lo, by_hi, low, high) in [
        (1, 1, 3, 3, 1, 2),
        (-1, 5, 2, 8, -2, 10),
        (-9, -1, 3, 5, -12, 0),
        (8, 8, 4, 8, 4, 8),
    ] {
        let a: Span<2> = Span::new(lo, hi).ok_or("no span")?;
        let by: Span<2> = Span::new(by_lo, by_hi).ok_or("no span")?;
        assert!(rt;
            by.lo() >= 1 && a.lo().unsigned_abs() < 1 << 124 && a.hi().unsigned_abs() < 1 << 124
        );
        let over = a.over(by);
        assert_eq!(rt; (over.lo(), over.hi()), (low, high));
    }
    Ok(())
}

#[test]
fn a_fraction_is_compared_exactly(rt: HostRuntime) -> Result<(), Fail> {
    for (num, den, low, high, meets, above, below) in [
        (1, 3, 0, 1, true, false, false),
        (1, 2, 1, 1, true, false, true),
        (-1, 3, 0, 1, false, false, true),
        (1, 1, 0, 1, false, true, false),
        (0, 5, 0, 1, true, false, true),
    ] {
        let q = Ratio::new(num, den).ok_or("no ratio")?;
        let span: Span<1> = Span::new(low, high).ok_or("no span")?;
        assert!(rt; span.lo().unsigned_abs() < 1 << 90 && span.hi().unsigned_abs() < 1 << 90);
        assert_eq!(rt; span.meets(&q), meets, "{num} {den}");
        assert_eq!(rt; span.upper_below(&q), above, "{num} {den}");
        assert_eq!(rt; span.lower_reaches(&q), below, "{num} {den}");
        assert_eq!(rt; span.holds(&q), meets, "{num} {den}");
        let least: Span<1> = Span::of_ratio(&q);
        assert!(rt; least.units() <= 1, "{num} {den}");
    }
    Ok(())
}

#[test]
fn a_residual_has_its_parts(rt: HostRuntime) -> Result<(), Fail> {
    for (x_end, volume, moment, owed, low, high) in [
        ((2, 2), (3, 3), (1, 1), (4, 4), 1, 1),
        ((-1, 2), (3, 4), (0, 1), (-5, 0), -5, 13),
    ] {
        let x_end: Span<0> = Span::new(x_end.0, x_end.1).ok_or("no span")?;
        let volume: Span<0> = Span::new(volume.0, volume.1).ok_or("no span")?;
        let moment: Span<0> = Span::new(moment.0, moment.1).ok_or("no span")?;
        let owed: Span<0> = Span::new(owed.0, owed.1).ok_or("no span")?;
        let residual = residual(x_end, volume, moment, owed).ok_or("no residual")?;
        assert_eq!(rt; (residual.lo(), residual.hi()), (low, high));
    }
    Ok(())
}

fn residual(x_end: Span<0>, volume: Span<0>, moment: Span<0>, owed: Span<0>) -> Option<Span<0>> {
    if has_small_products(x_end, volume) {
        let product = x_end * volume;
        if has_small_differences(product, moment) {
            let difference = product - moment;
            if has_small_differences(difference, owed) {
                return Some(excess(x_end, volume, moment, owed));
            }
        }
    }
    None
}

fn has_small_products(a: Span<0>, b: Span<0>) -> bool
    ensures { result ≡ true → ProductsBelow 126 a.lo a.hi b.lo b.hi }
{
    if is_small_product(a.lo, b.lo)
        && is_small_product(a.lo, b.hi)
        && is_small_product(a.hi, b.lo)
        && is_small_product(a.hi, b.hi)
    {
        return true;
    }
    false
}

fn has_small_differences(a: Span<0>, b: Span<0>) -> bool
    ensures { result ≡ true → EndsBelow 126 (a.lo -ℤ b.hi) (a.hi -ℤ b.lo) }
{
    is_small_difference(a.lo, b.hi) && is_small_difference(a.hi, b.lo)
}

fn is_small_difference(a: i128, b: i128) -> bool
    ensures { result ≡ true → MagnitudeBelow 126 (a -ℤ b) }
{
    match a.checked_sub(b) {
        Some(difference) => difference.unsigned_abs() < 1 << 126,
        None => false,
    }
}

#[test]
fn scales_change_outwards(rt: HostRuntime) -> Result<(), Fail> {
    for (lo, hi, n, times_low, times_high, coarse_low, coarse_high) in [
        (5, 7, -2, -14, -10, 0, 1),
        (-5, 16, 3, -15, 48, -1, 1),
        (-16, -15, 1, -16, -15, -1, 0),
    ] {
        let span: Span<4> = Span::new(lo, hi).ok_or("no span")?;
        let times = times_whole(span, n).ok_or("no multiple")?;
        assert_eq!(rt; (times.lo(), times.hi()), (times_low, times_high));
        let coarse = coarser(span);
        assert_eq!(rt; (coarse.lo(), coarse.hi()), (coarse_low, coarse_high));
    }
    Ok(())
}

#[test]
fn other_scales_are_met_outwards(rt: HostRuntime) -> Result<(), Fail> {
    for (lo, hi, fine_low, fine_high, half_low, half_high) in [
        (5, 7, 20, 28, 2, 4),
        (-5, 16, -20, 64, -3, 8),
        (-16, -15, -64, -60, -8, -7),
    ] {
        let span: Span<4> = Span::new(lo, hi).ok_or("no span")?;
        let fine = finer(span).ok_or("no finer span")?;
        assert_eq!(rt; (fine.lo(), fine.hi()), (fine_low, fine_high));
        let half: Span<1> = Span::new(1, 1).ok_or("no span")?;
        let halved = scaled(span, half).ok_or("no product")?;
        assert_eq!(rt; (halved.lo(), halved.hi()), (half_low, half_high));
    }
    Ok(())
}

fn finer(span: Span<4>) -> Option<Span<6>> {
    if is_small_product(span.lo, 4) && is_small_product(span.hi, 4) {
        Some(span.rescale())
    } else {
        None
    }
}

fn scaled(a: Span<4>, b: Span<1>) -> Option<Span<4>> {
    if is_small_product(a.lo, b.lo)
        && is_small_product(a.lo, b.hi)
        && is_small_product(a.hi, b.lo)
        && is_small_product(a.hi, b.hi)
    {
        Some(a.scaled_by(b))
    } else {
        None
    }
}

fn times_whole(span: Span<4>, n: i128) -> Option<Span<4>> {
    if is_small_product(span.lo, n) && is_small_product(span.hi, n) {
        Some(span.times_whole(n))
    } else {
        None
    }
}

fn coarser(span: Span<4>) -> Span<0> {
    span.rescale()
}
