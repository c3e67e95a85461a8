// A fraction against the ends of a span.
ghost use Rattle.std.specs.Prelude.{◌≡◌, ◌↔◌, ◌≤◌, ◌^◌, true, ℤ, pos, ◌*ℤ◌, ◌≤ℤ◌, ◌<ℤ◌};
ghost use Rattle.exact_fraction.specs.Bounds.{MagnitudeBelow};
ghost use Rattle.exact_fraction.specs.Fraction.{fraction_of, denominator};
ghost use Rattle.exact_algebra.proofs.Fraction.{◌≼◌, ◌≺◌};
ghost use Rattle.exact_algebra.proofs.Span.{ContainsFraction, in_units};
ghost use Rattle.exact_algebra.proofs.Whole.{whole};
ghost use Rattle.outward_interval.specs.Ends.{EndsBelow};

use crate::Span;
use crate::rounding::{product, shifted};
use exact_fraction::Ratio;

// The numerator in units of 2^-scale.
fn numerator_in_units(q: &Ratio, scale: u32) -> i128
    requires { scale ≤ 36 }
    ensures { result ≡ q.now.num *ℤ pos (2 ^ scale) }
{
    shifted(q.num(), scale)
}

// An end times the denominator.
fn end_over(end: i128, q: &Ratio) -> i128
    requires { MagnitudeBelow 90 end }
    ensures { result ≡ end *ℤ pos (denominator q.now) }
{
    product(end, q.den())
}

fn is_between(low: i128, n: i128, high: i128) -> bool
    ensures { (result ≡ true) ↔ ((low ≤ℤ n) × (n ≤ℤ high)) }
{
    low <= n && n <= high
}

fn is_less(a: i128, b: i128) -> bool
    ensures { (result ≡ true) ↔ (a <ℤ b) }
{
    a < b
}

fn is_at_most(a: i128, b: i128) -> bool
    ensures { (result ≡ true) ↔ (a ≤ℤ b) }
{
    a <= b
}

impl<const F: u32> Span<F> {
    /// Whether the span contains a fraction; the scale must be at most 36, and the ends below 2^90 in magnitude.
    pub fn meets(&self, q: &Ratio) -> bool
        requires scale { F ≤ 36 }
        requires ends { EndsBelow 90 self.now.lo self.now.hi }
        ensures { (result ≡ true) ↔ ContainsFraction F self.now.lo self.now.hi (fraction_of q.now) }
    {
        let low = end_over(self.lo, q);
        let units = numerator_in_units(q, F);
        let high = end_over(self.hi, q);
        is_between(low, units, high)
    }

    /// Whether the whole span lies below a fraction, under the condition of `meets`.
    pub fn upper_below(&self, q: &Ratio) -> bool
        requires scale { F ≤ 36 }
        requires ends { EndsBelow 90 self.now.lo self.now.hi }
        ensures { (result ≡ true) ↔ (whole self.now.hi ≺ in_units F (fraction_of q.now)) }
    {
        let high = end_over(self.hi, q);
        let units = numerator_in_units(q, F);
        is_less(high, units)
    }

    /// Whether the whole span lies at or above a fraction, under the condition of `meets`.
    pub fn lower_reaches(&self, q: &Ratio) -> bool
        requires scale { F ≤ 36 }
        requires ends { EndsBelow 90 self.now.lo self.now.hi }
        ensures { (result ≡ true) ↔ (in_units F (fraction_of q.now) ≼ whole self.now.lo) }
    {
        let units = numerator_in_units(q, F);
        let low = end_over(self.lo, q);
        is_at_most(units, low)
    }
}
