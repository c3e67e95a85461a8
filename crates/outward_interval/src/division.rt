// Quotients of spans, rounded outwards, and the span of a fraction.
ghost use Rattle.std.specs.Prelude.{◌≡◌, ◌≤◌, ◌-◌, ◌*◌, ◌^◌, ℤ, pos, ◌+ℤ◌, ◌-ℤ◌, ◌*ℤ◌, ◌≤ℤ◌, unsigned_abs};
ghost use Rattle.exact_fraction.specs.Bounds.{MagnitudeBelow};
ghost use Rattle.exact_fraction.specs.Fraction.{fraction_of};
ghost use Rattle.exact_algebra.proofs.Fraction.{Fraction, ◌⊗◌, inverse};
ghost use Rattle.exact_algebra.proofs.Products.{magnitude};
ghost use Rattle.exact_algebra.proofs.Span.{ContainsFraction, IsLeastSpanOf};
ghost use Rattle.exact_algebra.proofs.Whole.{whole};
ghost use Rattle.outward_interval.specs.Ends.{EndsBelow, AreLeastEnds, AreQuotientEnds, least_divisor, greatest_divisor};

use crate::Span;
use crate::rounding::{ceiling_div, floor_div, shifted};
use exact_fraction::Ratio;

/// The least span of all from low / d to high / d units.
fn divided<const F: u32>(low: i128, high: i128, d: i128) -> Span<F>
    requires ordered { low ≤ℤ high }
    requires low_end { MagnitudeBelow 126 low }
    requires high_end { MagnitudeBelow 126 high }
    requires divisor { pos 1 ≤ℤ d }
    requires scale { F ≤ 60 }
    ensures { AreLeastEnds low high (unsigned_abs d) result.lo result.hi }
{
    let from = floor_div(low, d);
    let to = ceiling_div(high, d);
    Span { lo: from, hi: to }
}

fn divisor_of_least(n: i128, c: i128, d: i128) -> i128
    ensures { result ≡ least_divisor n c d }
{
    if n < 0 { c } else { d }
}

fn divisor_of_greatest(n: i128, c: i128, d: i128) -> i128
    ensures { result ≡ greatest_divisor n c d }
{
    if n < 0 { d } else { c }
}

impl<const F: u32> Span<F> {
    /// The least span of all quotients by a whole number that is at least 1.
    pub fn over_whole(self, n: i128) -> Span<F>
        requires { pos 1 ≤ℤ n }
        ensures ends { AreLeastEnds self.entry.lo self.entry.hi (unsigned_abs n) result.lo result.hi }
        ensures contains { (x : Fraction) → ContainsFraction F self.entry.lo self.entry.hi x → ContainsFraction F result.lo result.hi (x ⊗ inverse (whole n)) }
        ensures width { ((result.hi -ℤ result.lo) *ℤ pos (unsigned_abs n)) ≤ℤ ((self.entry.hi -ℤ self.entry.lo) +ℤ pos (2 * unsigned_abs n)) }
    {
        divided(self.lo, self.hi, n)
    }

    /// The least span of a fraction, at a scale that is at most 36.
    pub fn of_ratio(q: &Ratio) -> Span<F>
        requires { F ≤ 36 }
        ensures { IsLeastSpanOf F result.lo result.hi (fraction_of q.now) }
    {
        let units = shifted(q.num(), F);
        divided(units, units, q.den())
    }

    /// The least span of all quotients: the divisor's lower end must be at least 1, and the ends of `self` below
    /// 2^(126 - F) in magnitude.
    pub fn over(self, divisor: Span<F>) -> Span<F>
        requires divisor { pos 1 ≤ℤ divisor.lo }
        requires ends { EndsBelow (126 - F) self.lo self.hi }
        ensures ends { AreQuotientEnds F self.entry.lo self.entry.hi divisor.entry.lo divisor.entry.hi result.lo result.hi }
        ensures contains { (x y : Fraction) → ContainsFraction F self.entry.lo self.entry.hi x → ContainsFraction F divisor.entry.lo divisor.entry.hi y → ContainsFraction F result.lo result.hi (x ⊗ inverse y) }
        ensures width { ((result.hi -ℤ result.lo) *ℤ (divisor.entry.lo *ℤ divisor.entry.hi)) ≤ℤ (((self.entry.hi -ℤ self.entry.lo) *ℤ divisor.entry.hi +ℤ pos (magnitude self.entry.lo self.entry.hi) *ℤ (divisor.entry.hi -ℤ divisor.entry.lo)) *ℤ pos (2 ^ F) +ℤ pos 2 *ℤ (divisor.entry.lo *ℤ divisor.entry.hi)) }
    {
        let least = divisor_of_least(self.lo, divisor.lo, divisor.hi);
        let greatest = divisor_of_greatest(self.hi, divisor.lo, divisor.hi);
        let low = shifted(self.lo, F);
        let high = shifted(self.hi, F);
        let from = floor_div(low, least);
        let to = ceiling_div(high, greatest);
        Span { lo: from, hi: to }
    }
}
