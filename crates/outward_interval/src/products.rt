// Products of spans, rounded outwards.
ghost use Rattle.std.specs.Prelude.{◌≡◌, ◌≤◌, ◌^◌, ◌-◌, ◌*◌, ℤ, pos, ◌+ℤ◌, ◌-ℤ◌, ◌*ℤ◌, ◌≤ℤ◌, unsigned_abs};
ghost use Rattle.std.specs.Int.{int_min, int_max};
ghost use Rattle.exact_fraction.specs.Bounds.{MagnitudeBelow};
ghost use Rattle.exact_algebra.proofs.Fraction.{Fraction, ◌⊗◌};
ghost use Rattle.exact_algebra.proofs.Products.{magnitude};
ghost use Rattle.exact_algebra.proofs.Span.{ContainsFraction};
ghost use Rattle.exact_algebra.proofs.Whole.{whole};
ghost use Rattle.outward_interval.specs.Ends.{EndsBelow, ProductsBelow, AreEnds, AreLeastEnds, least_product, greatest_product};

use crate::Span;
use crate::rounding::{ceiling_shift, floor_shift, product, shifted};
use crate::steps::{greater, lesser};
use std::ops::Mul;

/// The least span of all from low / 2^shift to high / 2^shift units.
pub(crate) fn rounded<const F: u32>(low: i128, high: i128, shift: u32) -> Span<F>
    requires ordered { low ≤ℤ high }
    requires low_end { MagnitudeBelow 126 low }
    requires high_end { MagnitudeBelow 126 high }
    requires shift { shift ≤ 60 }
    requires scale { F ≤ 60 }
    ensures { AreLeastEnds low high (2 ^ shift) result.lo result.hi }
{
    let from = floor_shift(low, shift);
    let to = ceiling_shift(high, shift);
    Span { lo: from, hi: to }
}

/// The least product of a number from a to b by one from c to d. Their signs tell of which ends it is, except where both
/// ranges lie on both sides of 0.
fn least_product(a: i128, b: i128, c: i128, d: i128) -> i128
    requires first { a ≤ℤ b }
    requires second { c ≤ℤ d }
    requires products { ProductsBelow 126 a b c d }
    ensures value { result ≡ least_product a b c d }
    ensures size { MagnitudeBelow 126 result }
{
    if c >= 0 {
        if a >= 0 { product(a, c) } else { product(a, d) }
    } else if d <= 0 {
        if b >= 0 { product(b, c) } else { product(b, d) }
    } else if a >= 0 {
        product(b, c)
    } else if b <= 0 {
        product(a, d)
    } else {
        lesser(product(a, d), product(b, c))
    }
}

/// The greatest product of a number from a to b by one from c to d.
fn greatest_product(a: i128, b: i128, c: i128, d: i128) -> i128
    requires first { a ≤ℤ b }
    requires second { c ≤ℤ d }
    requires products { ProductsBelow 126 a b c d }
    ensures value { result ≡ greatest_product a b c d }
    ensures size { MagnitudeBelow 126 result }
{
    if c >= 0 {
        if b >= 0 { product(b, d) } else { product(b, c) }
    } else if d <= 0 {
        if a >= 0 { product(a, d) } else { product(a, c) }
    } else if a >= 0 {
        product(b, d)
    } else if b <= 0 {
        product(a, c)
    } else {
        greater(product(a, c), product(b, d))
    }
}

impl<const F: u32> Span<F> {
    /// The least span of all products with a number of `factor`: the four products of ends must be below 2^126 in magnitude.
    pub fn scaled_by<const G: u32>(self, factor: Span<G>) -> Span<F>
        requires { ProductsBelow 126 self.lo self.hi factor.lo factor.hi }
        ensures ends { AreLeastEnds (least_product self.entry.lo self.entry.hi factor.entry.lo factor.entry.hi) (greatest_product self.entry.lo self.entry.hi factor.entry.lo factor.entry.hi) (2 ^ G) result.lo result.hi }
        ensures contains { (x y : Fraction) → ContainsFraction F self.entry.lo self.entry.hi x → ContainsFraction G factor.entry.lo factor.entry.hi y → ContainsFraction F result.lo result.hi (x ⊗ y) }
        ensures width { ((result.hi -ℤ result.lo) *ℤ pos (2 ^ G)) ≤ℤ ((pos (magnitude self.entry.lo self.entry.hi) *ℤ (factor.entry.hi -ℤ factor.entry.lo) +ℤ pos (magnitude factor.entry.lo factor.entry.hi) *ℤ (self.entry.hi -ℤ self.entry.lo)) +ℤ pos (2 * 2 ^ G)) }
    {
        let low = least_product(self.lo, self.hi, factor.lo, factor.hi);
        let high = greatest_product(self.lo, self.hi, factor.lo, factor.hi);
        rounded(low, high, G)
    }

    /// The span times a whole number, exactly: the ends must stay below 2^126 in magnitude.
    pub fn times_whole(self, n: i128) -> Span<F>
        requires { EndsBelow 126 (self.lo *ℤ n) (self.hi *ℤ n) }
        ensures ends { AreEnds (int_min (self.entry.lo *ℤ n) (self.entry.hi *ℤ n)) (int_max (self.entry.lo *ℤ n) (self.entry.hi *ℤ n)) result.lo result.hi }
        ensures contains { (x : Fraction) → ContainsFraction F self.entry.lo self.entry.hi x → ContainsFraction F result.lo result.hi (x ⊗ whole n) }
        ensures width { result.hi -ℤ result.lo ≡ pos (unsigned_abs n) *ℤ (self.entry.hi -ℤ self.entry.lo) }
    {
        let p = product(self.lo, n);
        let q = product(self.hi, n);
        Span {
            lo: lesser(p, q),
            hi: greater(p, q),
        }
    }

    /// The least span of scale `G`, at most 60: its ends must be below 2^126 in magnitude, as they are where `G` is at most `F`.
    pub fn rescale<const G: u32>(self) -> Span<G>
        requires scale { G ≤ 60 }
        requires ends { EndsBelow 126 (self.lo *ℤ pos (2 ^ (G - F))) (self.hi *ℤ pos (2 ^ (G - F))) }
        ensures ends { AreLeastEnds (self.entry.lo *ℤ pos (2 ^ G)) (self.entry.hi *ℤ pos (2 ^ G)) (2 ^ F) result.lo result.hi }
        ensures contains { (x : Fraction) → ContainsFraction F self.entry.lo self.entry.hi x → ContainsFraction G result.lo result.hi x }
        ensures width { ((result.hi -ℤ result.lo) *ℤ pos (2 ^ F)) ≤ℤ (((self.entry.hi -ℤ self.entry.lo) *ℤ pos (2 ^ G)) +ℤ pos (2 * 2 ^ F)) }
    {
        let finer = G.saturating_sub(F);
        let coarser = F.saturating_sub(G);
        let low = shifted(self.lo, finer);
        let high = shifted(self.hi, finer);
        rounded(low, high, coarser)
    }
}

/// The least span of all products: the four products of ends must be below 2^126 in magnitude.
impl<const F: u32> Mul for Span<F> {
    type Output = Span<F>;

    ghost can_mul = { λ a b. ProductsBelow 126 a.lo a.hi b.lo b.hi };

    ghost mul_gives = { λ a b r. AreLeastEnds (least_product a.lo a.hi b.lo b.hi) (greatest_product a.lo a.hi b.lo b.hi) (2 ^ F) r.lo r.hi };

    fn mul(self, factor: Span<F>) -> Span<F> {
        self.scaled_by(factor)
    }
}
