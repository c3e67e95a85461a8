// What encloses fractions, with its laws.
ghost use Rattle.std.specs.Prelude.{◌≡◌, ◌↔◌, ◌≤◌, ◌^◌, ◌*◌, ℕ, true, ℤ, pos, ◌+ℤ◌, ◌-ℤ◌, ◌*ℤ◌, ◌≤ℤ◌};
ghost use Rattle.exact_fraction.specs.Fraction.{fraction_of};
ghost use Rattle.exact_algebra.proofs.Fraction.{Fraction, ◌⊕◌, ◌⊖◌, ◌⊗◌, negative};
ghost use Rattle.exact_algebra.proofs.Span.{ContainsFraction};
ghost use Rattle.exact_algebra.proofs.Products.{magnitude};
ghost use Rattle.outward_interval.specs.Ends.{EndsBelow};
ghost use Rattle.outward_interval.specs.Laws.{sum_contains, difference_contains, negative_contains, product_contains, sum_width, difference_width, negative_width, product_width};

use crate::Span;
use exact_fraction::Ratio;
use std::ops::{Add, Mul, Neg, Sub};

/// A value that encloses fractions, with operators whose results enclose what is computed of them.
///
/// Each operator has its own condition. The laws are all that code over this trait may use.
pub trait Encloses: Copy
    + Add<Output = Self>
    + Sub<Output = Self>
    + Neg<Output = Self>
    + Mul<Output = Self> {
    /// A value contains a fraction.
    ghost contains: { Self → Fraction → Type 0 };

    /// The number of units in 1.
    ghost one: { ℕ };

    /// The greatest magnitude of an end, in units.
    ghost size: { Self → ℕ };

    /// The width, in units.
    ghost width: { Self → ℤ };

    /// The condition of `holds`.
    ghost can_hold: { Self → Type 0 };

    /// Whether the value contains a fraction.
    fn holds(&self, q: &Ratio) -> bool
        requires { can_hold self.now }
        ensures { (result ≡ true) ↔ contains self.now (fraction_of q.now) };

    /// The width, in units.
    fn units(&self) -> i128
        ensures { result ≡ width self.now };

    /// A sum, a difference, an opposite and a product contain those of what the parts contain.
    ghost sums: { (a b r : Self) (p q : Fraction) → Self.Add.can_add a b → Self.Add.add_gives a b r → contains a p → contains b q → contains r (p ⊕ q) };

    ghost differences: { (a b r : Self) (p q : Fraction) → Self.Sub.can_sub a b → Self.Sub.sub_gives a b r → contains a p → contains b q → contains r (p ⊖ q) };

    ghost negatives: { (a r : Self) (p : Fraction) → Self.Neg.can_neg a → Self.Neg.neg_gives a r → contains a p → contains r (negative p) };

    ghost products: { (a b r : Self) (p q : Fraction) → Self.Mul.can_mul a b → Self.Mul.mul_gives a b r → contains a p → contains b q → contains r (p ⊗ q) };

    /// A sum and a difference are as wide as both parts together, and an opposite as wide as its value.
    ghost sum_widths: { (a b r : Self) → Self.Add.can_add a b → Self.Add.add_gives a b r → width r ≡ width a +ℤ width b };

    ghost difference_widths: { (a b r : Self) → Self.Sub.can_sub a b → Self.Sub.sub_gives a b r → width r ≡ width a +ℤ width b };

    ghost negative_widths: { (a r : Self) → Self.Neg.can_neg a → Self.Neg.neg_gives a r → width r ≡ width a };

    /// A product is no wider than the size of each part times the width of the other, and one unit of rounding at each end.
    ghost product_widths: { (a b r : Self) → Self.Mul.can_mul a b → Self.Mul.mul_gives a b r → (width r *ℤ pos one) ≤ℤ ((pos (size a) *ℤ width b +ℤ pos (size b) *ℤ width a) +ℤ pos (2 * one)) };
}

impl<const F: u32> Encloses for Span<F> {
    ghost contains = { λ s q. ContainsFraction F s.lo s.hi q };

    ghost one = { 2 ^ F };

    ghost size = { λ s. magnitude s.lo s.hi };

    ghost width = { λ s. s.hi -ℤ s.lo };

    ghost can_hold = { λ s. (F ≤ 36) × EndsBelow 90 s.lo s.hi };

    fn holds(&self, q: &Ratio) -> bool {
        self.meets(q)
    }

    fn units(&self) -> i128 {
        self.hi - self.lo
    }

    ghost sums = { λ a b r p q can gives x y. sum_contains F a.lo a.hi b.lo b.hi r.lo r.hi p q gives x y };

    ghost differences = { λ a b r p q can gives x y. difference_contains F a.lo a.hi b.lo b.hi r.lo r.hi p q gives x y };

    ghost negatives = { λ a r p can gives x. negative_contains F a.lo a.hi r.lo r.hi p gives x };

    ghost products = { λ a b r p q can gives x y. product_contains F a.lo a.hi b.lo b.hi r.lo r.hi p q gives x y };

    ghost sum_widths = { λ a b r can gives. sum_width a.lo a.hi b.lo b.hi r.lo r.hi gives };

    ghost difference_widths = { λ a b r can gives. difference_width a.lo a.hi b.lo b.hi r.lo r.hi gives };

    ghost negative_widths = { λ a r can gives. negative_width a.lo a.hi r.lo r.hi gives };

    ghost product_widths = { λ a b r can gives. product_width (2 ^ F) a.lo a.hi b.lo b.hi r.lo r.hi a.ordered b.ordered gives };
}
