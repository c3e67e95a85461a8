// Sums, differences and opposites of spans.
ghost use Rattle.std.specs.Prelude.{◌≡◌, ◌⊎◌, ◌+ℤ◌, ◌-ℤ◌, neg_ℤ};
ghost use Rattle.std.specs.Int.{int_min, int_max};
ghost use Rattle.exact_algebra.proofs.Fraction.{Fraction};
ghost use Rattle.exact_algebra.proofs.Span.{ContainsFraction};
ghost use Rattle.outward_interval.specs.Ends.{EndsBelow, AreEnds};

use crate::Span;
use crate::rounding::opposite;
use crate::steps::{difference, greater, lesser, sum};
use std::ops::{Add, Neg, Sub};

/// The least span of all sums, exactly: the ends of the sum must stay below 2^126 in magnitude.
impl<const F: u32> Add for Span<F> {
    type Output = Span<F>;

    ghost can_add = { λ a b. EndsBelow 126 (a.lo +ℤ b.lo) (a.hi +ℤ b.hi) };

    ghost add_gives = { λ a b r. AreEnds (a.lo +ℤ b.lo) (a.hi +ℤ b.hi) r.lo r.hi };

    fn add(self, other: Span<F>) -> Span<F> {
        Span {
            lo: sum(self.lo, other.lo),
            hi: sum(self.hi, other.hi),
        }
    }
}

/// The least span of all differences, exactly: the ends of the difference must stay below 2^126 in magnitude.
impl<const F: u32> Sub for Span<F> {
    type Output = Span<F>;

    ghost can_sub = { λ a b. EndsBelow 126 (a.lo -ℤ b.hi) (a.hi -ℤ b.lo) };

    ghost sub_gives = { λ a b r. AreEnds (a.lo -ℤ b.hi) (a.hi -ℤ b.lo) r.lo r.hi };

    fn sub(self, other: Span<F>) -> Span<F> {
        Span {
            lo: difference(self.lo, other.hi),
            hi: difference(self.hi, other.lo),
        }
    }
}

/// The least span of all opposites, exactly.
impl<const F: u32> Neg for Span<F> {
    type Output = Span<F>;

    ghost neg_gives = { λ a r. AreEnds (neg_ℤ a.hi) (neg_ℤ a.lo) r.lo r.hi };

    fn neg(self) -> Span<F> {
        Span {
            lo: opposite(self.hi),
            hi: opposite(self.lo),
        }
    }
}

/// The least span that has both.
pub fn join_spans<const F: u32>(a: Span<F>, b: Span<F>) -> Span<F>
    ensures ends { AreEnds (int_min a.entry.lo b.entry.lo) (int_max a.entry.hi b.entry.hi) result.lo result.hi }
    ensures contains { (x : Fraction) → ContainsFraction F a.entry.lo a.entry.hi x ⊎ ContainsFraction F b.entry.lo b.entry.hi x → ContainsFraction F result.lo result.hi x }
{
    Span {
        lo: lesser(a.lo, b.lo),
        hi: greater(a.hi, b.hi),
    }
}
