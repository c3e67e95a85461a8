// Multiples of a cosine or a sine in one word.
ghost use Rattle.std.specs.Prelude.{◌≡◌, ◌*◌, ◌^◌, ◌≤◌, ◌≤ℤ◌, ◌+ℤ◌, ◌-ℤ◌, ◌*ℤ◌, ℤ, pos, unsigned_abs};
ghost use Rattle.std.specs.Int.{int_min, int_max};
ghost use Rattle.exact_algebra.proofs.Fraction.{Fraction, ◌⊗◌};
ghost use Rattle.exact_algebra.proofs.Span.{ContainsFraction};
ghost use Rattle.exact_algebra.proofs.Whole.{whole};
ghost use Rattle.exact_algebra.specs.Span.{IsFloor, IsCeiling};
ghost use Rattle.exact_fraction.specs.Bounds.{MagnitudeBelow};
ghost use Rattle.outward_interval.specs.Ends.{AreEnds, AreLeastEnds};
ghost use Rattle.outward_interval.specs.Widths.{IsNarrow};
ghost use Rattle.flux_moments.specs.Limits.{EndsAtMost};

use outward_interval::Span;

/// How many bits finer the units of multiples are than those of lengths.
const FINER: u32 = 20;

/// All numbers from `lo` to `hi`, in units of 2^-40.
///
/// It keeps that `lo` is at most `hi`, and that both are small enough for two to be added in one word.
#[derive(Clone, Copy)]
pub(crate) struct Multiples {
    lo: i64,
    hi: i64,
    ghost ordered: { lo ≤ℤ hi },
    ghost ends: { EndsAtMost (2 ^ 56) lo hi },
}

impl Multiples {
    /// All numbers of a span from 0 to 1, each times a coordinate in mm.
    pub(crate) fn of(part: Span<40>, n: i64) -> Multiples
        requires part { EndsAtMost (2 ^ 40) part.lo part.hi }
        requires n { MagnitudeBelow 16 n }
        ensures ends { EndsAtMost (2 ^ 40 * unsigned_abs n) result.lo result.hi }
        ensures contains { (x : Fraction) → ContainsFraction 40 part.lo part.hi x → ContainsFraction 40 result.lo result.hi (x ⊗ whole n) }
        ensures narrow { (e : Fraction) → IsNarrow 40 e part.lo part.hi → IsNarrow 40 (e ⊗ whole (pos (unsigned_abs n))) result.lo result.hi }
        ensures same { (k : ℤ) → part.lo ≡ k → part.hi ≡ k → (result.lo ≡ k *ℤ n) × (result.hi ≡ k *ℤ n) }
    {
        let (lo, hi) = products(word(part.lo()), word(part.hi()), n);
        Multiples { lo, hi }
    }

    /// The least span that has all sums.
    pub(crate) fn plus(self, other: Multiples) -> Span<20>
        ensures { AreLeastEnds ((self.lo +ℤ other.lo) *ℤ pos (2 ^ 20)) ((self.hi +ℤ other.hi) *ℤ pos (2 ^ 20)) (2 ^ 40) result.lo result.hi }
    {
        rounded(self.lo + other.lo, self.hi + other.hi)
    }

    /// The least span that has all differences.
    pub(crate) fn minus(self, other: Multiples) -> Span<20>
        ensures { AreLeastEnds ((self.lo -ℤ other.hi) *ℤ pos (2 ^ 20)) ((self.hi -ℤ other.lo) *ℤ pos (2 ^ 20)) (2 ^ 40) result.lo result.hi }
    {
        rounded(self.lo - other.hi, self.hi - other.lo)
    }
}

fn word(end: i128) -> i64
    requires { unsigned_abs end ≤ 2 ^ 40 }
    ensures { result ≡ end }
{
    end as i64
}

/// The lesser and the greater of the products of two ends by a number.
fn products(low: i64, high: i64, n: i64) -> (i64, i64)
    requires order { low ≤ℤ high }
    requires ends { EndsAtMost (2 ^ 40) low high }
    requires n { MagnitudeBelow 16 n }
    ensures { AreEnds (int_min (low *ℤ n) (high *ℤ n)) (int_max (low *ℤ n) (high *ℤ n)) result.0 result.1 }
{
    let (p, q) = (product(low, n), product(high, n));
    if n < 0 { (q, p) } else { (p, q) }
}

fn product(end: i64, n: i64) -> i64
    requires end { unsigned_abs end ≤ 2 ^ 40 }
    requires n { MagnitudeBelow 16 n }
    ensures value { result ≡ end *ℤ n }
{
    end * n
}

/// The least span that has all numbers from one to another, in units of 2^-40.
fn rounded(low: i64, high: i64) -> Span<20>
    requires order { low ≤ℤ high }
    requires ends { EndsAtMost (2 ^ 57) low high }
    ensures { AreLeastEnds (low *ℤ pos (2 ^ 20)) (high *ℤ pos (2 ^ 20)) (2 ^ 40) result.lo result.hi }
{
    let from = floor(low);
    let to = ceiling(high);
    match Span::new(i128::from(from), i128::from(to)) {
        Some(span) => span,
        None => unreachable!(),
    }
}

fn floor(n: i64) -> i64
    requires size { unsigned_abs n ≤ 2 ^ 57 }
    ensures floor { IsFloor n (2 ^ 20) result }
    ensures small { unsigned_abs result ≤ 2 ^ 40 }
{
    n >> FINER
}

fn ceiling(n: i64) -> i64
    requires size { unsigned_abs n ≤ 2 ^ 57 }
    ensures ceiling { IsCeiling n (2 ^ 20) result }
    ensures small { unsigned_abs result ≤ 2 ^ 40 }
{
    -floor(-n)
}
