// What quotients are taken by.
ghost use Rattle.std.specs.Prelude.{◌≡◌, ◌≤◌, ◌<◌, ◌^◌, ◌+◌, ◌*ℤ◌, ◌<ℤ◌, ◌≤ℤ◌, ◌↔◌, ◌⊎◌, pos, Some, List, IfSome, IsSome, IsNone, IsTrue, unsigned_abs};
ghost use Rattle.std.specs.List.{AllByRecursion};
ghost use Rattle.exact_algebra.proofs.Fraction.{Fraction, ◌⊗◌, inverse};
ghost use Rattle.exact_algebra.proofs.Span.{ContainsFraction};
ghost use Rattle.flux_moments.specs.Limits.{EndsAtMost};
ghost use Rattle.exact_fraction.specs.Bounds.{MagnitudeBelow};
ghost use Rattle.outward_interval.specs.Ends.{EndsBelow};
ghost use Rattle.hydro_tables.specs.Bounds.{IsSmallBeside, IsMoved};
ghost use Rattle.hydro_tables.specs.Widths.{IsQuotientNarrow};

use crate::long_division::over;
use outward_interval::Span;

/// The divisor, where its lower end is at least `least` units and each moment is so small beside it that no quotient
/// reaches 2^`reach`.
pub(crate) fn divisor_for(
    divisor: Span<20>,
    least: i128,
    moments: &[Span<20>],
    reach: u32,
) -> Option<Span<20>>
    requires least { pos 1 ≤ℤ least }
    requires reach { reach ≤ 80 }
    requires size { EndsBelow 96 divisor.lo divisor.hi }
    ensures same { IfSome result (λ d. (d ≡ divisor) × (pos 1 ≤ℤ d.lo)) }
    ensures size { IfSome result (λ d. EndsBelow 96 d.lo d.hi) }
    ensures small { IfSome result (λ d. AllByRecursion (IsSmallBeside reach d) moments.now) }
    ensures some { least ≤ℤ divisor.lo → AllByRecursion (IsSmallBeside reach divisor) moments.now → IsSome result }
{
    if least <= divisor.lo() && are_small_beside(moments, divisor, reach) {
        Some(divisor)
    } else {
        None
    }
}

fn are_small_beside(moments: &[Span<20>], divisor: Span<20>, reach: u32) -> bool
    requires reach { reach ≤ 80 }
    ensures { IsTrue result ↔ AllByRecursion (IsSmallBeside reach divisor) moments.now }
{
    moments
        .iter()
        .all(|moment| is_small_beside(moment, divisor, reach))
}

/// Whether both ends, over a divisor that lies above 0, stay below 2^`reach` in magnitude.
fn is_small_beside(moment: &Span<20>, divisor: Span<20>, reach: u32) -> bool
    requires reach { reach ≤ 80 }
    ensures { IsTrue result ↔ IsSmallBeside reach divisor moment.now }
{
    let least = divisor.lo();
    is_end_small(moment.lo(), least, reach) && is_end_small(moment.hi(), least, reach)
}

fn is_end_small(end: i128, least: i128, reach: u32) -> bool
    requires reach { reach ≤ 80 }
    requires end { MagnitudeBelow 126 end }
    ensures { IsTrue result ↔ (pos (unsigned_abs end) <ℤ (least *ℤ pos (2 ^ reach))) }
{
    let times = (end.unsigned_abs() >> reach) as i128;
    times < least
}

/// The divisor, where its lower end is above 0.
pub(crate) fn above_nought(divisor: Span<20>) -> Option<Span<20>>
    ensures none { IsNone result ↔ (divisor.lo ≤ℤ pos 0) }
    ensures same { IfSome result (λ d. (d ≡ divisor) × (pos 1 ≤ℤ d.lo)) }
{
    if divisor.lo() > 0 {
        Some(divisor)
    } else {
        None
    }
}

/// A divisor as it is shown: its lower end is at most 0 where nothing is divided by it.
pub(crate) fn shown(divisor: Span<20>, taken: &Option<Span<20>>) -> Span<20>
    requires bounded { EndsBelow 96 divisor.lo divisor.hi }
    requires same { IfSome taken.now (λ d. pos 1 ≤ℤ divisor.lo) }
    ensures contains { (q : Fraction) → ContainsFraction 20 divisor.lo divisor.hi q → ContainsFraction 20 result.lo result.hi q }
    ensures ends { EndsBelow 96 result.lo result.hi }
    ensures none { IsNone taken.now ↔ (result.lo ≤ℤ pos 0) }
    ensures kept { IfSome taken.now (λ d. result ≡ divisor) }
    ensures moved { IsMoved divisor result }
{
    match taken {
        Some(_) => divisor,
        None => down_to_nought(divisor),
    }
}

fn down_to_nought(span: Span<20>) -> Span<20>
    requires bounded { EndsBelow 96 span.lo span.hi }
    ensures contains { (q : Fraction) → ContainsFraction 20 span.lo span.hi q → ContainsFraction 20 result.lo result.hi q }
    ensures ends { EndsBelow 96 result.lo result.hi }
    ensures none { result.lo ≤ℤ pos 0 }
    ensures moved { IsMoved span result }
{
    match Span::new(span.lo().min(0), span.hi()) {
        Some(lower) => lower,
        None => unreachable!(),
    }
}

/// The first divisor, where there are both.
pub(crate) fn both(first: &Option<Span<20>>, second: &Option<Span<20>>) -> Option<Span<20>>
    ensures none { IsNone result ↔ (IsNone first.now ⊎ IsNone second.now) }
    ensures same { IfSome result (λ d. first.now ≡ Some d) }
{
    match second {
        Some(_) => *first,
        None => None,
    }
}

/// The quotient by a divisor, where there is one.
pub(crate) fn quotient(moment: Span<20>, divisor: &Option<Span<20>>, reach: u32) -> Option<Span<20>>
    requires reach { reach ≤ 94 }
    requires small { IfSome divisor.now (λ d. (pos 1 ≤ℤ d.lo) × IsSmallBeside reach d moment) }
    requires size { IfSome divisor.now (λ d. EndsBelow 96 d.lo d.hi) }
    ensures none { IsNone result ↔ IsNone divisor.now }
    ensures contains { IfSome result (λ s. (m v : Fraction) → ContainsFraction 20 moment.lo moment.hi m → IfSome divisor.now (λ d. ContainsFraction 20 d.lo d.hi v) → ContainsFraction 20 s.lo s.hi (m ⊗ inverse v)) }
    ensures ends { IfSome result (λ s. EndsAtMost (2 ^ (reach + 20)) s.lo s.hi) }
    ensures narrow { IfSome result (λ s. IfSome divisor.now (λ d. IsQuotientNarrow moment d s)) }
{
    match divisor {
        Some(divisor) => Some(over(moment, *divisor)),
        None => None,
    }
}
