// The centre of a waterplane.
ghost use Rattle.std.specs.Prelude.{◌≡◌, ◌≤◌, ◌<◌, ◌^◌, ◌-ℤ◌, ◌<ℤ◌, ◌≤ℤ◌, ◌↔◌, pos, IfSome, IsNone};
ghost use Rattle.std.specs.Int.{int_min, int_max};
ghost use Rattle.exact_algebra.proofs.Fraction.{Fraction, nought, ◌⊗◌, inverse, ◌≼◌};
ghost use Rattle.exact_algebra.proofs.Span.{ContainsFraction};
ghost use Rattle.outward_interval.specs.Ends.{EndsBelow};
ghost use Rattle.hydro_tables.specs.Bounds.{IsAboard};
ghost use Rattle.hydro_tables.specs.Extent.{HasCentre, far};
ghost use Rattle.hydro_tables.specs.Widths.{IsQuotientNarrow};

use crate::divisor::quotient;
use outward_interval::Span;

/// The farthest that a centre may lie from x = 0, in units of 2^-20 mm: 2^20 mm. No hull reaches so far.
const FARTHEST: i128 = 1 << 40;

/// No quotient of the integral of x by an area reaches 2^93 mm.
const REACH: u32 = 93;

/// x of the centre of a waterplane: the quotient, cut to the places of a hull.
pub(crate) fn centre(sx: Span<20>, area: &Option<Span<20>>) -> Option<Span<20>>
    requires sx { EndsBelow 93 sx.lo sx.hi }
    requires above { IfSome area.now (λ d. pos 1 ≤ℤ d.lo) }
    requires size { IfSome area.now (λ d. EndsBelow 96 d.lo d.hi) }
    ensures none { IsNone result ↔ IsNone area.now }
    ensures contains { IfSome result (λ s. (m v : Fraction) → HasCentre m v → ContainsFraction 20 sx.lo sx.hi m → IfSome area.now (λ d. ContainsFraction 20 d.lo d.hi v) → ContainsFraction 20 s.lo s.hi (m ⊗ inverse v)) }
    ensures aboard { IfSome result IsAboard }
    ensures narrow { IfSome result (λ s. IfSome area.now (λ d. IsQuotientNarrow sx d s)) }
{
    match quotient(sx, area, REACH) {
        Some(x) => Some(aboard(x)),
        None => None,
    }
}

/// What of a span lies from 0 to the farthest place.
fn aboard(x: Span<20>) -> Span<20>
    ensures contains { (q : Fraction) → nought ≼ q → q ≼ far → ContainsFraction 20 x.lo x.hi q → ContainsFraction 20 result.lo result.hi q }
    ensures aboard { IsAboard result }
    ensures narrower { (result.hi -ℤ result.lo) ≤ℤ (x.hi -ℤ x.lo) }
{
    match Span::new(nearest(x.lo()), nearest(x.hi())) {
        Some(places) => places,
        None => unreachable!(),
    }
}

/// The nearest place to a number of units.
fn nearest(end: i128) -> i128
    ensures { result ≡ int_min (int_max end (pos 0)) (pos (2 ^ 40)) }
{
    end.max(0).min(FARTHEST)
}
