// Brackets of directions.
ghost use Rattle.std.specs.Prelude.{◌≡◌, ◌≤◌, ◌<◌, ◌*◌, ◌^◌, pos};
ghost use Rattle.exact_algebra.specs.Span.{IsLeastSpan};
ghost use Rattle.angle_bounds.specs.Directions.{IsAtMost, IsLeastSpanOver, IsBracket};
ghost use Rattle.angle_bounds.specs.Degrees.{IsDirectionOf, IsDegreeBracket};

use crate::numbers::{LAST_NUMBER, direction_of, number_of};
use crate::{Degree, Triple};
use outward_interval::Span;

/// All directions from `low` to `high`.
///
/// It keeps that `low` is at most `high`, and that `c` and `s` are the least spans of the cosine c/r and of the
/// sine s/r over these directions.
#[derive(Clone, Copy, Debug, PartialEq, Eq)]
pub struct Bracket {
    pub low: Triple,
    pub high: Triple,
    pub c: Span<40>,
    pub s: Span<40>,
    ghost bracket: { IsBracket 40 low.c low.s low.r high.c high.s high.r c.lo c.hi s.lo s.hi },
}

/// The bracket of one direction: `t` is at both ends.
pub fn exact(t: Triple) -> Bracket
    ensures low { result.low ≡ t }
    ensures high { result.high ≡ t }
    ensures cosine { IsLeastSpan 40 result.c.lo result.c.hi (pos t.c) t.r }
    ensures sine { IsLeastSpan 40 result.s.lo result.s.hi (pos t.s) t.r }
{
    Bracket {
        low: t,
        high: t,
        c: least_span(u128::from(t.c), u128::from(t.r)),
        s: least_span(u128::from(t.s), u128::from(t.r)),
    }
}

/// The bracket of `k` degrees: from the direction of its number to that of the next, but the one direction of 0 or of
/// 90 degrees there.
pub fn bracket_of(k: Degree) -> Bracket
    ensures bracket { IsDegreeBracket k.degrees result.low.c result.low.s result.low.r result.high.c result.high.s result.high.r }
{
    match k.get() {
        0 => exact(direction_of(0)),
        90 => exact(direction_of(LAST_NUMBER)),
        _ => {
            let number = number_of(k);
            leaf(number, number + 1)
        }
    }
}

/// All directions from that of the number `q` to that of the number `q2`.
pub fn leaf(q: u32, q2: u32) -> Bracket
    requires order { q < q2 }
    requires last { q2 ≤ 2 ^ 24 }
    ensures low { IsDirectionOf q result.low.c result.low.s result.low.r }
    ensures high { IsDirectionOf q2 result.high.c result.high.s result.high.r }
{
    between(direction_of(q), direction_of(q2))
}

// All directions from one to another.
fn between(low: Triple, high: Triple) -> Bracket
    requires order { IsAtMost low.c low.s high.c high.s }
    ensures low { result.low ≡ low }
    ensures high { result.high ≡ high }
{
    Bracket {
        low,
        high,
        c: least_span_over(
            u128::from(high.c),
            u128::from(high.r),
            u128::from(low.c),
            u128::from(low.r),
        ),
        s: least_span_over(
            u128::from(low.s),
            u128::from(low.r),
            u128::from(high.s),
            u128::from(high.r),
        ),
    }
}

// The least span of `numerator / denominator`.
fn least_span(numerator: u128, denominator: u128) -> Span<40>
    requires some { 1 ≤ denominator }
    requires bounds { (numerator ≤ 2 ^ 49) × (denominator ≤ 2 ^ 49) }
    ensures least { IsLeastSpan 40 result.lo result.hi (pos numerator) denominator }
{
    least_span_over(numerator, denominator, numerator, denominator)
}

// The least span that has `n / d` and `m / e`, of which the first is the lesser.
fn least_span_over(n: u128, d: u128, m: u128, e: u128) -> Span<40>
    requires some { (1 ≤ d) × (1 ≤ e) }
    requires bounds { (n ≤ 2 ^ 49) × (d ≤ 2 ^ 49) × (m ≤ 2 ^ 49) × (e ≤ 2 ^ 49) }
    requires order { n * e ≤ m * d }
    ensures least { IsLeastSpanOver 40 result.lo result.hi n d m e }
{
    let low = n * (1 << 40) / d;
    let high = (m * (1 << 40) + (e - 1)) / e;
    match Span::new(low as i128, high as i128) {
        Some(span) => span,
        None => unreachable!(),
    }
}
