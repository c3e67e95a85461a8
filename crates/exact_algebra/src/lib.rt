//! Exact algebra: commutative rings, ordered fields, fractions without bounds, and their laws.
//!
//! Nothing here is code that runs. Each function is a law: its body is empty, and its contract is the theorem.
#![tactic(auto)]

ghost use Rattle.exact_algebra.specs.Ring.{Operations, IsCommutativeRing, NormalFormIsSound, whole_numbers};
ghost use Rattle.exact_algebra.specs.Span.{FloorIsGreatest, CeilingIsLeast, LeastSpanExists, LeastSpanIsLeast, LeastSpanIsUnique, SameRatioHasSameSpans, SumLiesInSum, ProductLiesInProducts};

/// Expressions whose difference has the normal form zero are equal, in each commutative ring.
pub fn normal_form_is_sound<T>()
    ensures { (R : Operations T) → IsCommutativeRing R → NormalFormIsSound R }
{}

/// The whole numbers are a commutative ring.
pub fn whole_numbers_are_a_ring()
    ensures { IsCommutativeRing whole_numbers }
{}

/// Expressions whose difference has the normal form zero are equal at all whole numbers.
pub fn normal_form_is_sound_for_whole_numbers()
    ensures { NormalFormIsSound whole_numbers }
{}

/// The floor is the greatest whole number that is at most a ratio.
pub fn floor_is_greatest()
    ensures { FloorIsGreatest }
{}

/// The ceiling is the least whole number that is at least a ratio.
pub fn ceiling_is_least()
    ensures { CeilingIsLeast }
{}

/// Each ratio has a least span: its floor and its ceiling in units.
pub fn least_span_exists()
    ensures { LeastSpanExists }
{}

/// The least span of a ratio contains it, and lies within each span that contains it.
pub fn least_span_is_least()
    ensures { LeastSpanIsLeast }
{}

/// A ratio has at most one least span.
pub fn least_span_is_unique()
    ensures { LeastSpanIsUnique }
{}

/// Ratios with equal cross products lie in the same spans, and have the same least span.
pub fn same_ratio_has_same_spans()
    ensures { SameRatioHasSameSpans }
{}

/// The sum of two ratios lies in the sum of the spans in which they lie.
pub fn sum_lies_in_sum()
    ensures { SumLiesInSum }
{}

/// The product of two ratios lies in each span that reaches from below to above the four products of the ends.
pub fn product_lies_in_products()
    ensures { ProductLiesInProducts }
{}
