// Laws of fractions: each function has an empty body, and its contract is the theorem.
ghost use Rattle.exact_algebra.proofs.Laws.{FractionsAreAnOrderedField, NormalFormIsSoundAtFractions, EveryFractionIsARatio, EqualByCrossProducts, OrderByCrossProducts, WholeNumbersKeepTheirOrder, ContainsByCrossProducts, LeastSpanByCrossProducts};
ghost use Rattle.exact_fraction.specs.Fraction.{RatioIsNumeratorOverDenominator};

/// Fractions are an ordered field.
#[tactic(auto, using(exact_algebra::proofs::Laws::fraction_laws))]
pub fn fractions_are_an_ordered_field()
    ensures { FractionsAreAnOrderedField }
{}

/// Expressions whose difference has the normal form zero are equal at all fractions.
#[tactic(auto, using(exact_algebra::proofs::Laws::normal_form_sound_at_fractions))]
pub fn normal_form_is_sound_at_fractions()
    ensures { NormalFormIsSoundAtFractions }
{}

/// Every fraction is a whole number over a denominator above 0.
#[tactic(auto, using(exact_algebra::proofs::Laws::every_fraction_is_a_ratio))]
pub fn every_fraction_is_a_ratio()
    ensures { EveryFractionIsARatio }
{}

/// Two fractions are equal exactly where their cross products are.
#[tactic(auto, using(exact_algebra::proofs::Laws::equal_by_cross_products))]
pub fn fractions_equal_by_cross_products()
    ensures { EqualByCrossProducts }
{}

/// A fraction is at most another exactly where their cross products are in this order.
#[tactic(auto, using(exact_algebra::proofs::Laws::order_by_cross_products))]
pub fn fractions_compare_by_cross_products()
    ensures { OrderByCrossProducts }
{}

/// Whole numbers are in the same order as the fractions that they are.
#[tactic(auto, using(exact_algebra::proofs::Laws::whole_numbers_keep_their_order))]
pub fn whole_numbers_keep_their_order()
    ensures { WholeNumbersKeepTheirOrder }
{}

/// A span contains a fraction exactly where it does by cross products.
pub fn spans_contain_by_cross_products()
    ensures { ContainsByCrossProducts }
{}

/// A span is a fraction's least one exactly where it is so by cross products.
pub fn least_spans_by_cross_products()
    ensures { LeastSpanByCrossProducts }
{}

/// A ratio is the fraction of its numerator over its denominator.
#[tactic(auto, using(crate::proofs::CrossProducts::ratio_is_numerator_over_denominator))]
pub fn ratio_is_numerator_over_denominator()
    ensures { RatioIsNumeratorOverDenominator }
{}
