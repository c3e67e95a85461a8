//! Fractions as the program computes with them, the laws that they obey, and the one answer for want of memory.
//!
//! A [`Ratio`] is a numerator over a denominator above 0, both bounded so that the cross products of two ratios never
//! overflow. Every contract speaks of the fraction that it is, without bounds. The laws of those fractions stand on
//! functions with empty bodies, whose contracts are the theorems.
#![tactic(auto)]

mod comparison;
mod laws;
mod memory;
mod ratio;

pub use comparison::cmp_frac;
pub use laws::{
    every_fraction_is_a_ratio, fractions_are_an_ordered_field, fractions_compare_by_cross_products,
    fractions_equal_by_cross_products, least_spans_by_cross_products,
    normal_form_is_sound_at_fractions, ratio_is_numerator_over_denominator,
    spans_contain_by_cross_products, whole_numbers_keep_their_order,
};
pub use memory::Memory;
pub use ratio::Ratio;
