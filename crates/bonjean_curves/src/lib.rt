//! Bonjean curves: one station's area and first moment below a draft.
#![tactic(auto)]

mod curve;
mod integrals;
mod strip;
#[cfg(test)]
mod tests;

pub use curve::{SectionSpans, section};
