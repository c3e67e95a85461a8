//! Draft brackets: two levels, at most a few grid units of 1/1024 mm apart, between which a hull of a given volume floats
//! at every direction of a bracket.
#![tactic(auto)]

mod crossing;
mod drafts;
mod guess;
mod look;
mod need;
mod place;
#[cfg(test)]
mod tests;

pub use drafts::{Drafts, TooHeavy, float_at, float_in, float_near};
pub use guess::Guess;
