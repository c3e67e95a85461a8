//! Cross curves of stability: KN of a hull that floats at a heel, over the draft bracket of a degree.
#![tactic(auto)]

mod cell;
#[cfg(test)]
mod tests;

pub use cell::{KnCell, kn, kn_near};
