//! The mass of what a job puts into a ship, and its centre.
#![tactic(auto)]

mod loading;
mod loads;
mod sums;
#[cfg(test)]
mod tests;
mod volume;

pub use loading::{LoadFault, Loading};
pub use loads::load;
pub use volume::volume_displaced;
