//! Flooded slabs: what is left of a hull's volume and its moments where compartments are flooded.
#![tactic(auto)]

mod flooded_hull;
mod loss;
mod parts;
#[cfg(test)]
mod tests;
mod upright;
mod upright_column;
mod upright_left;
mod upright_part;
mod upright_wet;

pub use flooded_hull::FloodedHull;
pub use loss::{flood, left};
pub use upright_left::left_at;
pub use upright_wet::UprightWet;
