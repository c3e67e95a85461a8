//! Floodable lengths: how long a part of the ship may flood before its margin line goes under.
#![tactic(auto)]

mod gap;
mod guess;
mod laws;
mod lengths;
mod margin_line;
mod products;
mod reach;
mod search;
mod ship;
#[cfg(test)]
mod tests;
mod weighing;

pub use laws::margin_points_compare_by_levels;
pub use reach::{Reach, Reason};
pub use search::floodable;
