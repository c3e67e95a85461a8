//! The hull below a waterplane: its volume and moments, enclosed for all planes of a box.
#![tactic(auto)]

mod box_levels;
mod corner;
mod dry;
mod face_columns;
mod face_sums;
mod lid_sums;
mod multiples;
mod part_columns;
mod plane_box;
mod strip_sums;
mod sums;
#[cfg(test)]
mod tests;
mod totals;
mod water;
mod wet;

pub use box_levels::{ShipLength, trimmed_levels_at};
pub use dry::are_dry;
pub use lid_sums::{LidSums, lid};
pub use plane_box::PlaneBox;
pub use sums::{measure, volume_below};
pub use totals::part_sums;
pub use wet::Wet;
