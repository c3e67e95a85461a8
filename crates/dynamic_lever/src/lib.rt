//! Levers against heel to both sides, and the stability of a ship that stands upright.
#![tactic(auto)]

mod arm_table;
mod centre;
mod laws;
mod levers;
mod need;
mod quotient;
mod rows;
mod stability;
mod standing;
#[cfg(test)]
mod tests;

pub use arm_table::arms;
pub use laws::{sides_are_equal, sides_are_mirror_images};
pub use rows::{Arm, ArmTable, UprightRow};
pub use standing::upright;
