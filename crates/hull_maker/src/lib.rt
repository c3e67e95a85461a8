//! A made ship for trials without files: a hull from a number, and a job for it, the same on every machine.
#![tactic(auto)]

mod draws;
mod hull;
mod job;
mod laws;
#[cfg(test)]
mod tests;

pub use hull::made_hull;
pub use job::made_job;
pub use laws::the_made_ship_floats;
