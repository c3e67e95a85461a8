//! The job file: what is asked of a hull, and every fault that it can have.
#![tactic(auto)]

mod array;
mod check;
mod entry;
mod fault;
mod job;
mod key;
mod name;
mod parts;
mod reader;
mod rule;
mod sequence;
mod value;

pub use fault::JobFault;
pub use job::{Compartments, Damage, FloodPlan, Item, Job};
pub use key::Key;
pub use name::Name;
pub use reader::read_job;
pub use sequence::Sequence;

#[cfg(test)]
mod tests;
