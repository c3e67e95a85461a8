//! The offset file: a table of points, station by station, and every fault it can have.
#![tactic(auto)]

mod fault;
mod field;
mod heights;
mod reader;
mod records;
mod row;
mod stations;
#[cfg(test)]
mod tests;

pub use fault::OffsetFault;
pub use reader::read_offsets;
