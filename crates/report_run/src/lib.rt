//! What every program that writes a report needs: reading its files, the lines in place of a report, and writing a text
//! whole.
#![tactic(auto)]

mod faults;
mod reading;
mod refused;
mod status;
mod stop;
#[cfg(test)]
mod tests;
mod writing;

pub use reading::{read_hull, read_job_file};
pub use status::Status;
pub use stop::{File, Refusal, Stop};
pub use writing::put_all;
