//! The outside: a shelf of files, and a sink of bytes.
//!
//! The code above is generic over both and proved once. It learns of the outside only what the two traits say.
#![tactic(auto)]

mod file_shelf;
mod mem_shelf;
mod mem_sink;
mod out_sink;
mod room;
mod shelf;
mod sink;
mod step_sink;
mod sure_shelf;
mod sure_sink;

pub use file_shelf::FileShelf;
pub use mem_shelf::MemShelf;
pub use mem_sink::MemSink;
pub use out_sink::OutSink;
pub use shelf::{Shelf, ShelfFault};
pub use sink::{PutFault, Sink};
pub use step_sink::StepSink;
pub use sure_shelf::SureShelf;
pub use sure_sink::SureSink;

#[cfg(test)]
mod tests;
