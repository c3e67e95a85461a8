// Want of memory.

use std::alloc::{AllocError, AllocFailed};

/// Memory was refused: the one answer for it in all crates.
///
/// A call that takes an allocator may answer it in place of any other answer, and no clause says when.
#[derive(Clone, Copy, Debug, PartialEq, Eq)]
pub struct Memory;

impl From<AllocError> for Memory {
    fn from(_: AllocError) -> Self {
        Memory
    }
}

impl<T: Drop> From<AllocFailed<T>> for Memory {
    fn from(_: AllocFailed<T>) -> Self {
        Memory
    }
}
