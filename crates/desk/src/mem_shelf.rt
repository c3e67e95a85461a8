// A shelf in memory.
ghost use Rattle.std.specs.Prelude.{◌≡◌, ◌≤◌, ◌<◌, ◌+◌, Some, option_map};
ghost use Rattle.desk.specs.Held.{held_in};

use crate::{Shelf, ShelfFault};
use std::alloc::Global;

/// A shelf in memory, whose fetches fail at chosen calls.
///
/// It tells what it holds. One count of faults and one of bytes taken serve all names.
#[derive(Drop)]
pub struct MemShelf {
    files: Vec<(String, Vec<u8>)>,
    fails: Vec<u64>,
    calls: u64,
    faults: u64,
    taken: u64,
}

impl MemShelf {
    ghost use Rattle.desk.specs.Stores.{IsFreshShelf};

    /// The shelf of these files, whose names differ; the calls of these numbers, from 1, will fail.
    ///
    /// A fetch of a name that isn't held fails too.
    pub fn of(files: Vec<(String, Vec<u8>)>, fails: Vec<u64>) -> MemShelf
        ensures { IsFreshShelf files fails result }
    {
        MemShelf {
            files,
            fails,
            calls: 0,
            faults: 0,
            taken: 0,
        }
    }
}

// The bytes that are held under a name.
pub(crate) fn find<'a>(files: &'a [(String, Vec<u8>)], name: &str) -> Option<&'a [u8]>
    ensures { option_map (λ b. b.now) result ≡ held_in files.now name.now }
{
    for file in files {
        if file.0.as_str() == name {
            return Some(file.1.as_slice());
        }
    }
    None
}

impl Shelf for MemShelf {
    ghost held = { λ s name. held_in s.files.items name };

    ghost faults = { λ s name. s.faults };

    ghost taken = { λ s name. s.taken };

    fn fetch(&mut self, alloc: Global, name: &str, most: usize) -> Result<Vec<u8>, ShelfFault> {
        self.calls = self.calls.saturating_add(1);
        let bytes = match find(&self.files, name) {
            Some(bytes) if !self.fails.contains(&self.calls) => bytes,
            _ => {
                self.faults = self.faults.saturating_add(1);
                return Err(ShelfFault::Failed);
            }
        };
        if bytes.len() > most {
            self.taken = self.taken.saturating_add(most as u64).saturating_add(1);
            return Err(ShelfFault::TooLong);
        }
        match bytes.to_vec(alloc) {
            Ok(copy) => {
                self.taken = self.taken.saturating_add(copy.len() as u64);
                Ok(copy)
            }
            Err(_) => Err(ShelfFault::Memory),
        }
    }
}
