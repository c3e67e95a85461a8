// A shelf in memory whose fetches never fail.
ghost use Rattle.std.specs.Prelude.{◌≡◌, Some};
ghost use Rattle.desk.specs.Held.{held_or_empty};

use crate::mem_shelf::find;
use crate::{Shelf, ShelfFault};
use std::alloc::Global;

/// A shelf in memory, whose fetches never answer `Failed`.
///
/// It tells what it holds: any name that isn't among its files' is held as a file of no bytes. Its count of
/// faults is the constant 0; one count of bytes taken serves all names.
#[derive(Drop)]
pub struct SureShelf {
    files: Vec<(String, Vec<u8>)>,
    taken: u64,
}

impl SureShelf {
    ghost use Rattle.desk.specs.Stores.{IsFreshSureShelf};

    /// The shelf of these files, whose names differ.
    pub fn of(files: Vec<(String, Vec<u8>)>) -> SureShelf
        ensures { IsFreshSureShelf files result }
    {
        SureShelf { files, taken: 0 }
    }
}

impl Shelf for SureShelf {
    ghost held = { λ s name. Some (held_or_empty s.files.items name) };

    ghost faults = { λ s name. 0 };

    ghost taken = { λ s name. s.taken };

    fn fetch(&mut self, alloc: Global, name: &str, most: usize) -> Result<Vec<u8>, ShelfFault> {
        let Some(bytes) = find(&self.files, name) else {
            return Ok(Vec::new(alloc));
        };
        if bytes.len() > most {
            self.taken = self.taken.saturating_add(most as u64).saturating_add(1);
            return Err(ShelfFault::TooLong);
        }
        match bytes.to_vec(alloc) {
            Ok(copy) => {
                self.taken = self.taken.saturating_add(copy.len() as u64);
                Ok(copy)
            }
            Err(_) => Err(ShelfFault::Memory),
        }
    }
}
