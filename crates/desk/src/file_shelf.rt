// The files of the process.
ghost use Rattle.std.specs.Prelude.{◌≡◌, ◌≤◌, None, vec_len};

use crate::{Shelf, ShelfFault};
use std::alloc::Global;
use std::fs;
use std::io::{self, Read};
use std::rt::Files;

/// Files by their paths.
///
/// It tells no contents. One count of faults and one of bytes taken serve all names.
#[derive(Drop)]
pub struct FileShelf<'a, R: Files> {
    rt: &'a R,
    faults: u64,
    taken: u64,
}

impl<'a, R: Files> FileShelf<'a, R> {
    ghost use Rattle.std.specs.Prelude.{◌≡◌};

    /// The files that the runtime reaches. Both counts begin at 0.
    pub fn new(rt: &'a R) -> FileShelf<'a, R>
        ensures counts { (result.faults ≡ 0) × (result.taken ≡ 0) }
    {
        FileShelf {
            rt,
            faults: 0,
            taken: 0,
        }
    }
}

// What the reading of a file met.
#[derive(Clone, Copy)]
enum Found {
    All,
    More,
    Failed,
    Memory,
}

fn read_named<R: Files>(rt: &R, name: &str, bytes: &mut Vec<u8>, most: usize) -> Found
    requires { vec_len bytes.old ≡ 0 }
    ensures { vec_len bytes.new ≤ most }
{
    match fs::open(rt, name) {
        Ok(mut file) => read_up_to(&mut file, bytes, most),
        Err(error) => found_at(&error),
    }
}

// Reads a file to its end, or to one byte past the limit. Each turn takes a byte at least.
fn read_up_to<F: Read>(file: &mut F, bytes: &mut Vec<u8>, most: usize) -> Found
    requires { vec_len bytes.old ≡ 0 }
    ensures { vec_len bytes.new ≤ most }
{
    let mut piece = [0u8; 4096];
    for _turn in 0..=most {
        let left = most - bytes.len();
        let ask = if left < piece.len() {
            left + 1
        } else {
            piece.len()
        };
        match file.read(&mut piece[..ask]) {
            Ok(0) => return Found::All,
            Ok(count) => {
                if count > left {
                    return Found::More;
                }
                if bytes.extend_from_slice(&piece[..count]).is_err() {
                    return Found::Memory;
                }
            }
            Err(error) => return found_at(&error),
        }
    }
    unreachable!()
}

// Want of memory is no fault of the file.
fn found_at(error: &io::Error) -> Found {
    match error.kind() {
        io::ErrorKind::OutOfMemory => Found::Memory,
        _ => Found::Failed,
    }
}

impl<R: Files> Shelf for FileShelf<'_, R> {
    ghost held = { λ s name. None };

    ghost faults = { λ s name. s.faults };

    ghost taken = { λ s name. s.taken };

    fn fetch(&mut self, alloc: Global, name: &str, most: usize) -> Result<Vec<u8>, ShelfFault> {
        let mut bytes = Vec::new(alloc);
        let found = read_named(self.rt, name, &mut bytes, most);
        self.taken = self.taken.saturating_add(bytes.len() as u64);
        match found {
            Found::All => Ok(bytes),
            Found::More => {
                let past = (most - bytes.len()) as u64;
                self.taken = self.taken.saturating_add(past).saturating_add(1);
                Err(ShelfFault::TooLong)
            }
            Found::Failed => {
                self.faults = self.faults.saturating_add(1);
                Err(ShelfFault::Failed)
            }
            Found::Memory => Err(ShelfFault::Memory),
        }
    }
}
