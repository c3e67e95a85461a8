// A sink in memory.
ghost use Rattle.std.specs.Prelude.{◌≡◌, ◌<◌, Some, IfOk};

use crate::room::Room;
use crate::{PutFault, Sink};
use exact_fraction::Memory;
use std::alloc::Global;

/// A sink in memory, with a limit for each put and one for all, whose puts fail at chosen calls.
///
/// It tells what it took.
#[derive(Drop)]
pub struct MemSink {
    room: Room,
    at_once: usize,
    fails: Vec<u64>,
    calls: u64,
    faults: u64,
    ghost some_at_once: { 0 < at_once },
}

impl MemSink {
    ghost use Rattle.desk.specs.Stores.{IsFreshSink, bytes_taken};

    /// A sink with room for `most` bytes, taken here, that takes at most `at_once` bytes a put; the puts of
    /// these numbers, from 1, will fail.
    ///
    /// A put of a piece that isn't empty fails too where no room is left.
    pub fn new(
        alloc: Global,
        most: usize,
        at_once: usize,
        fails: Vec<u64>,
    ) -> Result<MemSink, Memory>
        requires { 0 < at_once }
        ensures { IfOk result (IsFreshSink most at_once fails) }
    {
        let room = Room::new(alloc, most)?;
        Ok(MemSink {
            room,
            at_once,
            fails,
            calls: 0,
            faults: 0,
        })
    }

    /// The bytes taken so far.
    pub fn taken(&self) -> &[u8]
        ensures { result.now ≡ bytes_taken self.now }
    {
        self.room.bytes()
    }
}

impl Sink for MemSink {
    ghost taken = { λ s. Some s.room.bytes.items };

    ghost faults = { λ s. s.faults };

    fn put(&mut self, piece: &[u8]) -> Result<usize, PutFault> {
        self.calls = self.calls.saturating_add(1);
        let left = self.room.left();
        let count = piece.len().min(self.at_once).min(left);
        if self.fails.contains(&self.calls) || (left == 0 && !piece.is_empty()) {
            self.faults = self.faults.saturating_add(1);
            return Err(PutFault::Failed);
        }
        self.room.push(&piece[..count]);
        Ok(count)
    }
}
