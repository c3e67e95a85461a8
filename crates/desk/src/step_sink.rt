// A sink in memory that goes step by step.
ghost use Rattle.std.specs.Prelude.{◌≡◌, ◌≤◌, ◌<◌, true, false, Some, IfOk, OnOk, OnErr, vec_len};

use crate::room::Room;
use crate::{PutFault, Sink};
use exact_fraction::Memory;
use std::alloc::Global;

/// A sink in memory, with a limit for all puts together and one for each put in its turn.
///
/// It tells what it took.
#[derive(Drop)]
pub struct StepSink {
    room: Room,
    takes: Vec<usize>,
    turn: usize,
    faults: u64,
    ghost in_turn: { turn < vec_len takes },
}

impl StepSink {
    ghost use Rattle.desk.specs.Steps.{IsStep, count_of, fails};
    ghost use Rattle.desk.specs.Stores.{IsFreshStepSink, steps_taken};

    /// A sink with room for `most` bytes, taken here, whose k-th put takes at most the k-th of the numbers; the last
    /// number serves all later puts.
    ///
    /// A put of a piece that isn't empty fails where its number is 0, or no room is left.
    pub fn new(alloc: Global, most: usize, takes: Vec<usize>) -> Result<StepSink, Memory>
        requires { 0 < vec_len takes }
        ensures { IfOk result (IsFreshStepSink most takes) }
    {
        let room = Room::new(alloc, most)?;
        Ok(StepSink {
            room,
            takes,
            turn: 0,
            faults: 0,
        })
    }

    /// The bytes taken so far.
    pub fn taken(&self) -> &[u8]
        ensures { result.now ≡ steps_taken self.now }
    {
        self.room.bytes()
    }

    fn step(&mut self, piece: &[u8]) -> Result<usize, PutFault>
        ensures count { IfOk result (λ n. n ≡ count_of self.old piece.now) }
        ensures ok { OnOk result (fails self.old piece.now ≡ false) }
        ensures failed { OnErr result (fails self.old piece.now ≡ true) }
        ensures after { IsStep piece.now self.old self.new }
        ensures later { self.old.faults ≤ self.new.faults }
    {
        let number = self.takes[self.turn];
        self.turn = (self.turn + 1).min(self.takes.len() - 1);
        let count = number.min(piece.len()).min(self.room.left());
        if count == 0 && !piece.is_empty() {
            self.faults = self.faults.saturating_add(1);
            return Err(PutFault::Failed);
        }
        self.room.push(&piece[..count]);
        Ok(count)
    }
}

impl Sink for StepSink {
    ghost taken = { λ s. Some s.room.bytes.items };

    ghost faults = { λ s. s.faults };

    fn put(&mut self, piece: &[u8]) -> Result<usize, PutFault> {
        self.step(piece)
    }
}
