// A sink in memory whose puts never fail.
ghost use Rattle.std.specs.Prelude.{◌≡◌, Some, None, IfOk, if◌then◌else◌};

use crate::room::Room;
use crate::{PutFault, Sink};
use exact_fraction::Memory;
use std::alloc::Global;

/// A sink in memory, whose puts take their whole piece and never fail.
///
/// From the first piece that doesn't fit on, pieces are dropped and the sink tells nothing. Its count of
/// faults is the constant 0.
#[derive(Drop)]
pub struct SureSink {
    room: Room,
    is_full: bool,
}

impl SureSink {
    ghost use Rattle.desk.specs.Stores.{IsFreshSureSink, bytes_kept};

    /// A sink with room for `most` bytes, taken here.
    pub fn new(alloc: Global, most: usize) -> Result<SureSink, Memory>
        ensures { IfOk result (IsFreshSureSink most) }
    {
        let room = Room::new(alloc, most)?;
        Ok(SureSink {
            room,
            is_full: false,
        })
    }

    /// The bytes kept.
    pub fn taken(&self) -> &[u8]
        ensures { result.now ≡ bytes_kept self.now }
    {
        self.room.bytes()
    }
}

impl Sink for SureSink {
    ghost taken = { λ s. if s.is_full then None else Some s.room.bytes.items };

    ghost faults = { λ s. 0 };

    fn put(&mut self, piece: &[u8]) -> Result<usize, PutFault> {
        if self.is_full || piece.len() > self.room.left() {
            self.is_full = true;
            return Ok(piece.len());
        }
        self.room.push(piece);
        Ok(piece.len())
    }
}
