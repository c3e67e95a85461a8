// Room for bytes in memory.
ghost use Rattle.std.specs.Prelude.{◌≡◌, ◌≤◌, ◌-◌, ◌++◌, [], length, IfOk, vec_len, vec_capacity};

use exact_fraction::Memory;
use std::alloc::Global;

/// Bytes in room for `most` of them, which was taken when it was made.
#[derive(Drop)]
pub(crate) struct Room {
    bytes: Vec<u8>,
    most: usize,
    ghost room: { most ≤ vec_capacity bytes },
    ghost within: { vec_len bytes ≤ most },
}

impl Room {
    pub(crate) fn new(alloc: Global, most: usize) -> Result<Room, Memory>
        ensures { IfOk result (λ room. (room.bytes.items ≡ []) × (room.most ≡ most)) }
    {
        let bytes = Vec::with_capacity(alloc, most)?;
        Ok(Room { bytes, most })
    }

    /// The bytes so far.
    pub(crate) fn bytes(&self) -> &[u8]
        ensures { result.now ≡ self.now.bytes.items }
    {
        &self.bytes
    }

    /// How many bytes more there is room for.
    pub(crate) fn left(&self) -> usize
        ensures { result ≡ self.now.most - length self.now.bytes.items }
    {
        self.most - self.bytes.len()
    }

    /// Appends a piece that there is room for.
    pub(crate) fn push(&mut self, piece: &[u8])
        requires { length piece.now ≤ self.old.most - length self.old.bytes.items }
        ensures bytes { self.new.bytes.items ≡ self.old.bytes.items ++ piece.now }
        ensures most { self.new.most ≡ self.old.most }
    {
        match self.bytes.extend_from_slice(piece) {
            Ok(()) => {}
            Err(_) => unreachable!(),
        }
    }
}
