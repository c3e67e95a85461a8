// The standard output of the process.
ghost use Rattle.std.specs.Prelude.{◌≡◌, None};

use crate::{PutFault, Sink};

/// Standard output. Nothing is kept back: each put reaches the system, and there is nothing to flush.
///
/// It tells no contents. A put that takes nothing of a piece that isn't empty counts as a failure.
#[derive(Drop)]
pub struct OutSink<'a, R: Print> {
    rt: &'a R,
    faults: u64,
}

impl<'a, R: Print> OutSink<'a, R> {
    ghost use Rattle.std.specs.Prelude.{◌≡◌};

    /// The output of the runtime. The count of faults begins at 0.
    pub fn new(rt: &'a R) -> OutSink<'a, R>
        ensures { result.faults ≡ 0 }
    {
        OutSink { rt, faults: 0 }
    }
}

impl<R: Print> Sink for OutSink<'_, R> {
    ghost taken = { λ s. None };

    ghost faults = { λ s. s.faults };

    fn put(&mut self, piece: &[u8]) -> Result<usize, PutFault> {
        match self.rt.write_some(piece) {
            Ok(0) if !piece.is_empty() => {}
            Ok(count) => return Ok(count),
            Err(_) => {}
        }
        self.faults = self.faults.saturating_add(1);
        Err(PutFault::Failed)
    }
}
