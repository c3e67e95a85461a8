// Where the report goes.
ghost use Rattle.std.specs.Prelude.{◌≤◌, ◌<◌, [], List, ℕ, Option, IfOk, OnErr, take, length};
ghost use Rattle.desk.specs.Causes.{Rose, AppendedIfTold};

/// Why a put took nothing.
#[derive(Clone, Copy, Debug, PartialEq, Eq)]
pub enum PutFault {
    /// The bytes could not be written.
    Failed,
}

/// A place for bytes.
pub trait Sink {
    /// The bytes taken so far, where the sink tells them.
    ghost taken: { Self → Option (List ℕ) };

    /// How many puts failed: at most 2^64 − 1, where the count stays once that is reached.
    ghost faults: { Self → ℕ };

    /// Takes some of the front of the piece and answers how many bytes: at least one where it isn't empty.
    ///
    /// On `Failed` the count of faults rose in this call and nothing was appended. Where the bytes are told
    /// after a call, they were told before it.
    fn put(&mut self, piece: &[u8]) -> Result<usize, PutFault>
        ensures within { IfOk result (λ n. n ≤ length piece.now) }
        ensures some { IfOk result (λ n. 0 < length piece.now → 0 < n) }
        ensures bytes { IfOk result (λ n. AppendedIfTold (taken self.old) (taken self.new) (take n piece.now)) }
        ensures failed { OnErr result (Rose (faults self.old) (faults self.new)) }
        ensures unchanged { OnErr result (AppendedIfTold (taken self.old) (taken self.new) []) }
        ensures later { faults self.old ≤ faults self.new };
}
