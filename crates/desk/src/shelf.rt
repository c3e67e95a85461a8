// Where files come from.
ghost use Rattle.std.specs.Prelude.{◌≡◌, ◌≤◌, ◌<◌, ◌+◌, List, ℕ, Option, IfOk, IfSome, IsErrOf, length};
ghost use Rattle.desk.specs.Causes.{Rose, RoseBy, NoneFell};

use std::alloc::Global;

/// Why a fetch gave no bytes.
#[derive(Clone, Copy, Debug, PartialEq, Eq)]
pub enum ShelfFault {
    /// The name isn't held, or its bytes could not be read.
    Failed,
    /// More bytes are held than were asked for.
    TooLong,
    /// Memory was refused.
    Memory,
}

/// Files by name.
///
/// A count is at most 2^64 − 1 and stays there once that is reached: "rose" means that it did, or that it
/// stands at that value.
pub trait Shelf {
    /// The bytes held under each name, where the shelf tells them.
    ghost held: { Self → List ℕ → Option (List ℕ) };

    /// How many fetches of each name failed.
    ghost faults: { Self → List ℕ → ℕ };

    /// How many bytes were taken under each name.
    ghost taken: { Self → List ℕ → ℕ };

    /// The bytes that are held under `name`, where they are at most `most`.
    ///
    /// `Failed` comes only where the name's count of faults rose in this call; `TooLong` only where its
    /// count of bytes taken rose by more than `most` and, where the held bytes are told, they are more than
    /// `most`. No count falls, at most `most + 1` bytes are taken, and what is held stays the same.
    fn fetch(&mut self, alloc: Global, name: &str, most: usize) -> Result<Vec<u8>, ShelfFault>
        ensures within { IfOk result (λ v. length v.items ≤ most) }
        ensures bytes { IfOk result (λ v. IfSome (held self.old name.now) (λ b. v.items ≡ b)) }
        ensures failed { IsErrOf result ShelfFault.Failed → Rose (faults self.old name.now) (faults self.new name.now) }
        ensures too_long { IsErrOf result ShelfFault.TooLong → RoseBy (most + 1) (taken self.old name.now) (taken self.new name.now) }
        ensures too_many { IsErrOf result ShelfFault.TooLong → IfSome (held self.old name.now) (λ b. most < length b) }
        ensures at_most { taken self.new name.now ≤ taken self.old name.now + (most + 1) }
        ensures same { (n : List ℕ) → held self.new n ≡ held self.old n }
        ensures faults_later { NoneFell (faults self.old) (faults self.new) }
        ensures taken_later { NoneFell (taken self.old) (taken self.new) };
}
