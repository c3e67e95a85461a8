// Why bytes are no report.
use exact_fraction::Memory;
use std::alloc::{AllocError, AllocFailed};

/// Why bytes have no lines.
#[derive(Clone, Copy, Debug, PartialEq, Eq)]
pub enum ReadBack {
    /// This line, counted from 1, is the first that isn't in the grammar.
    Bad { line: u32 },
    /// Memory was refused. It may come in place of any other answer.
    Memory,
}

impl From<Memory> for ReadBack {
    ghost use Rattle.std.specs.Prelude.{◌≡◌};
    ghost use Rattle.hull_report.specs.declared.read_back.ReadBack.TheVariants as back;

    ghost from_gives = { λ _ e. e ≡ back.Memory };

    fn from(_: Memory) -> ReadBack {
        ReadBack::Memory
    }
}

impl From<AllocError> for ReadBack {
    ghost use Rattle.std.specs.Prelude.{◌≡◌};
    ghost use Rattle.hull_report.specs.declared.read_back.ReadBack.TheVariants as back;

    ghost from_gives = { λ _ e. e ≡ back.Memory };

    fn from(_: AllocError) -> ReadBack {
        ReadBack::Memory
    }
}

impl<T: Drop> From<AllocFailed<T>> for ReadBack {
    ghost use Rattle.std.specs.Prelude.{◌≡◌};
    ghost use Rattle.hull_report.specs.declared.read_back.ReadBack.TheVariants as back;

    ghost from_gives = { λ _ e. e ≡ back.Memory };

    fn from(_: AllocFailed<T>) -> ReadBack {
        ReadBack::Memory
    }
}
