// What an offset file can be refused for.

use exact_fraction::Memory;
use std::alloc::{AllocError, AllocFailed};

/// Why an offset file gives no hull. Rows and columns count from 1.
#[derive(Clone, Copy, Debug, PartialEq, Eq)]
pub enum OffsetFault {
    /// The row hasn't three fields.
    Columns { row: u32 },
    /// The field isn't a number.
    Number { row: u32, column: u32 },
    /// The field is below 0.
    Negative { row: u32, column: u32 },
    /// The field is above its limit: 524287 for x, 65535 for a half-breadth and a height.
    Range { row: u32, column: u32 },
    /// The row's x is below that of the row before.
    Backwards { row: u32 },
    /// The row's height is out of order in its station.
    Height { row: u32 },
    /// There are fewer than 3 stations.
    FewStations { stations: u32 },
    /// There are more than 64 stations. The row is the first of the 65th.
    TooManyStations { row: u32 },
    /// A station other than the first and the last keeps one point. The row is its first.
    FewPoints { row: u32 },
    /// A station keeps more than 32 points. The row is its first.
    TooManyPoints { row: u32 },
    /// All kept half-breadths are 0.
    NoVolume,
    /// Memory was refused. It may come in place of any other answer.
    Memory,
}

impl From<Memory> for OffsetFault {
    ghost use Rattle.std.specs.Prelude.{◌≡◌};
    ghost use Rattle.offset_reader.specs.declared.fault.OffsetFault.TheVariants as fault;

    ghost from_gives = { λ _ e. e ≡ fault.Memory };

    fn from(_: Memory) -> OffsetFault {
        OffsetFault::Memory
    }
}

impl From<AllocError> for OffsetFault {
    ghost use Rattle.std.specs.Prelude.{◌≡◌};
    ghost use Rattle.offset_reader.specs.declared.fault.OffsetFault.TheVariants as fault;

    ghost from_gives = { λ _ e. e ≡ fault.Memory };

    fn from(_: AllocError) -> OffsetFault {
        OffsetFault::Memory
    }
}

impl<T: Drop> From<AllocFailed<T>> for OffsetFault {
    ghost use Rattle.std.specs.Prelude.{◌≡◌};
    ghost use Rattle.offset_reader.specs.declared.fault.OffsetFault.TheVariants as fault;

    ghost from_gives = { λ _ e. e ≡ fault.Memory };

    fn from(_: AllocFailed<T>) -> OffsetFault {
        OffsetFault::Memory
    }
}
