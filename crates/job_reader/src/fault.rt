// What a job file can be refused for.

use crate::Key;
use exact_fraction::Memory;
use std::alloc::{AllocError, AllocFailed};

/// Why a job file gives no job.
///
/// `entry` counts from 1 in the array of tables that the key stands in, and is 0 for keys of the file as a
/// whole and of `floodable`.
#[derive(Clone, Copy, Debug, PartialEq, Eq)]
pub enum JobFault {
    /// The bytes aren't a TOML document.
    Text,
    /// The version is neither 1 nor 2.
    Version,
    /// The table has a key that isn't in the format; `key` is that of the table, or `Top`.
    Unknown { key: Key, entry: u32 },
    /// The key is needed and isn't there.
    Missing { key: Key, entry: u32 },
    /// The value, or an element of the array, isn't of the key's kind.
    Kind { key: Key, entry: u32 },
    /// The value, or an element of the array, is out of the key's range.
    Range { key: Key, entry: u32 },
    /// The array has more elements than it may have.
    Many { key: Key, entry: u32 },
    /// The string, or an element of the array, is no name.
    Name { key: Key, entry: u32 },
    /// An earlier entry has the name, or the damage case has flooded the compartment already.
    Twice { key: Key, entry: u32 },
    /// The damage case floods a compartment that isn't there.
    NotNamed { entry: u32 },
    /// The two compartments share more than a plane, `first` before `second`.
    Overlap { first: u32, second: u32 },
    /// Memory was refused. It may come in place of any other answer.
    Memory,
}

impl From<Memory> for JobFault {
    ghost use Rattle.std.specs.Prelude.{◌≡◌};
    ghost use Rattle.job_reader.specs.declared.fault.JobFault.TheVariants as fault;

    ghost from_gives = { λ _ e. e ≡ fault.Memory };

    fn from(_: Memory) -> JobFault {
        JobFault::Memory
    }
}

impl From<AllocError> for JobFault {
    ghost use Rattle.std.specs.Prelude.{◌≡◌};
    ghost use Rattle.job_reader.specs.declared.fault.JobFault.TheVariants as fault;

    ghost from_gives = { λ _ e. e ≡ fault.Memory };

    fn from(_: AllocError) -> JobFault {
        JobFault::Memory
    }
}

impl<T: Drop> From<AllocFailed<T>> for JobFault {
    ghost use Rattle.std.specs.Prelude.{◌≡◌};
    ghost use Rattle.job_reader.specs.declared.fault.JobFault.TheVariants as fault;

    ghost from_gives = { λ _ e. e ≡ fault.Memory };

    fn from(_: AllocFailed<T>) -> JobFault {
        JobFault::Memory
    }
}
