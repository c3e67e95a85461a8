// The hull of an offset file.
ghost use Rattle.std.specs.Prelude.{◌≡◌, ◌⊎◌, ℕ, ◌<◌, ◌^◌, length, IfOk, IfErr, OnOk};
ghost use Rattle.offset_reader.specs.Offsets.{first_fault, hull_of};

use crate::OffsetFault;
use crate::records::all_records;
use crate::row::rows_of;
use crate::stations::{check_count, check_order, stations_of};
use hull_model::Hull;
use std::alloc::Global;

/// The hull of an offset file, or the first fault that the file has.
///
/// `bytes` is a table of comma-separated fields without a header; a byte-order mark at its start is dropped.
/// Each row has x, half-breadth and height in whole mm, x from 0 to 524287 and the others from 0 to 65535,
/// and rows with the same x that follow each other are one station. Of a flat bottom and a deck line the hull
/// keeps the outer points; nothing else is dropped, sorted or mended. Takes memory for all rows.
pub fn read_offsets(alloc: Global, bytes: &[u8]) -> Result<Hull, OffsetFault>
    requires { length bytes.now < 2 ^ 32 }
    ensures ok { OnOk result (first_fault bytes.now ≡ None) }
    ensures hull { IfOk result (λ hull. hull ≡ hull_of bytes.now) }
    ensures fault { IfErr result (λ e. (e ≡ OffsetFault.Memory) ⊎ (first_fault bytes.now ≡ Some e)) }
{
    let records = all_records(alloc, bytes)?;
    let rows = rows_of(alloc, &records)?;
    check_order(&rows)?;
    check_count(&rows)?;
    let stations = stations_of(alloc, &rows)?;
    Hull::of(stations).ok_or(OffsetFault::NoVolume)
}
