// The records of a file.
ghost use Rattle.std.specs.Prelude.{◌≡◌, ◌≤◌, IfErr, IfOk, map, length};
ghost use Rattle.csv.specs.Records.{fields_of};
ghost use Rattle.offset_reader.specs.Records.{records_of};

use crate::OffsetFault;
use csv::{ByteRecord, ReaderBuilder};
use std::alloc::Global;

/// The records of a file without a header, each of any number of fields.
pub(crate) fn all_records(alloc: Global, bytes: &[u8]) -> Result<Vec<ByteRecord>, OffsetFault>
    ensures ok { IfOk result (λ v. (map fields_of v.items ≡ records_of bytes.now)
        × (length v.items ≤ length bytes.now)) }
    ensures err { IfErr result (λ e. e ≡ OffsetFault.Memory) }
{
    let reader = ReaderBuilder::new()
        .has_headers(false)
        .flexible(true)
        .from_reader(alloc, bytes);
    let mut records = Vec::new(alloc);
    for record in reader.into_byte_records() {
        match record {
            Ok(record) => records.push(record)?,
            Err(_) => return Err(OffsetFault::Memory),
        }
    }
    Ok(records)
}
