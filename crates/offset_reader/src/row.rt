// The rows: three numbers each, and their order along the ship.
ghost use Rattle.std.specs.Prelude.{◌≡◌, ◌≢◌, ℕ, pos, ◌<◌, ◌^◌, ◌≤ℤ◌, nat_abs, ◌⊎◌, [], ◌∷◌, length, map, IfOk, IfErr, OnOk, MatchOption};
ghost use Rattle.csv.specs.Records.{fields_of};
ghost use Rattle.offset_reader.specs.Numbers.{number_in};
ghost use Rattle.offset_reader.specs.Rows as spec;

use crate::OffsetFault;
use crate::field::field_number;
use csv::ByteRecord;
use std::alloc::Global;

/// The greatest x of a row, in mm.
const MOST_X: i32 = 524287;

/// The greatest half-breadth and the greatest height of a row, in mm.
const MOST_OFFSET: i32 = 65535;

/// A row by its number in the file, from 1: its station's x, a half-breadth and a height, in mm.
#[derive(Clone, Copy, Debug)]
pub(crate) struct Row {
    pub(crate) number: u32,
    pub(crate) x: u32,
    pub(crate) y: u32,
    pub(crate) z: u32,
}

/// The rows of these records, in order.
pub(crate) fn rows_of(alloc: Global, records: &[ByteRecord]) -> Result<Vec<Row>, OffsetFault>
    requires { length records.now < 2 ^ 32 }
    ensures ok { IfOk result (λ v. (spec.rows_fault (map fields_of records.now) ≡ None)
        × (v.items ≡ spec.rows_of (map fields_of records.now))) }
    ensures err { IfErr result (λ e. (e ≡ OffsetFault.Memory)
        ⊎ (spec.rows_fault (map fields_of records.now) ≡ Some e)) }
{
    let mut rows = Vec::new(alloc);
    let mut number: u32 = 0;
    let mut before = None;
    let mut rest = records;
    while let [record, after @ ..] = rest {
        number += 1;
        let row = row_of(record, number, before)?;
        before = Some(row.x);
        rows.push(row)?;
        rest = after;
    }
    Ok(rows)
}

// The row of a record, after a row at x `before`.
fn row_of(fields: &ByteRecord, row: u32, before: Option<u32>) -> Result<Row, OffsetFault>
    ensures ok { IfOk result (λ r. (spec.row_fault row before (fields_of fields.now) ≡ None)
        × (r ≡ spec.row_of row (fields_of fields.now))) }
    ensures err { IfErr result (λ e. spec.row_fault row before (fields_of fields.now) ≡ Some e) }
{
    let Some((x, y, z)) = three_fields(fields) else {
        return Err(OffsetFault::Columns { row });
    };
    let x = number_at(x, row, 1)?;
    let y = number_at(y, row, 2)?;
    let z = number_at(z, row, 3)?;
    not_negative(x, row, 1)?;
    not_negative(y, row, 2)?;
    not_negative(z, row, 3)?;
    within(x, MOST_X, row, 1)?;
    within(y, MOST_OFFSET, row, 2)?;
    within(z, MOST_OFFSET, row, 3)?;
    not_backwards(x, before, row)?;
    Ok(Row {
        number: row,
        x: x.unsigned_abs(),
        y: y.unsigned_abs(),
        z: z.unsigned_abs(),
    })
}

fn three_fields(fields: &ByteRecord) -> Option<(&[u8], &[u8], &[u8])>
    ensures { MatchOption result (length (fields_of fields.now) ≢ 3)
        (λ t. fields_of fields.now ≡ t.0.now ∷ t.1.now ∷ t.2.now ∷ []) }
{
    if fields.len() != 3 {
        return None;
    }
    Some((fields.get(0)?, fields.get(1)?, fields.get(2)?))
}

fn number_at(field: &[u8], row: u32, column: u32) -> Result<i32, OffsetFault>
    ensures ok { IfOk result (λ n. number_in field.now ≡ Some n) }
    ensures err { IfErr result (λ e. spec.number_fault row column (number_in field.now) ≡ Some e) }
{
    field_number(field).ok_or(OffsetFault::Number { row, column })
}

#[tactic(auto, unfolding(crate::specs::Rows::negative_fault))]
fn not_negative(number: i32, row: u32, column: u32) -> Result<(), OffsetFault>
    ensures ok { OnOk result (spec.negative_fault row column (Some number) ≡ None) }
    ensures err { IfErr result (λ e. spec.negative_fault row column (Some number) ≡ Some e) }
{
    if number < 0 {
        return Err(OffsetFault::Negative { row, column });
    }
    Ok(())
}

#[tactic(auto, unfolding(crate::specs::Rows::range_fault))]
fn within(number: i32, most: i32, row: u32, column: u32) -> Result<(), OffsetFault>
    requires { pos 0 ≤ℤ most }
    ensures ok { OnOk result (spec.range_fault row column (nat_abs most) (Some number) ≡ None) }
    ensures err { IfErr result (λ e. spec.range_fault row column (nat_abs most) (Some number) ≡ Some e) }
{
    if number > most {
        return Err(OffsetFault::Range { row, column });
    }
    Ok(())
}

#[tactic(auto, unfolding(crate::specs::Rows::backwards_fault))]
fn not_backwards(x: i32, before: Option<u32>, row: u32) -> Result<(), OffsetFault>
    ensures ok { OnOk result (spec.backwards_fault row before (Some x) ≡ None) }
    ensures err { IfErr result (λ e. spec.backwards_fault row before (Some x) ≡ Some e) }
{
    match before {
        Some(before) if x.unsigned_abs() < before => Err(OffsetFault::Backwards { row }),
        _ => Ok(()),
    }
}
