// What is said of a fault of a file.
ghost use Rattle.std.specs.Prelude.{◌≡◌, ◌++◌, OnOk, string_bytes};
ghost use Rattle.report_run.specs.Faults.{word_text, entry_text, key_text, job_fault_text, load_fault_text, offset_fault_text};

use crate::refused::{push_field, push_number, push_place, push_word};
use exact_fraction::Memory;
use job_reader::{JobFault, Key};
use loading_sheet::LoadFault;
use offset_reader::OffsetFault;

/// Appends the fault's word and its numbers.
pub(crate) fn push_offset_fault(text: &mut String, fault: &OffsetFault) -> Result<(), Memory>
    ensures { OnOk result (string_bytes text.new ≡ string_bytes text.old ++ offset_fault_text fault.now) }
{
    match *fault {
        OffsetFault::Columns { row } => push_place(text, "columns", row),
        OffsetFault::Number { row, column } => push_field(text, "number", row, column),
        OffsetFault::Negative { row, column } => push_field(text, "negative", row, column),
        OffsetFault::Range { row, column } => push_field(text, "range", row, column),
        OffsetFault::Backwards { row } => push_place(text, "backwards", row),
        OffsetFault::Height { row } => push_place(text, "height", row),
        OffsetFault::FewStations { stations } => push_place(text, "fewstations", stations),
        OffsetFault::TooManyStations { row } => push_place(text, "toomanystations", row),
        OffsetFault::FewPoints { row } => push_place(text, "fewpoints", row),
        OffsetFault::TooManyPoints { row } => push_place(text, "toomanypoints", row),
        OffsetFault::NoVolume => push_word(text, "novolume"),
        OffsetFault::Memory => Err(Memory),
    }
}

/// Appends the fault's word, its key and its numbers.
pub(crate) fn push_job_fault(text: &mut String, fault: &JobFault) -> Result<(), Memory>
    ensures { OnOk result (string_bytes text.new ≡ string_bytes text.old ++ job_fault_text fault.now) }
{
    match *fault {
        JobFault::Text => push_word(text, "text"),
        JobFault::Version => push_word(text, "version"),
        JobFault::Unknown { key, entry } => push_entry(text, "unknown", key, entry),
        JobFault::Missing { key, entry } => push_entry(text, "missing", key, entry),
        JobFault::Kind { key, entry } => push_entry(text, "kind", key, entry),
        JobFault::Range { key, entry } => push_entry(text, "range", key, entry),
        JobFault::Many { key, entry } => push_entry(text, "many", key, entry),
        JobFault::Name { key, entry } => push_entry(text, "name", key, entry),
        JobFault::Twice { key, entry } => push_entry(text, "twice", key, entry),
        JobFault::NotNamed { entry } => push_place(text, "notnamed", entry),
        JobFault::Overlap { first, second } => push_field(text, "overlap", first, second),
        JobFault::Memory => Err(Memory),
    }
}

/// Appends the fault's word and its number.
pub(crate) fn push_load_fault(text: &mut String, fault: &LoadFault) -> Result<(), Memory>
    ensures { OnOk result (string_bytes text.new ≡ string_bytes text.old ++ load_fault_text fault.now) }
{
    match *fault {
        LoadFault::NoMass => push_word(text, "nomass"),
        LoadFault::MassRange { sum } => {
            push_word(text, "massrange")?;
            push_number(text, sum)
        }
    }
}

fn push_entry(text: &mut String, word: &str, key: Key, entry: u32) -> Result<(), Memory>
    ensures { OnOk result (string_bytes text.new ≡ string_bytes text.old ++ entry_text word.now key entry) }
{
    push_word(text, word)?;
    push_key(text, key)?;
    push_number(text, entry)
}

fn push_key(text: &mut String, key: Key) -> Result<(), Memory>
    ensures { OnOk result (string_bytes text.new ≡ string_bytes text.old ++ word_text (key_text key)) }
{
    match key.table() {
        Key::Top => push_word(text, key.word()),
        table => {
            push_word(text, table.word())?;
            text.push_str(".")?;
            text.push_str(key.word())?;
            Ok(())
        }
    }
}
