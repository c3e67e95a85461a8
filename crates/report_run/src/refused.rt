// Words and numbers of a line that refuses.
ghost use Rattle.std.specs.Prelude.{◌≡◌, ◌++◌, OnOk, string_bytes};
ghost use Rattle.report_run.specs.Faults.{word_text, place_text, field_text};

use exact_fraction::Memory;
use itoa::{Buffer, Integer};

/// Appends a space and a word.
pub(crate) fn push_word(text: &mut String, word: &str) -> Result<(), Memory>
    ensures { OnOk result (string_bytes text.new ≡ string_bytes text.old ++ word_text word.now) }
{
    text.push_str(" ")?;
    text.push_str(word)?;
    Ok(())
}

/// Appends a space and a whole number.
pub(crate) fn push_number<N: Integer>(text: &mut String, number: N) -> Result<(), Memory>
    ensures { OnOk result (string_bytes text.new ≡ string_bytes text.old ++ word_text (N.text number)) }
{
    let mut digits = Buffer::new();
    push_word(text, digits.format(number))
}

/// Appends a word and a whole number.
pub(crate) fn push_place(text: &mut String, word: &str, row: u32) -> Result<(), Memory>
    ensures { OnOk result (string_bytes text.new ≡ string_bytes text.old ++ place_text word.now row) }
{
    push_word(text, word)?;
    push_number(text, row)
}

/// Appends a word and two whole numbers.
pub(crate) fn push_field(text: &mut String, word: &str, row: u32, column: u32) -> Result<(), Memory>
    ensures { OnOk result (string_bytes text.new ≡ string_bytes text.old ++ field_text word.now row column) }
{
    push_place(text, word, row)?;
    push_number(text, column)
}
