// The words of a text that is written.
ghost use Rattle.std.specs.Prelude.{◌≡◌, ◌∷◌, ◌++◌, ◌≤◌, true, length, map, OnOk};
ghost use Rattle.hull_report.specs.Spelling as spelling;

use crate::line::Sides;
use exact_fraction::Memory;
use itoa::Buffer;
use outward_interval::{Figure, decimal_out};

/// Decimals of a figure.
const PLACES: u32 = 6;

/// Appends the first word of a line.
#[tactic(auto, unfolding(crate::specs::Spelling::word_text))]
pub(crate) fn push_first(text: &mut Vec<u8>, name: &[u8]) -> Result<(), Memory>
    ensures { OnOk result (text.new.items ≡ text.old.items ++ spelling.word_text (spelling.Name name.now)) }
{
    text.extend_from_slice(name)?;
    Ok(())
}

/// Appends a space and a word.
fn push_word(text: &mut Vec<u8>, word: &[u8]) -> Result<(), Memory>
    ensures { OnOk result (text.new.items ≡ text.old.items ++ 32 ∷ word.now) }
{
    text.push(b' ')?;
    text.extend_from_slice(word)?;
    Ok(())
}

#[tactic(auto, unfolding(crate::specs::Spelling::word_text))]
pub(crate) fn push_name(text: &mut Vec<u8>, name: &[u8]) -> Result<(), Memory>
    ensures { OnOk result (text.new.items ≡ text.old.items ++ 32 ∷ spelling.word_text (spelling.Name name.now)) }
{
    push_word(text, name)
}

#[tactic(auto, unfolding(crate::specs::Spelling::word_text))]
pub(crate) fn push_u64(text: &mut Vec<u8>, number: u64) -> Result<(), Memory>
    ensures { OnOk result (text.new.items ≡ text.old.items ++ 32 ∷ spelling.word_text (spelling.U64 number)) }
{
    let mut digits = Buffer::new();
    push_word(text, digits.format(number).as_bytes())
}

#[tactic(auto, unfolding(crate::specs::Spelling::word_text))]
pub(crate) fn push_u32(text: &mut Vec<u8>, number: u32) -> Result<(), Memory>
    ensures { OnOk result (text.new.items ≡ text.old.items ++ 32 ∷ spelling.word_text (spelling.U32 number)) }
{
    let mut digits = Buffer::new();
    push_word(text, digits.format(number).as_bytes())
}

#[tactic(auto, unfolding(crate::specs::Spelling::word_text))]
pub(crate) fn push_i64(text: &mut Vec<u8>, number: &i64) -> Result<(), Memory>
    ensures { OnOk result (text.new.items ≡ text.old.items ++ 32 ∷ spelling.word_text (spelling.I64 number.now)) }
{
    let mut digits = Buffer::new();
    push_word(text, digits.format(*number).as_bytes())
}

#[tactic(auto, unfolding(crate::specs::Spelling::word_text))]
pub(crate) fn push_i128(text: &mut Vec<u8>, number: &i128) -> Result<(), Memory>
    ensures { OnOk result (text.new.items ≡ text.old.items ++ 32 ∷ spelling.word_text (spelling.I128 number.now)) }
{
    let mut digits = Buffer::new();
    push_word(text, digits.format(*number).as_bytes())
}

#[tactic(auto, unfolding(crate::specs::Spelling::word_text))]
pub(crate) fn push_version(text: &mut Vec<u8>, version: u32) -> Result<(), Memory>
    ensures { OnOk result (text.new.items ≡ text.old.items ++ 32 ∷ spelling.word_text (spelling.Version version)) }
{
    let mut digits = Buffer::new();
    push_word(text, digits.format(version).as_bytes())
}

#[tactic(auto, unfolding(crate::specs::Spelling::word_text))]
pub(crate) fn push_criterion(text: &mut Vec<u8>, criterion: u32) -> Result<(), Memory>
    ensures { OnOk result (text.new.items ≡ text.old.items ++ 32 ∷ spelling.word_text (spelling.Criterion criterion)) }
{
    let mut digits = Buffer::new();
    push_word(text, b"C")?;
    text.extend_from_slice(digits.format(criterion).as_bytes())?;
    Ok(())
}

/// Appends a figure with 6 decimals.
pub(crate) fn push_figure(text: &mut Vec<u8>, figure: &Figure) -> Result<(), Memory>
    ensures { OnOk result (text.new.items ≡ text.old.items ++ 32 ∷ spelling.word_text (spelling.figure figure.now)) }
{
    push_decimals(text, figure, PLACES)
}

#[tactic(auto, unfolding(crate::specs::Spelling::word_text))]
pub(crate) fn push_decimals(text: &mut Vec<u8>, figure: &Figure, places: u32) -> Result<(), Memory>
    requires { places ≤ 9 }
    ensures { OnOk result (text.new.items ≡ text.old.items ++ 32 ∷ spelling.word_text (spelling.Interval places figure.now)) }
{
    let figure = decimal_out(*text.allocator(), *figure, places)?;
    push_word(text, figure.as_bytes())
}

/// Appends figures with 6 decimals.
#[tactic(auto, unfolding(crate::specs::Spelling::spaced))]
pub(crate) fn push_each(text: &mut Vec<u8>, figures: &[Figure]) -> Result<(), Memory>
    ensures { OnOk result (text.new.items ≡ text.old.items ++ spelling.spaced (map spelling.figure figures.now)) }
{
    for figure in figures {
        push_figure(text, figure)?;
    }
    Ok(())
}

/// Appends a degree of heel, the draft bracket there, and figures.
#[tactic(auto, unfolding(crate::specs::Spelling::spaced))]
pub(crate) fn push_heeled(
    text: &mut Vec<u8>,
    degree: u32,
    d1: &i64,
    d2: &i64,
    figures: &[Figure],
) -> Result<(), Memory>
    ensures { OnOk result (text.new.items ≡ text.old.items ++ spelling.spaced (spelling.U32 degree ∷ spelling.I64 d1.now ∷ spelling.I64 d2.now ∷ map spelling.figure figures.now)) }
{
    push_u32(text, degree)?;
    push_i64(text, d1)?;
    push_i64(text, d2)?;
    push_each(text, figures)
}

#[tactic(auto, unfolding(crate::specs::Spelling::spaced))]
pub(crate) fn push_sides(text: &mut Vec<u8>, sides: &Sides) -> Result<(), Memory>
    ensures { OnOk result (text.new.items ≡ text.old.items ++ spelling.spaced (spelling.sides_words sides.now)) }
{
    push_i64(text, &sides.a1)?;
    push_i64(text, &sides.a2)?;
    push_i64(text, &sides.f1)?;
    push_i64(text, &sides.f2)
}

/// Appends the figures of a hydro line, a dash for each that is absent.
pub(crate) fn push_figures(text: &mut Vec<u8>, figures: &[Option<Figure>]) -> Result<(), Memory>
    requires { length figures.now ≡ 11 }
    ensures { OnOk result (text.new.items ≡ text.old.items ++ spelling.spaced (spelling.figure_words spelling.may_be_absent figures.now)) }
{
    for figure in figures {
        push_figure_or_absent(text, figure)?;
    }
    Ok(())
}

pub(crate) fn push_figure_or_absent(
    text: &mut Vec<u8>,
    figure: &Option<Figure>,
) -> Result<(), Memory>
    ensures { OnOk result (text.new.items ≡ text.old.items ++ 32 ∷ spelling.word_text (spelling.figure_or_absent true figure.now)) }
{
    match figure {
        Some(figure) => push_figure(text, figure),
        None => push_name(text, b"-"),
    }
}
