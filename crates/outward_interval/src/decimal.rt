// The text of a figure.
ghost use Rattle.std.specs.Prelude.{◌≡◌, ◌≤◌, ◌<◌, ◌^◌, ◌++◌, OnOk, IfOk, string_bytes};
ghost use Rattle.outward_interval.specs.Text.{last_digits, end_text, figure_text};

use crate::Figure;
use crate::rounding::power_of_ten;
use exact_fraction::Memory;
use itoa::Buffer;
use std::alloc::Global;

/// The text `[low,high]` of a figure with so many decimals.
///
/// Each end has a minus sign where it is below 0, its whole part without leading zeros, a point, and
/// exactly `places` decimals, at most 9. Answers [`Memory`] where memory is refused.
pub fn decimal_out(alloc: Global, f: Figure, places: u32) -> Result<String, Memory>
    requires { places ≤ 9 }
    ensures { IfOk result (λ text. string_bytes text ≡ figure_text places f.lo f.hi) }
{
    let mut text = String::new(alloc);
    text.push_str("[")?;
    push_end(&mut text, f.lo, places)?;
    text.push_str(",")?;
    push_end(&mut text, f.hi, places)?;
    text.push_str("]")?;
    Ok(text)
}

fn push_end(text: &mut String, end: i128, places: u32) -> Result<(), Memory>
    requires { places ≤ 9 }
    ensures { OnOk result (string_bytes text.new ≡ string_bytes text.old ++ end_text places end) }
{
    let size = end.unsigned_abs();
    let unit = u128::from(power_of_ten(places));
    if end < 0 {
        text.push_str("-")?;
    }
    let mut digits = Buffer::new();
    text.push_str(digits.format(size / unit))?;
    text.push_str(".")?;
    push_digits(text, size % unit, places)
}

// Appends the last digits of a number, so many of them.
#[tactic(auto, using(crate::proofs::Digits::last_digits_more))]
fn push_digits(text: &mut String, n: u128, places: u32) -> Result<(), Memory>
    ensures { OnOk result (string_bytes text.new ≡ string_bytes text.old ++ last_digits places n) }
{
    if places == 0 {
        return Ok(());
    }
    push_digits(text, n / 10, places - 1)?;
    text.push(char::from(b'0' + (n % 10) as u8))?;
    Ok(())
}
