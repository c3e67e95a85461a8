// The number in a field.
ghost use Rattle.std.specs.Prelude.{◌≡◌, ℕ, ◌<◌, IfSome};
ghost use Rattle.offset_reader.specs.Numbers as number;

/// The most digits of a number.
const MOST_DIGITS: usize = 9;

/// The number in a field: between blanks, an optional minus sign and one to nine decimal digits.
#[tactic(auto, unfolding(crate::specs::Numbers::number_in))]
pub(crate) fn field_number(field: &[u8]) -> Option<i32>
    ensures { result ≡ number.number_in field.now }
{
    signed_number(without_blanks(field))
}

fn signed_number(text: &[u8]) -> Option<i32>
    ensures { result ≡ number.signed_number text.now }
{
    let [first, digits @ ..] = text else {
        return None;
    };
    if *first == b'-' {
        Some(-(digits_number(digits)? as i32))
    } else {
        Some(digits_number(text)? as i32)
    }
}

fn digits_number(digits: &[u8]) -> Option<u32>
    ensures same { result ≡ number.digits_number digits.now }
    ensures small { IfSome result (λ n. n < 1_000_000_000) }
{
    if digits.is_empty() || digits.len() > MOST_DIGITS {
        return None;
    }
    let mut number: u32 = 0;
    for digit in digits {
        if !digit.is_ascii_digit() {
            return None;
        }
        number = number * 10 + (*digit - b'0') as u32;
    }
    Some(number)
}

fn is_blank(byte: u8) -> bool
    ensures { result ≡ number.is_blank byte }
{
    byte == b' ' || byte == b'\t'
}

fn without_blanks(field: &[u8]) -> &[u8]
    ensures { result.now ≡ number.without_blanks field.now }
{
    before_blanks(after_blanks(field))
}

fn after_blanks(text: &[u8]) -> &[u8]
    ensures { result.now ≡ number.after_blanks text.now }
{
    let mut rest = text;
    while let [first, after @ ..] = rest {
        if !is_blank(*first) {
            return rest;
        }
        rest = after;
    }
    rest
}

fn before_blanks(text: &[u8]) -> &[u8]
    ensures { result.now ≡ number.before_blanks text.now }
{
    let mut rest = text;
    while let [before @ .., last] = rest {
        if !is_blank(*last) {
            return rest;
        }
        rest = before;
    }
    rest
}
