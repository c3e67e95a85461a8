// What one word says. More texts are taken here than the grammar has: a line that is read from them counts only where
// its own text is what was read.
ghost use Rattle.std.specs.Prelude.{◌≡◌, ◌≤◌, option_map, IfSome};
ghost use Rattle.hull_report.specs.Reading as reading;

use crate::names::{Command, Finding, SideLine};
use outward_interval::Figure;

/// The greatest version.
const VERSIONS: u32 = 2;

/// The number of criteria.
const CRITERIA: u32 = 6;

/// What stands before the first `separator`, and what stands after it.
pub(crate) fn cut(bytes: &[u8], separator: u8) -> Option<(&[u8], &[u8])>
    ensures { option_map (λ p. (p.0.now, p.1.now)) result ≡ reading.cut separator bytes.now }
{
    for (at, byte) in bytes.iter().enumerate() {
        if *byte == separator {
            return Some((&bytes[..at], &bytes[at + 1..]));
        }
    }
    None
}

/// The number that digits write where they follow those of another.
fn digits_after(start: u128, digits: &[u8]) -> Option<u128>
    ensures { result ≡ reading.digits_after start digits.now }
{
    let mut number = start;
    for digit in digits {
        number = digit_after(number, *digit)?;
    }
    Some(number)
}

fn digit_after(number: u128, digit: u8) -> Option<u128>
    ensures { result ≡ reading.digit_after number digit }
{
    if !digit.is_ascii_digit() {
        return None;
    }
    number
        .checked_mul(10)?
        .checked_add(u128::from(digit - b'0'))
}

/// The number that digits write, with or without a point among them.
#[tactic(auto, unfolding(crate::specs::Reading::unsigned))]
pub(crate) fn unsigned(text: &[u8]) -> Option<u128>
    ensures { result ≡ reading.unsigned text.now }
{
    let (whole, decimals) = cut(text, b'.').unwrap_or((text, &[]));
    digits_after(digits_after(0, whole)?, decimals)
}

/// The number that digits write, behind a minus sign or without one.
#[tactic(auto, unfolding(crate::specs::Reading::signed))]
pub(crate) fn signed(text: &[u8]) -> Option<i128>
    ensures { result ≡ reading.signed text.now }
{
    match cut(text, b'-') {
        Some((_, digits)) => negative(unsigned(digits)?),
        None => positive(unsigned(text)?),
    }
}

fn negative(size: u128) -> Option<i128>
    ensures { result ≡ reading.negative size }
{
    0i128.checked_sub_unsigned(size)
}

fn positive(size: u128) -> Option<i128>
    ensures { result ≡ reading.positive size }
{
    i128::try_from(size).ok()
}

/// The interval between brackets, in units of its last place.
#[tactic(auto, unfolding(crate::specs::Reading::figure))]
pub(crate) fn figure(word: &[u8]) -> Option<Figure>
    ensures { result ≡ reading.figure word.now }
{
    let (_, ends) = cut(word, b'[')?;
    let (low, rest) = cut(ends, b',')?;
    let (high, _) = cut(rest, b']')?;
    ordered(signed(low)?, signed(high)?)
}

fn ordered(lo: i128, hi: i128) -> Option<Figure>
    ensures { result ≡ reading.ordered lo hi }
{
    if lo <= hi {
        Some(Figure { lo, hi })
    } else {
        None
    }
}

/// A number from 1 to the most.
fn up_to(most: u32, number: u128) -> Option<u32>
    ensures value { result ≡ reading.up_to most number }
    ensures range { IfSome result (λ n. (1 ≤ n) × (n ≤ most)) }
{
    if 1 <= number && number <= u128::from(most) {
        Some(number as u32)
    } else {
        None
    }
}

/// The version, 1 or 2.
#[tactic(auto, unfolding(crate::specs::Reading::version))]
pub(crate) fn version(word: &[u8]) -> Option<u32>
    ensures value { result ≡ reading.version word.now }
    ensures range { IfSome result (λ n. (1 ≤ n) × (n ≤ 2)) }
{
    up_to(VERSIONS, unsigned(word)?)
}

/// The criterion from 1 to 6 behind its `C`.
#[tactic(auto, unfolding(crate::specs::Reading::criterion))]
pub(crate) fn criterion(word: &[u8]) -> Option<u32>
    ensures value { result ≡ reading.criterion word.now }
    ensures range { IfSome result (λ n. (1 ≤ n) × (n ≤ 6)) }
{
    let (_, digits) = cut(word, b'C')?;
    up_to(CRITERIA, unsigned(digits)?)
}

/// The command of a name.
#[tactic(auto, unfolding(crate::specs::Reading::command))]
pub(crate) fn command(name: &[u8]) -> Option<Command>
    ensures { result ≡ reading.command name.now }
{
    match name {
        name if name == b"hydro".as_slice() => Some(Command::Hydro),
        name if name == b"bonjean".as_slice() => Some(Command::Bonjean),
        name if name == b"cross".as_slice() => Some(Command::Cross),
        name if name == b"stability".as_slice() => Some(Command::Stability),
        name if name == b"damage".as_slice() => Some(Command::Damage),
        name if name == b"floodable".as_slice() => Some(Command::Floodable),
        name if name == b"all".as_slice() => Some(Command::All),
        name if name == b"section".as_slice() => Some(Command::Section),
        name if name == b"make".as_slice() => Some(Command::Make),
        name if name == b"tanks".as_slice() => Some(Command::Tanks),
        name if name == b"strength".as_slice() => Some(Command::Strength),
        name if name == b"flooded".as_slice() => Some(Command::Flooded),
        _ => None,
    }
}

/// The finding of a name.
#[tactic(auto, unfolding(crate::specs::Reading::finding))]
pub(crate) fn finding(name: &[u8]) -> Option<Finding>
    ensures { result ≡ reading.finding name.now }
{
    match name {
        name if name == b"holds".as_slice() => Some(Finding::Holds),
        name if name == b"fails".as_slice() => Some(Finding::Fails),
        name if name == b"unsure".as_slice() => Some(Finding::Unsure),
        _ => None,
    }
}

/// The side of a name.
#[tactic(auto, unfolding(crate::specs::Reading::side))]
pub(crate) fn side(name: &[u8]) -> Option<SideLine>
    ensures { result ≡ reading.side name.now }
{
    match name {
        name if name == b"port".as_slice() => Some(SideLine::Port),
        name if name == b"starboard".as_slice() => Some(SideLine::Starboard),
        _ => None,
    }
}
