//! Times and offsets (TOML 1.0: Local Time, Offset Date-Time), from their bytes.
ghost use Rattle.std.specs.Prelude.{◌≡◌, ◌≤◌, ◌+◌, ◌*◌, [], ◌∷◌, pos, neg_ℤ};
ghost use Rattle.std.specs.Prelude.{FitsSigned};
ghost use Rattle.std.specs.Int.{w16};
ghost use Rattle.format_toml_tree.specs.Dates.{Clock, CountsDigits, Finds, FindsTime};
ghost use Rattle.format_toml_tree.specs.Dates.{FoundResult, HourAndMinute, MaybeOffset};
ghost use Rattle.format_toml_tree.specs.Dates.{SplitsFraction};

use crate::dates::{marked, two_digits};
use crate::value::Offset;

/// Returns the number of digits at the start.
fn count_digits(text: &[u8]) -> usize
    ensures { CountsDigits text.now result }
{
    for place in 0..text.len() {
        if !text[place].is_ascii_digit() {
            return place;
        }
    }
    text.len()
}

/// Returns the digits of a fraction at the start, possibly none, and the remaining text.
fn fraction(text: &[u8]) -> (&[u8], &[u8])
    ensures { SplitsFraction text.now result.0.now result.1.now }
{
    let Some((first, behind)) = text.split_first() else {
        return (text, text);
    };
    if *first != b'.' {
        return (&text[..0], text);
    }
    let count = count_digits(behind);
    if count == 0 {
        return (&text[..0], text);
    }
    behind.split_at(count)
}

/// Parses an hour, a minute and a second, and returns them and the remaining text.
fn clock(text: &[u8]) -> Option<((u8, u8, u8), &[u8])>
    ensures { Finds Clock text.now result }
{
    let (hour, rest) = two_digits(text)?;
    let (minute, rest) = marked(b':', rest)?;
    let (second, rest) = marked(b':', rest)?;
    if hour > 23 || minute > 59 || second > 60 {
        return None;
    }
    Some(((hour, minute, second), rest))
}

/// Parses an hour and a minute, and returns them and the remaining text.
fn hour_and_minute(text: &[u8]) -> Option<((u8, u8), &[u8])>
    ensures { Finds HourAndMinute text.now result }
{
    let (hour, rest) = two_digits(text)?;
    let (minute, rest) = marked(b':', rest)?;
    if hour > 23 || minute > 59 {
        return None;
    }
    Some(((hour, minute), rest))
}

/// The minutes of an hour and a minute, to the east.
fn east(hour: u8, minute: u8) -> i16
    requires hours { hour ≤ 23 }
    requires minutes { minute ≤ 59 }
    ensures minutes { result ≡ pos (hour * 60 + minute) }
    ensures fits { FitsSigned w16 result }
{
    i16::from(hour) * 60 + i16::from(minute)
}

/// The minutes of an hour and a minute, to the west.
fn west(hour: u8, minute: u8) -> i16
    requires hours { hour ≤ 23 }
    requires minutes { minute ≤ 59 }
    ensures minutes { result ≡ neg_ℤ (pos (hour * 60 + minute)) }
    ensures fits { FitsSigned w16 result }
{
    -east(hour, minute)
}

/// The letter of an offset, if it is one.
fn zulu(letter: u8) -> Option<Option<Offset>>
    ensures { FoundResult (λ o. MaybeOffset o (letter ∷ [])) result }
{
    if letter == b'Z' || letter == b'z' {
        return Some(Some(Offset::Zulu));
    }
    None
}

/// The offset that a sign and an hour and a minute are.
fn signed(sign: u8, text: &[u8]) -> Option<Option<Offset>>
    requires { text.now ≡ [] → ⊥ }
    ensures { FoundResult (λ o. MaybeOffset o (sign ∷ text.now)) result }
{
    let ((hour, minute), rest) = hour_and_minute(text)?;
    if !rest.is_empty() {
        return None;
    }
    if sign == b'+' {
        return Some(Some(Offset::Minutes(east(hour, minute))));
    }
    if sign == b'-' {
        return Some(Some(Offset::Minutes(west(hour, minute))));
    }
    None
}

/// The offset that a text is, or that it is nothing.
fn offset(text: &[u8]) -> Option<Option<Offset>>
    ensures { FoundResult (λ o. MaybeOffset o text.now) result }
{
    let Some((first, rest)) = text.split_first() else {
        return Some(None);
    };
    let first = *first;
    if rest.is_empty() {
        return zulu(first);
    }
    signed(first, rest)
}

/// The parts of the time that a text is.
pub(crate) fn parts(text: &[u8]) -> Option<((u8, u8, u8), &[u8], Option<Offset>)>
    ensures { FindsTime text.now result }
{
    let (clock, rest) = clock(text)?;
    let (digits, behind) = fraction(rest);
    let offset = offset(behind)?;
    Some((clock, digits, offset))
}
