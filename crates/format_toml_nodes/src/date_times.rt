//! Dates and times as numbers, from their text.
ghost use Rattle.std.specs.List.{All};
ghost use Rattle.std.specs.Prelude.{◌≡◌, ◌↔◌, IfOk, IsTrue, OnErr, slice_index_or};
ghost use Rattle.format_toml_nodes.specs.DateTimes.{IsNanosecond, IsOfText, nanoseconds, numbers};
ghost use Rattle.format_toml_nodes.specs.Nodes.{fraction_of};
ghost use Rattle.format_toml_tree.specs.Dates.{HasPoint, IsDigit, IsDigitOf};

use crate::values::{date_time_value, fraction};
use format_toml_tree::date_times::date_time;
use format_toml_tree::value::DateTime;
use std::alloc::{AllocError, Allocator};

/// A date, a time, or both, as numbers. Those of a part that is missing are 0.
///
/// ```
/// use format_toml_nodes::date_times::NO_DATE_TIME;
///
/// assert_eq!(rt; NO_DATE_TIME.year, 0);
/// ```
#[repr(C)]
#[derive(Clone, Copy, Debug, PartialEq, Eq, Drop)]
pub struct TomlDateTimeParts {
    /// Which parts there are: one of the kinds `TOML_OFFSET_DATE_TIME` to `TOML_LOCAL_TIME`.
    pub kind: u32,
    /// The nanosecond of the second, from 0 to 999,999,999.
    pub nanosecond: u32,
    /// The year, from 0 to 9999.
    pub year: u16,
    /// How many minutes the time is ahead of UTC, below zero to the west.
    pub offset: i16,
    /// The month, from 1 to 12.
    pub month: u8,
    /// The day, from 1 to the last of its month.
    pub day: u8,
    /// The hour, from 0 to 23.
    pub hour: u8,
    /// The minute, from 0 to 59.
    pub minute: u8,
    /// The second, from 0 to 60, which is a leap second.
    pub second: u8,
}

/// Zeros, which callers have room with.
pub const NO_DATE_TIME: TomlDateTimeParts = TomlDateTimeParts {
    kind: 0,
    nanosecond: 0,
    year: 0,
    offset: 0,
    month: 0,
    day: 0,
    hour: 0,
    minute: 0,
    second: 0,
};

/// Returns whether all bytes are digits.
fn are_digits(text: &[u8]) -> bool
    ensures { IsTrue result ↔ All IsDigit text.now }
{
    for byte in text {
        if !byte.is_ascii_digit() {
            return false;
        }
    }
    true
}

/// Returns the number of a digit, or 0 if it is missing.
fn digit_at(digits: &[u8], place: usize) -> u8
    requires { All IsDigit digits.now }
    ensures { IsDigitOf result (slice_index_or digits.now place 48) }
{
    if place < digits.len() {
        return digits[place] - b'0';
    }
    0
}

/// Returns the nanoseconds of the digits of a fraction.
fn nanosecond_of(digits: &[u8]) -> u32
    requires { All IsDigit digits.now }
    ensures { result ≡ nanoseconds digits.now }
{
    let mut sum = 0;
    for place in 0..9 {
        sum = sum * 10 + u32::from(digit_at(digits, place));
    }
    sum
}

/// Returns how many nanoseconds the fraction with these digits is. From the tenth digit on they are
/// cut off. Returns `None` if not all bytes are digits; no bytes are 0 nanoseconds.
///
/// ```
/// use format_toml_nodes::date_times::nanosecond;
///
/// assert_eq!(rt; nanosecond(b"05"), Some(50_000_000));
/// assert_eq!(rt; nanosecond(b"9999999999"), Some(999_999_999));
/// assert_eq!(rt; nanosecond(b".5"), None);
/// ```
pub fn nanosecond(digits: &[u8]) -> Option<u32>
    ensures { IsNanosecond digits.now result }
{
    if are_digits(digits) {
        return Some(nanosecond_of(digits));
    }
    None
}

/// The numbers of a date, a time or both.
fn numbers_of<A: Allocator>(found: &DateTime<A>) -> TomlDateTimeParts
    requires { All IsDigit (fraction_of found.now) }
    ensures { result ≡ numbers found.now }
{
    let value = date_time_value(found);
    TomlDateTimeParts {
        kind: value.kind,
        nanosecond: nanosecond_of(fraction(found).as_bytes()),
        year: value.year,
        offset: value.offset,
        month: value.month,
        day: value.day,
        hour: value.hour,
        minute: value.minute,
        second: value.second,
    }
}

/// Parses a date, a time or both, as `date_time` of `format_toml_tree`, and returns its numbers;
/// `None` if the text is none of these.
///
/// Fails with out of memory if the digits of a fraction cannot be allocated. A text without a full
/// stop needs no memory.
///
/// ```
/// use format_toml_nodes::date_times::read_date_time;
///
/// let found = read_date_time(alloc, b"1979-05-27T00:32:00.999999-07:00");
/// let Ok(Some(it)) = found else {
///     return;
/// };
/// assert!(rt; it.day == 27 && it.nanosecond == 999_999_000 && it.offset == -420);
/// ```
pub fn read_date_time<A: Allocator>(
    alloc: A,
    text: &[u8],
) -> Result<Option<TomlDateTimeParts>, AllocError>
    ensures found { IfOk result (λ o. IsOfText A text.now o) }
    ensures full { OnErr result (HasPoint text.now) }
{
    match date_time(alloc, text)? {
        Some(found) => Ok(Some(numbers_of(&found))),
        None => Ok(None),
    }
}
