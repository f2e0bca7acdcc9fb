//! Dates (TOML 1.0: Local Date), from their bytes.
ghost use Rattle.std.specs.Prelude.{◌≡◌};
ghost use Rattle.format_toml_tree.specs.Dates.{Finds, FourDigits, FullDate, IsDigitOf, Marked};
ghost use Rattle.format_toml_tree.specs.Dates.{FoundResult, TwoDigits};
ghost use Rattle.format_toml_tree.specs.Dates.{days_in as days_of, is_leap as leap_year};

use crate::value::Date;

/// The number of a digit.
fn digit(byte: u8) -> Option<u8>
    ensures { FoundResult (λ n. IsDigitOf n byte) result }
{
    if byte.is_ascii_digit() {
        return Some(byte - 48);
    }
    None
}

/// Parses two digits, and returns their number and the remaining text.
pub(crate) fn two_digits(text: &[u8]) -> Option<(u8, &[u8])>
    ensures { Finds TwoDigits text.now result }
{
    let (tens, rest) = text.split_first()?;
    let (ones, rest) = rest.split_first()?;
    let tens = digit(*tens)?;
    let ones = digit(*ones)?;
    Some((tens * 10 + ones, rest))
}

/// Parses a mark and two digits, and returns their number and the remaining text.
pub(crate) fn marked(mark: u8, text: &[u8]) -> Option<(u8, &[u8])>
    ensures { Finds (Marked mark) text.now result }
{
    let (first, rest) = text.split_first()?;
    if *first != mark {
        return None;
    }
    two_digits(rest)
}

/// Parses four digits, and returns their number and the remaining text.
fn four_digits(text: &[u8]) -> Option<(u16, &[u8])>
    ensures { Finds FourDigits text.now result }
{
    let (hundreds, rest) = two_digits(text)?;
    let (ones, rest) = two_digits(rest)?;
    Some((u16::from(hundreds) * 100 + u16::from(ones), rest))
}

/// Whether a year has a 29th of February.
fn is_leap(year: u16) -> bool
    ensures { result ≡ leap_year year }
{
    year % 4 == 0 && (year % 100 != 0 || year % 400 == 0)
}

/// How many days a month has; none, where there is no such month.
fn days_in(year: u16, month: u8) -> u8
    ensures { result ≡ days_of year month }
{
    if month == 2 {
        return if is_leap(year) { 29 } else { 28 };
    }
    if month == 4 || month == 6 || month == 9 || month == 11 {
        return 30;
    }
    if month == 1
        || month == 3
        || month == 5
        || month == 7
        || month == 8
        || month == 10
        || month == 12
    {
        return 31;
    }
    0
}

/// Parses a date, and returns it and the remaining text.
pub(crate) fn date(text: &[u8]) -> Option<(Date, &[u8])>
    ensures { Finds FullDate text.now result }
{
    let (year, rest) = four_digits(text)?;
    let (month, rest) = marked(b'-', rest)?;
    let (day, rest) = marked(b'-', rest)?;
    if day == 0 || day > days_in(year, month) {
        return None;
    }
    Some((Date { year, month, day }, rest))
}
