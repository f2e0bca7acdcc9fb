//! Numbers of JSON, as they stand in a text (RFC 8259, section 6).

ghost use Rattle.std.specs.Prelude.{◌≡◌, IfNone, IfSome, MatchOption};
ghost use Rattle.format_json_extents.specs.Number.{ExtendsNumber, IsDecimalPoint, IsDigit};
ghost use Rattle.format_json_extents.specs.Number.{IsDigits, IsExponent, IsExponentLetter};
ghost use Rattle.format_json_extents.specs.Number.{IsFraction, IsIntegerPart, IsMinus, IsNumber};
ghost use Rattle.format_json_extents.specs.Number.{IsSign};
ghost use Rattle.format_json_extents.specs.Texts.{IsByte, IsLongest, Maybe, NoByte, RestAfter};
ghost use Rattle.format_json_extents.specs.Texts.{NoMatchAtStart, EitherByte};

use crate::tokens::{skip_byte, skip_digits};

/// Skips one or more digits.
#[inline(always)]
fn skip_some_digits<'i>(bytes: &'i [u8]) -> Option<&'i [u8]>
    ensures { MatchOption result (NoMatchAtStart IsDigits bytes.now)
        (λ rest. RestAfter IsDigits IsDigit bytes.now rest.now) }
{
    let (first, more) = bytes.split_first()?;
    if *first >= b'0' && *first <= b'9' {
        Some(skip_digits(more))
    } else {
        None
    }
}

/// Skips a minus sign, if there is one.
#[inline(always)]
fn skip_minus<'i>(bytes: &'i [u8]) -> &'i [u8]
    ensures { RestAfter (Maybe (IsByte IsMinus)) (EitherByte NoByte IsMinus) bytes.now result.now }
{
    match skip_byte(b'-', bytes) {
        Some(rest) => rest,
        None => bytes,
    }
}

/// Skips a sign, if there is one.
#[inline(always)]
fn skip_sign<'i>(bytes: &'i [u8]) -> &'i [u8]
    ensures { RestAfter (Maybe (IsByte IsSign)) (EitherByte NoByte IsSign) bytes.now result.now }
{
    match bytes.split_first() {
        Some((first, more)) => {
            if *first == b'+' || *first == b'-' {
                more
            } else {
                bytes
            }
        }
        None => bytes,
    }
}

/// Skips the integer part of a number.
#[inline(always)]
fn skip_whole<'i>(bytes: &'i [u8]) -> Option<&'i [u8]>
    ensures { MatchOption result (NoMatchAtStart IsIntegerPart bytes.now)
        (λ rest. RestAfter IsIntegerPart IsDigit bytes.now rest.now) }
{
    let (first, more) = bytes.split_first()?;
    if *first == b'0' {
        return Some(more);
    }
    if *first >= b'1' && *first <= b'9' {
        Some(skip_digits(more))
    } else {
        None
    }
}

/// Skips a decimal point and digits.
#[inline(always)]
fn skip_fraction<'i>(bytes: &'i [u8]) -> Option<&'i [u8]>
    ensures { MatchOption result (NoMatchAtStart IsFraction bytes.now)
        (λ rest. RestAfter IsFraction IsDigit bytes.now rest.now) }
{
    let digits = skip_byte(b'.', bytes)?;
    skip_some_digits(digits)
}

/// Skips an exponent.
#[inline(always)]
fn skip_exponent<'i>(bytes: &'i [u8]) -> Option<&'i [u8]>
    ensures { MatchOption result (NoMatchAtStart IsExponent bytes.now)
        (λ rest. RestAfter IsExponent IsDigit bytes.now rest.now) }
{
    let (first, more) = bytes.split_first()?;
    if *first == b'e' || *first == b'E' {
        skip_some_digits(skip_sign(more))
    } else {
        None
    }
}

/// Skips a fraction, if there is one.
#[inline(always)]
fn skip_any_fraction<'i>(bytes: &'i [u8]) -> &'i [u8]
    ensures { RestAfter (Maybe IsFraction) (EitherByte IsDigit IsDecimalPoint) bytes.now
        result.now }
{
    match skip_fraction(bytes) {
        Some(rest) => rest,
        None => bytes,
    }
}

/// Skips an exponent, if there is one.
#[inline(always)]
fn skip_any_exponent<'i>(bytes: &'i [u8]) -> &'i [u8]
    ensures { RestAfter (Maybe IsExponent) (EitherByte IsDigit IsExponentLetter) bytes.now
        result.now }
{
    match skip_exponent(bytes) {
        Some(rest) => rest,
        None => bytes,
    }
}

/// Skips the longest number, and returns the remaining bytes.
#[inline(always)]
pub fn skip_number<'i>(bytes: &'i [u8]) -> Option<&'i [u8]>
    ensures { MatchOption result (NoMatchAtStart IsNumber bytes.now)
        (λ rest. RestAfter IsNumber ExtendsNumber bytes.now rest.now) }
{
    let rest = skip_whole(skip_minus(bytes))?;
    Some(skip_any_exponent(skip_any_fraction(rest)))
}

/// Returns the longest number that the input starts with, and consumes it. It may be shorter than
/// the writer meant: it is `1` for `1.x`, and `0` for `01`.
///
/// Returns `None` if and only if the input does not start with a number; then no input is consumed.
///
/// ```
/// use format_json_extents::number::read_number;
///
/// let mut input = b"-12.5e3,".as_slice();
/// assert!(rt; read_number(&mut input).is_some_and(|it| it == b"-12.5e3".as_slice()));
/// assert_eq!(rt; input, b",".as_slice());
/// assert!(rt; read_number(&mut b"+1".as_slice()).is_none());
/// ```
pub fn read_number<'i>(input: &mut &'i [u8]) -> Option<&'i [u8]>
    ensures found { IfSome result (λ text.
        IsLongest IsNumber text.now input.old.now input.new.now) }
    ensures none { IfNone result (NoMatchAtStart IsNumber input.old.now) }
    ensures kept { IfNone result (input.new.now ≡ input.old.now) }
{
    let start = *input;
    let rest = skip_number(start)?;
    *input = rest;
    Some(&start[..start.len() - rest.len()])
}
