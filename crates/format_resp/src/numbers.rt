//! Integers and sizes, and numbers that are kept as text: doubles and big numbers.

ghost use Rattle.std.specs.Char.{digit_value};
ghost use Rattle.std.specs.Option.{SomeIff};
ghost use Rattle.std.specs.Prelude.{◌≡◌, ◌≤◌, ◌<◌, ◌^◌, ℕ, ℤ, Option, None, IfSome};
ghost use Rattle.std.specs.Prelude.{MatchBool, MatchOption};
ghost use Rattle.stream_sets.specs.AsChar.{IsDecDigit};
ghost use Rattle.streams.specs.Bytes.{bytes_input, bytes_reading};
ghost use Rattle.parser_definitions.specs.Digits.{value_in};
ghost use Rattle.winnow_core.specs.Exact.{IsSpared, Reads};
ghost use Rattle.grammars.specs.Grammar.{Class};
ghost use Rattle.grammars.specs.Texts.{NotFirst};
ghost use Rattle.format_resp.specs.Numbers.{AreDigits, DigitsText, IsBigNumber, IsDecimal};
ghost use Rattle.format_resp.specs.Numbers.{IsDouble, IsExponent, IsTail, RestAfterDigits};
ghost use Rattle.format_resp.specs.Numbers.{SignedText, SizeLine, UnsignedText, is_negative};
ghost use Rattle.format_resp.specs.Numbers.{signed, unsigned};

use stream_errors::empty::EmptyError;
use stream_errors::has_kind::HasKind;
use stream_errors::mode::ErrMode;
use winnow_ascii::ascii::impls::Digit1;
use winnow_core::parser::Parser;

type Error = ErrMode<EmptyError>;

/// The digits that bytes begin with.
#[inline(always)]
fn read_digits<'i>(bytes: &mut &'i [u8]) -> Result<&'i [u8], ErrMode<EmptyError>>
    ensures reads { Reads bytes_reading ⟦<Error as HasKind>⟧.kind
        (Class IsDecDigit 1 (λ b. b) (λ b. b) bytes_reading) (bytes_input bytes.old.now) result
        (bytes_input bytes.new.now) }
    ensures spared { IsSpared ⟦<Error as HasKind>⟧.kind (bytes_input bytes.old.now) result }
{
    Digit1.read(bytes)
}

/// Skips one or more digits and returns the rest.
#[inline(always)]
fn skip_digits<'i>(bytes: &'i [u8]) -> Option<&'i [u8]>
    ensures { MatchOption result (NotFirst IsDecDigit bytes.now)
        (λ rest. RestAfterDigits bytes.now rest.now) }
{
    let mut left = bytes;
    match read_digits(&mut left) {
        Ok(_) => Some(left),
        Err(_) => None,
    }
}

/// Whether the bytes, all of them, are digits.
#[inline(always)]
pub(crate) fn are_digits(bytes: &[u8]) -> bool
    ensures { MatchBool result (AreDigits bytes.now) (AreDigits bytes.now → ⊥) }
{
    match skip_digits(bytes) {
        Some(rest) => rest.is_empty(),
        None => false,
    }
}

/// Returns the value of a digit or a letter, from 0 for '0' to 35 for 'Z' and 'z'; 36 for any other
/// byte.
#[inline(always)]
fn value_of(byte: u8) -> u64
    ensures { result ≡ digit_value byte }
{
    if byte.is_ascii_digit() {
        return u64::from(byte - b'0');
    }
    match char::from(byte).to_digit(36) {
        Some(value) => u64::from(value),
        None => 36,
    }
}

/// The number that digits stand for; none where it is past 64 bits.
#[inline(always)]
fn decimal(digits: &[u8]) -> Option<u64>
    ensures { SomeIff result (value_in 10 digits.now < 2 ^ 64) (value_in 10 digits.now) }
{
    let mut number = 0_u64;
    for digit in digits {
        number = number.checked_mul(10)?.checked_add(value_of(*digit))?;
    }
    Some(number)
}

/// The number of 64 bits that bytes are the digits of.
#[inline(always)]
fn digits_of(bytes: &[u8]) -> Option<u64>
    ensures some { IfSome result (λ n. DigitsText n bytes.now) }
    ensures none { result ≡ None → (n : ℕ) → DigitsText n bytes.now → 2 ^ 64 ≤ n }
{
    if are_digits(bytes) {
        decimal(bytes)
    } else {
        None
    }
}

/// Returns `number`, or its negation if `negative`.
#[inline(always)]
fn with_sign(negative: bool, number: u64) -> i128
    ensures { result ≡ signed negative number }
{
    if negative {
        -(number as i128)
    } else {
        number as i128
    }
}

/// The integer of 64 bits that bytes are the digits of, with a minus sign before them or not.
#[inline(always)]
fn signed_of(negative: bool, bytes: &[u8]) -> Option<i64>
    ensures some { IfSome result (λ n. UnsignedText negative n bytes.now) }
    ensures none { result ≡ None → (n : ℤ) → UnsignedText negative n bytes.now → ⊥ }
{
    let digits = digits_of(bytes)?;
    match i64::try_from(with_sign(negative, digits)) {
        Ok(number) => Some(number),
        Err(_) => None,
    }
}

/// Whether the bytes start with a minus.
#[inline(always)]
fn has_minus(bytes: &[u8]) -> bool
    ensures { result ≡ is_negative bytes.now }
{
    let Some((first, _more)) = bytes.split_first() else {
        return false;
    };
    *first == b'-'
}

/// Returns the rest after a sign, or all bytes if there is none.
#[inline(always)]
fn without_sign<'i>(bytes: &'i [u8]) -> &'i [u8]
    ensures { result.now ≡ unsigned bytes.now }
{
    let Some((first, rest)) = bytes.split_first() else {
        return bytes;
    };
    let first = *first;
    if first == b'+' || first == b'-' {
        return rest;
    }
    bytes
}

/// The integer that a line is, without its end: digits, and a sign or none before them. `None` says
/// that it is none of 64 bits.
///
/// ```
/// use format_resp::numbers::number_of;
///
/// assert!(rt; matches!(number_of(b"-7"), Some(-7)));
/// assert!(rt; matches!(number_of(b"+007"), Some(7)) && matches!(number_of(b"-0"), Some(0)));
/// assert!(rt; number_of(b"7 ").is_none() && number_of(b"9223372036854775808").is_none());
/// ```
pub fn number_of(line: &[u8]) -> Option<i64>
    ensures some { IfSome result (λ n. SignedText n line.now) }
    ensures none { result ≡ None → (n : ℤ) → SignedText n line.now → ⊥ }
{
    signed_of(has_minus(line), without_sign(line))
}

/// The most bytes or replies that a size counts.
pub(crate) const MOST: u64 = 9223372036854775807;

/// The size that a line is, without its end: digits; none for `-1`, which stands for null.
#[inline(always)]
pub(crate) fn size_line(line: &[u8]) -> Option<Option<usize>>
    ensures some { IfSome result (λ size. SizeLine size line.now) }
    ensures none { result ≡ None → (size : Option ℕ) → SizeLine size line.now → ⊥ }
{
    if line == b"-1".as_slice() {
        return Some(None);
    }
    let size = digits_of(line)?;
    if size <= MOST {
        Some(Some(size as usize))
    } else {
        None
    }
}

/// Whether the bytes, all of them, are the text of a big number of RESP3: digits, and a sign before
/// them or none.
///
/// ```
/// use format_resp::numbers::is_big_number;
///
/// assert!(rt; is_big_number(b"-3492890328409238509324850943850943825024385"));
/// assert!(rt; !is_big_number(b"1.5"));
/// ```
pub fn is_big_number(bytes: &[u8]) -> bool
    ensures { MatchBool result (IsBigNumber bytes.now) (IsBigNumber bytes.now → ⊥) }
{
    are_digits(without_sign(bytes))
}

/// Whether it is a letter E and a number, or nothing.
fn is_exponent(bytes: &[u8]) -> bool
    ensures { MatchBool result (IsExponent bytes.now) (IsExponent bytes.now → ⊥) }
{
    let Some((first, power)) = bytes.split_first() else {
        return true;
    };
    let first = *first;
    if first == b'e' || first == b'E' {
        return is_big_number(power);
    }
    false
}

/// Whether it is a fraction or none, and an exponent or none.
fn is_tail(bytes: &[u8]) -> bool
    ensures { MatchBool result (IsTail bytes.now) (IsTail bytes.now → ⊥) }
{
    match bytes.split_first() {
        Some((first, more)) => {
            if *first == b'.' {
                match skip_digits(more) {
                    Some(rest) => is_exponent(rest),
                    None => false,
                }
            } else {
                is_exponent(bytes)
            }
        }
        None => true,
    }
}

/// Whether it is a number with a fraction or none, and an exponent or none.
fn is_decimal(bytes: &[u8]) -> bool
    ensures { MatchBool result (IsDecimal bytes.now) (IsDecimal bytes.now → ⊥) }
{
    match skip_digits(without_sign(bytes)) {
        Some(rest) => is_tail(rest),
        None => false,
    }
}

/// Whether the bytes, all of them, are the text of a double of RESP3: `inf`, `-inf`, `nan`, `-nan`,
/// which servers send too, or digits with a sign before them or none, and after them a point and
/// digits or none, and then the
/// letter E and digits, with a sign before these or none, or no exponent.
///
/// ```
/// use format_resp::numbers::is_double;
///
/// assert!(rt; is_double(b"-1.25e+3") && is_double(b"-nan") && is_double(b"10"));
/// assert!(rt; !is_double(b".5") && !is_double(b"1.") && !is_double(b"+inf"));
/// ```
pub fn is_double(bytes: &[u8]) -> bool
    ensures { MatchBool result (IsDouble bytes.now) (IsDouble bytes.now → ⊥) }
{
    if bytes == b"inf".as_slice() || bytes == b"nan".as_slice() {
        return true;
    }
    if bytes == b"-inf".as_slice() || bytes == b"-nan".as_slice() {
        return true;
    }
    is_decimal(bytes)
}
