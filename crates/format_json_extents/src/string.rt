//! Strings of JSON, as they stand in a text (RFC 8259, section 7).

ghost use Rattle.std.specs.Prelude.{◌≡◌, ◌↔◌, List, ℕ, IfNone, IfSome, IsTrue, MatchOption};
ghost use Rattle.format_json_extents.specs.Strings.{BeginCodeUnit, IsCharacterCode, IsCodeUnit};
ghost use Rattle.format_json_extents.specs.Strings.{IsEscape, IsEscaped, IsHexDigit, IsInQuotes};
ghost use Rattle.format_json_extents.specs.Strings.{IsString, IsStringTail, IsSurrogatePair};
ghost use Rattle.format_json_extents.specs.Strings.{IsTwoHexDigits};
ghost use Rattle.format_json_extents.specs.Texts.{IsByte, MatchesAtStart, NoByte, NoMatchAtStart};
ghost use Rattle.format_json_extents.specs.Texts.{RestAfter};

use crate::tokens::{skip_byte, skip_unescaped};

/// Whether a byte is a hexadecimal digit.
fn is_hex_digit(byte: u8) -> bool
    ensures { IsTrue result ↔ IsHexDigit byte }
{
    (byte >= b'0' && byte <= b'9')
        || (byte >= b'A' && byte <= b'F')
        || (byte >= b'a' && byte <= b'f')
}

/// Returns whether a byte may follow a backslash by itself.
fn is_escaped(byte: u8) -> bool
    ensures { IsTrue result ↔ IsEscaped byte }
{
    byte == b'"'
        || byte == b'\\'
        || byte == b'/'
        || byte == b'b'
        || byte == b'f'
        || byte == b'n'
        || byte == b'r'
        || byte == b't'
}

/// Which unit of UTF-16 four hexadecimal digits are, of the character that they mean.
#[derive(Clone, Copy, Drop)]
enum Unit {
    /// Its only one: no surrogate.
    Only,
    /// The first of two: a high surrogate, from D800 to DBFF.
    High,
    /// The second of two: a low surrogate, from DC00 to DFFF.
    Low,
}

/// Whether these are the first two digits of such a unit.
fn begins(unit: Unit, first: u8, second: u8) -> bool
    ensures { IsTrue result ↔ BeginCodeUnit unit first second }
{
    let surrogates = first == b'D' || first == b'd';
    match unit {
        Unit::Only => {
            is_hex_digit(first) && is_hex_digit(second) && (!surrogates || second <= b'7')
        }
        Unit::High => surrogates && matches!(second, b'8' | b'9' | b'A' | b'B' | b'a' | b'b'),
        Unit::Low => {
            surrogates && ((second >= b'C' && second <= b'F') || (second >= b'c' && second <= b'f'))
        }
    }
}

/// Skips a hexadecimal digit.
fn skip_digit<'i>(bytes: &'i [u8]) -> Option<&'i [u8]>
    ensures { MatchOption result (NoMatchAtStart (IsByte IsHexDigit) bytes.now)
        (λ rest. RestAfter (IsByte IsHexDigit) NoByte bytes.now rest.now) }
{
    let (first, more) = bytes.split_first()?;
    if is_hex_digit(*first) {
        Some(more)
    } else {
        None
    }
}

/// Skips two hexadecimal digits.
fn skip_two_digits<'i>(bytes: &'i [u8]) -> Option<&'i [u8]>
    ensures { MatchOption result (NoMatchAtStart IsTwoHexDigits bytes.now)
        (λ rest. RestAfter IsTwoHexDigits NoByte bytes.now rest.now) }
{
    let one = skip_digit(bytes)?;
    skip_digit(one)
}

/// Skips the four digits of a unit of this kind.
fn skip_unit<'i>(unit: Unit, bytes: &'i [u8]) -> Option<&'i [u8]>
    ensures { MatchOption result (NoMatchAtStart (IsCodeUnit (BeginCodeUnit unit)) bytes.now)
        (λ rest. RestAfter (IsCodeUnit (BeginCodeUnit unit)) NoByte bytes.now rest.now) }
{
    let (first, more) = bytes.split_first()?;
    let (second, digits) = more.split_first()?;
    if begins(unit, *first, *second) {
        skip_two_digits(digits)
    } else {
        None
    }
}

/// Skips the digits of a high surrogate, and the escaped low surrogate after them.
fn skip_pair<'i>(bytes: &'i [u8]) -> Option<&'i [u8]>
    ensures { MatchOption result (NoMatchAtStart IsSurrogatePair bytes.now)
        (λ rest. RestAfter IsSurrogatePair NoByte bytes.now rest.now) }
{
    let high = skip_unit(Unit::High, bytes)?;
    let escape = skip_byte(b'\\', high)?;
    let low = skip_byte(b'u', escape)?;
    skip_unit(Unit::Low, low)
}

/// Skips the digits of a character: those of one unit, or of a pair.
fn skip_character<'i>(bytes: &'i [u8]) -> Option<&'i [u8]>
    ensures { MatchOption result (NoMatchAtStart IsCharacterCode bytes.now)
        (λ rest. RestAfter IsCharacterCode NoByte bytes.now rest.now) }
{
    match skip_unit(Unit::Only, bytes) {
        Some(rest) => Some(rest),
        None => skip_pair(bytes),
    }
}

/// Skips the bytes that a backslash escapes.
pub(crate) fn skip_escape<'i>(bytes: &'i [u8]) -> Option<&'i [u8]>
    ensures { MatchOption result (NoMatchAtStart IsEscape bytes.now)
        (λ rest. RestAfter IsEscape NoByte bytes.now rest.now) }
{
    let (first, more) = bytes.split_first()?;
    if *first == b'u' {
        skip_character(more)
    } else if is_escaped(*first) {
        Some(more)
    } else {
        None
    }
}

/// The same as `skip_string_tail`, of a string with escapes.
#[inline(never)]
fn skip_pieces<'i>(bytes: &'i [u8]) -> Option<&'i [u8]>
    ensures { MatchOption result (NoMatchAtStart IsStringTail bytes.now)
        (λ rest. RestAfter IsStringTail NoByte bytes.now rest.now) }
{
    let mut rest = bytes;
    'pieces: loop {
        let ahead = skip_unescaped(rest);
        match skip_byte(b'"', ahead) {
            Some(end) => return Some(end),
            None => {
                let escape = skip_byte(b'\\', ahead)?;
                rest = skip_escape(escape)?;
            }
        }
    }
}

/// Skips a string from after its first quote, and returns the remaining bytes.
#[inline(always)]
pub fn skip_string_tail<'i>(bytes: &'i [u8]) -> Option<&'i [u8]>
    ensures { MatchOption result (NoMatchAtStart IsStringTail bytes.now)
        (λ rest. RestAfter IsStringTail NoByte bytes.now rest.now) }
{
    let ahead = skip_unescaped(bytes);
    match skip_byte(b'"', ahead) {
        Some(end) => Some(end),
        None => skip_pieces(ahead),
    }
}

/// Skips a string, and returns the remaining bytes.
#[inline(always)]
pub fn skip_string<'i>(bytes: &'i [u8]) -> Option<&'i [u8]>
    ensures { MatchOption result (NoMatchAtStart IsString bytes.now)
        (λ rest. RestAfter IsString NoByte bytes.now rest.now) }
{
    let inside = skip_byte(b'"', bytes)?;
    skip_string_tail(inside)
}

/// Returns the contents of the string that the input starts with, without undoing escapes, and
/// consumes the string.
///
/// The contents are bytes of 32 and above except quote and backslash, and escapes. An escape is a
/// backslash followed by one of `"`, `\`, `/`, `b`, `f`, `n`, `r`, `t`, or by `u` and four
/// hexadecimal digits. A surrogate is accepted only in a pair, a high one and then `\u` and a low
/// one, as in `\ud83d\ude00`: an unpaired one denotes no character. Bytes of 128 and above are not
/// examined: they are UTF-8 if the whole text is.
///
/// Returns `None` if and only if the input does not start with a string; then no input is consumed.
///
/// ```
/// use format_json_extents::string::read_string;
///
/// let mut input = b"\"a\\\"b\":".as_slice();
/// assert!(rt; read_string(&mut input).is_some_and(|it| it == b"a\\\"b".as_slice()));
/// assert_eq!(rt; input, b":".as_slice());
/// assert!(rt; read_string(&mut b"\"a\\x\"".as_slice()).is_none());
/// assert!(rt; read_string(&mut b"\"\\ud800\"".as_slice()).is_none());
/// ```
pub fn read_string<'i>(input: &mut &'i [u8]) -> Option<&'i [u8]>
    ensures found { IfSome result (λ text. IsInQuotes text.now input.old.now input.new.now) }
    ensures only { (rest : List ℕ) → MatchesAtStart IsString input.old.now rest
        → rest ≡ input.new.now }
    ensures none { IfNone result (NoMatchAtStart IsString input.old.now) }
    ensures kept { IfNone result (input.new.now ≡ input.old.now) }
{
    let inside = skip_byte(b'"', *input)?;
    let rest = skip_string_tail(inside)?;
    *input = rest;
    Some(&inside[..inside.len() - rest.len() - 1])
}
