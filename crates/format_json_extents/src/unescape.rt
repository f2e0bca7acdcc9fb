//! Strings of JSON with their escapes undone (RFC 8259, section 7), in a buffer of the caller's.

ghost use Rattle.std.specs.Prelude.{◌≡◌, ◌≤◌, ◌<◌, ◌+◌, ◌^◌, ◌∷◌, [], IfNone, IfSome};
ghost use Rattle.std.specs.Prelude.{MatchOption, length};
ghost use Rattle.std.specs.Char.{IsScalar, encode_utf8};
ghost use Rattle.format_json_extents.specs.Strings.{IsEscape, IsEscaped, IsHexDigit, IsString};
ghost use Rattle.format_json_extents.specs.Strings.{IsStringTail};
ghost use Rattle.format_json_extents.specs.Texts.{NoMatchAtStart};
ghost use Rattle.format_json_extents.specs.Unescaped.{IsEscapePut, IsPut, IsStringWritten};
ghost use Rattle.format_json_extents.specs.Unescaped.{IsTailWritten};
ghost use Rattle.format_json_texts.specs.Strings.{EscapeText, StandsFor};
ghost use Rattle.format_parts.specs.Hexadecimal.{IsHex, UnitText};

use crate::string::skip_escape;
use crate::tokens::{skip_byte, skip_unescaped};

/// The character that a backslash and this byte stand for.
fn letter(byte: u8) -> char
    requires { IsEscaped byte }
    ensures { StandsFor byte result }
{
    match byte {
        b'b' => '\u{8}',
        b'f' => '\u{c}',
        b'n' => '\n',
        b'r' => '\r',
        b't' => '\t',
        itself => itself as char,
    }
}

/// The value of a hexadecimal digit.
fn hex_value(digit: u8) -> u32
    requires { IsHexDigit digit }
    ensures { IsHex digit result }
{
    if digit <= b'9' {
        u32::from(digit) - 48
    } else if digit <= b'F' {
        u32::from(digit) - 55
    } else {
        u32::from(digit) - 87
    }
}

/// The number that four hexadecimal digits are.
fn unit_of(first: u8, second: u8, third: u8, fourth: u8) -> u32
    requires first { IsHexDigit first }
    requires second { IsHexDigit second }
    requires third { IsHexDigit third }
    requires fourth { IsHexDigit fourth }
    ensures { UnitText result (first ∷ second ∷ third ∷ fourth ∷ []) }
{
    let first = hex_value(first);
    let second = hex_value(second);
    let third = hex_value(third);
    let fourth = hex_value(fourth);
    first * 4096 + second * 256 + third * 16 + fourth
}

/// Returns the character of a number that is not a surrogate.
fn scalar(number: u32) -> char
    requires { IsScalar number }
    ensures { result ≡ number }
{
    match char::from_u32(number) {
        Some(c) => c,
        None => '\0',
    }
}

/// The character that a backslash and these bytes are the text of.
pub(crate) fn character(escape: &[u8]) -> char
    requires { IsEscape escape.now }
    ensures text { EscapeText result (92 ∷ escape.now) }
    ensures short { length (encode_utf8 result) ≤ length escape.now }
{
    match escape {
        [byte] => letter(*byte),
        [_, a, b, c, d] => scalar(unit_of(*a, *b, *c, *d)),
        [_, a, b, c, d, _, _, e, f, g, h] => {
            let high = unit_of(*a, *b, *c, *d);
            let low = unit_of(*e, *f, *g, *h);
            scalar(0x1_0000 + (high - 0xD800) * 1024 + (low - 0xDC00))
        }
        _ => '\0',
    }
}

/// Writes bytes at offset `at` of the buffer, if they fit.
#[inline(always)]
fn put(bytes: &[u8], at: usize, buffer: &mut [u8])
    ensures { IsPut bytes.now at buffer.old buffer.new }
{
    if at <= buffer.len() && bytes.len() <= buffer.len() - at {
        let (_, behind) = buffer.split_at_mut(at);
        let (here, _) = behind.split_at_mut(bytes.len());
        here.copy_from_slice(bytes);
    }
}

/// Writes the character of an escape at offset `at` of the buffer, if it fits, and returns the
/// offset after it.
#[inline(never)]
fn put_escape(escape: &[u8], at: usize, buffer: &mut [u8]) -> usize
    requires escape { IsEscape escape.now }
    requires place { at + length escape.now < 2 ^ 63 }
    ensures { IsEscapePut escape.now at result buffer.old buffer.new }
{
    let mut bytes = [0; 4];
    let text = character(escape).encode_utf8(&mut bytes).as_bytes();
    put(text, at, buffer);
    at + text.len()
}

/// Writes the contents of a string from after its first quote; returns their length in bytes, and
/// the bytes after the last quote.
fn write_tail<'i>(bytes: &'i [u8], buffer: &mut [u8]) -> Option<(usize, &'i [u8])>
    ensures { MatchOption result (NoMatchAtStart IsStringTail bytes.now)
        (λ r. IsTailWritten r.0 bytes.now r.1.now buffer.old buffer.new) }
{
    let mut rest = bytes;
    let mut count = 0;
    'pieces: loop {
        let ahead = skip_unescaped(rest);
        let plain = &rest[..rest.len() - ahead.len()];
        put(plain, count, buffer);
        count += plain.len();
        match skip_byte(b'"', ahead) {
            Some(end) => return Some((count, end)),
            None => {
                let escape = skip_byte(b'\\', ahead)?;
                rest = skip_escape(escape)?;
                count = put_escape(&escape[..escape.len() - rest.len()], count, buffer);
            }
        }
    }
}

/// Writes the contents of the string that the input starts with into the buffer, without quotes and
/// with escapes undone. Returns their length in bytes, and consumes the string. If the contents are
/// longer than the buffer, they are not written completely, and the contents of the buffer are
/// unspecified.
///
/// `\b`, `\f`, `\n`, `\r`, `\t` denote a backspace, a form feed, a line feed, a carriage return and
/// a tab; `\"`, `\\` and `\/` denote the character after the backslash. `\u` and four digits denote
/// the UTF-8 of a character; two surrogates denote one. So if the result equals the number of bytes
/// between the quotes, there are no escapes. Bytes of 128 and above denote themselves.
///
/// Returns `None` if and only if the input does not start with a string, as in
/// [`crate::string::read_string`]. Then no input is consumed, and the contents of the buffer are
/// unspecified.
///
/// ```
/// use format_json_extents::unescape::write_string;
///
/// let mut input = b"\"r\\u006fle\": 1".as_slice();
/// let mut buffer = [0; 8];
/// assert_eq!(rt; write_string(&mut input, &mut buffer), Some(4));
/// assert_eq!(rt; &buffer[..4], b"role".as_slice());
/// assert_eq!(rt; input, b": 1".as_slice());
/// assert_eq!(rt; write_string(&mut b"\"\\ud800\"".as_slice(), &mut buffer), None);
/// ```
pub fn write_string<'i>(input: &mut &'i [u8], buffer: &mut [u8]) -> Option<usize>
    ensures written { IfSome result (λ count.
        IsStringWritten count input.old.now input.new.now buffer.old buffer.new) }
    ensures none { IfNone result (NoMatchAtStart IsString input.old.now) }
    ensures kept { IfNone result (input.new.now ≡ input.old.now) }
{
    let inside = skip_byte(b'"', *input)?;
    let (count, rest) = write_tail(inside, buffer)?;
    *input = rest;
    Some(count)
}
