//! Writing strings of JSON.

ghost use Rattle.std.specs.Prelude.{◌≡◌, ◌<◌, ◌⊎◌, ◌∷◌, ◌++◌, [], List, ℕ};
ghost use Rattle.format_json_extents.specs.Unescaped.{Means};
ghost use Rattle.exported.specs.Code.{buffer_too_small, done};
ghost use Rattle.exported.specs.JsonWrite.{byte_text, content_of, digit_of, four_digits, letter_of};
ghost use Rattle.exported.specs.JsonWrite.{string_of};
ghost use Rattle.exported.specs.Output.{Fills, IsTooLong, Puts};

use crate::code::{BUFFER_TOO_SMALL, DONE};
use crate::output::{put_byte, put_bytes};

/// Returns what denotes a byte after a backslash, if it must be escaped; otherwise 0.
#[inline]
fn letter_of(byte: u8) -> u8
    ensures { result ≡ letter_of byte }
{
    match byte {
        b'"' => b'"',
        b'\\' => b'\\',
        8 => b'b',
        12 => b'f',
        10 => b'n',
        13 => b'r',
        9 => b't',
        _ => 0,
    }
}

/// Returns the hexadecimal digit of a value.
fn digit_of(value: u8) -> u8
    requires { value < 16 }
    ensures { result ≡ digit_of value }
{
    if value < 10 { 48 + value } else { 87 + value }
}

/// Writes the escape of a byte with four digits.
fn put_digits(byte: u8, at: usize, buffer: &mut [u8]) -> usize
    requires { byte < 32 }
    ensures { Puts (four_digits byte) at buffer.old result buffer.new }
{
    let end = put_bytes(b"\\u00", at, buffer);
    let end = put_byte(digit_of(byte / 16), end, buffer);
    put_byte(digit_of(byte % 16), end, buffer)
}

/// Writes a byte of a string.
#[inline]
fn put_escaped(byte: u8, at: usize, buffer: &mut [u8]) -> usize
    ensures { Puts (byte_text byte) at buffer.old result buffer.new }
{
    let letter = letter_of(byte);
    if letter != 0 {
        let end = put_byte(b'\\', at, buffer);
        return put_byte(letter, end, buffer);
    }
    if byte < 32 {
        put_digits(byte, at, buffer)
    } else {
        put_byte(byte, at, buffer)
    }
}

/// Writes a string, as far as there is room, and returns its length.
fn put_string(bytes: &[u8], buffer: &mut [u8]) -> usize
    ensures { Puts (string_of bytes.now) 0 buffer.old result buffer.new }
{
    let mut end = put_byte(b'"', 0, buffer);
    for place in 0..bytes.len() {
        end = put_escaped(bytes[place], end, buffer);
    }
    put_byte(b'"', end, buffer)
}

/// The content of a string that [`exported_json_write_string`] writes, between its quotes, denotes
/// the bytes: so [`exported_json_string`](crate::json::string::exported_json_string) reads them
/// from it.
pub fn strings_read_back()
    ensures { (bytes : List ℕ) → Means (content_of bytes) bytes }
{}

/// Writes bytes as a JSON string (RFC 8259), in quotes. A quote, a backslash and the bytes below 32
/// are escaped as in RFC 8785, section 3.2.2.2: by `\"`, `\\`, `\b`, `\f`, `\n`, `\r`, `\t`, or
/// `\u00` and two digits with small letters. All other bytes are unchanged.
///
/// The string is JSON if the bytes are UTF-8, which is not checked. It has at most six bytes for
/// each byte, and two more. `exported_json_string` reads the same bytes from it, whatever follows.
///
/// `DONE`: the string is written at the start of `buffer`, and its length into `out`. The other
/// bytes of the buffer are unchanged.
///
/// The function does not allocate. It scans the bytes twice, so that it writes nothing if the
/// buffer is too small.
///
/// # Errors
///
/// `BUFFER_TOO_SMALL`: the string is longer than the buffer. Its length is written, and the buffer
/// is unchanged.
///
/// # Safety
///
/// `bytes` must be valid for reads of `bytes_length` bytes, which must not change during the call.
/// `buffer` must be valid for writes of `buffer_length` bytes, and `out` for writes of one length.
/// None of these may overlap. The call needs 16 KiB of stack.
#[unsafe(no_mangle)]
pub extern "C" fn exported_json_write_string(
    bytes: &[u8],
    buffer: &mut [u8],
    out: &mut usize,
) -> u32
    ensures string { result ≡ done → Fills (string_of bytes.now) buffer.old buffer.new out.new }
    ensures small { result ≡ buffer_too_small
        → IsTooLong (string_of bytes.now) buffer.old out.new }
    ensures kept { (result ≡ done → ⊥) → buffer.new ≡ buffer.old }
    ensures codes { (result ≡ done) ⊎ (result ≡ buffer_too_small) }
{
    let size = put_string(bytes, &mut []);
    *out = size;
    if size > buffer.len() {
        return BUFFER_TOO_SMALL;
    }
    put_string(bytes, buffer);
    DONE
}
