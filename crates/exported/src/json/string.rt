//! Strings of JSON with their escapes undone.

ghost use Rattle.std.specs.Prelude.{◌≡◌, ◌<◌, ◌⊎◌, length};
ghost use Rattle.format_json_extents.specs.Strings.{IsString};
ghost use Rattle.format_json_extents.specs.Texts.{NoMatchAtStart};
ghost use Rattle.exported.specs.Code.{buffer_too_small, done, invalid};
ghost use Rattle.exported.specs.JsonString.{IsWritten, ShowsText, no_text};

use crate::code::{BUFFER_TOO_SMALL, DONE, INVALID};
use format_json_extents::unescape;

/// The text of a string of JSON.
#[repr(C)]
#[derive(Clone, Copy, Drop)]
pub struct JsonText {
    /// How many bytes it has, its escapes undone.
    pub text: usize,
    /// How many bytes of the caller's the string has, with its quotes.
    pub length: usize,
}

/// The text of nothing.
const NO_TEXT_FOUND: JsonText = JsonText { text: 0, length: 0 };

/// Decodes the JSON string (RFC 8259) at the start of `bytes`, without its quotes and with its
/// escapes decoded: `"r\u006fle"` has the text `role`. Whitespace before the string is not skipped.
///
/// `\b`, `\f`, `\n`, `\r` and `\t` are a backspace, a form feed, a line feed, a carriage return and
/// a tab. `\"`, `\\` and `\/` are the character after the backslash. `\u` with four digits is the
/// UTF-8 of a character; two surrogates are one character. An escape is longer than its text, so if
/// the text is two bytes shorter than the string, the string has no escape, and its text is between
/// the quotes. Bytes of 128 and above are not checked: the text is UTF-8 if the bytes are. The text
/// may contain zeros, from `\u0000`.
///
/// `DONE`: the text is written into `buffer`, and its length and that of the string into `out`. The
/// other bytes of the buffer are unchanged.
///
/// # Errors
///
/// `BUFFER_TOO_SMALL`: the buffer has fewer bytes than the text. Both lengths are written. A string
/// has at least as many bytes as its text, so a buffer as long as the string is always large
/// enough.
///
/// `INVALID`: `bytes` does not start with a string. A string with an unpaired surrogate escape is
/// also rejected. Zeros are written into `out`.
///
/// After an error the contents of the buffer are unspecified.
///
/// # Safety
///
/// `bytes` must be valid for reads of `bytes_length` bytes, which must not change during the call.
/// `buffer` must be valid for writes of `buffer_length` bytes, and `out` for writes of two lengths.
/// None of these may overlap. The call needs 16 KiB of stack.
#[unsafe(no_mangle)]
pub extern "C" fn exported_json_string(bytes: &[u8], buffer: &mut [u8], out: &mut JsonText) -> u32
    ensures text { result ≡ done → IsWritten bytes.now out.new buffer.old buffer.new }
    ensures small { result ≡ buffer_too_small
        → ShowsText bytes.now out.new × (length buffer.old < out.new.text) }
    ensures refused { result ≡ invalid → NoMatchAtStart IsString bytes.now }
    ensures none { result ≡ invalid → out.new ≡ no_text }
    ensures codes { (result ≡ done) ⊎ ((result ≡ buffer_too_small) ⊎ (result ≡ invalid)) }
{
    *out = NO_TEXT_FOUND;
    let mut left = bytes;
    match unescape::write_string(&mut left, buffer) {
        Some(text) => {
            *out = JsonText {
                text,
                length: bytes.len() - left.len(),
            };
            if text <= buffer.len() {
                DONE
            } else {
                BUFFER_TOO_SMALL
            }
        }
        None => INVALID,
    }
}
