//! The first error of a text that is not JSON.

ghost use Rattle.std.specs.Prelude.{◌≡◌, ◌≤◌, ◌<◌, ◌⊎◌, ◌↔◌, IsTrue};
ghost use Rattle.format_json_extents.specs.Standard.{IsTextByStandard};
ghost use Rattle.exported.specs.Code.{done, incomplete, invalid, invalid_utf8};
ghost use Rattle.exported.specs.Code.{max_depth_too_large, no_memory, supported_depth, too_deep};
ghost use Rattle.exported.specs.JsonDiagnostic.{ShowsError, code_of, letter_of, no_error};
ghost use Rattle.exported.specs.JsonDiagnostic.{number_of_expected, shown};

use crate::code::{
    DONE, INCOMPLETE, INVALID, INVALID_UTF8, MAX_DEPTH_TOO_LARGE, NO_MEMORY, TOO_DEEP,
};
use crate::json::MAX_DEPTH;
use format_json::fault::error_of;
use format_json::{Expected, JsonError};
use format_json_extents::value;
use std::alloc::Global;
use std::str;

/// No error.
pub const JSON_ERROR_NONE: u32 = 0;

/// Expected a value.
pub const JSON_ERROR_VALUE: u32 = 1;

/// Expected a value or a closing bracket.
pub const JSON_ERROR_VALUE_OR_BRACKET: u32 = 2;

/// Expected a string as the name of a member.
pub const JSON_ERROR_NAME: u32 = 3;

/// Expected a string as the name of a member, or a closing brace.
pub const JSON_ERROR_NAME_OR_BRACE: u32 = 4;

/// Expected a colon.
pub const JSON_ERROR_COLON: u32 = 5;

/// Expected a comma or a closing bracket. After a number, the number may also continue.
pub const JSON_ERROR_COMMA_OR_BRACKET: u32 = 6;

/// Expected a comma or a closing brace. After a number, the number may also continue.
pub const JSON_ERROR_COMMA_OR_BRACE: u32 = 7;

/// Expected the end of the text. After a number, the number may also continue.
pub const JSON_ERROR_END: u32 = 8;

/// Expected a character of a string or its closing quote. A control character must be escaped.
pub const JSON_ERROR_CHARACTER: u32 = 9;

/// Expected an escape. After a backslash, it is a quote, a backslash, a slash, b, f, n, r, t, or u
/// and four hexadecimal digits.
pub const JSON_ERROR_ESCAPE: u32 = 10;

/// Expected a hexadecimal digit.
pub const JSON_ERROR_HEX_DIGIT: u32 = 11;

/// Expected the first half of a surrogate pair. The digit makes a second half without a first.
pub const JSON_ERROR_FIRST_HALF: u32 = 12;

/// Expected the second half of a surrogate pair. It is an escape from DC00 to DFFF.
pub const JSON_ERROR_SECOND_HALF: u32 = 13;

/// Expected a byte that continues a character in UTF-8.
pub const JSON_ERROR_UTF8: u32 = 14;

/// Expected a digit.
pub const JSON_ERROR_DIGIT: u32 = 15;

/// Expected a digit or a sign.
pub const JSON_ERROR_DIGIT_OR_SIGN: u32 = 16;

/// Expected a letter of null, true or false. The letter is written too.
pub const JSON_ERROR_LETTER: u32 = 17;

/// Expected no deeper array or object. As many as the depth limit allows are open.
pub const JSON_ERROR_DEPTH: u32 = 18;

/// The first error of a text, and where it is.
#[repr(C)]
#[derive(Clone, Copy, Drop)]
pub struct JsonDiagnostic {
    /// The offset of the error in bytes.
    pub offset: usize,
    /// The number of its line, from 1 on; 0 if there is no error. A line ends with a line feed.
    pub line: usize,
    /// The number of its column, from 1 on; 0 if there is no error. A column is a character.
    pub column: usize,
    /// The input that is expected there: one of the constants from `JSON_ERROR_NONE` to
    /// `JSON_ERROR_DEPTH`.
    pub error: u32,
    /// The expected letter if `error` is `JSON_ERROR_LETTER`; 0 otherwise.
    pub letter: u8,
}

/// No error.
const NO_ERROR: JsonDiagnostic = JsonDiagnostic {
    offset: 0,
    line: 0,
    column: 0,
    error: JSON_ERROR_NONE,
    letter: 0,
};

/// Returns the number of an expected input.
fn number_of_expected(expected: Expected) -> u32
    ensures { result ≡ number_of_expected expected }
{
    match expected {
        Expected::Value => JSON_ERROR_VALUE,
        Expected::ValueOrBracket => JSON_ERROR_VALUE_OR_BRACKET,
        Expected::Name => JSON_ERROR_NAME,
        Expected::NameOrBrace => JSON_ERROR_NAME_OR_BRACE,
        Expected::Colon => JSON_ERROR_COLON,
        Expected::CommaOrBracket => JSON_ERROR_COMMA_OR_BRACKET,
        Expected::CommaOrBrace => JSON_ERROR_COMMA_OR_BRACE,
        Expected::End => JSON_ERROR_END,
        Expected::Character => JSON_ERROR_CHARACTER,
        Expected::Escape => JSON_ERROR_ESCAPE,
        Expected::HexDigit => JSON_ERROR_HEX_DIGIT,
        Expected::FirstHalf => JSON_ERROR_FIRST_HALF,
        Expected::SecondHalf => JSON_ERROR_SECOND_HALF,
        Expected::Utf8 => JSON_ERROR_UTF8,
        Expected::Digit => JSON_ERROR_DIGIT,
        Expected::DigitOrSign => JSON_ERROR_DIGIT_OR_SIGN,
        Expected::Letter(_) => JSON_ERROR_LETTER,
        Expected::NoDeeper => JSON_ERROR_DEPTH,
    }
}

/// Returns the letter that is expected, or 0.
fn letter_of(expected: Expected) -> u8
    ensures { result ≡ letter_of expected }
{
    match expected {
        Expected::Letter(letter) => letter,
        _ => 0,
    }
}

/// Writes an error and its position, and returns its code.
fn write_error(error: JsonError, out: &mut JsonDiagnostic) -> u32
    ensures code { result ≡ code_of error }
    ensures shown { out.new ≡ shown error }
    ensures none { result ≡ no_memory → out.new ≡ no_error }
    ensures codes { (result ≡ invalid) ⊎ ((result ≡ incomplete) ⊎ ((result ≡ too_deep)
        ⊎ ((result ≡ invalid_utf8) ⊎ (result ≡ no_memory)))) }
{
    let (at, expected, code) = match error {
        JsonError::Unexpected { at, expected } => (at, expected, INVALID),
        JsonError::End { at, expected } => (at, expected, INCOMPLETE),
        JsonError::TooDeep { at, .. } => (at, Expected::NoDeeper, TOO_DEEP),
        JsonError::NotUtf8 { at } => (at, Expected::Utf8, INVALID_UTF8),
        JsonError::NoMemory => {
            *out = NO_ERROR;
            return NO_MEMORY;
        }
    };
    *out = JsonDiagnostic {
        offset: at.offset,
        line: at.line,
        column: at.column,
        error: number_of_expected(expected),
        letter: letter_of(expected),
    };
    code
}

/// Whether the bytes are UTF-8 and a JSON text.
fn is_text(max_depth: usize, text: &[u8]) -> bool
    ensures { IsTrue result ↔ IsTextByStandard max_depth text.now }
{
    if str::from_utf8(text).is_err() {
        return false;
    }
    value::is_text(max_depth, text)
}

/// Checks a text as `exported_json_check` does, and reports the first error: its offset, line and
/// column, and the input that is expected there.
///
/// The bytes before the offset can continue to a text. With the byte there they cannot, for any
/// continuation, unless the result is `INVALID_UTF8`. Nothing is allocated for a text that is JSON;
/// for others, one byte for each open bracket.
///
/// `DONE`: the text is a JSON text. Zeros are written.
///
/// # Errors
///
/// `INVALID`: the byte at the offset is invalid.
///
/// `INCOMPLETE`: the text ends too early. The offset is its end.
///
/// `TOO_DEEP`: the bracket at the offset is nested deeper than `max_depth`. The error is
/// `JSON_ERROR_DEPTH`.
///
/// `INVALID_UTF8`: the text is not UTF-8 from the offset on, and is valid before. The error is
/// `JSON_ERROR_UTF8`. For a text that is not UTF-8, another error with a smaller offset is reported
/// instead.
///
/// `MAX_DEPTH_TOO_LARGE`: `max_depth` is above 512. Zeros are written.
///
/// `NO_MEMORY`: zeros are written.
///
/// # Safety
///
/// `text` must be valid for reads of `text_length` bytes, which must not change during the call,
/// and `out` must be valid for writes of one diagnostic. They must not overlap. The call needs 512
/// KiB of stack.
#[unsafe(no_mangle)]
pub extern "C" fn exported_json_diagnose(
    alloc: Global,
    text: &[u8],
    max_depth: usize,
    out: &mut JsonDiagnostic,
) -> u32
    ensures standard { max_depth ≤ supported_depth
        → (result ≡ done) ↔ IsTextByStandard max_depth text.now }
    ensures error { (result ≡ done) ⊎ ((result ≡ max_depth_too_large)
        ⊎ ShowsError max_depth text.now result out.new) }
    ensures none { (result ≡ done) ⊎ ((result ≡ max_depth_too_large) ⊎ (result ≡ no_memory))
        → out.new ≡ no_error }
    ensures deep { (result ≡ max_depth_too_large) ↔ (supported_depth < max_depth) }
    ensures codes { (result ≡ done) ⊎ ((result ≡ invalid) ⊎ ((result ≡ incomplete)
        ⊎ ((result ≡ too_deep) ⊎ ((result ≡ invalid_utf8) ⊎ ((result ≡ no_memory)
        ⊎ (result ≡ max_depth_too_large)))))) }
{
    *out = NO_ERROR;
    if max_depth > MAX_DEPTH {
        return MAX_DEPTH_TOO_LARGE;
    }
    if is_text(max_depth, text) {
        return DONE;
    }
    write_error(error_of(alloc, max_depth, text), out)
}
