//! Values from text and from bytes.
ghost use Rattle.format_json.specs.Fault.{IsErrorOf};
ghost use Rattle.format_json.specs.declared.fault.JsonError.TheVariants.{NoMemory};
ghost use Rattle.format_json_pieces.specs.Value.{InUtf8};
ghost use Rattle.format_json_texts.specs.Values.{JsonText};
ghost use Rattle.std.specs.Prelude.{◌≡◌, ◌⊎◌, IfErr, IfOk};
ghost use Rattle.std.specs.Str.{chars};
ghost use Rattle.stream_sets.specs.Accumulator.Holds.{HasCharacters};

use crate::fault::{JsonError, error_of, fault_of_text};
use format_json_pieces::value::parse_value_of_bytes;
use format_json_texts::value::Value;
use format_json_values::value::parse_value;
use format_parts::faults::is_out_of_memory;
use std::alloc::Allocator;

/// Parses a JSON text: a value with whitespace around it, whose arrays and objects are nested at
/// most `level` deep. Each level uses some of the stack: up to [`SAFE_DEPTH`](crate::SAFE_DEPTH)
/// two megabytes suffice.
///
/// If the text is invalid, the [`JsonError`] gives an offset with whose byte no JSON text
/// continues, and the input that is expected there. Otherwise the text ends too early, is nested
/// too deeply, or memory allocation failed. A second pass over the text finds the offset.
///
/// ```
/// use format_json::{Expected, JsonError, from_text};
///
/// let value = from_text(alloc, 1, " [1, true] ");
/// assert!(rt; matches!(value, Ok(value) if value.elements().len() == 2));
/// let fault = from_text(alloc, 1, "[1, true,]");
/// assert!(rt; matches!(fault, Err(JsonError::Unexpected { at, expected: Expected::Value })
///     if at.offset == 9 && at.column == 10));
/// ```
pub fn from_text<A: Allocator + Copy>(
    alloc: A,
    level: usize,
    text: &str,
) -> Result<Value<A>, JsonError>
    ensures value { IfOk result (λ v. JsonText HasCharacters level v (chars text.now)) }
    ensures none { IfErr result (λ fault. (fault ≡ NoMemory)
        ⊎ ((v : Value A) → JsonText HasCharacters level v (chars text.now) → ⊥)) }
    ensures place { IfErr result (IsErrorOf level text.now) }
{
    match parse_value(alloc, level, text) {
        Ok(value) => Ok(value),
        Err(fault) => {
            if is_out_of_memory(&fault) {
                Err(JsonError::NoMemory)
            } else {
                Err(fault_of_text(alloc, level, text.as_bytes()))
            }
        }
    }
}

/// Like [`from_text`], for bytes, which must be UTF-8. If they are not UTF-8, and no other error
/// has a smaller offset, the [`JsonError`] reports it.
///
/// ```
/// use format_json::{JsonError, from_bytes};
///
/// let value = from_bytes(alloc, 0, b"12");
/// assert!(rt; matches!(value, Ok(value) if value.as_u64() == Some(12)));
/// let fault = from_bytes(alloc, 0, b"\"ab\xff\"");
/// assert!(rt; matches!(fault, Err(JsonError::NotUtf8 { at }) if at.offset == 3));
/// ```
pub fn from_bytes<A: Allocator + Copy>(
    alloc: A,
    level: usize,
    bytes: &[u8],
) -> Result<Value<A>, JsonError>
    ensures value { IfOk result (λ v. InUtf8 (JsonText HasCharacters level) v bytes.now) }
    ensures none { IfErr result (λ fault. (fault ≡ NoMemory)
        ⊎ ((v : Value A) → InUtf8 (JsonText HasCharacters level) v bytes.now → ⊥)) }
    ensures place { IfErr result (IsErrorOf level bytes.now) }
{
    match parse_value_of_bytes(alloc, level, bytes) {
        Ok(value) => Ok(value),
        Err(fault) => {
            if is_out_of_memory(&fault) {
                Err(JsonError::NoMemory)
            } else {
                Err(error_of(alloc, level, bytes))
            }
        }
    }
}
