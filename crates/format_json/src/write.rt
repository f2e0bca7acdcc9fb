//! Values as text.
ghost use Rattle.format_json.specs.Fault.{write_fault};
ghost use Rattle.format_json.specs.declared.fault.JsonWriteError.TheVariants.{NoMemory};
ghost use Rattle.format_json_texts.specs.Values.{ValueText};
ghost use Rattle.format_json_writer.specs.Layout.{CompactValue, LaidValue};
ghost use Rattle.format_json_writer.specs.Refused.{HasNoText, IsRefused};
ghost use Rattle.format_json_writer.specs.declared.error.WriteError.{WriteError};
ghost use Rattle.format_json_writer.specs.declared.layout.Layout.TheVariants.{Lines};
ghost use Rattle.std.specs.Prelude.{◌≡◌, ◌⊎◌, IfErr, IfOk, string_bytes};
ghost use Rattle.std.specs.Str.{chars};
ghost use Rattle.stream_sets.specs.Accumulator.Holds.{HasCharacters};

use crate::fault::JsonWriteError;
use format_json_texts::value::Value;
use format_json_writer::layout::Layout;
use format_json_writer::value as writer;
use std::alloc::Allocator;

/// Writes a value whose arrays and objects are nested at most `level` deep, without whitespace. The
/// text is parsed as the same value, at the same level.
///
/// Fails if the text of a number in it is not a JSON number, if the value is nested deeper than
/// `level`, or if memory allocation fails. Each level uses some of the stack, as in
/// [`from_text`](crate::from_text).
///
/// ```
/// use format_json::{from_text, to_text};
///
/// let Ok(value) = from_text(alloc, 2, " { \"a\" : [ 1.50 , null ] } ") else {
///     return;
/// };
/// let text = to_text(alloc, 2, &value);
/// assert!(rt; matches!(text, Ok(text) if text.as_str() == "{\"a\":[1.50,null]}"));
/// ```
pub fn to_text<A: Allocator, B: Allocator>(
    alloc: B,
    level: usize,
    value: &Value<A>,
) -> Result<String<B>, JsonWriteError>
    ensures written { IfOk result (λ text. CompactValue level value.now
        (chars (string_bytes text))) }
    ensures text { IfOk result (λ text. ValueText HasCharacters level value.now
        (chars (string_bytes text))) }
    ensures none { IfErr result (λ e. (e ≡ NoMemory) ⊎ HasNoText level value.now) }
    ensures refused { IfErr result (λ e. (w : WriteError) × (e ≡ write_fault w)
        × IsRefused level value.now w) }
{
    match writer::to_text(alloc, level, value) {
        Ok(text) => Ok(text),
        Err(error) => Err(JsonWriteError::of(error)),
    }
}

/// Like [`to_text`], over several lines: each element and each member is on its own line, indented
/// by `indent` spaces for each array and object around it. A space follows each colon. An empty
/// array or object is `[]` or `{}`. The text is parsed as the same value, at the same level. Errors
/// are those of [`to_text`].
///
/// ```
/// use format_json::{from_text, to_text_pretty};
///
/// let Ok(value) = from_text(alloc, 2, "{\"a\":[1,null],\"b\":{}}") else {
///     return;
/// };
/// let text = to_text_pretty(alloc, 2, 4, &value);
/// let lines = "{\n    \"a\": [\n        1,\n        null\n    ],\n    \"b\": {}\n}";
/// assert!(rt; matches!(text, Ok(text) if text.as_str() == lines));
/// ```
pub fn to_text_pretty<A: Allocator, B: Allocator>(
    alloc: B,
    level: usize,
    indent: usize,
    value: &Value<A>,
) -> Result<String<B>, JsonWriteError>
    ensures written { IfOk result (λ text. LaidValue (Lines 0 indent) level value.now
        (chars (string_bytes text))) }
    ensures text { IfOk result (λ text. ValueText HasCharacters level value.now
        (chars (string_bytes text))) }
    ensures none { IfErr result (λ e. (e ≡ NoMemory) ⊎ HasNoText level value.now) }
    ensures refused { IfErr result (λ e. (w : WriteError) × (e ≡ write_fault w)
        × IsRefused level value.now w) }
{
    let layout = Layout::Lines {
        now: 0,
        step: indent,
    };
    match writer::to_text_with(alloc, level, layout, value) {
        Ok(text) => Ok(text),
        Err(error) => Err(JsonWriteError::of(error)),
    }
}
