//! Values of JSON as text (RFC 8259, sections 2 to 7).
ghost use Rattle.format_json_texts.specs.Values.{ValueText};
ghost use Rattle.format_json_writer.specs.Added.{Appends, IsPrefixOf};
ghost use Rattle.format_json_writer.specs.Alike.{AreAlike};
ghost use Rattle.format_json_writer.specs.Layout.{CompactValue, LaidValue};
ghost use Rattle.format_json_writer.specs.Refused.{HasNoText, IsRefused};
ghost use Rattle.format_json_writer.specs.declared.error.WriteError.TheVariants.{Memory};
ghost use Rattle.std.specs.Prelude.{◌≡◌, ◌⊎◌, IfErr, IfOk, OnOk, string_bytes};
ghost use Rattle.std.specs.Str.{chars};
ghost use Rattle.stream_sets.specs.Accumulator.Holds.{HasCharacters};

use crate::error::WriteError;
use crate::layout::Layout;
use crate::nested::write_nested;
use format_json_texts::value::Value;
use format_json_values::value::parse_value;
use format_parts::faults::is_out_of_memory;
use std::alloc::Allocator;

/// Appends a value whose arrays and objects are nested at most `level` deep. The level is 0 for a
/// value that is not an array or an object, and 1 for an array of such values.
///
/// The text has no whitespace. A string is written as by
/// [`write_string`](crate::string::write_string), a number as it is in the value, and the members
/// of an object in their order, including those with the same name. So
/// [`parse_value`](format_json_values::value::parse_value) parses the value again, at the same
/// level.
///
/// Fails if the text of a number is not one of RFC 8259 (section 6), such as `01` or `NaN`; if the
/// value is nested deeper than `level`; or if memory allocation fails. If several of these apply,
/// it may be any of them. After an error the previous contents of `into` remain, and more may
/// follow them.
///
/// ```
/// use format_json_values::value::parse_value;
/// use format_json_writer::value::write_value;
///
/// let Ok(value) = parse_value(alloc, 2, " { \"a\" : [ 1.50 , null ] } ") else {
///     return;
/// };
/// let mut into = String::from_str(alloc, "x=").unwrap();
/// assert!(rt; write_value(2, &value, &mut into).is_ok());
/// assert_eq!(rt; into.as_str(), "x={\"a\":[1.50,null]}");
/// assert!(rt; write_value(1, &value, &mut into).is_err());
/// ```
pub fn write_value<A: Allocator, B: Allocator>(
    level: usize,
    value: &Value<A>,
    into: &mut String<B>,
) -> Result<(), WriteError>
    ensures written { OnOk result (Appends (CompactValue level) value.now (string_bytes into.old)
        (string_bytes into.new)) }
    ensures text { OnOk result (Appends (ValueText HasCharacters level) value.now
        (string_bytes into.old) (string_bytes into.new)) }
    ensures refused { IfErr result (IsRefused level value.now) }
    ensures none { IfErr result (λ e. (e ≡ Memory) ⊎ HasNoText level value.now) }
    ensures kept { IsPrefixOf (string_bytes into.old) (string_bytes into.new) }
{
    write_value_with(level, Layout::Compact, value, into)
}

/// Like [`write_value`], with the whitespace of `layout`. Indentation of more spaces than `usize`
/// can count is out of memory.
///
/// ```
/// use format_json_values::value::parse_value;
/// use format_json_writer::layout::Layout;
/// use format_json_writer::value::write_value_with;
///
/// let Ok(value) = parse_value(alloc, 2, "{\"a\":[1.50,null],\"b\":[]}") else {
///     return;
/// };
/// let mut into = String::from_str(alloc, "x = ").unwrap();
/// let lines = Layout::Lines { now: 0, step: 2 };
/// assert!(rt; write_value_with(2, lines, &value, &mut into).is_ok());
/// let written = "x = {\n  \"a\": [\n    1.50,\n    null\n  ],\n  \"b\": []\n}";
/// assert_eq!(rt; into.as_str(), written);
/// ```
pub fn write_value_with<A: Allocator, B: Allocator>(
    level: usize,
    layout: Layout,
    value: &Value<A>,
    into: &mut String<B>,
) -> Result<(), WriteError>
    ensures written { OnOk result
        (Appends (LaidValue layout level) value.now (string_bytes into.old)
        (string_bytes into.new)) }
    ensures text { OnOk result (Appends (ValueText HasCharacters level) value.now
        (string_bytes into.old) (string_bytes into.new)) }
    ensures refused { IfErr result (IsRefused level value.now) }
    ensures none { IfErr result (λ e. (e ≡ Memory) ⊎ HasNoText level value.now) }
    ensures kept { IsPrefixOf (string_bytes into.old) (string_bytes into.new) }
{
    write_nested(level, layout, value, into)
}

/// Returns the text of a value whose arrays and objects are nested at most `level` deep, as
/// [`write_value`] writes it. Errors are those of [`write_value`].
///
/// ```
/// use format_json_texts::value::Value;
/// use format_json_writer::error::WriteError;
/// use format_json_writer::value::to_text;
/// use std::alloc::Global;
///
/// let mut items = Vec::new(alloc);
/// assert!(rt; items.push(Value::Number(String::from_str(alloc, "1").unwrap())).is_ok());
/// assert!(rt; items.push(Value::Text(String::from_str(alloc, "\n").unwrap())).is_ok());
/// let value = Value::Array(items);
/// assert!(rt; matches!(to_text(alloc, 1, &value), Ok(text) if text.as_str() == "[1,\"\\n\"]"));
/// let none: Value<Global> = Value::Number(String::from_str(alloc, "01").unwrap());
/// assert!(rt; matches!(to_text(alloc, 1, &none), Err(WriteError::Number)));
/// ```
pub fn to_text<A: Allocator, B: Allocator>(
    alloc: B,
    level: usize,
    value: &Value<A>,
) -> Result<String<B>, WriteError>
    ensures written { IfOk result (λ text. CompactValue level value.now
        (chars (string_bytes text))) }
    ensures text { IfOk result (λ text. ValueText HasCharacters level value.now
        (chars (string_bytes text))) }
    ensures refused { IfErr result (IsRefused level value.now) }
    ensures none { IfErr result (λ e. (e ≡ Memory) ⊎ HasNoText level value.now) }
{
    to_text_with(alloc, level, Layout::Compact, value)
}

/// Like [`to_text`], with the whitespace of `layout`, as [`write_value_with`] writes it.
///
/// ```
/// use format_json_values::value::parse_value;
/// use format_json_writer::layout::Layout;
/// use format_json_writer::value::to_text_with;
///
/// let Ok(value) = parse_value(alloc, 1, "[1,{}]") else {
///     return;
/// };
/// let text = to_text_with(alloc, 2, Layout::Lines { now: 0, step: 4 }, &value);
/// assert!(rt; matches!(text, Ok(text) if text.as_str() == "[\n    1,\n    {}\n]"));
/// ```
pub fn to_text_with<A: Allocator, B: Allocator>(
    alloc: B,
    level: usize,
    layout: Layout,
    value: &Value<A>,
) -> Result<String<B>, WriteError>
    ensures written { IfOk result (λ text. LaidValue layout level value.now
        (chars (string_bytes text))) }
    ensures text { IfOk result (λ text. ValueText HasCharacters level value.now
        (chars (string_bytes text))) }
    ensures refused { IfErr result (IsRefused level value.now) }
    ensures none { IfErr result (λ e. (e ≡ Memory) ⊎ HasNoText level value.now) }
{
    let mut text = String::new(alloc);
    write_value_with(level, layout, value, &mut text)?;
    let _written = text.as_str();
    Ok(text)
}

/// Writes a value and parses its text. Returns an equivalent value: its words, numbers, strings,
/// lists and names are the same, in the same order. Fails with the error of writing, or with out of
/// memory in parsing; there is no other error.
///
/// ```
/// use format_json_values::value::parse_value;
/// use format_json_writer::value::{reads_back, to_text};
///
/// let Ok(value) = parse_value(alloc, 2, "{\"a\": [1.50]}") else {
///     return;
/// };
/// let Ok(again) = reads_back(alloc, 2, &value) else {
///     return;
/// };
/// assert!(rt; matches!(to_text(alloc, 2, &again), Ok(text) if text.as_str() == "{\"a\":[1.50]}"));
/// ```
pub fn reads_back<A: Allocator + Copy>(
    alloc: A,
    level: usize,
    value: &Value<A>,
) -> Result<Value<A>, WriteError>
    ensures alike { IfOk result (λ read. AreAlike level value.now read) }
    ensures refused { IfErr result (IsRefused level value.now) }
{
    let text = to_text(alloc, level, value)?;
    match parse_value(alloc, level, text.as_str()) {
        Ok(read) => Ok(read),
        Err(fault) => {
            if is_out_of_memory(&fault) {
                return Err(WriteError::Memory);
            }
            unreachable!()
        }
    }
}
