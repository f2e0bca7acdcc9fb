//! Values of JSON, nested to a level, as text (RFC 8259, sections 2 to 7).
ghost use Rattle.format_json_texts.specs.Values.{WordText};
ghost use Rattle.format_json_texts.specs.declared.value.Value as values;
ghost use Rattle.format_json_writer.specs.Added.{Appends, IsPrefixOf};
ghost use Rattle.format_json_writer.specs.Layout.{LaidItems, LaidMember, LaidValue};
ghost use Rattle.format_json_writer.specs.Refused.{IsRefused, IsRefusedAmong};
ghost use Rattle.format_json_writer.specs.declared.error.WriteError.TheVariants.{Memory};
ghost use Rattle.std.specs.Prelude.{◌≡◌, ◌++◌, IfErr, OnOk, string_bytes};

use crate::error::WriteError;
use crate::layout::{Layout, deeper, put_line, put_line_in, put_space};
use crate::number::write_number;
use crate::string::write_string;
use format_json_texts::value::Value;
use std::alloc::Allocator;

/// Appends a text.
fn put<B: Allocator>(text: &str, into: &mut String<B>) -> Result<(), WriteError>
    ensures written { OnOk result (string_bytes into.new ≡ string_bytes into.old ++ text.now) }
    ensures memory { IfErr result (λ e. e ≡ Memory) }
    ensures kept { IsPrefixOf (string_bytes into.old) (string_bytes into.new) }
{
    into.push_str(text)?;
    Ok(())
}

/// Appends a word: `null`, `true` or `false`.
fn write_word<B: Allocator>(word: Option<bool>, into: &mut String<B>) -> Result<(), WriteError>
    ensures written { OnOk result (Appends WordText word (string_bytes into.old)
        (string_bytes into.new)) }
    ensures memory { IfErr result (λ e. e ≡ Memory) }
    ensures kept { IsPrefixOf (string_bytes into.old) (string_bytes into.new) }
{
    match word {
        None => put("null", into),
        Some(true) => put("true", into),
        Some(false) => put("false", into),
    }
}

/// Appends values, separated by commas.
#[cycle(write)]
fn write_items<A: Allocator, B: Allocator>(
    level: usize,
    layout: Layout,
    items: &[Value<A>],
    into: &mut String<B>,
) -> Result<(), WriteError>
    ensures written { OnOk result (Appends (LaidItems layout (LaidValue layout level)) items.now
        (string_bytes into.old) (string_bytes into.new)) }
    ensures refused { IfErr result (IsRefusedAmong (λ v. v) level items.now) }
    ensures kept { IsPrefixOf (string_bytes into.old) (string_bytes into.new) }
{
    match items.split_first() {
        None => Ok(()),
        Some((first, rest)) => {
            write_nested(level, layout, first, into)?;
            for item in rest {
                into.push(',')?;
                put_line(layout, into)?;
                write_nested(level, layout, item, into)?;
            }
            Ok(())
        }
    }
}

/// Appends an array.
#[cycle(write)]
fn write_array<A: Allocator, B: Allocator>(
    level: usize,
    layout: Layout,
    items: &Vec<Value<A>, A>,
    into: &mut String<B>,
) -> Result<(), WriteError>
    ensures written { OnOk result (Appends (LaidValue layout level) (values.Array items.now)
        (string_bytes into.old) (string_bytes into.new)) }
    ensures refused { IfErr result (IsRefused level (values.Array items.now)) }
    ensures kept { IsPrefixOf (string_bytes into.old) (string_bytes into.new) }
{
    if level == 0 {
        return Err(WriteError::Level);
    }
    let inner = deeper(layout)?;
    let list = items.as_slice();
    into.push('[')?;
    put_line_in(list, inner, into)?;
    write_items(level - 1, inner, list, into)?;
    put_line_in(list, layout, into)?;
    into.push(']')?;
    Ok(())
}

/// Appends a name, a colon and a value.
#[cycle(write)]
fn write_member<A: Allocator, B: Allocator>(
    level: usize,
    layout: Layout,
    member: &(String<A>, Value<A>),
    into: &mut String<B>,
) -> Result<(), WriteError>
    ensures written { OnOk result (Appends (LaidMember layout (LaidValue layout level)) member.now
        (string_bytes into.old) (string_bytes into.new)) }
    ensures refused { IfErr result (IsRefused level member.now.1) }
    ensures kept { IsPrefixOf (string_bytes into.old) (string_bytes into.new) }
{
    let (name, value) = member;
    write_string(name.as_str(), into)?;
    into.push(':')?;
    put_space(layout, into)?;
    write_nested(level, layout, value, into)
}

/// Appends members, separated by commas.
#[cycle(write)]
fn write_members<A: Allocator, B: Allocator>(
    level: usize,
    layout: Layout,
    members: &[(String<A>, Value<A>)],
    into: &mut String<B>,
) -> Result<(), WriteError>
    ensures written { OnOk result (Appends (LaidItems layout (LaidMember layout
        (LaidValue layout level))) members.now (string_bytes into.old) (string_bytes into.new)) }
    ensures refused { IfErr result (IsRefusedAmong (λ m. m.1) level members.now) }
    ensures kept { IsPrefixOf (string_bytes into.old) (string_bytes into.new) }
{
    match members.split_first() {
        None => Ok(()),
        Some((first, rest)) => {
            write_member(level, layout, first, into)?;
            for member in rest {
                into.push(',')?;
                put_line(layout, into)?;
                write_member(level, layout, member, into)?;
            }
            Ok(())
        }
    }
}

/// Appends an object.
#[cycle(write)]
fn write_object<A: Allocator, B: Allocator>(
    level: usize,
    layout: Layout,
    members: &Vec<(String<A>, Value<A>), A>,
    into: &mut String<B>,
) -> Result<(), WriteError>
    ensures written { OnOk result (Appends (LaidValue layout level) (values.Object members.now)
        (string_bytes into.old) (string_bytes into.new)) }
    ensures refused { IfErr result (IsRefused level (values.Object members.now)) }
    ensures kept { IsPrefixOf (string_bytes into.old) (string_bytes into.new) }
{
    if level == 0 {
        return Err(WriteError::Level);
    }
    let inner = deeper(layout)?;
    let list = members.as_slice();
    into.push('{')?;
    put_line_in(list, inner, into)?;
    write_members(level - 1, inner, list, into)?;
    put_line_in(list, layout, into)?;
    into.push('}')?;
    Ok(())
}

/// Appends a value.
#[cycle(write)]
pub fn write_nested<A: Allocator, B: Allocator>(
    level: usize,
    layout: Layout,
    value: &Value<A>,
    into: &mut String<B>,
) -> Result<(), WriteError>
    ensures written { OnOk result
        (Appends (LaidValue layout level) value.now (string_bytes into.old)
        (string_bytes into.new)) }
    ensures refused { IfErr result (IsRefused level value.now) }
    ensures kept { IsPrefixOf (string_bytes into.old) (string_bytes into.new) }
{
    match value {
        Value::Null => write_word(None, into),
        Value::Boolean(is) => write_word(Some(*is), into),
        Value::Number(text) => write_number(text.as_str(), into),
        Value::Text(text) => {
            write_string(text.as_str(), into)?;
            Ok(())
        }
        Value::Array(items) => write_array(level, layout, items, into),
        Value::Object(members) => write_object(level, layout, members, into),
    }
}
