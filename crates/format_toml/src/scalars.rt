//! Values that have no others in them (TOML 1.0: String, Integer, Float, Boolean).

ghost use Rattle.std.specs.Str.{chars};
ghost use Rattle.streams.specs.Text.{text_input, text_reading};
ghost use Rattle.format_toml.specs.Grammars.{AnyBasic, AnyBoolean, AnyLiteral, Scalar};
ghost use Rattle.format_toml.specs.Toml.{IsText};
ghost use Rattle.winnow_core.specs.Exact.{Reads};
ghost use Rattle.grammars.specs.Grammar.Meaning.{Meaning};

use crate::long_strings::{read_any_basic, read_any_literal};
use crate::plain::read_plain;
use crate::strings::begins_with;
use format_toml_tree::value::Value;
use std::alloc::Allocator;
use stream_errors::empty::EmptyError;
use stream_errors::has_kind::HasKind;
use stream_errors::mode::ErrMode;
use winnow_core::parser::Parser;
use winnow_token::token::literal;

/// A basic string, as a value.
fn read_basic_value<'i, A: Allocator + Copy>(
    alloc: A,
    input: &mut &'i str,
) -> Result<Value<A>, ErrMode<EmptyError>>
    ensures { Reads text_reading ⟦<ErrMode<EmptyError> as HasKind>⟧.kind
        (Meaning IsText AnyBasic)
        (text_input input.old.now) result (text_input input.new.now) }
{
    match read_any_basic(alloc, input) {
        Ok(text) => Ok(Value::Text(text)),
        Err(error) => Err(error),
    }
}

/// A literal string, as a value.
fn read_literal_value<'i, A: Allocator + Copy>(
    alloc: A,
    input: &mut &'i str,
) -> Result<Value<A>, ErrMode<EmptyError>>
    ensures { Reads text_reading ⟦<ErrMode<EmptyError> as HasKind>⟧.kind
        (Meaning IsText AnyLiteral)
        (text_input input.old.now) result (text_input input.new.now) }
{
    match read_any_literal(alloc, input) {
        Ok(text) => Ok(Value::Text(text)),
        Err(error) => Err(error),
    }
}

/// Parses a word, and returns its meaning.
fn read_boolean<A: Allocator>(
    word: &'static str,
    is: bool,
    input: &mut &str,
) -> Result<Value<A>, ErrMode<EmptyError>>
    ensures { Reads text_reading ⟦<ErrMode<EmptyError> as HasKind>⟧.kind
        (AnyBoolean (chars word.now) is)
        (text_input input.old.now) result (text_input input.new.now) }
{
    match literal(word).read(input) {
        Ok(_word) => Ok(Value::Boolean(is)),
        Err(error) => Err(error),
    }
}

/// Parses a string, a boolean, a number, a date or a time.
pub fn read_scalar<A: Allocator + Copy>(
    alloc: A,
    input: &mut &str,
) -> Result<Value<A>, ErrMode<EmptyError>>
    ensures { Reads text_reading ⟦<ErrMode<EmptyError> as HasKind>⟧.kind Scalar
        (text_input input.old.now) result (text_input input.new.now) }
{
    if begins_with(input, '"') {
        return read_basic_value(alloc, input);
    }
    if begins_with(input, '\'') {
        return read_literal_value(alloc, input);
    }
    if begins_with(input, 't') {
        return read_boolean("true", true, input);
    }
    if begins_with(input, 'f') {
        return read_boolean("false", false, input);
    }
    read_plain(alloc, input)
}
