//! Values without quotes (TOML 1.0: Integer, Float, Offset Date-Time, Local Date-Time, Local Date,
//! Local Time).
ghost use Rattle.format_toml.specs.Floats.{IsFloat};
ghost use Rattle.format_toml.specs.Grammars.{Plain, Unquoteds};
ghost use Rattle.format_toml.specs.Plain.{IsAnswer, IsFloatAnswer};
ghost use Rattle.format_toml.specs.Toml.{DateTimeText, OtherText, PlainText};
ghost use Rattle.winnow_core.specs.Exact.{Reads};
ghost use Rattle.streams.specs.Text.{text_input, text_reading};

use crate::characters::Characters;
use crate::floats::{is_float, without_underscores};
use crate::integers::integer;
use crate::parts::read_both_taken;
use format_toml_tree::date_times::date_time;
use format_toml_tree::value::{Float, Value};
use std::alloc::Allocator;
use stream_errors::empty::EmptyError;
use stream_errors::has_kind::HasKind;
use stream_errors::mode::ErrMode;
use stream_errors::parser_error::ParserError;
use winnow_token::token::take_while;

/// Parses the longest run of characters of numbers, dates and times, at least one. A space is also
/// one if two digits and a colon follow it, since a date and a time may be written so.
fn read_unquoted<'i>(input: &mut &'i str) -> Result<&'i str, ErrMode<EmptyError>>
    ensures { Reads text_reading ⟦<ErrMode<EmptyError> as HasKind>⟧.kind Unquoteds
        (text_input input.old.now) result (text_input input.new.now) }
{
    let first = take_while(1.., Characters::Unquoted);
    let hour = take_while(2, Characters::Digit);
    let others = take_while(0.., Characters::Unquoted);
    read_both_taken(first, (' ', hour, ':', others), input)
}

/// The value of a float.
fn float_value<A: Allocator>(alloc: A, text: &[u8]) -> Result<Value<A>, ErrMode<EmptyError>>
    requires { IsFloat text.now }
    ensures { IsFloatAnswer ⟦<ErrMode<EmptyError> as HasKind>⟧.kind text.now result }
{
    match without_underscores(alloc, text) {
        Ok(kept) => Ok(Value::Float(Float { text: kept })),
        Err(_) => Err(ErrMode::no_memory(&text)),
    }
}

/// The date, the time or both that a text is.
fn date_value<A: Allocator>(alloc: A, text: &[u8]) -> Result<Value<A>, ErrMode<EmptyError>>
    ensures { IsAnswer DateTimeText ⟦<ErrMode<EmptyError> as HasKind>⟧.kind text.now result }
{
    match date_time(alloc, text) {
        Ok(Some(found)) => Ok(Value::DateTime(found)),
        Ok(None) => Err(ErrMode::from_input(&text)),
        Err(_) => Err(ErrMode::no_memory(&text)),
    }
}

/// Returns the value without quotes that a text is, if it is not an integer.
fn other_value<A: Allocator>(alloc: A, text: &[u8]) -> Result<Value<A>, ErrMode<EmptyError>>
    ensures { IsAnswer OtherText ⟦<ErrMode<EmptyError> as HasKind>⟧.kind text.now result }
{
    if is_float(text) {
        return float_value(alloc, text);
    }
    date_value(alloc, text)
}

/// The value that a text is, of those without quotes.
fn plain_value<A: Allocator>(alloc: A, text: &[u8]) -> Result<Value<A>, ErrMode<EmptyError>>
    ensures { IsAnswer PlainText ⟦<ErrMode<EmptyError> as HasKind>⟧.kind text.now result }
{
    match integer(text) {
        Some(number) => Ok(Value::Integer(number)),
        None => other_value(alloc, text),
    }
}

/// Parses a value without quotes: it extends over all characters of numbers, dates and times, and
/// over a time after a space.
pub fn read_plain<A: Allocator>(alloc: A, input: &mut &str) -> Result<Value<A>, ErrMode<EmptyError>>
    ensures { Reads text_reading ⟦<ErrMode<EmptyError> as HasKind>⟧.kind Plain
        (text_input input.old.now) result (text_input input.new.now) }
{
    match read_unquoted(input) {
        Ok(text) => plain_value(alloc, text.as_bytes()),
        Err(error) => Err(error),
    }
}
