//! Values of JSON (RFC 8259, sections 2 to 7).
ghost use Rattle.format_json_texts.specs.Number.{ContinuesNumber};
ghost use Rattle.format_json_texts.specs.Strings.{Quoted};
ghost use Rattle.format_json_texts.specs.Values.{AnyValue, Json, JsonText, ValueText};
ghost use Rattle.format_json_values.specs.First.{IsOpening, no_memory_kind};
ghost use Rattle.format_json_values.specs.Unique.{value_takes, value_unique};
ghost use Rattle.format_json_values.specs.Escapes.{quoted_takes, quoted_unique};
ghost use Rattle.std.specs.Prelude.{◌≡◌, ◌⊎◌, ◌<◌, false, IsTrue, ⊤};
ghost use Rattle.std.specs.Str.{chars};
ghost use Rattle.streams.specs.Text.{text_input, text_reading};
ghost use Rattle.winnow_core.specs.Exact.{Reads};
ghost use Rattle.winnow_core.specs.Exact.Whole.{ReadsAll};
ghost use Rattle.stream_sets.specs.Accumulator.Holds.{HasCharacters};
ghost use Rattle.grammars.specs.Texts.{StartsWith, NotFirst};
ghost use Rattle.winnow_grammar.specs.Told.{IsTextOf, ReadsText};

use crate::parts::{parse_spaced, read_object_of};
use crate::scalar::read_scalar;
use crate::string::read_string;
use format_json_texts::value::Value;
use format_parts::marks::{Marks, read_array_of};
use std::alloc::Allocator;
use stream_errors::empty::EmptyError;
use stream_errors::fault::ParseFault;
use stream_errors::has_kind::HasKind;
use stream_errors::mode::ErrMode;
use stream_errors::parser_error::ParserError;
use winnow_ascii::ascii::impls::Multispace0;
use winnow_grammar::rule::Rule;

/// A level that is safe on a stack of two megabytes: parsing a value recurses once for each nested
/// array and object, and so does dropping the value. A higher level requires a larger stack.
/// Otherwise a deeply nested text can overflow the stack, which stops the program.
///
/// ```
/// use format_json_values::value::{SAFE_DEPTH, parse_value};
///
/// assert!(rt; parse_value(alloc, SAFE_DEPTH, "[[1], {\"a\": [2]}]").is_ok());
/// ```
pub const SAFE_DEPTH: usize = 128;

/// Whether a bracket is first.
fn begins_array(input: &str) -> bool
    ensures yes { IsTrue result → StartsWith (λ c. c ≡ 91) (chars input.now) }
    ensures no { result ≡ false → NotFirst (λ c. c ≡ 91) (chars input.now) }
{
    match input.chars().next() {
        Some(c) => c == '[',
        None => false,
    }
}

/// Whether arrays and objects are read at the level, and a bracket or a brace is first.
fn opens(level: usize, input: &str) -> bool
    ensures yes { IsTrue result → (0 < level) × StartsWith IsOpening (chars input.now) }
    ensures no { result ≡ false → (level ≡ 0) ⊎ NotFirst IsOpening (chars input.now) }
{
    match input.chars().next() {
        Some(c) => level > 0 && (c == '[' || c == '{'),
        None => false,
    }
}

/// The name of a string.
#[derive(Clone, Copy, Drop)]
struct Name<A>(A);

impl<'i, A: Allocator> Rule<&'i str, String<A>> for Name<A> {
    ghost grammar = { λ _. Quoted HasCharacters };

    ghost consumes = { λ _. ⊤ };

    fn name() {}

    ghost unique = { λ _. quoted_unique };

    ghost takes = { λ _ _. quoted_takes };
}

/// The name of what [`read_value`] reads.
#[derive(Clone, Copy, Drop)]
struct Nested<A>(A, usize);

impl<'i, A: Allocator> Rule<&'i str, Value<A>> for Nested<A> {
    ghost grammar = { λ r. AnyValue HasCharacters r.1 };

    ghost consumes = { λ _. ⊤ };

    fn name() {}

    ghost unique = { λ r. value_unique r.1 };

    ghost takes = { λ r _. value_takes r.1 };
}

/// Parses a value whose arrays and objects are nested at most `level` deep.
///
/// Whitespace inside arrays and objects is consumed, but none before or after the value. Each level
/// uses some of the stack: up to [`SAFE_DEPTH`] two megabytes suffice. On success the input is left
/// after the value. Backtracks if the input does not start with a value of the level, and fails
/// with out of memory if an allocation fails; then the input is a suffix of the original input.
///
/// ```
/// use format_json_texts::value::Value;
/// use format_json_values::value::read_value;
///
/// let mut input = "[1, {\"a\": null}] rest";
/// let value = read_value(alloc, 2, &mut input);
/// assert!(rt; matches!(value, Ok(Value::Array(items)) if items.len() == 2));
/// assert_eq!(rt; input, " rest");
/// assert!(rt; read_value(alloc, 1, &mut "[1, {\"a\": null}]").is_err());
/// ```
pub fn read_value<'i, A: Allocator + Copy>(
    alloc: A,
    level: usize,
    input: &mut &'i str,
) -> Result<Value<A>, ErrMode<EmptyError>>
    ensures grammar { Reads text_reading ⟦<ErrMode<EmptyError> as HasKind>⟧.kind
        (AnyValue HasCharacters level) (text_input input.old.now) result
        (text_input input.new.now) }
    ensures text { ReadsText text_reading ⟦<ErrMode<EmptyError> as HasKind>⟧.kind
        (ValueText HasCharacters level) (NotFirst ContinuesNumber) (text_input input.old.now) result
        (text_input input.new.now) }
{
    if !opens(level, input) {
        return read_scalar(alloc, input);
    }
    let below = level - 1;
    let value = |input: &mut &str|
        ensures { Reads text_reading no_memory_kind (AnyValue HasCharacters below)
            (text_input input.old.now) result (text_input input.new.now) }
    { read_value(alloc, below, input) };
    let rule = Nested(alloc, below);
    if begins_array(input) {
        let marks = Marks {
            opening: '[',
            comma: ',',
            closing: ']',
            gap: Multispace0,
        };
        return match read_array_of(alloc, rule, value, marks, input) {
            Ok(items) => Ok(Value::Array(items)),
            Err(error) => Err(error),
        };
    }
    let name = |input: &mut &str|
        ensures { Reads text_reading no_memory_kind (Quoted HasCharacters)
            (text_input input.old.now) result (text_input input.new.now) }
    { read_string(alloc, input) };
    let marks = Marks {
        opening: '{',
        comma: ',',
        closing: '}',
        gap: Multispace0,
    };
    match read_object_of(alloc, Name(alloc), name, ':', rule, value, marks, input) {
        Ok(members) => Ok(Value::Object(members)),
        Err(error) => Err(error),
    }
}

/// Parses a JSON text, all of it: a value with whitespace before and after it, whose arrays and
/// objects are nested at most `level` deep. Each level uses some of the stack, as in
/// [`read_value`].
///
/// If the text is not JSON, the error gives the byte at which parsing stopped; otherwise the error
/// is out of memory. In an array or an object, parsing stops after the last complete item. Where it
/// stops is tested, not proved.
///
/// ```
/// use format_json_texts::value::Value;
/// use format_json_values::value::{SAFE_DEPTH, parse_value};
///
/// let value = parse_value(alloc, 1, " {\"a\": 1, \"a\": [2]} ");
/// assert!(rt; value.is_err());
/// let value = parse_value(alloc, SAFE_DEPTH, " {\"a\": 1, \"a\": [2]} ");
/// assert!(rt; matches!(value, Ok(Value::Object(members)) if members.len() == 2));
/// assert!(rt; parse_value(alloc, 2, "[1, 2,]").is_err());
/// ```
pub fn parse_value<'i, A: Allocator + Copy>(
    alloc: A,
    level: usize,
    text: &'i str,
) -> Result<Value<A>, ParseFault<&'i str, EmptyError>>
    ensures grammar { ReadsAll ⟦<ErrMode<EmptyError> as ParserError<&'i str>>⟧.inner_kind
        (Json HasCharacters level) (chars text.now) result }
    ensures text { IsTextOf ⟦<ErrMode<EmptyError> as ParserError<&'i str>>⟧.inner_kind
        (JsonText HasCharacters level) (chars text.now) result }
{
    let value = |input: &mut &str| read_value(alloc, level, input);
    parse_spaced(Nested(alloc, level), value, Multispace0, text)
}
