//! Values of JSON that have no others in them (RFC 8259, section 3).
ghost use Rattle.format_json_values.specs.FirstOfScalar.{IsNumeric};
ghost use Rattle.format_json_texts.specs.Number.{ContinuesNumber, Number};
ghost use Rattle.format_json_texts.specs.Strings.{Quoted};
ghost use Rattle.format_json_texts.specs.Values.{AnyWord, HasText, IsNumber, IsString, IsWord};
ghost use Rattle.format_json_texts.specs.Values.{Scalar};
ghost use Rattle.format_json_texts.specs.Values.{ScalarText};
ghost use Rattle.format_parts.specs.Words.{Word};
ghost use Rattle.std.specs.Prelude.{◌≡◌, false, IsTrue};
ghost use Rattle.std.specs.Str.{chars};
ghost use Rattle.streams.specs.Text.{text_input, text_reading};
ghost use Rattle.winnow_core.specs.Exact.{Reads};
ghost use Rattle.grammars.specs.Grammar.Meaning.{Meaning};
ghost use Rattle.stream_sets.specs.Accumulator.Holds.{HasCharacters};
ghost use Rattle.grammars.specs.Texts.{StartsWith, NotFirst};
ghost use Rattle.winnow_grammar.specs.Told.{ReadsText};

use crate::number::read_number;
use crate::string::read_string;
use format_json_texts::value::Value;
use std::alloc::Allocator;
use stream_errors::empty::EmptyError;
use stream_errors::growth::OrNoMemory;
use stream_errors::has_kind::HasKind;
use stream_errors::mode::ErrMode;
use winnow_core::parser::Parser;
use winnow_token::token::literal;

/// Whether this character is first.
fn begins_with(input: &str, first: char) -> bool
    ensures yes { IsTrue result → StartsWith (λ c. c ≡ first) (chars input.now) }
    ensures no { result ≡ false → NotFirst (λ c. c ≡ first) (chars input.now) }
{
    match input.chars().next() {
        Some(c) => c == first,
        None => false,
    }
}

/// Whether a minus or a digit is first.
fn begins_number(input: &str) -> bool
    ensures yes { IsTrue result → StartsWith IsNumeric (chars input.now) }
    ensures no { result ≡ false → NotFirst IsNumeric (chars input.now) }
{
    match input.chars().next() {
        Some(c) => c == '-' || ('0' <= c && c <= '9'),
        None => false,
    }
}

/// Parses a word, and returns its meaning.
fn read_spelled(
    word: &'static str,
    is: Option<bool>,
    input: &mut &str,
) -> Result<Option<bool>, ErrMode<EmptyError>>
    ensures { Reads text_reading ⟦<ErrMode<EmptyError> as HasKind>⟧.kind
        (Word (chars word.now) is)
        (text_input input.old.now) result (text_input input.new.now) }
{
    match literal(word).read(input) {
        Ok(_word) => Ok(is),
        Err(error) => Err(error),
    }
}

/// The words `null`, `true` and `false`: whether it is one of the latter, and which.
fn read_word(input: &mut &str) -> Result<Option<bool>, ErrMode<EmptyError>>
    ensures { Reads text_reading ⟦<ErrMode<EmptyError> as HasKind>⟧.kind AnyWord
        (text_input input.old.now) result (text_input input.new.now) }
{
    if begins_with(input, 'n') {
        return read_spelled("null", None, input);
    }
    if begins_with(input, 't') {
        return read_spelled("true", Some(true), input);
    }
    read_spelled("false", Some(false), input)
}

/// Returns the value of a word.
fn word_value<A: Allocator>(word: Option<bool>) -> Value<A>
    ensures { IsWord word result }
{
    match word {
        None => Value::Null,
        Some(is) => Value::Boolean(is),
    }
}

/// A word, as a value.
fn read_word_value<A: Allocator>(input: &mut &str) -> Result<Value<A>, ErrMode<EmptyError>>
    ensures { Reads text_reading ⟦<ErrMode<EmptyError> as HasKind>⟧.kind (Meaning IsWord AnyWord)
        (text_input input.old.now) result (text_input input.new.now) }
{
    match read_word(input) {
        Ok(word) => Ok(word_value(word)),
        Err(error) => Err(error),
    }
}

/// Parses a number into an owned text.
fn read_number_text<A: Allocator + Copy>(
    alloc: A,
    input: &mut &str,
) -> Result<String<A>, ErrMode<EmptyError>>
    ensures { Reads text_reading ⟦<ErrMode<EmptyError> as HasKind>⟧.kind (Meaning HasText Number)
        (text_input input.old.now) result (text_input input.new.now) }
{
    match read_number(input) {
        Ok(digits) => String::from_str(alloc, digits).or_no_memory(input),
        Err(error) => Err(error),
    }
}

/// A number, as a value.
fn read_number_value<A: Allocator + Copy>(
    alloc: A,
    input: &mut &str,
) -> Result<Value<A>, ErrMode<EmptyError>>
    ensures { Reads text_reading ⟦<ErrMode<EmptyError> as HasKind>⟧.kind
        (Meaning IsNumber (Meaning HasText Number))
        (text_input input.old.now) result (text_input input.new.now) }
{
    match read_number_text(alloc, input) {
        Ok(text) => Ok(Value::Number(text)),
        Err(error) => Err(error),
    }
}

/// A string, as a value.
fn read_string_value<A: Allocator + Copy>(
    alloc: A,
    input: &mut &str,
) -> Result<Value<A>, ErrMode<EmptyError>>
    ensures { Reads text_reading ⟦<ErrMode<EmptyError> as HasKind>⟧.kind
        (Meaning IsString (Quoted HasCharacters))
        (text_input input.old.now) result (text_input input.new.now) }
{
    match read_string(alloc, input) {
        Ok(text) => Ok(Value::Text(text)),
        Err(error) => Err(error),
    }
}

/// Parses a word, a number or a string as a value.
///
/// ```
/// use format_json_values::scalar::read_scalar;
/// use format_json_texts::value::Value;
///
/// let mut input = "true, null";
/// assert!(rt; matches!(read_scalar(alloc, &mut input), Ok(Value::Boolean(true))));
/// assert_eq!(rt; input, ", null");
/// assert!(rt; read_scalar(alloc, &mut "[]").is_err());
/// ```
pub fn read_scalar<A: Allocator + Copy>(
    alloc: A,
    input: &mut &str,
) -> Result<Value<A>, ErrMode<EmptyError>>
    ensures grammar { Reads text_reading ⟦<ErrMode<EmptyError> as HasKind>⟧.kind
        (Scalar HasCharacters) (text_input input.old.now) result (text_input input.new.now) }
    ensures text { ReadsText text_reading ⟦<ErrMode<EmptyError> as HasKind>⟧.kind
        (ScalarText HasCharacters) (NotFirst ContinuesNumber) (text_input input.old.now) result
        (text_input input.new.now) }
{
    if begins_with(input, '"') {
        return read_string_value(alloc, input);
    }
    if begins_number(input) {
        return read_number_value(alloc, input);
    }
    read_word_value(input)
}
