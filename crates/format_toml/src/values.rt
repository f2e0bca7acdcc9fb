//! Values (TOML 1.0: Array, Inline Table), and keys with them.

ghost use Rattle.streams.specs.Text.{text_input, text_reading};
ghost use Rattle.format_toml.specs.Grammars.{AnyValue, Array, Entry, Inline};
ghost use Rattle.format_toml.specs.Led.{no_memory_kind};
ghost use Rattle.format_toml.specs.Scalars.{Goes};
ghost use Rattle.format_toml.specs.Toml.{IsArray, IsInline, ValueText};
ghost use Rattle.format_toml.specs.Unique.{entry_unique, value_unique};
ghost use Rattle.winnow_core.specs.Exact.{Reads};
ghost use Rattle.grammars.specs.Grammar.Meaning.{Meaning};
ghost use Rattle.winnow_grammar.specs.Told.{ReadsText};

use crate::gaps::{AnyGap, read_gap};
use crate::keys::{Keys, read_key};
use crate::parts::{read_list_of, read_pair_of};
use crate::scalars::read_scalar;
use crate::statements::exact;
use crate::strings::begins_with;
use format_parts::marks::{Marks, read_array_of};
use format_toml_tree::value::{Key, Value};
use std::alloc::Allocator;
use stream_errors::empty::EmptyError;
use stream_errors::has_kind::HasKind;
use stream_errors::mode::ErrMode;
use winnow_ascii::ascii::impls::Space0;
use winnow_grammar::rule::Rule;

/// A level that is safe on a stack of two megabytes: parsing a value recurses once for each nested
/// array or inline table, and so does dropping the value. A higher level requires a larger stack.
/// Otherwise a deeply nested text can overflow the stack, which stops the program.
///
/// ```
/// use format_toml::values::{SAFE_DEPTH, read_value};
///
/// assert!(rt; read_value(alloc, SAFE_DEPTH, &mut "[[1], {a = 2}]").is_ok());
/// ```
pub const SAFE_DEPTH: usize = 128;

/// The name of what [`read_value`] reads.
#[derive(Clone, Copy, Drop)]
struct Nested<A>(A, usize);

impl<'i, A: Allocator> Rule<&'i str, Value<A>> for Nested<A> {
    ghost grammar = { λ r. AnyValue r.1 };

    ghost consumes = { λ _. ⊥ };

    fn name() {}

    ghost unique = { λ r. value_unique r.1 };

    ghost takes = { λ _ never. absurd never };
}

/// The name of what [`read_entry`] reads.
#[derive(Clone, Copy, Drop)]
struct Entries<A>(A, usize);

impl<'i, A: Allocator> Rule<&'i str, (Key<A>, Value<A>)> for Entries<A> {
    ghost grammar = { λ r. Entry r.1 };

    ghost consumes = { λ _. ⊥ };

    fn name() {}

    ghost unique = { λ r. entry_unique r.1 };

    ghost takes = { λ _ never. absurd never };
}

/// Parses a value whose arrays and inline tables are nested at most `level` deep. Each level uses
/// some of the stack: up to [`SAFE_DEPTH`] two megabytes suffice.
///
/// On success the input is left after the value. Backtracks if the input does not start with a
/// value of the level, and fails with out of memory if an allocation fails; then the input is a
/// suffix of the original input. A value without quotes extends over all characters that may occur
/// in one: no value is parsed in `80 12:00`, which is neither a number nor a date, although it
/// starts with 80.
///
/// ```
/// use format_toml::values::read_value;
/// use format_toml_tree::value::Value;
///
/// let mut input = "[1, ['a', true],] # two";
/// let value = read_value(alloc, 2, &mut input);
/// assert!(rt; matches!(value, Ok(Value::Array(items)) if items.len() == 2));
/// assert_eq!(rt; input, " # two");
/// assert!(rt; read_value(alloc, 1, &mut "[1, ['a', true]]").is_err());
/// assert!(rt; read_value(alloc, 1, &mut "{ a.b = 1, \"c d\" = 'e' }").is_ok());
/// ```
#[cycle(value)]
pub fn read_value<'i, A: Allocator + Copy>(
    alloc: A,
    level: usize,
    input: &mut &'i str,
) -> Result<Value<A>, ErrMode<EmptyError>>
    ensures grammar { Reads text_reading ⟦<ErrMode<EmptyError> as HasKind>⟧.kind (AnyValue level)
        (text_input input.old.now) result (text_input input.new.now) }
    ensures text { ReadsText text_reading ⟦<ErrMode<EmptyError> as HasKind>⟧.kind
        (ValueText level) Goes (text_input input.old.now) result (text_input input.new.now) }
{
    if level == 0 {
        return read_scalar(alloc, input);
    }
    let below = level - 1;
    if begins_with(input, '[') {
        return read_array(alloc, below, input);
    }
    if begins_with(input, '{') {
        return read_inline(alloc, below, input);
    }
    read_scalar(alloc, input)
}

/// Parses an array of values of a level.
#[cycle(value)]
fn read_array<'i, A: Allocator + Copy>(
    alloc: A,
    below: usize,
    input: &mut &'i str,
) -> Result<Value<A>, ErrMode<EmptyError>>
    ensures { Reads text_reading ⟦<ErrMode<EmptyError> as HasKind>⟧.kind
        (Meaning IsArray (Array (AnyValue below)))
        (text_input input.old.now) result (text_input input.new.now) }
{
    let value = |input: &mut &str|
        ensures { Reads text_reading no_memory_kind (AnyValue below)
            (text_input input.old.now) result (text_input input.new.now) }
    { read_value(alloc, below, input) };
    let marks = Marks {
        opening: '[',
        comma: ',',
        closing: ']',
        gap: AnyGap(alloc).by(|input: &mut &str| read_gap(alloc, input)),
    };
    match read_list_of(alloc, Nested(alloc, below), value, marks, input) {
        Ok(Some(items)) => Ok(Value::Array(items)),
        Ok(None) => Ok(Value::Array(Vec::new(alloc))),
        Err(error) => Err(error),
    }
}

/// Parses an inline table with values of a level.
#[cycle(value)]
fn read_inline<'i, A: Allocator + Copy>(
    alloc: A,
    below: usize,
    input: &mut &'i str,
) -> Result<Value<A>, ErrMode<EmptyError>>
    ensures { Reads text_reading ⟦<ErrMode<EmptyError> as HasKind>⟧.kind
        (Meaning IsInline (Inline (AnyValue below)))
        (text_input input.old.now) result (text_input input.new.now) }
{
    let entry = |input: &mut &str|
        ensures { Reads text_reading no_memory_kind (Entry below)
            (text_input input.old.now) result (text_input input.new.now) }
    { read_entry(alloc, below, input) };
    let marks = Marks {
        opening: '{',
        comma: ',',
        closing: '}',
        gap: Space0,
    };
    match read_array_of(alloc, Entries(alloc, below), entry, marks, input) {
        Ok(pairs) => Ok(Value::Table(exact(pairs))),
        Err(error) => Err(error),
    }
}

/// Parses a key and a value of a level, with an equals sign between them.
#[cycle(value)]
pub(crate) fn read_entry<'i, A: Allocator + Copy>(
    alloc: A,
    level: usize,
    input: &mut &'i str,
) -> Result<(Key<A>, Value<A>), ErrMode<EmptyError>>
    ensures { Reads text_reading ⟦<ErrMode<EmptyError> as HasKind>⟧.kind (Entry level)
        (text_input input.old.now) result (text_input input.new.now) }
{
    let key = Keys(alloc).by(|input: &mut &str| read_key(alloc, input));
    let value = |input: &mut &str|
        ensures { Reads text_reading no_memory_kind (AnyValue level)
            (text_input input.old.now) result (text_input input.new.now) }
    { read_value(alloc, level, input) };
    read_pair_of(key, ('=', Space0), Nested(alloc, level), value, input)
}
