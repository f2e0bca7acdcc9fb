//! Keys and the names of tables (TOML 1.0: Keys, Table).

ghost use Rattle.streams.specs.Text.{text_input, text_reading};
ghost use Rattle.format_toml.specs.Grammars.{AnyCharacters, AnyKey, DoubleHeader, Header};
ghost use Rattle.format_toml.specs.Grammars.{Name, Names};
ghost use Rattle.format_toml.specs.Unique.{header_unique, key_unique, name_unique};
ghost use Rattle.format_toml.specs.declared.characters.Characters.TheVariants.{Bare};
ghost use Rattle.winnow_core.specs.Exact.{Reads};

use crate::characters::Characters;
use crate::parts::read_joined;
use crate::strings::{begins_with, read_basic, read_literal};
use format_parts::marks::read_between;
use format_toml_tree::value::Key;
use std::alloc::Allocator;
use stream_errors::empty::EmptyError;
use stream_errors::has_kind::HasKind;
use stream_errors::mode::ErrMode;
use winnow_ascii::ascii::impls::Space0;
use winnow_core::parser::Parser;
use winnow_grammar::rule::Rule;
use winnow_repeat::combinator::repeat;
use winnow_token::token::one_of;

/// A bare key.
fn read_bare<'i, A: Allocator + Copy>(
    alloc: A,
    input: &mut &'i str,
) -> Result<String<A>, ErrMode<EmptyError>>
    ensures { Reads text_reading ⟦<ErrMode<EmptyError> as HasKind>⟧.kind (AnyCharacters Bare 1)
        (text_input input.old.now) result (text_input input.new.now) }
{
    repeat(alloc, 1.., one_of(Characters::Bare)).read(input)
}

/// The name of what [`read_name`] reads.
#[derive(Clone, Copy, Drop)]
struct AnyName<A>(A);

impl<'i, A: Allocator> Rule<&'i str, String<A>> for AnyName<A> {
    ghost grammar = { λ _. Name };

    ghost consumes = { λ _. ⊥ };

    fn name() {}

    ghost unique = { λ _. name_unique };

    ghost takes = { λ _ never. absurd never };
}

/// A name of a key: a string, or a bare key.
fn read_name<'i, A: Allocator + Copy>(
    alloc: A,
    input: &mut &'i str,
) -> Result<String<A>, ErrMode<EmptyError>>
    ensures { Reads text_reading ⟦<ErrMode<EmptyError> as HasKind>⟧.kind Name
        (text_input input.old.now) result (text_input input.new.now) }
{
    if begins_with(input, '"') {
        return read_basic(alloc, input);
    }
    if begins_with(input, '\'') {
        return read_literal(alloc, input);
    }
    read_bare(alloc, input)
}

/// Names with points between them, and whitespace after each name and each point.
fn read_names<'i, A: Allocator + Copy>(
    alloc: A,
    input: &mut &'i str,
) -> Result<Vec<String<A>, A>, ErrMode<EmptyError>>
    ensures { Reads text_reading ⟦<ErrMode<EmptyError> as HasKind>⟧.kind Names
        (text_input input.old.now) result (text_input input.new.now) }
{
    let name = AnyName(alloc).by(|input: &mut &str| read_name(alloc, input));
    read_joined(alloc, name, '.', Space0, input)
}

/// The name of what [`read_key`] reads.
#[derive(Clone, Copy, Drop)]
pub struct Keys<A>(pub A);

impl<'i, A: Allocator> Rule<&'i str, Key<A>> for Keys<A> {
    ghost grammar = { λ _. AnyKey };

    ghost consumes = { λ _. ⊥ };

    fn name() {}

    ghost unique = { λ _. key_unique };

    ghost takes = { λ _ never. absurd never };
}

/// A key, and whitespace after it.
pub fn read_key<'i, A: Allocator + Copy>(
    alloc: A,
    input: &mut &'i str,
) -> Result<Key<A>, ErrMode<EmptyError>>
    ensures { Reads text_reading ⟦<ErrMode<EmptyError> as HasKind>⟧.kind AnyKey
        (text_input input.old.now) result (text_input input.new.now) }
{
    match read_names(alloc, input) {
        Ok(names) => Ok(Key { names }),
        Err(error) => Err(error),
    }
}

/// The name of what [`read_header`] reads.
#[derive(Clone, Copy, Drop)]
pub struct Headers<A>(pub A);

impl<'i, A: Allocator> Rule<&'i str, Key<A>> for Headers<A> {
    ghost grammar = { λ _. Header };

    ghost consumes = { λ _. ⊥ };

    fn name() {}

    ghost unique = { λ _. header_unique };

    ghost takes = { λ _ never. absurd never };
}

/// A key and a bracket after it, with whitespace in them.
pub fn read_header<'i, A: Allocator + Copy>(
    alloc: A,
    input: &mut &'i str,
) -> Result<Key<A>, ErrMode<EmptyError>>
    ensures { Reads text_reading ⟦<ErrMode<EmptyError> as HasKind>⟧.kind Header
        (text_input input.old.now) result (text_input input.new.now) }
{
    let key = Keys(alloc).by(|input: &mut &str| read_key(alloc, input));
    read_between(Space0, key, ']', input)
}

/// The same between two brackets.
pub fn read_double<'i, A: Allocator + Copy>(
    alloc: A,
    input: &mut &'i str,
) -> Result<Key<A>, ErrMode<EmptyError>>
    ensures { Reads text_reading ⟦<ErrMode<EmptyError> as HasKind>⟧.kind DoubleHeader
        (text_input input.old.now) result (text_input input.new.now) }
{
    let header = Headers(alloc).by(|input: &mut &str| read_header(alloc, input));
    read_between('[', header, ']', input)
}
