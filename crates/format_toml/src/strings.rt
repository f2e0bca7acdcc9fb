//! Strings (TOML 1.0: String), and whether a character is first.
ghost use Rattle.std.specs.Prelude.{◌≡◌, false, IsTrue};
ghost use Rattle.std.specs.Str.{chars};
ghost use Rattle.streams.specs.Text.{text_input, text_reading};
ghost use Rattle.format_toml.specs.Grammars.{BasicString, LiteralString};
ghost use Rattle.winnow_core.specs.Exact.{Reads};
ghost use Rattle.grammars.specs.Texts.{StartsWith, NotFirst};

use crate::characters::Characters;
use crate::escapes::{AnyCharacter, read_character};
use format_parts::marks::read_between;
use std::alloc::Allocator;
use stream_errors::empty::EmptyError;
use stream_errors::has_kind::HasKind;
use stream_errors::mode::ErrMode;
use winnow_grammar::rule::Rule;
use winnow_repeat::combinator::repeat;
use winnow_token::token::one_of;

/// Whether this character is first.
pub fn begins_with(input: &str, first: char) -> bool
    ensures yes { IsTrue result → StartsWith (λ c. c ≡ first) (chars input.now) }
    ensures no { result ≡ false → NotFirst (λ c. c ≡ first) (chars input.now) }
{
    match input.chars().next() {
        Some(c) => c == first,
        None => false,
    }
}

/// A basic string, its escapes undone.
pub fn read_basic<'i, A: Allocator + Copy>(
    alloc: A,
    input: &mut &'i str,
) -> Result<String<A>, ErrMode<EmptyError>>
    ensures { Reads text_reading ⟦<ErrMode<EmptyError> as HasKind>⟧.kind BasicString
        (text_input input.old.now) result (text_input input.new.now) }
{
    let characters = repeat(alloc, 0.., AnyCharacter.by(read_character));
    read_between('"', characters, '"', input)
}

/// A literal string.
pub fn read_literal<'i, A: Allocator + Copy>(
    alloc: A,
    input: &mut &'i str,
) -> Result<String<A>, ErrMode<EmptyError>>
    ensures { Reads text_reading ⟦<ErrMode<EmptyError> as HasKind>⟧.kind LiteralString
        (text_input input.old.now) result (text_input input.new.now) }
{
    let characters = repeat(alloc, 0.., one_of(Characters::Literal));
    read_between('\'', characters, '\'', input)
}
