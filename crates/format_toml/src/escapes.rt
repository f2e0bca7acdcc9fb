//! Characters of basic strings, and their escapes (TOML 1.0: String).
ghost use Rattle.std.specs.Prelude.{ℕ, ⊤, MatchOption};
ghost use Rattle.format_parts.specs.Hexadecimal.{CodeUnit, IsAlone, alone_unique};
ghost use Rattle.format_parts.specs.Words.{Char, latter};
ghost use Rattle.streams.specs.Text.{text_input, text_reading};
ghost use Rattle.format_toml.specs.Unique.{character_takes, character_unique};
ghost use Rattle.format_toml.specs.Unique.{escape_unique, wide_code_unique};
ghost use Rattle.format_toml.specs.Grammars.{Character, Escape, Short, WideUnits};
ghost use Rattle.format_toml.specs.Toml.{IsWide, StandsFor};
ghost use Rattle.winnow_core.specs.Exact.{Reads};
ghost use Rattle.grammars.specs.Grammar.{Both};
ghost use Rattle.grammars.specs.Grammar.Meaning.{Meaning};

use crate::characters::Characters;
use crate::strings::begins_with;
use crate::units::{Wide, read_wide};
use format_parts::hexadecimal::{Unit, read_unit};
use stream_errors::empty::EmptyError;
use stream_errors::has_kind::HasKind;
use stream_errors::mode::ErrMode;
use winnow_comb::combinator::{alt, preceded};
use winnow_core::parser::Parser;
use winnow_grammar::rule::Rule;
use winnow_token::token::impls::Any;
use winnow_token::token::one_of;

/// The character that a backslash and this one stand for.
fn unescaped(c: char) -> Option<char>
    ensures { MatchOption result ((k : ℕ) → StandsFor c k → ⊥) (λ k. StandsFor c k) }
{
    match c {
        '"' | '\\' => Some(c),
        'b' => Some('\u{8}'),
        'f' => Some('\u{c}'),
        'n' => Some('\n'),
        'r' => Some('\r'),
        't' => Some('\t'),
        _ => None,
    }
}

/// Parses a character that a backslash escapes, and returns the character that the escape denotes.
fn read_short<'i>(input: &mut &'i str) -> Result<char, ErrMode<EmptyError>>
    ensures { Reads text_reading ⟦<ErrMode<EmptyError> as HasKind>⟧.kind Short
        (text_input input.old.now) result (text_input input.new.now) }
{
    Any.verify_map(unescaped).read(input)
}

/// The character that a number is: none if it is a surrogate.
fn alone(unit: u32) -> Option<char>
    ensures { MatchOption result ((c : ℕ) → IsAlone unit c → ⊥) (λ c. IsAlone unit c) }
{
    char::from_u32(unit)
}

/// The name of four digits that are a character.
#[derive(Clone, Copy, Drop)]
struct ShortCode;

impl<'i> Rule<&'i str, char> for ShortCode {
    ghost grammar = { λ _. Meaning IsAlone CodeUnit };

    ghost consumes = { λ _. ⊥ };

    fn name() {}

    ghost unique = { λ _. alone_unique };

    ghost takes = { λ _ never. absurd never };
}

/// Four digits that are a character.
fn read_alone<'i>(input: &mut &'i str) -> Result<char, ErrMode<EmptyError>>
    ensures { Reads text_reading ⟦<ErrMode<EmptyError> as HasKind>⟧.kind (Meaning IsAlone CodeUnit)
        (text_input input.old.now) result (text_input input.new.now) }
{
    Unit.by(read_unit).verify_map(alone).read(input)
}

/// A `u`, and four digits that are a character.
fn read_short_code<'i>(input: &mut &'i str) -> Result<char, ErrMode<EmptyError>>
    ensures { Reads text_reading ⟦<ErrMode<EmptyError> as HasKind>⟧.kind
        (Both latter (Char 117) (Meaning IsAlone CodeUnit))
        (text_input input.old.now) result (text_input input.new.now) }
{
    preceded('u', ShortCode.by(read_alone)).read(input)
}

/// The character that eight digits are, by the numbers of the first four and of the others.
fn wide(units: (u32, u32)) -> Option<char>
    ensures { MatchOption result ((c : ℕ) → IsWide (units.0, units.1) c → ⊥)
        (λ c. IsWide (units.0, units.1) c) }
{
    let (high, low) = units;
    if high > 16 {
        return None;
    }
    match (high * 65536).checked_add(low) {
        Some(unit) => alone(unit),
        None => None,
    }
}

/// The name of eight digits that are a character.
#[derive(Clone, Copy, Drop)]
struct LongCode;

impl<'i> Rule<&'i str, char> for LongCode {
    ghost grammar = { λ _. Meaning IsWide WideUnits };

    ghost consumes = { λ _. ⊥ };

    fn name() {}

    ghost unique = { λ _. wide_code_unique };

    ghost takes = { λ _ never. absurd never };
}

/// Eight digits that are a character.
fn read_wide_character<'i>(input: &mut &'i str) -> Result<char, ErrMode<EmptyError>>
    ensures { Reads text_reading ⟦<ErrMode<EmptyError> as HasKind>⟧.kind (Meaning IsWide WideUnits)
        (text_input input.old.now) result (text_input input.new.now) }
{
    Wide.by(read_wide).verify_map(wide).read(input)
}

/// A `U`, and eight digits that are a character.
fn read_long_code<'i>(input: &mut &'i str) -> Result<char, ErrMode<EmptyError>>
    ensures { Reads text_reading ⟦<ErrMode<EmptyError> as HasKind>⟧.kind
        (Both latter (Char 85) (Meaning IsWide WideUnits))
        (text_input input.old.now) result (text_input input.new.now) }
{
    preceded('U', LongCode.by(read_wide_character)).read(input)
}

/// The name of the characters after a backslash.
#[derive(Clone, Copy, Drop)]
struct AnyEscape;

impl<'i> Rule<&'i str, char> for AnyEscape {
    ghost grammar = { λ _. Escape };

    ghost consumes = { λ _. ⊥ };

    fn name() {}

    ghost unique = { λ _. escape_unique };

    ghost takes = { λ _ never. absurd never };
}

/// Parses the characters after a backslash, and returns the character that the escape denotes.
fn read_escape<'i>(input: &mut &'i str) -> Result<char, ErrMode<EmptyError>>
    ensures { Reads text_reading ⟦<ErrMode<EmptyError> as HasKind>⟧.kind Escape
        (text_input input.old.now) result (text_input input.new.now) }
{
    if begins_with(input, 'u') {
        return read_short_code(input);
    }
    if begins_with(input, 'U') {
        return read_long_code(input);
    }
    read_short(input)
}

/// The name of what [`read_character`] reads.
#[derive(Clone, Copy, Drop)]
pub struct AnyCharacter;

impl<'i> Rule<&'i str, char> for AnyCharacter {
    ghost grammar = { λ _. Character };

    ghost consumes = { λ _. ⊤ };

    fn name() {}

    ghost unique = { λ _. character_unique };

    ghost takes = { λ _ _. character_takes };
}

/// A character of a basic string: one that stands for itself, or one that is escaped.
pub fn read_character<'i>(input: &mut &'i str) -> Result<char, ErrMode<EmptyError>>
    ensures { Reads text_reading ⟦<ErrMode<EmptyError> as HasKind>⟧.kind Character
        (text_input input.old.now) result (text_input input.new.now) }
{
    let escaped = preceded('\\', AnyEscape.by(read_escape));
    alt((one_of(Characters::Basic), escaped)).read(input)
}
