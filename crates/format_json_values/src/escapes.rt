//! Escapes in strings of JSON (RFC 8259, section 7).
ghost use Rattle.format_json_values.specs.Escapes.{Units, escape_takes};
ghost use Rattle.format_parts.specs.Hexadecimal.{CodeUnit, IsAlone, alone_takes, alone_unique};
ghost use Rattle.format_json_values.specs.Escapes.{escape_unique, pair_takes, pair_unique};
ghost use Rattle.format_json_values.specs.Escapes.{short_takes};
ghost use Rattle.format_json_values.specs.Escapes.{short_unique, unicode_takes, unicode_unique};
ghost use Rattle.format_json_texts.specs.Strings.{AreSurrogatePair, Escape, StandsFor, Unicode};
ghost use Rattle.std.specs.Prelude.{ℕ, ⊤, MatchOption};
ghost use Rattle.streams.specs.Text.{text_input, text_reading};
ghost use Rattle.winnow_core.specs.Exact.{IsSpared, Reads};
ghost use Rattle.grammars.specs.Grammar.{Token};
ghost use Rattle.grammars.specs.Grammar.Meaning.{Meaning};

use crate::scalar_parts::{read_either, read_escape_of};
use crate::units::{TwoUnits, read_units};
use format_parts::hexadecimal::{Unit, read_unit};
use stream_errors::empty::EmptyError;
use stream_errors::has_kind::HasKind;
use stream_errors::mode::ErrMode;
use winnow_core::parser::Parser;
use winnow_grammar::rule::Rule;
use winnow_token::token::impls::Any;

/// The character that a unit is by itself: none if it is a surrogate.
fn alone(unit: u32) -> Option<char>
    ensures { MatchOption result ((c : ℕ) → IsAlone unit c → ⊥) (λ c. IsAlone unit c) }
{
    char::from_u32(unit)
}

/// The name of a unit that is a character.
#[derive(Clone, Copy, Drop)]
struct LoneUnit;

impl<'i> Rule<&'i str, char> for LoneUnit {
    ghost grammar = { λ _. Meaning IsAlone CodeUnit };

    ghost consumes = { λ _. ⊤ };

    fn name() {}

    ghost unique = { λ _. alone_unique };

    ghost takes = { λ _ _. alone_takes };
}

/// A unit that is a character by itself.
fn read_alone<'i>(input: &mut &'i str) -> Result<char, ErrMode<EmptyError>>
    ensures reads { Reads text_reading ⟦<ErrMode<EmptyError> as HasKind>⟧.kind
        (Meaning IsAlone CodeUnit)
        (text_input input.old.now) result (text_input input.new.now) }
    ensures spared { IsSpared ⟦<ErrMode<EmptyError> as HasKind>⟧.kind (text_input input.old.now)
        result }
{
    Unit.by(read_unit).verify_map(alone).read(input)
}

/// The character that two units are, where they are surrogates in order.
fn paired(units: (u32, u32)) -> Option<char>
    ensures { MatchOption result ((c : ℕ) → AreSurrogatePair (units.0, units.1) c → ⊥)
        (λ c. AreSurrogatePair (units.0, units.1) c) }
{
    let (high, low) = units;
    if 0xD800 <= high && high < 0xDC00 && 0xDC00 <= low && low < 0xE000 {
        char::from_u32(0x10000 + (high - 0xD800) * 1024 + (low - 0xDC00))
    } else {
        None
    }
}

/// The name of two units that are a character.
#[derive(Clone, Copy, Drop)]
struct UnitPair;

impl<'i> Rule<&'i str, char> for UnitPair {
    ghost grammar = { λ _. Meaning AreSurrogatePair Units };

    ghost consumes = { λ _. ⊤ };

    fn name() {}

    ghost unique = { λ _. pair_unique };

    ghost takes = { λ _ _. pair_takes };
}

/// Two units that are a character.
fn read_pair<'i>(input: &mut &'i str) -> Result<char, ErrMode<EmptyError>>
    ensures reads { Reads text_reading ⟦<ErrMode<EmptyError> as HasKind>⟧.kind
        (Meaning AreSurrogatePair Units)
        (text_input input.old.now) result (text_input input.new.now) }
    ensures spared { IsSpared ⟦<ErrMode<EmptyError> as HasKind>⟧.kind (text_input input.old.now)
        result }
{
    TwoUnits.by(read_units).verify_map(paired).read(input)
}

/// The name of a unit alone, or of two of them.
#[derive(Clone, Copy, Drop)]
struct LongEscape;

impl<'i> Rule<&'i str, char> for LongEscape {
    ghost grammar = { λ _. Unicode };

    ghost consumes = { λ _. ⊤ };

    fn name() {}

    ghost unique = { λ _. unicode_unique };

    ghost takes = { λ _ _. unicode_takes };
}

/// A unit alone, or two of them.
fn read_unicode<'i>(input: &mut &'i str) -> Result<char, ErrMode<EmptyError>>
    ensures reads { Reads text_reading ⟦<ErrMode<EmptyError> as HasKind>⟧.kind Unicode
        (text_input input.old.now) result (text_input input.new.now) }
    ensures spared { IsSpared ⟦<ErrMode<EmptyError> as HasKind>⟧.kind (text_input input.old.now)
        result }
{
    read_either(LoneUnit.by(read_alone), UnitPair.by(read_pair), input)
}

/// The character that a backslash and this one stand for.
fn unescaped(c: char) -> Option<char>
    ensures { MatchOption result ((k : ℕ) → StandsFor c k → ⊥) (λ k. StandsFor c k) }
{
    match c {
        '"' | '\\' | '/' => Some(c),
        'b' => Some('\u{8}'),
        'f' => Some('\u{c}'),
        'n' => Some('\n'),
        'r' => Some('\r'),
        't' => Some('\t'),
        _ => None,
    }
}

/// The name of a character that a backslash escapes by itself.
#[derive(Clone, Copy, Drop)]
struct ShortEscape;

impl<'i> Rule<&'i str, char> for ShortEscape {
    ghost grammar = { λ _. Meaning StandsFor (Token (λ c. c)) };

    ghost consumes = { λ _. ⊤ };

    fn name() {}

    ghost unique = { λ _. short_unique };

    ghost takes = { λ _ _. short_takes };
}

/// Parses a character that a backslash escapes by itself, and returns the character that the escape
/// denotes.
fn read_short<'i>(input: &mut &'i str) -> Result<char, ErrMode<EmptyError>>
    ensures reads { Reads text_reading ⟦<ErrMode<EmptyError> as HasKind>⟧.kind
        (Meaning StandsFor (Token (λ c. c)))
        (text_input input.old.now) result (text_input input.new.now) }
    ensures spared { IsSpared ⟦<ErrMode<EmptyError> as HasKind>⟧.kind (text_input input.old.now)
        result }
{
    Any.verify_map(unescaped).read(input)
}

/// The name of an escape: a backslash and the characters that it escapes.
#[derive(Clone, Copy, Drop)]
pub struct AnyEscape;

impl<'i> Rule<&'i str, char> for AnyEscape {
    ghost grammar = { λ _. Escape };

    ghost consumes = { λ _. ⊤ };

    fn name() {}

    ghost unique = { λ _. escape_unique };

    ghost takes = { λ _ _. escape_takes };
}

/// Parses a backslash and the characters that it escapes.
pub fn read_escape<'i>(input: &mut &'i str) -> Result<char, ErrMode<EmptyError>>
    ensures reads { Reads text_reading ⟦<ErrMode<EmptyError> as HasKind>⟧.kind Escape
        (text_input input.old.now) result (text_input input.new.now) }
    ensures spared { IsSpared ⟦<ErrMode<EmptyError> as HasKind>⟧.kind (text_input input.old.now)
        result }
{
    let short = ShortEscape.by(read_short);
    let unicode = LongEscape.by(read_unicode);
    read_escape_of('\\', short, 'u', unicode, input)
}
