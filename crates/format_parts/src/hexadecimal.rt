//! Hexadecimal digits of escapes, four at a time.
ghost use Rattle.format_parts.specs.Hexadecimal.{CodeUnit, Digit, IsHex, IsNumberOf, digit_takes};
ghost use Rattle.format_parts.specs.Hexadecimal.{digit_unique, unit_takes, unit_unique};
ghost use Rattle.std.specs.Prelude.{ℕ, ⊤, MatchOption};
ghost use Rattle.streams.specs.Text.{text_input, text_reading};
ghost use Rattle.winnow_core.specs.Exact.{IsSpared, Reads};

use crate::turns::read_four_of;
use stream_errors::empty::EmptyError;
use stream_errors::has_kind::HasKind;
use stream_errors::mode::ErrMode;
use winnow_core::parser::Parser;
use winnow_grammar::rule::Rule;
use winnow_token::token::impls::Any;

/// The value of a hexadecimal digit.
fn hex_value(c: char) -> Option<u8>
    ensures { MatchOption result ((d : ℕ) → IsHex c d → ⊥) (λ d. IsHex c d) }
{
    match c {
        '0'..='9' => Some(c as u8 - 48),
        'A'..='F' => Some(c as u8 - 55),
        'a'..='f' => Some(c as u8 - 87),
        _ => None,
    }
}

/// The name of a hexadecimal digit.
#[derive(Clone, Copy, Drop)]
struct HexDigit;

impl<'i> Rule<&'i str, u8> for HexDigit {
    ghost grammar = { λ _. Digit };

    ghost consumes = { λ _. ⊤ };

    fn name() {}

    ghost unique = { λ _. digit_unique };

    ghost takes = { λ _ _. digit_takes };
}

/// A hexadecimal digit: its value.
fn read_digit<'i>(input: &mut &'i str) -> Result<u8, ErrMode<EmptyError>>
    ensures reads { Reads text_reading ⟦<ErrMode<EmptyError> as HasKind>⟧.kind Digit
        (text_input input.old.now) result (text_input input.new.now) }
    ensures spared { IsSpared ⟦<ErrMode<EmptyError> as HasKind>⟧.kind (text_input input.old.now)
        result }
{
    Any.verify_map(hex_value).read(input)
}

/// The number that four hexadecimal digits are, by their values.
fn unit_of(digits: (u8, u8, u8, u8)) -> u32
    ensures { IsNumberOf (digits.0, digits.1, digits.2, digits.3) result }
{
    let (first, second, third, fourth) = digits;
    u32::from(first) * 4096 + u32::from(second) * 256 + u32::from(third) * 16 + u32::from(fourth)
}

/// The name of four hexadecimal digits.
#[derive(Clone, Copy, Drop)]
pub struct Unit;

impl<'i> Rule<&'i str, u32> for Unit {
    ghost grammar = { λ _. CodeUnit };

    ghost consumes = { λ _. ⊤ };

    fn name() {}

    ghost unique = { λ _. unit_unique };

    ghost takes = { λ _ _. unit_takes };
}

/// Four hexadecimal digits: their number. Never fails with out of memory.
pub fn read_unit<'i>(input: &mut &'i str) -> Result<u32, ErrMode<EmptyError>>
    ensures reads { Reads text_reading ⟦<ErrMode<EmptyError> as HasKind>⟧.kind CodeUnit
        (text_input input.old.now) result (text_input input.new.now) }
    ensures spared { IsSpared ⟦<ErrMode<EmptyError> as HasKind>⟧.kind (text_input input.old.now)
        result }
{
    let digit = HexDigit.by(read_digit);
    match read_four_of(digit, digit, digit, digit, input) {
        Ok(digits) => Ok(unit_of(digits)),
        Err(error) => Err(error),
    }
}
