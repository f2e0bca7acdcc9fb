//! Percentages: a bound that a branch shows.
#![tactic(auto)]

ghost use Rattle.std.specs.Prelude.{◌≤◌, IfOk};

use winnow::error::{EmptyError, ErrMode};
use winnow::prelude::*;
use winnow::stream::{AsChar, ParseSlice};
use winnow::token::take_while;

/// Parses one to three digits by the `FromStr` of `O`, over any stream of text.
fn read_digits<I, O, E>(input: &mut I) -> Result<O, E>
where
    I: StreamIsPartial,
    I::Token: AsChar,
    I::Slice: ParseSlice<O>,
    E: ParserError<I>,
{
    take_while(1..=3, '0'..='9').parse_to().parse_next(input)
}

/// Reads a percentage: it is at most 100.
pub fn read_percentage(input: &mut &str) -> Result<u8, ErrMode<EmptyError>>
    ensures { IfOk result (λ percentage. percentage ≤ 100) }
{
    let percentage = read_digits(input)?;
    '%'.parse_next(input)?;
    if percentage <= 100 {
        Ok(percentage)
    } else {
        Err(ErrMode::from_input(input))
    }
}
