//! Literals: what a parser of a literal runs, by value or made by a function.
#![tactic(auto, using(streams::specs::Ends::ends_follow))]

ghost use Rattle.parser_definitions.specs.Does.{Ran};
ghost use Rattle.parser_definitions.specs.Literal.{LiteralDoes};
ghost use Rattle.stream_errors.specs.Form.{answer_by};

use crate::short::short;
use stream_errors::parser_error::ParserError;
use stream_searches::compare::{Compare, CompareResult};
use streams::needed::Needed;
use streams::stream::StreamIsPartial;

/// Matches a literal at the start of the input.
#[inline(always)]
pub fn take_literal<T, I: StreamIsPartial + Compare<T>, E: ParserError<I>>(
    input: &mut I,
    literal: T,
) -> Result<I::Slice, E>
    ensures ran { Ran I.reading (LiteralDoes I.reading I.spells (λ _ slice. slice)) E.form literal
        (I.view input.old) (answer_by E.kind result) literal (I.view input.new) }
{
    match input.compare(literal) {
        CompareResult::Ok(length) => Ok(input.next_slice(length)),
        CompareResult::Incomplete => Err(short(input, Needed::Unknown)),
        CompareResult::Error => Err(E::from_input(input)),
    }
}
