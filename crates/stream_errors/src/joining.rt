//! Errors that choices and repetitions make of those of their parts.
ghost use Rattle.std.specs.Prelude.{◌≡◌};
ghost use Rattle.streams.specs.Kind.{backtrack};

use crate::parser_error::ParserError;
use streams::stream::Stream;

/// Joins the errors of two branches that backtracked, by [`or`](ParserError::or). If an allocation
/// fails, it is an error at the position of `input` instead, so no choice is out of memory itself.
///
/// ```
/// let mut digit = ExpectedError::new();
/// digit.push(alloc, "a digit");
/// let mut sign = ExpectedError::new();
/// sign.push(alloc, "a sign");
/// assert_eq!(rt; join_branches(digit, sign, &"x").expected(), ["a digit", "a sign"].as_slice());
/// ```
#[inline(always)]
pub fn join_branches<I: Stream, E: ParserError<I>>(first: E, second: E, input: &I) -> E
    ensures { E.kind result ≡ backtrack }
{
    let both = first.or(second);
    if both.is_backtrack() {
        both
    } else {
        E::from_input(input)
    }
}

/// Adds the position of a choice or of an item to an error that backtracks, by
/// [`append`](ParserError::append). If an allocation fails, it is an error at the position of
/// `input` instead. Other errors are unchanged.
///
/// ```
/// let error = append_position(EmptyError::from_input(&"x"), &"x", &"x".checkpoint());
/// assert_eq!(rt; error, EmptyError::from_input(&"x"));
/// ```
#[inline(always)]
pub fn append_position<I: Stream, E: ParserError<I>>(
    error: E,
    input: &I,
    start: &I::Checkpoint,
) -> E
    ensures { E.kind result ≡ E.kind error }
{
    if !error.is_backtrack() {
        return error;
    }
    let longer = error.append(input, start);
    if longer.is_backtrack() {
        longer
    } else {
        E::from_input(input)
    }
}
