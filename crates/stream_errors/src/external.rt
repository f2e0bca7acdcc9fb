//! Errors made of the errors of others.
ghost use Rattle.std.specs.Prelude.{Bool, IsTrue, false};
ghost use Rattle.streams.specs.Kind.{backtrack};
ghost use Rattle.stream_errors.specs.Given.{Keeping, KindGiven, always_kept};
ghost use Rattle.stream_errors.specs.Join.{IsOrMemory};

use crate::empty::EmptyError;
use crate::has_kind::HasKind;
use crate::input_error::InputError;
use crate::mode::ErrMode;
use crate::parser_error::ParserError;
use streams::stream::Stream;

/// An error that is made where something other than a parser failed, as a conversion does.
///
/// ```
/// let error = EmptyError::from_external_error(&"32", "not a day");
/// assert!(rt; ParserError::<&str>::is_backtrack(&error));
/// ```
pub trait FromExternalError<I: Stream, E>: HasKind {
    // Whether storing the other error allocates.
    ghost external_grows: { Bool };

    // Whether an error can be kept, and whether keeping it can be refused memory.
    ghost external_gives: { E → Keeping };

    // Memory allocation fails only if storing the other error allocates.
    ghost external_asks: { (error : E) → IsTrue (external_gives error).refused
        → IsTrue external_grows };

    /// Returns a backtracking error at the offset of `input`, for `error`. It can be out of memory
    /// instead only if storing `error` allocates.
    fn from_external_error(input: &I, error: E) -> Self
        ensures kind { IsOrMemory backtrack (IsTrue external_grows) (Self.kind result) }
        ensures given { KindGiven (external_gives error) backtrack (Self.kind result) };
}

impl<I: Stream, E: Drop> FromExternalError<I, E> for EmptyError {
    ghost external_grows = { false };

    ghost external_gives = { λ _. always_kept };

    ghost external_asks = { λ _ refused. refused };

    #[inline(always)]
    fn from_external_error(input: &I, _error: E) -> EmptyError {
        EmptyError::from_input(input)
    }
}

impl<I: Stream + Copy, E: Drop> FromExternalError<I, E> for InputError<I> {
    ghost external_grows = { false };

    ghost external_gives = { λ _. always_kept };

    ghost external_asks = { λ _ refused. refused };

    #[inline(always)]
    fn from_external_error(input: &I, _error: E) -> InputError<I> {
        InputError::at(*input)
    }
}

#[tactic(auto, using(crate::specs::Given::contexts_kept))]
impl<I: Stream, E, F: FromExternalError<I, E>> FromExternalError<I, E> for ErrMode<F> {
    ghost external_grows = { F.external_grows };

    ghost external_gives = { F.external_gives };

    ghost external_asks = { F.external_asks };

    #[inline(always)]
    fn from_external_error(input: &I, error: E) -> ErrMode<F> {
        ErrMode::Backtrack(F::from_external_error(input, error))
    }
}
