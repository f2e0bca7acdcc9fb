//! Errors that recovery keeps.
ghost use Rattle.std.specs.Prelude.{◌≡◌, Bool, IsTrue, false};
ghost use Rattle.stream_errors.specs.Join.{IsOrMemory};

use crate::context_error::ContextError;
use crate::control::ControlError;
use crate::empty::EmptyError;
use crate::has_kind::HasKind;
use crate::input_error::InputError;
use crate::mode::ErrMode;
use std::alloc::Allocator;
use streams::stream::Stream;

/// An error that is made of one from which a parser recovers, or could not recover.
///
/// ```
/// let input = "a";
/// let error = EmptyError::from_input(&input);
/// let start = input.checkpoint();
/// let kept = EmptyError::from_recoverable_error(&start, &input.checkpoint(), &input, error);
/// assert_eq!(rt; kept, error);
/// ```
pub trait FromRecoverableError<I: Stream, E: HasKind>: HasKind {
    // Whether storing the error allocates.
    ghost recoverable_grows: { Bool };

    /// Returns the error for `error`, of a parser that began at `token_start` and failed at
    /// `err_start`. The kind is unchanged. It can become out of memory only if storing the error
    /// allocates.
    fn from_recoverable_error(
        token_start: &I::Checkpoint,
        err_start: &I::Checkpoint,
        input: &I,
        error: E,
    ) -> Self
        ensures { IsOrMemory (E.kind error) (IsTrue recoverable_grows) (Self.kind result) };
}

impl<I: Stream> FromRecoverableError<I, EmptyError> for EmptyError {
    ghost recoverable_grows = { false };

    #[inline(always)]
    fn from_recoverable_error(
        _token_start: &I::Checkpoint,
        _err_start: &I::Checkpoint,
        _input: &I,
        error: EmptyError,
    ) -> EmptyError
        ensures { result ≡ error }
    {
        error
    }
}

impl<I: Stream> FromRecoverableError<I, ControlError> for ControlError {
    ghost recoverable_grows = { false };

    #[inline(always)]
    fn from_recoverable_error(
        _token_start: &I::Checkpoint,
        _err_start: &I::Checkpoint,
        _input: &I,
        error: ControlError,
    ) -> ControlError
        ensures { result ≡ error }
    {
        error
    }
}

impl<I: Stream> FromRecoverableError<I, InputError<I>> for InputError<I> {
    ghost recoverable_grows = { false };

    #[inline(always)]
    fn from_recoverable_error(
        _token_start: &I::Checkpoint,
        _err_start: &I::Checkpoint,
        _input: &I,
        error: InputError<I>,
    ) -> InputError<I>
        ensures { result ≡ error }
    {
        error
    }
}

impl<I: Stream, C, A: Allocator> FromRecoverableError<I, ContextError<C, A>>
    for ContextError<C, A> {
    ghost recoverable_grows = { false };

    #[inline(always)]
    fn from_recoverable_error(
        _token_start: &I::Checkpoint,
        _err_start: &I::Checkpoint,
        _input: &I,
        error: ContextError<C, A>,
    ) -> ContextError<C, A>
        ensures { result ≡ error }
    {
        error
    }
}

#[tactic(auto, using(crate::specs::Join::joins_round))]
impl<I: Stream, E: FromRecoverableError<I, F>, F: HasKind> FromRecoverableError<I, ErrMode<F>>
    for ErrMode<E> {
    ghost recoverable_grows = { E.recoverable_grows };

    #[inline]
    fn from_recoverable_error(
        token_start: &I::Checkpoint,
        err_start: &I::Checkpoint,
        input: &I,
        error: ErrMode<F>,
    ) -> ErrMode<E> {
        match error {
            ErrMode::Backtrack(inner) => ErrMode::Backtrack(E::from_recoverable_error(
                token_start,
                err_start,
                input,
                inner,
            )),
            ErrMode::Cut(inner) => {
                ErrMode::Cut(E::from_recoverable_error(token_start, err_start, input, inner))
            }
            ErrMode::Incomplete(needed) => ErrMode::Incomplete(needed),
        }
    }
}
