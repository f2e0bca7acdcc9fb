//! Errors that keep what was being parsed.
ghost use Rattle.std.specs.Prelude.{◌≡◌, Bool, IsTrue, false};
ghost use Rattle.stream_errors.specs.Given.{KeepsContext, Keeping, always_kept, round_keeping};
ghost use Rattle.stream_errors.specs.Given.{round_refused};
ghost use Rattle.stream_errors.specs.Join.{KeepsKind};

use crate::empty::EmptyError;
use crate::has_kind::HasKind;
use crate::input_error::InputError;
use crate::mode::ErrMode;
use std::alloc::Allocator;
use streams::stream::Stream;

/// An error to which contexts can be added, which describe the input being parsed. The list of
/// contexts grows by an allocator.
///
/// ```
/// let input = "a";
/// let error: ContextError<&str> = ContextError::from_input(&input);
/// let told = error.add_context(alloc, &input, &input.checkpoint(), "number");
/// assert!(rt; ParserError::<&str>::is_backtrack(&told));
/// assert_eq!(rt; told.context(), ["number"].as_slice());
/// ```
pub trait AddContext<I: Stream, C, A: Allocator>: HasKind {
    // Whether storing a context allocates.
    ghost context_grows: { Bool };

    // Whether a context can be kept, and whether keeping it can be refused memory.
    ghost context_gives: { C → Keeping };

    // Memory allocation fails only if storing a context allocates.
    ghost context_asks: { (context : C) → IsTrue (context_gives context).refused
        → IsTrue context_grows };

    /// Returns the error with one more context, of a parser that began at `token_start`. The kind
    /// is unchanged. It can become out of memory only if storing the context allocates. An
    /// incomplete error stores no context.
    fn add_context(self, alloc: A, input: &I, token_start: &I::Checkpoint, context: C) -> Self
        ensures kind { KeepsKind (IsTrue context_grows) (Self.kind self) (Self.kind result) }
        ensures kept { KeepsContext Self.form (context_gives context) (Self.kind self)
            (Self.kind result) };
}

#[tactic(auto, using(crate::specs::Given::contexts_kept))]
impl<I: Stream, C: Drop, A: Allocator> AddContext<I, C, A> for EmptyError {
    ghost context_grows = { false };

    ghost context_gives = { λ _. always_kept };

    ghost context_asks = { λ _ refused. refused };

    #[inline(always)]
    fn add_context(
        self,
        _alloc: A,
        _input: &I,
        _token_start: &I::Checkpoint,
        _context: C,
    ) -> EmptyError
        ensures { result ≡ self }
    {
        self
    }
}

#[tactic(auto, using(crate::specs::Given::contexts_kept))]
impl<I: Stream, C: Drop, A: Allocator> AddContext<I, C, A> for InputError<I> {
    ghost context_grows = { false };

    ghost context_gives = { λ _. always_kept };

    ghost context_asks = { λ _ refused. refused };

    #[inline(always)]
    fn add_context(
        self,
        _alloc: A,
        _input: &I,
        _token_start: &I::Checkpoint,
        _context: C,
    ) -> InputError<I>
        ensures { result ≡ self }
    {
        self
    }
}

#[tactic(auto, using(crate::specs::Join::keeps_kinds, crate::specs::Given::contexts_kept))]
impl<I: Stream, C: Drop, A: Allocator, E: AddContext<I, C, A>> AddContext<I, C, A> for ErrMode<E> {
    ghost context_grows = { E.context_grows };

    ghost context_gives = { λ context. round_keeping E.form (E.context_gives context) };

    ghost context_asks = { λ context refused. E.context_asks context
        (round_refused E.form (E.context_gives context) refused) };

    #[inline]
    fn add_context(
        self,
        alloc: A,
        input: &I,
        token_start: &I::Checkpoint,
        context: C,
    ) -> ErrMode<E> {
        match self {
            ErrMode::Backtrack(error) => {
                ErrMode::Backtrack(error.add_context(alloc, input, token_start, context))
            }
            ErrMode::Cut(error) => {
                ErrMode::Cut(error.add_context(alloc, input, token_start, context))
            }
            ErrMode::Incomplete(needed) => ErrMode::Incomplete(needed),
        }
    }
}
