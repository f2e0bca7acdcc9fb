//! An error with its contexts.
ghost use Rattle.std.specs.Prelude.{◌≡◌, [], false, true, refl, if◌then◌else◌};
ghost use Rattle.stream_errors.specs.ContextError.{IsPushed, contexts_of, wants_memory};
ghost use Rattle.stream_errors.specs.Form.{marked_kind, plain};
ghost use Rattle.stream_errors.specs.Form.{marked_kind-cases};
ghost use Rattle.stream_errors.specs.Given.{always_kept, kept_or_refused};

use crate::context::AddContext;
use crate::external::FromExternalError;
use crate::has_kind::HasKind;
use crate::parser_error::ParserError;
use std::alloc::{Allocator, Global};
use streams::needed::Needed;
use streams::stream::Stream;

/// A plain error that keeps what was being parsed: the contexts that were added to it, the
/// innermost first. It has no list before its first context.
///
/// ```
/// let mut number = Digit1.context(alloc, "number");
/// let answer: Result<&str, ContextError<&str>> = number.parse_next(&mut "a");
/// match answer {
///     Err(error) => assert_eq!(rt; error.context(), ["number"].as_slice()),
///     Ok(_) => assert!(rt; false),
/// }
/// ```
#[derive(Debug, PartialEq, Drop)]
pub struct ContextError<C, A: Allocator = Global> {
    contexts: Option<Vec<C, A>>,
    is_memory: bool,
}

impl<C, A: Allocator> ContextError<C, A> {
    /// A backtracking error with no context.
    #[inline(always)]
    pub fn new() -> ContextError<C, A>
        ensures contexts { contexts_of result ≡ [] }
        ensures memory { wants_memory result ≡ false }
    {
        ContextError {
            contexts: None,
            is_memory: false,
        }
    }

    /// Whether memory allocation failed.
    #[inline(always)]
    pub(crate) fn wants_memory(&self) -> bool
        ensures { result ≡ self.now.is_memory }
    {
        self.is_memory
    }

    /// The contexts, the innermost first.
    pub fn context(&self) -> &[C]
        ensures { result.now ≡ contexts_of self.now }
    {
        match &self.contexts {
            Some(contexts) => contexts.as_slice(),
            None => &[],
        }
    }
    /// Appends a context. If an allocation fails, the contexts are unchanged, and the error is
    /// marked: from then on its kind is memory.
    pub fn push(&mut self, alloc: A, context: C)
    where
        C: Drop,
        ensures { IsPushed self.old context self.new }
    {
        let mut contexts = match self.contexts.take() {
            Some(contexts) => contexts,
            None => Vec::new(alloc),
        };
        if contexts.push(context).is_err() {
            self.is_memory = true;
        }
        self.contexts = Some(contexts);
    }
}

impl<C, A: Allocator> HasKind for ContextError<C, A> {
    ghost kind = { λ e. marked_kind e.is_memory };

    ghost form = { plain };
}

impl<I: Stream, C: Drop, A: Allocator> ParserError<I> for ContextError<C, A> {
    type Inner = ContextError<C, A>;

    ghost inner_kind = { λ e. marked_kind e.is_memory };

    ghost or_grows = { λ _ _. ⊥ };

    ghost append_grows = { λ _. ⊥ };

    #[inline(always)]
    fn from_input(_input: &I) -> ContextError<C, A> {
        ContextError::new()
    }

    #[inline(always)]
    fn assert(_input: &I, _message: &'static str) -> ContextError<C, A> {
        ContextError::new()
    }

    #[inline(always)]
    fn incomplete(_input: &I, _needed: Needed) -> ContextError<C, A> {
        ContextError::new()
    }

    #[inline(always)]
    fn no_memory(_input: &I) -> ContextError<C, A> {
        ContextError {
            contexts: None,
            is_memory: true,
        }
    }

    #[inline(always)]
    fn or(self, other: ContextError<C, A>) -> ContextError<C, A>
        ensures { result ≡ (if self.is_memory then self else other) }
    {
        if self.is_memory { self } else { other }
    }

    #[inline(always)]
    fn append(self, _input: &I, _token_start: &I::Checkpoint) -> ContextError<C, A>
        ensures { result ≡ self }
    {
        self
    }

    #[inline(always)]
    fn is_backtrack(&self) -> bool {
        !self.is_memory
    }

    #[inline(always)]
    fn is_incomplete(&self) -> bool {
        false
    }

    #[inline(always)]
    fn is_memory(&self) -> bool {
        self.is_memory
    }

    #[inline(always)]
    fn needed(&self) -> Option<Needed> {
        None
    }

    #[inline(always)]
    fn into_inner(self) -> Result<ContextError<C, A>, ContextError<C, A>> {
        Ok(self)
    }

    ghost plain_kinds = { λ _ e. marked_kind-cases e.is_memory };
}

#[tactic(auto, using(crate::specs::Given::contexts_kept))]
impl<I: Stream, C: Drop, A: Allocator> AddContext<I, C, A> for ContextError<C, A> {
    ghost context_grows = { true };

    ghost context_gives = { λ _. kept_or_refused };

    ghost context_asks = { λ _ refused. refl };

    #[inline]
    fn add_context(
        mut self,
        alloc: A,
        _input: &I,
        _token_start: &I::Checkpoint,
        context: C,
    ) -> ContextError<C, A>
        ensures { IsPushed self context result }
    {
        self.push(alloc, context);
        self
    }
}

impl<I: Stream, C: Drop, A: Allocator, E: Drop> FromExternalError<I, E> for ContextError<C, A> {
    ghost external_grows = { false };

    ghost external_gives = { λ _. always_kept };

    ghost external_asks = { λ _ refused. refused };

    #[inline(always)]
    fn from_external_error(_input: &I, _error: E) -> ContextError<C, A> {
        ContextError::new()
    }
}
