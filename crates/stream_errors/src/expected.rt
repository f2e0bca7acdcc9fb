//! Errors that keep what several branches of a choice expected.
ghost use Rattle.std.specs.Prelude.{◌≡◌, ◌⊎◌, ◌++◌, [], Ok, false, true, refl, ⊤};
ghost use Rattle.stream_errors.specs.ContextError.{listed};
ghost use Rattle.stream_errors.specs.Form.{marked_kind, plain};
ghost use Rattle.stream_errors.specs.Form.{marked_kind-cases};
ghost use Rattle.stream_errors.specs.Given.{always_kept, kept_or_refused};
ghost use Rattle.stream_errors.specs.Expected.{IsGiven, KeepsBoth, expected_of, refused_memory};
ghost use Rattle.stream_errors.specs.Expected.{within_of};

use crate::context::AddContext;
use crate::convert::ErrorConvert;
use crate::external::FromExternalError;
use crate::has_kind::HasKind;
use crate::parser_error::ParserError;
use crate::recoverable::FromRecoverableError;
use std::alloc::{Allocator, Global};
use std::error::Error;
use std::fmt;
use std::fmt::{Debug, Display};
use streams::needed::Needed;
use streams::stream::Stream;

/// A plain error that stores the items that several branches expected.
/// [`ContextError`](crate::context_error::ContextError) stores only the contexts of the
/// last one. winnow has no such type.
///
/// The first context of an error is the expected item, each later one an outer context. `alt`
/// joins the errors of its branches.
///
/// ```
/// let mut error = ExpectedError::new();
/// error.push(alloc, "on");
/// let mut other = ExpectedError::new();
/// other.push(alloc, "a number");
/// let mut both = error.joined(other);
/// both.push(alloc, "a value");
/// assert_eq!(rt; both.expected(), ["on", "a number"].as_slice());
/// assert_eq!(rt; both.within(), ["a value"].as_slice());
/// ```
#[derive(Debug, PartialEq, Drop)]
pub struct ExpectedError<C, A: Allocator = Global> {
    expected: Option<Vec<C, A>>,
    within: Option<Vec<C, A>>,
    is_memory: bool,
}

impl<C, A: Allocator> ExpectedError<C, A> {
    /// Returns a backtracking error without contexts.
    #[inline(always)]
    pub fn new() -> ExpectedError<C, A>
        ensures expected { expected_of result ≡ [] }
        ensures within { within_of result ≡ [] }
        ensures memory { refused_memory result ≡ false }
    {
        ExpectedError {
            expected: None,
            within: None,
            is_memory: false,
        }
    }

    /// Returns the expected items, those of the first branch first.
    pub fn expected(&self) -> &[C]
        ensures { result.now ≡ expected_of self.now }
    {
        match &self.expected {
            Some(expected) => expected.as_slice(),
            None => &[],
        }
    }

    /// In what it was expected, the innermost first.
    pub fn within(&self) -> &[C]
        ensures { result.now ≡ within_of self.now }
    {
        match &self.within {
            Some(within) => within.as_slice(),
            None => &[],
        }
    }

    /// Adds the expected item, or an outer context if there is an expected item already. If an
    /// allocation fails, the contexts are unchanged, and from then on the kind of the error is
    /// memory.
    pub fn push(&mut self, alloc: A, context: C)
    where
        C: Drop,
        ensures { IsGiven self.old context self.new }
    {
        if self.expected().is_empty() {
            let mut expected = Vec::new(alloc);
            if expected.push(context).is_err() {
                self.is_memory = true;
            }
            self.expected = Some(expected);
            return;
        }
        let mut within = match self.within.take() {
            Some(within) => within,
            None => Vec::new(alloc),
        };
        if within.push(context).is_err() {
            self.is_memory = true;
        }
        self.within = Some(within);
    }

    /// Joins the errors of two branches, with the expected items of both, as `or` does. Their outer
    /// contexts, each of one branch only, are dropped. If one of them is out of memory, the first
    /// that is is returned unchanged.
    pub fn joined(self, other: ExpectedError<C, A>) -> ExpectedError<C, A>
    where
        C: Drop,
        ensures { KeepsBoth self other result }
    {
        if self.is_memory {
            return self;
        }
        if other.is_memory {
            return other;
        }
        let (expected, is_memory) = listed_behind(self.expected, other.expected);
        let within = None;
        ExpectedError {
            expected,
            within,
            is_memory,
        }
    }
}

/// Concatenates two lists, and returns whether memory allocation failed.
fn listed_behind<C: Drop, A: Allocator>(
    first: Option<Vec<C, A>>,
    second: Option<Vec<C, A>>,
) -> (Option<Vec<C, A>>, bool)
    ensures { (listed result.0 ≡ listed first ++ listed second) ⊎ (result.1 ≡ true) }
{
    let Some(mut list) = first else {
        return (second, false);
    };
    let Some(mut more) = second else {
        return (Some(list), false);
    };
    let is_refused = list.append(&mut more).is_err();
    (Some(list), is_refused)
}

impl<C, A: Allocator> HasKind for ExpectedError<C, A> {
    ghost kind = { λ e. marked_kind e.is_memory };

    ghost form = { plain };
}

#[tactic(auto, using(crate::specs::Expected::joined_kind))]
impl<I: Stream, C: Drop, A: Allocator> ParserError<I> for ExpectedError<C, A> {
    type Inner = ExpectedError<C, A>;

    ghost inner_kind = { λ e. marked_kind e.is_memory };

    ghost or_grows = { λ _ _. ⊤ };

    ghost append_grows = { λ _. ⊥ };

    #[inline(always)]
    fn from_input(_input: &I) -> ExpectedError<C, A> {
        ExpectedError::new()
    }

    #[inline(always)]
    fn assert(_input: &I, _message: &'static str) -> ExpectedError<C, A> {
        ExpectedError::new()
    }

    #[inline(always)]
    fn incomplete(_input: &I, _needed: Needed) -> ExpectedError<C, A> {
        ExpectedError::new()
    }

    #[inline(always)]
    fn no_memory(_input: &I) -> ExpectedError<C, A> {
        ExpectedError {
            expected: None,
            within: None,
            is_memory: true,
        }
    }

    #[inline(always)]
    fn or(self, other: ExpectedError<C, A>) -> ExpectedError<C, A>
        ensures { KeepsBoth self other result }
    {
        self.joined(other)
    }

    #[inline(always)]
    fn append(self, _input: &I, _token_start: &I::Checkpoint) -> ExpectedError<C, A>
        ensures { result ≡ self }
    {
        self
    }

    #[inline(always)]
    fn is_backtrack(&self) -> bool {
        !self.is_memory
    }

    #[inline(always)]
    fn is_incomplete(&self) -> bool {
        false
    }

    #[inline(always)]
    fn is_memory(&self) -> bool {
        self.is_memory
    }

    #[inline(always)]
    fn needed(&self) -> Option<Needed> {
        None
    }

    #[inline(always)]
    fn into_inner(self) -> Result<ExpectedError<C, A>, ExpectedError<C, A>>
        ensures { result ≡ Ok self }
    {
        Ok(self)
    }

    ghost plain_kinds = { λ _ e. marked_kind-cases e.is_memory };
}

#[tactic(auto, using(crate::specs::Given::contexts_kept))]
impl<I: Stream, C: Drop, A: Allocator> AddContext<I, C, A> for ExpectedError<C, A> {
    ghost context_grows = { true };

    ghost context_gives = { λ _. kept_or_refused };

    ghost context_asks = { λ _ refused. refl };

    #[inline]
    fn add_context(
        mut self,
        alloc: A,
        _input: &I,
        _token_start: &I::Checkpoint,
        context: C,
    ) -> ExpectedError<C, A>
        ensures { IsGiven self context result }
    {
        self.push(alloc, context);
        self
    }
}

impl<I: Stream, C: Drop, A: Allocator, E: Drop> FromExternalError<I, E> for ExpectedError<C, A> {
    ghost external_grows = { false };

    ghost external_gives = { λ _. always_kept };

    ghost external_asks = { λ _ refused. refused };

    #[inline(always)]
    fn from_external_error(_input: &I, _error: E) -> ExpectedError<C, A> {
        ExpectedError::new()
    }
}

impl<C, A: Allocator> ErrorConvert<ExpectedError<C, A>> for ExpectedError<C, A> {
    #[inline(always)]
    fn convert(self) -> ExpectedError<C, A>
        ensures { result ≡ self }
    {
        self
    }

    ghost one_form = { refl };
}

impl<I: Stream, C, A: Allocator> FromRecoverableError<I, ExpectedError<C, A>>
    for ExpectedError<C, A> {
    ghost recoverable_grows = { false };

    #[inline(always)]
    fn from_recoverable_error(
        _token_start: &I::Checkpoint,
        _err_start: &I::Checkpoint,
        _input: &I,
        error: ExpectedError<C, A>,
    ) -> ExpectedError<C, A>
        ensures { result ≡ error }
    {
        error
    }
}

/// The expected items, and then the outer contexts, as `expected a switch, a number or a text in a
/// value`. Without an expected item it prints what [`EmptyError`](crate::empty::EmptyError)
/// does.
impl<C: Display, A: Allocator> Display for ExpectedError<C, A> {
    fn fmt<W: fmt::Write>(&self, f: &mut fmt::Formatter<W>) -> fmt::Result {
        if self.is_memory {
            return f.write_str("out of memory");
        }
        let mut left = self.expected().len();
        if left == 0 {
            return f.write_str("failed to parse");
        }
        let mut word = "expected ";
        for context in self.expected() {
            f.write_str(word)?;
            Display::fmt(context, f)?;
            left = left.saturating_sub(1);
            word = if left == 1 { " or " } else { ", " };
        }
        for context in self.within() {
            f.write_str(" in ")?;
            Display::fmt(context, f)?;
        }
        Ok(())
    }
}

impl<C: Display + Debug + Drop, A: Allocator + Debug> Error for ExpectedError<C, A> {}
