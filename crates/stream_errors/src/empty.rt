//! An error without information.
ghost use Rattle.std.specs.Prelude.{◌≡◌, if◌then◌else◌};
ghost use Rattle.stream_errors.specs.Form.{marked_kind, plain};
ghost use Rattle.stream_errors.specs.Form.{marked_kind-cases};

use crate::has_kind::HasKind;
use crate::parser_error::ParserError;
use streams::needed::Needed;
use streams::stream::Stream;

/// A plain error that stores only whether memory allocation failed.
///
/// ```
/// let error = EmptyError::from_input(&"ab");
/// assert!(rt; ParserError::<&str>::is_backtrack(&error));
/// ```
#[derive(Clone, Copy, Debug, PartialEq, Eq)]
pub struct EmptyError {
    is_memory: bool,
}

impl EmptyError {
    /// Whether memory allocation failed.
    #[inline(always)]
    pub(crate) fn wants_memory(&self) -> bool
        ensures { result ≡ self.now.is_memory }
    {
        self.is_memory
    }
}

impl HasKind for EmptyError {
    ghost kind = { λ e. marked_kind e.is_memory };

    ghost form = { plain };
}

impl<I: Stream> ParserError<I> for EmptyError {
    type Inner = EmptyError;

    ghost inner_kind = { λ e. marked_kind e.is_memory };

    ghost or_grows = { λ _ _. ⊥ };

    ghost append_grows = { λ _. ⊥ };

    #[inline(always)]
    fn from_input(_input: &I) -> EmptyError {
        EmptyError { is_memory: false }
    }

    #[inline(always)]
    fn assert(_input: &I, _message: &'static str) -> EmptyError {
        EmptyError { is_memory: false }
    }

    #[inline(always)]
    fn incomplete(_input: &I, _needed: Needed) -> EmptyError {
        EmptyError { is_memory: false }
    }

    #[inline(always)]
    fn no_memory(_input: &I) -> EmptyError {
        EmptyError { is_memory: true }
    }

    #[inline(always)]
    fn or(self, other: EmptyError) -> EmptyError
        ensures { result ≡ (if self.is_memory then self else other) }
    {
        if self.is_memory { self } else { other }
    }

    #[inline(always)]
    fn append(self, _input: &I, _token_start: &I::Checkpoint) -> EmptyError
        ensures { result ≡ self }
    {
        self
    }

    #[inline(always)]
    fn is_backtrack(&self) -> bool {
        !self.is_memory
    }

    #[inline(always)]
    fn is_incomplete(&self) -> bool {
        false
    }

    #[inline(always)]
    fn is_memory(&self) -> bool {
        self.is_memory
    }

    #[inline(always)]
    fn needed(&self) -> Option<Needed> {
        None
    }

    #[inline(always)]
    fn into_inner(self) -> Result<EmptyError, EmptyError> {
        Ok(self)
    }

    ghost plain_kinds = { λ _ e. marked_kind-cases e.is_memory };
}
