//! The error of a control.
ghost use Rattle.std.specs.Prelude.{◌≡◌, false};
ghost use Rattle.stream_errors.specs.Control.{control_kind, control_kind-cases};
ghost use Rattle.stream_errors.specs.Form.{plain};
ghost use Rattle.stream_errors.specs.Given.{always_kept};

use crate::context::AddContext;
use crate::external::FromExternalError;
use crate::has_kind::HasKind;
use crate::parser_error::ParserError;
use std::alloc::Allocator;
use streams::needed::Needed;
use streams::stream::Stream;

/// A plain error of a parser that only tests whether the input starts with something, as the
/// control character of an escape does.
///
/// ```
/// assert!(rt; ParserError::<&[u8]>::is_backtrack(&ControlError::Invalid));
/// assert!(rt; ParserError::<&[u8]>::is_memory(&ControlError::NoMemory));
/// ```
#[derive(Clone, Copy, Debug, PartialEq, Eq)]
pub enum ControlError {
    /// The input does not start with it: the error backtracks.
    Invalid,
    /// Memory allocation failed.
    NoMemory,
}

impl HasKind for ControlError {
    ghost kind = { control_kind };

    ghost form = { plain };
}

impl<I: Stream> ParserError<I> for ControlError {
    type Inner = ControlError;

    ghost inner_kind = { control_kind };

    ghost or_grows = { λ _ _. ⊥ };

    ghost append_grows = { λ _. ⊥ };

    #[inline(always)]
    fn from_input(_input: &I) -> ControlError {
        ControlError::Invalid
    }

    #[inline(always)]
    fn assert(_input: &I, _message: &'static str) -> ControlError {
        ControlError::Invalid
    }

    #[inline(always)]
    fn incomplete(_input: &I, _needed: Needed) -> ControlError {
        ControlError::Invalid
    }

    #[inline(always)]
    fn no_memory(_input: &I) -> ControlError {
        ControlError::NoMemory
    }

    #[inline(always)]
    fn or(self, other: ControlError) -> ControlError {
        match self {
            ControlError::Invalid => other,
            ControlError::NoMemory => ControlError::NoMemory,
        }
    }

    #[inline(always)]
    fn append(self, _input: &I, _token_start: &I::Checkpoint) -> ControlError
        ensures { result ≡ self }
    {
        self
    }

    #[inline(always)]
    fn is_backtrack(&self) -> bool {
        match self {
            ControlError::Invalid => true,
            ControlError::NoMemory => false,
        }
    }

    #[inline(always)]
    fn is_incomplete(&self) -> bool {
        match self {
            ControlError::Invalid => false,
            ControlError::NoMemory => false,
        }
    }

    #[inline(always)]
    fn is_memory(&self) -> bool {
        match self {
            ControlError::Invalid => false,
            ControlError::NoMemory => true,
        }
    }

    #[inline(always)]
    fn needed(&self) -> Option<Needed> {
        match self {
            ControlError::Invalid => None,
            ControlError::NoMemory => None,
        }
    }

    #[inline(always)]
    fn into_inner(self) -> Result<ControlError, ControlError> {
        Ok(self)
    }

    ghost plain_kinds = { λ _ e. control_kind-cases e };
}

#[tactic(auto, using(crate::specs::Given::contexts_kept))]
impl<I: Stream, C: Drop, A: Allocator> AddContext<I, C, A> for ControlError {
    ghost context_grows = { false };

    ghost context_gives = { λ _. always_kept };

    ghost context_asks = { λ _ refused. refused };

    #[inline(always)]
    fn add_context(
        self,
        _alloc: A,
        _input: &I,
        _token_start: &I::Checkpoint,
        _context: C,
    ) -> ControlError {
        match self {
            ControlError::Invalid => ControlError::Invalid,
            ControlError::NoMemory => ControlError::NoMemory,
        }
    }
}

impl<I: Stream, E: Drop> FromExternalError<I, E> for ControlError {
    ghost external_grows = { false };

    ghost external_gives = { λ _. always_kept };

    ghost external_asks = { λ _ refused. refused };

    #[inline(always)]
    fn from_external_error(_input: &I, _error: E) -> ControlError {
        ControlError::Invalid
    }
}
