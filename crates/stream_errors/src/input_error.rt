//! An error with the input where it occurred.
ghost use Rattle.std.specs.Prelude.{◌≡◌, false, refl, if◌then◌else◌};
ghost use Rattle.stream_errors.specs.Form.{marked_kind, plain};
ghost use Rattle.stream_errors.specs.Form.{marked_kind-cases};

use crate::convert::{ConvertInput, ErrorConvert};
use crate::has_kind::HasKind;
use crate::parser_error::ParserError;
use streams::needed::Needed;
use streams::stream::Stream;

/// A plain error that keeps the input as it stood where the error arose.
///
/// ```
/// assert_eq!(rt; InputError::at("ab").input, "ab");
/// ```
#[derive(Clone, Copy, Debug, PartialEq, Eq)]
pub struct InputError<I> {
    /// The input where the error arose.
    pub input: I,
    is_memory: bool,
}

impl<I> InputError<I> {
    /// A backtracking error at this input.
    #[inline(always)]
    pub fn at(input: I) -> InputError<I>
        ensures { result ≡ record { input = input; is_memory = false } }
    {
        InputError {
            input,
            is_memory: false,
        }
    }

    /// Whether memory allocation failed.
    #[inline(always)]
    pub(crate) fn wants_memory(&self) -> bool
        ensures { result ≡ self.now.is_memory }
    {
        self.is_memory
    }
}

impl<I> HasKind for InputError<I> {
    ghost kind = { λ e. marked_kind e.is_memory };

    ghost form = { plain };
}

impl<I: Stream + Copy> ParserError<I> for InputError<I> {
    type Inner = InputError<I>;

    ghost inner_kind = { λ e. marked_kind e.is_memory };

    ghost or_grows = { λ _ _. ⊥ };

    ghost append_grows = { λ _. ⊥ };

    #[inline(always)]
    fn from_input(input: &I) -> InputError<I> {
        InputError::at(*input)
    }

    #[inline(always)]
    fn assert(input: &I, _message: &'static str) -> InputError<I> {
        InputError::at(*input)
    }

    #[inline(always)]
    fn incomplete(input: &I, _needed: Needed) -> InputError<I> {
        InputError::at(*input)
    }

    #[inline(always)]
    fn no_memory(input: &I) -> InputError<I> {
        InputError {
            input: *input,
            is_memory: true,
        }
    }

    #[inline(always)]
    fn or(self, other: InputError<I>) -> InputError<I>
        ensures { result ≡ (if self.is_memory then self else other) }
    {
        if self.is_memory { self } else { other }
    }

    #[inline(always)]
    fn append(self, _input: &I, _token_start: &I::Checkpoint) -> InputError<I>
        ensures { result ≡ self }
    {
        self
    }

    #[inline(always)]
    fn is_backtrack(&self) -> bool {
        !self.is_memory
    }

    #[inline(always)]
    fn is_incomplete(&self) -> bool {
        false
    }

    #[inline(always)]
    fn is_memory(&self) -> bool {
        self.is_memory
    }

    #[inline(always)]
    fn needed(&self) -> Option<Needed> {
        None
    }

    #[inline(always)]
    fn into_inner(self) -> Result<InputError<I>, InputError<I>> {
        Ok(self)
    }

    ghost plain_kinds = { λ _ e. marked_kind-cases e.is_memory };
}

impl<I: ConvertInput<J>, J> ErrorConvert<InputError<J>> for InputError<I> {
    #[inline(always)]
    fn convert(self) -> InputError<J>
        ensures kind { marked_kind result.is_memory ≡ marked_kind self.is_memory }
        ensures input { I.converts self.input result.input }
    {
        InputError {
            input: self.input.convert_input(),
            is_memory: self.is_memory,
        }
    }

    ghost one_form = { refl };
}
