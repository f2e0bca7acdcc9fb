//! Want of memory where a list grows, as an error of a parser.
ghost use Rattle.std.specs.Prelude.{◌≡◌, MatchResult, None, Option, Some};
ghost use Rattle.streams.specs.Input.{Remains};
ghost use Rattle.streams.specs.Kind.{memory};
ghost use Rattle.stream_errors.specs.Fault.{IsFaultAt};
ghost use Rattle.stream_errors.specs.Growth.{grown};

use crate::fault::{ParseError, ParseFault};
use crate::parser_error::ParserError;
use std::alloc::{AllocError, AllocFailed};
use streams::stream::Stream;

/// The result of a growth, with its error as one of a parser. winnow has no such trait, since it
/// ends the process if an allocation fails.
///
/// It is not a `From`: with a second one, `?` could not determine the error type of the parser
/// before it.
///
/// ```
/// let mut list = Vec::new(alloc);
/// let grown: Result<(), ErrMode<EmptyError>> = list.push(b'a').or_no_memory(&"12");
/// assert_eq!(rt; grown, Ok(()));
/// assert_eq!(rt; list.as_slice(), b"a".as_slice());
/// ```
pub trait OrNoMemory<T>: Sized {
    // The value, unless memory allocation failed.
    ghost answered: { Self → Option T };

    /// Returns the value, or an out-of-memory error at the offset of `input` if an allocation
    /// failed.
    fn or_no_memory<I: Stream, E: ParserError<I>>(self, input: &I) -> Result<T, E>
        ensures { MatchResult result (λ value. answered self ≡ Some value)
            (λ error. (answered self ≡ None) × (E.kind error ≡ memory)) };

    /// Returns the value, or an out-of-memory error of a whole parse at the offset of `input` if
    /// an allocation failed. `start` must be an earlier position of this input.
    ///
    /// ```
    /// let text = "12";
    /// let mut list = Vec::new(alloc);
    /// let grown: Result<(), ParseFault<&str, EmptyError>> =
    ///     list.push(b'a').or_fault(text, text.checkpoint());
    /// assert_eq!(rt; grown, Ok(()));
    /// ```
    fn or_fault<I: Stream, E: ParserError<I>>(
        self,
        input: I,
        start: I::Checkpoint,
    ) -> Result<T, ParseFault<I, E>>
        requires { Remains (I.view input).left (I.seen start) }
        ensures { MatchResult result (λ value. answered self ≡ Some value)
            (λ fault. (answered self ≡ None) × IsFaultAt I.view I.reading.units E.kind
            (I.seen start) (I.view input) memory fault) }
    {
        match self.or_no_memory(&input) {
            Ok(value) => Ok(value),
            Err(inner) => Err(ParseFault::Invalid(ParseError::new(input, start, inner))),
        }
    }
}

impl<T> OrNoMemory<T> for Result<T, AllocError> {
    ghost answered = { λ r. grown r };

    #[inline(always)]
    fn or_no_memory<I: Stream, E: ParserError<I>>(self, input: &I) -> Result<T, E> {
        match self {
            Ok(value) => Ok(value),
            Err(_error) => Err(E::no_memory(input)),
        }
    }
}

impl<T, V: Drop> OrNoMemory<T> for Result<T, AllocFailed<V>> {
    ghost answered = { λ r. grown r };

    #[inline(always)]
    fn or_no_memory<I: Stream, E: ParserError<I>>(self, input: &I) -> Result<T, E> {
        match self {
            Ok(value) => Ok(value),
            Err(_unstored) => Err(E::no_memory(input)),
        }
    }
}
