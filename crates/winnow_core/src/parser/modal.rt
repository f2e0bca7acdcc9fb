//! Parsers under errors with a mode.
use crate::parser::Parser;
use stream_errors::mode::ErrMode;
use stream_errors::parser_error::ParserError;
use streams::stream::Stream;

/// A parser under errors with a mode: each [`Parser`] over `ErrMode<E>` is one.
///
/// ```
/// fn taken_by<P: ModalParser<&'static str, char, EmptyError> + Drop>(mut parser: P) -> usize {
///     let mut input = "ab";
///     let _answer: Result<char, ErrMode<EmptyError>> = parser.parse_next(&mut input);
///     2 - input.len()
/// }
///
/// assert_eq!(rt; taken_by('a'), 1);
/// ```
pub trait ModalParser<I: Stream, O, E: ParserError<I>>: Parser<I, O, ErrMode<E>> {}

impl<P: Parser<I, O, ErrMode<E>>, I: Stream, O, E: ParserError<I>> ModalParser<I, O, E> for P {}
