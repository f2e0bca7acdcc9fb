//! Combinators of children in order.
ghost use Rattle.std.specs.Prelude.{◌≡◌};
ghost use Rattle.winnow_comb.specs.Terminated.{terminated_parser};

use crate::combinator::impls::{Delimited, Preceded, SeparatedPair, Terminated};
use std::marker::PhantomData;

/// Runs `ignored` and then `parser`, and returns the output of `parser`.
///
/// The first error is returned unchanged, with the input where the failing parser left it.
///
/// ```
/// assert_eq!(rt; preceded('(', 'a').parse_peek("(a)"), Ok::<_, EmptyError>((")", 'a')));
/// let mut input = "(b)";
/// let answer: Result<_, ErrMode<EmptyError>> = preceded('(', 'a').parse_next(&mut input);
/// assert!(rt; matches!(answer, Err(ErrMode::Backtrack(_))));
/// assert_eq!(rt; input, "b)");
/// ```
#[inline(always)]
pub fn preceded<Input, Ignored, Output, Error, IgnoredParser, ParseNext>(
    ignored: IgnoredParser,
    parser: ParseNext,
) -> Preceded<IgnoredParser, ParseNext, Input, Ignored, Output, Error>
    ensures ignored { result.ignored ≡ ignored }
    ensures parser { result.parser ≡ parser }
{
    Preceded {
        ignored,
        parser,
        marker: PhantomData,
    }
}

/// Runs `parser` and then `ignored`, and returns the output of `parser`.
///
/// The first error is returned unchanged, with the input where the failing parser left it.
///
/// ```
/// assert_eq!(rt; terminated('a', ';').parse_peek("a;b"), Ok::<_, EmptyError>(("b", 'a')));
/// let mut input = "ab";
/// let answer: Result<_, ErrMode<EmptyError>> = terminated('a', ';').parse_next(&mut input);
/// assert!(rt; matches!(answer, Err(ErrMode::Backtrack(_))));
/// assert_eq!(rt; input, "b");
/// ```
#[inline(always)]
pub fn terminated<Input, Output, Ignored, Error, ParseNext, IgnoredParser>(
    parser: ParseNext,
    ignored: IgnoredParser,
) -> Terminated<ParseNext, IgnoredParser, Input, Output, Ignored, Error>
    ensures parser { terminated_parser result ≡ parser }
    ensures ignored { result.ignored ≡ ignored }
{
    Terminated {
        parser,
        ignored,
        marker: PhantomData,
    }
}

/// Runs `first`, `separator` and `second`, and returns the outputs of `first` and `second`.
///
/// The first error is returned unchanged, with the input where the failing parser left it.
///
/// Known as `separated_pair` in nom.
///
/// ```
/// let mut parser = separated_pair('a', '=', 'b');
/// assert_eq!(rt; parser.parse_peek("a=b"), Ok::<_, EmptyError>(("", ('a', 'b'))));
/// ```
#[inline(always)]
pub fn separated_pair<Input, Output1, Sep, Output2, Error, Parser1, SepParser, Parser2>(
    first: Parser1,
    separator: SepParser,
    second: Parser2,
) -> SeparatedPair<Parser1, SepParser, Parser2, Input, Output1, Sep, Output2, Error>
    ensures first { result.first ≡ first }
    ensures separator { result.separator ≡ separator }
    ensures second { result.second ≡ second }
{
    SeparatedPair {
        first,
        separator,
        second,
        marker: PhantomData,
    }
}

/// Runs `ignored1`, `parser` and `ignored2`, and returns the output of `parser`.
///
/// The first error is returned unchanged, with the input where the failing parser left it.
///
/// Known as `between` in other libraries.
///
/// ```
/// assert_eq!(rt; delimited('(', 'a', ')').parse_peek("(a);"), Ok::<_, EmptyError>((";", 'a')));
/// let mut input = "(a;";
/// let answer: Result<_, ErrMode<EmptyError>> = delimited('(', 'a', ')').parse_next(&mut input);
/// assert!(rt; matches!(answer, Err(ErrMode::Backtrack(_))));
/// assert_eq!(rt; input, ";");
/// ```
#[inline(always)]
pub fn delimited<
    Input,
    Ignored1,
    Output,
    Ignored2,
    Error,
    IgnoredParser1,
    ParseNext,
    IgnoredParser2,
>(
    ignored1: IgnoredParser1,
    parser: ParseNext,
    ignored2: IgnoredParser2,
) -> Delimited<IgnoredParser1, ParseNext, IgnoredParser2, Input, Ignored1, Output, Ignored2, Error>
    ensures ignored1 { result.ignored1 ≡ ignored1 }
    ensures parser { result.parser ≡ parser }
    ensures ignored2 { result.ignored2 ≡ ignored2 }
{
    Delimited {
        ignored1,
        parser,
        ignored2,
        marker: PhantomData,
    }
}
