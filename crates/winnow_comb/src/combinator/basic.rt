//! Combinators of one parser, and parsers that consume no input.
ghost use Rattle.parser_definitions.specs.Does.{Ran};
ghost use Rattle.parser_definitions.specs.Eof.{EmptyDoes, FailDoes};
ghost use Rattle.std.specs.Prelude.{⊤, ◌≡◌};
ghost use Rattle.stream_errors.specs.Form.{answer_by};

use crate::combinator::impls::{BacktrackErr, Cond, CutErr, Not, Opt, Peek};
use std::marker::PhantomData;
use stream_errors::parser_error::ParserError;
use streams::stream::Stream;

/// Runs `parser` and returns `None` if it backtracks.
///
/// If it backtracks, the input is reset. Its other errors (cut, incomplete and out of memory) are
/// returned unchanged, with the input where `parser` left it.
///
/// ```
/// assert_eq!(rt; opt('a').parse_peek("ab"), Ok::<_, EmptyError>(("b", Some('a'))));
/// assert_eq!(rt; opt('a').parse_peek("b"), Ok::<_, EmptyError>(("b", None)));
/// ```
#[inline(always)]
pub fn opt<Input, Output, Error, ParseNext>(
    parser: ParseNext,
) -> Opt<ParseNext, Input, Output, Error>
    ensures { result.parser ≡ parser }
{
    Opt {
        parser,
        marker: PhantomData,
    }
}

/// Runs `parser` if `condition` is true.
///
/// If `condition` is false it returns `None`, and `parser` is not run. Otherwise it returns the
/// output of `parser`; errors of `parser` are returned unchanged, with the input where `parser`
/// left it.
///
/// ```
/// assert_eq!(rt; cond(true, 'a').parse_peek("ab"), Ok::<_, EmptyError>(("b", Some('a'))));
/// assert_eq!(rt; cond(false, 'a').parse_peek("ab"), Ok::<_, EmptyError>(("ab", None)));
/// ```
#[inline(always)]
pub fn cond<Input, Output, Error, ParseNext>(
    condition: bool,
    parser: ParseNext,
) -> Cond<ParseNext, Input, Output, Error>
    ensures condition { result.condition ≡ condition }
    ensures parser { result.parser ≡ parser }
{
    Cond {
        condition,
        parser,
        marker: PhantomData,
    }
}

/// Runs `parser` without consuming input. Known as `look_ahead` and `rewind` too.
///
/// The input is reset whatever `parser` returns, an output or an error of any kind.
///
/// ```
/// assert_eq!(rt; peek('a').parse_peek("ab"), Ok::<_, EmptyError>(("ab", 'a')));
/// ```
#[inline(always)]
pub fn peek<Input, Output, Error, ParseNext>(
    parser: ParseNext,
) -> Peek<ParseNext, Input, Output, Error>
    ensures { result.parser ≡ parser }
{
    Peek {
        parser,
        marker: PhantomData,
    }
}

/// Succeeds if `parser` backtracks, without consuming input.
///
/// It returns `()` if `parser` backtracks, and backtracks if `parser` succeeds. The other errors of
/// `parser` (cut, incomplete and out of memory) are returned unchanged. In every case the input is
/// reset.
///
/// ```
/// assert_eq!(rt; not('a').parse_peek("b"), Ok::<_, EmptyError>(("b", ())));
/// let mut input = "a";
/// let answer: Result<_, ErrMode<EmptyError>> = not('a').parse_next(&mut input);
/// assert!(rt; matches!(answer, Err(ErrMode::Backtrack(_))));
/// assert_eq!(rt; input, "a");
/// ```
#[inline(always)]
pub fn not<Input, Output, Error, ParseNext>(
    parser: ParseNext,
) -> Not<ParseNext, Input, Output, Error>
    ensures { result.parser ≡ parser }
{
    Not {
        parser,
        marker: PhantomData,
    }
}

/// Turns a backtrack of `parser` into a cut, so that no other branch is tried.
///
/// Outputs and other errors (cut, incomplete and out of memory) are returned unchanged, with the
/// input where `parser` left it.
///
/// Known as `cut` in nom.
///
/// ```
/// let mut input = "b";
/// let answer: Result<_, ErrMode<EmptyError>> = cut_err('a').parse_next(&mut input);
/// assert!(rt; matches!(answer, Err(ErrMode::Cut(_))));
/// assert_eq!(rt; input, "b");
/// ```
#[inline(always)]
pub fn cut_err<Input, Output, Error, ParseNext>(
    parser: ParseNext,
) -> CutErr<ParseNext, Input, Output, Error>
    ensures { result.parser ≡ parser }
{
    CutErr {
        parser,
        marker: PhantomData,
    }
}

/// Turns a cut of `parser` into a backtrack, so that another branch may be tried.
///
/// Outputs and other errors (backtrack, incomplete and out of memory) are returned unchanged, with
/// the input where `parser` left it.
///
/// ```
/// let mut input = "b";
/// let answer: Result<_, ErrMode<EmptyError>> = backtrack_err(cut_err('a')).parse_next(&mut input);
/// assert!(rt; matches!(answer, Err(ErrMode::Backtrack(_))));
/// assert_eq!(rt; input, "b");
/// ```
#[inline(always)]
pub fn backtrack_err<Input, Output, Error, ParseNext>(
    parser: ParseNext,
) -> BacktrackErr<ParseNext, Input, Output, Error>
    ensures { result.parser ≡ parser }
{
    BacktrackErr {
        parser,
        marker: PhantomData,
    }
}

/// Succeeds without consuming input. Known as `value` and `success` too.
///
/// ```
/// let mut input = "a";
/// assert_eq!(rt; empty(&mut input), Ok::<_, EmptyError>(()));
/// assert_eq!(rt; input, "a");
/// ```
#[inline(always)]
pub fn empty<Input: Stream, Error: ParserError<Input>>(_input: &mut Input) -> Result<(), Error>
    ensures ran { Ran {S = ⊤} Input.reading EmptyDoes Error.form tt (Input.view _input.old)
        (answer_by Error.kind result) tt (Input.view _input.new) }
{
    Ok(())
}

/// Backtracks without consuming input. Known as `unexpected` too.
///
/// ```
/// let mut input = "a";
/// let answer: Result<_, ErrMode<EmptyError>> = fail::<_, u8, _>(&mut input);
/// assert!(rt; matches!(answer, Err(ErrMode::Backtrack(_))));
/// assert_eq!(rt; input, "a");
/// ```
#[inline(always)]
pub fn fail<Input: Stream, Output, Error: ParserError<Input>>(
    input: &mut Input,
) -> Result<Output, Error>
    ensures ran { Ran {S = ⊤} Input.reading FailDoes Error.form tt (Input.view input.old)
        (answer_by Error.kind result) tt (Input.view input.new) }
{
    Err(Error::from_input(input))
}
