//! Parsers of line endings, and of the text before one.
ghost use Rattle.std.specs.Prelude.{MatchResult, ⊤};
ghost use Rattle.parser_definitions.specs.Does.{Ran};
ghost use Rattle.parser_definitions.specs.LineEnding.{CrlfDoes, LineEndingDoes, NewlineDoes};
ghost use Rattle.parser_definitions.specs.LineEnding.{TabDoes};
ghost use Rattle.parser_definitions.specs.TillLineEnding.{TillLineEndingDoes};
ghost use Rattle.stream_errors.specs.Form.{answer_by};
ghost use Rattle.streams.specs.Input.{IsEndOf};
ghost use Rattle.winnow_ascii.specs.TillLineEnding.{LacksLineEnd, TakesLine};

use stream_errors::parser_error::ParserError;
use stream_searches::compare::{Compare, CompareResult};
use stream_searches::find::FindSlice;
use streams::needed::Needed;
use streams::stream::StreamIsPartial;
use winnow_core::literal::take_literal;
use winnow_core::parser::Parser;
use winnow_core::short::short;

/// Parses a carriage return and a line feed and returns their slice.
///
/// Backtracks without consuming input if they do not match. On partial input that is a proper
/// prefix of them, returns `Incomplete` with an unknown need without consuming input.
///
/// ```
/// let mut input = "\r\na";
/// assert_eq!(rt; crlf(&mut input), Ok::<_, EmptyError>("\r\n"));
/// assert_eq!(rt; input, "a");
/// let mut input = "\na";
/// assert!(rt; matches!(crlf(&mut input), Err(ErrMode::Backtrack(EmptyError { .. }))));
/// assert_eq!(rt; input, "\na");
/// ```
#[inline(always)]
pub fn crlf<Input, Error>(input: &mut Input) -> Result<Input::Slice, Error>
where
    Input: StreamIsPartial + Compare<&'static str>,
    Error: ParserError<Input>,
    ensures ran { Ran {S = ⊤} Input.reading (CrlfDoes Input.reading Input.spells) Error.form tt
        (Input.view input.old) (answer_by Error.kind result) tt (Input.view input.new) }
{
    take_literal(input, "\r\n")
}

/// Parses a line feed and returns it.
///
/// Backtracks without consuming input if the input does not start with a line feed. On empty
/// partial input, returns `Incomplete` with an unknown need.
///
/// ```
/// let mut input = "\na";
/// assert_eq!(rt; newline(&mut input), Ok::<_, EmptyError>('\n'));
/// assert_eq!(rt; input, "a");
/// let mut input = "a";
/// assert!(rt; matches!(newline(&mut input), Err(ErrMode::Backtrack(EmptyError { .. }))));
/// assert_eq!(rt; input, "a");
/// ```
#[inline(always)]
pub fn newline<Input, Error>(input: &mut Input) -> Result<char, Error>
where
    Input: StreamIsPartial + Compare<char>,
    Error: ParserError<Input>,
    ensures ran { Ran {S = ⊤} Input.reading (NewlineDoes Input.reading Input.spells) Error.form tt
        (Input.view input.old) (answer_by Error.kind result) tt (Input.view input.new) }
{
    '\n'.parse_next(input)
}

/// Parses a tab and returns it.
///
/// Backtracks without consuming input if the input does not start with a tab. On empty partial
/// input, returns `Incomplete` with an unknown need.
///
/// ```
/// let mut input = "\ta";
/// assert_eq!(rt; tab(&mut input), Ok::<_, EmptyError>('\t'));
/// assert_eq!(rt; input, "a");
/// let mut input = "a";
/// assert!(rt; matches!(tab(&mut input), Err(ErrMode::Backtrack(EmptyError { .. }))));
/// assert_eq!(rt; input, "a");
/// ```
#[inline(always)]
pub fn tab<Input, Error>(input: &mut Input) -> Result<char, Error>
where
    Input: StreamIsPartial + Compare<char>,
    Error: ParserError<Input>,
    ensures ran { Ran {S = ⊤} Input.reading (TabDoes Input.reading Input.spells) Error.form tt
        (Input.view input.old) (answer_by Error.kind result) tt (Input.view input.new) }
{
    '\t'.parse_next(input)
}

/// Parses a line feed, or a carriage return and a line feed, and returns their slice.
///
/// Backtracks without consuming input if neither matches. On partial input that is empty or only a
/// carriage return, returns `Incomplete` with an unknown need without consuming input.
///
/// ```
/// let mut input = "\na";
/// assert_eq!(rt; line_ending(&mut input), Ok::<_, EmptyError>("\n"));
/// assert_eq!(rt; input, "a");
/// let mut input = "\r\na";
/// assert_eq!(rt; line_ending(&mut input), Ok::<_, EmptyError>("\r\n"));
/// assert_eq!(rt; input, "a");
/// let mut input = "\ra";
/// assert!(rt; matches!(line_ending(&mut input), Err(ErrMode::Backtrack(EmptyError { .. }))));
/// assert_eq!(rt; input, "\ra");
/// ```
#[inline(always)]
pub fn line_ending<Input, Error>(input: &mut Input) -> Result<Input::Slice, Error>
where
    Input: StreamIsPartial + Compare<&'static str>,
    Error: ParserError<Input>,
    ensures ran { Ran {S = ⊤} Input.reading (LineEndingDoes Input.reading Input.spells) Error.form
        tt (Input.view input.old) (answer_by Error.kind result) tt (Input.view input.new) }
{
    match take_literal::<_, Input, Error>(input, "\n") {
        Ok(slice) => Ok(slice),
        Err(error) => {
            if error.is_backtrack() {
                crlf(input)
            } else {
                Err(error)
            }
        }
    }
}

/// Parses the input up to the first carriage return or line feed and returns its slice. The line
/// ending is not consumed.
///
/// On complete input without either, it takes all remaining input. On partial input without either,
/// it returns `Incomplete` with an unknown need without consuming input; if the error type has no
/// mode, it takes all remaining input there too.
///
/// If a carriage return without a line feed follows, it backtracks and leaves the input at the
/// carriage return. If partial input ends after the carriage return, it returns `Incomplete` with
/// an unknown need and also leaves the input there.
///
/// Known as `not_line_ending` in nom.
///
/// ```
/// let mut input = "ab\r\n";
/// assert_eq!(rt; till_line_ending(&mut input), Ok::<_, EmptyError>("ab"));
/// assert_eq!(rt; input, "\r\n");
/// let mut input = "ab";
/// assert_eq!(rt; till_line_ending(&mut input), Ok::<_, EmptyError>("ab"));
/// assert_eq!(rt; input, "");
/// let mut input = "ab\rc";
/// let answer: Result<_, ErrMode<EmptyError>> = till_line_ending(&mut input);
/// assert!(rt; matches!(answer, Err(ErrMode::Backtrack(_))));
/// assert_eq!(rt; input, "\rc");
/// ```
#[inline(always)]
pub fn till_line_ending<Input, Error>(input: &mut Input) -> Result<Input::Slice, Error>
where
    Input: StreamIsPartial + Compare<&'static str> + FindSlice<(char, char)>,
    Error: ParserError<Input>,
    ensures ran { Ran {S = ⊤} Input.reading
        (TillLineEndingDoes Input.reading Input.spells Input.sought) Error.form tt
        (Input.view input.old) (answer_by Error.kind result) tt (Input.view input.new) }
{
    let line = till_return_or_feed(input)?;
    match input.compare("\r") {
        CompareResult::Ok(_) => match input.compare("\r\n") {
            CompareResult::Ok(_) => Ok(line),
            CompareResult::Incomplete => Err(short(input, Needed::Unknown)),
            CompareResult::Error => Err(Error::from_input(input)),
        },
        CompareResult::Incomplete | CompareResult::Error => Ok(line),
    }
}

/// Takes the input up to the first carriage return or line feed. If neither occurs and the error
/// for missing input is a backtrack, it takes all remaining input.
#[inline(always)]
fn till_return_or_feed<I: StreamIsPartial + FindSlice<(char, char)>, E: ParserError<I>>(
    input: &mut I,
) -> Result<I::Slice, E>
    ensures ran { MatchResult result
        (λ slice. TakesLine I.sought I.reading E.form (I.view input.old) slice (I.view input.new))
        (λ error. LacksLineEnd I.sought E.form (I.view input.old) (E.kind error)
        (I.view input.new)) }
    ensures ends { IsEndOf I.reading (I.view input.new) (I.view input.old) }
{
    match input.find_slice(('\r', '\n')) {
        Some(range) => Ok(input.next_slice(range.start)),
        None => {
            let error: E = short(input, Needed::Unknown);
            if error.is_backtrack() {
                Ok(input.finish())
            } else {
                Err(error)
            }
        }
    }
}
