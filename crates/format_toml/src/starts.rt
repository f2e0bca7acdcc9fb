//! Where the statements of a document begin.
ghost use Rattle.std.specs.Prelude.{IfOk};
ghost use Rattle.std.specs.Str.{chars};
ghost use Rattle.format_toml.specs.Grammars.{Newline};
ghost use Rattle.format_toml.specs.Starts.{IsLine, IsPast, IsStart};

use crate::lines::{AnyLine, read_line};
use std::alloc::Allocator;
use stream_errors::empty::EmptyError;
use stream_errors::mode::ErrMode;
use stream_errors::parser_error::ParserError;
use winnow_comb::combinator::{alt, preceded};
use winnow_core::parser::Parser;
use winnow_grammar::rule::Rule;

/// Returns the text after a match of a parser, or `None` if it does not match. Fails with out of
/// memory if an allocation fails.
fn past<'i, O: Drop, P: Parser<&'i str, O, ErrMode<EmptyError>> + Drop>(
    parser: P,
    text: &'i str,
) -> Result<Option<&'i str>, ErrMode<EmptyError>>
    requires { P.can_parse parser × (P.terms.claim (P.state parser)).premise
        × (P.terms.claim (P.state parser)).backtracks }
    ensures { IfOk result (λ o. IsPast (P.terms.claim (P.state parser)).grammar (chars text.now) o) }
{
    let mut parser = parser;
    let mut rest = text;
    match parser.read(&mut rest) {
        Ok(_) => Ok(Some(rest)),
        Err(error) => {
            if ParserError::<&str>::is_backtrack(&error) {
                Ok(None)
            } else {
                Err(error)
            }
        }
    }
}

/// Returns the output of a match of a parser, and the text after it. Fails if it does not match, or
/// if memory allocation fails.
fn split<'i, O: Drop, P: Parser<&'i str, O, ErrMode<EmptyError>> + Drop>(
    parser: P,
    text: &'i str,
) -> Result<(O, &'i str), ErrMode<EmptyError>>
    requires { P.can_parse parser × (P.terms.claim (P.state parser)).premise
        × (P.terms.claim (P.state parser)).backtracks }
    ensures { IfOk result
        (λ both. (P.terms.claim (P.state parser)).grammar (chars text.now) both.0
        (chars both.1.now)) }
{
    let mut parser = parser;
    let mut rest = text;
    match parser.read(&mut rest) {
        Ok(output) => Ok((output, rest)),
        Err(error) => Err(error),
    }
}

/// Skips a line ending, and returns the remaining text, or `None` if there is no line ending.
fn past_newline<'i>(text: &'i str) -> Result<Option<&'i str>, ErrMode<EmptyError>>
    ensures { IfOk result (λ o. IsPast Newline (chars text.now) o) }
{
    past(alt(('\n', preceded('\r', '\n'))), text)
}

/// Returns whether the line at the start has a statement, and the text after the line. There always
/// is a line, so the only error is out of memory.
fn next_line<'i, A: Allocator + Copy>(
    alloc: A,
    level: usize,
    text: &'i str,
) -> Result<(bool, &'i str), ErrMode<EmptyError>>
    ensures { IfOk result (λ both. IsLine A level (chars text.now) both.0 (chars both.1.now)) }
{
    let line = AnyLine(alloc, level).by(|input: &mut &str| read_line(alloc, level, input));
    match split(line, text) {
        Ok((statement, end)) => Ok((statement.is_some(), end)),
        Err(error) => Err(error),
    }
}

/// Returns the text from the line on that has the statement with this number, counted from 0, or
/// `None` if there are fewer statements. Fails with out of memory if an allocation fails, which no
/// clause specifies. Each level uses some of the stack, as in
/// [`read_value`](crate::values::read_value).
///
/// A line that is blank or has only a comment has no statement. An array and a string may continue
/// over line endings, so a line is not always one line of the text.
///
/// ```
/// use format_toml::starts::statement_start;
///
/// let text = "a = [\n]\n\n# of b\nb = 1\n";
/// assert!(rt; statement_start(alloc, 1, text, 1) == Ok(Some("b = 1\n")));
/// assert!(rt; statement_start(alloc, 1, text, 2) == Ok(None));
/// ```
pub fn statement_start<'i, A: Allocator + Copy>(
    alloc: A,
    level: usize,
    text: &'i str,
    number: usize,
) -> Result<Option<&'i str>, ErrMode<EmptyError>>
    ensures { IfOk result (λ o. IsStart A level (chars text.now) number o) }
{
    let mut left = text;
    let mut before = number;
    loop {
        let (has_statement, end) = next_line(alloc, level, left)?;
        if has_statement && before == 0 {
            return Ok(Some(left));
        }
        match past_newline(end)? {
            None => return Ok(None),
            Some(behind) => left = behind,
        }
        if has_statement {
            before -= 1;
        }
    }
}
