//! The walk over the characters of a text.
ghost use Rattle.format_toml_errors.specs.Expected.{wanted};
ghost use Rattle.format_toml_errors.specs.Stop.{IsStopIn, ends_line};
ghost use Rattle.format_toml_errors.specs.Unclosed.{is_in_string, opened, start_after};
ghost use Rattle.format_toml_errors.specs.Unclosed.{text_of, unclosed_in};
ghost use Rattle.std.specs.Prelude.{◌≡◌, ◌∷◌, [], IfOk, MatchOption, true, false};
ghost use Rattle.std.specs.Str.{chars};

use crate::expected::{Expected, wanted, wanted_at};
use crate::modes::{Bracket, Mode, Step};
use crate::steps::next_step;
use std::alloc::{AllocError, Allocator};

/// Where a text is no longer a prefix of a document, and what is expected there.
///
/// ```
/// use format_toml_errors::expected::Expected;
/// use format_toml_errors::walk::{Stop, first_stop};
///
/// let stop = first_stop(alloc, 1, "a = [1 2]");
/// let unclosed = Some("[1 2]");
/// let wanted = Stop { rest: "2]", expected: Expected::CommaOrBracket, unclosed };
/// assert!(rt; matches!(stop, Ok(Some(stop)) if stop == wanted));
/// ```
#[derive(Clone, Copy, Debug, PartialEq, Eq, Drop)]
pub struct Stop<'i> {
    /// The text from that offset to the end.
    pub rest: &'i str,
    /// The input that is expected there.
    pub expected: Expected,
    /// The text from the start of the innermost string, array or inline table that is not closed
    /// before that offset, or `None` if all are closed.
    pub unclosed: Option<&'i str>,
}

/// Returns the first character and the text after it.
fn split_first<'i>(text: &'i str) -> Option<(char, &'i str)>
    ensures { MatchOption result (chars text.now ≡ [])
        (λ r. chars text.now ≡ r.0 ∷ chars r.1.now) }
{
    let mut characters = text.chars();
    let first = characters.next()?;
    Some((first, characters.as_str()))
}

/// Returns whether a line may end in this mode, in the bracket `held`.
fn ends_line(mode: Mode, held: Option<Bracket>) -> bool
    ensures { result ≡ ends_line mode held }
{
    matches!(next_step(mode, held, '\n'), Step::Ends)
}

/// Returns whether this mode is in a string.
fn is_in_string(mode: Mode) -> bool
    ensures { result ≡ is_in_string mode }
{
    match mode {
        Mode::Basic(_)
        | Mode::Escaped(_, _)
        | Mode::Literal(_)
        | Mode::Quote(_)
        | Mode::LongReturn(_)
        | Mode::LongEscape(_)
        | Mode::LongBlank => true,
        Mode::Long(_, quotes) => quotes < 3,
        _ => false,
    }
}

/// Returns the text from the start of the last string on, if the next character is that of `here`.
fn start_after<'i>(mode: Mode, start: &'i str, here: &'i str) -> &'i str
    ensures { chars result.now ≡ start_after mode (chars start.now) (chars here.now) }
{
    match mode {
        Mode::Quotes(_) => start,
        other if is_in_string(other) => start,
        _ => here,
    }
}

/// Returns the text from the start of the innermost string, array or inline table that is not
/// closed.
fn unclosed_in<'i>(mode: Mode, start: &'i str, outer: Option<&'i str>) -> Option<&'i str>
    ensures { text_of result ≡ unclosed_in mode (chars start.now) (text_of outer.entry) }
{
    if is_in_string(mode) {
        Some(start)
    } else {
        outer
    }
}

/// Returns what is expected first in a bracket.
fn opened(bracket: Bracket) -> Mode
    ensures { result ≡ opened bracket }
{
    match bracket {
        Bracket::Array => Mode::Item,
        Bracket::Table => Mode::FirstName,
    }
}

/// Returns the stop at the end of a text, or `None` if the text may end there.
fn at_end<'i>(
    mode: Mode,
    held: Option<Bracket>,
    rest: &'i str,
    unclosed: Option<&'i str>,
) -> Option<Stop<'i>>
    ensures { MatchOption result (ends_line mode held ≡ true)
        (λ stop. (ends_line mode held ≡ false) × (stop.rest.now ≡ rest.now)
        × (stop.expected ≡ wanted mode held) × (stop.unclosed ≡ unclosed.entry)) }
{
    if ends_line(mode, held) {
        return None;
    }
    Some(Stop {
        rest,
        expected: wanted(mode, held),
        unclosed,
    })
}

/// Returns where a text is no longer a prefix of a TOML document whose arrays and inline tables are
/// nested at most `level` deep: no document continues with the next character, by the steps of this
/// crate. If each character may occur where it does, this is the end of the text. Returns `None` if
/// the text may also end there.
///
/// Keys are not compared: a document may define one twice.
///
/// Fails if memory allocation fails: a byte and a reference are held for each open bracket.
///
/// ```
/// use format_toml_errors::expected::Expected;
/// use format_toml_errors::walk::first_stop;
///
/// let stop = first_stop(alloc, 1, "a = \"b");
/// assert!(rt; matches!(stop, Ok(Some(stop))
///     if stop.rest.is_empty() && stop.unclosed == Some("\"b")));
/// assert!(rt; matches!(first_stop(alloc, 1, "a = \"b\""), Ok(None)));
/// ```
pub fn first_stop<'i, A: Allocator + Copy>(
    alloc: A,
    level: usize,
    text: &'i str,
) -> Result<Option<Stop<'i>>, AllocError>
    ensures { IfOk result (λ stop. IsStopIn level (chars text.now) stop) }
{
    let mut brackets: Vec<Bracket, A> = Vec::new(alloc);
    let mut starts: Vec<&'i str, A> = Vec::new(alloc);
    let mut start = text;
    let mut mode = Mode::Line;
    let mut left = text;
    'characters: while let Some((first, more)) = split_first(left) {
        let held = brackets.last().copied();
        let unclosed = unclosed_in(mode, start, starts.last().copied());
        start = start_after(mode, start, left);
        match next_step(mode, held, first) {
            Step::Invalid => {
                let expected = wanted_at(mode, held, first);
                return Ok(Some(Stop {
                    rest: left,
                    expected,
                    unclosed,
                }));
            }
            Step::Goes(next) => mode = next,
            Step::Opens(bracket) => {
                if brackets.len() >= level {
                    let expected = Expected::NoDeeper;
                    return Ok(Some(Stop {
                        rest: left,
                        expected,
                        unclosed,
                    }));
                }
                brackets.push(bracket)?;
                starts.push(left)?;
                mode = opened(bracket);
            }
            Step::Closes => {
                let _ = brackets.pop();
                let _ = starts.pop();
                mode = Mode::After;
            }
            Step::Ends => mode = Mode::Line,
        }
        left = more;
    }
    let unclosed = unclosed_in(mode, start, starts.last().copied());
    Ok(at_end(mode, brackets.last().copied(), left, unclosed))
}
