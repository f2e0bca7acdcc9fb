//! A first line in use: what its parsers read, in words of bytes.
#![tactic(auto)]

ghost use Rattle.winnow.specs.Does.{Ran};
ghost use Rattle.std.specs.Prelude.{◌≡◌, true};
ghost use Rattle.example_callers.specs.FirstLine.{IsFirstLine};
ghost use Rattle.winnow.specs.Bytes.{bytes_input, bytes_reading};
ghost use Rattle.winnow.specs.Exact.{Reads};
ghost use Rattle.winnow.specs.Form.{answer_by, modal};
ghost use Rattle.winnow.specs.Longer.{SameOnLonger};

use winnow::Parser;
use winnow::ascii::impls::{LineEnding, TillLineEnding};
use winnow::combinator::terminated;
use winnow::error::{EmptyError, ErrMode, HasKind};
use winnow::stream::{Partial, Stream};

/// Parses the first line and its line ending, a line feed or CRLF, and returns the line without it.
/// Backtracks if there is no line ending, or if a carriage return without a line feed precedes it.
///
/// ```
/// use example_callers::first_line::first_line;
///
/// let mut input = b"one\r\ntwo".as_slice();
/// assert_eq!(rt; first_line(&mut input), Ok(b"one".as_slice()));
/// assert_eq!(rt; input, b"two".as_slice());
/// assert!(rt; first_line(&mut input).is_err());
/// ```
pub fn first_line<'i>(input: &mut &'i [u8]) -> Result<&'i [u8], EmptyError>
    ensures { Reads bytes_reading ⟦<EmptyError as HasKind>⟧.kind IsFirstLine
        (bytes_input input.old.now) result (bytes_input input.new.now) }
{
    terminated(TillLineEnding, LineEnding).read(input)
}

/// Text of which more may come, as clauses name it.
type Text = Partial<&'static str>;

/// Errors with a mode.
type Error = ErrMode<EmptyError>;

/// Parses the first line of partial text, and leaves its line ending.
///
/// If the result is final, every longer input, partial or complete, has the same line, or an error
/// of the same kind, and the rest is followed by the added text.
///
/// ```
/// use example_callers::first_line::first_line_partial;
/// use winnow::stream::Partial;
///
/// let mut input = Partial::new("one\r\ntwo");
/// assert_eq!(rt; first_line_partial(&mut input), Ok("one"));
/// assert_eq!(rt; *input.as_inner(), "\r\ntwo");
/// assert!(rt; first_line_partial(&mut Partial::new("one\r")).is_err());
/// ```
pub fn first_line_partial<'i>(input: &mut Partial<&'i str>) -> Result<&'i str, ErrMode<EmptyError>>
    requires is_partial { (⟦<Text as Stream>⟧.view input.old).status.cut ≡ true }
    ensures same { SameOnLonger
        (Ran ⟦<Text as Stream>⟧.reading
        ⟦<TillLineEnding as Parser<Text, &'static str, Error>>⟧.does modal)
        (λ line other. line.now ≡ other.now) tt (⟦<Text as Stream>⟧.view input.old)
        (answer_by ⟦<Error as HasKind>⟧.kind result) tt (⟦<Text as Stream>⟧.view input.new) }
{
    TillLineEnding.parse_cut(input)
}
