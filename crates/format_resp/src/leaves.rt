//! The parts of replies.

ghost use Rattle.streams.specs.Bytes.{bytes_follow, bytes_reading};
ghost use Rattle.winnow_grammar.specs.InTurn.{First};
ghost use Rattle.format_resp.specs.MustAsk.{ReadsOrMustAsk};
ghost use Rattle.format_resp.specs.Resp.{DataText, LineText, SizeText};

use crate::numbers::size_line;
use crate::pieces::{line, tokens};
use stream_errors::empty::EmptyError;
use stream_errors::has_kind::HasKind;
use stream_errors::mode::ErrMode;
use stream_errors::parser_error::ParserError;
use streams::partial::Partial;
use streams::stream::Stream;

type Bytes = Partial<&'static [u8]>;

type Error = ErrMode<EmptyError>;

/// Parses a line and its line ending, and returns its bytes, which contain neither a carriage
/// return nor a line feed. The errors are those of [`read_reply`](crate::read::read_reply).
///
/// ```
/// use format_resp::leaves::read_line;
/// use winnow::stream::Partial;
///
/// let mut input = Partial::new(b"OK\r\n+".as_slice());
/// assert!(rt; matches!(read_line(&mut input), Ok(line) if line == b"OK".as_slice()));
/// assert_eq!(rt; *input.as_inner(), b"+".as_slice());
/// ```
#[inline(always)]
pub fn read_line<'i>(input: &mut Partial<&'i [u8]>) -> Result<&'i [u8], ErrMode<EmptyError>>
    ensures { ReadsOrMustAsk bytes_reading bytes_follow ⟦<Error as HasKind>⟧.kind (First LineText)
        (⟦<Bytes as Stream>⟧.view input.old) result (⟦<Bytes as Stream>⟧.view input.new) }
{
    line(input)
}

/// The size on the line that the input begins with, up to its end; none for -1, which stands for
/// null. Errors are those of [`read_reply`](crate::read::read_reply).
///
/// ```
/// use format_resp::leaves::read_size;
/// use winnow::stream::Partial;
///
/// assert!(rt; matches!(read_size(&mut Partial::new(b"6\r\n".as_slice())), Ok(Some(6))));
/// assert!(rt; matches!(read_size(&mut Partial::new(b"-1\r\n".as_slice())), Ok(None)));
/// assert!(rt; read_size(&mut Partial::new(b"+6\r\n".as_slice())).is_err());
/// ```
#[inline(always)]
pub fn read_size<'i>(input: &mut Partial<&'i [u8]>) -> Result<Option<usize>, ErrMode<EmptyError>>
    ensures { ReadsOrMustAsk bytes_reading bytes_follow ⟦<Error as HasKind>⟧.kind (First SizeText)
        (⟦<Bytes as Stream>⟧.view input.old) result (⟦<Bytes as Stream>⟧.view input.new) }
{
    let line = read_line(input)?;
    match size_line(line) {
        Some(size) => Ok(size),
        None => Err(ErrMode::from_input(input)),
    }
}

/// That many bytes, and a line end after them, which is read too. Errors are those of
/// [`read_reply`](crate::read::read_reply).
///
/// ```
/// use format_resp::leaves::read_data;
/// use winnow::stream::Partial;
///
/// let mut input = Partial::new(b"\r\n+\r\n:".as_slice());
/// assert!(rt; matches!(read_data(3, &mut input), Ok(data) if data == b"\r\n+".as_slice()));
/// assert_eq!(rt; *input.as_inner(), b":".as_slice());
/// ```
#[inline(always)]
pub fn read_data<'i>(
    size: usize,
    input: &mut Partial<&'i [u8]>,
) -> Result<&'i [u8], ErrMode<EmptyError>>
    ensures { ReadsOrMustAsk bytes_reading bytes_follow ⟦<Error as HasKind>⟧.kind
        (First (DataText size)) (⟦<Bytes as Stream>⟧.view input.old) result
        (⟦<Bytes as Stream>⟧.view input.new) }
{
    tokens(size, input)
}
