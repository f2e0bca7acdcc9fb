//! The reader of replies.

ghost use Rattle.streams.specs.Bytes.{bytes_follow, bytes_reading};
ghost use Rattle.winnow_grammar.specs.InTurn.{First, Led};
ghost use Rattle.format_resp.specs.MustAsk.{ReadsOrMustAsk};
ghost use Rattle.format_resp.specs.Resp.{AfterSize, Any, Elements, LineContents, ReplyText};
ghost use Rattle.format_resp.specs.Resp.{SizeText, WithLineEnd};
ghost use Rattle.format_resp.specs.declared.marks.Mark.TheVariants as marks;
ghost use Rattle.format_resp.specs.declared.reply.Protocol.{Protocol};
ghost use Rattle.std.specs.Prelude.{ℕ};

use crate::kinds::{aggregate_reply, count_of, data_reply, line_reply};
use crate::leaves::{read_data, read_line, read_size};
use crate::marks::{AggregateMark, DataMark, LineMark, Mark, read_mark};
use crate::reply::{Protocol, Reply};
use std::alloc::Allocator;
use stream_errors::empty::EmptyError;
use stream_errors::growth::OrNoMemory;
use stream_errors::has_kind::HasKind;
use stream_errors::mode::ErrMode;
use stream_errors::parser_error::ParserError;
use streams::partial::Partial;
use streams::stream::Stream;

type Bytes = Partial<&'static [u8]>;

type Error = ErrMode<EmptyError>;

/// Parses the rest of a reply that consists of one line, after its first byte.
#[inline(always)]
fn read_on_line<'i, A: Allocator>(
    mark: LineMark,
    input: &mut Partial<&'i [u8]>,
) -> Result<Reply<&'i [u8], A>, ErrMode<EmptyError>>
    ensures { ReadsOrMustAsk bytes_reading bytes_follow ⟦<Error as HasKind>⟧.kind
        (First (WithLineEnd (LineContents Any mark))) (⟦<Bytes as Stream>⟧.view input.old) result
        (⟦<Bytes as Stream>⟧.view input.new) }
{
    let line = read_line(input)?;
    match line_reply(mark, line) {
        Some(reply) => Ok(reply),
        None => Err(ErrMode::from_input(input)),
    }
}

/// Parses the rest of a reply whose line gives a number of bytes, after its first byte.
#[inline(always)]
fn read_bytes<'i, A: Allocator>(
    mark: DataMark,
    input: &mut Partial<&'i [u8]>,
) -> Result<Reply<&'i [u8], A>, ErrMode<EmptyError>>
    ensures { (protocol : Protocol) (level : ℕ)
        → ReadsOrMustAsk bytes_reading bytes_follow ⟦<Error as HasKind>⟧.kind
        (First (Led SizeText (AfterSize (Elements protocol level) (marks.Data mark))))
        (⟦<Bytes as Stream>⟧.view input.old) result (⟦<Bytes as Stream>⟧.view input.new) }
{
    match read_size(input)? {
        None => match mark {
            DataMark::Dollar => Ok(Reply::NullBulk),
            _ => Err(ErrMode::from_input(input)),
        },
        Some(size) => {
            let bytes = read_data(size, input)?;
            match data_reply(mark, bytes) {
                Some(reply) => Ok(reply),
                None => Err(ErrMode::from_input(input)),
            }
        }
    }
}

/// A nesting depth that is safe on a stack of two megabytes. Reading a reply calls itself once for
/// each nested aggregate, and so does dropping it. With a greater depth, nested replies can
/// overflow the stack, which aborts the program, so the stack must be larger too.
///
/// ```
/// use format_resp::read::{SAFE_DEPTH, read_reply};
/// use format_resp::reply::Protocol;
/// use winnow::stream::Partial;
///
/// let mut input = Partial::new(b"~1\r\n*1\r\n#t\r\n".as_slice());
/// assert!(rt; read_reply(alloc, Protocol::Resp3, SAFE_DEPTH, &mut input).is_ok());
/// ```
pub const SAFE_DEPTH: usize = 128;

/// For how many elements an aggregate has room before one is read, at most: its size is what the
/// bytes say, and they may state one that they do not have.
const ROOM_AT_FIRST: usize = 64;

/// Parses the rest of an aggregate, after its first byte.
#[cycle(read)]
fn read_aggregate<'i, A: Allocator + Copy>(
    alloc: A,
    protocol: Protocol,
    level: usize,
    mark: AggregateMark,
    input: &mut Partial<&'i [u8]>,
) -> Result<Reply<&'i [u8], A>, ErrMode<EmptyError>>
    ensures { ReadsOrMustAsk bytes_reading bytes_follow ⟦<Error as HasKind>⟧.kind
        (First (Led SizeText (AfterSize (Elements protocol level) (marks.Aggregate mark))))
        (⟦<Bytes as Stream>⟧.view input.old) result (⟦<Bytes as Stream>⟧.view input.new) }
{
    match read_size(input)? {
        None => match mark {
            AggregateMark::Star => Ok(Reply::NullArray),
            _ => Err(ErrMode::from_input(input)),
        },
        Some(size) => match level.checked_sub(1) {
            None => Err(ErrMode::from_input(input)),
            Some(inner) => {
                let Some(count) = count_of(mark, size) else {
                    return Err(ErrMode::from_input(input));
                };
                let room = count.min(ROOM_AT_FIRST);
                let mut replies = Vec::with_capacity(alloc, room).or_no_memory(input)?;
                for _ in 0..count {
                    let reply = read_reply(alloc, protocol, inner, input)?;
                    replies.push(reply).or_no_memory(input)?;
                }
                Ok(aggregate_reply(mark, replies))
            }
        },
    }
}

/// Parses a reply of this version of the protocol, whose aggregates (in RESP2 these are arrays) are
/// nested at most `level` deep. Attributes and the reply that they belong to count as one
/// aggregate. Each level takes some of the stack: up to [`SAFE_DEPTH`] two megabytes suffice.
///
/// It succeeds if and only if the bytes start with such a reply, unless an allocation fails. On
/// complete input (a stream that is marked complete) the only errors are a backtrack and out of
/// memory. On partial input a reply holds for any continuation, and so does a backtrack; otherwise
/// it returns `Incomplete`, and the input must be read again from its start, with more bytes. It
/// may do so even if no continuation starts with a reply: `:abc` is rejected once its line ends.
///
/// ```
/// use format_resp::read::{SAFE_DEPTH, read_reply};
/// use format_resp::reply::{Protocol, Reply};
/// use winnow::stream::Partial;
///
/// let mut input = Partial::new(b"%1\r\n+key\r\n,1.5\r\n_".as_slice());
/// let reply = read_reply(alloc, Protocol::Resp3, SAFE_DEPTH, &mut input);
/// assert!(rt; matches!(reply, Ok(Reply::Map(both)) if both.len() == 2));
/// assert_eq!(rt; *input.as_inner(), b"_".as_slice());
/// let mut map = Partial::new(b"%1\r\n".as_slice());
/// assert!(rt; read_reply(alloc, Protocol::Resp2, SAFE_DEPTH, &mut map).is_err());
/// ```
#[cycle(read)]
pub fn read_reply<'i, A: Allocator + Copy>(
    alloc: A,
    protocol: Protocol,
    level: usize,
    input: &mut Partial<&'i [u8]>,
) -> Result<Reply<&'i [u8], A>, ErrMode<EmptyError>>
    ensures { ReadsOrMustAsk bytes_reading bytes_follow ⟦<Error as HasKind>⟧.kind
        (First (ReplyText protocol level)) (⟦<Bytes as Stream>⟧.view input.old) result
        (⟦<Bytes as Stream>⟧.view input.new) }
{
    match read_mark(protocol, input)? {
        Mark::Line(mark) => read_on_line(mark, input),
        Mark::Data(mark) => read_bytes(mark, input),
        Mark::Aggregate(mark) => read_aggregate(alloc, protocol, level, mark, input),
    }
}
