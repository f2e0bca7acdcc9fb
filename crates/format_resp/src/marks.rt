//! The first bytes of replies.

ghost use Rattle.std.specs.Prelude.{◌≡◌, None, IfSome, MatchBool};
ghost use Rattle.streams.specs.Bytes.{bytes_follow, bytes_reading};
ghost use Rattle.winnow_grammar.specs.InTurn.{First};
ghost use Rattle.format_resp.specs.MustAsk.{ReadsOrMustAsk};
ghost use Rattle.format_resp.specs.Resp.{IsInProtocol, MarkText, byte_of};
ghost use Rattle.format_resp.specs.declared.marks.Mark.{Mark};
ghost use Rattle.format_resp.specs.declared.marks.Mark.TheVariants.{Aggregate};
ghost use Rattle.format_resp.specs.declared.reply.Protocol.TheVariants.{Resp2};

use crate::pieces::token;
use crate::reply::Protocol;
use stream_errors::empty::EmptyError;
use stream_errors::has_kind::HasKind;
use stream_errors::mode::ErrMode;
use stream_errors::parser_error::ParserError;
use streams::partial::Partial;
use streams::stream::Stream;

type Bytes = Partial<&'static [u8]>;

type Error = ErrMode<EmptyError>;

/// The first byte of a reply that is a line.
#[derive(Clone, Copy)]
pub(crate) enum LineMark {
    /// `+`, of a simple string.
    Plus,
    /// `-`, of an error.
    Minus,
    /// `:`, of an integer.
    Colon,
    /// `_`, of the null.
    Underscore,
    /// `#`, of a boolean.
    Hash,
    /// `,`, of a double.
    Comma,
    /// `(`, of a big number.
    Parenthesis,
}

/// The first byte of a reply whose line gives the number of bytes after it.
#[derive(Clone, Copy)]
pub(crate) enum DataMark {
    /// `$`, of a bulk string.
    Dollar,
    /// `!`, of a bulk error.
    Exclamation,
    /// `=`, of a verbatim string.
    Equals,
}

/// The first byte of a reply whose line gives the number of replies after it.
#[derive(Clone, Copy)]
pub(crate) enum AggregateMark {
    /// `*`, of an array.
    Star,
    /// `%`, of a map.
    Percent,
    /// `~`, of a set.
    Tilde,
    /// `>`, of a push.
    Greater,
    /// `|`, of attributes and the reply that they are of.
    Bar,
}

impl AggregateMark {
    /// The byte.
    pub(crate) fn byte(self) -> u8
        ensures { result ≡ byte_of (Aggregate self) }
    {
        match self {
            AggregateMark::Star => b'*',
            AggregateMark::Percent => b'%',
            AggregateMark::Tilde => b'~',
            AggregateMark::Greater => b'>',
            AggregateMark::Bar => b'|',
        }
    }
}

/// The first byte of a reply, which determines its kind.
#[derive(Clone, Copy)]
pub(crate) enum Mark {
    /// Of a line.
    Line(LineMark),
    /// A reply with a number of bytes.
    Data(DataMark),
    /// A reply with a number of replies.
    Aggregate(AggregateMark),
}

/// Returns the mark of a byte, if it starts a reply.
#[inline(always)]
pub(crate) fn any_mark(byte: u8) -> Option<Mark>
    ensures some { IfSome result (λ mark. byte ≡ byte_of mark) }
    ensures none { result ≡ None → (mark : Mark) → byte ≡ byte_of mark → ⊥ }
{
    match byte {
        b'+' => Some(Mark::Line(LineMark::Plus)),
        b'-' => Some(Mark::Line(LineMark::Minus)),
        b':' => Some(Mark::Line(LineMark::Colon)),
        b'_' => Some(Mark::Line(LineMark::Underscore)),
        b'#' => Some(Mark::Line(LineMark::Hash)),
        b',' => Some(Mark::Line(LineMark::Comma)),
        b'(' => Some(Mark::Line(LineMark::Parenthesis)),
        b'$' => Some(Mark::Data(DataMark::Dollar)),
        b'!' => Some(Mark::Data(DataMark::Exclamation)),
        b'=' => Some(Mark::Data(DataMark::Equals)),
        b'*' => Some(Mark::Aggregate(AggregateMark::Star)),
        b'%' => Some(Mark::Aggregate(AggregateMark::Percent)),
        b'~' => Some(Mark::Aggregate(AggregateMark::Tilde)),
        b'>' => Some(Mark::Aggregate(AggregateMark::Greater)),
        b'|' => Some(Mark::Aggregate(AggregateMark::Bar)),
        _ => None,
    }
}

/// Whether replies of RESP2 begin so.
#[inline(always)]
fn is_in_resp2(mark: Mark) -> bool
    ensures { MatchBool result (IsInProtocol Resp2 mark) (IsInProtocol Resp2 mark → ⊥) }
{
    match mark {
        Mark::Line(mark) => match mark {
            LineMark::Plus => true,
            LineMark::Minus => true,
            LineMark::Colon => true,
            LineMark::Underscore => false,
            LineMark::Hash => false,
            LineMark::Comma => false,
            LineMark::Parenthesis => false,
        },
        Mark::Data(mark) => match mark {
            DataMark::Dollar => true,
            DataMark::Exclamation => false,
            DataMark::Equals => false,
        },
        Mark::Aggregate(mark) => match mark {
            AggregateMark::Star => true,
            AggregateMark::Percent => false,
            AggregateMark::Tilde => false,
            AggregateMark::Greater => false,
            AggregateMark::Bar => false,
        },
    }
}

/// Whether replies of that version of the protocol begin so.
#[inline(always)]
pub(crate) fn is_in(protocol: Protocol, mark: Mark) -> bool
    ensures { MatchBool result (IsInProtocol protocol mark) (IsInProtocol protocol mark → ⊥) }
{
    match protocol {
        Protocol::Resp2 => is_in_resp2(mark),
        Protocol::Resp3 => true,
    }
}

/// Returns the mark of a byte, if it starts a reply of this version of the protocol.
#[inline(always)]
pub(crate) fn mark_of(protocol: Protocol, byte: u8) -> Option<Mark>
    ensures some { IfSome result (λ mark. IsInProtocol protocol mark × (byte ≡ byte_of mark)) }
    ensures none { result ≡ None → (mark : Mark) → IsInProtocol protocol mark
        → byte ≡ byte_of mark → ⊥ }
{
    let mark = any_mark(byte)?;
    if is_in(protocol, mark) {
        Some(mark)
    } else {
        None
    }
}

/// The first byte of a reply.
#[inline(always)]
pub(crate) fn read_mark<'i>(
    protocol: Protocol,
    input: &mut Partial<&'i [u8]>,
) -> Result<Mark, ErrMode<EmptyError>>
    ensures { ReadsOrMustAsk bytes_reading bytes_follow ⟦<Error as HasKind>⟧.kind
        (First (MarkText protocol)) (⟦<Bytes as Stream>⟧.view input.old) result
        (⟦<Bytes as Stream>⟧.view input.new) }
{
    let byte = token(input)?;
    match mark_of(protocol, byte) {
        Some(mark) => Ok(mark),
        None => Err(ErrMode::from_input(input)),
    }
}
