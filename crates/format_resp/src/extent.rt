//! An incremental scanner for the end of a reply in bytes that arrive in chunks.
//!
//! No byte is searched twice for a line ending, for any number of chunks, and those of a string are
//! not examined. So the time to find a reply is linear in its bytes. One call of
//! [`read_reply`](crate::read::read_reply) then reads it.
ghost use Rattle.format_resp.specs.Extents.{IsDataEnd, IsLessPart, IsExtentOf, IsPart, IsReply};
ghost use Rattle.format_resp.specs.Extents.{IsStringEnd, IsIncompleteIfNone, IsWithin};
ghost use Rattle.format_resp.specs.Extents.{MatchesAtStart, Passed, ReplyResult, count_after};
ghost use Rattle.format_resp.specs.Extents.{StopsWithin, data_after};
ghost use Rattle.format_resp.specs.Resp.{FitsFormat, Replies, ReplyText};
ghost use Rattle.format_resp.specs.declared.reply.Protocol.{Protocol};
ghost use Rattle.std.specs.Prelude.{◌≡◌, ◌≤◌, ◌+◌, ◌^◌, ◌++◌, ℕ, List, None, Some, length};
ghost use Rattle.std.specs.Prelude.{IfOk, IfSome, MatchBool, OnOk, suc};
ghost use Rattle.winnow_grammar.specs.InTurn.{First};

use crate::heads::{Head, Start, start_of};
use crate::lines::skip_line_ending;
use crate::reply::{Protocol, is_verbatim};
use std::alloc::Allocator;

/// Why bytes do not start with a reply, regardless of what follows.
///
/// ```
/// use format_resp::extent::{Reason, reply_length};
/// use format_resp::reply::Protocol;
///
/// let large = b":9223372036854775808\r\n".as_slice();
/// assert!(rt; matches!(reply_length(Protocol::Resp2, large),
///     Err(invalid) if invalid.reason == Reason::TooLarge));
/// ```
#[derive(Clone, Copy, Debug, PartialEq, Eq)]
pub enum Reason {
    /// A line is not the first line of a reply of this version of the protocol, and has no number
    /// that is only too large. Or a string is not followed by a line ending, or a verbatim string
    /// has no format.
    Malformed,
    /// An integer or a size does not fit 64 bits with a sign, or an aggregate has too many parts:
    /// 2^63 or more.
    TooLarge,
    /// Aggregates are nested deeper than the limit.
    TooDeep,
}

/// No continuation of the bytes starts with a reply.
///
/// ```
/// use format_resp::extent::{Extent, Reason};
/// use format_resp::reply::Protocol;
///
/// let invalid = Extent::new().advance(Protocol::Resp2, b"*2\r\n+OK\r\n:x\r\n");
/// assert!(rt; matches!(invalid,
///     Err(invalid) if invalid.reason == Reason::Malformed && invalid.offset == 9));
/// ```
#[derive(Clone, Copy, Debug, PartialEq, Eq)]
pub struct Invalid {
    /// The reason.
    pub reason: Reason,
    /// The offset of the part that is rejected: of the first line of a reply, which may be nested,
    /// or of the data of a string. The bytes before it start a reply.
    pub offset: usize,
}

/// The size of a string.
///
/// ```
/// use format_resp::extent::{Bulk, Extent};
/// use format_resp::reply::Protocol;
///
/// let mut extent = Extent::new();
/// assert!(rt; matches!(extent.advance(Protocol::Resp3, b"=8\r\ntxt:"), Ok(None)));
/// assert!(rt; extent.bulk == Some(Bulk { size: 8, verbatim: true }));
/// ```
#[derive(Clone, Copy, Debug, PartialEq, Eq)]
pub struct Bulk {
    /// How many bytes it has.
    pub size: usize,
    /// Whether it is a verbatim string.
    pub verbatim: bool,
}

/// The state of the search for the end of a reply. Its fields can be stored anywhere, and an extent
/// can be made of them again.
///
/// ```
/// use format_resp::extent::Extent;
/// use format_resp::reply::Protocol;
///
/// let mut extent = Extent::new();
/// let bytes = b"*2\r\n:1\r\n$3\r\nfoo\r\n+".as_slice();
/// assert!(rt; matches!(extent.advance(Protocol::Resp2, &bytes[..14]), Ok(None)));
/// assert!(rt; matches!(extent.advance(Protocol::Resp2, bytes), Ok(Some(17))));
/// ```
#[derive(Clone, Copy, Debug, PartialEq, Eq)]
pub struct Extent {
    /// How many bytes were passed.
    pub passed: usize,
    /// The number of bytes after the next one that are not part of a line ending.
    pub sought: usize,
    /// The size of the string that is expected next, if its size was passed.
    pub bulk: Option<Bulk>,
    /// The number of replies that are expected after that.
    pub replies: u128,
}

/// Returns data of `size` bytes, and the rest after their line ending.
#[inline(always)]
fn split_data<'i>(size: usize, bytes: &'i [u8]) -> Result<Option<(&'i [u8], &'i [u8])>, Reason>
    ensures { IsDataEnd size bytes.now result }
{
    match bytes.split_at_checked(size) {
        None => Ok(None),
        Some((text, behind)) => match skip_line_ending(behind) {
            Err(reason) => Err(reason),
            Ok(None) => Ok(None),
            Ok(Some(left)) => Ok(Some((text, left))),
        },
    }
}

/// Whether the bytes are those of such a string.
#[inline(always)]
fn fits(verbatim: bool, bytes: &[u8]) -> bool
    ensures { MatchBool result (FitsFormat verbatim bytes.now) (FitsFormat verbatim bytes.now → ⊥) }
{
    if verbatim { is_verbatim(bytes) } else { true }
}

/// Skips the data of a string and their line ending, and returns the rest.
#[inline(always)]
pub(crate) fn skip_string<'i>(bulk: Bulk, bytes: &'i [u8]) -> Result<Option<&'i [u8]>, Reason>
    ensures told { IsStringEnd bulk bytes.now result }
    ensures less { IsLessPart (length bytes.now) result }
{
    match split_data(bulk.size, bytes) {
        Err(reason) => Err(reason),
        Ok(None) => Ok(None),
        Ok(Some((text, left))) => {
            if fits(bulk.verbatim, text) {
                Ok(Some(left))
            } else {
                Err(Reason::Malformed)
            }
        }
    }
}

/// Returns the state after a line that is followed by `others` replies, or `None` on overflow.
#[inline(always)]
fn due_behind(head: Head, others: u128) -> Option<(Option<Bulk>, u128)>
    ensures some { IfSome result (λ due. due ≡ (data_after head, count_after head others)) }
    ensures none { result ≡ None → 2 ^ 128 ≤ count_after head others }
{
    match head {
        Head::Ends => Some((None, others)),
        Head::Data(bulk) => Some((Some(bulk), others)),
        Head::Replies(count) => match others.checked_add(count as u128) {
            Some(sum) => Some((None, sum)),
            None => None,
        },
    }
}

impl Extent {
    /// Nothing is passed.
    pub fn new() -> Extent
        ensures { (protocol : Protocol) (tokens : List ℕ) → IsExtentOf protocol result tokens }
    {
        Extent {
            passed: 0,
            sought: 0,
            bulk: None,
            replies: 1,
        }
    }

    /// Passes the data of a string.
    #[inline(always)]
    fn pass_data<'i>(
        &mut self,
        protocol: Protocol,
        bulk: Bulk,
        bytes: &[u8],
        rest: &'i [u8],
    ) -> Result<Option<&'i [u8]>, Invalid>
        requires within { self.old.passed + length rest.now ≡ length bytes.now }
        requires due { self.old.bulk ≡ Some bulk }
        ensures told { Passed protocol self.old bytes.now rest.now
            → IsPart protocol self.new bytes.now rest.now result }
        ensures less { IsLessPart (length rest.now) result }
        ensures within { IsWithin (length bytes.now) self.new result }
    {
        match skip_string(bulk, rest) {
            Err(reason) => Err(Invalid {
                reason,
                offset: self.passed,
            }),
            Ok(None) => Ok(None),
            Ok(Some(left)) => {
                *self = Extent {
                    passed: bytes.len() - left.len(),
                    sought: 0,
                    bulk: None,
                    replies: self.replies,
                };
                Ok(Some(left))
            }
        }
    }

    /// Passes the first line of a reply that is followed by `others` replies.
    #[inline(always)]
    fn pass_line<'i>(
        &mut self,
        protocol: Protocol,
        others: u128,
        bytes: &[u8],
        rest: &'i [u8],
    ) -> Result<Option<&'i [u8]>, Invalid>
        requires within { self.old.passed + length rest.now ≡ length bytes.now }
        requires due { self.old.bulk ≡ None }
        requires one { self.old.replies ≡ suc others }
        ensures told { Passed protocol self.old bytes.now rest.now
            → IsPart protocol self.new bytes.now rest.now result }
        ensures less { IsLessPart (length rest.now) result }
        ensures within { IsWithin (length bytes.now) self.new result }
    {
        match start_of(protocol, rest, self.sought) {
            Start::Never(reason) => Err(Invalid {
                reason,
                offset: self.passed,
            }),
            Start::Open(sought) => {
                self.sought = sought;
                Ok(None)
            }
            Start::Whole(head, left) => match due_behind(head, others) {
                None => Err(Invalid {
                    reason: Reason::TooLarge,
                    offset: self.passed,
                }),
                Some((bulk, replies)) => {
                    *self = Extent {
                        passed: bytes.len() - left.len(),
                        sought: 0,
                        bulk,
                        replies,
                    };
                    Ok(Some(left))
                }
            },
        }
    }

    /// Continues with `from`, the rest after the bytes passed.
    #[inline(always)]
    fn walk(
        &mut self,
        protocol: Protocol,
        bytes: &[u8],
        from: &[u8],
    ) -> Result<Option<usize>, Invalid>
        requires within { self.old.passed + length from.now ≡ length bytes.now }
        ensures told { Passed protocol self.old bytes.now from.now
            → ReplyResult protocol bytes.now result }
        ensures kept { OnOk result (Passed protocol self.old bytes.now from.now
            → (rest : List ℕ) × Passed protocol self.new bytes.now rest) }
        ensures wants { Passed protocol self.old bytes.now from.now
            → IfOk result (IsIncompleteIfNone protocol self.new bytes.now) }
        ensures within { StopsWithin (length bytes.now) result }
    {
        let mut rest = from;
        'parts: loop {
            match self.bulk {
                Some(bulk) => match self.pass_data(protocol, bulk, bytes, rest)? {
                    None => return Ok(None),
                    Some(left) => rest = left,
                },
                None => match self.replies.checked_sub(1) {
                    None => return Ok(Some(self.passed)),
                    Some(others) => match self.pass_line(protocol, others, bytes, rest)? {
                        None => return Ok(None),
                        Some(left) => rest = left,
                    },
                },
            }
        }
    }

    /// Searches for the end of the reply at the start of `bytes`, and returns the reply's length in
    /// bytes. `bytes` must be those of the previous call, possibly followed by more, and the
    /// version of the protocol the same. Bytes that were passed are not examined again, so the time
    /// of all calls together is linear in the bytes.
    ///
    /// It returns `None` if the reply is incomplete: a line has no end, or bytes of a string are
    /// missing. It returns [`Invalid`] if no continuation starts with a reply, with the reason and
    /// the offset: an invalid line is rejected at its end, and an invalid first byte at once. The
    /// nesting depth of aggregates is not checked, so the reason is never `TooDeep`;
    /// [`bounded_length`](crate::bounded::bounded_length) and
    /// [`read_reply`](crate::read::read_reply) check it once the reply is complete. The result is
    /// specified only if the extent is of these bytes: if it was used for others, the result may be
    /// wrong, but the length and the offset are at most the number of bytes.
    ///
    /// ```
    /// use format_resp::extent::Extent;
    /// use format_resp::read::{SAFE_DEPTH, read_reply};
    /// use format_resp::reply::Protocol;
    /// use winnow::stream::Partial;
    ///
    /// let bytes = b"$6\r\nfoobar\r\n:1\r\n".as_slice();
    /// let mut extent = Extent::new();
    /// assert!(rt; matches!(extent.advance(Protocol::Resp3, &bytes[..7]), Ok(None)));
    /// assert!(rt; matches!(extent.advance(Protocol::Resp3, bytes), Ok(Some(12))));
    /// let mut whole = Partial::new(&bytes[..12]);
    /// assert!(rt; read_reply(alloc, Protocol::Resp3, SAFE_DEPTH, &mut whole).is_ok());
    /// ```
    #[inline(always)]
    pub fn advance(&mut self, protocol: Protocol, bytes: &[u8]) -> Result<Option<usize>, Invalid>
        ensures told { IsExtentOf protocol self.old bytes.now
            → ReplyResult protocol bytes.now result }
        ensures kept { OnOk result (IsExtentOf protocol self.old bytes.now
            → (more : List ℕ) → IsExtentOf protocol self.new (bytes.now ++ more)) }
        ensures wants { IsExtentOf protocol self.old bytes.now
            → IfOk result (IsIncompleteIfNone protocol self.new bytes.now) }
        ensures within { StopsWithin (length bytes.now) result }
    {
        match bytes.get(self.passed..) {
            None => Ok(None),
            Some(rest) => self.walk(protocol, bytes, rest),
        }
    }
}

/// How many bytes the reply has that the bytes begin with, by one call of [`Extent::advance`].
///
/// ```
/// use format_resp::extent::reply_length;
/// use format_resp::reply::Protocol;
///
/// assert!(rt; matches!(reply_length(Protocol::Resp3, b"~1\r\n#t\r\n:1"), Ok(Some(8))));
/// assert!(rt; matches!(reply_length(Protocol::Resp3, b"~1\r\n#t"), Ok(None)));
/// assert!(rt; reply_length(Protocol::Resp2, b"~1\r\n").is_err());
/// ```
pub fn reply_length(protocol: Protocol, bytes: &[u8]) -> Result<Option<usize>, Invalid>
    ensures { ReplyResult protocol bytes.now result }
{
    Extent::new().advance(protocol, bytes)
}

/// Proves that the contract of [`Extent::advance`] also holds for the replies that
/// [`read_reply`](crate::read::read_reply) reads, at any depth and with any allocator: these are
/// replies at the start of the bytes.
///
/// ```
/// use format_resp::extent::a_reply_that_is_read_stands;
/// use std::alloc::Allocator;
///
/// fn of_an_allocator<A: Allocator>() {
///     a_reply_that_is_read_stands::<A>();
/// }
/// ```
pub fn a_reply_that_is_read_stands<A: Allocator>()
    ensures { (protocol : Protocol) (level : ℕ) (reply : Replies A) (tokens rest : List ℕ)
        → First (ReplyText protocol level) tokens reply rest
        → MatchesAtStart (IsReply protocol) tokens rest }
{}
