//! All replies in a reply as a list of nodes in a buffer of the caller, in one pass and without
//! allocating.
//!
//! [`write_nodes`] writes the node of the reply, and after it those of its elements, in the order
//! of the bytes: an aggregate precedes its elements, and these precede its next sibling. Each node
//! has its kind, its number or the offsets of its bytes, and the index of the node after everything
//! in it, so that a caller skips an aggregate in one step.
ghost use Rattle.std.specs.Prelude.{◌≡◌, ◌≤◌, ◌<◌, ◌+◌, ℕ, IfOk, IfSome, length};
ghost use Rattle.winnow_grammar.specs.InTurn.{First};
ghost use Rattle.format_resp.specs.Bounded.{BoundedResult, IsPassed, IsPassedEach, IsStringPassed};
ghost use Rattle.format_resp.specs.Heads.{HeadText};
ghost use Rattle.format_resp.specs.Nodes.{HasNodes, length_in};
ghost use Rattle.format_resp.specs.Writing.{ReplyNodes, RowNodes, WritesUpTo};
ghost use Rattle.format_resp.specs.declared.heads.Head.TheVariants as heads;
ghost use Rattle.format_resp.specs.declared.reply.Protocol.{Protocol};

use crate::entries::{ended_node, kind_at, of_bytes, put};
use crate::extent::{Bulk, Invalid, Reason, skip_string};
use crate::heads::{Head, Start, start_of};
use crate::node::RespNode;
use crate::reply::Protocol;

/// The size of a reply that is written as nodes.
///
/// ```
/// use format_resp::nodes::{NodesSize, write_nodes};
/// use format_resp::reply::Protocol;
///
/// let size = write_nodes(Protocol::Resp2, 1, b"*1\r\n:1\r\n+", &mut []);
/// assert_eq!(rt; size, Ok(Some(NodesSize { count: 2, length: 8 })));
/// ```
#[derive(Clone, Copy, Debug, PartialEq, Eq)]
pub struct NodesSize {
    /// The number of nodes.
    pub count: usize,
    /// The length of the reply in bytes.
    pub length: usize,
}

/// Where and why a reply is rejected.
#[derive(Clone, Copy)]
pub(crate) struct Stop<'i> {
    /// The reason.
    reason: Reason,
    /// The bytes from the rejected part on.
    rest: &'i [u8],
}

/// Skips the data of a string at the end of an input of `size` bytes, which are `left` after the
/// first line, and writes its node.
#[inline(always)]
fn pass_string<'i>(
    bulk: Bulk,
    size: usize,
    bytes: &[u8],
    left: &'i [u8],
    index: &mut usize,
    nodes: &mut [RespNode],
) -> Result<Option<&'i [u8]>, Stop<'i>>
    requires room { index.old + length bytes.now ≤ size }
    requires less { length left.now < length bytes.now }
    ensures told { IsStringPassed bulk left.now result }
    ensures nodes { (protocol : Protocol) (level : ℕ)
        → First (HeadText protocol) bytes.now (heads.Data bulk) left.now
        → WritesUpTo (ReplyNodes protocol level) size index.old bytes.now result index.new nodes.old
        nodes.new }
{
    match skip_string(bulk, left) {
        Err(reason) => Err(Stop { reason, rest: left }),
        Ok(None) => Ok(None),
        Ok(Some(rest)) => {
            let at = *index;
            let start = size - left.len();
            put(
                of_bytes(kind_at(bytes), 0, start, start + bulk.size, at + 1),
                at,
                nodes,
            );
            *index = at + 1;
            Ok(Some(rest))
        }
    }
}

/// Skips this number of replies at the end of an input of `size` bytes, and writes their nodes.
#[cycle(pass)]
fn pass_replies<'i>(
    protocol: Protocol,
    level: usize,
    count: usize,
    size: usize,
    bytes: &'i [u8],
    index: &mut usize,
    nodes: &mut [RespNode],
) -> Result<Option<&'i [u8]>, Stop<'i>>
    requires { index.old + length bytes.now ≤ size }
    ensures told { IsPassedEach protocol level count bytes.now result }
    ensures nodes { WritesUpTo (RowNodes protocol level count) size index.old bytes.now result
        index.new nodes.old nodes.new }
{
    let mut rest = bytes;
    for _ in 0..count {
        match pass_reply(protocol, level, size, rest, index, nodes) {
            Err(stop) => return Err(stop),
            Ok(None) => return Ok(None),
            Ok(Some(left)) => rest = left,
        }
    }
    Ok(Some(rest))
}

/// Skips an aggregate at the end of an input of `size` bytes, which is `left` after its first line,
/// and writes its nodes.
#[cycle(pass)]
#[inline(always)]
fn pass_aggregate<'i>(
    protocol: Protocol,
    level: usize,
    count: usize,
    size: usize,
    bytes: &'i [u8],
    left: &'i [u8],
    index: &mut usize,
    nodes: &mut [RespNode],
) -> Result<Option<&'i [u8]>, Stop<'i>>
    requires room { index.old + length bytes.now ≤ size }
    requires less { length left.now < length bytes.now }
    requires head { First (HeadText protocol) bytes.now (heads.Replies count) left.now }
    ensures told { IsPassed protocol level bytes.now result }
    ensures nodes { WritesUpTo (ReplyNodes protocol level) size index.old bytes.now result index.new
        nodes.old nodes.new }
{
    let Some(inner) = level.checked_sub(1) else {
        return Err(Stop {
            reason: Reason::TooDeep,
            rest: bytes,
        });
    };
    let at = *index;
    *index = at + 1;
    match pass_replies(protocol, inner, count, size, left, index, nodes) {
        Err(stop) => Err(stop),
        Ok(None) => Ok(None),
        Ok(Some(rest)) => {
            let (start, end) = (size - left.len(), size - rest.len());
            put(
                of_bytes(kind_at(bytes), count, start, end, *index),
                at,
                nodes,
            );
            Ok(Some(rest))
        }
    }
}

/// Skips a reply at the end of an input of `size` bytes, and writes its nodes.
#[cycle(pass)]
fn pass_reply<'i>(
    protocol: Protocol,
    level: usize,
    size: usize,
    bytes: &'i [u8],
    index: &mut usize,
    nodes: &mut [RespNode],
) -> Result<Option<&'i [u8]>, Stop<'i>>
    requires { index.old + length bytes.now ≤ size }
    ensures told { IsPassed protocol level bytes.now result }
    ensures nodes { WritesUpTo (ReplyNodes protocol level) size index.old bytes.now result index.new
        nodes.old nodes.new }
{
    match start_of(protocol, bytes, 0) {
        Start::Never(reason) => Err(Stop {
            reason,
            rest: bytes,
        }),
        Start::Open(_) => Ok(None),
        Start::Whole(head, left) => match head {
            Head::Ends => {
                let at = *index;
                put(ended_node(size, bytes, left, at), at, nodes);
                *index = at + 1;
                Ok(Some(left))
            }
            Head::Data(bulk) => pass_string(bulk, size, bytes, left, index, nodes),
            Head::Replies(count) => {
                pass_aggregate(protocol, level, count, size, bytes, left, index, nodes)
            }
        },
    }
}

/// Searches for the end of a reply, and writes its nodes and their number.
pub(crate) fn pass_nodes(
    protocol: Protocol,
    level: usize,
    bytes: &[u8],
    count: &mut usize,
    nodes: &mut [RespNode],
) -> Result<Option<usize>, Invalid>
    ensures told { BoundedResult protocol level bytes.now result }
    ensures nodes { IfOk result (λ found. IfSome found (λ length. HasNodes protocol level bytes.now
        (record { count = count.new; length = length }) nodes.old nodes.new)) }
{
    *count = 0;
    match pass_reply(protocol, level, bytes.len(), bytes, count, nodes) {
        Err(stop) => Err(Invalid {
            reason: stop.reason,
            offset: bytes.len() - stop.rest.len(),
        }),
        Ok(None) => Ok(None),
        Ok(Some(left)) => Ok(Some(bytes.len() - left.len())),
    }
}

/// Writes the nodes of the reply at the start of `bytes`, whose aggregates are nested at most
/// `level` deep, into the first entries of `nodes`, and returns how many there are, and the length
/// of the reply. If there are more nodes than entries, the first of them are written. Other entries
/// are unchanged. So a count of at most `nodes.len()` means that all nodes are there, and a larger
/// one is the required size.
///
/// It returns `None` if the reply is incomplete: a line has no end, or bytes of a string are
/// missing. The time is linear in the bytes, at any depth, and nothing is allocated. It calls
/// itself once for each nested aggregate: up to [`SAFE_DEPTH`](crate::read::SAFE_DEPTH) two
/// megabytes of stack suffice.
///
/// # Errors
///
/// Those of [`bounded_length`](crate::bounded::bounded_length). Without a reply, the contents of
/// `nodes` are unspecified.
///
/// ```
/// use format_resp::node::{NO_NODE, RESP_ARRAY, RESP_BULK, RESP_INTEGER};
/// use format_resp::nodes::{NodesSize, write_nodes};
/// use format_resp::reply::Protocol;
///
/// let bytes = b"*2\r\n*1\r\n:7\r\n$3\r\nfoo\r\n".as_slice();
/// let mut nodes = [NO_NODE; 8];
/// let size = write_nodes(Protocol::Resp2, 2, bytes, &mut nodes);
/// assert_eq!(rt; size, Ok(Some(NodesSize { count: 4, length: 21 })));
/// assert!(rt; nodes[0].kind == RESP_ARRAY && nodes[0].elements == 2 && nodes[0].next == 4);
/// // The first element has one node in it, and the second follows.
/// assert!(rt; nodes[1].kind == RESP_ARRAY && nodes[1].next == 3);
/// assert!(rt; nodes[2].kind == RESP_INTEGER && nodes[2].number == 7);
/// assert!(rt; nodes[3].kind == RESP_BULK && nodes[3].start == 16 && nodes[3].end == 19);
/// assert!(rt; write_nodes(Protocol::Resp2, 1, bytes, &mut nodes).is_err());
/// ```
pub fn write_nodes(
    protocol: Protocol,
    level: usize,
    bytes: &[u8],
    nodes: &mut [RespNode],
) -> Result<Option<NodesSize>, Invalid>
    ensures told { BoundedResult protocol level bytes.now (length_in result) }
    ensures nodes { IfOk result (λ found. IfSome found (λ size. HasNodes protocol level bytes.now
        size nodes.old nodes.new)) }
    ensures size { length nodes.new ≡ length nodes.old }
{
    let mut count = 0;
    match pass_nodes(protocol, level, bytes, &mut count, nodes) {
        Err(invalid) => Err(invalid),
        Ok(None) => Ok(None),
        Ok(Some(length)) => Ok(Some(NodesSize { count, length })),
    }
}
