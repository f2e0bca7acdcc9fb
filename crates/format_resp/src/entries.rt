//! The nodes of single replies.
ghost use Rattle.std.specs.Prelude.{◌≡◌, ◌≤◌, ◌<◌, ◌+◌, ◌^◌, ◌++◌, ◌∷◌, ⊤, ℕ, List};
ghost use Rattle.std.specs.Prelude.{length, set};
ghost use Rattle.winnow_grammar.specs.InTurn.{First};
ghost use Rattle.format_resp.specs.Heads.{HeadText};
ghost use Rattle.format_resp.specs.Nodes.{bytes_node, kind_by, number_node, truth_number};
ghost use Rattle.format_resp.specs.Resp.{Any, LineContents, Replies, byte_of, line_end};
ghost use Rattle.format_resp.specs.Writing.{IsSingleNode, IsLineNode};
ghost use Rattle.format_resp.specs.declared.heads.Head.TheVariants as heads;
ghost use Rattle.format_resp.specs.declared.marks.Mark.{Mark};
ghost use Rattle.format_resp.specs.declared.reply.Protocol.{Protocol};

use crate::kinds::boolean_of;
use crate::marks::{AggregateMark, DataMark, LineMark, Mark, any_mark};
use crate::node::{
    NO_NODE, RESP_ARRAY, RESP_ATTRIBUTES, RESP_BIG_NUMBER, RESP_BOOLEAN, RESP_BULK,
    RESP_BULK_ERROR, RESP_DOUBLE, RESP_ERROR, RESP_INTEGER, RESP_MAP, RESP_NULL, RESP_NULL_ARRAY,
    RESP_NULL_BULK, RESP_PUSH, RESP_SET, RESP_SIMPLE, RESP_VERBATIM, RespNode,
};
use crate::numbers::number_of;

/// Writes a node at an index, if there is room.
#[inline(always)]
pub(crate) fn put(node: RespNode, index: usize, nodes: &mut [RespNode])
    ensures { nodes.new ≡ set nodes.old index node }
{
    if index < nodes.len() {
        nodes[index] = node;
    }
}

/// Returns a node that has only a number.
#[inline(always)]
fn of_number(kind: u32, number: i64, next: usize) -> RespNode
    ensures { result ≡ number_node kind number next }
{
    RespNode {
        kind,
        number,
        next,
        ..NO_NODE
    }
}

/// Returns a node of bytes, or of elements.
#[inline(always)]
pub(crate) fn of_bytes(
    kind: u32,
    elements: usize,
    start: usize,
    end: usize,
    next: usize,
) -> RespNode
    ensures { result ≡ bytes_node kind elements start end next }
{
    RespNode {
        kind,
        number: 0,
        elements,
        start,
        end,
        next,
    }
}

/// Returns the kind of replies that start with a mark, unless they are null.
#[inline(always)]
fn kind_of(mark: Mark) -> u32
    ensures { result ≡ kind_by mark }
{
    match mark {
        Mark::Line(mark) => match mark {
            LineMark::Plus => RESP_SIMPLE,
            LineMark::Minus => RESP_ERROR,
            LineMark::Colon => RESP_INTEGER,
            LineMark::Underscore => RESP_NULL,
            LineMark::Hash => RESP_BOOLEAN,
            LineMark::Comma => RESP_DOUBLE,
            LineMark::Parenthesis => RESP_BIG_NUMBER,
        },
        Mark::Data(mark) => match mark {
            DataMark::Dollar => RESP_BULK,
            DataMark::Exclamation => RESP_BULK_ERROR,
            DataMark::Equals => RESP_VERBATIM,
        },
        Mark::Aggregate(mark) => match mark {
            AggregateMark::Star => RESP_ARRAY,
            AggregateMark::Percent => RESP_MAP,
            AggregateMark::Tilde => RESP_SET,
            AggregateMark::Greater => RESP_PUSH,
            AggregateMark::Bar => RESP_ATTRIBUTES,
        },
    }
}

/// Returns the kind of the reply that the bytes start with, unless it is null.
#[inline(always)]
pub(crate) fn kind_at(bytes: &[u8]) -> u32
    ensures { (mark : Mark) (text : List ℕ) → bytes.now ≡ byte_of mark ∷ text
        → result ≡ kind_by mark }
{
    match bytes.split_first() {
        None => RESP_SIMPLE,
        Some((byte, _)) => match any_mark(*byte) {
            None => RESP_SIMPLE,
            Some(mark) => kind_of(mark),
        },
    }
}

/// Returns the number of a boolean.
#[inline(always)]
fn number_at(boolean: bool) -> i64
    ensures { result ≡ truth_number boolean }
{
    if boolean { 1 } else { 0 }
}

/// Returns the node of a reply that consists of one line, whose contents are at `start`.
#[inline(always)]
fn line_node(mark: LineMark, line: &[u8], start: usize, index: usize) -> RespNode
    requires start { start + length line.now < 2 ^ 64 }
    requires index { index + 1 < 2 ^ 64 }
    ensures { (reply : Replies ⊤) → LineContents Any mark reply line.now
        → IsLineNode mark line.now start index result }
{
    let next = index + 1;
    match mark {
        LineMark::Colon => match number_of(line) {
            Some(number) => of_number(RESP_INTEGER, number, next),
            None => NO_NODE,
        },
        LineMark::Underscore => of_number(RESP_NULL, 0, next),
        LineMark::Hash => match boolean_of(line) {
            Some(boolean) => of_number(RESP_BOOLEAN, number_at(boolean), next),
            None => NO_NODE,
        },
        _ => of_bytes(
            kind_of(Mark::Line(mark)),
            0,
            start,
            start + line.len(),
            next,
        ),
    }
}

/// Returns the line at the start of the bytes, after whose ending `left` remains.
#[inline(always)]
fn line_before<'i>(bytes: &'i [u8], left: &[u8]) -> &'i [u8]
    ensures line { (line : List ℕ) → bytes.now ≡ line ++ (line_end ++ left.now)
        → result.now ≡ line }
    ensures less { length result.now ≤ length bytes.now }
{
    let size = bytes.len().saturating_sub(left.len()).saturating_sub(2);
    match bytes.split_at_checked(size) {
        Some((line, _)) => line,
        None => bytes,
    }
}

/// Returns the node of the reply at the end of an input of `size` bytes. The reply ends with its
/// first line, after which `left` remains.
#[inline(always)]
pub(crate) fn ended_node(size: usize, bytes: &[u8], left: &[u8], index: usize) -> RespNode
    requires { index + length bytes.now ≤ size }
    ensures { (protocol : Protocol) → First (HeadText protocol) bytes.now heads.Ends left.now
        → IsSingleNode protocol size index bytes.now left.now result }
{
    match bytes.split_first() {
        None => NO_NODE,
        Some((byte, text)) => match any_mark(*byte) {
            None => NO_NODE,
            Some(Mark::Line(mark)) => {
                line_node(mark, line_before(text, left), size - text.len(), index)
            }
            Some(Mark::Data(_mark)) => of_number(RESP_NULL_BULK, 0, index + 1),
            Some(Mark::Aggregate(_mark)) => of_number(RESP_NULL_ARRAY, 0, index + 1),
        },
    }
}
