//! The spans of the parts of a reply.

ghost use Rattle.std.specs.Prelude.{◌≡◌, ◌≤◌, ◌+◌, ◌++◌, ◌∷◌, List, length, pos, ℕ};
ghost use Rattle.format_resp.specs.Parts.{IsBehindFeed, IsLine, NoFeed};
ghost use Rattle.format_resp.specs.Resp.{line_end};
ghost use Rattle.format_resp.specs.declared.reply.Protocol.{Protocol};
ghost use Rattle.exported.specs.Resp.{HasFields, HasNumber, HasText, IsReply, IsShown, number_of};
ghost use Rattle.exported.specs.Span.{EndsWith, StandsAt};

use crate::resp::{
    NONE, RESP_ARRAY, RESP_ATTRIBUTES, RESP_BIG_NUMBER, RESP_BOOLEAN, RESP_BULK, RESP_BULK_ERROR,
    RESP_DOUBLE, RESP_ERROR, RESP_INTEGER, RESP_MAP, RESP_NULL, RESP_NULL_ARRAY, RESP_NULL_BULK,
    RESP_PUSH, RESP_SET, RESP_SIMPLE, RESP_VERBATIM, RespValue,
};
use crate::span::{Span, first_of};
use format_resp::reply;
use std::alloc::Global;

/// Returns the bytes after the first line feed.
fn skip_line<'i>(bytes: &'i [u8]) -> &'i [u8]
    ensures ends { EndsWith bytes.now result.now }
    ensures behind { (line rest : List ℕ) → NoFeed line → bytes.now ≡ line ++ 10 ∷ rest
        → result.now ≡ rest }
{
    let mut rest = bytes;
    'bytes: while let Some((first, more)) = rest.split_first() {
        rest = more;
        if *first == b'\n' {
            return rest;
        }
    }
    rest
}

/// Returns the number of a boolean.
fn of_boolean(boolean: bool) -> i64
    ensures { result ≡ number_of boolean }
{
    if boolean { 1 } else { 0 }
}

/// Describes a reply that has only a number.
fn number_at(kind: u32, number: i64, whole: usize) -> RespValue
    ensures number { HasNumber kind number result }
    ensures length { (result.length ≡ whole) × (result.error_offset ≡ 0) }
{
    RespValue {
        kind,
        number,
        length: whole,
        ..NONE
    }
}

/// Describes a reply whose text, of `count` bytes, follows its first byte.
fn line_at(kind: u32, count: usize, whole: usize) -> RespValue
    ensures text { (input text rest : List ℕ) → IsLine input text rest → length text ≡ count
        → HasText kind input rest text result }
    ensures length { (result.length ≡ whole) × (result.error_offset ≡ 0) }
{
    RespValue {
        kind,
        span: Span {
            offset: 1,
            length: count,
        },
        length: whole,
        ..NONE
    }
}

/// Describes a reply whose text, of `count` bytes, follows its first line.
fn string_at(kind: u32, bytes: &[u8], count: usize, whole: usize) -> RespValue
    ensures text { (text rest : List ℕ) → IsBehindFeed bytes.now (text ++ (line_end ++ rest))
        → length text ≡ count → HasText kind bytes.now rest text result }
    ensures length { (result.length ≡ whole) × (result.error_offset ≡ 0) }
{
    RespValue {
        kind,
        span: first_of(bytes, skip_line(bytes), count),
        length: whole,
        ..NONE
    }
}

/// Describes a reply of `count` elements, which follow its first line. `left` bytes follow them.
fn list_at(kind: u32, bytes: &[u8], count: usize, left: usize) -> RespValue
    ensures list { (elements rest : List ℕ) → IsBehindFeed bytes.now (elements ++ rest)
        → length rest ≡ left
        → HasFields result kind (pos 0) count × StandsAt bytes.now result.span elements rest }
    ensures length { left ≤ length bytes.now → (result.length + left ≡ length bytes.now)
        × (result.error_offset ≡ 0) }
{
    let behind = skip_line(bytes);
    RespValue {
        kind,
        elements: count,
        span: first_of(bytes, behind, behind.len().saturating_sub(left)),
        length: bytes.len().saturating_sub(left),
        ..NONE
    }
}

/// Returns the description of a reply at the start of `bytes`, after which `left` bytes remain.
pub fn reply_at(bytes: &[u8], found: &reply::Reply<&[u8], Global>, left: usize) -> RespValue
    ensures shown { (protocol : Protocol) (level : ℕ) (rest : List ℕ)
        → IsReply protocol level bytes.now found.now rest → length rest ≡ left
        → IsShown protocol level bytes.now rest found.now result }
    ensures length { left ≤ length bytes.now → (result.length + left ≡ length bytes.now)
        × (result.error_offset ≡ 0) }
{
    let length = bytes.len().saturating_sub(left);
    match found {
        reply::Reply::Simple(text) => line_at(RESP_SIMPLE, text.len(), length),
        reply::Reply::Error(text) => line_at(RESP_ERROR, text.len(), length),
        reply::Reply::Integer(number) => number_at(RESP_INTEGER, *number, length),
        reply::Reply::Bulk(text) => string_at(RESP_BULK, bytes, text.len(), length),
        reply::Reply::NullBulk => number_at(RESP_NULL_BULK, 0, length),
        reply::Reply::Array(list) => list_at(RESP_ARRAY, bytes, list.len(), left),
        reply::Reply::NullArray => number_at(RESP_NULL_ARRAY, 0, length),
        reply::Reply::Null => number_at(RESP_NULL, 0, length),
        reply::Reply::Boolean(boolean) => number_at(RESP_BOOLEAN, of_boolean(*boolean), length),
        reply::Reply::Double(text) => line_at(RESP_DOUBLE, text.len(), length),
        reply::Reply::BigNumber(text) => line_at(RESP_BIG_NUMBER, text.len(), length),
        reply::Reply::BulkError(text) => string_at(RESP_BULK_ERROR, bytes, text.len(), length),
        reply::Reply::Verbatim(text) => string_at(RESP_VERBATIM, bytes, text.len(), length),
        reply::Reply::Map(list) => list_at(RESP_MAP, bytes, list.len(), left),
        reply::Reply::Set(list) => list_at(RESP_SET, bytes, list.len(), left),
        reply::Reply::Push(list) => list_at(RESP_PUSH, bytes, list.len(), left),
        reply::Reply::Attributed(list) => list_at(RESP_ATTRIBUTES, bytes, list.len(), left),
    }
}
