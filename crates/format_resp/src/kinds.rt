//! The replies made of lines, bytes and lists, after the first byte.

ghost use Rattle.std.specs.List.{AllByRecursion};
ghost use Rattle.std.specs.Prelude.{◌≡◌, ◌≤◌, ◌+◌, ◌*◌, ◌^◌, ℕ, Bool, IfSome, None};
ghost use Rattle.format_resp.specs.Resp.{Any, BooleanText, Bytes, FitsFormat, IsLineByte};
ghost use Rattle.format_resp.specs.Resp.{LineContents, Replies, element_count, gathered};
ghost use Rattle.format_resp.specs.Resp.{has_format, shape_of};
ghost use Rattle.format_resp.specs.declared.marks.Mark.TheVariants.{Data};

use crate::marks::{AggregateMark, DataMark, LineMark};
use crate::numbers::{is_big_number, is_double, number_of};
use crate::reply::{Reply, is_verbatim};
use std::alloc::Allocator;

/// The boolean that a line is.
pub(crate) fn boolean_of(line: &[u8]) -> Option<bool>
    ensures some { IfSome result (λ b. BooleanText b line.now) }
    ensures none { result ≡ None → (b : Bool) → BooleanText b line.now → ⊥ }
{
    if line == b"t".as_slice() {
        return Some(true);
    }
    if line == b"f".as_slice() {
        return Some(false);
    }
    None
}

/// The reply that a line is.
pub(crate) fn line_reply<'i, A: Allocator>(
    mark: LineMark,
    line: &'i [u8],
) -> Option<Reply<&'i [u8], A>>
    ensures some { IfSome result (λ reply. AllByRecursion IsLineByte line.now
        → LineContents Any mark reply line.now) }
    ensures none { result ≡ None → (reply : Replies A) → LineContents Any mark reply line.now → ⊥ }
{
    match mark {
        LineMark::Plus => Some(Reply::Simple(line)),
        LineMark::Minus => Some(Reply::Error(line)),
        LineMark::Colon => match number_of(line) {
            Some(number) => Some(Reply::Integer(number)),
            None => None,
        },
        LineMark::Underscore => {
            if line.is_empty() {
                Some(Reply::Null)
            } else {
                None
            }
        }
        LineMark::Hash => match boolean_of(line) {
            Some(boolean) => Some(Reply::Boolean(boolean)),
            None => None,
        },
        LineMark::Comma => {
            if is_double(line) {
                Some(Reply::Double(line))
            } else {
                None
            }
        }
        LineMark::Parenthesis => {
            if is_big_number(line) {
                Some(Reply::BigNumber(line))
            } else {
                None
            }
        }
    }
}

/// Returns the reply of a mark and its bytes.
#[inline(always)]
pub(crate) fn data_reply<'i, A: Allocator>(
    mark: DataMark,
    bytes: &'i [u8],
) -> Option<Reply<&'i [u8], A>>
    ensures some { IfSome result (λ reply. (shape_of reply ≡ (Data mark, Bytes bytes.entry))
        × FitsFormat (has_format mark) bytes.now) }
    ensures none { result ≡ None → FitsFormat (has_format mark) bytes.now → ⊥ }
{
    match mark {
        DataMark::Dollar => Some(Reply::Bulk(bytes)),
        DataMark::Exclamation => Some(Reply::BulkError(bytes)),
        DataMark::Equals => {
            if is_verbatim(bytes) {
                Some(Reply::Verbatim(bytes))
            } else {
                None
            }
        }
    }
}

/// How many replies are in an aggregate, by its size, where that is a number of 64 bits: keys and
/// values are counted in twos, and after attributes the reply is that they are of.
#[inline(always)]
pub(crate) fn count_of(mark: AggregateMark, size: usize) -> Option<usize>
    ensures some { IfSome result (λ count. count ≡ element_count mark size) }
    ensures none { result ≡ None → 2 ^ 64 ≤ element_count mark size }
{
    match mark {
        AggregateMark::Star => Some(size),
        AggregateMark::Percent => size.checked_mul(2),
        AggregateMark::Tilde => Some(size),
        AggregateMark::Greater => Some(size),
        AggregateMark::Bar => size.checked_mul(2)?.checked_add(1),
    }
}

/// Half of it, where it is even.
fn half_of(count: usize) -> Option<usize>
    ensures some { IfSome result (λ half. count ≡ half * 2) }
    ensures none { result ≡ None → (half : ℕ) → count ≡ half * 2 → ⊥ }
{
    if count % 2 == 0 {
        Some(count / 2)
    } else {
        None
    }
}

/// Returns half of `count - 1`, if `count` is odd.
fn half_without_one(count: usize) -> Option<usize>
    ensures some { IfSome result (λ half. count ≡ half * 2 + 1) }
    ensures none { result ≡ None → (half : ℕ) → count ≡ half * 2 + 1 → ⊥ }
{
    if count % 2 == 1 {
        Some(count / 2)
    } else {
        None
    }
}

/// Returns the size of an aggregate of `count` replies, if there is one.
pub(crate) fn size_of(mark: AggregateMark, count: usize) -> Option<usize>
    ensures some { IfSome result (λ size. count ≡ element_count mark size) }
    ensures none { result ≡ None → (size : ℕ) → count ≡ element_count mark size → ⊥ }
{
    match mark {
        AggregateMark::Star => Some(count),
        AggregateMark::Percent => half_of(count),
        AggregateMark::Tilde => Some(count),
        AggregateMark::Greater => Some(count),
        AggregateMark::Bar => half_without_one(count),
    }
}

/// Returns the aggregate of a mark and its replies.
#[inline(always)]
pub(crate) fn aggregate_reply<'i, A: Allocator>(
    mark: AggregateMark,
    replies: Vec<Reply<&'i [u8], A>, A>,
) -> Reply<&'i [u8], A>
    ensures { result ≡ gathered mark replies.entry }
{
    match mark {
        AggregateMark::Star => Reply::Array(replies),
        AggregateMark::Percent => Reply::Map(replies),
        AggregateMark::Tilde => Reply::Set(replies),
        AggregateMark::Greater => Reply::Push(replies),
        AggregateMark::Bar => Reply::Attributed(replies),
    }
}
