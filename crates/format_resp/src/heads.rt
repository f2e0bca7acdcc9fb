//! The first lines of replies, and their information about the bytes after them.
ghost use Rattle.format_resp.specs.Heads.{HasNumber, HeadLineText, IsLessStart, IsReason};
ghost use Rattle.format_resp.specs.Heads.{IsRejectedLine, IsStart};
ghost use Rattle.format_resp.specs.Numbers.{AreDigits};
ghost use Rattle.format_resp.specs.Resp.{IsLineByte, has_format};
ghost use Rattle.format_resp.specs.declared.heads.Head.TheVariants.{Ends};
ghost use Rattle.format_resp.specs.declared.marks.Mark.TheVariants as marks;
ghost use Rattle.std.specs.List.{AllByRecursion};
ghost use Rattle.std.specs.Prelude.{◌≡◌, IfErr, IfOk, drop, length, take};

use crate::extent::{Bulk, Reason};
use crate::kinds::{count_of, line_reply};
use crate::lines::{Line, line_of};
use crate::marks::{AggregateMark, DataMark, LineMark, Mark, mark_of};
use crate::numbers::{MOST, are_digits, is_big_number, size_line};
use crate::reply::{Protocol, Reply};
use std::alloc::Global;

/// The part of a reply that follows its first line.
pub(crate) enum Head {
    /// Nothing: the reply ends.
    Ends,
    /// The data of a string, and a line ending.
    Data(Bulk),
    /// This number of replies.
    Replies(usize),
}

/// The result of the search for the first line of a reply.
pub(crate) enum Start<'i> {
    /// The meaning of a complete line, and the rest after it.
    Whole(Head, &'i [u8]),
    /// The line is incomplete: this number of bytes after the first have no part of a line ending.
    Open(usize),
    /// No continuation starts with one.
    Never(Reason),
}

/// Returns why a line that is not the rest of a reply of one line is rejected.
#[inline(always)]
fn line_reason(mark: LineMark, line: &[u8]) -> Reason
    ensures { IsReason (HasNumber (marks.Line mark) line.now) result }
{
    match mark {
        LineMark::Colon => {
            if is_big_number(line) {
                Reason::TooLarge
            } else {
                Reason::Malformed
            }
        }
        _ => Reason::Malformed,
    }
}

/// Returns why a line that is not a size is rejected.
#[inline(always)]
fn size_reason(line: &[u8]) -> Reason
    ensures { IsReason (AreDigits line.now) result }
{
    if are_digits(line) {
        Reason::TooLarge
    } else {
        Reason::Malformed
    }
}

/// Whether the data after a mark start with a format.
#[inline(always)]
fn is_formatted(mark: DataMark) -> bool
    ensures { result ≡ has_format mark }
{
    match mark {
        DataMark::Dollar => false,
        DataMark::Exclamation => false,
        DataMark::Equals => true,
    }
}

/// Returns the part after the line of a reply that consists of one line: nothing.
#[inline(always)]
fn ends_with(_reply: Reply<&[u8], Global>) -> Head
    ensures { result ≡ Ends }
{
    Head::Ends
}

/// Returns the meaning of a line after the mark of a reply that consists of one line.
#[inline(always)]
fn line_head(mark: LineMark, line: &[u8]) -> Result<Head, Reason>
    ensures head { IfOk result (λ head. AllByRecursion IsLineByte line.now
        → HeadLineText (marks.Line mark) head line.now) }
    ensures rejected { IfErr result (IsRejectedLine (marks.Line mark) line.now) }
{
    match line_reply::<Global>(mark, line) {
        Some(reply) => Ok(ends_with(reply)),
        None => Err(line_reason(mark, line)),
    }
}

/// Returns the meaning of a line after the mark of a reply with a number of bytes.
#[inline(always)]
fn data_head(mark: DataMark, line: &[u8]) -> Result<Head, Reason>
    ensures head { IfOk result (λ head. HeadLineText (marks.Data mark) head line.now) }
    ensures rejected { IfErr result (IsRejectedLine (marks.Data mark) line.now) }
{
    match size_line(line) {
        Some(Some(size)) => Ok(Head::Data(Bulk {
            size,
            verbatim: is_formatted(mark),
        })),
        Some(None) => match mark {
            DataMark::Dollar => Ok(Head::Ends),
            _ => Err(Reason::Malformed),
        },
        None => Err(size_reason(line)),
    }
}

/// Returns the meaning of a line after the mark of an aggregate.
#[inline(always)]
fn aggregate_head(mark: AggregateMark, line: &[u8]) -> Result<Head, Reason>
    ensures head { IfOk result (λ head. HeadLineText (marks.Aggregate mark) head line.now) }
    ensures rejected { IfErr result (IsRejectedLine (marks.Aggregate mark) line.now) }
{
    match size_line(line) {
        Some(Some(size)) => match count_of(mark, size) {
            Some(count) => {
                if count as u64 <= MOST {
                    Ok(Head::Replies(count))
                } else {
                    Err(Reason::TooLarge)
                }
            }
            None => Err(Reason::TooLarge),
        },
        Some(None) => match mark {
            AggregateMark::Star => Ok(Head::Ends),
            _ => Err(Reason::Malformed),
        },
        None => Err(size_reason(line)),
    }
}

/// Returns the meaning of a line after a mark.
#[inline(always)]
fn head_of(mark: Mark, line: &[u8]) -> Result<Head, Reason>
    ensures head { IfOk result (λ head. AllByRecursion IsLineByte line.now
        → HeadLineText mark head line.now) }
    ensures rejected { IfErr result (IsRejectedLine mark line.now) }
{
    match mark {
        Mark::Line(mark) => line_head(mark, line),
        Mark::Data(mark) => data_head(mark, line),
        Mark::Aggregate(mark) => aggregate_head(mark, line),
    }
}

/// Searches for the first line of a reply at the start of the bytes. The first `sought` bytes after
/// the mark must have no part of a line ending.
#[inline(always)]
pub(crate) fn start_of<'i>(protocol: Protocol, bytes: &'i [u8], sought: usize) -> Start<'i>
    ensures told { AllByRecursion IsLineByte (take sought (drop 1 bytes.now))
        → IsStart protocol bytes.now result }
    ensures less { IsLessStart (length bytes.now) result }
{
    match bytes.split_first() {
        None => Start::Open(0),
        Some((byte, text)) => match mark_of(protocol, *byte) {
            None => Start::Never(Reason::Malformed),
            Some(mark) => match line_of(text, sought) {
                Line::Open(behind) => Start::Open(behind),
                Line::Never => Start::Never(Reason::Malformed),
                Line::Whole(line, left) => match head_of(mark, line) {
                    Ok(head) => Start::Whole(head, left),
                    Err(reason) => Start::Never(reason),
                },
            },
        },
    }
}
