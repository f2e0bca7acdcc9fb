//! Lines, as far as they are there.
ghost use Rattle.std.specs.List.{AllByRecursion};
ghost use Rattle.std.specs.Prelude.{length, take};
ghost use Rattle.format_resp.specs.Extents.{IsLessPart, IsLineEnd};
ghost use Rattle.format_resp.specs.Lines.{IsLessLine, IsLine};
ghost use Rattle.format_resp.specs.Resp.{IsLineByte};

use crate::extent::Reason;
use memchr::memchr2;

/// The result of the search for a line.
pub(crate) enum Line<'i> {
    /// A complete line, and the rest after its end.
    Whole(&'i [u8], &'i [u8]),
    /// The line is incomplete: this number of bytes at the start have no part of a line ending.
    Open(usize),
    /// No continuation starts with one.
    Never,
}

/// Skips a line ending and returns the rest.
#[inline(always)]
pub(crate) fn skip_line_ending<'i>(bytes: &'i [u8]) -> Result<Option<&'i [u8]>, Reason>
    ensures told { IsLineEnd bytes.now result }
    ensures less { IsLessPart (length bytes.now) result }
{
    match bytes.split_first() {
        None => Ok(None),
        Some((first, more)) => {
            if *first != b'\r' {
                return Err(Reason::Malformed);
            }
            match more.split_first() {
                None => Ok(None),
                Some((second, left)) => {
                    if *second == b'\n' {
                        Ok(Some(left))
                    } else {
                        Err(Reason::Malformed)
                    }
                }
            }
        }
    }
}

/// Searches for the line at the start of the bytes. The first `sought` bytes must have no part of a
/// line ending.
#[inline(always)]
pub(crate) fn line_of<'i>(bytes: &'i [u8], sought: usize) -> Line<'i>
    ensures told { AllByRecursion IsLineByte (take sought bytes.now) → IsLine bytes.now result }
    ensures less { IsLessLine (length bytes.now) result }
{
    match bytes.get(sought..) {
        None => Line::Open(bytes.len()),
        Some(unseen) => match memchr2(b'\r', b'\n', unseen) {
            None => Line::Open(bytes.len()),
            Some(at) => {
                let (line, behind) = bytes.split_at(sought + at);
                match skip_line_ending(behind) {
                    Ok(Some(left)) => Line::Whole(line, left),
                    Ok(None) => Line::Open(line.len()),
                    Err(_) => Line::Never,
                }
            }
        },
    }
}
