//! The line of an offset, with a caret under its column.
ghost use Rattle.std.specs.Prelude.{◌≡◌, ◌≤◌, ◌⊎◌, ◌-◌, length, take, drop};
ghost use Rattle.std.specs.List.{AllWithin, slice_index};
ghost use Rattle.std.specs.Str.{IsCharBoundary, IsUtf8, chars};
ghost use Rattle.text_positions.specs.Excerpt.{IsLineShown};
ghost use Rattle.text_positions.specs.Position.{IsPosition, IsWithinLine};

use crate::{Position, position_of};
use std::fmt;

/// A position in a text or in bytes, shown as compilers do: its line and column, the line itself,
/// and a caret under the position. What is printed before it, as a path, does not move the caret,
/// since the line begins after a line feed.
///
/// Lines end as [`position_of`] counts them, with their line feeds. A carriage return is a
/// character of its line, and the caret can be under it; before a line feed it is not shown.
///
/// ```
/// use text_positions::Position;
/// use text_positions::excerpt::Excerpt;
///
/// let shown = Excerpt::new("width=12\nheight=x\n".as_bytes(), 16);
/// assert_eq!(rt; shown.position(), Position { line: 2, column: 8 });
/// assert_eq!(rt; shown.line(), "height=x".as_bytes());
///
/// let text = format!(in alloc; "{shown}");
/// let lines = "parse error at line 2, column 8\n  |\n2 | height=x\n  |        ^";
/// assert!(rt; matches!(text, Ok(text) if text.as_str() == lines));
/// ```
#[derive(Clone, Copy, Debug, Drop)]
pub struct Excerpt<'t> {
    text: &'t [u8],
    offset: usize,
}

impl<'t> Excerpt<'t> {
    /// The place that lies `offset` bytes after the start of these bytes; one after their end is
    /// their end.
    pub fn new(text: &'t [u8], offset: usize) -> Excerpt<'t>
        ensures text { result.text.now ≡ text.now }
        ensures place { result.offset ≡ offset }
    {
        Excerpt { text, offset }
    }

    /// The line and the column, both counted from 1.
    pub fn position(&self) -> Position
        ensures place { IsUtf8 self.now.text.now → IsCharBoundary self.now.text.now self.now.offset
            → IsPosition (chars (take self.now.offset self.now.text.now)) result.line
            result.column }
        ensures end { IsUtf8 self.now.text.now → length self.now.text.now ≤ self.now.offset
            → IsPosition (chars self.now.text.now) result.line result.column }
    {
        position_in(self.text, self.offset)
    }

    /// The line, without the line feed that ends it, and without a carriage return before that. A
    /// carriage return before anything else, or before the end, ends no line: it stays.
    pub fn line(&self) -> &'t [u8]
        ensures { IsLineShown self.now.text.now self.now.offset result.now }
    {
        let (before, behind) = parted(self.text, self.offset);
        let length = line_length(behind);
        let line = &self.text[line_start(before)..before.len() + length];
        match line.split_last() {
            Some((last, shown)) if *last == b'\r' && length < behind.len() => shown,
            _ => line,
        }
    }
}

impl fmt::Display for Excerpt<'_> {
    fn fmt<W: fmt::Write>(&self, f: &mut fmt::Formatter<W>) -> fmt::Result {
        let place = self.position();
        let indent = place.column.saturating_sub(1);
        let gutter = digits(place.line);
        writeln!(
            f,
            "parse error at line {}, column {}",
            place.line, place.column
        )?;
        f.write_repeated(" ", gutter)?;
        write!(f, " |\n{} | ", place.line)?;
        write_text(f, self.line())?;
        f.write_str("\n")?;
        f.write_repeated(" ", gutter)?;
        f.write_str(" | ")?;
        f.write_repeated(" ", indent)?;
        f.write_str("^")
    }
}

/// Returns the line and the column of `offset`, in bytes from the start of some bytes.
///
/// Bytes that are not UTF-8 count as the characters that are printed for them. An offset after the
/// end counts as the end.
pub fn position_in(bytes: &[u8], offset: usize) -> Position
    ensures place { IsUtf8 bytes.now → IsCharBoundary bytes.now offset
        → IsPosition (chars (take offset bytes.now)) result.line result.column }
    ensures end { IsUtf8 bytes.now → length bytes.now ≤ offset
        → IsPosition (chars bytes.now) result.line result.column }
{
    let whole = match str::from_utf8(bytes) {
        Ok(text) => position_of(text, offset.min(bytes.len())),
        Err(_) => None,
    };
    match whole {
        Some(place) => place,
        None => place_behind(parted(bytes, offset).0),
    }
}

/// The line and the column after some bytes.
fn place_behind(before: &[u8]) -> Position {
    let mut line = 1usize;
    for byte in before {
        if *byte == b'\n' {
            line = line.saturating_add(1);
        }
    }
    let begun = before.get(line_start(before)..).unwrap_or(&[]);
    let mut column = 1usize;
    for chunk in begun.utf8_chunks() {
        column = column.saturating_add(chunk.valid().chars().count());
        if !chunk.invalid().is_empty() {
            column = column.saturating_add(1);
        }
    }
    Position { line, column }
}

/// Splits `bytes` at `offset`.
fn parted(bytes: &[u8], offset: usize) -> (&[u8], &[u8])
    ensures before { result.0.now ≡ take offset bytes.now }
    ensures behind { result.1.now ≡ drop offset bytes.now }
{
    bytes.split_at_checked(offset).unwrap_or((bytes, &[]))
}

/// Where the last line of some bytes begins.
fn line_start(before: &[u8]) -> usize
    ensures bound { result ≤ length before.now }
    ensures begins { (result ≡ 0) ⊎ (slice_index before.now (result - 1) ≡ 10) }
    ensures is_one { AllWithin IsWithinLine before.now result (length before.now) }
{
    let mut start = before.len();
    while start > 0 && before[start - 1] != b'\n' {
        start -= 1;
    }
    start
}

/// Returns the number of bytes before the first line feed, or of all bytes.
fn line_length(behind: &[u8]) -> usize
    ensures bound { result ≤ length behind.now }
    ensures ends { (result ≡ length behind.now) ⊎ (slice_index behind.now result ≡ 10) }
    ensures is_one { AllWithin IsWithinLine behind.now 0 result }
{
    let mut length = 0;
    while length < behind.len() && behind[length] != b'\n' {
        length += 1;
    }
    length
}

/// How many digits a number is written with.
fn digits(number: usize) -> usize {
    match number.checked_ilog10() {
        Some(power) => power as usize + 1,
        None => 1,
    }
}

/// Writes bytes as text; what is none is written as U+FFFD.
fn write_text<W: fmt::Write>(f: &mut fmt::Formatter<W>, bytes: &[u8]) -> fmt::Result {
    for chunk in bytes.utf8_chunks() {
        f.write_str(chunk.valid())?;
        if !chunk.invalid().is_empty() {
            f.write_str("\u{FFFD}")?;
        }
    }
    Ok(())
}
