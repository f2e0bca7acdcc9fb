//! Consecutive entries of bytes with their offsets, by successive calls.

ghost use Rattle.std.specs.Prelude.{◌≤◌, ◌<◌, ◌+◌, List, drop, length, MatchOption, MatchResult, ℕ};
ghost use Rattle.format_ini.specs.Documents.{AfterByteOrderMark};
ghost use Rattle.format_ini.specs.Front.{FirstLine};
ghost use Rattle.format_ini.specs.Places.{IsAtStart, LineAt, NextPlaced, StopsAtLine};

use crate::dialect::Dialect;
use crate::front;
use crate::lines::{Entry, Line, Places, Reason, State, read_line};

/// How far a document is read.
#[derive(Clone, Copy, Debug, PartialEq, Eq)]
pub struct Reading {
    /// How many bytes are read: the next line begins after them.
    pub offset: usize,
    /// The effect of the previous lines on the next one.
    pub state: State,
}

/// An entry, with the offsets of its texts.
#[derive(Clone, Copy, Debug, PartialEq, Eq)]
pub struct Placed<'i> {
    /// The meaning of the line.
    pub entry: Entry<'i>,
    /// The offsets of its texts in the document, in bytes.
    pub at: Places,
}

/// Why a line is none of a document.
#[derive(Clone, Copy, Debug, PartialEq, Eq)]
pub enum Stop {
    /// The line is no UTF-8.
    NoText,
    /// The line is none of the dialect.
    Invalid(Reason),
}

impl Reading {
    /// Returns the state before the first line of a document. Skips a byte order mark at the start.
    ///
    /// ```
    /// use format_ini::places::Reading;
    ///
    /// assert_eq!(rt; Reading::begin(b"[s]\n").offset, 0);
    /// assert_eq!(rt; Reading::begin(b"\xef\xbb\xbf[s]\n").offset, 3);
    /// ```
    pub fn begin(bytes: &[u8]) -> Reading
        ensures { IsAtStart bytes.now result }
    {
        Reading {
            offset: mark_len(bytes),
            state: State {
                section: false,
                pair: None,
            },
        }
    }
}

// Returns the length in bytes of the byte order mark at the start, or 0.
fn mark_len(bytes: &[u8]) -> usize
    ensures { AfterByteOrderMark bytes.now (drop result bytes.now) × (result ≤ length bytes.now) }
{
    if bytes.starts_with(b"\xef\xbb\xbf") {
        3
    } else {
        0
    }
}

// Returns the line at `offset` and the offset of the next one, or `None` if no byte remains.
fn line_at(bytes: &[u8], offset: usize) -> Option<(&[u8], usize)>
    ensures { MatchOption result (length bytes.now ≤ offset)
        (λ it. FirstLine (drop offset bytes.now) it.0.now (drop it.1 bytes.now)
        × (offset < it.1) × (it.1 ≤ length bytes.now)
        × (offset + length it.0.now ≤ length bytes.now)) }
{
    if offset >= bytes.len() {
        return None;
    }
    let left = &bytes[offset..];
    let size = front::line_len(left);
    let line = &left[..size];
    if size < left.len() {
        Some((line, offset + size + 1))
    } else {
        Some((line, offset + size))
    }
}

// Returns the meaning of the next line and the offset of the one after it, or `None` if no line
// remains.
fn read_at<'i>(
    dialect: Dialect,
    bytes: &'i [u8],
    reading: Reading,
) -> Result<Option<(Line<'i>, Reading)>, Stop>
    ensures { MatchResult result
        (λ found. MatchOption found (length bytes.now ≤ reading.offset)
        (λ it. LineAt dialect bytes.now reading it.0.entry it.0.at it.1))
        (λ stop. (reading.offset < length bytes.now) × ((line : List ℕ) × (behind : List ℕ)
        × FirstLine (drop reading.offset bytes.now) line behind
        × StopsAtLine dialect reading.state line stop)) }
{
    match line_at(bytes, reading.offset) {
        None => Ok(None),
        Some((line, offset)) => match str::from_utf8(line) {
            Err(_) => Err(Stop::NoText),
            Ok(text) => match read_line(dialect, reading.state, reading.offset, text) {
                Err(why) => Err(Stop::Invalid(why)),
                Ok(line) => {
                    let state = line.next;
                    Ok(Some((line, Reading { offset, state })))
                }
            },
        },
    }
}

/// Reads the next entry of a document's bytes, and skips empty lines and comments before it.
/// Returns `None` if no line remains. After an error, the invalid line is still the next one: it
/// begins at the offset of `reading`.
///
/// A call accesses only the bytes of the lines that it passes, so successive calls take time that
/// is linear in the bytes.
///
/// ```
/// use format_ini::dialect::Dialect;
/// use format_ini::lines::Places;
/// use format_ini::places::{Reading, next_placed};
///
/// let bytes = b"[s]\nkey = value\n";
/// let mut reading = Reading::begin(bytes);
/// assert!(rt; next_placed(Dialect::python(), bytes, &mut reading).is_ok());
/// match next_placed(Dialect::python(), bytes, &mut reading) {
///     Ok(Some(pair)) => assert_eq!(rt; pair.at, Places { head: 4, value: 10 }),
///     _ => assert!(rt; false),
/// }
/// ```
pub fn next_placed<'i>(
    dialect: Dialect,
    bytes: &'i [u8],
    reading: &mut Reading,
) -> Result<Option<Placed<'i>>, Stop>
    ensures { NextPlaced dialect bytes.now reading.old result reading.new }
{
    'lines: loop {
        match read_at(dialect, bytes, *reading) {
            Err(stop) => return Err(stop),
            Ok(None) => return Ok(None),
            Ok(Some((line, next))) => {
                *reading = next;
                if let Some(entry) = line.entry {
                    return Ok(Some(Placed { entry, at: line.at }));
                }
            }
        }
    }
}
