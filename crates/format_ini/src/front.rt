//! The start of a text, and texts split at a byte.

ghost use Rattle.std.specs.Prelude.{◌≡◌, ◌<◌, ◌+◌, ◌∷◌, [], true, length, take, drop, slice_index};
ghost use Rattle.std.specs.Prelude.{MatchBool, MatchOption};
ghost use Rattle.std.specs.List.{All};
ghost use Rattle.format_ini.specs.Front.{CutAt, CutAtLast, FirstLine, IsWithoutComment, IsStop};
ghost use Rattle.format_ini.specs.Front.{KeepsSoMany, StartsWith, NotFirst, StopsAt, indent_of};
ghost use Rattle.format_ini.specs.Front.{trimmed};
ghost use Rattle.format_ini.specs.Marks.{IsMark};

use crate::dialect::{Delimiters, Marks, is_delimiter, is_mark};

// Returns the text before and after an ASCII byte.
pub(crate) fn around(text: &str, place: usize) -> (&str, &str)
    requires within { place < length text.now }
    requires ascii { slice_index text.now place < 128 }
    ensures before { result.0.now ≡ take place text.now }
    ensures behind { result.1.now ≡ drop (place + 1) text.now }
{
    (&text[..place], &text[place + 1..])
}

/// The bytes at which a text is split.
#[derive(Clone, Copy)]
pub(crate) enum Stop {
    /// The end of a line.
    LineFeed,
    /// The end of a section's name.
    Bracket,
    /// The end of a key.
    Delimiter(Delimiters),
}

fn is_stop(stop: Stop, byte: u8) -> bool
    ensures { MatchBool result (IsStop stop byte) (IsStop stop byte → ⊥) }
{
    match stop {
        Stop::LineFeed => byte == b'\n',
        Stop::Bracket => byte == b']',
        Stop::Delimiter(delimiters) => is_delimiter(delimiters, byte),
    }
}

// Returns the number of bytes before the first byte of `stop`, or of all bytes.
fn run_len(stop: Stop, bytes: &[u8]) -> usize
    ensures { StopsAt stop bytes.now result }
{
    for (place, byte) in bytes.iter().enumerate() {
        if is_stop(stop, *byte) {
            return place;
        }
    }
    bytes.len()
}

// How many bytes the first line has, without its line feed.
pub(crate) fn line_len(bytes: &[u8]) -> usize
    ensures { StopsAt Stop.LineFeed bytes.now result }
{
    run_len(Stop::LineFeed, bytes)
}

// Splits `text` at the first byte of `stop`. Returns `None` if there is no such byte.
pub(crate) fn cut(stop: Stop, text: &str) -> Option<(&str, &str)>
    ensures { MatchOption result (All (λ b. IsStop stop b → ⊥) text.now)
        (λ it. CutAt stop text.now it.0.now it.1.now) }
{
    let size = run_len(stop, text.as_bytes());
    if size < text.len() {
        Some(around(text, size))
    } else {
        None
    }
}

// Returns the offset of the last `]`.
fn last_bracket(bytes: &[u8]) -> Option<usize>
    ensures { MatchOption result (All (λ b. b ≡ 93 → ⊥) bytes.now)
        (λ n. (n < length bytes.now) × (slice_index bytes.now n ≡ 93)
        × All (λ b. b ≡ 93 → ⊥) (drop (n + 1) bytes.now)) }
{
    let mut left = bytes.len();
    while left > 0 {
        left -= 1;
        if bytes[left] == b']' {
            return Some(left);
        }
    }
    None
}

// Splits `text` at its last `]`. Returns `None` if there is none.
pub(crate) fn cut_last(text: &str) -> Option<(&str, &str)>
    ensures { MatchOption result (All (λ b. b ≡ 93 → ⊥) text.now)
        (λ it. CutAtLast text.now it.0.now it.1.now) }
{
    match last_bracket(text.as_bytes()) {
        Some(place) => Some(around(text, place)),
        None => None,
    }
}

pub(crate) fn first_is(text: &str, byte: u8) -> bool
    ensures { MatchBool result (text.now ≡ byte ∷ drop 1 text.now)
        (NotFirst (λ b. b ≡ byte) text.now) }
{
    match text.as_bytes().first() {
        Some(first) => *first == byte,
        None => false,
    }
}

pub(crate) fn is_comment(marks: Marks, text: &str) -> bool
    ensures { MatchBool result (StartsWith (IsMark marks) text.now)
        (NotFirst (IsMark marks) text.now) }
{
    match text.as_bytes().first() {
        Some(first) => is_mark(marks, *first),
        None => false,
    }
}

// Returns the first line and the rest after it, or `None` if `text` is empty.
pub(crate) fn first_line(text: &str) -> Option<(&str, &str)>
    ensures { MatchOption result (text.now ≡ [])
        (λ it. FirstLine text.now it.0.now it.1.now) }
{
    if text.is_empty() {
        return None;
    }
    match cut(Stop::LineFeed, text) {
        Some(parts) => Some(parts),
        None => Some((text, "")),
    }
}

// Returns the number of blanks at the start, and the text without the blanks at both ends.
pub(crate) fn trim(text: &str) -> (usize, &str)
    ensures indent { result.0 ≡ indent_of text.now }
    ensures text { result.1.now ≡ trimmed text.now }
{
    let behind = text.trim_ascii_start();
    (text.len() - behind.len(), behind.trim_ascii_end())
}

// Whether a comment begins with this byte, where one may.
fn begins_comment(marks: Marks, may_open: bool, byte: u8) -> bool
    ensures { MatchBool result ((may_open ≡ true) × IsMark marks byte)
        (may_open ≡ true → IsMark marks byte → ⊥) }
{
    may_open && is_mark(marks, byte)
}

// Returns the number of bytes before the first comment of these marks, or of all bytes.
fn kept_len(marks: Marks, line: &[u8]) -> usize
    ensures { KeepsSoMany marks line.now result }
{
    let mut may_open = true;
    for (place, byte) in line.iter().enumerate() {
        if begins_comment(marks, may_open, *byte) {
            return place;
        }
        may_open = byte.is_ascii_whitespace();
    }
    line.len()
}

// A line without a comment of these marks.
pub(crate) fn without_comment(marks: Marks, line: &str) -> &str
    ensures { IsWithoutComment marks line.now result.now }
{
    let size = kept_len(marks, line.as_bytes());
    if size < line.len() {
        around(line, size).0
    } else {
        line
    }
}
