//! The parts of a document: sections' names, pairs, and the gaps between them.
ghost use Rattle.std.specs.Prelude.{◌≡◌, MatchOption, List, ℕ};
ghost use Rattle.std.specs.Str.{IsUtf8};
ghost use Rattle.winnow.specs.Bytes.{bytes_input, bytes_reading};
ghost use Rattle.winnow.specs.Form.{answer_by};
ghost use Rattle.winnow.specs.Input.{IsEndOf};
ghost use Rattle.readers.specs.Document.{IsCommentByte, IsValueByte};
ghost use Rattle.readers.specs.DocumentRuns.{BracketsRuns, CategoryRuns, CommentRuns, GapRuns};
ghost use Rattle.readers.specs.DocumentRuns.{IsFront, KeyRuns};
ghost use Rattle.readers.specs.DocumentRuns.{KeyValueRuns, MarkRuns, ValueRuns, IsWithoutTrailing};

use crate::ini::tables::NameBytes;
use std::alloc::Allocator;
use std::str;
use winnow::ascii::impls::{Alphanumeric1, Multispace1, Space0};
use winnow::combinator::{alt, delimited, opt, repeat, separated_pair, terminated};
use winnow::error::{EmptyError, ErrMode, HasKind, InputError, ParserError};
use winnow::stream::{ByteStream, Stream};
use winnow::token::{take_until, take_while};
use winnow::{Func, FuncWith, Parser};

/// The bytes as text, where they are UTF-8.
fn text(bytes: &[u8]) -> Option<&str>
    ensures { MatchOption result (IsUtf8 bytes.now → ⊥)
        (λ s. (s.now ≡ bytes.now) × IsUtf8 bytes.now) }
{
    str::from_utf8(bytes).ok()
}

/// The bytes without trailing spaces, tabs and carriage returns.
fn without_trailing(bytes: &[u8]) -> &[u8]
    ensures { IsWithoutTrailing bytes.now result.now }
{
    match bytes
        .iter()
        .rposition(|&b| b != b' ' && b != b'\t' && b != b'\r')
    {
        Some(last) => &bytes[..last + 1],
        None => &bytes[..0],
    }
}

/// The value of these bytes, where it is UTF-8.
fn value_text(bytes: &[u8]) -> Option<&str>
    ensures { MatchOption result
        ((value : List ℕ) → IsWithoutTrailing bytes.now value → IsUtf8 value → ⊥)
        (λ s. IsWithoutTrailing bytes.now s.now × IsUtf8 s.now) }
{
    text(without_trailing(bytes))
}

/// The bytes of a section's name, between `[` and `]`.
pub(super) fn brackets<'i>(
    names: NameBytes,
    input: &mut &'i [u8],
) -> Result<&'i [u8], ErrMode<InputError<&'i [u8]>>>
    ensures { BracketsRuns (bytes_input input.old.now)
        (answer_by ⟦<ErrMode<InputError<&'i [u8]>> as HasKind>⟧.kind result)
        (bytes_input input.new.now) }
{
    input.shows_bytes();
    let mut name = delimited(b'[', take_while(0.., names.set), b']');
    match name.parse_next(input) {
        Ok(name) => Ok(name),
        Err(error) => Err(error),
    }
}

/// The name of a section, where the bytes of names are made already.
pub(super) fn section_name<'i>(
    names: NameBytes,
    input: &mut &'i [u8],
) -> Result<&'i str, ErrMode<InputError<&'i [u8]>>>
    ensures { CategoryRuns (bytes_input input.old.now)
        (answer_by ⟦<ErrMode<InputError<&'i [u8]>> as HasKind>⟧.kind result)
        (bytes_input input.new.now) }
{
    let at_name = *input;
    match FuncWith(names, brackets).verify_map(text).parse_next(input) {
        Ok(name) => Ok(name),
        Err(error) => {
            *input = at_name;
            Err(error)
        }
    }
}

/// Parses the name of a section: `[`, bytes other than `]` and a line feed, `]`. The name is UTF-8,
/// may be empty, and is a slice of the input. Leaves the rest after `]`.
///
/// Backtracks and leaves the input unchanged if the input does not start with such a name. That is
/// its only error: it does not allocate.
///
/// Like the example `ini` of winnow, except that a name ends with its line.
///
/// ```
/// use readers::ini;
///
/// let mut input = b"[a]x".as_slice();
/// assert_eq!(rt; ini::category(&mut input), Ok("a"));
/// assert_eq!(rt; input, b"x".as_slice());
/// assert!(rt; ini::category(&mut b"[a".as_slice()).is_err());
/// ```
pub fn category<'i>(input: &mut &'i [u8]) -> Result<&'i str, ErrMode<InputError<&'i [u8]>>>
    ensures { CategoryRuns (bytes_input input.old.now)
        (answer_by ⟦<ErrMode<InputError<&'i [u8]>> as HasKind>⟧.kind result)
        (bytes_input input.new.now) }
{
    section_name(NameBytes::new(), input)
}

/// The key of a pair: ASCII letters and digits.
pub(super) fn key<'i>(input: &mut &'i [u8]) -> Result<&'i str, ErrMode<InputError<&'i [u8]>>>
    ensures { KeyRuns (bytes_input input.old.now)
        (answer_by ⟦<ErrMode<InputError<&'i [u8]>> as HasKind>⟧.kind result)
        (bytes_input input.new.now) }
{
    match Alphanumeric1.parse_next(input) {
        // SAFETY: ASCII letters and digits are UTF-8.
        Ok(key) => Ok(unsafe { str::from_utf8_unchecked(key) }),
        Err(error) => Err(error),
    }
}

/// `=`, with spaces and tabs round it.
pub(super) fn mark<'i>(input: &mut &'i [u8]) -> Result<(), ErrMode<InputError<&'i [u8]>>>
    ensures { MarkRuns (bytes_input input.old.now)
        (answer_by ⟦<ErrMode<InputError<&'i [u8]>> as HasKind>⟧.kind result)
        (bytes_input input.new.now) }
{
    (Space0, b'=', Space0).void().parse_next(input)
}

/// Takes the bytes before `;` and the end of the line.
fn value_bytes<'i>(input: &mut &'i [u8]) -> &'i [u8]
    ensures front { IsFront IsValueByte input.old.now result.now input.new.now }
    ensures ends { IsEndOf bytes_reading (bytes_input input.new.now) (bytes_input input.old.now) }
{
    match take_until::<_, _, EmptyError, _>(0.., (b';', b'\n')).parse_next(input) {
        Ok(bytes) => bytes,
        // the last line has no end
        Err(_) => input.finish(),
    }
}

/// Takes the bytes before the next line feed.
fn line_bytes<'i>(input: &mut &'i [u8]) -> &'i [u8]
    ensures front { IsFront IsCommentByte input.old.now result.now input.new.now }
    ensures ends { IsEndOf bytes_reading (bytes_input input.new.now) (bytes_input input.old.now) }
{
    match take_until::<_, _, EmptyError, _>(0.., b'\n').parse_next(input) {
        Ok(bytes) => bytes,
        Err(_) => input.finish(),
    }
}

/// The value of a pair: the bytes before `;` and the end of the line, without what trails.
pub(super) fn value<'i>(input: &mut &'i [u8]) -> Result<&'i str, ErrMode<InputError<&'i [u8]>>>
    ensures { ValueRuns (bytes_input input.old.now)
        (answer_by ⟦<ErrMode<InputError<&'i [u8]>> as HasKind>⟧.kind result)
        (bytes_input input.new.now) }
{
    match value_text(value_bytes(input)) {
        Some(value) => Ok(value),
        None => Err(ErrMode::from_input(input)),
    }
}

/// Parses a key and its value: one or more ASCII letters or digits, spaces and tabs, `=`, spaces
/// and tabs, a value of bytes other than `;` and a line feed, and a comment, if one follows. A
/// comment is `;` with the bytes before the next line feed, which is not consumed. The value is
/// UTF-8, without trailing spaces, tabs and carriage returns, and may be empty. Both are slices of
/// the input.
///
/// Backtracks and leaves the input unchanged if the input does not start with such a pair. That is
/// its only error: it does not allocate.
///
/// Like the example `ini` of winnow, except that a value ends with its text.
///
/// ```
/// use readers::ini;
///
/// let mut input = b"x = 1 ; c\n".as_slice();
/// assert_eq!(rt; ini::key_value(&mut input), Ok(("x", "1")));
/// assert_eq!(rt; input, b"\n".as_slice());
/// assert!(rt; ini::key_value(&mut b"x: 1".as_slice()).is_err());
/// ```
pub fn key_value<'i>(
    input: &mut &'i [u8],
) -> Result<(&'i str, &'i str), ErrMode<InputError<&'i [u8]>>>
    ensures { KeyValueRuns (bytes_input input.old.now)
        (answer_by ⟦<ErrMode<InputError<&'i [u8]>> as HasKind>⟧.kind result)
        (bytes_input input.new.now) }
{
    let at_key = *input;
    match terminated(
        separated_pair(Func(key), Func(mark), Func(value)),
        opt(Func(comment)),
    )
    .parse_next(input)
    {
        Ok(pair) => Ok(pair),
        Err(error) => {
            *input = at_key;
            Err(error)
        }
    }
}

/// A comment: `;` and the bytes before the next line feed, which need not be text.
pub(super) fn comment<'i>(input: &mut &'i [u8]) -> Result<(), ErrMode<InputError<&'i [u8]>>>
    ensures { CommentRuns (bytes_input input.old.now)
        (answer_by ⟦<ErrMode<InputError<&'i [u8]>> as HasKind>⟧.kind result)
        (bytes_input input.new.now) }
{
    match b';'.parse_next(input) {
        Ok(_) => {
            line_bytes(input);
            Ok(())
        }
        Err(error) => Err(error),
    }
}

/// Skips the gap between sections and pairs: all whitespace and comments, up to the first byte that
/// begins neither. Never fails, and does not allocate.
pub(super) fn gap<'i, A: Allocator + Copy>(
    alloc: A,
    input: &mut &'i [u8],
) -> Result<(), ErrMode<InputError<&'i [u8]>>>
    ensures { GapRuns (bytes_input input.old.now)
        (answer_by ⟦<ErrMode<InputError<&'i [u8]>> as HasKind>⟧.kind result)
        (bytes_input input.new.now) }
{
    repeat(alloc, 0.., alt((Multispace1.void(), Func(comment)))).parse_next(input)
}
