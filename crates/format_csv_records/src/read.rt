//! Records read into one buffer, by any dialect.
//!
//! These are loops over bytes instead of parsers of the library: each byte of a field is examined
//! once and copied once, and memory is allocated only if one of the record's two lists grows.

ghost use Rattle.std.specs.Prelude.{◌≡◌, ◌+◌, ◌<◌, ◌++◌, ◌∷◌, [], drop, length, IfOk};
ghost use Rattle.std.specs.Prelude.{◌≤◌};
ghost use Rattle.std.specs.Prelude.{◌^◌, MatchBool, MatchOption, MatchResult, OnErr};
ghost use Rattle.std.specs.Prelude.{List, ℕ, IsTrue, ◌↔◌, take};
ghost use Rattle.std.specs.List.{All};
ghost use Rattle.format_csv_records.specs.Dialects.{AreFields, IsLineEnd, IsPlain, RecordEnds};
ghost use Rattle.format_csv_records.specs.Parts.{ClosedQuotes, EndsNowhere, IsNotQuote, NotFirst};
ghost use Rattle.format_csv_records.specs.Parts.{LongestPrefixLength, NoEndReason, UnclosedQuotes};
ghost use Rattle.format_csv_records.specs.Parts.{StartsWithField, StartsWithOpenQuote};
ghost use Rattle.format_csv_records.specs.Records.{fields_of};
ghost use Rattle.format_csv_records.specs.Refused.{IsNoRecord, ReadsRecord};
ghost use Rattle.format_csv_records.specs.declared.read.RecordError.TheVariants.{OutOfMemory};

use crate::dialect::{Dialect, LineEnds};
use crate::record::{ByteRecord, FieldSink};
use std::alloc::{AllocError, Allocator};
use std::simd::prelude::*;

/// The reason why no record can continue at a byte.
///
/// ```
/// use format_csv_records::read::Reason;
///
/// assert!(rt; Reason::OpenQuote != Reason::QuoteInField);
/// ```
#[derive(Clone, Copy, Debug, PartialEq, Eq)]
pub enum Reason {
    /// A quote after bytes of a field without quotes.
    QuoteInField,
    /// A byte of a field without quotes after a closing quote.
    ByteBehindQuote,
    /// The bytes end within quotes.
    OpenQuote,
    /// A carriage return or a line feed that is not a line ending of the dialect, or a carriage
    /// return without a line feed.
    WrongLineEnd,
}

/// The first offset at which no record can continue, and the reason: the bytes before it are a
/// prefix of a record, and with the next byte they are not.
///
/// ```
/// use format_csv_records::read::{InvalidRecord, Reason};
///
/// let fault = InvalidRecord { offset: 3, why: Reason::OpenQuote };
/// assert_eq!(rt; fault.offset, 3);
/// ```
#[derive(Clone, Copy, Debug, PartialEq, Eq)]
pub struct InvalidRecord {
    /// The offset of the byte that cannot continue a record. The bytes before it are a prefix of a
    /// record.
    pub offset: usize,
    /// Why.
    pub why: Reason,
}

/// Why no record was read.
///
/// ```
/// use format_csv_records::read::RecordError;
///
/// assert!(rt; RecordError::OutOfMemory == RecordError::OutOfMemory);
/// ```
#[derive(Clone, Copy, Debug, PartialEq, Eq)]
pub enum RecordError {
    /// The bytes begin with none.
    Invalid(InvalidRecord),
    /// Memory allocation failed.
    OutOfMemory,
}

impl From<AllocError> for RecordError {
    ghost from_gives = { λ _ r. r ≡ OutOfMemory };

    fn from(_error: AllocError) -> RecordError {
        RecordError::OutOfMemory
    }
}

#[inline(always)]
pub(crate) fn is_plain(dialect: Dialect, byte: u8) -> bool
    ensures { IsTrue result ↔ IsPlain dialect byte }
{
    byte != dialect.quote && byte != dialect.delimiter && byte != b'\r' && byte != b'\n'
}

// The first bytes.
#[inline(always)]
pub(crate) fn front(bytes: &[u8], size: usize) -> &[u8]
    requires { size ≤ length bytes.now }
    ensures { result.now ≡ take size bytes.now }
{
    &bytes[..size]
}

// The bytes after these.
#[inline(always)]
pub(crate) fn behind(bytes: &[u8], size: usize) -> &[u8]
    requires { size ≤ length bytes.now }
    ensures { result.now ≡ drop size bytes.now }
{
    &bytes[size..]
}

// That many bytes are examined together.
const LANES: usize = 16;

// Returns the length of the longest prefix of plain bytes, if it is shorter than the lanes.
#[inline(always)]
fn plain_lanes(dialect: Dialect, bytes: &[u8]) -> Option<usize>
    requires { LANES ≤ length bytes.now }
    ensures { MatchOption result (All (IsPlain dialect) (take LANES bytes.now))
        (λ run. LongestPrefixLength (IsPlain dialect) bytes.now run) }
{
    let lanes = u8x16::from_slice(bytes);
    let quotes = lanes.simd_eq(u8x16::splat(dialect.quote));
    let delimiters = lanes.simd_eq(u8x16::splat(dialect.delimiter));
    let returns = lanes.simd_eq(u8x16::splat(b'\r'));
    let feeds = lanes.simd_eq(u8x16::splat(b'\n'));
    let others = ((quotes | delimiters) | (returns | feeds)).to_bitmask();
    if others == 0 {
        return None;
    }
    Some(others.trailing_zeros() as usize)
}

// The length of that prefix, byte by byte.
#[inline(always)]
fn plain_rest(dialect: Dialect, bytes: &[u8]) -> usize
    ensures { LongestPrefixLength (IsPlain dialect) bytes.now result }
{
    for (place, byte) in bytes.iter().enumerate() {
        if !is_plain(dialect, *byte) {
            return place;
        }
    }
    bytes.len()
}

// Returns the length of the longest prefix of plain bytes.
#[inline(always)]
pub(crate) fn plain_len(dialect: Dialect, bytes: &[u8]) -> usize
    ensures { LongestPrefixLength (IsPlain dialect) bytes.now result }
{
    let mut at = 0;
    'lanes: while bytes.len() - at >= LANES {
        match plain_lanes(dialect, behind(bytes, at)) {
            Some(run) => return at + run,
            None => at += LANES,
        }
    }
    at + plain_rest(dialect, behind(bytes, at))
}

// Returns the number of bytes before the first quote, or of all bytes.
#[inline(always)]
pub(crate) fn unquoted_len(quote: u8, bytes: &[u8]) -> usize
    ensures run { LongestPrefixLength (IsNotQuote quote) bytes.now result }
    ensures size { length bytes.now < 2 ^ 64 }
{
    for (place, byte) in bytes.iter().enumerate() {
        if *byte == quote {
            return place;
        }
    }
    bytes.len()
}

#[inline(always)]
pub(crate) fn first_is(bytes: &[u8], byte: u8) -> bool
    ensures { MatchBool result (bytes.now ≡ byte ∷ drop 1 bytes.now)
        (NotFirst (λ b. b ≡ byte) bytes.now) }
{
    match bytes.first() {
        Some(first) => *first == byte,
        None => false,
    }
}

// The bytes of a field up to its closing quote, of two quotes one; or false if there is none.
fn read_quoted<S: FieldSink>(quote: u8, sink: &mut S, input: &mut &[u8]) -> Result<bool, AllocError>
    ensures { IfOk result (λ closed. MatchBool closed
        ((field : List ℕ) × ClosedQuotes quote input.old.now field input.new.now
        × (S.fields sink.new ≡ S.fields sink.old)
        × (S.begun sink.new ≡ S.begun sink.old ++ field))
        (UnclosedQuotes quote input.old.now)) }
{
    let mut rest = *input;
    'runs: loop {
        let run = unquoted_len(quote, rest);
        if run == rest.len() {
            return Ok(false);
        }
        let left = behind(rest, run + 1);
        if !first_is(left, quote) {
            sink.add(front(rest, run))?;
            *input = left;
            return Ok(true);
        }
        sink.add(front(rest, run + 1))?;
        rest = behind(left, 1);
    }
}

// The bytes of a field without quotes.
fn read_plain<S: FieldSink>(
    dialect: Dialect,
    sink: &mut S,
    input: &mut &[u8],
) -> Result<(), AllocError>
    ensures { IfOk result (λ _. (field : List ℕ) × (input.old.now ≡ field ++ input.new.now)
        × All (IsPlain dialect) field × NotFirst (IsPlain dialect) input.new.now
        × (S.fields sink.new ≡ S.fields sink.old)
        × (S.begun sink.new ≡ S.begun sink.old ++ field)) }
{
    let size = plain_len(dialect, input);
    sink.add(front(input, size))?;
    *input = behind(input, size);
    Ok(())
}

// Reads the field at the start of the bytes. Returns false if a quote is never closed.
fn read_field<S: FieldSink>(
    dialect: Dialect,
    sink: &mut S,
    input: &mut &[u8],
) -> Result<bool, AllocError>
    requires { S.begun sink.old ≡ [] }
    ensures { IfOk result (λ closed. MatchBool closed
        ((field : List ℕ) × StartsWithField dialect input.old.now field input.new.now
        × (S.fields sink.new ≡ S.fields sink.old ++ field ∷ [])
        × (S.begun sink.new ≡ []))
        (StartsWithOpenQuote dialect input.old.now)) }
{
    if first_is(input, dialect.quote) {
        *input = behind(input, 1);
        if !read_quoted(dialect.quote, sink, input)? {
            return Ok(false);
        }
    } else {
        read_plain(dialect, sink, input)?;
    }
    sink.end_field()?;
    Ok(true)
}

// Returns whether a single line feed ends a record.
#[inline(always)]
pub(crate) fn by_line_feed(ends: LineEnds) -> bool
    ensures { MatchBool result (IsLineEnd ends (10 ∷ [])) (ends ≡ LineEnds.CrLf) }
{
    match ends {
        LineEnds::CrLf => false,
        LineEnds::Lf | LineEnds::Either => true,
    }
}

// Whether a carriage return and a line feed end a record.
#[inline(always)]
pub(crate) fn by_both(ends: LineEnds) -> bool
    ensures { MatchBool result (IsLineEnd ends (13 ∷ 10 ∷ [])) (ends ≡ LineEnds.Lf) }
{
    match ends {
        LineEnds::Lf => false,
        LineEnds::CrLf | LineEnds::Either => true,
    }
}

// Skips a line ending and returns the rest, also at the end of the bytes. Otherwise returns the
// number of bytes of a line ending that match.
#[inline(always)]
pub(crate) fn read_end<'i>(ends: LineEnds, rest: &'i [u8]) -> Result<&'i [u8], usize>
    ensures { MatchResult result (λ left. RecordEnds ends rest.now left.now)
        (λ begun. EndsNowhere ends rest.now begun) }
{
    if rest.is_empty() {
        return Ok(rest);
    }
    if first_is(rest, b'\n') {
        return if by_line_feed(ends) {
            Ok(behind(rest, 1))
        } else {
            Err(0)
        };
    }
    if !first_is(rest, b'\r') || !by_both(ends) {
        return Err(0);
    }
    let left = behind(rest, 1);
    if first_is(left, b'\n') {
        Ok(behind(left, 1))
    } else {
        Err(1)
    }
}

// Returns the reason why a record neither ends nor continues with the first byte.
pub(crate) fn why_not(quote: u8, bytes: &[u8]) -> Reason
    requires { 0 < length bytes.now }
    ensures { NoEndReason quote bytes.now result }
{
    match bytes.first() {
        Some(byte) if *byte == quote => Reason::QuoteInField,
        Some(b'\r' | b'\n') => Reason::WrongLineEnd,
        _ => Reason::ByteBehindQuote,
    }
}

/// Reads the fields of the record at the start of `bytes` into an empty sink, and returns the rest
/// after its line ending. Empty bytes have one empty field.
///
/// # Errors
///
/// As of [`read_record_into`].
pub fn read_fields<'i, S: FieldSink>(
    dialect: Dialect,
    sink: &mut S,
    bytes: &'i [u8],
) -> Result<&'i [u8], RecordError>
    requires none { S.fields sink.old ≡ [] }
    requires begun { S.begun sink.old ≡ [] }
    ensures { MatchResult result
        (λ rest. AreFields dialect bytes.now (S.fields sink.new) rest.now)
        (λ error. IsNoRecord dialect bytes.now error) }
{
    let mut rest = bytes;
    'fields: loop {
        if !read_field(dialect, sink, &mut rest)? {
            let why = Reason::OpenQuote;
            return Err(RecordError::Invalid(InvalidRecord {
                offset: bytes.len(),
                why,
            }));
        }
        if !first_is(rest, dialect.delimiter) {
            return match read_end(dialect.ends, rest) {
                Ok(left) => Ok(left),
                Err(begun) => {
                    let offset = bytes.len() - rest.len() + begun;
                    let why = why_not(dialect.quote, rest);
                    Err(RecordError::Invalid(InvalidRecord { offset, why }))
                }
            };
        }
        rest = behind(rest, 1);
    }
}

/// Reads the record at the start of `bytes` into `fields`, and leaves the rest after its line
/// ending. Returns `true` if a record was read, and `false` if there are no bytes. Old contents of
/// `fields` are discarded. After an error it has no fields, and `bytes` is unchanged. It allocates
/// only if one of the record's two buffers grows.
///
/// # Errors
///
/// - `Invalid`: the bytes do not start with a record. It holds the offset at which no record can
///   continue, and the reason.
/// - `OutOfMemory`: memory allocation failed. If there are no bytes, nothing is allocated.
///
/// ```
/// use format_csv_records::dialect::Dialect;
/// use format_csv_records::read::{RecordError, InvalidRecord, Reason, read_record_into};
/// use format_csv_records::record::ByteRecord;
///
/// let mut fields = ByteRecord::new(alloc);
/// let mut input = b"a,\"b \"\"c\"\"\"\r\nd\"".as_slice();
/// assert!(rt; read_record_into(Dialect::standard(), &mut fields, &mut input) == Ok(true));
/// assert!(rt; matches!(fields.get(1), Some(field) if field == b"b \"c\"".as_slice()));
/// let fault = InvalidRecord { offset: 1, why: Reason::QuoteInField };
/// let told = read_record_into(Dialect::standard(), &mut fields, &mut input);
/// assert!(rt; told == Err(RecordError::Invalid(fault)));
/// ```
pub fn read_record_into<A: Allocator>(
    dialect: Dialect,
    fields: &mut ByteRecord<A>,
    input: &mut &[u8],
) -> Result<bool, RecordError>
    ensures reads { ReadsRecord dialect input.old.now result (fields_of fields.new) input.new.now }
    ensures full { OnErr result (0 < length input.old.now) }
{
    fields.clear();
    if input.is_empty() {
        return Ok(false);
    }
    match read_fields(dialect, fields, input) {
        Ok(rest) => {
            *input = rest;
            Ok(true)
        }
        Err(error) => {
            fields.clear();
            Err(error)
        }
    }
}
