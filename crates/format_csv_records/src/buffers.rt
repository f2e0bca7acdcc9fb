//! Output of records into two buffers of the caller: the concatenated bytes of all fields, and the
//! position of each. It does not allocate.
//!
//! [`record_size`] returns the size of the record at the start of the bytes, and [`write_fields`]
//! writes its fields, if the buffers have room for them.

ghost use Rattle.std.specs.Prelude.{◌≡◌, ◌⊎◌, ◌+◌, ◌<◌, ◌≤◌, ◌^◌, ◌∷◌, [], List, ℕ, length};
ghost use Rattle.std.specs.Prelude.{drop, take, true};
ghost use Rattle.std.specs.Prelude.{MatchBool, MatchOption, MatchResult};
ghost use Rattle.format_csv_records.specs.Buffers.{FieldPut, IsSized, PutsBytes, PutsFields};
ghost use Rattle.format_csv_records.specs.Buffers.{PutsPlace, ShowsFields, SizesRecord};
ghost use Rattle.format_csv_records.specs.Dialects.{IsPlain};
ghost use Rattle.format_csv_records.specs.Parts.{ClosedQuotes, IsNotQuote, LongestPrefixLength};
ghost use Rattle.format_csv_records.specs.Parts.{StartsWithField, StartsWithOpenQuote};
ghost use Rattle.format_csv_records.specs.Parts.{UnclosedQuotes};
ghost use Rattle.format_csv_records.specs.Refused.{IsRefused};

use crate::dialect::Dialect;
use crate::read::{
    InvalidRecord, Reason, behind, first_is, is_plain, plain_len, read_end, unquoted_len, why_not,
};

/// How the place of a field is written: a type of its own, or the offset and the length.
pub trait FieldPlace: Copy + Drop {
    // The position of bytes, from their offset and their length.
    ghost made: { ℕ → ℕ → Self };

    /// Creates the position of `length` bytes at `offset`.
    fn of(offset: usize, length: usize) -> Self
        ensures { result ≡ made offset length };
}

impl FieldPlace for (usize, usize) {
    ghost made = { λ offset length. (offset, length) };

    #[inline(always)]
    fn of(offset: usize, length: usize) -> (usize, usize) {
        (offset, length)
    }
}

// The unit type stores no position, for callers that only need the size.
impl FieldPlace for () {
    ghost made = { λ _ _. tt };

    #[inline(always)]
    fn of(_offset: usize, _length: usize) {}
}

/// How much room a record wants, and where it ends.
#[derive(Clone, Copy, Drop)]
pub struct RecordSize {
    /// How many fields there are.
    pub fields: usize,
    /// How many bytes the fields have together, as they are meant: without the quotes round them,
    /// and with each quote once.
    pub text: usize,
    /// The length of the record in the input in bytes, including its line ending.
    pub length: usize,
    /// Whether its line ending is there. If it is false, the bytes end with the record; with more
    /// bytes the record may be different, or there may be none.
    pub ended: bool,
}

// The state after a field: the rest of the bytes, and the offset after the bytes written so far.
#[derive(Clone, Copy, Drop)]
pub struct AfterField<'i> {
    rest: &'i [u8],
    end: usize,
}

#[inline(always)]
pub(crate) fn is_some(bytes: &[u8]) -> bool
    ensures { MatchBool result (0 < length bytes.now) (bytes.now ≡ []) }
{
    !bytes.is_empty()
}

// Writes a byte at offset `at`, if there is room for it.
#[inline(always)]
fn put_byte(byte: u8, at: usize, text: &mut [u8])
    ensures { PutsBytes (byte ∷ []) at text.old text.new (at + 1) }
{
    if at < text.len() {
        text[at] = byte;
    }
}

// Returns how many of `count` bytes have room from offset `at` on.
#[inline(always)]
fn room_for(count: usize, at: usize, text: &[u8]) -> usize
    ensures few { result ≤ count }
    ensures fits { 0 < result → at + result ≤ length text.now }
    ensures full { (result ≡ count) ⊎ (length text.now ≤ at + result) }
{
    let left = text.len().saturating_sub(at);
    if left < count { left } else { count }
}

// Writes the longest prefix of bytes of a field without quotes, as far as there is room, and
// returns its length.
#[inline(always)]
fn put_plain(dialect: Dialect, bytes: &[u8], at: usize, text: &mut [u8]) -> usize
    requires { at + length bytes.now < 2 ^ 63 }
    ensures run { LongestPrefixLength (IsPlain dialect) bytes.now result }
    ensures put { PutsBytes (take result bytes.now) at text.old text.new (at + result) }
{
    let room = room_for(bytes.len(), at, text);
    for place in 0..room {
        let byte = bytes[place];
        if !is_plain(dialect, byte) {
            return place;
        }
        text[at + place] = byte;
    }
    room + plain_len(dialect, behind(bytes, room))
}

// Writes the bytes before the first quote, or all, as far as there is room, and returns their
// number.
#[inline(always)]
fn put_unquoted(quote: u8, bytes: &[u8], at: usize, text: &mut [u8]) -> usize
    requires { at + length bytes.now < 2 ^ 63 }
    ensures run { LongestPrefixLength (IsNotQuote quote) bytes.now result }
    ensures put { PutsBytes (take result bytes.now) at text.old text.new (at + result) }
{
    let room = room_for(bytes.len(), at, text);
    for place in 0..room {
        let byte = bytes[place];
        if byte == quote {
            return place;
        }
        text[at + place] = byte;
    }
    room + unquoted_len(quote, behind(bytes, room))
}

// Puts a place at its number, if there is room for it.
#[inline(always)]
fn put_place<P: FieldPlace>(place: P, number: usize, places: &mut [P])
    ensures { PutsPlace place number places.old places.new }
{
    if number < places.len() {
        places[number] = place;
    }
}

// Puts the bytes of a field up to its closing quote, of two quotes one.
#[inline(always)]
fn put_quoted<'i>(quote: u8, bytes: &'i [u8], at: usize, text: &mut [u8]) -> Option<AfterField<'i>>
    requires { at + length bytes.now < 2 ^ 63 }
    ensures { MatchOption result (UnclosedQuotes quote bytes.now) (λ it. (field : List ℕ)
        × ClosedQuotes quote bytes.now field it.rest.now
        × FieldPut field bytes.now it.rest.now at text.old text.new it.end) }
{
    let mut rest = bytes;
    let mut end = at;
    'runs: loop {
        let run = put_unquoted(quote, rest, end, text);
        if run == rest.len() {
            return None;
        }
        end += run;
        let left = behind(rest, run + 1);
        if !first_is(left, quote) {
            return Some(AfterField { rest: left, end });
        }
        put_byte(quote, end, text);
        end += 1;
        rest = behind(left, 1);
    }
}

// Writes the bytes of the field at the start of `bytes`, unless its quote is never closed.
#[inline(always)]
fn put_field<'i>(
    dialect: Dialect,
    bytes: &'i [u8],
    at: usize,
    text: &mut [u8],
) -> Option<AfterField<'i>>
    requires { at + length bytes.now < 2 ^ 63 }
    ensures { MatchOption result (StartsWithOpenQuote dialect bytes.now) (λ it. (field : List ℕ)
        × StartsWithField dialect bytes.now field it.rest.now
        × FieldPut field bytes.now it.rest.now at text.old text.new it.end) }
{
    if first_is(bytes, dialect.quote) {
        return put_quoted(dialect.quote, behind(bytes, 1), at, text);
    }
    let size = put_plain(dialect, bytes, at, text);
    Some(AfterField {
        rest: behind(bytes, size),
        end: at + size,
    })
}

// Writes the fields of the record at the start of `bytes`, as far as there is room, and returns its
// size.
#[inline(always)]
fn put_fields<P: FieldPlace>(
    dialect: Dialect,
    bytes: &[u8],
    text: &mut [u8],
    places: &mut [P],
) -> Result<RecordSize, InvalidRecord>
    ensures { MatchResult result
        (λ size. PutsFields P.made dialect bytes.now text.old text.new places.old places.new size)
        (λ fault. IsRefused dialect bytes.now fault) }
{
    let mut rest = bytes;
    let mut end = 0;
    let mut fields = 0;
    'fields: loop {
        match put_field(dialect, rest, end, text) {
            None => {
                let why = Reason::OpenQuote;
                return Err(InvalidRecord {
                    offset: bytes.len(),
                    why,
                });
            }
            Some(field) => {
                put_place(P::of(end, field.end - end), fields, places);
                fields += 1;
                end = field.end;
                rest = field.rest;
            }
        }
        if !first_is(rest, dialect.delimiter) {
            return match read_end(dialect.ends, rest) {
                Ok(left) => Ok(RecordSize {
                    fields,
                    text: end,
                    length: bytes.len() - left.len(),
                    ended: is_some(rest),
                }),
                Err(begun) => {
                    let offset = bytes.len() - rest.len() + begun;
                    let why = why_not(dialect.quote, rest);
                    Err(InvalidRecord { offset, why })
                }
            };
        }
        rest = behind(rest, 1);
    }
}

// The same. The frequent dialect has a loop of its own, whose comparisons are with constants.
#[inline(always)]
fn put_record<P: FieldPlace>(
    dialect: Dialect,
    bytes: &[u8],
    text: &mut [u8],
    places: &mut [P],
) -> Result<RecordSize, InvalidRecord>
    ensures { MatchResult result
        (λ size. PutsFields P.made dialect bytes.now text.old text.new places.old places.new size)
        (λ fault. IsRefused dialect bytes.now fault) }
{
    match dialect.of_commas() {
        Some(same) => put_fields(same, bytes, text, places),
        None => put_fields(dialect, bytes, text, places),
    }
}

/// Returns the size of the record at the start of the bytes, or `None` if there are no bytes. An
/// error holds the offset at which no record can continue, and the reason.
///
/// ```
/// use format_csv_records::buffers::record_size;
/// use format_csv_records::dialect::Dialect;
///
/// match record_size(Dialect::standard(), b"a,\"b \"\"c\"\"\"\r\nd".as_slice()) {
///     Ok(Some(size)) => {
///         assert!(rt; size.fields == 2 && size.text == 6);
///         assert!(rt; size.length == 13 && size.ended);
///     }
///     _ => assert!(rt; false),
/// }
/// ```
#[inline(always)]
pub fn record_size(dialect: Dialect, bytes: &[u8]) -> Result<Option<RecordSize>, InvalidRecord>
    ensures { SizesRecord dialect bytes.now result }
{
    if bytes.is_empty() {
        return Ok(None);
    }
    let mut none: [(); 0] = [];
    match put_fields(dialect, bytes, &mut [], &mut none) {
        Ok(size) => Ok(Some(size)),
        Err(fault) => Err(fault),
    }
}

/// Writes the concatenated fields of the record at the start of the bytes to the start of `text`,
/// and their positions to the first entries of `places`. The record's size gives the numbers of
/// both. The rest of both buffers is unchanged. Returns `false` if one of them is too small; both
/// are then unchanged.
///
/// ```
/// use format_csv_records::buffers::{record_size, write_fields};
/// use format_csv_records::dialect::Dialect;
///
/// let bytes = b"a,\"b \"\"c\"\"\"\r\nd".as_slice();
/// let mut text = [0; 8];
/// let mut places = [(0, 0); 2];
/// if let Ok(Some(size)) = record_size(Dialect::standard(), bytes) {
///     let (all, fields) = (text.as_mut_slice(), places.as_mut_slice());
///     assert!(rt; write_fields(Dialect::standard(), bytes, size, all, fields));
/// }
/// assert_eq!(rt; &text[..6], b"ab \"c\"".as_slice());
/// assert_eq!(rt; places[1], (1, 5));
/// ```
#[inline(always)]
pub fn write_fields<P: FieldPlace>(
    dialect: Dialect,
    bytes: &[u8],
    size: RecordSize,
    text: &mut [u8],
    places: &mut [P],
) -> bool
    requires { IsSized dialect bytes.now size }
    ensures written { MatchBool result
        (ShowsFields P.made dialect bytes.now size (take size.text text.new)
        (take size.fields places.new))
        (((length text.old < size.text) ⊎ (length places.old < size.fields))
        × (text.new ≡ text.old) × (places.new ≡ places.old)) }
    ensures sizes { (length text.new ≡ length text.old)
        × (length places.new ≡ length places.old) }
    ensures room { result ≡ true → (size.text ≤ length text.old)
        × (size.fields ≤ length places.old) }
    ensures behind { result ≡ true → (drop size.text text.new ≡ drop size.text text.old)
        × (drop size.fields places.new ≡ drop size.fields places.old) }
{
    if text.len() < size.text || places.len() < size.fields {
        return false;
    }
    match put_record(dialect, bytes, text, places) {
        Ok(_) => true,
        Err(_) => false,
    }
}
