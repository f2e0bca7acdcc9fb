//! Writing records of comma-separated values.

ghost use Rattle.std.specs.Prelude.{◌≡◌, ◌⊎◌, ◌↔◌, ◌<◌, ◌∷◌, ◌++◌, [], List, ℕ, length};
ghost use Rattle.std.specs.Prelude.{IsTrue, MatchBool};
ghost use Rattle.std.specs.List.{All};
ghost use Rattle.exported.specs.Code.{buffer_too_small, done, invalid, invalid_dialect};
ghost use Rattle.exported.specs.Csv.{HasDialect, IsDialect};
ghost use Rattle.exported.specs.CsvWrite.{IsLine, IsShort, ShowsLine, contents, line_end};
ghost use Rattle.exported.specs.Output.{Puts};
ghost use Rattle.format_csv_records.specs.Dialects.{IsPlain, doubled};
ghost use Rattle.format_csv_records.specs.Written.{IsLastWritten, IsWritten, WrittenFields};
ghost use Rattle.format_csv_records.specs.declared.dialect.Dialect.{Dialect};

use crate::code::{BUFFER_TOO_SMALL, DONE, INVALID, INVALID_DIALECT};
use crate::csv::dialect::{CsvDialect, dialect_of};
use crate::output::{Bytes, put_byte, put_bytes};
use format_csv_records::dialect::{Dialect, LineEnds};

/// Returns the line ending that is written.
fn end_of(ends: LineEnds) -> &'static [u8]
    ensures { result.now ≡ line_end ends }
{
    match ends {
        LineEnds::CrLf | LineEnds::Either => b"\r\n".as_slice(),
        LineEnds::Lf => b"\n".as_slice(),
    }
}

/// Returns whether a byte may be in a field without quotes.
#[inline]
fn is_plain(dialect: Dialect, byte: u8) -> bool
    ensures { IsTrue result ↔ IsPlain dialect byte }
{
    byte != dialect.quote && byte != dialect.delimiter && byte != b'\r' && byte != b'\n'
}

/// Returns whether a field is written without quotes.
fn all_plain(dialect: Dialect, field: &[u8]) -> bool
    ensures { MatchBool result (All (IsPlain dialect) field.now)
        (All (IsPlain dialect) field.now → ⊥) }
{
    for place in 0..field.len() {
        if !is_plain(dialect, field[place]) {
            return false;
        }
    }
    true
}

/// Writes a byte of a field in quotes: a quote twice.
#[inline]
fn put_doubled(quote: u8, byte: u8, at: usize, buffer: &mut [u8]) -> usize
    ensures { Puts (doubled quote (byte ∷ [])) at buffer.old result buffer.new }
{
    if byte == quote {
        let end = put_byte(quote, at, buffer);
        return put_byte(quote, end, buffer);
    }
    put_byte(byte, at, buffer)
}

/// Writes a field in quotes.
fn put_quoted(quote: u8, field: &[u8], at: usize, buffer: &mut [u8]) -> usize
    ensures { Puts (quote ∷ (doubled quote field.now ++ quote ∷ [])) at buffer.old result
        buffer.new }
{
    let mut end = put_byte(quote, at, buffer);
    for place in 0..field.len() {
        end = put_doubled(quote, field[place], end, buffer);
    }
    put_byte(quote, end, buffer)
}

/// Writes a field, in quotes only if it needs them.
fn put_field(dialect: Dialect, field: &[u8], at: usize, buffer: &mut [u8]) -> usize
    ensures { (text : List ℕ) × IsWritten dialect field.now text
        × Puts text at buffer.old result buffer.new }
{
    if all_plain(dialect, field) {
        put_bytes(field, at, buffer)
    } else {
        put_quoted(dialect.quote, field, at, buffer)
    }
}

/// Writes fields, with a delimiter after each.
fn put_others(dialect: Dialect, fields: &[Bytes], buffer: &mut [u8]) -> usize
    ensures { (text : List ℕ) × WrittenFields dialect (contents fields.now) text
        × Puts text 0 buffer.old result buffer.new }
{
    let mut end = 0;
    for number in 0..fields.len() {
        let behind = put_field(dialect, fields[number].bytes, end, buffer);
        end = put_byte(dialect.delimiter, behind, buffer);
    }
    end
}

/// Returns whether a field is empty and the only one.
fn is_empty_record(others: &[Bytes], field: &[u8]) -> bool
    ensures { MatchBool result ((contents others.now ≡ []) × (field.now ≡ []))
        ((contents others.now ≡ []) × (field.now ≡ []) → ⊥) }
{
    others.is_empty() && field.is_empty()
}

/// Writes the last field, after which no delimiter follows.
fn put_last(dialect: Dialect, others: &[Bytes], field: &[u8], at: usize, buffer: &mut [u8]) -> usize
    ensures { (text : List ℕ) × IsLastWritten dialect (contents others.now) field.now text
        × Puts text at buffer.old result buffer.new }
{
    if is_empty_record(others, field) {
        put_quoted(dialect.quote, field, at, buffer)
    } else {
        put_field(dialect, field, at, buffer)
    }
}

/// Writes a record, as far as there is room, and returns its length.
fn put_record(dialect: Dialect, fields: &[Bytes], buffer: &mut [u8]) -> usize
    requires { 0 < length fields.now }
    ensures { (text : List ℕ) × IsLine dialect (contents fields.now) text
        × Puts text 0 buffer.old result buffer.new }
{
    let last = fields.len() - 1;
    let others = &fields[..last];
    let end = put_others(dialect, others, buffer);
    let end = put_last(dialect, others, fields[last].bytes, end, buffer);
    put_bytes(end_of(dialect.ends), end, buffer)
}

/// Writes a record of this dialect, as `exported_csv_write` does.
fn write_record(dialect: Dialect, fields: &[Bytes], buffer: &mut [u8], out: &mut usize) -> u32
    ensures line { result ≡ done
        → ShowsLine dialect (contents fields.now) buffer.old buffer.new out.new }
    ensures small { result ≡ buffer_too_small
        → IsShort dialect (contents fields.now) buffer.old out.new }
    ensures kept { (result ≡ done → ⊥) → buffer.new ≡ buffer.old }
    ensures refused { result ≡ invalid → (fields.now ≡ []) × (out.new ≡ 0) }
    ensures codes { (result ≡ done) ⊎ ((result ≡ buffer_too_small) ⊎ (result ≡ invalid)) }
{
    *out = 0;
    if fields.is_empty() {
        return INVALID;
    }
    let size = put_record(dialect, fields, &mut []);
    *out = size;
    if size > buffer.len() {
        return BUFFER_TOO_SMALL;
    }
    put_record(dialect, fields, buffer);
    DONE
}

/// Writes a record of comma-separated values (RFC 4180) of these fields, in any dialect.
///
/// A field is written in quotes, with each quote in it doubled, if it contains a quote, a
/// delimiter, a carriage return or a line feed, or if it is empty and the only field. Any other
/// field is written unchanged. The record ends with a line ending: a carriage return and a line
/// feed if the dialect accepts either. `exported_csv_record` reads the same fields from the record,
/// regardless of what follows.
///
/// `DONE`: the record is written at the start of `buffer`, and its length into `out`. The other
/// bytes of the buffer are unchanged.
///
/// The function does not allocate. It scans the fields twice, so that it writes nothing if the
/// buffer is too small.
///
/// # Errors
///
/// `BUFFER_TOO_SMALL`: the record is longer than the buffer. Its length is written.
///
/// `INVALID`: there are no fields. 0 is written.
///
/// `INVALID_DIALECT`: there is no such dialect. 0 is written.
///
/// After an error the buffer is unchanged.
///
/// # Safety
///
/// `fields` must be valid for reads of `fields_length` entries, the bytes of each entry for reads
/// of its length, and `dialect` for reads of one dialect. They must not change during the call.
/// `buffer` must be valid for writes of `buffer_length` bytes, and `out` for writes of one length.
/// These two must not overlap each other or the others. The call needs 16 KiB of stack.
#[unsafe(no_mangle)]
pub extern "C" fn exported_csv_write(
    fields: &[Bytes],
    dialect: &CsvDialect,
    buffer: &mut [u8],
    out: &mut usize,
) -> u32
    ensures line { result ≡ done → (d : Dialect) → IsDialect dialect.now d
        → ShowsLine d (contents fields.now) buffer.old buffer.new out.new }
    ensures small { result ≡ buffer_too_small → (d : Dialect) → IsDialect dialect.now d
        → IsShort d (contents fields.now) buffer.old out.new }
    ensures kept { (result ≡ done → ⊥) → buffer.new ≡ buffer.old }
    ensures refused { result ≡ invalid → (fields.now ≡ []) × (out.new ≡ 0) }
    ensures impossible { (result ≡ invalid_dialect) ↔ (HasDialect dialect.now → ⊥) }
    ensures nowhere { result ≡ invalid_dialect → out.new ≡ 0 }
    ensures codes { (result ≡ done) ⊎ ((result ≡ buffer_too_small) ⊎ ((result ≡ invalid)
        ⊎ (result ≡ invalid_dialect))) }
{
    match dialect_of(*dialect) {
        Some(dialect) => write_record(dialect, fields, buffer, out),
        None => {
            *out = 0;
            INVALID_DIALECT
        }
    }
}
