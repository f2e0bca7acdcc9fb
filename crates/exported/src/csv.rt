//! Records of comma separated values.

ghost use Rattle.std.specs.Prelude.{◌≡◌, ◌≤◌, ◌<◌, ◌⊎◌, ◌↔◌, drop, length, take};
ghost use Rattle.format_csv_records.specs.Buffers.{IsRecordForGood, IsSized, NoRecordForGood};
ghost use Rattle.format_csv_records.specs.Buffers.{ShowsFields};
ghost use Rattle.format_csv_records.specs.Dialects.{IsRecord};
ghost use Rattle.format_csv_records.specs.Early.{IsPrefixOfNone, IsViablePrefix};
ghost use Rattle.format_csv_records.specs.declared.dialect.Dialect.{Dialect};
ghost use Rattle.exported.specs.Code.{buffer_too_small, done, incomplete, invalid};
ghost use Rattle.exported.specs.Code.{invalid_dialect};
ghost use Rattle.exported.specs.Csv.{HasDialect, HasNoSizes, IsDialect, IsRefusedAt, NoRecord};
ghost use Rattle.exported.specs.Csv.{ShowsRecord, WantsRecord};
ghost use Rattle.exported.specs.Span.{span_of};

pub mod dialect;
pub mod extent;
pub mod write;

use crate::code::{BUFFER_TOO_SMALL, DONE, INCOMPLETE, INVALID, INVALID_DIALECT};
use crate::csv::dialect::{CsvDialect, dialect_of};
use crate::span::Span;
use format_csv_records::buffers::{RecordSize, record_size, write_fields};
use format_csv_records::dialect::Dialect;

/// The sizes of a record, or the offset of an error.
#[repr(C)]
#[derive(Clone, Copy, Drop)]
pub struct CsvRecordSizes {
    /// How many fields there are.
    pub fields: usize,
    /// How many bytes the fields have together, as they are written.
    pub text: usize,
    /// The length of the record in the input in bytes, including its line ending.
    pub length: usize,
    /// The offset of the first invalid byte; 0 otherwise.
    pub error_offset: usize,
}

/// Returns a record without fields, with the offset of an error.
pub(crate) fn none_at(place: usize) -> CsvRecordSizes
    ensures place { result.error_offset ≡ place }
    ensures sizes { HasNoSizes result }
{
    CsvRecordSizes {
        fields: 0,
        text: 0,
        length: 0,
        error_offset: place,
    }
}

/// Writes the fields of a record of this size, where there is room.
#[inline(always)]
fn write_record(
    dialect: Dialect,
    bytes: &[u8],
    size: RecordSize,
    text: &mut [u8],
    fields: &mut [Span],
    out: &mut CsvRecordSizes,
) -> u32
    requires { IsSized dialect bytes.now size }
    ensures nowhere { out.new.error_offset ≡ 0 }
    ensures sized { (out.new.fields ≡ size.fields) × (out.new.text ≡ size.text)
        × (out.new.length ≡ size.length) }
    ensures record { result ≡ done
        → ShowsFields span_of dialect bytes.now size (take out.new.text text.new)
        (take out.new.fields fields.new) }
    ensures fits { result ≡ done → (out.new.fields ≤ length fields.old)
        × (out.new.text ≤ length text.old) }
    ensures behind { result ≡ done → (drop out.new.text text.new ≡ drop out.new.text text.old)
        × (drop out.new.fields fields.new ≡ drop out.new.fields fields.old) }
    ensures small { result ≡ buffer_too_small
        → (length fields.old < out.new.fields) ⊎ (length text.old < out.new.text) }
    ensures kept { result ≡ buffer_too_small → (fields.new ≡ fields.old) × (text.new ≡ text.old) }
    ensures codes { (result ≡ done) ⊎ (result ≡ buffer_too_small) }
{
    *out = CsvRecordSizes {
        fields: size.fields,
        text: size.text,
        length: size.length,
        error_offset: 0,
    };
    if write_fields(dialect, bytes, size, text, fields) {
        DONE
    } else {
        BUFFER_TOO_SMALL
    }
}

/// Parses a record of this dialect, as `exported_csv_record` does.
#[inline(always)]
fn read_record(
    dialect: Dialect,
    bytes: &[u8],
    text: &mut [u8],
    fields: &mut [Span],
    out: &mut CsvRecordSizes,
) -> u32
    ensures record { result ≡ done → ShowsRecord (IsRecord dialect) bytes.now out.new
        (take out.new.text text.new) (take out.new.fields fields.new) }
    ensures fits { result ≡ done → (out.new.fields ≤ length fields.old)
        × (out.new.text ≤ length text.old) }
    ensures behind { result ≡ done → (drop out.new.text text.new ≡ drop out.new.text text.old)
        × (drop out.new.fields fields.new ≡ drop out.new.fields fields.old) }
    ensures small { result ≡ buffer_too_small → WantsRecord (IsRecord dialect) bytes.now out.new }
    ensures room { result ≡ buffer_too_small
        → (length fields.old < out.new.fields) ⊎ (length text.old < out.new.text) }
    ensures kept { (result ≡ done → ⊥) → (fields.new ≡ fields.old) × (text.new ≡ text.old) }
    ensures refused { result ≡ invalid → NoRecord dialect bytes.now
        × IsRefusedAt dialect bytes.now out.new.error_offset }
    ensures nowhere { (result ≡ invalid → ⊥) → out.new.error_offset ≡ 0 }
    ensures sizes { (result ≡ done → ⊥) → (result ≡ buffer_too_small → ⊥) → HasNoSizes out.new }
    ensures codes { (result ≡ done) ⊎ ((result ≡ buffer_too_small) ⊎ (result ≡ invalid)) }
{
    *out = none_at(0);
    match record_size(dialect, bytes) {
        Ok(Some(size)) => write_record(dialect, bytes, size, text, fields, out),
        Ok(None) => INVALID,
        Err(fault) => {
            *out = none_at(fault.offset);
            INVALID
        }
    }
}

/// Parses a record of comma-separated values (RFC 4180), in any dialect, at the start of `bytes`.
///
/// The dialect determines the delimiter, the quote and the line endings. The record is followed by
/// a line ending or the end of the input. A quoted field may have any bytes, and quotes in it are
/// doubled. An unquoted field has no quote, delimiter, carriage return or line feed. Empty input
/// does not start with a record. A line ending on its own is a record of one empty field.
///
/// `DONE`: the contents of the fields are written into `text`, one field after another, without the
/// quotes around them and with doubled quotes replaced by single ones. The span of each field in
/// `text` is written into `fields`, in order.
///
/// The function does not allocate. It scans a record twice, so that it writes nothing if a buffer
/// is too small.
///
/// # Errors
///
/// `INVALID`: `bytes` does not start with a record. The first offset at which no record can
/// continue is written: the bytes before it are a prefix of a record, and together with the byte
/// there they are not.
///
/// `BUFFER_TOO_SMALL`: the record has more fields or more bytes than the buffers. The required
/// numbers of both are written, and the length of the record.
///
/// `INVALID_DIALECT`: there is no such dialect.
///
/// After an error the buffers are unchanged, and all else is 0.
///
/// # Safety
///
/// `bytes` must be valid for reads of `bytes_length` bytes and `dialect` for reads of one dialect,
/// which must not change during the call. `text` must be valid for writes of `text_length` bytes,
/// `fields` for writes of `fields_length` entries, and `out` for writes of one record. None of
/// these may overlap. The call needs 16 KiB of stack.
#[unsafe(no_mangle)]
pub extern "C" fn exported_csv_record(
    bytes: &[u8],
    dialect: &CsvDialect,
    text: &mut [u8],
    fields: &mut [Span],
    out: &mut CsvRecordSizes,
) -> u32
    ensures record { result ≡ done → (d : Dialect) → IsDialect dialect.now d
        → ShowsRecord (IsRecord d) bytes.now out.new
        (take out.new.text text.new) (take out.new.fields fields.new) }
    ensures fits { result ≡ done → (out.new.fields ≤ length fields.old)
        × (out.new.text ≤ length text.old) }
    ensures behind { result ≡ done → (drop out.new.text text.new ≡ drop out.new.text text.old)
        × (drop out.new.fields fields.new ≡ drop out.new.fields fields.old) }
    ensures small { result ≡ buffer_too_small → (d : Dialect) → IsDialect dialect.now d
        → WantsRecord (IsRecord d) bytes.now out.new }
    ensures room { result ≡ buffer_too_small
        → (length fields.old < out.new.fields) ⊎ (length text.old < out.new.text) }
    ensures kept { (result ≡ done → ⊥) → (fields.new ≡ fields.old) × (text.new ≡ text.old) }
    ensures refused { result ≡ invalid → (d : Dialect) → IsDialect dialect.now d
        → NoRecord d bytes.now × IsRefusedAt d bytes.now out.new.error_offset }
    ensures impossible { (result ≡ invalid_dialect) ↔ (HasDialect dialect.now → ⊥) }
    ensures nowhere { (result ≡ invalid → ⊥) → out.new.error_offset ≡ 0 }
    ensures sizes { (result ≡ done → ⊥) → (result ≡ buffer_too_small → ⊥) → HasNoSizes out.new }
    ensures codes { (result ≡ done) ⊎ ((result ≡ buffer_too_small) ⊎ ((result ≡ invalid)
        ⊎ (result ≡ invalid_dialect))) }
{
    match dialect_of(*dialect) {
        Some(dialect) => read_record(dialect, bytes, text, fields, out),
        None => {
            *out = none_at(0);
            INVALID_DIALECT
        }
    }
}

/// Parses a record of this dialect from partial input, as `exported_csv_record_partial` does.
#[inline(always)]
fn read_partial(
    dialect: Dialect,
    bytes: &[u8],
    text: &mut [u8],
    fields: &mut [Span],
    out: &mut CsvRecordSizes,
) -> u32
    requires { dialect.quote < 256 }
    ensures record { result ≡ done → ShowsRecord (IsRecordForGood dialect) bytes.now out.new
        (take out.new.text text.new) (take out.new.fields fields.new) }
    ensures fits { result ≡ done → (out.new.fields ≤ length fields.old)
        × (out.new.text ≤ length text.old) }
    ensures behind { result ≡ done → (drop out.new.text text.new ≡ drop out.new.text text.old)
        × (drop out.new.fields fields.new ≡ drop out.new.fields fields.old) }
    ensures small { result ≡ buffer_too_small
        → WantsRecord (IsRecordForGood dialect) bytes.now out.new }
    ensures room { result ≡ buffer_too_small
        → (length fields.old < out.new.fields) ⊎ (length text.old < out.new.text) }
    ensures kept { (result ≡ done → ⊥) → (fields.new ≡ fields.old) × (text.new ≡ text.old) }
    ensures refused { result ≡ invalid → IsPrefixOfNone dialect bytes.now
        × IsRefusedAt dialect bytes.now out.new.error_offset
        × (out.new.error_offset < length bytes.now) }
    ensures nowhere { (result ≡ invalid → ⊥) → out.new.error_offset ≡ 0 }
    ensures sizes { (result ≡ done → ⊥) → (result ≡ buffer_too_small → ⊥) → HasNoSizes out.new }
    ensures incomplete { result ≡ incomplete → NoRecordForGood dialect bytes.now
        × IsViablePrefix dialect bytes.now }
    ensures codes { (result ≡ done) ⊎ ((result ≡ buffer_too_small) ⊎ ((result ≡ invalid)
        ⊎ (result ≡ incomplete))) }
{
    *out = none_at(0);
    match record_size(dialect, bytes) {
        Ok(Some(size)) => {
            if size.ended {
                write_record(dialect, bytes, size, text, fields, out)
            } else {
                INCOMPLETE
            }
        }
        Ok(None) => INCOMPLETE,
        Err(fault) => {
            if fault.offset >= bytes.len() {
                return INCOMPLETE;
            }
            *out = none_at(fault.offset);
            INVALID
        }
    }
}

/// Parses the same record from partial input. A record or an error that it returns is also that of
/// every continuation.
///
/// `DONE`: as for complete input.
///
/// `INCOMPLETE`: `bytes` contains no record with its line ending, and at most three more bytes can
/// complete one. Zeros are written.
///
/// A quoted field without a closing quote never ends, so the caller must limit how many bytes are
/// buffered. The last record may have no line ending: at the end of the input, parse it with the
/// function for complete input. Each call parses from the first byte, and does not allocate.
///
/// # Errors
///
/// `INVALID`: `bytes` does not start with a record, regardless of what follows. This is returned as
/// soon as the first invalid byte is there, and its offset is written: 1 for `x"`.
///
/// `BUFFER_TOO_SMALL`, `INVALID_DIALECT`: as for complete input.
///
/// # Safety
///
/// `bytes` must be valid for reads of `bytes_length` bytes and `dialect` for reads of one dialect,
/// which must not change during the call. `text` must be valid for writes of `text_length` bytes,
/// `fields` for writes of `fields_length` entries, and `out` for writes of one record. None of
/// these may overlap. The call needs 16 KiB of stack.
#[unsafe(no_mangle)]
pub extern "C" fn exported_csv_record_partial(
    bytes: &[u8],
    dialect: &CsvDialect,
    text: &mut [u8],
    fields: &mut [Span],
    out: &mut CsvRecordSizes,
) -> u32
    ensures record { result ≡ done → (d : Dialect) → IsDialect dialect.now d
        → ShowsRecord (IsRecordForGood d) bytes.now out.new
        (take out.new.text text.new) (take out.new.fields fields.new) }
    ensures fits { result ≡ done → (out.new.fields ≤ length fields.old)
        × (out.new.text ≤ length text.old) }
    ensures behind { result ≡ done → (drop out.new.text text.new ≡ drop out.new.text text.old)
        × (drop out.new.fields fields.new ≡ drop out.new.fields fields.old) }
    ensures small { result ≡ buffer_too_small → (d : Dialect) → IsDialect dialect.now d
        → WantsRecord (IsRecordForGood d) bytes.now out.new }
    ensures room { result ≡ buffer_too_small
        → (length fields.old < out.new.fields) ⊎ (length text.old < out.new.text) }
    ensures kept { (result ≡ done → ⊥) → (fields.new ≡ fields.old) × (text.new ≡ text.old) }
    ensures refused { result ≡ invalid → (d : Dialect) → IsDialect dialect.now d
        → IsPrefixOfNone d bytes.now × IsRefusedAt d bytes.now out.new.error_offset }
    ensures within { result ≡ invalid → out.new.error_offset < length bytes.now }
    ensures impossible { (result ≡ invalid_dialect) ↔ (HasDialect dialect.now → ⊥) }
    ensures nowhere { (result ≡ invalid → ⊥) → out.new.error_offset ≡ 0 }
    ensures sizes { (result ≡ done → ⊥) → (result ≡ buffer_too_small → ⊥) → HasNoSizes out.new }
    ensures incomplete { result ≡ incomplete → (d : Dialect) → IsDialect dialect.now d
        → NoRecordForGood d bytes.now × IsViablePrefix d bytes.now }
    ensures codes { (result ≡ done) ⊎ ((result ≡ buffer_too_small) ⊎ ((result ≡ invalid)
        ⊎ ((result ≡ incomplete) ⊎ (result ≡ invalid_dialect)))) }
{
    match dialect_of(*dialect) {
        Some(dialect) => read_partial(dialect, bytes, text, fields, out),
        None => {
            *out = none_at(0);
            INVALID_DIALECT
        }
    }
}
