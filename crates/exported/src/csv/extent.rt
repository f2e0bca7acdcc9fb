//! The end of a record of comma-separated values in partial input.

ghost use Rattle.std.specs.Prelude.{◌≡◌, ◌≤◌, ◌⊎◌, ◌↔◌, ◌++◌, [], List, length, ℕ};
ghost use Rattle.format_csv_records.specs.Extents.{IsExtentOf};
ghost use Rattle.format_csv_records.specs.declared.dialect.Dialect.{Dialect};
ghost use Rattle.exported.specs.Code.{done, incomplete, invalid, invalid_dialect};
ghost use Rattle.exported.specs.Csv.{HasDialect, HasNoSizes, IsDialect};
ghost use Rattle.exported.specs.CsvExtent.{RecordCalls, TellsRecord, nothing, place_at};
ghost use Rattle.exported.specs.CsvExtent.{record_extent_of};
ghost use Rattle.exported.specs.Turns.{all_of};
ghost use Rattle.exported.specs.declared.csv.extent.CsvRecordState.{CsvRecordState};

use crate::code::{DONE, INCOMPLETE, INVALID, INVALID_DIALECT};
use crate::csv::dialect::{CsvDialect, dialect_of};
use crate::csv::{CsvRecordSizes, none_at};
use format_csv_records::dialect::Dialect;
use format_csv_records::extent::{RecordExtent, RecordPlace};

/// The state of a search for the end of a record of comma-separated values. Only the functions of
/// this library may interpret its fields. All zeros is the initial state; start from it for each
/// record.
#[repr(C)]
#[derive(Clone, Copy, Drop)]
pub struct CsvRecordState {
    /// How many bytes were passed.
    pub passed: usize,
    /// How many bytes these fields have without their quotes, as far as they were passed.
    pub text: usize,
    /// How many fields were passed with the delimiter after them.
    pub fields: usize,
    /// The part of the record that is expected next; 0 at the start of a field.
    pub place: usize,
}

/// Where in a record, by its number.
fn place_of(number: usize) -> RecordPlace
    ensures { result ≡ place_at number }
{
    match number {
        0 => RecordPlace::Field,
        1 => RecordPlace::Plain,
        2 => RecordPlace::Quoted,
        3 => RecordPlace::Quote,
        4 => RecordPlace::Return,
        _ => RecordPlace::Done,
    }
}

/// Returns the number of a part of a record.
fn number_of(place: RecordPlace) -> usize
    ensures { place_at result ≡ place }
{
    match place {
        RecordPlace::Field => 0,
        RecordPlace::Plain => 1,
        RecordPlace::Quoted => 2,
        RecordPlace::Quote => 3,
        RecordPlace::Return => 4,
        RecordPlace::Done => 5,
    }
}

/// Returns the extent that `state` represents.
fn extent_at(state: CsvRecordState) -> RecordExtent
    ensures { result ≡ record_extent_of state }
{
    RecordExtent {
        passed: state.passed,
        text: state.text,
        fields: state.fields,
        place: place_of(state.place),
    }
}

/// Returns the corresponding state.
fn state_at(extent: RecordExtent) -> CsvRecordState
    ensures { record_extent_of result ≡ extent }
{
    CsvRecordState {
        passed: extent.passed,
        text: extent.text,
        fields: extent.fields,
        place: number_of(extent.place),
    }
}

/// Finds the end of a record of this dialect, as `exported_csv_record_extent` does.
fn find_end(
    dialect: Dialect,
    state: &mut CsvRecordState,
    bytes: &[u8],
    out: &mut CsvRecordSizes,
) -> u32
    ensures told { IsExtentOf dialect (record_extent_of state.old) bytes.now
        → TellsRecord dialect bytes.now result out.new state.new }
    ensures nowhere { (result ≡ invalid → ⊥) → out.new.error_offset ≡ 0 }
    ensures sizes { (result ≡ done → ⊥) → HasNoSizes out.new }
    ensures within { (out.new.length ≤ length bytes.now)
        × (out.new.error_offset ≤ length bytes.now) }
    ensures codes { (result ≡ done) ⊎ ((result ≡ incomplete) ⊎ (result ≡ invalid)) }
{
    let mut extent = extent_at(*state);
    let answer = extent.advance(dialect, bytes);
    *state = state_at(extent);
    match answer {
        Ok(Some(size)) => {
            *out = CsvRecordSizes {
                fields: size.fields,
                text: size.text,
                length: size.length,
                error_offset: 0,
            };
            DONE
        }
        Ok(None) => {
            *out = none_at(0);
            INCOMPLETE
        }
        Err(fault) => {
            *out = none_at(fault.offset);
            INVALID
        }
    }
}

/// Finds the end of a record of comma-separated values (RFC 4180), in any dialect, in input that
/// arrives in chunks.
///
/// No call looks again at bytes that an earlier call scanned, so all calls for a record take time
/// linear in its length. To obtain the fields, pass the bytes of the record and the same dialect to
/// `exported_csv_record`.
///
/// For the first call, `state` must be all zeros. Each further call for the same record must have
/// the state that the previous call left, the bytes of the previous call followed by more bytes,
/// and the same dialect.
///
/// `DONE`: `bytes` starts with a record and its line ending, regardless of what follows. The number
/// of its fields, their total length, and the length of the record are written. Reset the state to
/// zeros for the next record.
///
/// `INCOMPLETE`: `bytes` contains no record with its line ending, and at most three more bytes can
/// complete one. Zeros are written. A quoted field without a closing quote never ends, so the
/// caller must limit how many bytes are buffered. The last record may have no line ending: at the
/// end of the input, parse it with `exported_csv_record`.
///
/// If `state` belongs to other bytes or was modified, the result may be wrong, but nothing outside
/// `bytes` is read.
///
/// # Errors
///
/// `INVALID`: `bytes` does not start with a record, regardless of what follows. This is returned as
/// soon as the first invalid byte is there. Its offset is written, and zeros.
///
/// `INVALID_DIALECT`: there is no such dialect. The state is unchanged, and zeros are written.
///
/// # Safety
///
/// `state` must be valid for reads and writes of one state, and `out` for writes of one record.
/// `bytes` must be valid for reads of `bytes_length` bytes and `dialect` for reads of one dialect,
/// which must not change during the call. None of these may overlap. The call needs 16 KiB of
/// stack.
#[unsafe(no_mangle)]
pub extern "C" fn exported_csv_record_extent(
    state: &mut CsvRecordState,
    bytes: &[u8],
    dialect: &CsvDialect,
    out: &mut CsvRecordSizes,
) -> u32
    ensures told { (d : Dialect) → IsDialect dialect.now d
        → IsExtentOf d (record_extent_of state.old) bytes.now
        → TellsRecord d bytes.now result out.new state.new }
    ensures impossible { (result ≡ invalid_dialect) ↔ (HasDialect dialect.now → ⊥) }
    ensures kept { result ≡ invalid_dialect → state.new ≡ state.old }
    ensures nowhere { (result ≡ invalid → ⊥) → out.new.error_offset ≡ 0 }
    ensures sizes { (result ≡ done → ⊥) → HasNoSizes out.new }
    ensures within { (out.new.length ≤ length bytes.now)
        × (out.new.error_offset ≤ length bytes.now) }
    ensures codes { (result ≡ done) ⊎ ((result ≡ incomplete) ⊎ ((result ≡ invalid)
        ⊎ (result ≡ invalid_dialect))) }
{
    match dialect_of(*dialect) {
        Some(dialect) => find_end(dialect, state, bytes, out),
        None => {
            *out = none_at(0);
            INVALID_DIALECT
        }
    }
}

/// States that successive calls of `exported_csv_record_extent` give the result of one call. The
/// first call starts with zeros, and each further call has the state that the previous one left,
/// its bytes followed by another chunk, and the same dialect. If all calls return
/// `INCOMPLETE`, the last state is a state of these bytes, regardless of what follows. So the next
/// call returns the result that a call with zeros returns for all of its bytes.
pub fn calls_in_turn_are_of_their_bytes()
    ensures { (d : Dialect) (pieces : List (List ℕ)) (state : CsvRecordState)
        → RecordCalls d nothing [] pieces state
        → (more : List ℕ)
        → IsExtentOf d (record_extent_of state) (all_of pieces ++ more) }
{}
