//! Field lines without a first line: the trailers of a chunked body.

ghost use Rattle.std.specs.Prelude.{◌≡◌, ◌⊎◌, ◌≤◌, ◌<◌, drop, length, take};
ghost use Rattle.format_http_places.specs.Refusals.{IsRefusedBy};
ghost use Rattle.format_http_places.specs.Sections.{AreWanted, BeginsFields, NoFields};
ghost use Rattle.format_http_places.specs.Sections.{NoFieldsRead, ShowsLines};
ghost use Rattle.exported.specs.Code.{buffer_too_small, done, incomplete, invalid};
ghost use Rattle.exported.specs.Http.{HasPart, lines_of};

use crate::code::{BUFFER_TOO_SMALL, DONE, INCOMPLETE, INVALID};
use crate::http::error::{HTTP_HEAD_ERROR_NONE, number_of};
use format_http_places::parts::HeadKind;
use format_http_places::places;
pub use format_http_places::places::{Field, Span};
use format_http_places::read::HeadError;
use format_http_places::trailers::read_field_lines_into;

/// The number and the length of field lines.
#[repr(C)]
#[derive(Clone, Copy, Drop)]
pub struct HttpFields {
    /// How many fields there are.
    pub fields: usize,
    /// The length of the field lines in bytes, including the empty line after them.
    pub length: usize,
    /// The offset of the error in bytes; 0 otherwise.
    pub error_offset: usize,
    /// Why the byte at this offset is invalid; `HTTP_HEAD_ERROR_NONE` otherwise.
    pub error: u32,
}

/// Returns no field lines, with a number of fields, and the offset and the number of an error.
fn none(fields: usize, place: usize, error: u32) -> HttpFields
    ensures fields { (result.fields ≡ fields) × (result.length ≡ 0) }
    ensures place { (result.error_offset ≡ place) × (result.error ≡ error) }
{
    HttpFields {
        fields,
        length: 0,
        error_offset: place,
        error,
    }
}

/// Field lines that were found.
fn lines_of(found: places::FieldLines) -> HttpFields
    ensures lines { lines_of result ≡ found }
    ensures place { (result.error_offset ≡ 0) × (result.error ≡ 0) }
{
    HttpFields {
        fields: found.fields,
        length: found.length,
        error_offset: 0,
        error: HTTP_HEAD_ERROR_NONE,
    }
}

/// Parses field lines (RFC 9112, section 5) up to the empty line after them, at the start of
/// `bytes`: a trailer section (section 7.1.2) and the line ending after it. The bytes after the
/// empty line are not read. There may be no field lines.
///
/// `DONE`: the offsets of the fields are written, in order, and their number and length.
///
/// `INCOMPLETE`: the empty line is not there, but more bytes can complete it. In complete input
/// this is an error.
///
/// The trailers that `exported_http_chunked` returns do not have the empty line: append a CRLF to
/// them. The bytes are scanned once, and each call starts at the first byte. The function does not
/// allocate.
///
/// # Errors
///
/// `INVALID`: `bytes` does not start with field lines and an empty line, regardless of what
/// follows. The offset of the first invalid byte is written, and why it is invalid: the bytes
/// before it can continue, and together with the byte there they cannot.
///
/// `BUFFER_TOO_SMALL`: there are more fields than the buffer has entries. The number of fields is
/// written.
///
/// After any code but `DONE`, the contents of the buffer are unspecified, because the fields are
/// written during parsing, and all other parts of the result are 0.
///
/// # Safety
///
/// `bytes` must be valid for reads of `bytes_length` bytes, which must not change during the call.
/// `fields` must be valid for writes of `fields_length` entries, and `out` for writes of one
/// result. None of these may overlap. The call needs 16 KiB of stack.
#[unsafe(no_mangle)]
pub extern "C" fn exported_http_field_lines(
    bytes: &[u8],
    fields: &mut [Field],
    out: &mut HttpFields,
) -> u32
    ensures lines { result ≡ done
        → ShowsLines bytes.now (lines_of out.new) (take out.new.fields fields.new) }
    ensures room { result ≡ done → out.new.fields ≤ length fields.old }
    ensures behind { result ≡ done
        → drop out.new.fields fields.new ≡ drop out.new.fields fields.old }
    ensures small { result ≡ buffer_too_small → AreWanted bytes.now out.new.fields
        × (length fields.old < out.new.fields) }
    ensures refused { result ≡ invalid → NoFields bytes.now }
    ensures place { result ≡ invalid
        → IsRefusedBy BeginsFields NoFields bytes.now out.new.error_offset
        × HasPart HeadKind.Trailers bytes.now out.new.error_offset out.new.error }
    ensures nowhere { (result ≡ invalid → ⊥)
        → (out.new.error_offset ≡ 0) × (out.new.error ≡ 0) }
    ensures parts { (result ≡ done → ⊥) → out.new.length ≡ 0 }
    ensures count { (result ≡ invalid → out.new.fields ≡ 0)
        × (result ≡ incomplete → out.new.fields ≡ 0) }
    ensures incomplete { result ≡ incomplete → BeginsFields bytes.now × NoFieldsRead bytes.now }
    ensures codes { (result ≡ done) ⊎ ((result ≡ buffer_too_small) ⊎ ((result ≡ invalid)
        ⊎ (result ≡ incomplete))) }
{
    match read_field_lines_into(bytes, fields) {
        Ok(found) => {
            *out = lines_of(found);
            DONE
        }
        Err(HeadError::TooManyFields(count)) => {
            *out = none(count, 0, HTTP_HEAD_ERROR_NONE);
            BUFFER_TOO_SMALL
        }
        Err(HeadError::Incomplete) => {
            *out = none(0, 0, HTTP_HEAD_ERROR_NONE);
            INCOMPLETE
        }
        Err(HeadError::Invalid(invalid)) => {
            *out = none(0, invalid.place, number_of(invalid.part));
            INVALID
        }
    }
}
