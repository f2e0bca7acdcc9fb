//! The heads of responses.

ghost use Rattle.std.specs.Prelude.{◌≡◌, ◌⊎◌, ◌≤◌, ◌<◌, drop, length, take};
ghost use Rattle.format_http.specs.Responses.Head.{BeginsResponseHead, NoResponseHead};
ghost use Rattle.format_http_places.specs.Responses.{IsResponseRefused, IsResponseWanted};
ghost use Rattle.format_http_places.specs.Responses.{NoResponseRead, ShowsResponse};
ghost use Rattle.exported.specs.Code.{buffer_too_small, done, incomplete, invalid};
ghost use Rattle.exported.specs.Http.{HasNoResponseParts, HasPart, IsNoResponse, response_of};

use crate::code::{BUFFER_TOO_SMALL, DONE, INCOMPLETE, INVALID};
use crate::http::error::{HTTP_HEAD_ERROR_INCOMPLETE, HTTP_HEAD_ERROR_NONE, number_of};
use format_http_places::parts::HeadKind;
use format_http_places::places;
pub use format_http_places::places::{Field, Span};
use format_http_places::read::HeadError;
use format_http_places::response::read_response_head_into;

/// The numbers and the places of the parts of the head of a response.
#[repr(C)]
#[derive(Clone, Copy, Drop)]
pub struct HttpResponse {
    /// The span of the reason phrase. If it is empty, the span is at the end of its line.
    pub reason: Span,
    /// How many fields there are.
    pub fields: usize,
    /// The length of the head in bytes, including the empty line after the fields.
    pub length: usize,
    /// The offset of the error in bytes; 0 otherwise.
    pub error_offset: usize,
    /// Why the byte at this offset is invalid; `HTTP_HEAD_ERROR_NONE` otherwise.
    pub error: u32,
    /// The status code, below 1000.
    pub status: u16,
    /// The number before the point of the version, below 10.
    pub major: u8,
    /// The number after the point of the version, below 10.
    pub minor: u8,
}

/// Returns an empty head with a number of fields, and the offset and the number of an error.
fn none(fields: usize, place: usize, error: u32) -> HttpResponse
    ensures fields { result.fields ≡ fields }
    ensures place { (result.error_offset ≡ place) × (result.error ≡ error) }
    ensures parts { HasNoResponseParts result }
{
    let nowhere = Span {
        offset: 0,
        length: 0,
    };
    HttpResponse {
        reason: nowhere,
        fields,
        length: 0,
        error_offset: place,
        error,
        status: 0,
        major: 0,
        minor: 0,
    }
}

/// A head that was found.
fn head_of(found: places::ResponseHead) -> HttpResponse
    ensures places { response_of result ≡ found }
    ensures place { (result.error_offset ≡ 0) × (result.error ≡ 0) }
{
    HttpResponse {
        reason: found.reason,
        fields: found.fields,
        length: found.length,
        error_offset: 0,
        error: HTTP_HEAD_ERROR_NONE,
        status: found.status,
        major: found.major,
        minor: found.minor,
    }
}

/// Parses the head of an HTTP/1.1 response (RFC 9112) at the start of `bytes`: a status line, field
/// lines, and an empty line. The bytes after it are not read.
///
/// `DONE`: the version, the status code, the span of the reason phrase, and the offsets of the
/// fields are written, in order. The status code has three digits, and the first may be any digit.
/// The reason phrase may be empty; then the space before it may also be missing.
///
/// The method of the request, the status code and the fields determine whether a body follows, and
/// its length (RFC 9112, section 6.3). The bytes are scanned once. The function does not allocate.
///
/// # Errors
///
/// `INVALID`: `bytes` does not start with a head. The first offset at which no head can continue is
/// written, and why the byte there is invalid. If `bytes` ends within a head, it is the end of
/// `bytes`, with `HTTP_HEAD_ERROR_INCOMPLETE`.
///
/// `BUFFER_TOO_SMALL`: the head has more fields than the buffer has entries. The number of fields
/// is written.
///
/// After an error the contents of the buffer are unspecified, because the fields are written during
/// parsing, and all other parts of the head are 0.
///
/// # Safety
///
/// `bytes` must be valid for reads of `bytes_length` bytes, which must not change during the call.
/// `fields` must be valid for writes of `fields_length` entries, and `out` for writes of one head.
/// None of these may overlap. The call needs 16 KiB of stack.
#[unsafe(no_mangle)]
pub extern "C" fn exported_http_response_head(
    bytes: &[u8],
    fields: &mut [Field],
    out: &mut HttpResponse,
) -> u32
    ensures head { result ≡ done
        → ShowsResponse bytes.now (response_of out.new) (take out.new.fields fields.new) }
    ensures room { result ≡ done → out.new.fields ≤ length fields.old }
    ensures behind { result ≡ done
        → drop out.new.fields fields.new ≡ drop out.new.fields fields.old }
    ensures small { result ≡ buffer_too_small → IsResponseWanted bytes.now out.new.fields
        × (length fields.old < out.new.fields) }
    ensures refused { result ≡ invalid → NoResponseRead bytes.now }
    ensures place { result ≡ invalid → IsNoResponse bytes.now out.new.error_offset out.new.error }
    ensures nowhere { (result ≡ invalid → ⊥)
        → (out.new.error_offset ≡ 0) × (out.new.error ≡ 0) }
    ensures parts { (result ≡ done → ⊥) → HasNoResponseParts out.new }
    ensures count { result ≡ invalid → out.new.fields ≡ 0 }
    ensures codes { (result ≡ done) ⊎ ((result ≡ buffer_too_small) ⊎ (result ≡ invalid)) }
{
    match read_response_head_into(bytes, fields) {
        Ok(found) => {
            *out = head_of(found);
            DONE
        }
        Err(HeadError::TooManyFields(count)) => {
            *out = none(count, 0, HTTP_HEAD_ERROR_NONE);
            BUFFER_TOO_SMALL
        }
        Err(HeadError::Incomplete) => {
            *out = none(0, bytes.len(), HTTP_HEAD_ERROR_INCOMPLETE);
            INVALID
        }
        Err(HeadError::Invalid(invalid)) => {
            *out = none(0, invalid.place, number_of(invalid.part));
            INVALID
        }
    }
}

/// Parses the same head from partial input. It succeeds as soon as the empty line is there.
///
/// `DONE`: as for complete input.
///
/// `INCOMPLETE`: `bytes` does not start with a head, but more bytes can complete one.
///
/// Each call parses from the first byte.
///
/// # Errors
///
/// `INVALID`: `bytes` does not start with a head, regardless of what follows. The offset of the
/// first invalid byte is written, and why it is invalid: the bytes before it are a prefix of a
/// head, and together with the byte there they are not.
///
/// `BUFFER_TOO_SMALL`: as for complete input.
///
/// After any code but `DONE`, the contents of the buffer are unspecified.
///
/// # Safety
///
/// `bytes` must be valid for reads of `bytes_length` bytes, which must not change during the call.
/// `fields` must be valid for writes of `fields_length` entries, and `out` for writes of one head.
/// None of these may overlap. The call needs 16 KiB of stack.
#[unsafe(no_mangle)]
pub extern "C" fn exported_http_response_head_partial(
    bytes: &[u8],
    fields: &mut [Field],
    out: &mut HttpResponse,
) -> u32
    ensures head { result ≡ done
        → ShowsResponse bytes.now (response_of out.new) (take out.new.fields fields.new) }
    ensures room { result ≡ done → out.new.fields ≤ length fields.old }
    ensures behind { result ≡ done
        → drop out.new.fields fields.new ≡ drop out.new.fields fields.old }
    ensures small { result ≡ buffer_too_small → IsResponseWanted bytes.now out.new.fields
        × (length fields.old < out.new.fields) }
    ensures refused { result ≡ invalid → NoResponseHead bytes.now }
    ensures place { result ≡ invalid → IsResponseRefused bytes.now out.new.error_offset
        × HasPart HeadKind.Response bytes.now out.new.error_offset out.new.error }
    ensures nowhere { (result ≡ invalid → ⊥)
        → (out.new.error_offset ≡ 0) × (out.new.error ≡ 0) }
    ensures parts { (result ≡ done → ⊥) → HasNoResponseParts out.new }
    ensures count { (result ≡ invalid → out.new.fields ≡ 0)
        × (result ≡ incomplete → out.new.fields ≡ 0) }
    ensures incomplete { result ≡ incomplete
        → BeginsResponseHead bytes.now × NoResponseRead bytes.now }
    ensures codes { (result ≡ done) ⊎ ((result ≡ buffer_too_small) ⊎ ((result ≡ invalid)
        ⊎ (result ≡ incomplete))) }
{
    match read_response_head_into(bytes, fields) {
        Ok(found) => {
            *out = head_of(found);
            DONE
        }
        Err(HeadError::TooManyFields(count)) => {
            *out = none(count, 0, HTTP_HEAD_ERROR_NONE);
            BUFFER_TOO_SMALL
        }
        Err(HeadError::Incomplete) => {
            *out = none(0, 0, HTTP_HEAD_ERROR_NONE);
            INCOMPLETE
        }
        Err(HeadError::Invalid(invalid)) => {
            *out = none(0, invalid.place, number_of(invalid.part));
            INVALID
        }
    }
}
