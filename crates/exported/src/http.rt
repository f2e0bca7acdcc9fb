//! Heads of requests. Submodules have the heads of responses, the errors of both, the end of a head
//! in partial input, field lines without a first line, the fields of a name, the lengths of bodies,
//! whether the connection persists, and chunked bodies.

ghost use Rattle.std.specs.Prelude.{◌≡◌, ◌⊎◌, ◌≤◌, ◌<◌, List, drop, length, take, ℕ};
ghost use Rattle.format_http.specs.Heads.Head.{IsHead, Pair, Request};
ghost use Rattle.format_http.specs.Heads.Head.{BeginsHead, NoHead};
ghost use Rattle.format_http_places.specs.Places.{IsWanted, ShowsHead};
ghost use Rattle.format_http_places.specs.Refusals.{IsRefused};
ghost use Rattle.exported.specs.Code.{buffer_too_small, done, incomplete, invalid};
ghost use Rattle.exported.specs.Http.{HasNoParts, HasPart, IsNoHead, places_of};

pub mod body;
pub mod chunked;
pub mod error;
pub mod extent;
pub mod field;
pub mod framing;
pub mod response;
pub mod trailers;

use crate::code::{BUFFER_TOO_SMALL, DONE, INCOMPLETE, INVALID};
use crate::http::error::{HTTP_HEAD_ERROR_INCOMPLETE, HTTP_HEAD_ERROR_NONE, number_of};
use format_http_places::parts::HeadKind;
use format_http_places::places;
pub use format_http_places::places::{Field, Span};
use format_http_places::read::{HeadError, read_head_into};

/// The places of the parts of a head.
#[repr(C)]
#[derive(Clone, Copy, Drop)]
pub struct HttpRequest {
    /// The method.
    pub method: Span,
    /// The request target.
    pub target: Span,
    /// How many fields there are.
    pub fields: usize,
    /// The length of the head in bytes, including the empty line after the fields.
    pub length: usize,
    /// The offset of the error in bytes; 0 otherwise.
    pub error_offset: usize,
    /// Why the byte at this offset is invalid; `HTTP_HEAD_ERROR_NONE` otherwise.
    pub error: u32,
    /// The number before the point of the version, below 10.
    pub major: u8,
    /// The number after the point of the version, below 10.
    pub minor: u8,
}

/// Returns an empty head with a number of fields, and the offset and the number of an error.
fn none(fields: usize, place: usize, error: u32) -> HttpRequest
    ensures fields { result.fields ≡ fields }
    ensures place { (result.error_offset ≡ place) × (result.error ≡ error) }
    ensures parts { HasNoParts result }
{
    let nowhere = Span {
        offset: 0,
        length: 0,
    };
    HttpRequest {
        method: nowhere,
        target: nowhere,
        fields,
        length: 0,
        error_offset: place,
        error,
        major: 0,
        minor: 0,
    }
}

/// A head that was found.
fn head_of(found: places::Head) -> HttpRequest
    ensures places { places_of result ≡ found }
    ensures place { (result.error_offset ≡ 0) × (result.error ≡ 0) }
{
    HttpRequest {
        method: found.method,
        target: found.target,
        fields: found.fields,
        length: found.length,
        error_offset: 0,
        error: HTTP_HEAD_ERROR_NONE,
        major: found.major,
        minor: found.minor,
    }
}

/// Parses the head of an HTTP/1.1 request (RFC 9112) at the start of `bytes`: a request line, field
/// lines, and an empty line. The bytes after it are not read.
///
/// `DONE`: the offsets of the parts of the head are written, and those of its fields, in order.
///
/// Empty lines before the request line are not skipped. A lenient server (RFC 9112, section 2.2)
/// must skip one CRLF there itself. The bytes are scanned once. The function does not allocate.
///
/// # Errors
///
/// `INVALID`: `bytes` does not start with a head. The first offset at which no head can continue is
/// written, and why the byte there is invalid. If `bytes` ends within a head, it is the end of
/// `bytes`, with `HTTP_HEAD_ERROR_INCOMPLETE`.
///
/// `BUFFER_TOO_SMALL`: the head has more fields than the buffer has entries. The number of fields
/// is written.
///
/// After an error the contents of the buffer are unspecified, because the fields are written during
/// parsing, and all other parts of the head are 0.
///
/// # Safety
///
/// `bytes` must be valid for reads of `bytes_length` bytes, which must not change during the call.
/// `fields` must be valid for writes of `fields_length` entries, and `out` for writes of one head.
/// None of these may overlap. The call needs 16 KiB of stack.
#[unsafe(no_mangle)]
pub extern "C" fn exported_http_head(
    bytes: &[u8],
    fields: &mut [Field],
    out: &mut HttpRequest,
) -> u32
    ensures head { result ≡ done
        → ShowsHead bytes.now (places_of out.new) (take out.new.fields fields.new) }
    ensures room { result ≡ done → out.new.fields ≤ length fields.old }
    ensures behind { result ≡ done
        → drop out.new.fields fields.new ≡ drop out.new.fields fields.old }
    ensures small { result ≡ buffer_too_small → IsWanted bytes.now out.new.fields
        × (length fields.old < out.new.fields) }
    ensures refused { result ≡ invalid → (line : Request) (pairs : List Pair) (rest : List ℕ)
        → IsHead line pairs bytes.now rest → ⊥ }
    ensures place { result ≡ invalid → IsNoHead bytes.now out.new.error_offset out.new.error }
    ensures nowhere { (result ≡ invalid → ⊥)
        → (out.new.error_offset ≡ 0) × (out.new.error ≡ 0) }
    ensures parts { (result ≡ done → ⊥) → HasNoParts out.new }
    ensures count { result ≡ invalid → out.new.fields ≡ 0 }
    ensures codes { (result ≡ done) ⊎ ((result ≡ buffer_too_small) ⊎ (result ≡ invalid)) }
{
    match read_head_into(bytes, fields) {
        Ok(found) => {
            *out = head_of(found);
            DONE
        }
        Err(HeadError::TooManyFields(count)) => {
            *out = none(count, 0, HTTP_HEAD_ERROR_NONE);
            BUFFER_TOO_SMALL
        }
        Err(HeadError::Incomplete) => {
            *out = none(0, bytes.len(), HTTP_HEAD_ERROR_INCOMPLETE);
            INVALID
        }
        Err(HeadError::Invalid(invalid)) => {
            *out = none(0, invalid.place, number_of(invalid.part));
            INVALID
        }
    }
}

/// Parses the same head from partial input. It succeeds as soon as the empty line is there.
///
/// `DONE`: as for complete input.
///
/// `INCOMPLETE`: `bytes` does not start with a head, but more bytes can complete one.
///
/// Each call parses from the first byte.
///
/// # Errors
///
/// `INVALID`: `bytes` does not start with a head, regardless of what follows. The offset of the
/// first invalid byte is written, and why it is invalid: the bytes before it are a prefix of a
/// head, and together with the byte there they are not.
///
/// `BUFFER_TOO_SMALL`: as for complete input.
///
/// After any code but `DONE`, the contents of the buffer are unspecified.
///
/// # Safety
///
/// `bytes` must be valid for reads of `bytes_length` bytes, which must not change during the call.
/// `fields` must be valid for writes of `fields_length` entries, and `out` for writes of one head.
/// None of these may overlap. The call needs 16 KiB of stack.
#[unsafe(no_mangle)]
pub extern "C" fn exported_http_head_partial(
    bytes: &[u8],
    fields: &mut [Field],
    out: &mut HttpRequest,
) -> u32
    ensures head { result ≡ done
        → ShowsHead bytes.now (places_of out.new) (take out.new.fields fields.new) }
    ensures room { result ≡ done → out.new.fields ≤ length fields.old }
    ensures behind { result ≡ done
        → drop out.new.fields fields.new ≡ drop out.new.fields fields.old }
    ensures small { result ≡ buffer_too_small → IsWanted bytes.now out.new.fields
        × (length fields.old < out.new.fields) }
    ensures refused { result ≡ invalid → NoHead bytes.now }
    ensures place { result ≡ invalid → IsRefused bytes.now out.new.error_offset
        × HasPart HeadKind.Request bytes.now out.new.error_offset out.new.error }
    ensures nowhere { (result ≡ invalid → ⊥)
        → (out.new.error_offset ≡ 0) × (out.new.error ≡ 0) }
    ensures parts { (result ≡ done → ⊥) → HasNoParts out.new }
    ensures count { (result ≡ invalid → out.new.fields ≡ 0)
        × (result ≡ incomplete → out.new.fields ≡ 0) }
    ensures incomplete { result ≡ incomplete → BeginsHead bytes.now
        × ((line : Request) (pairs : List Pair) (rest : List ℕ)
        → IsHead line pairs bytes.now rest → ⊥) }
    ensures codes { (result ≡ done) ⊎ ((result ≡ buffer_too_small) ⊎ ((result ≡ invalid)
        ⊎ (result ≡ incomplete))) }
{
    match read_head_into(bytes, fields) {
        Ok(found) => {
            *out = head_of(found);
            DONE
        }
        Err(HeadError::TooManyFields(count)) => {
            *out = none(count, 0, HTTP_HEAD_ERROR_NONE);
            BUFFER_TOO_SMALL
        }
        Err(HeadError::Incomplete) => {
            *out = none(0, 0, HTTP_HEAD_ERROR_NONE);
            INCOMPLETE
        }
        Err(HeadError::Invalid(invalid)) => {
            *out = none(0, invalid.place, number_of(invalid.part));
            INVALID
        }
    }
}
