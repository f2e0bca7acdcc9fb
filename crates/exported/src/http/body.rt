//! The length of the body of a message, by its head, or why the message must be rejected (RFC 9112,
//! sections 3.2 and 6.3).

ghost use Rattle.std.specs.Prelude.{◌≡◌, ◌⊎◌};
ghost use Rattle.exported.specs.Code.{done, invalid, no_memory};
ghost use Rattle.exported.specs.HttpBody.{FramesRequest, FramesResponse, HasLength};
ghost use Rattle.exported.specs.HttpBody.{RejectsRequest, RejectsResponse, Writes, WritesRequest};
ghost use Rattle.exported.specs.HttpBody.{fault_number, no_body, reason_number};

use crate::code::{DONE, INVALID, NO_MEMORY};
use format_http::bodies::framing::{BodyLength, FramingError};
use format_http::bodies::refusals::{Reason, request_framing};
use format_http::heads::head::read_head;
use format_http::heads::hosts::HostError;
use format_http::responses::head::{read_response_head, response_body_length};
use std::alloc::Global;
use winnow::error::ParserError;

/// The message has no body. The next message starts after its head.
pub const HTTP_BODY_NONE: u32 = 0;

/// The body is chunked. Decode it with `exported_http_chunked`. If other codings precede `chunked`,
/// the content is encoded by these.
pub const HTTP_BODY_CHUNKED: u32 = 1;

/// The body has a number of bytes.
pub const HTTP_BODY_LENGTH: u32 = 2;

/// The body ends with the connection.
pub const HTTP_BODY_UNTIL_CLOSE: u32 = 3;

/// The connection has become a tunnel.
pub const HTTP_BODY_TUNNEL: u32 = 4;

/// No error.
pub const HTTP_ERROR_NONE: u32 = 0;

/// Invalid head. The bytes do not start with one.
pub const HTTP_ERROR_HEAD: u32 = 1;

/// Missing Host field. A request of HTTP/1.1 must have one.
pub const HTTP_ERROR_MISSING_HOST: u32 = 2;

/// More than one Host field.
pub const HTTP_ERROR_MANY_HOSTS: u32 = 3;

/// Transfer-Encoding in a version before HTTP/1.1.
pub const HTTP_ERROR_CODING_BEFORE_VERSION: u32 = 4;

/// Both Transfer-Encoding and Content-Length.
pub const HTTP_ERROR_LENGTH_AND_CODING: u32 = 5;

/// Transfer coding after chunked. It may be `chunked` again.
pub const HTTP_ERROR_CHUNKED_NOT_LAST: u32 = 6;

/// Last transfer coding of the request is not chunked.
pub const HTTP_ERROR_NOT_CHUNKED: u32 = 7;

/// Content-Length values differ. An empty value and one with other leading zeros differ, too.
pub const HTTP_ERROR_LENGTHS_DIFFER: u32 = 8;

/// Content-Length is not a number.
pub const HTTP_ERROR_LENGTH_NOT_A_NUMBER: u32 = 9;

/// Content-Length too large. It is 2^64 or more.
pub const HTTP_ERROR_LENGTH_TOO_LARGE: u32 = 10;

/// Invalid Host field. Its value is not a host with an optional port.
pub const HTTP_ERROR_INVALID_HOST: u32 = 11;

/// Invalid request target. It is in no form that the method may have.
pub const HTTP_ERROR_INVALID_TARGET: u32 = 12;

/// Invalid transfer coding. An element of Transfer-Encoding is not a token with parameters.
pub const HTTP_ERROR_INVALID_CODING: u32 = 13;

/// The length of the body of a message, or why the message must be rejected.
#[repr(C)]
#[derive(Clone, Copy, Drop)]
pub struct HttpBody {
    /// How the length is determined; `HTTP_BODY_NONE` after an error.
    pub kind: u32,
    /// The reason to reject the message; `HTTP_ERROR_NONE` otherwise.
    pub error: u32,
    /// The number of bytes of a body of the kind `HTTP_BODY_LENGTH`; 0 otherwise.
    pub length: u64,
}

const NO_BODY: HttpBody = HttpBody {
    kind: HTTP_BODY_NONE,
    error: HTTP_ERROR_NONE,
    length: 0,
};

/// Returns the output for an error.
fn rejected(error: u32) -> HttpBody
    ensures { (result.kind ≡ 0) × (result.error ≡ error) × (result.length ≡ 0) }
{
    HttpBody { error, ..NO_BODY }
}

/// Returns the number of the reason to reject a request.
fn number_of(reason: Reason) -> u32
    ensures { result ≡ reason_number reason }
{
    match reason {
        Reason::Target => HTTP_ERROR_INVALID_TARGET,
        Reason::Host(HostError::Missing) => HTTP_ERROR_MISSING_HOST,
        Reason::Host(HostError::Many) => HTTP_ERROR_MANY_HOSTS,
        Reason::Host(HostError::Invalid) => HTTP_ERROR_INVALID_HOST,
        Reason::Body(fault) => error_of(fault),
    }
}

/// Returns the output for a body with this kind and this number of bytes.
fn body_of(kind: u32, length: u64) -> HttpBody
    ensures { HasLength result kind length }
{
    HttpBody {
        kind,
        error: HTTP_ERROR_NONE,
        length,
    }
}

/// Returns the code and the output for the length of a body.
pub(crate) fn response_of(found: Result<BodyLength, FramingError>) -> (u32, HttpBody)
    ensures { Writes found result.0 result.1 }
{
    match found {
        Ok(BodyLength::NoBody) => (DONE, body_of(HTTP_BODY_NONE, 0)),
        Ok(BodyLength::Chunked) => (DONE, body_of(HTTP_BODY_CHUNKED, 0)),
        Ok(BodyLength::Length(length)) => (DONE, body_of(HTTP_BODY_LENGTH, length)),
        Ok(BodyLength::UntilClose) => (DONE, body_of(HTTP_BODY_UNTIL_CLOSE, 0)),
        Ok(BodyLength::Tunnel) => (DONE, body_of(HTTP_BODY_TUNNEL, 0)),
        Err(fault) => (INVALID, rejected(error_of(fault))),
    }
}

/// Returns the code and the output for the length of the body of a request.
pub(crate) fn request_of(found: Result<BodyLength, Reason>) -> (u32, HttpBody)
    ensures { WritesRequest found result.0 result.1 }
{
    match found {
        Ok(length) => response_of(Ok(length)),
        Err(reason) => (INVALID, rejected(number_of(reason))),
    }
}

/// Returns the number of an error.
fn error_of(fault: FramingError) -> u32
    ensures { result ≡ fault_number fault }
{
    match fault {
        FramingError::CodingBeforeVersion => HTTP_ERROR_CODING_BEFORE_VERSION,
        FramingError::LengthBesideCoding => HTTP_ERROR_LENGTH_AND_CODING,
        FramingError::InvalidCoding => HTTP_ERROR_INVALID_CODING,
        FramingError::ChunkedNotLast => HTTP_ERROR_CHUNKED_NOT_LAST,
        FramingError::NotChunked => HTTP_ERROR_NOT_CHUNKED,
        FramingError::LengthsDiffer => HTTP_ERROR_LENGTHS_DIFFER,
        FramingError::LengthIsNoNumber => HTTP_ERROR_LENGTH_NOT_A_NUMBER,
        FramingError::LengthTooLarge => HTTP_ERROR_LENGTH_TOO_LARGE,
    }
}

/// Determines the length of the body of the request whose head is at the start of `bytes` (RFC
/// 9112, section 6.3), or why a server must respond with status 400 and close the connection.
///
/// A request with both Transfer-Encoding and Content-Length, or with Transfer-Encoding in a version
/// before 1.1, is rejected. Content-Length fields must have one numeral, possibly repeated, and no
/// empty element. Names of fields and codings are compared ignoring ASCII case. Codings other than
/// `chunked` are not distinguished.
///
/// A request is also rejected if its target is in none of the forms that its method may have
/// (section 3.2), if its Host field is not a host with an optional port, or if its
/// Transfer-Encoding is not a list of codings (RFC 9110, section 10.1.4). Whether the bytes of a
/// host in brackets are an address is not examined.
///
/// `DONE`: the kind is written, and the length of a body of the kind `HTTP_BODY_LENGTH`. The kind
/// is `HTTP_BODY_NONE`, `HTTP_BODY_CHUNKED` or `HTTP_BODY_LENGTH`.
///
/// This is the form for callers that do not read the head: it parses the head, and allocates. If
/// `exported_http_head` has parsed it, `exported_http_request_framing` does neither. A call holds
/// up to 32 bytes of memory for each byte of the head, and does not read after it.
///
/// # Errors
///
/// `INVALID`: the request must be rejected. The reason is written. If `bytes` does not start with a
/// head, it is `HTTP_ERROR_HEAD`.
///
/// `NO_MEMORY`.
///
/// After an error all else is 0.
///
/// # Safety
///
/// `bytes` must be valid for reads of `bytes_length` bytes, which must not change during the call,
/// and `out` must be valid for writes of one length. They must not overlap. The call needs 16 KiB
/// of stack.
#[unsafe(no_mangle)]
pub extern "C" fn exported_http_request_body(alloc: Global, bytes: &[u8], out: &mut HttpBody) -> u32
    ensures body { result ≡ done → FramesRequest bytes.now result out.new }
    ensures refused { result ≡ invalid → RejectsRequest bytes.now result out.new }
    ensures memory { result ≡ no_memory → out.new ≡ no_body }
    ensures codes { (result ≡ done) ⊎ ((result ≡ invalid) ⊎ (result ≡ no_memory)) }
{
    let mut input = bytes;
    match read_head(alloc, &mut input) {
        Ok(head) => {
            let framing = request_framing(&head.line, head.fields.as_slice());
            let (code, body) = request_of(framing);
            *out = body;
            code
        }
        Err(error) => {
            if ParserError::<&[u8]>::is_memory(&error) {
                *out = NO_BODY;
                NO_MEMORY
            } else {
                *out = rejected(HTTP_ERROR_HEAD);
                INVALID
            }
        }
    }
}

/// Determines the length of the body of the response whose head is at the start of `bytes`, to a
/// request with this method (RFC 9112, section 6.3), or why a client must discard the response and
/// close the connection.
///
/// The rules are those of `exported_http_request_body`, with these for responses: a response to
/// HEAD, or of status 1xx, 204 or 304, has no body. A response of status 2xx to CONNECT makes the
/// connection a tunnel. Without a length, or if the last coding is not `chunked`, the body ends
/// with the connection. Methods are compared in their letter case.
///
/// `DONE`: the kind is written, and the length of a body of the kind `HTTP_BODY_LENGTH`.
///
/// This is the form for callers that do not read the head: it parses the head, and allocates. If
/// `exported_http_response_head` has parsed it, `exported_http_response_framing` does neither. A
/// call holds up to 32 bytes of memory for each byte of the head, and does not read after it.
///
/// # Errors
///
/// `INVALID`: the response must be rejected. The reason is written. If `bytes` does not start with
/// a head, it is `HTTP_ERROR_HEAD`.
///
/// `NO_MEMORY`.
///
/// After an error all else is 0.
///
/// # Safety
///
/// `method` must be valid for reads of `method_length` bytes, `bytes` for reads of `bytes_length`
/// bytes, which must not change during the call, and `out` for writes of one length. `out` must not
/// overlap the others. The call needs 16 KiB of stack.
#[unsafe(no_mangle)]
pub extern "C" fn exported_http_response_body(
    alloc: Global,
    method: &[u8],
    bytes: &[u8],
    out: &mut HttpBody,
) -> u32
    ensures body { result ≡ done → FramesResponse method.now bytes.now result out.new }
    ensures refused { result ≡ invalid → RejectsResponse method.now bytes.now result out.new }
    ensures memory { result ≡ no_memory → out.new ≡ no_body }
    ensures codes { (result ≡ done) ⊎ ((result ≡ invalid) ⊎ (result ≡ no_memory)) }
{
    let mut input = bytes;
    match read_response_head(alloc, &mut input) {
        Ok(head) => {
            let (code, body) = response_of(response_body_length(method, &head));
            *out = body;
            code
        }
        Err(error) => {
            if ParserError::<&[u8]>::is_memory(&error) {
                *out = NO_BODY;
                NO_MEMORY
            } else {
                *out = rejected(HTTP_ERROR_HEAD);
                INVALID
            }
        }
    }
}
