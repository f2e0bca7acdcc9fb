//! The end of a message whose head was read, and whether the connection persists after it, without
//! reading the head again (RFC 9112, sections 3.2, 6.3 and 9.3).

ghost use Rattle.std.specs.Prelude.{◌≡◌, ◌⊎◌, ◌↔◌, IsTrue, MatchOption, take};
ghost use Rattle.format_http.specs.Heads.Head.{request};
ghost use Rattle.format_http_places.specs.Places.{ShowsHead};
ghost use Rattle.format_http_places.specs.Responses.{ShowsResponse};
ghost use Rattle.exported.specs.Code.{done, invalid};
ghost use Rattle.exported.specs.Http.{places_of, response_of};
ghost use Rattle.exported.specs.HttpFraming.{FramesLine, FramesStatus, HasNoHost, HasOneHost};
ghost use Rattle.exported.specs.HttpFraming.{IsDelimited, IsFirstValue, IsNextHost, IsPlaceOf};
ghost use Rattle.exported.specs.HttpFraming.{IsRejectedAt, IsSecondName, Remains, fields_at};
ghost use Rattle.exported.specs.HttpFraming.{line_at, nowhere, status_at};

use crate::http::HttpRequest;
use crate::http::body::{HttpBody, request_of, response_of};
use crate::http::response::HttpResponse;
use format_http::bodies::framing::{BodyLength, Message, body_length};
use format_http::bodies::refusals::{Reason, request_framing};
use format_http::heads::fields::Fields;
use format_http::heads::hosts::HostError;
use format_http::heads::request_line::RequestLine;
use format_http::persistence::persists;
pub use format_http_places::places::{Field, Span};
use format_http_places::slices::{FieldsAt, slice_at, slices_are_those_of_the_head};

/// Where a message ends, or why it must be rejected, and whether the connection persists after it.
#[repr(C)]
#[derive(Clone, Copy, Drop)]
pub struct HttpFraming {
    /// The length of the body, or the reason to reject the message.
    pub body: HttpBody,
    /// The span of what is rejected, for these errors: the target with `HTTP_ERROR_INVALID_TARGET`,
    /// the name of the second Host field with `HTTP_ERROR_MANY_HOSTS`, and the value of the Host
    /// field with `HTTP_ERROR_INVALID_HOST`. Empty at 0 otherwise.
    pub rejected: Span,
    /// Whether the connection persists after the message; false after an error.
    pub persists: bool,
}

const NOWHERE: Span = Span {
    offset: 0,
    length: 0,
};

/// Returns the first `count` fields, or all.
fn first(fields: &[Field], count: usize) -> &[Field]
    ensures { result.now ≡ take count fields.now }
{
    fields.get(..count).unwrap_or(fields)
}

/// Returns the first field that is named Host, and the fields after it.
fn next_host<'f>(bytes: &[u8], fields: &'f [Field]) -> Option<(Field, &'f [Field])>
    ensures { MatchOption result (HasNoHost bytes.now fields.now)
        (λ found. IsNextHost bytes.now fields.now found.0 found.1.now) }
{
    let mut left = fields;
    'passed: while let Some((field, more)) = left.split_first() {
        if slice_at(bytes, field.name).eq_ignore_ascii_case(b"host".as_slice()) {
            return Some((*field, more));
        }
        left = more;
    }
    None
}

/// Returns the span of the value of the first Host field.
fn first_value(bytes: &[u8], fields: &[Field]) -> Span
    ensures { HasNoHost bytes.now fields.now ⊎ IsFirstValue bytes.now fields.now result }
{
    match next_host(bytes, fields) {
        Some((host, _)) => host.value,
        None => NOWHERE,
    }
}

/// Returns the span of the name of the second Host field.
fn second_name(bytes: &[u8], fields: &[Field]) -> Span
    ensures { HasOneHost bytes.now fields.now ⊎ IsSecondName bytes.now fields.now result }
{
    match next_host(bytes, fields) {
        Some((_, more)) => match next_host(bytes, more) {
            Some((host, _)) => host.name,
            None => NOWHERE,
        },
        None => NOWHERE,
    }
}

/// Returns the span of what is rejected, if it is the target or a Host field.
fn rejected_at(
    bytes: &[u8],
    fields: &[Field],
    target: Span,
    found: Result<BodyLength, Reason>,
) -> Span
    ensures { IsPlaceOf bytes.now fields.now target found result }
{
    match found {
        Err(Reason::Target) => target,
        Err(Reason::Host(HostError::Many)) => second_name(bytes, fields),
        Err(Reason::Host(HostError::Invalid)) => first_value(bytes, fields),
        Err(Reason::Host(HostError::Missing)) | Err(Reason::Body(_)) | Ok(_) => NOWHERE,
    }
}

/// Returns whether the body of this length ends before the connection does.
fn is_delimited(length: BodyLength) -> bool
    ensures { IsTrue result ↔ IsDelimited length }
{
    match length {
        BodyLength::NoBody | BodyLength::Chunked | BodyLength::Length(_) => true,
        BodyLength::UntilClose | BodyLength::Tunnel => false,
    }
}

/// Returns whether a message of this version with these fields and this length, or error, leaves
/// the connection open.
fn remains<'i, F: Fields<'i>, E: Copy + Drop>(
    major: u8,
    minor: u8,
    fields: F,
    found: Result<BodyLength, E>,
) -> bool
    ensures { IsTrue result ↔ Remains major minor (F.pairs fields) found }
{
    match found {
        Ok(length) => is_delimited(length) && persists(major, minor, fields),
        Err(_) => false,
    }
}

/// Returns the request line at the positions of a head.
fn request_line<'i>(bytes: &'i [u8], head: &HttpRequest) -> RequestLine<'i>
    ensures { request result ≡ line_at bytes.now head.now }
{
    RequestLine {
        method: slice_at(bytes, head.method),
        target: slice_at(bytes, head.target),
        major: head.major,
        minor: head.minor,
    }
}

/// Determines where the request ends whose head `exported_http_head` or
/// `exported_http_head_partial` wrote for these bytes, or why a server must respond with status 400
/// and close the connection, and whether the connection persists. It does not parse the head again.
///
/// `fields` has the fields of the head; entries after its number of fields are not read.
///
/// `DONE`: the length of the body is written, by the rules of `exported_http_request_body`, and
/// whether the connection persists after the request (RFC 9112, section 9.3): not with the option
/// `close` in a Connection field; otherwise with HTTP/1.1 or later, and with HTTP/1.0 and the
/// option `keep-alive`, which a proxy must ignore. Options are compared ignoring ASCII case.
///
/// If `head` and `fields` are not those of these bytes, the result is that of the bytes at their
/// positions, as far as these are within `bytes`. The function does not allocate.
///
/// # Errors
///
/// `INVALID`: the request must be rejected. The reason is written, and if it is the target or a
/// Host field, its position.
///
/// # Safety
///
/// `bytes` must be valid for reads of `bytes_length` bytes, `fields` for reads of `fields_length`
/// entries and `head` for reads of one head, which must not change during the call. `out` must be
/// valid for writes of one framing, and must not overlap the others. The call needs 16 KiB of
/// stack.
#[unsafe(no_mangle)]
pub extern "C" fn exported_http_request_framing(
    bytes: &[u8],
    fields: &[Field],
    head: &HttpRequest,
    out: &mut HttpFraming,
) -> u32
    ensures head { (shows : ShowsHead bytes.now (places_of head.now)
        (take head.now.fields fields.now)) → FramesLine shows.line shows.fields result out.new }
    ensures any { FramesLine (line_at bytes.now head.now)
        (fields_at bytes.now head.now.fields fields.now) result out.new }
    ensures place { IsRejectedAt bytes.now (take head.now.fields fields.now) head.now.target
        out.new.body.error out.new.rejected }
    ensures codes { (result ≡ done) ⊎ (result ≡ invalid) }
{
    slices_are_those_of_the_head();
    let fields = first(fields, head.fields);
    let read = FieldsAt { bytes, fields };
    let found = request_framing(&request_line(bytes, head), read);
    let (code, body) = request_of(found);
    *out = HttpFraming {
        body,
        rejected: rejected_at(bytes, fields, head.target, found),
        persists: remains(head.major, head.minor, read, found),
    };
    code
}

/// Determines where the response ends whose head `exported_http_response_head` or
/// `exported_http_response_head_partial` wrote for these bytes, to a request with this method, or
/// why a client must discard the response and close the connection, and whether the connection
/// persists. It does not parse the head again.
///
/// `fields` has the fields of the head; entries after its number of fields are not read.
///
/// `DONE`: the length of the body is written, by the rules of `exported_http_response_body`, and
/// whether the connection persists after the response, as for requests. It does not if the body
/// ends with the connection, or the connection has become a tunnel.
///
/// If `head` and `fields` are not those of these bytes, the result is that of the bytes at their
/// positions, as far as these are within `bytes`. The function does not allocate.
///
/// # Errors
///
/// `INVALID`: the response must be rejected. The reason is written.
///
/// # Safety
///
/// `method` must be valid for reads of `method_length` bytes, `bytes` for reads of `bytes_length`
/// bytes, `fields` for reads of `fields_length` entries and `head` for reads of one head, which
/// must not change during the call. `out` must be valid for writes of one framing, and must not
/// overlap the others. The call needs 16 KiB of stack.
#[unsafe(no_mangle)]
pub extern "C" fn exported_http_response_framing(
    method: &[u8],
    bytes: &[u8],
    fields: &[Field],
    head: &HttpResponse,
    out: &mut HttpFraming,
) -> u32
    ensures head { (shows : ShowsResponse bytes.now (response_of head.now)
        (take head.now.fields fields.now))
        → FramesStatus method.now shows.line shows.fields result out.new }
    ensures any { FramesStatus method.now (status_at bytes.now head.now)
        (fields_at bytes.now head.now.fields fields.now) result out.new }
    ensures place { out.new.rejected ≡ nowhere }
    ensures codes { (result ≡ done) ⊎ (result ≡ invalid) }
{
    slices_are_those_of_the_head();
    let fields = first(fields, head.fields);
    let read = FieldsAt { bytes, fields };
    let status = head.status;
    let message = Message::Response { method, status };
    let found = body_length(message, head.major, head.minor, read);
    let (code, body) = response_of(found);
    *out = HttpFraming {
        body,
        rejected: NOWHERE,
        persists: remains(head.major, head.minor, read, found),
    };
    code
}
