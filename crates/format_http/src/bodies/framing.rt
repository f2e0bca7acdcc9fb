//! How long the body of a message is, by its head, or why the message must be rejected (RFC 9112,
//! section 6.3).
#![tactic(auto)]

ghost use Rattle.format_http.specs.Bodies.Framing.{IsBefore, IsBodyLength, IsCodedLength};
ghost use Rattle.format_http.specs.Bodies.Framing.{IsTunnel, IsUndeclared, IsWithoutBody};
ghost use Rattle.format_http.specs.Heads.Head.{pair};
ghost use Rattle.format_http.specs.declared.bodies.framing.Message.TheVariants.{Request};
ghost use Rattle.std.specs.Prelude.{◌↔◌, IsTrue, map};

use crate::bodies::codings::end_chunked;
use crate::bodies::fields::has;
use crate::bodies::invalid::have_invalid;
use crate::bodies::lengths::declared_length;
use crate::heads::fields::Fields;
use crate::heads::head::Head;
use std::alloc::Allocator;

/// Which message a head begins.
///
/// ```
/// use format_http::bodies::framing::Message;
///
/// let found = Message::Response { method: b"GET", status: 200 };
/// assert!(rt; found != Message::Request);
/// ```
#[derive(Clone, Copy, Debug, PartialEq, Drop)]
pub enum Message<'m> {
    /// A request.
    Request,
    /// A response.
    Response {
        /// The method of the request that this is a response to, in the request's letter case:
        /// method names are case-sensitive (RFC 9110, section 9.1).
        method: &'m [u8],
        /// Its status code.
        status: u16,
    },
}

/// How long the body of a message is.
///
/// ```
/// use format_http::bodies::framing::BodyLength;
///
/// assert!(rt; BodyLength::Length(0) != BodyLength::NoBody);
/// ```
#[derive(Clone, Copy, Debug, PartialEq, Eq, Drop)]
pub enum BodyLength {
    /// The message has no body: the next message begins after its head.
    NoBody,
    /// The body is chunks and a trailer section, which mark its end (section 7.1). If `chunked` is
    /// preceded by other codings, the contents of the chunks are encoded by these.
    Chunked,
    /// The body has this number of bytes.
    Length(u64),
    /// The body is all bytes up to the end of the connection.
    UntilClose,
    /// There is no body after the head: the connection has become a tunnel.
    Tunnel,
}

/// The reason why a message must be rejected: the end of its body is ambiguous. A server responds
/// to such a request with status 400, and closes the connection. A user agent closes it and
/// discards the response; a proxy responds with status 502.
///
/// ```
/// use format_http::bodies::framing::FramingError;
///
/// assert!(rt; FramingError::NotChunked != FramingError::LengthsDiffer);
/// ```
#[derive(Clone, Copy, Debug, PartialEq, Eq, Drop)]
pub enum FramingError {
    /// A message of a version before 1.1 has a Transfer-Encoding field (section 6.1).
    CodingBeforeVersion,
    /// A message has both a Transfer-Encoding and a Content-Length field, by which two recipients
    /// may take different bytes for its body (rule 3).
    LengthBesideCoding,
    /// An element of the Transfer-Encoding fields is not a transfer coding: a token, and parameters
    /// after semicolons (RFC 9110, section 10.1.4).
    InvalidCoding,
    /// A transfer coding comes after `chunked`, possibly `chunked` again (section 6.1).
    ChunkedNotLast,
    /// The last transfer coding of a request is not `chunked`, or its Transfer-Encoding fields have
    /// none (rule 4).
    NotChunked,
    /// Two elements of the Content-Length fields are not the same text (rule 5), be it in zeros
    /// before a number, or because one of them is empty, as in `42,`.
    LengthsDiffer,
    /// The only element of the Content-Length fields is not a number, for example if it is empty
    /// (rule 5).
    LengthIsNoNumber,
    /// The length is 2<sup>64</sup> or more.
    LengthTooLarge,
}

/// Whether the message has no body whatever its fields say.
fn is_without_body(message: Message<'_>) -> bool
    ensures { IsTrue result ↔ IsWithoutBody message.entry }
{
    match message {
        Message::Request => false,
        Message::Response { method, status } => {
            method == b"HEAD".as_slice()
                || (100 <= status && status < 200)
                || status == 204
                || status == 304
        }
    }
}

/// Whether the message makes the connection a tunnel.
fn is_tunnel(message: Message<'_>) -> bool
    ensures { IsTrue result ↔ IsTunnel message.entry }
{
    match message {
        Message::Request => false,
        Message::Response { method, status } => {
            method == b"CONNECT".as_slice() && 200 <= status && status < 300
        }
    }
}

/// Whether a version is before 1.1.
fn is_before(major: u8, minor: u8) -> bool
    ensures { IsTrue result ↔ IsBefore major minor }
{
    major < 1 || (major == 1 && minor < 1)
}

/// The length of a body with a transfer coding.
fn coded_length<'i, F: Fields<'i>>(
    message: Message<'_>,
    fields: F,
) -> Result<BodyLength, FramingError>
    ensures { IsCodedLength message.entry (F.pairs fields) result }
{
    if have_invalid(fields) {
        return Err(FramingError::InvalidCoding);
    }
    match end_chunked(fields) {
        None => Err(FramingError::ChunkedNotLast),
        Some(true) => Ok(BodyLength::Chunked),
        Some(false) => match message {
            Message::Request => Err(FramingError::NotChunked),
            Message::Response { .. } => Ok(BodyLength::UntilClose),
        },
    }
}

/// Returns the length of a body whose length is not given by a field.
fn undeclared_length(message: Message<'_>) -> Result<BodyLength, FramingError>
    ensures { IsUndeclared message.entry result }
{
    match message {
        Message::Request => Ok(BodyLength::NoBody),
        Message::Response { .. } => Ok(BodyLength::UntilClose),
    }
}

/// Returns the length of the body of a message of this version with these fields, or the reason to
/// reject the message, by the rules of section 6.3 in order.
///
/// 1. A response to HEAD, or of status 1xx, 204 or 304, has no body, regardless of its fields.
/// 2. A response of status 2xx to CONNECT makes the connection a tunnel.
/// 3. A Transfer-Encoding field in a version before 1.1, or together with a Content-Length field,
///    is an error.
/// 4. An element that is not a transfer coding (RFC 9110, section 10.1.4), and a coding after
///    `chunked`, including `chunked` again (section 6.1), are errors. If the last transfer coding
///    is `chunked`, the body is chunks. If it is another, a request is rejected, and the body of a
///    response ends with the connection.
/// 5. Content-Length fields must consist of one numeral, possibly repeated, in a list or in several
///    fields. Empty elements are not allowed.
/// 6. Its number is the length.
/// 7. With neither field a request has no body.
/// 8. With neither field the body of a response ends with the connection.
///
/// Names of fields and of codings are compared ignoring ASCII case. Codings other than `chunked`
/// are not distinguished. `chunked` with parameters counts as `chunked` if another coding comes
/// after it; as the last coding it is a different one. It does not allocate; the time is linear in
/// the lengths of the fields.
///
/// ```
/// use format_http::bodies::framing::{BodyLength, FramingError, Message, body_length};
/// use format_http::heads::field_line::Field;
///
/// let length = Field { name: b"content-length", value: b"42, 42" };
/// let fields = [length];
/// let body = body_length(Message::Request, 1, 1, fields.as_slice());
/// assert!(rt; body == Ok(BodyLength::Length(42)));
/// let head = Message::Response { method: b"HEAD", status: 200 };
/// assert!(rt; body_length(head, 1, 1, fields.as_slice()) == Ok(BodyLength::NoBody));
/// let coding = Field { name: b"Transfer-Encoding", value: b"chunked" };
/// let both = body_length(Message::Request, 1, 1, [coding, length].as_slice());
/// assert!(rt; both == Err(FramingError::LengthBesideCoding));
/// let twice = body_length(Message::Request, 1, 1, [coding, coding].as_slice());
/// assert!(rt; twice == Err(FramingError::ChunkedNotLast));
/// ```
pub fn body_length<'i, F: Fields<'i>>(
    message: Message<'_>,
    major: u8,
    minor: u8,
    fields: F,
) -> Result<BodyLength, FramingError>
    ensures { IsBodyLength message.entry major minor (F.pairs fields) result }
{
    if is_without_body(message) {
        return Ok(BodyLength::NoBody);
    }
    if is_tunnel(message) {
        return Ok(BodyLength::Tunnel);
    }
    let declared = has(fields, b"content-length".as_slice());
    if has(fields, b"transfer-encoding".as_slice()) {
        if is_before(major, minor) {
            return Err(FramingError::CodingBeforeVersion);
        }
        if declared {
            return Err(FramingError::LengthBesideCoding);
        }
        return coded_length(message, fields);
    }
    if declared {
        return declared_length(fields);
    }
    undeclared_length(message)
}

/// Returns the length of the body of the request of this head, or the reason to reject the request,
/// as [`body_length`].
///
/// ```
/// use format_http::bodies::framing::{BodyLength, request_body_length};
/// use format_http::heads::head::read_head;
///
/// let text = b"POST / HTTP/1.1\r\nHost: a\r\nTransfer-Encoding: gzip, chunked\r\n\r\n";
/// let head = read_head(alloc, &mut text.as_slice());
/// assert!(rt; matches!(head, Ok(head)
///     if request_body_length(&head) == Ok(BodyLength::Chunked)));
/// ```
pub fn request_body_length<A: Allocator>(head: &Head<'_, A>) -> Result<BodyLength, FramingError>
    ensures { IsBodyLength Request head.now.line.major head.now.line.minor
        (map pair head.now.fields.items) result }
{
    body_length(
        Message::Request,
        head.line.major,
        head.line.minor,
        head.fields.as_slice(),
    )
}
