//! The requests with a valid head that a server must reject: because of their target or their Host
//! fields (RFC 9112, section 3.2), or because of the fields that determine the length of their body
//! (section 6.3).
//!
//! Whitespace between the name of a field and its colon (RFC 9112, section 5.1), and a carriage
//! return in a name or a value (section 2.2), do not occur in a head that
//! [`read_head`](crate::heads::head::read_head) reads, by the [laws](crate::heads::laws) of field
//! lines: it backtracks there. Codings other than `chunked` are not distinguished: a server
//! responds to unknown ones with status 501 (section 6.1).
#![tactic(auto)]

ghost use Rattle.format_http.specs.Bodies.Refusals.{IsFraming};
ghost use Rattle.format_http.specs.Heads.Head.{request};

use crate::bodies::framing::{BodyLength, FramingError, Message, body_length};
use crate::heads::fields::Fields;
use crate::heads::hosts::{HostError, host_error};
use crate::heads::request_line::RequestLine;
use crate::heads::targets::has_valid_target;

/// The reason why a server must respond to a request with status 400, from its head.
///
/// ```
/// use format_http::bodies::refusals::Reason;
/// use format_http::heads::hosts::HostError;
///
/// assert!(rt; Reason::Host(HostError::Missing) != Reason::Host(HostError::Many));
/// ```
#[derive(Clone, Copy, Debug, PartialEq, Eq, Drop)]
pub enum Reason {
    /// Its target: no form of its method.
    Target,
    /// Its Host fields.
    Host(HostError),
    /// The fields that determine the length of its body.
    Body(FramingError),
}

/// Returns the length of the body of the request of this line with these fields, or the reason why
/// a server must reject the request: a target that is not
/// [valid](crate::heads::targets::has_valid_target), or otherwise the reason of [`host_error`], or
/// otherwise that of [`body_length`]. It does not allocate.
///
/// ```
/// use format_http::bodies::framing::{BodyLength, FramingError};
/// use format_http::bodies::refusals::{Reason, request_framing};
/// use format_http::heads::field_line::Field;
/// use format_http::heads::request_line::RequestLine;
///
/// let line = RequestLine { method: b"POST", target: b"/", major: 1, minor: 1 };
/// let host = Field { name: b"Host", value: b"a" };
/// assert!(rt; request_framing(&line, [host].as_slice()) == Ok(BodyLength::NoBody));
/// let four = Field { name: b"Content-Length", value: b"4" };
/// let five = Field { value: b"5", ..four };
/// let differ = Err(Reason::Body(FramingError::LengthsDiffer));
/// assert!(rt; request_framing(&line, [host, four, five].as_slice()) == differ);
/// ```
pub fn request_framing<'i, F: Fields<'i>>(
    line: &RequestLine<'_>,
    fields: F,
) -> Result<BodyLength, Reason>
    ensures { IsFraming (request line.now) (F.pairs fields) result }
{
    if !has_valid_target(line) {
        return Err(Reason::Target);
    }
    if let Some(error) = host_error(line, fields) {
        return Err(Reason::Host(error));
    }
    match body_length(Message::Request, line.major, line.minor, fields) {
        Ok(length) => Ok(length),
        Err(error) => Err(Reason::Body(error)),
    }
}
