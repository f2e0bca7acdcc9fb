//! The head of an HTTP/1.1 response (RFC 9112, section 2.1): a status line, consecutive field
//! lines, and an empty line.
#![tactic(auto)]

ghost use Rattle.std.specs.Prelude.{◌≡◌, IfErr, map};
ghost use Rattle.streams.specs.Bytes.{bytes_input, bytes_reading};
ghost use Rattle.format_http.specs.Bodies.Framing.{IsBodyLength};
ghost use Rattle.format_http.specs.Heads.Head.{pair};
ghost use Rattle.format_http.specs.Responses.Head.{ResponseStands, response_to};
ghost use Rattle.winnow_core.specs.Exact.{Reads};

use crate::bodies::framing::{BodyLength, FramingError, Message, body_length};
use crate::heads::field_line::Field;
use crate::heads::head::read_fields;
use crate::responses::status_line::{StatusLine, read_status_line};
use std::alloc::Allocator;
use stream_errors::empty::EmptyError;
use stream_errors::has_kind::HasKind;
use stream_errors::mode::ErrMode;

/// The head of a response: its status line, and its fields in order. `A` is the allocator of their
/// list.
///
/// ```
/// use format_http::responses::head::read_response_head;
///
/// let text = b"HTTP/1.1 200 OK\r\nContent-Length: 5\r\n\r\nhello";
/// let head = read_response_head(alloc, &mut text.as_slice());
/// assert!(rt; matches!(head, Ok(head) if head.fields[0].value == b"5".as_slice()));
/// ```
#[derive(Debug, Drop)]
pub struct ResponseHead<'i, A: Allocator> {
    /// The status line.
    pub line: StatusLine<'i>,
    /// The fields in order, also those with the same name.
    pub fields: Vec<Field<'i>, A>,
}

/// A status line and the fields after it.
fn read_parts<'i, A: Allocator + Copy>(
    alloc: A,
    input: &mut &'i [u8],
) -> Result<ResponseHead<'i, A>, ErrMode<EmptyError>>
    ensures { Reads bytes_reading ⟦<ErrMode<EmptyError> as HasKind>⟧.kind ResponseStands
        (bytes_input input.old.now) result (bytes_input input.new.now) }
{
    match read_status_line(input) {
        Ok(line) => match read_fields(alloc, input) {
            Ok(fields) => Ok(ResponseHead { line, fields }),
            Err(error) => Err(error),
        },
        Err(error) => Err(error),
    }
}

/// Parses the head of a response at the start of the input.
///
/// After an error the input is unchanged. The error is out of memory, or the input does not start
/// with a head.
///
/// ```
/// use format_http::responses::head::read_response_head;
///
/// let mut input = b"HTTP/1.1 204 No Content\r\nServer: a\r\n\r\nrest".as_slice();
/// let head = read_response_head(alloc, &mut input);
/// assert!(rt; matches!(head, Ok(head) if head.line.status == 204 && head.fields.len() == 1));
/// assert_eq!(rt; input, b"rest".as_slice());
/// assert!(rt; read_response_head(alloc, &mut b"HTTP/1.1 200 OK\r\n".as_slice()).is_err());
/// ```
pub fn read_response_head<'i, A: Allocator + Copy>(
    alloc: A,
    input: &mut &'i [u8],
) -> Result<ResponseHead<'i, A>, ErrMode<EmptyError>>
    ensures head { Reads bytes_reading ⟦<ErrMode<EmptyError> as HasKind>⟧.kind ResponseStands
        (bytes_input input.old.now) result (bytes_input input.new.now) }
    ensures stays { IfErr result (λ _. input.new ≡ input.old) }
{
    let start = *input;
    match read_parts(alloc, input) {
        Ok(head) => Ok(head),
        Err(error) => {
            *input = start;
            Err(error)
        }
    }
}

/// Returns the length of the body after the head of a response to a request of this method, or the
/// reason to reject the response, as [`body_length`].
///
/// ```
/// use format_http::bodies::framing::BodyLength;
/// use format_http::responses::head::{read_response_head, response_body_length};
///
/// let text = b"HTTP/1.1 200 OK\r\nContent-Length: 51\r\n\r\n";
/// let head = read_response_head(alloc, &mut text.as_slice());
/// assert!(rt; matches!(head, Ok(head)
///     if response_body_length(b"GET".as_slice(), &head) == Ok(BodyLength::Length(51))));
/// ```
pub fn response_body_length<A: Allocator>(
    method: &[u8],
    head: &ResponseHead<'_, A>,
) -> Result<BodyLength, FramingError>
    ensures { IsBodyLength (response_to method.now head.now.line.status) head.now.line.major
        head.now.line.minor (map pair head.now.fields.items) result }
{
    let status = head.line.status;
    let message = Message::Response { method, status };
    let fields = head.fields.as_slice();
    body_length(message, head.line.major, head.line.minor, fields)
}
