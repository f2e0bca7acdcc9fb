//! Heads of responses, complete and partial, read into entries of the caller, by the same lanes,
//! field lines and errors as those of requests.

ghost use Rattle.std.specs.Prelude.{◌≡◌, ◌≤◌, IfOk, MatchResult, drop, length};
ghost use Rattle.format_http_places.specs.Grammar.{ResponseText, Stops};
ghost use Rattle.format_http_places.specs.Responses.{ReadsResponse, ReadsResponseParts};

use crate::fields::read_fields;
use crate::parts::HeadKind;
use crate::places::{Field, ResponseHead};
use crate::read::{HeadError, error_at};
use crate::status::read_status_line;
use crate::stop::Stop;

/// The head with which the bytes begin. Its fields are written as far as there is room. It is never
/// inlined, as `read_parts` of requests.
#[inline(never)]
fn read_response_parts(bytes: &[u8], fields: &mut [Field]) -> Result<ResponseHead, Stop>
    ensures parts { MatchResult result (λ head. ReadsResponseParts bytes.now head fields.new)
        (λ stop. Stops ResponseText bytes.now stop.left) }
    ensures behind { IfOk result
        (λ head. drop head.fields fields.new ≡ drop head.fields fields.old) }
{
    let line = read_status_line(bytes)?;
    let found = read_fields(bytes.len(), line.rest, fields)?;
    Ok(ResponseHead {
        reason: line.reason,
        fields: found.count,
        length: bytes.len() - found.rest.len(),
        status: line.status,
        major: line.major,
        minor: line.minor,
    })
}

/// Reads the head of an HTTP/1.1 response (RFC 9112, section 2.1) at the start of the bytes: a
/// status line, consecutive field lines, and an empty line. Returns its numbers and the positions
/// of its parts, and writes those of its fields, in order, to the first entries of `fields`. Bytes
/// after the head are not examined.
///
/// The status code is three digits; the first may be any digit. The reason may be empty, and then
/// the space before it may be missing too: its position is the end of the line.
///
/// # Errors
///
/// Those of [`read_head_into`](crate::read::read_head_into), for heads of responses:
/// [`Invalid`](HeadError::Invalid) holds the first offset at which no head can continue, and the
/// part of the head there, [`Incomplete`](HeadError::Incomplete) means that the bytes end within
/// one, and [`TooManyFields`](HeadError::TooManyFields) holds the required number of entries. After
/// an error any entry may have been overwritten.
///
/// ```
/// use format_http_places::parts::{HeadPart, Invalid};
/// use format_http_places::places::{Field, Span};
/// use format_http_places::read::HeadError;
/// use format_http_places::response::read_response_head_into;
///
/// let nowhere = Span { offset: 0, length: 0 };
/// let mut fields = [Field { name: nowhere, value: nowhere }; 2];
/// let text = b"HTTP/1.1 404 Not Found\r\nServer: a\r\n\r\nrest".as_slice();
/// let head = read_response_head_into(text, &mut fields);
/// assert!(rt; matches!(head, Ok(head) if head.status == 404 && head.length == 37));
/// assert!(rt; matches!(head, Ok(head) if head.reason == Span { offset: 13, length: 9 }));
/// assert!(rt; fields[0].value == Span { offset: 32, length: 1 });
/// let head = read_response_head_into(&text[..11], &mut fields);
/// assert!(rt; head == Err(HeadError::Incomplete));
/// let head = read_response_head_into(b"HTTP/1.1 20 OK\r\n".as_slice(), &mut fields);
/// let invalid = Invalid { place: 11, part: HeadPart::StatusCode };
/// assert!(rt; head == Err(HeadError::Invalid(invalid)));
/// ```
pub fn read_response_head_into(
    bytes: &[u8],
    fields: &mut [Field],
) -> Result<ResponseHead, HeadError>
    ensures read { ReadsResponse bytes.now result fields.new }
    ensures room { IfOk result (λ head. head.fields ≤ length fields.old) }
    ensures behind { IfOk result
        (λ head. drop head.fields fields.new ≡ drop head.fields fields.old) }
{
    match read_response_parts(bytes, fields) {
        Ok(head) => {
            if head.fields <= fields.len() {
                Ok(head)
            } else {
                Err(HeadError::TooManyFields(head.fields))
            }
        }
        Err(stop) => Err(error_at(HeadKind::Response, bytes, stop)),
    }
}
