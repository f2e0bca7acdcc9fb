//! Heads of requests, complete and partial, read into entries of the caller.
//!
//! The bytes are examined once, from the first on, without allocating. Runs of names, targets and
//! values are examined sixteen bytes at a time. These are loops over bytes instead of parsers of
//! the library.

ghost use Rattle.std.specs.Prelude.{◌≡◌, ◌≤◌, IfOk, MatchResult, drop, length};
ghost use Rattle.format_http_places.specs.Extents.{IsErrorOf};
ghost use Rattle.format_http_places.specs.Grammar.{HeadText, Stops};
ghost use Rattle.format_http_places.specs.Refusals.{ReadsHead, ReadsParts};
ghost use Rattle.format_http_places.specs.States.{TextOf};

use crate::extent::part_after;
use crate::fields::read_fields;
use crate::line::read_request_line;
use crate::parts::{HeadKind, Invalid};
use crate::places::{Field, Head};
use crate::stop::{Stop, front};
use std::error::Error;
use std::fmt;
use std::fmt::{Display, Formatter};

/// Why no head was read.
///
/// ```
/// use format_http_places::read::HeadError;
///
/// assert!(rt; HeadError::TooManyFields(3) != HeadError::Incomplete);
/// ```
#[derive(Clone, Copy, Debug, PartialEq, Eq)]
pub enum HeadError {
    /// No head can continue at this offset, for this reason: some head starts with the bytes before
    /// it, and no continuation of these and the next byte does.
    Invalid(Invalid),
    /// The bytes begin with no head, and with more after them they can.
    Incomplete,
    /// The bytes start with a head of this number of fields, which exceeds the number of entries.
    TooManyFields(usize),
}

impl Display for HeadError {
    fn fmt<W: fmt::Write>(&self, f: &mut Formatter<W>) -> fmt::Result {
        match *self {
            HeadError::Invalid(invalid) => write!(f, "{invalid}"),
            HeadError::Incomplete => f.write_str("incomplete input: more bytes are needed"),
            HeadError::TooManyFields(count) => write!(f, "too many fields: {count}"),
        }
    }
}

impl Error for HeadError {}

/// Returns the error of a head of this kind, if its language stops there.
pub(crate) fn error_at(kind: HeadKind, bytes: &[u8], stop: Stop) -> HeadError
    requires { Stops (TextOf kind) bytes.now stop.left }
    ensures { IsErrorOf kind bytes.now result }
{
    if stop.left == 0 {
        return HeadError::Incomplete;
    }
    let place = bytes.len() - stop.left;
    let part = part_after(kind, front(bytes, place));
    HeadError::Invalid(Invalid { place, part })
}

/// The head with which the bytes begin. Its fields are written as far as there is room.
///
/// It is never inlined: what its callers keep for errors would push values of the loop to the
/// stack.
#[inline(never)]
fn read_parts(bytes: &[u8], fields: &mut [Field]) -> Result<Head, Stop>
    ensures parts { MatchResult result (λ head. ReadsParts bytes.now head fields.new)
        (λ stop. Stops HeadText bytes.now stop.left) }
    ensures behind { IfOk result
        (λ head. drop head.fields fields.new ≡ drop head.fields fields.old) }
{
    let line = read_request_line(bytes)?;
    let found = read_fields(bytes.len(), line.rest, fields)?;
    Ok(Head {
        method: line.method,
        target: line.target,
        fields: found.count,
        length: bytes.len() - found.rest.len(),
        major: line.major,
        minor: line.minor,
    })
}

/// Reads the head of an HTTP/1.1 request (RFC 9112, section 2.1) at the start of the bytes: a
/// request line, consecutive field lines, and an empty line. Returns the positions of its parts,
/// and writes those of its fields, in order, to the first entries of `fields`. Bytes after the head
/// are not examined.
///
/// # Errors
///
/// - [`Invalid`](HeadError::Invalid) holds the first offset at which no head can continue, and the
///   part of the head that the byte there is in. To determine the part, the bytes before it are
///   examined a second time.
/// - [`Incomplete`](HeadError::Incomplete): the bytes end within a head. If more bytes arrive, read
///   again from the start. Complete input starts with no head in this case either.
/// - [`TooManyFields`](HeadError::TooManyFields) holds the required number of entries.
///
/// After an error any entry may have been overwritten, since the fields are written as they are
/// read. Otherwise the entries after those of the fields are unchanged.
///
/// No empty line is skipped before the request line: a server that is lenient as in section 2.2
/// must skip one itself.
///
/// ```
/// use format_http_places::parts::{HeadPart, Invalid};
/// use format_http_places::places::{Field, Span};
/// use format_http_places::read::{HeadError, read_head_into};
///
/// let nowhere = Span { offset: 0, length: 0 };
/// let mut fields = [Field { name: nowhere, value: nowhere }; 2];
/// let text = b"GET / HTTP/1.1\r\nHost: a\r\n\r\nrest".as_slice();
/// let head = read_head_into(text, &mut fields);
/// assert!(rt; matches!(head, Ok(head) if head.fields == 1 && head.length == 27));
/// assert!(rt; fields[0].value == Span { offset: 22, length: 1 });
/// let head = read_head_into(&text[..20], &mut fields);
/// assert!(rt; head == Err(HeadError::Incomplete));
/// let head = read_head_into(b"GET /\r\n".as_slice(), &mut fields);
/// assert!(rt; head == Err(HeadError::Invalid(Invalid { place: 5, part: HeadPart::Target })));
/// ```
pub fn read_head_into(bytes: &[u8], fields: &mut [Field]) -> Result<Head, HeadError>
    ensures read { ReadsHead bytes.now result fields.new }
    ensures room { IfOk result (λ head. head.fields ≤ length fields.old) }
    ensures behind { IfOk result
        (λ head. drop head.fields fields.new ≡ drop head.fields fields.old) }
{
    match read_parts(bytes, fields) {
        Ok(head) => {
            if head.fields <= fields.len() {
                Ok(head)
            } else {
                Err(HeadError::TooManyFields(head.fields))
            }
        }
        Err(stop) => Err(error_at(HeadKind::Request, bytes, stop)),
    }
}
