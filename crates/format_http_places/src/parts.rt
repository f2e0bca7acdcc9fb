//! The kinds of heads, and the error at an invalid byte, with the part of the head that it is in.

use std::error::Error;
use std::fmt;
use std::fmt::{Display, Formatter};

/// The kinds of heads.
///
/// ```
/// use format_http_places::extent::HeadExtent;
/// use format_http_places::parts::HeadKind;
///
/// let mut extent = HeadExtent::new(HeadKind::Response);
/// assert!(rt; extent.advance(b"HTTP/1.1 200\r\n\r\n") == Ok(Some(16)));
/// ```
#[derive(Clone, Copy, Debug, PartialEq, Eq)]
pub enum HeadKind {
    /// Heads of requests.
    Request,
    /// Heads of responses.
    Response,
    /// Field lines and an empty line, without a first line: the trailer section of a chunked body
    /// with its end (RFC 9112, section 7.1.2).
    Trailers,
}

/// The part of a head in which a byte is invalid, as RFC 9112 names it. It depends only on how the
/// bytes before can continue.
///
/// ```
/// use format_http_places::parts::HeadPart;
/// use format_http_places::read::{HeadError, read_head_into};
///
/// let error = read_head_into(b"GET / HTTP/1.1\r\nHost : a\r\n\r\n".as_slice(), &mut []);
/// assert!(rt; matches!(error, Err(HeadError::Invalid(it)) if it.part == HeadPart::Colon));
/// ```
#[derive(Clone, Copy, Debug, PartialEq, Eq)]
pub enum HeadPart {
    /// The method, and the space after it.
    Method,
    /// The request target, and the space after it.
    Target,
    /// The version: `HTTP/`, a digit, a point and a digit.
    Version,
    /// The status code between its spaces; the line may also end after it.
    StatusCode,
    /// The first byte of a field name, or of the empty line.
    FieldName,
    /// The rest of a field name, and the colon directly after it.
    Colon,
    /// A field value or a reason phrase.
    Value,
    /// A line ending: CRLF.
    LineEnding,
}

impl Display for HeadPart {
    fn fmt<W: fmt::Write>(&self, f: &mut Formatter<W>) -> fmt::Result {
        f.write_str(match *self {
            HeadPart::Method => "expected a method and a space",
            HeadPart::Target => "expected a request target and a space",
            HeadPart::Version => "expected an HTTP version",
            HeadPart::StatusCode => "expected a status code of three digits",
            HeadPart::FieldName => "expected a field name or an empty line",
            HeadPart::Colon => "expected a colon after the field name",
            HeadPart::Value => "invalid byte in a field value or reason phrase",
            HeadPart::LineEnding => "expected CRLF",
        })
    }
}

/// The first offset at which no head can continue: some head starts with the bytes before it, and
/// no continuation of these and the next byte does.
///
/// ```
/// use format_http_places::extent::HeadExtent;
/// use format_http_places::parts::{HeadKind, HeadPart, Invalid};
///
/// let error = HeadExtent::new(HeadKind::Request).advance(b"GET /\r");
/// assert!(rt; error == Err(Invalid { place: 5, part: HeadPart::Target }));
/// ```
#[derive(Clone, Copy, Debug, PartialEq, Eq)]
pub struct Invalid {
    /// The number of bytes before it.
    pub place: usize,
    /// The part of the head that the byte is in.
    pub part: HeadPart,
}

impl Display for Invalid {
    fn fmt<W: fmt::Write>(&self, f: &mut Formatter<W>) -> fmt::Result {
        write!(f, "{} at offset {}", self.part, self.place)
    }
}

impl Error for Invalid {}
