//! Places in the bytes of a head.

/// A position: an offset and a length.
///
/// ```
/// use format_http_places::places::Span;
///
/// let span = Span { offset: 4, length: 1 };
/// assert_eq!(rt; span.offset + span.length, 5);
/// ```
#[repr(C)]
#[derive(Clone, Copy, Debug, PartialEq, Eq, Drop)]
pub struct Span {
    /// The number of bytes before it.
    pub offset: usize,
    /// How many bytes it has.
    pub length: usize,
}

/// The places of a field.
///
/// ```
/// use format_http_places::places::{Field, Span};
///
/// let name = Span { offset: 16, length: 4 };
/// let value = Span { offset: 22, length: 1 };
/// let field = Field { name, value };
/// assert!(rt; field.name.offset < field.value.offset);
/// ```
#[repr(C)]
#[derive(Clone, Copy, Debug, PartialEq, Eq, Drop)]
pub struct Field {
    /// The name.
    pub name: Span,
    /// The value, without the surrounding whitespace. An empty value is at the end of its line.
    pub value: Span,
}

/// The places of the parts of the head of a request.
///
/// ```
/// use format_http_places::places::{Head, Span};
///
/// let method = Span { offset: 0, length: 3 };
/// let target = Span { offset: 4, length: 1 };
/// let head = Head { method, target, fields: 0, length: 18, major: 1, minor: 1 };
/// assert!(rt; head.target.offset < head.length);
/// ```
#[repr(C)]
#[derive(Clone, Copy, Debug, PartialEq, Eq, Drop)]
pub struct Head {
    /// The method.
    pub method: Span,
    /// The request target.
    pub target: Span,
    /// How many fields there are.
    pub fields: usize,
    /// The length of the head in bytes, including the empty line after the fields.
    pub length: usize,
    /// The number before the point of the version, below 10.
    pub major: u8,
    /// The number after the point of the version, below 10.
    pub minor: u8,
}

/// The numbers and the places of the parts of the head of a response.
///
/// ```
/// use format_http_places::places::{ResponseHead, Span};
///
/// let reason = Span { offset: 13, length: 2 };
/// let head = ResponseHead { reason, fields: 0, length: 19, status: 200, major: 1, minor: 1 };
/// assert!(rt; head.reason.offset < head.length);
/// ```
#[repr(C)]
#[derive(Clone, Copy, Debug, PartialEq, Eq, Drop)]
pub struct ResponseHead {
    /// The span of the reason phrase. If it is empty, the span is at the end of its line.
    pub reason: Span,
    /// How many fields there are.
    pub fields: usize,
    /// The length of the head in bytes, including the empty line after the fields.
    pub length: usize,
    /// The status code, below 1000.
    pub status: u16,
    /// The number before the point of the version, below 10.
    pub major: u8,
    /// The number after the point of the version, below 10.
    pub minor: u8,
}

/// A section of field lines without a first line.
///
/// ```
/// use format_http_places::places::FieldLines;
///
/// let lines = FieldLines { fields: 1, length: 8 };
/// assert!(rt; lines.fields < lines.length);
/// ```
#[repr(C)]
#[derive(Clone, Copy, Debug, PartialEq, Eq, Drop)]
pub struct FieldLines {
    /// How many fields there are.
    pub fields: usize,
    /// The length in bytes, including the empty line after the fields.
    pub length: usize,
}
