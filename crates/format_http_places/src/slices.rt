//! The names and values of the fields that were read, as slices of their bytes.

ghost use Rattle.std.specs.Prelude.{◌≡◌, List, map, ℕ};
ghost use Rattle.format_http_places.specs.Places.{ShowsHead};
ghost use Rattle.format_http_places.specs.Responses.{ShowsResponse};
ghost use Rattle.format_http_places.specs.Sections.{ShowsLines};
ghost use Rattle.format_http_places.specs.Slices.{pair_at, text_at};
ghost use Rattle.format_http_places.specs.declared.places.Field.{Field};
ghost use Rattle.format_http_places.specs.declared.places.FieldLines.{FieldLines};
ghost use Rattle.format_http_places.specs.declared.places.Head.{Head};
ghost use Rattle.format_http_places.specs.declared.places.ResponseHead.{ResponseHead};

use crate::places::{Field, Span};
use format_http::heads::field_line;
use format_http::heads::fields::Fields;

/// Returns the bytes of a span. A span that is not within the bytes has only those that are.
///
/// ```
/// use format_http_places::places::Span;
/// use format_http_places::slices::slice_at;
///
/// let bytes = b"Host: a".as_slice();
/// assert!(rt; slice_at(bytes, Span { offset: 6, length: 1 }) == b"a".as_slice());
/// assert!(rt; slice_at(bytes, Span { offset: 6, length: 9 }) == b"a".as_slice());
/// assert!(rt; slice_at(bytes, Span { offset: 9, length: 1 }).is_empty());
/// ```
pub fn slice_at(bytes: &[u8], span: Span) -> &[u8]
    ensures { result.now ≡ text_at bytes.now span }
{
    let offset = span.offset.min(bytes.len());
    let rest = &bytes[offset..];
    &rest[..span.length.min(rest.len())]
}

/// The fields that were read from these bytes, in order. So [`request_framing`], [`body_length`]
/// and [`persists`] of `format_http` take the fields of a head without reading it again. It does
/// not allocate.
///
/// A position that is not within the bytes is read as by [`slice_at`].
///
/// [`request_framing`]: format_http::bodies::refusals::request_framing
/// [`body_length`]: format_http::bodies::framing::body_length
/// [`persists`]: format_http::persistence::persists
///
/// ```
/// use format_http::bodies::framing::{BodyLength, Message, body_length};
/// use format_http_places::places::{Field, Span};
/// use format_http_places::read::read_head_into;
/// use format_http_places::slices::FieldsAt;
///
/// let nowhere = Span { offset: 0, length: 0 };
/// let mut fields = [Field { name: nowhere, value: nowhere }; 2];
/// let text = b"PUT / HTTP/1.1\r\nHost: a\r\nContent-Length: 5\r\n\r\n".as_slice();
/// assert!(rt; read_head_into(text, &mut fields).is_ok());
/// let read = FieldsAt { bytes: text, fields: fields.as_slice() };
/// assert!(rt; body_length(Message::Request, 1, 1, read) == Ok(BodyLength::Length(5)));
/// ```
#[derive(Clone, Copy, Debug, PartialEq, Eq, Drop)]
pub struct FieldsAt<'i, 'f> {
    /// The bytes that were read.
    pub bytes: &'i [u8],
    /// The positions of the fields.
    pub fields: &'f [Field],
}

impl<'i, 'f> Fields<'i> for FieldsAt<'i, 'f> {
    ghost pairs = { λ at. map (pair_at at.bytes.now) at.fields.now };

    #[inline(always)]
    fn next(&mut self) -> Option<field_line::Field<'i>> {
        let all = *self;
        match all.fields {
            [] => None,
            [first, rest @ ..] => {
                self.fields = rest;
                let name = slice_at(all.bytes, first.name);
                let value = slice_at(all.bytes, first.value);
                Some(field_line::Field { name, value })
            }
        }
    }
}

/// Proves that the slices at the positions of a head that was read are its method, its target, and
/// the names and values of its fields, and likewise of a response and of field lines.
///
/// ```
/// use format_http_places::slices;
///
/// slices::slices_are_those_of_the_head();
/// ```
pub fn slices_are_those_of_the_head()
    ensures request { (input : List ℕ) (head : Head) (places : List Field)
        → (shows : ShowsHead input head places)
        → (text_at input head.method ≡ shows.line.method)
        × (text_at input head.target ≡ shows.line.target)
        × (map (pair_at input) places ≡ shows.fields) }
    ensures response { (input : List ℕ) (head : ResponseHead) (places : List Field)
        → (shows : ShowsResponse input head places) → map (pair_at input) places ≡ shows.fields }
    ensures lines { (input : List ℕ) (lines : FieldLines) (places : List Field)
        → (shows : ShowsLines input lines places) → map (pair_at input) places ≡ shows.fields }
{}
