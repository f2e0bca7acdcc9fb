//! Field lines without a first line, read into entries of the caller: the trailer section of a
//! chunked body.

ghost use Rattle.std.specs.Prelude.{◌≡◌, ◌≤◌, IfOk, MatchResult, drop, length};
ghost use Rattle.format_http_places.specs.Grammar.{FieldsText, Stops};
ghost use Rattle.format_http_places.specs.Sections.{ReadsFieldLines, ReadsLines};

use crate::fields::read_fields;
use crate::parts::HeadKind;
use crate::places::{Field, FieldLines};
use crate::read::{HeadError, error_at};
use crate::stop::Stop;

/// The field lines with which the bytes begin. They are written as far as there is room. It is
/// never inlined, as `read_parts` of requests.
#[inline(never)]
fn read_lines(bytes: &[u8], fields: &mut [Field]) -> Result<FieldLines, Stop>
    ensures lines { MatchResult result (λ lines. ReadsLines bytes.now lines fields.new)
        (λ stop. Stops FieldsText bytes.now stop.left) }
    ensures behind { IfOk result
        (λ lines. drop lines.fields fields.new ≡ drop lines.fields fields.old) }
{
    let found = read_fields(bytes.len(), bytes, fields)?;
    Ok(FieldLines {
        fields: found.count,
        length: bytes.len() - found.rest.len(),
    })
}

/// Reads consecutive field lines (RFC 9112, section 5) and an empty line at the start of the bytes,
/// such as a trailer section and the line ending after it (section 7.1.2). Returns their number and
/// length, and writes the positions of the fields, in order, to the first entries of `fields`.
/// Bytes after the empty line are not examined.
///
/// There may be no field lines: then the bytes start with the empty line.
///
/// # Errors
///
/// Those of [`read_head_into`](crate::read::read_head_into), for field lines:
/// [`Invalid`](HeadError::Invalid) holds the first offset at which no field lines can continue, and
/// the part there, [`Incomplete`](HeadError::Incomplete) means that the bytes end before the end of
/// the empty line, and [`TooManyFields`](HeadError::TooManyFields) holds the required number of
/// entries. After an error any entry may have been overwritten.
///
/// ```
/// use format_http_places::parts::{HeadPart, Invalid};
/// use format_http_places::places::{Field, FieldLines, Span};
/// use format_http_places::read::HeadError;
/// use format_http_places::trailers::read_field_lines_into;
///
/// let nowhere = Span { offset: 0, length: 0 };
/// let mut fields = [Field { name: nowhere, value: nowhere }; 2];
/// let text = b"Digest: a\r\n\r\nGET".as_slice();
/// let lines = read_field_lines_into(text, &mut fields);
/// assert!(rt; lines == Ok(FieldLines { fields: 1, length: 13 }));
/// assert!(rt; fields[0].value == Span { offset: 8, length: 1 });
/// let lines = read_field_lines_into(&text[..11], &mut fields);
/// assert!(rt; lines == Err(HeadError::Incomplete));
/// let lines = read_field_lines_into(b"Digest : a\r\n\r\n".as_slice(), &mut fields);
/// let invalid = Invalid { place: 6, part: HeadPart::Colon };
/// assert!(rt; lines == Err(HeadError::Invalid(invalid)));
/// ```
pub fn read_field_lines_into(bytes: &[u8], fields: &mut [Field]) -> Result<FieldLines, HeadError>
    ensures read { ReadsFieldLines bytes.now result fields.new }
    ensures room { IfOk result (λ lines. lines.fields ≤ length fields.old) }
    ensures behind { IfOk result
        (λ lines. drop lines.fields fields.new ≡ drop lines.fields fields.old) }
{
    match read_lines(bytes, fields) {
        Ok(lines) => {
            if lines.fields <= fields.len() {
                Ok(lines)
            } else {
                Err(HeadError::TooManyFields(lines.fields))
            }
        }
        Err(stop) => Err(error_at(HeadKind::Trailers, bytes, stop)),
    }
}
