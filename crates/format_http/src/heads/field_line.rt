//! A header field line of HTTP/1.1 (RFC 9112, section 5): a name, a colon, a value, and a line
//! ending (a carriage return and a line feed). Whitespace may surround the value.
#![tactic(auto)]

ghost use Rattle.std.specs.List.{All};
ghost use Rattle.std.specs.Prelude.{◌≡◌, ◌++◌, ◌∷◌, IfOk, List, ℕ};
ghost use Rattle.streams.specs.Bytes.{bytes_input, bytes_reading};
ghost use Rattle.format_http.specs.Heads.Bytes.{IsWhite};
ghost use Rattle.format_http.specs.Heads.FieldLine.{FieldLineStands, IsTrimmed};
ghost use Rattle.format_http.specs.Heads.Parts.{EndStands, NameRead, NameValue, ValueStands};
ghost use Rattle.winnow_core.specs.Exact.{IsSpared, Reads};

use crate::heads::laws::{no_return_stands_in_a_field, no_white_space_stands_before_a_colon};
use crate::heads::sets::{TokenBytes, ValueBytes, White};
use stream_errors::empty::EmptyError;
use stream_errors::has_kind::HasKind;
use stream_errors::mode::ErrMode;
use winnow_comb::combinator::{preceded, terminated};
use winnow_core::parser::Parser;
use winnow_token::token::take_while;

/// A field: its name and its value, as slices of the input.
///
/// ```
/// use format_http::heads::field_line::Field;
///
/// let field = Field { name: b"Host".as_slice(), value: b"example.org".as_slice() };
/// assert_eq!(rt; field.name.len(), 4);
/// ```
#[derive(Clone, Copy, Debug, PartialEq, Drop)]
pub struct Field<'i> {
    /// The name, a token of one byte or more.
    pub name: &'i [u8],
    /// The value, without the whitespace around it. It may have no bytes.
    pub value: &'i [u8],
}

/// A text without the spaces and tabs at its end.
///
/// ```
/// use format_http::heads::field_line::trimmed;
///
/// assert_eq!(rt; trimmed(b"a b \t".as_slice()), b"a b".as_slice());
/// ```
pub fn trimmed<'i>(text: &'i [u8]) -> &'i [u8]
    ensures { IsTrimmed result.now text.now }
{
    let mut value = text;
    'bytes: while let Some((last, front)) = value.split_last() {
        if *last != b' ' && *last != b'\t' {
            return value;
        }
        value = front;
    }
    value
}

/// A value, and the whitespace around it.
fn read_value<'i>(input: &mut &'i [u8]) -> Result<&'i [u8], ErrMode<EmptyError>>
    ensures reads { Reads bytes_reading ⟦<ErrMode<EmptyError> as HasKind>⟧.kind ValueStands
        (bytes_input input.old.now) result (bytes_input input.new.now) }
    ensures spared { IsSpared ⟦<ErrMode<EmptyError> as HasKind>⟧.kind
        (bytes_input input.old.now) result }
{
    let white = take_while(0.., White);
    let text = take_while(0.., ValueBytes);
    match preceded(white, text).read(input) {
        Ok(text) => Ok(trimmed(text)),
        Err(error) => Err(error),
    }
}

/// A name and a colon.
fn read_name<'i>(input: &mut &'i [u8]) -> Result<&'i [u8], ErrMode<EmptyError>>
    ensures reads { Reads bytes_reading ⟦<ErrMode<EmptyError> as HasKind>⟧.kind NameRead
        (bytes_input input.old.now) result (bytes_input input.new.now) }
    ensures spared { IsSpared ⟦<ErrMode<EmptyError> as HasKind>⟧.kind
        (bytes_input input.old.now) result }
{
    let name = take_while(1.., TokenBytes);
    terminated(name, b':').read(input)
}

/// A name and a colon, and a value after them.
fn read_name_and_value<'i>(
    input: &mut &'i [u8],
) -> Result<(&'i [u8], &'i [u8]), ErrMode<EmptyError>>
    ensures reads { Reads bytes_reading ⟦<ErrMode<EmptyError> as HasKind>⟧.kind NameValue
        (bytes_input input.old.now) result (bytes_input input.new.now) }
    ensures spared { IsSpared ⟦<ErrMode<EmptyError> as HasKind>⟧.kind
        (bytes_input input.old.now) result }
{
    match read_name(input) {
        Ok(name) => match read_value(input) {
            Ok(value) => Ok((name, value)),
            Err(error) => Err(error),
        },
        Err(error) => Err(error),
    }
}

/// Parses a line ending: a carriage return and a line feed.
pub(crate) fn read_line_end<'i>(input: &mut &'i [u8]) -> Result<(), ErrMode<EmptyError>>
    ensures reads { Reads bytes_reading ⟦<ErrMode<EmptyError> as HasKind>⟧.kind EndStands
        (bytes_input input.old.now) result (bytes_input input.new.now) }
    ensures spared { IsSpared ⟦<ErrMode<EmptyError> as HasKind>⟧.kind
        (bytes_input input.old.now) result }
{
    match b"\r\n".as_slice().read(input) {
        Ok(_) => Ok(()),
        Err(error) => Err(error),
    }
}

/// A field line.
fn read_line<'i>(input: &mut &'i [u8]) -> Result<Field<'i>, ErrMode<EmptyError>>
    ensures reads { Reads bytes_reading ⟦<ErrMode<EmptyError> as HasKind>⟧.kind FieldLineStands
        (bytes_input input.old.now) result (bytes_input input.new.now) }
    ensures spared { IsSpared ⟦<ErrMode<EmptyError> as HasKind>⟧.kind
        (bytes_input input.old.now) result }
{
    match read_name_and_value(input) {
        Ok((name, value)) => match read_line_end(input) {
            Ok(()) => Ok(Field { name, value }),
            Err(error) => Err(error),
        },
        Err(error) => Err(error),
    }
}

/// Parses a field line and returns its field.
///
/// The name is a token of one or more bytes. The value consists of visible bytes, spaces, tabs and
/// bytes from 128 on, and may be empty. Spaces and tabs may surround it, and do not belong to it.
/// So there is no whitespace before the first colon (RFC 9112, section 5.1), and no carriage return
/// in the name or the value (section 2.2), which a server must reject.
///
/// Backtracks if the input does not start with a field line; some bytes may have been consumed. It
/// does not allocate.
///
/// ```
/// use format_http::heads::field_line::read_field_line;
///
/// let mut input = b"Host: example.org \r\n\r\n".as_slice();
/// let field = read_field_line(&mut input);
/// assert!(rt; matches!(field, Ok(field) if field.name == b"Host".as_slice()));
/// assert!(rt; matches!(field, Ok(field) if field.value == b"example.org".as_slice()));
/// assert_eq!(rt; input, b"\r\n".as_slice());
/// assert!(rt; read_field_line(&mut b"Host : example.org\r\n".as_slice()).is_err());
/// ```
pub fn read_field_line<'i>(input: &mut &'i [u8]) -> Result<Field<'i>, ErrMode<EmptyError>>
    ensures reads { Reads bytes_reading ⟦<ErrMode<EmptyError> as HasKind>⟧.kind FieldLineStands
        (bytes_input input.old.now) result (bytes_input input.new.now) }
    ensures spared { IsSpared ⟦<ErrMode<EmptyError> as HasKind>⟧.kind
        (bytes_input input.old.now) result }
    ensures colon { IfOk result (λ _. (front more : List ℕ)
        → input.old.now ≡ front ++ 58 ∷ more → All (λ b. b ≡ 58 → ⊥) front
        → All (λ b. IsWhite b → ⊥) front) }
    ensures returns { IfOk result (λ field. All (λ b. b ≡ 13 → ⊥) field.name.now
        × All (λ b. b ≡ 13 → ⊥) field.value.now) }
{
    no_white_space_stands_before_a_colon();
    no_return_stands_in_a_field();
    read_line(input)
}
