//! The head of an HTTP/1.1 request (RFC 9112, section 2.1): a request line, consecutive field
//! lines, and an empty line.
//!
//! An empty line before the request line, which a server should skip (section 2.2), is not part of
//! it. A line that starts with whitespace to continue the previous one, which senders must not
//! write, is not a field line.
#![tactic(auto)]

ghost use Rattle.std.specs.Prelude.{◌≡◌, IfErr};
ghost use Rattle.streams.specs.Bytes.{bytes_input, bytes_reading};
ghost use Rattle.format_http.specs.Heads.Head.{HeadStands, FieldsStand};
ghost use Rattle.format_http.specs.Heads.Parts.{LinesStand};
ghost use Rattle.winnow_core.specs.Exact.{Reads};

use crate::heads::field_line::{Field, read_field_line, read_line_end};
use crate::heads::request_line::{RequestLine, read_request_line};
use std::alloc::Allocator;
use stream_errors::empty::EmptyError;
use stream_errors::has_kind::HasKind;
use stream_errors::mode::ErrMode;
use stream_errors::parser_error::ParserError;

/// A head: its request line, and its fields in order. `A` is the allocator of their list.
///
/// ```
/// use format_http::heads::head::read_head;
///
/// let head = read_head(alloc, &mut b"GET / HTTP/1.1\r\nA: b\r\n\r\n".as_slice());
/// assert!(rt; matches!(head, Ok(head) if head.fields[0].value == b"b".as_slice()));
/// ```
#[derive(Debug, Drop)]
pub struct Head<'i, A: Allocator> {
    /// The request line.
    pub line: RequestLine<'i>,
    /// The fields in order, also those with the same name.
    pub fields: Vec<Field<'i>, A>,
}

/// Parses as many field lines as there are.
fn read_field_lines<'i, A: Allocator + Copy>(
    alloc: A,
    input: &mut &'i [u8],
) -> Result<Vec<Field<'i>, A>, ErrMode<EmptyError>>
    ensures { Reads bytes_reading ⟦<ErrMode<EmptyError> as HasKind>⟧.kind LinesStand
        (bytes_input input.old.now) result (bytes_input input.new.now) }
{
    let mut fields = Vec::new(alloc);
    'lines: loop {
        let here = *input;
        match read_field_line(input) {
            Ok(field) => match fields.push(field) {
                Ok(()) => (),
                Err(_) => return Err(ParserError::<&'i [u8]>::no_memory(input)),
            },
            Err(error) => {
                if ParserError::<&'i [u8]>::is_memory(&error) {
                    return Err(error);
                }
                *input = here;
                return Ok(fields);
            }
        }
    }
}

/// The fields up to the empty line, and that line.
pub(crate) fn read_fields<'i, A: Allocator + Copy>(
    alloc: A,
    input: &mut &'i [u8],
) -> Result<Vec<Field<'i>, A>, ErrMode<EmptyError>>
    ensures { Reads bytes_reading ⟦<ErrMode<EmptyError> as HasKind>⟧.kind FieldsStand
        (bytes_input input.old.now) result (bytes_input input.new.now) }
{
    match read_field_lines(alloc, input) {
        Ok(fields) => match read_line_end(input) {
            Ok(()) => return Ok(fields),
            Err(error) => return Err(error),
        },
        Err(error) => return Err(error),
    }
}

/// A request line and the fields after it.
fn read_parts<'i, A: Allocator + Copy>(
    alloc: A,
    input: &mut &'i [u8],
) -> Result<Head<'i, A>, ErrMode<EmptyError>>
    ensures { Reads bytes_reading ⟦<ErrMode<EmptyError> as HasKind>⟧.kind HeadStands
        (bytes_input input.old.now) result (bytes_input input.new.now) }
{
    match read_request_line(input) {
        Ok(line) => match read_fields(alloc, input) {
            Ok(fields) => Ok(Head { line, fields }),
            Err(error) => Err(error),
        },
        Err(error) => Err(error),
    }
}

/// Parses the head at the start of the input.
///
/// After an error the input is unchanged. The error is out of memory, or the input does not start
/// with a head.
///
/// ```
/// use format_http::heads::head::read_head;
///
/// let mut input = b"GET / HTTP/1.1\r\nHost: example.org\r\n\r\nrest".as_slice();
/// assert!(rt; matches!(read_head(alloc, &mut input), Ok(head) if head.fields.len() == 1));
/// assert_eq!(rt; input, b"rest".as_slice());
/// assert!(rt; read_head(alloc, &mut b"GET / HTTP/1.1\r\n".as_slice()).is_err());
/// ```
pub fn read_head<'i, A: Allocator + Copy>(
    alloc: A,
    input: &mut &'i [u8],
) -> Result<Head<'i, A>, ErrMode<EmptyError>>
    ensures head { Reads bytes_reading ⟦<ErrMode<EmptyError> as HasKind>⟧.kind HeadStands
        (bytes_input input.old.now) result (bytes_input input.new.now) }
    ensures stays { IfErr result (λ _. input.new ≡ input.old) }
{
    let start = *input;
    match read_parts(alloc, input) {
        Ok(head) => Ok(head),
        Err(error) => {
            *input = start;
            Err(error)
        }
    }
}
