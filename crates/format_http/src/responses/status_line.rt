//! The status line of HTTP/1.1 (RFC 9112, section 4): a version, a status code of three digits and
//! a reason, separated by one space, and a line ending (a carriage return and a line feed). The
//! standard requires the space even without a reason; here it may be missing.
//!
//! The version is two digits; the caller must check whether it is supported. The first digit of the
//! status code, which is its class, may be any.
#![tactic(auto)]

ghost use Rattle.streams.specs.Bytes.{bytes_input, bytes_reading};
ghost use Rattle.format_http.specs.Responses.StatusLine.{StatusLineStands};
ghost use Rattle.format_http.specs.Responses.Parts.{CodeStands, ProtocolCode, ProtocolStands};
ghost use Rattle.format_http.specs.Responses.Parts.{ReasonStands};
ghost use Rattle.winnow_core.specs.Exact.{IsSpared, Reads};

use crate::heads::request_line::{Digit, read_digit};
use crate::heads::sets::ValueBytes;
use stream_errors::empty::EmptyError;
use stream_errors::has_kind::HasKind;
use stream_errors::mode::ErrMode;
use winnow_comb::combinator::{delimited, opt, preceded, separated_pair, terminated};
use winnow_core::parser::Parser;
use winnow_grammar::rule::Rule;
use winnow_token::token::take_while;

/// A status line: what it says.
///
/// ```
/// use format_http::responses::status_line::StatusLine;
///
/// let line = StatusLine { major: 1, minor: 1, status: 200, reason: b"OK" };
/// assert!(rt; line.status == 200 && line.reason.len() == 2);
/// ```
#[derive(Clone, Copy, Debug, PartialEq, Drop)]
pub struct StatusLine<'i> {
    /// The number before the point of the version, below 10.
    pub major: u8,
    /// The number after the point of the version, below 10.
    pub minor: u8,
    /// The status code, below 1000.
    pub status: u16,
    /// The reason after the space, unchanged. It may be empty; a client ignores it.
    pub reason: &'i [u8],
}

/// The version, and the space after it: the numbers of the version.
fn read_protocol<'i>(input: &mut &'i [u8]) -> Result<(u8, u8), ErrMode<EmptyError>>
    ensures reads { Reads bytes_reading ⟦<ErrMode<EmptyError> as HasKind>⟧.kind ProtocolStands
        (bytes_input input.old.now) result (bytes_input input.new.now) }
    ensures spared { IsSpared ⟦<ErrMode<EmptyError> as HasKind>⟧.kind
        (bytes_input input.old.now) result }
{
    let protocol = b"HTTP/".as_slice();
    let major = Digit.by(read_digit);
    let minor = Digit.by(read_digit);
    let numbers = separated_pair(major, b'.', minor);
    delimited(protocol, numbers, b' ').read(input)
}

/// A status code.
fn read_code<'i>(input: &mut &'i [u8]) -> Result<u16, ErrMode<EmptyError>>
    ensures reads { Reads bytes_reading ⟦<ErrMode<EmptyError> as HasKind>⟧.kind CodeStands
        (bytes_input input.old.now) result (bytes_input input.new.now) }
    ensures spared { IsSpared ⟦<ErrMode<EmptyError> as HasKind>⟧.kind
        (bytes_input input.old.now) result }
{
    let hundreds = Digit.by(read_digit);
    let tens = Digit.by(read_digit);
    let ones = Digit.by(read_digit);
    match (hundreds, tens, ones).read(input) {
        Ok((hundreds, tens, ones)) => {
            Ok(u16::from(hundreds) * 100 + u16::from(tens) * 10 + u16::from(ones))
        }
        Err(error) => Err(error),
    }
}

/// Parses a space and a reason, or nothing, and the line ending.
fn read_reason<'i>(input: &mut &'i [u8]) -> Result<&'i [u8], ErrMode<EmptyError>>
    ensures reads { Reads bytes_reading ⟦<ErrMode<EmptyError> as HasKind>⟧.kind ReasonStands
        (bytes_input input.old.now) result (bytes_input input.new.now) }
    ensures spared { IsSpared ⟦<ErrMode<EmptyError> as HasKind>⟧.kind
        (bytes_input input.old.now) result }
{
    let text = take_while(0.., ValueBytes);
    let end = b"\r\n".as_slice();
    match terminated(opt(preceded(b' ', text)), end).read(input) {
        Ok(Some(reason)) => Ok(reason),
        Ok(None) => Ok(b"".as_slice()),
        Err(error) => Err(error),
    }
}

/// The version and the status code.
fn read_protocol_and_code<'i>(input: &mut &'i [u8]) -> Result<((u8, u8), u16), ErrMode<EmptyError>>
    ensures reads { Reads bytes_reading ⟦<ErrMode<EmptyError> as HasKind>⟧.kind ProtocolCode
        (bytes_input input.old.now) result (bytes_input input.new.now) }
    ensures spared { IsSpared ⟦<ErrMode<EmptyError> as HasKind>⟧.kind
        (bytes_input input.old.now) result }
{
    match read_protocol(input) {
        Ok(version) => match read_code(input) {
            Ok(status) => Ok((version, status)),
            Err(error) => Err(error),
        },
        Err(error) => Err(error),
    }
}

/// Parses the status line at the start of the input.
///
/// Backtracks if there is none; some bytes may have been consumed. It does not allocate.
///
/// ```
/// use format_http::responses::status_line::read_status_line;
///
/// let mut input = b"HTTP/1.1 404 Not Found\r\nServer: a\r\n\r\n".as_slice();
/// let line = read_status_line(&mut input);
/// assert!(rt; matches!(line, Ok(line) if line.status == 404));
/// assert!(rt; matches!(line, Ok(line) if line.reason == b"Not Found".as_slice()));
/// assert_eq!(rt; input, b"Server: a\r\n\r\n".as_slice());
/// let bare = read_status_line(&mut b"HTTP/1.1 200\r\n".as_slice());
/// assert!(rt; matches!(bare, Ok(line) if line.reason.is_empty()));
/// assert!(rt; read_status_line(&mut b"HTTP/1.1 20 OK\r\n".as_slice()).is_err());
/// ```
pub fn read_status_line<'i>(input: &mut &'i [u8]) -> Result<StatusLine<'i>, ErrMode<EmptyError>>
    ensures reads { Reads bytes_reading ⟦<ErrMode<EmptyError> as HasKind>⟧.kind StatusLineStands
        (bytes_input input.old.now) result (bytes_input input.new.now) }
    ensures spared { IsSpared ⟦<ErrMode<EmptyError> as HasKind>⟧.kind
        (bytes_input input.old.now) result }
{
    match read_protocol_and_code(input) {
        Ok(((major, minor), status)) => match read_reason(input) {
            Ok(reason) => Ok(StatusLine {
                major,
                minor,
                status,
                reason,
            }),
            Err(error) => Err(error),
        },
        Err(error) => Err(error),
    }
}
