//! The request line of HTTP/1.1 (RFC 9112, section 3): a method, a request target and a version,
//! separated by one space, and a line ending (a carriage return and a line feed).
//!
//! Section 3.2 defines four forms of a target by the grammar of URIs. Here a target is one or more
//! visible ASCII bytes, which includes each target of that grammar; it contains no space.
//! [`targets`](crate::heads::targets) decides whether it is in one of these forms. The version is
//! two digits; the caller must check whether it is supported.
#![tactic(auto)]

ghost use Rattle.streams.specs.Bytes.{bytes_input, bytes_reading};
ghost use Rattle.format_http.specs.Heads.RequestLine.{RequestLineStands};
ghost use Rattle.format_http.specs.Heads.Parts.{DigitStands, MethodTarget, VersionStands};
ghost use Rattle.format_http.specs.Heads.Parts.{digit_unique};
ghost use Rattle.winnow_core.specs.Exact.{IsSpared, Reads};

use crate::heads::sets::{Digits, TokenBytes, Visible};
use stream_errors::empty::EmptyError;
use stream_errors::has_kind::HasKind;
use stream_errors::mode::ErrMode;
use winnow_comb::combinator::{delimited, separated_pair};
use winnow_core::parser::Parser;
use winnow_grammar::rule::Rule;
use winnow_token::token::{one_of, take_while};

/// A request line: what it says, as slices of the input.
///
/// ```
/// use format_http::heads::request_line::RequestLine;
///
/// let line = RequestLine { method: b"GET", target: b"/", major: 1, minor: 1 };
/// assert!(rt; line.major == 1 && line.target.len() == 1);
/// ```
#[derive(Clone, Copy, Debug, PartialEq, Drop)]
pub struct RequestLine<'i> {
    /// The method, a token of one byte or more.
    pub method: &'i [u8],
    /// The request target, one visible byte or more.
    pub target: &'i [u8],
    /// The number before the point of the version, below 10.
    pub major: u8,
    /// The number after the point of the version, below 10.
    pub minor: u8,
}

/// The name of what [`read_digit`] reads.
#[derive(Clone, Copy, Drop)]
pub(crate) struct Digit;

impl<'i> Rule<&'i [u8], u8> for Digit {
    ghost grammar = { λ _. DigitStands };

    ghost consumes = { λ _. ⊥ };

    fn name() {}

    ghost unique = { λ _. digit_unique };

    ghost takes = { λ _ never. absurd never };
}

/// The number of a digit.
pub(crate) fn read_digit<'i>(input: &mut &'i [u8]) -> Result<u8, ErrMode<EmptyError>>
    ensures reads { Reads bytes_reading ⟦<ErrMode<EmptyError> as HasKind>⟧.kind DigitStands
        (bytes_input input.old.now) result (bytes_input input.new.now) }
    ensures spared { IsSpared ⟦<ErrMode<EmptyError> as HasKind>⟧.kind
        (bytes_input input.old.now) result }
{
    match one_of(Digits).read(input) {
        Ok(digit) => Ok(digit - b'0'),
        Err(error) => Err(error),
    }
}

/// Parses a space, a version and the line ending, and returns the numbers of the version.
fn read_version<'i>(input: &mut &'i [u8]) -> Result<(u8, u8), ErrMode<EmptyError>>
    ensures reads { Reads bytes_reading ⟦<ErrMode<EmptyError> as HasKind>⟧.kind VersionStands
        (bytes_input input.old.now) result (bytes_input input.new.now) }
    ensures spared { IsSpared ⟦<ErrMode<EmptyError> as HasKind>⟧.kind
        (bytes_input input.old.now) result }
{
    let protocol = b" HTTP/".as_slice();
    let major = Digit.by(read_digit);
    let minor = Digit.by(read_digit);
    let numbers = separated_pair(major, b'.', minor);
    let end = b"\r\n".as_slice();
    delimited(protocol, numbers, end).read(input)
}

/// A method, a space and a target.
fn read_method_and_target<'i>(
    input: &mut &'i [u8],
) -> Result<(&'i [u8], &'i [u8]), ErrMode<EmptyError>>
    ensures reads { Reads bytes_reading ⟦<ErrMode<EmptyError> as HasKind>⟧.kind MethodTarget
        (bytes_input input.old.now) result (bytes_input input.new.now) }
    ensures spared { IsSpared ⟦<ErrMode<EmptyError> as HasKind>⟧.kind
        (bytes_input input.old.now) result }
{
    let method = take_while(1.., TokenBytes);
    let target = take_while(1.., Visible);
    separated_pair(method, b' ', target).read(input)
}

/// Parses the request line at the start of the input.
///
/// Backtracks if there is none; some bytes may have been consumed. It does not allocate.
///
/// ```
/// use format_http::heads::request_line::read_request_line;
///
/// let mut input = b"GET /index.html HTTP/1.1\r\nHost: example.org\r\n\r\n".as_slice();
/// let line = read_request_line(&mut input);
/// assert!(rt; matches!(line, Ok(line) if line.method == b"GET".as_slice() && line.minor == 1));
/// assert_eq!(rt; input, b"Host: example.org\r\n\r\n".as_slice());
/// assert!(rt; read_request_line(&mut b"GET  / HTTP/1.1\r\n".as_slice()).is_err());
/// ```
pub fn read_request_line<'i>(input: &mut &'i [u8]) -> Result<RequestLine<'i>, ErrMode<EmptyError>>
    ensures reads { Reads bytes_reading ⟦<ErrMode<EmptyError> as HasKind>⟧.kind RequestLineStands
        (bytes_input input.old.now) result (bytes_input input.new.now) }
    ensures spared { IsSpared ⟦<ErrMode<EmptyError> as HasKind>⟧.kind
        (bytes_input input.old.now) result }
{
    match read_method_and_target(input) {
        Ok((method, target)) => match read_version(input) {
            Ok((major, minor)) => Ok(RequestLine {
                method,
                target,
                major,
                minor,
            }),
            Err(error) => Err(error),
        },
        Err(error) => Err(error),
    }
}
