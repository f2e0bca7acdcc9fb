//! The lines of a head.

ghost use Rattle.std.specs.Prelude.{◌≡◌, ◌≤◌, ◌<◌, ◌+◌, ◌∷◌, ◌++◌, MatchResult, length, take};
ghost use Rattle.format_http.specs.Heads.Bytes.{IsDigit, line_end};
ghost use Rattle.format_http.specs.Heads.RequestLine.{digits};
ghost use Rattle.format_http_places.specs.Grammar.{FieldsText, HeadText, NoLineEnd, ProtocolText};
ghost use Rattle.format_http_places.specs.Grammar.{Stops, Unended, VersionText, protocol};
ghost use Rattle.format_http_places.specs.Places.{ShowsFieldLine, ShowsLine};
ghost use Rattle.format_http_places.specs.Runs.{NotFirst};
ghost use Rattle.format_http_places.specs.States.{AfterVersion};
ghost use Rattle.format_http_places.specs.declared.state.FirstLine.{FirstLine};

use crate::places::{Field, Span};
use crate::runs::{bare, target_len, token_len, value_len};
use crate::stop::{Stop, behind, front, read_byte, read_text};

/// A request line, and the rest after it.
#[derive(Clone, Copy)]
pub(crate) struct RequestLine<'i> {
    pub method: Span,
    pub target: Span,
    pub major: u8,
    pub minor: u8,
    pub rest: &'i [u8],
}

/// The numbers of a version, and the rest after them, or after the line that they end.
#[derive(Clone, Copy)]
pub(crate) struct Version<'i> {
    pub major: u8,
    pub minor: u8,
    pub rest: &'i [u8],
}

/// A field line, and the rest after it.
#[derive(Clone, Copy)]
pub(crate) struct FieldLine<'i> {
    pub field: Field,
    pub rest: &'i [u8],
}

/// Returns the rest after `byte`, which must follow a run of `size` bytes, at least one.
#[inline(always)]
fn ended(bytes: &[u8], size: usize, byte: u8) -> Result<&[u8], Stop>
    requires { size ≤ length bytes.now }
    ensures { MatchResult result
        (λ rest. (0 < size) × (bytes.now ≡ take size bytes.now ++ byte ∷ rest.now))
        (λ stop. Unended bytes.now size byte stop.left) }
{
    if size == 0 {
        return Err(Stop { left: bytes.len() });
    }
    read_byte(behind(bytes, size), byte)
}

/// Skips a line ending and returns the rest.
#[inline(always)]
pub(crate) fn read_line_end(bytes: &[u8]) -> Result<&[u8], Stop>
    ensures { MatchResult result (λ rest. bytes.now ≡ line_end ++ rest.now)
        (λ stop. NoLineEnd bytes.now stop.left) }
{
    let line_feed = read_byte(bytes, b'\r')?;
    read_byte(line_feed, b'\n')
}

/// Parses a digit and returns its number and the rest.
#[inline(always)]
pub(crate) fn read_digit(bytes: &[u8]) -> Result<(u8, &[u8]), Stop>
    ensures { MatchResult result
        (λ digit. (digit.0 < 10) × (bytes.now ≡ (48 + digit.0) ∷ digit.1.now))
        (λ stop. NotFirst IsDigit bytes.now × (stop.left ≡ length bytes.now)) }
{
    match bytes.first() {
        Some(first) if b'0' <= *first && *first <= b'9' => Ok((*first - b'0', behind(bytes, 1))),
        _ => Err(Stop { left: bytes.len() }),
    }
}

/// Parses the numbers of a version, with the bytes before them.
#[inline(always)]
pub(crate) fn read_numbers(bytes: &[u8]) -> Result<Version<'_>, Stop>
    ensures { MatchResult result
        (λ version. (version.major < 10) × (version.minor < 10)
        × (bytes.now ≡ protocol ++ (digits version.major version.minor ++ version.rest.now)))
        (λ stop. (line : FirstLine)
        → Stops (ProtocolText (AfterVersion line)) bytes.now stop.left) }
{
    let first = read_text(bytes, b"HTTP/".as_slice())?;
    let (major, point) = read_digit(first)?;
    let second = read_byte(point, b'.')?;
    let (minor, rest) = read_digit(second)?;
    Ok(Version { major, minor, rest })
}

/// A version and the line end after it.
fn read_version(bytes: &[u8]) -> Result<Version<'_>, Stop>
    ensures { MatchResult result
        (λ version. (version.major < 10) × (version.minor < 10)
        × (bytes.now ≡ protocol ++ (digits version.major version.minor
        ++ (line_end ++ version.rest.now))))
        (λ stop. Stops VersionText bytes.now stop.left) }
{
    let numbers = read_numbers(bytes)?;
    let rest = read_line_end(numbers.rest)?;
    Ok(Version {
        major: numbers.major,
        minor: numbers.minor,
        rest,
    })
}

/// The request line with which the bytes begin.
pub(crate) fn read_request_line(bytes: &[u8]) -> Result<RequestLine<'_>, Stop>
    ensures { MatchResult result (λ line. ShowsLine bytes.now line)
        (λ stop. Stops HeadText bytes.now stop.left) }
{
    let method = token_len(bytes);
    let line = ended(bytes, method, b' ')?;
    let target = target_len(line);
    let last = ended(line, target, b' ')?;
    let version = read_version(last)?;
    Ok(RequestLine {
        method: Span {
            offset: 0,
            length: method,
        },
        target: Span {
            offset: method + 1,
            length: target,
        },
        major: version.major,
        minor: version.minor,
        rest: version.rest,
    })
}

/// The field line with which these bytes begin, the last ones of an input of such a length.
#[inline(always)]
pub(crate) fn read_field_line(whole: usize, bytes: &[u8]) -> Result<FieldLine<'_>, Stop>
    requires { length bytes.now ≤ whole }
    ensures { MatchResult result (λ line. ShowsFieldLine whole bytes.now line)
        (λ stop. NotFirst (λ b. b ≡ 13) bytes.now → Stops FieldsText bytes.now stop.left) }
{
    let name = token_len(bytes);
    let text = ended(bytes, name, b':')?;
    let size = value_len(text);
    let rest = read_line_end(behind(text, size))?;
    let value = bare(front(text, size));
    let field = Field {
        name: Span {
            offset: whole - bytes.len(),
            length: name,
        },
        value: Span {
            offset: whole - text.len() + value.offset,
            length: value.length,
        },
    };
    Ok(FieldLine { field, rest })
}
