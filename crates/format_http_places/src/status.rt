//! The status line of a response.

ghost use Rattle.std.specs.Prelude.{◌≤◌, MatchResult, length};
ghost use Rattle.format_http_places.specs.Grammar.{CodeText, ReasonText, ResponseText, Stops};
ghost use Rattle.format_http_places.specs.Responses.{IsCodeFirst, ShowsReason, ShowsStatus};

use crate::line::{read_digit, read_line_end, read_numbers};
use crate::places::Span;
use crate::runs::value_len;
use crate::stop::{Stop, behind, read_byte};

/// A status line, and the rest after it.
#[derive(Clone, Copy)]
pub(crate) struct StatusLine<'i> {
    pub major: u8,
    pub minor: u8,
    pub status: u16,
    pub reason: Span,
    pub rest: &'i [u8],
}

/// A status code, and the rest after it.
#[derive(Clone, Copy)]
pub(crate) struct Code<'i> {
    pub status: u16,
    pub rest: &'i [u8],
}

/// A reason, and the rest after the line that it ends.
#[derive(Clone, Copy)]
pub(crate) struct Reason<'i> {
    pub place: Span,
    pub rest: &'i [u8],
}

/// A status code.
#[inline(always)]
fn read_code(bytes: &[u8]) -> Result<Code<'_>, Stop>
    ensures { MatchResult result (λ code. IsCodeFirst code.status bytes.now code.rest.now)
        (λ stop. Stops (CodeText ReasonText) bytes.now stop.left) }
{
    let (hundreds, second) = read_digit(bytes)?;
    let (tens, third) = read_digit(second)?;
    let (ones, rest) = read_digit(third)?;
    let status = u16::from(hundreds) * 100 + u16::from(tens) * 10 + u16::from(ones);
    Ok(Code { status, rest })
}

/// The reason, which may have no bytes, and the line end with which these bytes begin, the last
/// ones of an input of such a length.
#[inline(always)]
fn read_reason(whole: usize, bytes: &[u8]) -> Result<Reason<'_>, Stop>
    requires { length bytes.now ≤ whole }
    ensures { MatchResult result (λ reason. ShowsReason whole bytes.now reason)
        (λ stop. Stops ReasonText bytes.now stop.left) }
{
    if let Ok(text) = read_byte(bytes, b' ') {
        let size = value_len(text);
        let rest = read_line_end(behind(text, size))?;
        let place = Span {
            offset: whole - text.len(),
            length: size,
        };
        return Ok(Reason { place, rest });
    }
    let rest = read_line_end(bytes)?;
    let place = Span {
        offset: whole - bytes.len(),
        length: 0,
    };
    Ok(Reason { place, rest })
}

/// The status line with which the bytes begin.
pub(crate) fn read_status_line(bytes: &[u8]) -> Result<StatusLine<'_>, Stop>
    ensures { MatchResult result (λ line. ShowsStatus bytes.now line)
        (λ stop. Stops ResponseText bytes.now stop.left) }
{
    let version = read_numbers(bytes)?;
    let digits = read_byte(version.rest, b' ')?;
    let code = read_code(digits)?;
    let reason = read_reason(bytes.len(), code.rest)?;
    Ok(StatusLine {
        major: version.major,
        minor: version.minor,
        status: code.status,
        reason: reason.place,
        rest: reason.rest,
    })
}
