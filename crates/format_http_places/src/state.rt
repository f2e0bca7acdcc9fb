//! The states of the search for the end of a head: the position of the next byte in its grammar.

ghost use Rattle.std.specs.Prelude.{◌≡◌, ◌≤◌, ◌↔◌, IsTrue, length, take};
ghost use Rattle.format_http.specs.Heads.Bytes.{IsDigit};
ghost use Rattle.format_http_places.specs.Extents.{IsIf, IsOnly, IsRunOr, IsStep};
ghost use Rattle.format_http_places.specs.States.{StateAfter, after_version, part_of, start_of};

use crate::parts::{HeadKind, HeadPart};
use crate::runs::{is_token, is_value, is_visible, target_len, token_len, value_len};

/// The first line that a version is in.
///
/// ```
/// use format_http_places::parts::HeadKind;
/// use format_http_places::state::{FirstLine, HeadPlace};
///
/// let start = HeadPlace::start(HeadKind::Response);
/// assert!(rt; start == HeadPlace::Version(FirstLine::Response));
/// ```
#[derive(Clone, Copy, Debug, PartialEq, Eq)]
pub enum FirstLine {
    /// A request line.
    Request,
    /// A status line.
    Response,
}

/// The position of the next byte in a head.
///
/// ```
/// use format_http_places::extent::HeadExtent;
/// use format_http_places::parts::HeadKind;
/// use format_http_places::state::HeadPlace;
///
/// let mut extent = HeadExtent::new(HeadKind::Request);
/// assert!(rt; matches!(extent.advance(b"GET /"), Ok(None)));
/// assert!(rt; extent.place == HeadPlace::Target);
/// ```
#[derive(Clone, Copy, Debug, PartialEq, Eq)]
pub enum HeadPlace {
    /// At the start of a request, and of its method.
    Start,
    /// In the method.
    Method,
    /// At the start of the target.
    TargetStart,
    /// In the target.
    Target,
    /// At the start of the version: in a request after the target, and the start of a response.
    Version(FirstLine),
    /// After its first byte.
    AfterH(FirstLine),
    /// After its second byte.
    AfterT(FirstLine),
    /// After its third byte.
    AfterTT(FirstLine),
    /// After its fourth byte.
    AfterP(FirstLine),
    /// At the number before the point.
    Major(FirstLine),
    /// At the point.
    Point(FirstLine),
    /// At the number after the point.
    Minor(FirstLine),
    /// At the carriage return after the version of a request.
    Return,
    /// At the space after the version of a response.
    Space,
    /// At the first digit of the status code.
    Hundreds,
    /// At its second digit.
    Tens,
    /// At its third digit.
    Ones,
    /// After the status code: at a space and the reason phrase, or at the carriage return.
    AfterCode,
    /// At the line feed of a line.
    LineFeed,
    /// At the start of a field line or of the empty line.
    Fields,
    /// In the name of a field.
    Name,
    /// In its value or the whitespace around it, or in the reason phrase.
    Value,
    /// At the line feed of the empty line.
    LastLineFeed,
    /// After the head.
    Done,
}

impl HeadPlace {
    /// Returns the state at the start of a head.
    ///
    /// ```
    /// use format_http_places::parts::HeadKind;
    /// use format_http_places::state::HeadPlace;
    ///
    /// assert!(rt; HeadPlace::start(HeadKind::Request) == HeadPlace::Start);
    /// ```
    pub fn start(kind: HeadKind) -> HeadPlace
        ensures { result ≡ start_of kind }
    {
        match kind {
            HeadKind::Request => HeadPlace::Start,
            HeadKind::Response => HeadPlace::Version(FirstLine::Response),
            HeadKind::Trailers => HeadPlace::Fields,
        }
    }

    /// Returns the part of the head that the next byte is in. After a head it is
    /// [`HeadPart::LineEnding`].
    ///
    /// ```
    /// use format_http_places::parts::HeadPart;
    /// use format_http_places::state::HeadPlace;
    ///
    /// assert!(rt; HeadPlace::Tens.part() == HeadPart::StatusCode);
    /// ```
    pub fn part(self) -> HeadPart
        ensures { result ≡ part_of self }
    {
        match self {
            HeadPlace::Start | HeadPlace::Method => HeadPart::Method,
            HeadPlace::TargetStart | HeadPlace::Target => HeadPart::Target,
            HeadPlace::Version(_)
            | HeadPlace::AfterH(_)
            | HeadPlace::AfterT(_)
            | HeadPlace::AfterTT(_)
            | HeadPlace::AfterP(_)
            | HeadPlace::Major(_)
            | HeadPlace::Point(_)
            | HeadPlace::Minor(_) => HeadPart::Version,
            HeadPlace::Space
            | HeadPlace::Hundreds
            | HeadPlace::Tens
            | HeadPlace::Ones
            | HeadPlace::AfterCode => HeadPart::StatusCode,
            HeadPlace::Fields => HeadPart::FieldName,
            HeadPlace::Name => HeadPart::Colon,
            HeadPlace::Value => HeadPart::Value,
            HeadPlace::Return | HeadPlace::LineFeed | HeadPlace::LastLineFeed | HeadPlace::Done =>
                HeadPart::LineEnding,
        }
    }
}

/// Returns the state after a version.
#[inline(always)]
fn after_version(line: FirstLine) -> HeadPlace
    ensures { result ≡ after_version line }
{
    match line {
        FirstLine::Request => HeadPlace::Return,
        FirstLine::Response => HeadPlace::Space,
    }
}

#[inline(always)]
fn is_digit(byte: u8) -> bool
    ensures { IsTrue result ↔ IsDigit byte }
{
    b'0' <= byte && byte <= b'9'
}

/// The next place, if this is so.
#[inline(always)]
fn then_some(is: bool, next: HeadPlace) -> Option<HeadPlace>
    ensures { IsIf is next result }
{
    if is { Some(next) } else { None }
}

/// Returns the next state, if the byte is the expected one.
#[inline(always)]
fn only(byte: u8, wanted: u8, next: HeadPlace) -> Option<HeadPlace>
    ensures { IsOnly byte wanted next result }
{
    if byte == wanted { Some(next) } else { None }
}

/// Returns the same state if a run continues, or the next one if the byte is the one that ends the
/// run.
#[inline(always)]
fn or_run(
    goes_on: bool,
    same: HeadPlace,
    byte: u8,
    wanted: u8,
    next: HeadPlace,
) -> Option<HeadPlace>
    ensures { IsRunOr goes_on same byte wanted next result }
{
    if goes_on {
        Some(same)
    } else {
        only(byte, wanted, next)
    }
}

/// Returns the state after this byte at the start of a field line or of the empty line.
#[inline(always)]
fn place_in_fields(byte: u8) -> Option<HeadPlace>
    ensures { IsStep HeadPlace.Fields byte result }
{
    if byte == b'\r' {
        Some(HeadPlace::LastLineFeed)
    } else {
        then_some(is_token(byte), HeadPlace::Name)
    }
}

/// Returns the state after this byte after a status code.
#[inline(always)]
fn place_after_code(byte: u8) -> Option<HeadPlace>
    ensures { IsStep HeadPlace.AfterCode byte result }
{
    if byte == b' ' {
        Some(HeadPlace::Value)
    } else {
        only(byte, b'\r', HeadPlace::LineFeed)
    }
}

/// Returns the state after this byte, or `None` after the head, and if no head continues with the
/// byte.
#[inline(always)]
pub(crate) fn place_after(place: HeadPlace, byte: u8) -> Option<HeadPlace>
    ensures { IsStep place byte result }
{
    match place {
        HeadPlace::Start => then_some(is_token(byte), HeadPlace::Method),
        HeadPlace::Method => or_run(
            is_token(byte),
            HeadPlace::Method,
            byte,
            b' ',
            HeadPlace::TargetStart,
        ),
        HeadPlace::TargetStart => then_some(is_visible(byte), HeadPlace::Target),
        HeadPlace::Target => or_run(
            is_visible(byte),
            HeadPlace::Target,
            byte,
            b' ',
            HeadPlace::Version(FirstLine::Request),
        ),
        HeadPlace::Version(line) => only(byte, b'H', HeadPlace::AfterH(line)),
        HeadPlace::AfterH(line) => only(byte, b'T', HeadPlace::AfterT(line)),
        HeadPlace::AfterT(line) => only(byte, b'T', HeadPlace::AfterTT(line)),
        HeadPlace::AfterTT(line) => only(byte, b'P', HeadPlace::AfterP(line)),
        HeadPlace::AfterP(line) => only(byte, b'/', HeadPlace::Major(line)),
        HeadPlace::Major(line) => then_some(is_digit(byte), HeadPlace::Point(line)),
        HeadPlace::Point(line) => only(byte, b'.', HeadPlace::Minor(line)),
        HeadPlace::Minor(line) => then_some(is_digit(byte), after_version(line)),
        HeadPlace::Return => only(byte, b'\r', HeadPlace::LineFeed),
        HeadPlace::Space => only(byte, b' ', HeadPlace::Hundreds),
        HeadPlace::Hundreds => then_some(is_digit(byte), HeadPlace::Tens),
        HeadPlace::Tens => then_some(is_digit(byte), HeadPlace::Ones),
        HeadPlace::Ones => then_some(is_digit(byte), HeadPlace::AfterCode),
        HeadPlace::AfterCode => place_after_code(byte),
        HeadPlace::LineFeed => only(byte, b'\n', HeadPlace::Fields),
        HeadPlace::Fields => place_in_fields(byte),
        HeadPlace::Name => or_run(
            is_token(byte),
            HeadPlace::Name,
            byte,
            b':',
            HeadPlace::Value,
        ),
        HeadPlace::Value => or_run(
            is_value(byte),
            HeadPlace::Value,
            byte,
            b'\r',
            HeadPlace::LineFeed,
        ),
        HeadPlace::LastLineFeed => only(byte, b'\n', HeadPlace::Done),
        HeadPlace::Done => None,
    }
}

/// How many of the first bytes leave the place as it is: those of a run.
#[inline(always)]
pub(crate) fn run_len(place: HeadPlace, bytes: &[u8]) -> usize
    ensures few { result ≤ length bytes.now }
    ensures same { StateAfter place (take result bytes.now) place }
{
    match place {
        HeadPlace::Method | HeadPlace::Name => token_len(bytes),
        HeadPlace::Target => target_len(bytes),
        HeadPlace::Value => value_len(bytes),
        _ => 0,
    }
}
