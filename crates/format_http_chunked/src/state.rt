//! A decoder as numbers.
#![tactic(auto)]

ghost use Rattle.format_http_chunked.specs.State.{field_at, line_at, place_at};
ghost use Rattle.format_http_chunked.specs.declared.places.Place.TheVariants as place;
ghost use Rattle.std.specs.Prelude.{◌≡◌, ◌<◌};

use crate::places::{Framing, InField, InLine, Place};

/// The state of decoding a chunked body as numbers, for callers that cannot keep a Rust type. Only
/// the calls interpret them. A `place` of 0 means that nothing was consumed, regardless of the
/// other numbers: use it at the start of each body. The limits are then those for a server, 4,096
/// bytes between data and 8,192 of the trailer section. For other limits set `place` to 1, `room`
/// and `size_line` to the first limit, and `trailer_room` and `trailers` to the second.
///
/// ```
/// use format_http_chunked::decoder::{Decoder, SAFE_LIMITS};
/// use format_http_chunked::state::ChunkedState;
///
/// let zeros = ChunkedState {
///     place: 0,
///     within: 0,
///     size: 0,
///     room: 0,
///     trailer_room: 0,
///     size_line: 0,
///     trailers: 0,
/// };
/// assert!(rt; Decoder::of_state(zeros) == Decoder::new(SAFE_LIMITS));
/// ```
#[repr(C)]
#[derive(Clone, Copy, Debug, PartialEq, Eq)]
pub struct ChunkedState {
    /// The position of the next byte in the body: 0 or 1 if nothing was consumed.
    pub place: usize,
    /// Where in a size line, or in a field line.
    pub within: usize,
    /// The number of the size's digits so far; or the size; or the number of bytes of data that
    /// remain.
    pub size: u64,
    /// The number of bytes allowed before the next data.
    pub room: usize,
    /// How many bytes more the trailer section may have.
    pub trailer_room: usize,
    /// The number of bytes allowed between data.
    pub size_line: usize,
    /// How many bytes the trailer section may have.
    pub trailers: usize,
}

/// Where in a size line, by its number.
fn line_of(number: usize) -> InLine
    ensures { result ≡ line_at number }
{
    match number {
        0 => InLine::AfterSize,
        1 => InLine::White,
        2 => InLine::Semicolon,
        3 => InLine::Name,
        4 => InLine::NameWhite,
        5 => InLine::Equals,
        6 => InLine::Token,
        7 => InLine::Quotes,
        8 => InLine::Escape,
        _ => InLine::Return,
    }
}

/// Where in a field line, by its number.
fn field_of(number: usize) -> InField
    ensures { result ≡ field_at number }
{
    match number {
        0 => InField::Start,
        1 => InField::Name,
        2 => InField::Value,
        _ => InField::Return,
    }
}

/// Where in a body, by its number, by that in a line, and by a size.
pub(crate) fn place_of(number: usize, within: usize, size: u64) -> Place
    ensures { result ≡ place_at number within size }
{
    match number {
        0 => Place::Framing(Framing::Start),
        1 => Place::Framing(Framing::Digits(size)),
        2 => Place::Framing(Framing::Line(line_of(within), size)),
        3 => Place::Framing(Framing::DataEnd),
        4 => Place::Framing(Framing::DataReturn),
        5 => Place::Framing(Framing::LastReturn),
        6 => Place::Data(size),
        7 => Place::Trailers(field_of(within)),
        _ => Place::Done,
    }
}

/// Returns the number of a position in a size line.
fn line_number(at: InLine) -> usize
    ensures { line_at result ≡ at }
{
    match at {
        InLine::AfterSize => 0,
        InLine::White => 1,
        InLine::Semicolon => 2,
        InLine::Name => 3,
        InLine::NameWhite => 4,
        InLine::Equals => 5,
        InLine::Token => 6,
        InLine::Quotes => 7,
        InLine::Escape => 8,
        InLine::Return => 9,
    }
}

/// Returns the number of a position in a field line.
fn field_number(at: InField) -> usize
    ensures { field_at result ≡ at }
{
    match at {
        InField::Start => 0,
        InField::Name => 1,
        InField::Value => 2,
        InField::Return => 3,
    }
}

/// Returns the numbers of a position between outputs.
fn framing_numbers(at: Framing) -> (usize, usize, u64)
    ensures place { place_at result.0 result.1 result.2 ≡ place.Framing at }
    ensures number { result.0 < 9 }
{
    match at {
        Framing::Start => (0, 0, 0),
        Framing::Digits(size) => (1, 0, size),
        Framing::Line(line, size) => (2, line_number(line), size),
        Framing::DataEnd => (3, 0, 0),
        Framing::DataReturn => (4, 0, 0),
        Framing::LastReturn => (5, 0, 0),
    }
}

/// Returns the numbers of a position: its own, that in a line, and a size.
pub(crate) fn numbers_of(at: Place) -> (usize, usize, u64)
    ensures place { place_at result.0 result.1 result.2 ≡ at }
    ensures number { result.0 < 9 }
{
    match at {
        Place::Framing(framing) => framing_numbers(framing),
        Place::Data(size) => (6, 0, size),
        Place::Trailers(field) => (7, field_number(field), 0),
        Place::Done => (8, 0, 0),
    }
}
