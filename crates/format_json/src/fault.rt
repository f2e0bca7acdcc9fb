//! Why a text is no JSON, and where; and why a value is not written.
ghost use Rattle.format_json.specs.Fault.{IsErrorOf, IsReadable, location_of, write_fault};
ghost use Rattle.format_json_pieces.specs.Place.{IsPlace};
ghost use Rattle.std.specs.Prelude.{◌≡◌};
ghost use Rattle.std.specs.Str.{IsUtf8};

use format_json_pieces::expected::Expected;
use format_json_pieces::place::{Place, first_place};
use format_json_writer::error::WriteError;
use format_parts::location::Location;
use std::alloc::Allocator;
use std::error::Error;
use std::fmt::{Display, Formatter};
use std::{fmt, str};

/// Why a text is no JSON, and where.
///
/// ```
/// use format_json::from_text;
///
/// let Err(fault) = from_text(alloc, 1, "{\"a\" 1}") else {
///     return;
/// };
/// let said = format!(in alloc; "{fault}");
/// let wanted = "line 1, column 6: expected a colon";
/// assert!(rt; matches!(said, Ok(said) if said.as_str() == wanted));
/// ```
#[derive(Clone, Copy, Debug, PartialEq, Eq, Drop)]
pub enum JsonError {
    /// The input at this position is invalid, regardless of what follows it.
    Unexpected {
        /// The first such place.
        at: Location,
        /// The input that is expected there.
        expected: Expected,
    },
    /// The text ends where it may go on to JSON, and is none yet.
    End {
        /// The end of the text.
        at: Location,
        /// The input that is expected there.
        expected: Expected,
    },
    /// Arrays and objects are nested deeper than the level allows.
    TooDeep {
        /// The bracket or brace that is one too many.
        at: Location,
        /// The level that the caller gave.
        level: usize,
    },
    /// The bytes are no UTF-8.
    NotUtf8 {
        /// The end of the longest front that is UTF-8.
        at: Location,
    },
    /// Memory allocation failed.
    NoMemory,
}

impl JsonError {
    /// Returns the position of the error in the text, or `None` if memory allocation failed.
    ///
    /// ```
    /// use format_json::from_text;
    ///
    /// if let Err(fault) = from_text(alloc, 1, "[1 2]") {
    ///     assert!(rt; matches!(fault.location(), Some(at) if at.offset == 3));
    /// }
    /// ```
    pub fn location(&self) -> Option<Location>
        ensures { result ≡ location_of self.now }
    {
        match *self {
            JsonError::Unexpected { at, .. }
            | JsonError::End { at, .. }
            | JsonError::TooDeep { at, .. }
            | JsonError::NotUtf8 { at } => Some(at),
            JsonError::NoMemory => None,
        }
    }
}

impl Display for JsonError {
    fn fmt<W: fmt::Write>(&self, f: &mut Formatter<W>) -> fmt::Result {
        match *self {
            JsonError::Unexpected { at, expected } => write!(f, "{at}: expected {expected}"),
            JsonError::End { at, expected } => {
                write!(f, "{at}: unexpected end of input, expected {expected}")
            }
            JsonError::TooDeep { at, level } => write!(
                f,
                "{at}: nested deeper than {level} levels"
            ),
            JsonError::NotUtf8 { at } => write!(f, "{at}: invalid UTF-8"),
            JsonError::NoMemory => f.write_str("out of memory"),
        }
    }
}

impl Error for JsonError {}

/// Why a value is not written.
///
/// ```
/// use format_json::{Value, JsonWriteError, to_text};
/// use std::alloc::Global;
///
/// let value: Value<Global> = Value::Number(String::from_str(alloc, "01").unwrap());
/// assert!(rt; matches!(to_text(alloc, 0, &value), Err(JsonWriteError::NotANumber)));
/// ```
#[derive(Clone, Copy, Debug, PartialEq, Eq, Drop)]
pub enum JsonWriteError {
    /// The text of a number in the value is not a number of RFC 8259 (section 6).
    NotANumber,
    /// Arrays and objects are nested deeper than the level allows.
    TooDeep,
    /// Memory allocation failed.
    NoMemory,
}

impl JsonWriteError {
    /// The same as another crate says it.
    pub(crate) fn of(error: WriteError) -> JsonWriteError
        ensures { result ≡ write_fault error }
    {
        match error {
            WriteError::Number => JsonWriteError::NotANumber,
            WriteError::Level => JsonWriteError::TooDeep,
            WriteError::Memory => JsonWriteError::NoMemory,
        }
    }
}

impl Display for JsonWriteError {
    fn fmt<W: fmt::Write>(&self, f: &mut Formatter<W>) -> fmt::Result {
        f.write_str(match *self {
            JsonWriteError::NotANumber => "invalid JSON number in the value",
            JsonWriteError::TooDeep => "nested too deep",
            JsonWriteError::NoMemory => "out of memory",
        })
    }
}

impl Error for JsonWriteError {}

/// Returns the [`JsonError`] for `place` in `text`.
fn fault_at(level: usize, text: &[u8], place: Place) -> JsonError
    ensures { IsPlace level text.now place.offset place.expected
        → IsReadable text.now place.offset → IsErrorOf level text.now result }
{
    let at = Location::new(text, place.offset);
    match place.expected {
        Expected::NoDeeper => JsonError::TooDeep { at, level },
        expected if place.offset < text.len() => JsonError::Unexpected { at, expected },
        expected => JsonError::End { at, expected },
    }
}

/// Returns the [`JsonError`] of a text that is not JSON.
pub(crate) fn fault_of_text<A: Allocator>(alloc: A, level: usize, text: &[u8]) -> JsonError
    requires { IsUtf8 text.now }
    ensures { IsErrorOf level text.now result }
{
    match first_place(alloc, level, text) {
        Ok(place) => fault_at(level, text, place),
        Err(_) => JsonError::NoMemory,
    }
}

/// Returns the [`JsonError`] of bytes that are not JSON, as [`from_bytes`](crate::from_bytes) does,
/// without a value. It is that they are not UTF-8, unless another error has a smaller offset.
/// Allocates one byte for each open bracket. For bytes that are JSON, the error is unspecified.
///
/// ```
/// use format_json::{Expected, JsonError};
/// use format_json::fault::error_of;
///
/// let error = error_of(alloc, 1, b"[1, 2,]");
/// assert!(rt; matches!(error, JsonError::Unexpected { at, expected: Expected::Value }
///     if at.offset == 6));
/// ```
pub fn error_of<A: Allocator>(alloc: A, level: usize, bytes: &[u8]) -> JsonError
    ensures { IsErrorOf level bytes.now result }
{
    let valid = match str::from_utf8(bytes) {
        Ok(_) => return fault_of_text(alloc, level, bytes),
        Err(error) => error.valid_up_to(),
    };
    match first_place(alloc, level, bytes) {
        Ok(place) if place.offset < valid => fault_at(level, bytes, place),
        Ok(_) => JsonError::NotUtf8 {
            at: Location::new(bytes, valid),
        },
        Err(_) => JsonError::NoMemory,
    }
}
