//! A place in a text, for messages.
ghost use Rattle.format_parts.specs.Location.{IsLocation};

use std::fmt;
use std::fmt::{Display, Formatter};
use text_positions::excerpt::position_in;

/// A place in a text.
///
/// It is displayed as the line and the column.
///
/// ```
/// use format_parts::location::Location;
///
/// let at = Location::new(b"[1,\n 2 3]", 7);
/// assert_eq!(rt; (at.offset, at.line, at.column), (7, 2, 4));
/// ```
#[derive(Clone, Copy, Debug, PartialEq, Eq, Drop)]
pub struct Location {
    /// The number of bytes before it.
    pub offset: usize,
    /// The line, counted from 1. Lines end with a line feed.
    pub line: usize,
    /// The column, counted from 1, in characters.
    pub column: usize,
}

impl Location {
    /// Returns the place of `offset`, in bytes from the start of `bytes`. Bytes after it are not
    /// read: they may not be UTF-8.
    pub fn new(bytes: &[u8], offset: usize) -> Location
        ensures { IsLocation bytes.now offset result }
    {
        let before = bytes.get(..offset).unwrap_or(bytes);
        let position = position_in(before, before.len());
        Location {
            offset,
            line: position.line,
            column: position.column,
        }
    }
}

impl Display for Location {
    fn fmt<W: fmt::Write>(&self, f: &mut Formatter<W>) -> fmt::Result {
        write!(f, "line {}, column {}", self.line, self.column)
    }
}
