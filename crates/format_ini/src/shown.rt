//! Errors for users: line, column and message.

ghost use Rattle.std.specs.Prelude.{◌↔◌, IfSome, IsSome, take};
ghost use Rattle.std.specs.Str.{IsCharBoundary, chars};
ghost use Rattle.text_positions.specs.Position.{IsPosition};

use crate::documents::{IniError, InvalidLine};
use crate::lines::Reason;
use std::error::Error;
use std::fmt;
use std::fmt::{Display, Formatter};
use text_positions::{Position, position_of};

impl InvalidLine {
    /// The line and the column of the error, both counted from 1, in the text that was read. `None`
    /// for a text that has no such place.
    ///
    /// ```
    /// use format_ini::documents::InvalidLine;
    /// use format_ini::lines::Reason;
    /// use text_positions::Position;
    ///
    /// let fault = InvalidLine { offset: 4, why: Reason::NoDelimiter };
    /// assert_eq!(rt; fault.position("[s]\na\n"), Some(Position { line: 2, column: 1 }));
    /// ```
    pub fn position(&self, text: &str) -> Option<Position>
        ensures place { IfSome result (λ it.
            IsPosition (chars (take self.now.offset text.now)) it.line it.column) }
        ensures found { IsSome result ↔ IsCharBoundary text.now self.now.offset }
    {
        position_of(text, self.offset)
    }
}

impl Display for Reason {
    fn fmt<W: fmt::Write>(&self, f: &mut Formatter<W>) -> fmt::Result {
        f.write_str(match *self {
            Reason::OpenSection => "unclosed section header",
            Reason::EmptySection => "empty section name",
            Reason::TextBehindSection => "unexpected text after a section header",
            Reason::NoSection => "pair before the first section header",
            Reason::NoKey => "missing key before the delimiter",
            Reason::NoDelimiter => "missing delimiter after the key",
        })
    }
}

impl Error for Reason {}

impl Display for InvalidLine {
    fn fmt<W: fmt::Write>(&self, f: &mut Formatter<W>) -> fmt::Result {
        let (offset, why) = (self.offset, self.why);
        write!(f, "{why} in the line at offset {offset}")
    }
}

impl Error for InvalidLine {}

impl Display for IniError {
    fn fmt<W: fmt::Write>(&self, f: &mut Formatter<W>) -> fmt::Result {
        match *self {
            IniError::Invalid(fault) => write!(f, "{fault}"),
            IniError::OutOfMemory => f.write_str("out of memory"),
        }
    }
}

impl Error for IniError {}
