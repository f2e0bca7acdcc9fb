//! Errors: why a text is not a TOML document, and where.
ghost use Rattle.std.specs.Prelude.{◌≡◌, ◌++◌, ℕ, List};
ghost use Rattle.std.specs.Str.{IsUtf8, IsValidUpTo, chars};
ghost use Rattle.format_toml_document.specs.Fault.{IsAfter, IsBroken, IsOpening, IsRefusal};
ghost use Rattle.format_toml_document.specs.Fault.{IsUnexpected, location_of};
ghost use Rattle.format_toml_errors.specs.Unclosed.{IsUnclosed, text_of};

use format_parts::location::Location;
use format_toml::starts::statement_start;
use format_toml_errors::expected::Expected;
use format_toml_errors::walk::{Stop, first_stop};
use format_toml_tree::build;
use format_toml_tree::roles::Reason;
use std::alloc::Allocator;
use std::error::Error;
use std::fmt;
use std::fmt::{Display, Formatter};
use text_positions::excerpt::Excerpt;

/// The reason why a text is not a TOML document, and the position.
///
/// ```
/// use format_toml_document::{Document, from_text};
///
/// let mut document = Document::new(alloc);
/// let Err(fault) = from_text(alloc, 1, "[server]\nport 80\n", &mut document) else {
///     return;
/// };
/// let said = format!(in alloc; "{fault}");
/// assert!(rt; matches!(said, Ok(said)
///     if said.as_str() == "line 2, column 6: expected `.` or `=`"));
/// ```
#[derive(Clone, Copy, Debug, PartialEq, Eq, Drop)]
pub enum TomlError {
    /// A syntax error: no document of the level starts with the text up to the position and the
    /// character there, or the text ends there and is incomplete. Some document starts with the
    /// text up to the position, if it has fewer than 2^58 characters. This error comes first, also
    /// if an earlier line defines a key twice.
    Unexpected {
        /// The position of that character, or the end of the text.
        at: Location,
        /// The input that is expected there instead.
        expected: Expected,
        /// Where the innermost string, array or inline table begins that is not closed before the
        /// position, or `None` if all are closed.
        unclosed: Option<Location>,
    },
    /// The syntax of the whole text is valid, and a line is rejected: by the standard because of
    /// earlier ones, or as it makes a table or an array that is nested too deep.
    Invalid {
        /// Where the first such line begins.
        at: Location,
        /// The reason for the rejection.
        why: Reason,
    },
    /// The bytes are no UTF-8.
    NotUtf8 {
        /// The end of the longest front that is UTF-8.
        at: Location,
    },
    /// Memory allocation failed.
    OutOfMemory,
}

impl TomlError {
    /// Returns the position at which the text is not a document, or `None` if memory allocation
    /// failed.
    ///
    /// ```
    /// use format_toml_document::{Document, from_text};
    ///
    /// let mut document = Document::new(alloc);
    /// if let Err(fault) = from_text(alloc, 1, "a = 1\na = 2\n", &mut document) {
    ///     assert!(rt; matches!(fault.location(), Some(at) if at.line == 2));
    /// }
    /// ```
    pub fn location(&self) -> Option<Location>
        ensures { result ≡ location_of self.now }
    {
        match *self {
            TomlError::Unexpected { at, .. }
            | TomlError::Invalid { at, .. }
            | TomlError::NotUtf8 { at } => { Some(at) }
            TomlError::OutOfMemory => None,
        }
    }

    /// Returns the error with the line of the text that was parsed, and a caret under the position.
    ///
    /// ```
    /// use format_toml_document::{Document, from_text};
    ///
    /// let text = "[server]\nport 80\n";
    /// let mut document = Document::new(alloc);
    /// let Err(fault) = from_text(alloc, 1, text, &mut document) else {
    ///     return;
    /// };
    /// let shown = fault.shown(text.as_bytes());
    /// let said = format!(in alloc; "{shown}");
    /// let wanted =
    ///     "parse error at line 2, column 6\n  |\n2 | port 80\n  |      ^\nexpected `.` or `=`";
    /// assert!(rt; matches!(said, Ok(said) if said.as_str() == wanted));
    /// ```
    pub fn shown<'t>(&self, text: &'t [u8]) -> Shown<'t>
        ensures fault { result.fault ≡ self.now }
        ensures text { result.text.now ≡ text.now }
    {
        Shown { fault: *self, text }
    }

    /// Writes the reason, without the position.
    fn write_why<W: fmt::Write>(&self, f: &mut Formatter<W>) -> fmt::Result {
        match *self {
            TomlError::Unexpected {
                at,
                expected,
                unclosed,
            } => {
                write!(f, "expected {expected}")?;
                match unclosed {
                    Some(start) if start.line < at.line => write!(f, "; unclosed from {start}"),
                    _ => Ok(()),
                }
            }
            TomlError::Invalid { why, .. } => write!(f, "{why}"),
            TomlError::NotUtf8 { .. } => f.write_str("invalid UTF-8"),
            TomlError::OutOfMemory => f.write_str("out of memory"),
        }
    }
}

impl Display for TomlError {
    fn fmt<W: fmt::Write>(&self, f: &mut Formatter<W>) -> fmt::Result {
        if let Some(at) = self.location() {
            write!(f, "{at}: ")?;
        }
        self.write_why(f)
    }
}

impl Error for TomlError {}

/// An error together with its text.
///
/// It is displayed as the line and the column, the line of the text, a caret under the position,
/// and the reason. [`TomlError::OutOfMemory`] is displayed as only the reason.
#[derive(Clone, Copy, Debug, Drop)]
pub struct Shown<'t> {
    fault: TomlError,
    text: &'t [u8],
}

impl Display for Shown<'_> {
    fn fmt<W: fmt::Write>(&self, f: &mut Formatter<W>) -> fmt::Result {
        if let Some(at) = self.fault.location() {
            let excerpt = Excerpt::new(self.text, at.offset);
            writeln!(f, "{excerpt}")?;
        }
        self.fault.write_why(f)
    }
}

/// Returns the position in `text` of its suffix `rest`.
fn located(text: &str, rest: &str) -> Location
    ensures { (front : List ℕ) → chars text.now ≡ front ++ chars rest.now
        → IsAfter text.now rest.now result }
{
    Location::new(text.as_bytes(), text.len().saturating_sub(rest.len()))
}

/// Returns where the innermost string, array or inline table begins that is not closed.
fn opening(text: &str, stop: Stop<'_>) -> Option<Location>
    ensures { IsUnclosed (chars text.now) (chars stop.entry.rest.now)
        (text_of stop.entry.unclosed) → IsOpening text.now stop.entry.rest.now result }
{
    match stop.unclosed {
        Some(start) => Some(located(text, start)),
        None => None,
    }
}

/// Returns the [`TomlError`] of a text that is not lines of TOML.
pub(crate) fn fault_of_text<A: Allocator + Copy>(alloc: A, level: usize, text: &str) -> TomlError
    ensures { IsUnexpected A level text.now result }
{
    let Ok(Some(stop)) = first_stop(alloc, level, text) else {
        return TomlError::OutOfMemory;
    };
    TomlError::Unexpected {
        at: located(text, stop.rest),
        expected: stop.expected,
        unclosed: opening(text, stop),
    }
}

/// Returns the [`TomlError`] of a text whose lines have no tree.
pub(crate) fn fault_of_build<A: Allocator + Copy>(
    alloc: A,
    level: usize,
    text: &str,
    fault: build::TreeError,
) -> TomlError
    ensures { IsRefusal A level text.now fault result }
{
    let build::TreeError::Invalid { statement, why } = fault else {
        return TomlError::OutOfMemory;
    };
    match statement_start(alloc, level, text, statement) {
        Ok(Some(rest)) => TomlError::Invalid {
            at: located(text, rest),
            why,
        },
        Ok(None) | Err(_) => TomlError::OutOfMemory,
    }
}

/// Returns the [`TomlError`] of bytes that are not UTF-8 after the first `valid`.
pub(crate) fn fault_of_bytes(bytes: &[u8], valid: usize) -> TomlError
    requires broken { IsUtf8 bytes.now → ⊥ }
    requires place { IsValidUpTo bytes.now valid }
    ensures { IsBroken bytes.now result }
{
    TomlError::NotUtf8 {
        at: Location::new(bytes, valid),
    }
}
