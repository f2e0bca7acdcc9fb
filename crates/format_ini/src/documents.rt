//! Documents, entry by entry and as lists.

ghost use Rattle.std.specs.Prelude.{◌≡◌, ◌+◌, ◌≤◌, length, map, Err, MatchResult};
ghost use Rattle.format_ini.specs.Documents.{AfterByteOrderMark, HasEntry, IsDocument};
ghost use Rattle.format_ini.specs.Documents.{IsNoDocument, NextEntry, initial_state};
ghost use Rattle.format_ini.specs.Lines.{said_in};

use crate::dialect::Dialect;
use crate::front::first_line;
use crate::lines::{Entry, Reason, State, read_line};
use std::alloc::Allocator;

/// The first line of a text that is invalid in the dialect, and why it is.
#[derive(Clone, Copy, Debug, PartialEq, Eq)]
pub struct InvalidLine {
    /// The offset of that line, in bytes.
    pub offset: usize,
    /// Why it is none.
    pub why: Reason,
}

/// Why no document was read.
#[derive(Clone, Copy, Debug, PartialEq, Eq)]
pub enum IniError {
    /// The text is not a document of the dialect.
    Invalid(InvalidLine),
    /// Memory allocation failed.
    OutOfMemory,
}

/// The entries of a document, in sequence, without allocating.
///
/// ```
/// use format_ini::dialect::Dialect;
/// use format_ini::documents::Entries;
/// use format_ini::lines::Entry;
///
/// let mut entries = Entries::new(Dialect::desktop(), "# c\n[s]\n");
/// assert!(rt; entries.next_entry() == Ok(Some(Entry::Section("s"))));
/// assert!(rt; entries.next_entry() == Ok(None));
/// ```
#[derive(Clone, Copy)]
pub struct Entries<'i> {
    /// How the lines are read.
    pub dialect: Dialect,
    /// The lines that are not read yet.
    pub rest: &'i str,
    /// The effect of the previous lines on the next one.
    pub state: State,
}

impl<'i> Entries<'i> {
    /// Returns the entries of a text, from its first one on. Skips a byte order mark at the start.
    pub fn new(dialect: Dialect, text: &'i str) -> Entries<'i>
        ensures dialect { result.dialect ≡ dialect }
        ensures rest { AfterByteOrderMark text.now result.rest.now }
        ensures state { result.state ≡ initial_state }
    {
        Entries {
            dialect,
            rest: skip_byte_order_mark(text),
            state: State {
                section: false,
                pair: None,
            },
        }
    }

    /// Reads the next entry, and skips empty lines and comments before it. Returns `None` if no
    /// line remains. After an error, the rejected line is still the next one.
    pub fn next_entry(&mut self) -> Result<Option<Entry<'i>>, Reason>
        ensures read { NextEntry self.old.dialect self.old.state self.old.rest.now result
            self.new.state self.new.rest.now }
        ensures same { self.new.dialect ≡ self.old.dialect }
    {
        'lines: loop {
            match first_line(self.rest) {
                None => return Ok(None),
                Some((line, behind)) => {
                    let read = read_line(self.dialect, self.state, 0, line)?;
                    self.rest = behind;
                    self.state = read.next;
                    if let Some(entry) = read.entry {
                        return Ok(Some(entry));
                    }
                }
            }
        }
    }
}

// Skips a byte order mark at the start of `text`.
fn skip_byte_order_mark(text: &str) -> &str
    ensures { AfterByteOrderMark text.now result.now }
{
    match text.strip_prefix('\u{feff}') {
        Some(rest) => rest,
        None => text,
    }
}

// Returns the error for the line that `rest` starts with.
fn fault_at(text: &str, rest: &str, why: Reason) -> InvalidLine
    requires { length rest.now ≤ length text.now }
    ensures { (result.why ≡ why) × (result.offset + length rest.now ≡ length text.now) }
{
    let offset = text.len() - rest.len();
    InvalidLine { offset, why }
}

/// Returns the entries of a document, in order. It is `Ok` if and only if the text consists of
/// lines of the dialect. A byte order mark at the start is skipped.
///
/// `Invalid` holds the offset in bytes of the first line that is invalid in the dialect, and the
/// reason. `OutOfMemory` means that the list could not grow: a text without an entry, as one of
/// comments only, needs no memory.
///
/// ```
/// use format_ini::dialect::Dialect;
/// use format_ini::documents::{InvalidLine, IniError, read_document};
/// use format_ini::lines::Reason;
///
/// match read_document(alloc, Dialect::python(), "[s]\na = b\n") {
///     Ok(entries) => assert_eq!(rt; entries.len(), 2),
///     Err(_) => assert!(rt; false),
/// }
/// let fault = InvalidLine { offset: 4, why: Reason::NoDelimiter };
/// match read_document(alloc, Dialect::python(), "[s]\na\n") {
///     Ok(_) => assert!(rt; false),
///     Err(error) => assert!(rt; error == IniError::Invalid(fault)),
/// }
/// ```
pub fn read_document<'i, A: Allocator>(
    alloc: A,
    dialect: Dialect,
    text: &'i str,
) -> Result<Vec<Entry<'i>, A>, IniError>
    ensures document { MatchResult result
        (λ entries. IsDocument dialect text.now (map said_in entries.items))
        (λ error. IsNoDocument dialect text.now error) }
    ensures full { result ≡ Err IniError.OutOfMemory → HasEntry dialect text.now }
{
    let mut entries = Vec::new(alloc);
    let mut left = Entries::new(dialect, text);
    'entries: loop {
        match left.next_entry() {
            Ok(Some(entry)) => {
                if entries.push(entry).is_err() {
                    return Err(IniError::OutOfMemory);
                }
            }
            Ok(None) => return Ok(entries),
            Err(why) => return Err(IniError::Invalid(fault_at(text, left.rest, why))),
        }
    }
}
