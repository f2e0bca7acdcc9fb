//! Documents of any dialect of INI, an entry a call.
ghost use Rattle.std.specs.Prelude.{◌≡◌, ◌⊎◌, ◌<◌, List, length, ℕ};
ghost use Rattle.std.specs.Str.{IsUtf8};
ghost use Rattle.format_ini.specs.Documents.{IsDocument, IsRefused};
ghost use Rattle.format_ini.specs.Lines.{Said};
ghost use Rattle.format_ini.specs.declared.lines.Reason.{Reason};
ghost use Rattle.exported.specs.Code.{done, end, invalid, invalid_utf8};
ghost use Rattle.exported.specs.Ini.{EntriesInTurn, IsFrom, ShowsEntry, TellsEntry, Writes};
ghost use Rattle.exported.specs.Ini.{dialect_of, fault_number, is_set, reading_at, zeros};
ghost use Rattle.exported.specs.declared.ini.IniEntry.{IniEntry};
ghost use Rattle.exported.specs.declared.ini.IniState.{IniState};

pub mod dialect;
pub mod lookup;

use crate::code::{DONE, END, INVALID, INVALID_UTF8};
use crate::ini::dialect::dialect_of;
use crate::span::{NOWHERE, Span};
use format_ini::lines::{Entry, Places, Reason, State};
use format_ini::places::{Placed, Reading, Stop, next_placed};

/// The start of a section. The key is its name.
pub const INI_SECTION: u32 = 0;

/// A key with its value, or with the first line of that.
pub const INI_PAIR: u32 = 1;

/// A key without a delimiter, and so without a value.
pub const INI_KEY: u32 = 2;

/// One more line of the value of the pair before. It is empty for an empty line, also where no
/// other line of the value follows.
pub const INI_MORE: u32 = 3;

/// No error.
pub const INI_ERROR_NONE: u32 = 0;

/// Unclosed section header. The line starts with `[` and has no `]`.
pub const INI_ERROR_UNCLOSED_SECTION: u32 = 1;

/// Empty section name. There is nothing between `[` and `]`.
pub const INI_ERROR_EMPTY_SECTION: u32 = 2;

/// Unexpected text after a section header.
pub const INI_ERROR_TRAILING_TEXT: u32 = 3;

/// Pair before the first section header.
pub const INI_ERROR_MISSING_SECTION: u32 = 4;

/// Missing key before the delimiter.
pub const INI_ERROR_MISSING_KEY: u32 = 5;

/// Missing delimiter after the key.
pub const INI_ERROR_MISSING_DELIMITER: u32 = 6;

/// The state of parsing an INI file. Only the functions of this library may interpret its fields.
/// All zeros is the initial state; start from it for each file.
#[repr(C)]
#[derive(Clone, Copy, Drop)]
pub struct IniState {
    /// How many bytes are read: the next line begins after them.
    pub offset: usize,
    /// 1 after the head of a section; 0 otherwise.
    pub section: usize,
    /// 1 if the next line may continue the value of a pair; 0 otherwise.
    pub pair: usize,
    /// The number of blanks before that pair; 0 otherwise.
    pub indent: usize,
}

/// The content of a line.
#[repr(C)]
#[derive(Clone, Copy, Drop)]
pub struct IniEntry {
    /// The kind of the entry.
    pub kind: u32,
    /// The name of a section, or the key of a pair; zeros otherwise.
    pub key: Span,
    /// The value of a pair, or a further line of it; zeros otherwise.
    pub value: Span,
    /// The offset of the line that is invalid or not UTF-8; 0 otherwise.
    pub error_offset: usize,
    /// The reason why the line is invalid; `INI_ERROR_NONE` otherwise.
    pub error: u32,
}

const NO_ENTRY: IniEntry = IniEntry {
    kind: INI_SECTION,
    key: NOWHERE,
    value: NOWHERE,
    error_offset: 0,
    error: INI_ERROR_NONE,
};

fn is_set(number: usize) -> bool
    ensures { result ≡ is_set number }
{
    number != 0
}

/// Returns the position at which parsing resumes in this state.
fn reading_of(state: IniState, bytes: &[u8]) -> Reading
    ensures { IsFrom state bytes.now result }
{
    if state.offset == 0 {
        return Reading::begin(bytes);
    }
    Reading {
        offset: state.offset,
        state: State {
            section: is_set(state.section),
            pair: if is_set(state.pair) {
                Some(state.indent)
            } else {
                None
            },
        },
    }
}

pub(crate) fn state_of(reading: Reading) -> IniState
    ensures { reading_at result ≡ reading }
{
    let (pair, indent) = match reading.state.pair {
        None => (0, 0),
        Some(indent) => (1, indent),
    };
    IniState {
        offset: reading.offset,
        section: if reading.state.section { 1 } else { 0 },
        pair,
        indent,
    }
}

fn fault_number(why: Reason) -> u32
    ensures { result ≡ fault_number why }
{
    match why {
        Reason::OpenSection => INI_ERROR_UNCLOSED_SECTION,
        Reason::EmptySection => INI_ERROR_EMPTY_SECTION,
        Reason::TextBehindSection => INI_ERROR_TRAILING_TEXT,
        Reason::NoSection => INI_ERROR_MISSING_SECTION,
        Reason::NoKey => INI_ERROR_MISSING_KEY,
        Reason::NoDelimiter => INI_ERROR_MISSING_DELIMITER,
    }
}

fn place_of(offset: usize, text: &str) -> Span
    ensures { (result.offset ≡ offset) × (result.length ≡ length text.now) }
{
    Span {
        offset,
        length: text.len(),
    }
}

/// Converts an entry and the offsets of its texts.
fn entry_of(entry: Entry<'_>, at: Places) -> IniEntry
    ensures { ShowsEntry entry.entry at result }
{
    match entry {
        Entry::Section(name) => IniEntry {
            kind: INI_SECTION,
            key: place_of(at.head, name),
            ..NO_ENTRY
        },
        Entry::Pair {
            key,
            value: Some(value),
        } => IniEntry {
            kind: INI_PAIR,
            key: place_of(at.head, key),
            value: place_of(at.value, value),
            ..NO_ENTRY
        },
        Entry::Pair { key, value: None } => IniEntry {
            kind: INI_KEY,
            key: place_of(at.head, key),
            ..NO_ENTRY
        },
        Entry::More(value) => IniEntry {
            kind: INI_MORE,
            value: place_of(at.head, value),
            ..NO_ENTRY
        },
    }
}

/// Returns the code and the output for a result; the next line with content starts at `offset`.
pub(crate) fn told_of(found: Result<Option<Placed<'_>>, Stop>, offset: usize) -> (u32, IniEntry)
    ensures writes { Writes found.entry offset result.0 result.1 }
    ensures codes { (result.0 ≡ done) ⊎ ((result.0 ≡ end) ⊎ ((result.0 ≡ invalid)
        ⊎ (result.0 ≡ invalid_utf8))) }
{
    match found {
        Ok(Some(placed)) => (DONE, entry_of(placed.entry, placed.at)),
        Ok(None) => (END, NO_ENTRY),
        Err(Stop::NoText) => (
            INVALID_UTF8,
            IniEntry {
                error_offset: offset,
                ..NO_ENTRY
            },
        ),
        Err(Stop::Invalid(why)) => (
            INVALID,
            IniEntry {
                error_offset: offset,
                error: fault_number(why),
                ..NO_ENTRY
            },
        ),
    }
}

/// Parses the next entry of an INI file in any dialect, as common in `.ini`, `.cfg` and `.desktop`
/// files.
///
/// A line feed ends a line. `[name]` starts a section. Any other line is a key, a delimiter and a
/// value, without whitespace at the ends of either. Empty lines, comments and a byte order mark at
/// the start are skipped. Whitespace is tab, form feed, carriage return and space. Quotes are kept,
/// and keys and sections may be repeated.
///
/// `dialect` is a sum of flags: `INI_DIALECT_PYTHON`, `INI_DIALECT_DESKTOP`, `INI_DIALECT_LENIENT`,
/// or others from `INI_DIALECT_EQUALS` to `INI_DIALECT_LOOSE_SECTIONS`. Other bits are ignored.
///
/// For the first call, `state` must be all zeros. Each further call must have the state that the
/// previous call left, with the same bytes, which are the complete document, and the same dialect.
/// No call looks again at bytes that an earlier call parsed, so all calls for a document take time
/// linear in its length.
///
/// `DONE`: the kind of the entry and the spans of its texts are written. Its line is UTF-8. A value
/// of several lines is returned as a pair, and one `INI_MORE` for each further line.
///
/// `END`: there are no more entries. Only `DONE` writes a kind and spans. After another code, a
/// further call returns the same. Lines are checked one at a time, so entries before a line that is
/// not UTF-8 are returned. If `state` belongs to other bytes or was modified, the result may be
/// wrong, but nothing outside `bytes` is read.
///
/// # Errors
///
/// `INVALID`: the next line is invalid in the dialect. Its offset and the reason are written.
///
/// `INVALID_UTF8`: the next line is not UTF-8. Its offset is written.
///
/// # Safety
///
/// `state` must be valid for reads and writes of one state, and `out` for writes of one entry.
/// `bytes` must be valid for reads of `bytes_length` bytes, which must not change during the call.
/// None of these may overlap. The call needs 16 KiB of stack.
#[unsafe(no_mangle)]
pub extern "C" fn exported_ini_next(
    state: &mut IniState,
    bytes: &[u8],
    dialect: usize,
    out: &mut IniEntry,
) -> u32
    ensures told { TellsEntry dialect state.old state.new bytes.now result out.new }
    ensures codes { (result ≡ done) ⊎ ((result ≡ end) ⊎ ((result ≡ invalid)
        ⊎ (result ≡ invalid_utf8))) }
{
    let mut reading = reading_of(*state, bytes);
    let found = next_placed(dialect_of(dialect), bytes, &mut reading);
    *state = state_of(reading);
    let (code, entry) = told_of(found, reading.offset);
    *out = entry;
    code
}

/// States that successive calls of `exported_ini_next` parse the document, as `read_document` of
/// `format_ini` does. The first call starts with zeros. If the last call returns `END`, the entries
/// of the calls before it are all entries of the document, once and in order. If it returns
/// `INVALID`, the document is invalid at that line, for that reason. If it returns `INVALID_UTF8`,
/// the bytes are not UTF-8.
pub fn entries_in_turn_are_of_the_document()
    ensures whole { (dialect : ℕ) (bytes : List ℕ) (outs : List IniEntry) (said : List Said)
        (state next : IniState) (out : IniEntry)
        → EntriesInTurn dialect bytes zeros outs said state
        → TellsEntry dialect state next bytes end out
        → IsDocument (dialect_of dialect) bytes said }
    ensures refuses { (dialect : ℕ) (bytes : List ℕ) (outs : List IniEntry) (said : List Said)
        (state next : IniState) (out : IniEntry)
        → EntriesInTurn dialect bytes zeros outs said state
        → TellsEntry dialect state next bytes invalid out
        → (why : Reason) × (out.error ≡ fault_number why)
        × IsRefused (dialect_of dialect) bytes (record { offset = out.error_offset; why = why }) }
    ensures text { (dialect : ℕ) (bytes : List ℕ) (outs : List IniEntry) (said : List Said)
        (state next : IniState) (out : IniEntry)
        → EntriesInTurn dialect bytes zeros outs said state
        → TellsEntry dialect state next bytes invalid_utf8 out → IsUtf8 bytes → ⊥ }
{}
