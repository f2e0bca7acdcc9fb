//! Lookup in INI files by section and key.

ghost use Rattle.std.specs.Prelude.{◌≡◌, ◌⊎◌, [], List, ℕ};
ghost use Rattle.std.specs.Str.{IsUtf8};
ghost use Rattle.format_ini.specs.Documents.{IsDocument, IsRefused};
ghost use Rattle.format_ini.specs.Lines.{Said};
ghost use Rattle.format_ini.specs.Lookup.{HasNoPair};
ghost use Rattle.format_ini.specs.declared.lines.Reason.{Reason};
ghost use Rattle.exported.specs.Code.{done, end, invalid, invalid_utf8};
ghost use Rattle.exported.specs.Ini.{TellsLookup, dialect_of, fault_number};
ghost use Rattle.exported.specs.declared.ini.IniEntry.{IniEntry};
ghost use Rattle.exported.specs.declared.ini.IniState.{IniState};

use crate::ini::dialect::dialect_of;
use crate::ini::{IniEntry, IniState, state_of, told_of};
use format_ini::lookup::find_pair;

/// Finds the first pair with a key in the sections of a name, in an INI file of any dialect.
///
/// `bytes` and `dialect` are as for `exported_ini_next`. Names and keys are compared byte by byte.
/// The name without bytes is that of the pairs before the first section.
///
/// `DONE`: the kind, the key and the value of the pair are written, as by `exported_ini_next`. With
/// the state that is written, `exported_ini_next` continues after the line of the pair: each
/// `INI_MORE` is a further line of the value. The lines after the pair are not checked. The state
/// before the call is ignored.
///
/// `END`: the bytes are a document of the dialect, and no such pair is in it. Only `DONE` writes a
/// kind and spans.
///
/// A call takes time linear in the bytes up to the pair. For many keys, one pass by
/// `exported_ini_next` costs less.
///
/// # Errors
///
/// `INVALID`: a line before any such pair is invalid in the dialect. Its offset and the reason are
/// written.
///
/// `INVALID_UTF8`: a line before any such pair is not UTF-8. Its offset is written.
///
/// # Safety
///
/// `bytes` must be valid for reads of `bytes_length` bytes, `section` for reads of `section_length`
/// bytes and `key` for reads of `key_length` bytes, which must not change during the call. `state`
/// must be valid for reads and writes of one state, and `out` for writes of one entry. These two
/// must not overlap each other or the others. The call needs 16 KiB of stack.
#[unsafe(no_mangle)]
pub extern "C" fn exported_ini_get(
    state: &mut IniState,
    bytes: &[u8],
    dialect: usize,
    section: &[u8],
    key: &[u8],
    out: &mut IniEntry,
) -> u32
    ensures told { TellsLookup dialect bytes.now section.now key.now state.new result out.new }
    ensures codes { (result ≡ done) ⊎ ((result ≡ end) ⊎ ((result ≡ invalid)
        ⊎ (result ≡ invalid_utf8))) }
{
    let (found, reading) = find_pair(dialect_of(dialect), bytes, section, key);
    *state = state_of(reading);
    let (code, entry) = told_of(found, reading.offset);
    *out = entry;
    code
}

/// States that a lookup is about the document: if it returns `END`, the bytes are a document, as
/// `read_document` of `format_ini` reads it, without such a pair. If it returns `INVALID`, the
/// document is invalid at that line, for that reason. If it returns `INVALID_UTF8`, the bytes are
/// not UTF-8.
pub fn a_lookup_is_of_the_document()
    ensures missing { (dialect : ℕ) (bytes name key : List ℕ) (state : IniState) (out : IniEntry)
        → TellsLookup dialect bytes name key state end out
        → (said : List Said) × IsDocument (dialect_of dialect) bytes said
        × HasNoPair name key [] said }
    ensures refuses { (dialect : ℕ) (bytes name key : List ℕ) (state : IniState) (out : IniEntry)
        → TellsLookup dialect bytes name key state invalid out
        → (why : Reason) × (out.error ≡ fault_number why)
        × IsRefused (dialect_of dialect) bytes (record { offset = out.error_offset; why = why }) }
    ensures text { (dialect : ℕ) (bytes name key : List ℕ) (state : IniState) (out : IniEntry)
        → TellsLookup dialect bytes name key state invalid_utf8 out → IsUtf8 bytes → ⊥ }
{}
