//! Lines of a key and a value, and documents of them in sections, by one fixed grammar.

ghost use Rattle.std.specs.Prelude.{◌≡◌, ◌⊎◌, ◌≤◌, ◌<◌, ◌^◌, drop, length, map, take};
ghost use Rattle.readers.specs.Document.{IsRefusedDocument};
ghost use Rattle.readers.specs.Pair.{IsRefusedPair};
ghost use Rattle.readers.specs.Sections.{pair_text};
ghost use Rattle.exported.specs.Code.{buffer_too_small, done, invalid, no_memory};
ghost use Rattle.exported.specs.Pairs.{AreEntries, HasNoSizes, ShowsDocument, ShowsPair};
ghost use Rattle.exported.specs.Pairs.{WantsDocument, text_of};
ghost use Rattle.exported.specs.Span.{nowhere};

pub mod entries;

use crate::code::{BUFFER_TOO_SMALL, DONE, INVALID, NO_MEMORY};
use crate::pairs::entries::{bytes_of, copy_entries, entries_of, place_entries};
use crate::span::{NOWHERE, Span};
use readers::fault::ReadError;
use readers::ini;
use std::alloc::Global;

/// The places of a key and its value.
#[repr(C)]
#[derive(Clone, Copy, Drop)]
pub struct Pair {
    /// The key.
    pub key: Span,
    /// The value.
    pub value: Span,
    /// The offset of the error in bytes; 0 otherwise.
    pub error_offset: usize,
}

/// Parses a line of the form `key=value`. For lines of INI files, use `exported_ini_next`.
///
/// The key consists of one or more ASCII letters or digits.
/// The value consists of any bytes except line feeds, and may be empty. The line may end with one
/// line feed.
///
/// `DONE`: the spans of the key and of the value are written.
///
/// # Errors
///
/// `INVALID`: `bytes` is not such a line. The length of its longest prefix that is a prefix of such
/// a line is written.
///
/// # Safety
///
/// `bytes` must be valid for reads of `bytes_length` bytes, which must not change during the call,
/// and `out` must be valid for writes of one pair. They must not overlap. The call needs 16 KiB of
/// stack.
#[unsafe(no_mangle)]
pub extern "C" fn exported_pair_line(bytes: &[u8], out: &mut Pair) -> u32
    ensures pair { result ≡ done → ShowsPair bytes.now out.new }
    ensures refused { result ≡ invalid → IsRefusedPair bytes.now out.new.error_offset }
    ensures nowhere { (result ≡ invalid → ⊥) → out.new.error_offset ≡ 0 }
    ensures parts { result ≡ invalid → (out.new.key ≡ nowhere) × (out.new.value ≡ nowhere) }
    ensures codes { (result ≡ done) ⊎ (result ≡ invalid) }
{
    match ini::pair(bytes) {
        Ok((key, value)) => {
            *out = Pair {
                key: Span {
                    offset: 0,
                    length: key.len(),
                },
                value: Span {
                    offset: key.len() + 1,
                    length: value.len(),
                },
                error_offset: 0,
            };
            DONE
        }
        Err(ReadError::Invalid(place)) => {
            *out = Pair {
                key: NOWHERE,
                value: NOWHERE,
                error_offset: place,
            };
            INVALID
        }
        Err(ReadError::NoMemory) => unreachable!(),
    }
}

/// An entry of a document: a pair, or the head of a section.
#[repr(C)]
#[derive(Clone, Copy, Drop)]
pub struct PairEntry {
    /// The key of a pair. It is empty for the head of a section, and only there.
    pub key: Span,
    /// The value of a pair, or the name of a section. It may have no bytes.
    pub value: Span,
}

/// The sizes of a document, or the offset of an error.
#[repr(C)]
#[derive(Clone, Copy, Drop)]
pub struct PairSizes {
    /// How many entries there are.
    pub entries: usize,
    /// How many bytes the keys, the values and the names have together.
    pub text: usize,
    /// The offset of the error in bytes; 0 otherwise.
    pub error_offset: usize,
}

/// The document of nothing.
const NONE: PairSizes = PairSizes {
    entries: 0,
    text: 0,
    error_offset: 0,
};

/// Writes entries where there is room.
fn write_entries(
    found: &[(&str, &str)],
    text: &mut [u8],
    entries: &mut [PairEntry],
    out: &mut PairSizes,
) -> u32
    requires { length (text_of (map pair_text found.now)) < 2 ^ 63 }
    ensures count { out.new.entries ≡ length found.now }
    ensures bytes { out.new.text ≡ length (text_of (map pair_text found.now)) }
    ensures nowhere { out.new.error_offset ≡ 0 }
    ensures entries { result ≡ done
        → AreEntries (take out.new.text text.new) (take out.new.entries entries.new)
        (map pair_text found.now) }
    ensures room { result ≡ done → (out.new.entries ≤ length entries.old)
        × (out.new.text ≤ length text.old) }
    ensures behind { result ≡ done
        → (drop out.new.text text.new ≡ drop out.new.text text.old)
        × (drop out.new.entries entries.new ≡ drop out.new.entries entries.old) }
    ensures small { result ≡ buffer_too_small
        → (length entries.old < out.new.entries) ⊎ (length text.old < out.new.text) }
    ensures kept { result ≡ buffer_too_small → (entries.new ≡ entries.old) × (text.new ≡ text.old) }
    ensures codes { (result ≡ done) ⊎ (result ≡ buffer_too_small) }
{
    let (count, total) = (found.len(), bytes_of(found));
    *out = PairSizes {
        entries: count,
        text: total,
        error_offset: 0,
    };
    if entries.len() < count || text.len() < total {
        return BUFFER_TOO_SMALL;
    }
    copy_entries(found, &mut text[..total]);
    place_entries(found, &mut entries[..count]);
    DONE
}

/// Parses a document of sections, each a name in brackets followed by pairs, by a fixed grammar in
/// which several sections and pairs may share a line. For INI files, use `exported_ini_next` or
/// `exported_ini_get`.
///
/// A pair is a key of ASCII letters or digits, `=` with optional spaces and tabs around it, and a
/// value. The value ends before `;` or the end of its line, without the whitespace there.
/// Whitespace, and comments from `;` to the end of a line, may precede, separate and follow these
/// parts. Names and values are UTF-8. Pairs before the first section are invalid.
///
/// `DONE`: the bytes of the entries are written into `text`, one entry after another, each key
/// before its value. Their spans are written into `entries`, in order: the head of each section,
/// and then its pairs.
///
/// A call holds up to 100 bytes of memory for each byte of the document, even if it then returns
/// `INVALID` or `BUFFER_TOO_SMALL`.
///
/// # Errors
///
/// `INVALID`: `bytes` is not a document. The length of the longest prefix that consists of such
/// parts is written; each part is determined in the context of all bytes. A pair extends to the end
/// of its line: for `[a]`, a line feed, and `x=` before a byte that is not UTF-8, the length is 4.
///
/// `BUFFER_TOO_SMALL`: the document needs more entries or more bytes than the buffers have. The
/// required numbers of both are written.
///
/// `NO_MEMORY`.
///
/// After an error the buffers are unchanged, and all else is 0.
///
/// # Safety
///
/// `bytes` must be valid for reads of `bytes_length` bytes, which must not change during the call.
/// `text` must be valid for writes of `text_length` bytes, `entries` for writes of `entries_length`
/// entries, and `out` for writes of one document. None of these may overlap. The call needs 16 KiB
/// of stack.
#[unsafe(no_mangle)]
pub extern "C" fn exported_pair_document(
    alloc: Global,
    bytes: &[u8],
    text: &mut [u8],
    entries: &mut [PairEntry],
    out: &mut PairSizes,
) -> u32
    ensures document { result ≡ done → ShowsDocument bytes.now out.new
        (take out.new.text text.new) (take out.new.entries entries.new) }
    ensures room { result ≡ done → (out.new.entries ≤ length entries.old)
        × (out.new.text ≤ length text.old) }
    ensures behind { result ≡ done
        → (drop out.new.text text.new ≡ drop out.new.text text.old)
        × (drop out.new.entries entries.new ≡ drop out.new.entries entries.old) }
    ensures small { result ≡ buffer_too_small → WantsDocument bytes.now out.new
        × ((length entries.old < out.new.entries) ⊎ (length text.old < out.new.text)) }
    ensures kept { (result ≡ done → ⊥) → (entries.new ≡ entries.old) × (text.new ≡ text.old) }
    ensures sizes { (result ≡ done → ⊥) → (result ≡ buffer_too_small → ⊥) → HasNoSizes out.new }
    ensures refused { result ≡ invalid → IsRefusedDocument bytes.now out.new.error_offset }
    ensures nowhere { (result ≡ invalid → ⊥) → out.new.error_offset ≡ 0 }
    ensures codes { (result ≡ done) ⊎ ((result ≡ buffer_too_small) ⊎ ((result ≡ invalid)
        ⊎ (result ≡ no_memory))) }
{
    *out = NONE;
    match ini::document(alloc, bytes) {
        Ok(sections) => match entries_of(alloc, &sections) {
            Some(found) => write_entries(&found, text, entries, out),
            None => NO_MEMORY,
        },
        Err(ReadError::Invalid(place)) => {
            out.error_offset = place;
            INVALID
        }
        Err(ReadError::NoMemory) => NO_MEMORY,
    }
}
