//! The entries of a document, and their concatenated bytes.

ghost use Rattle.std.specs.Prelude.{◌≡◌, ◌<◌, ◌+◌, ◌++◌, ◌^◌, IfSome, length, map};
ghost use Rattle.readers.specs.Sections.{pair_text, section_text};
ghost use Rattle.exported.specs.Pairs.{AreEntries, entries_of, text_of};

use crate::pairs::PairEntry;
use crate::span::Span;
use readers::ini::Section;
use std::alloc::Global;

/// The entries of sections: of each its head, which is its name without a key, and its pairs.
pub fn entries_of<'i>(
    alloc: Global,
    sections: &[Section<'i, Global>],
) -> Option<Vec<(&'i str, &'i str)>>
    ensures { IfSome result (λ found.
        map pair_text found.items ≡ entries_of (map section_text sections.now)) }
{
    let mut found = Vec::new(alloc);
    for number in 0..sections.len() {
        let section = &sections[number];
        if found.push(("", section.name)).is_err() {
            return None;
        }
        if found.extend_from_slice(&section.pairs).is_err() {
            return None;
        }
    }
    Some(found)
}

/// How many bytes the entries have together.
pub fn bytes_of(found: &[(&str, &str)]) -> usize
    requires { length (text_of (map pair_text found.now)) < 2 ^ 63 }
    ensures { result ≡ length (text_of (map pair_text found.now)) }
{
    let mut total = 0;
    for number in 0..found.len() {
        let (key, value) = found[number];
        total += key.len() + value.len();
    }
    total
}

/// Copies a key and a value into a buffer that has room for just these.
fn copy_entry(key: &[u8], value: &[u8], text: &mut [u8])
    requires { length text.old ≡ length key.now + length value.now }
    ensures { text.new ≡ key.now ++ value.now }
{
    let (front, behind) = text.split_at_mut(key.len());
    front.copy_from_slice(key);
    behind.copy_from_slice(value);
}

/// Copies the bytes of the entries into a buffer that has room for just these.
pub fn copy_entries(found: &[(&str, &str)], text: &mut [u8])
    requires bytes { length (text_of (map pair_text found.now)) < 2 ^ 63 }
    requires room { length text.old ≡ length (text_of (map pair_text found.now)) }
    ensures { text.new ≡ text_of (map pair_text found.now) }
{
    let mut end = 0;
    for number in 0..found.len() {
        let (key, value) = found[number];
        let begin = end;
        end += key.len() + value.len();
        copy_entry(key.as_bytes(), value.as_bytes(), &mut text[begin..end]);
    }
}

/// Writes the spans of the entries in the concatenation of their bytes.
pub fn place_entries(found: &[(&str, &str)], entries: &mut [PairEntry])
    requires bytes { length (text_of (map pair_text found.now)) < 2 ^ 63 }
    requires room { length entries.old ≡ length found.now }
    ensures { AreEntries (text_of (map pair_text found.now)) entries.new
        (map pair_text found.now) }
{
    let mut offset = 0;
    for number in 0..found.len() {
        let (key, value) = found[number];
        let middle = offset + key.len();
        entries[number] = PairEntry {
            key: Span {
                offset,
                length: key.len(),
            },
            value: Span {
                offset: middle,
                length: value.len(),
            },
        };
        offset = middle + value.len();
    }
}
