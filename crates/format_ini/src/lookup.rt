//! Lookup of a pair by its section and its key.

ghost use Rattle.std.specs.Prelude.{◌≡◌, List, MatchBool, true, ℕ};
ghost use Rattle.format_ini.specs.Lines.{said_in};
ghost use Rattle.format_ini.specs.Lookup.{IsLookup, IsPairOf, name_after};

use crate::dialect::Dialect;
use crate::lines::Entry;
use crate::places::{Placed, Reading, Stop, next_placed};

fn are_equal(a: &[u8], b: &[u8]) -> bool
    ensures { MatchBool result (a.now ≡ b.now) (a.now ≡ b.now → ⊥) }
{
    a == b
}

// Returns whether an entry is a pair with this key, and in a section as looked for.
fn is_for(entry: Entry<'_>, within: bool, key: &[u8]) -> bool
    ensures { MatchBool result ((within ≡ true) × IsPairOf key.now (said_in entry.entry))
        (within ≡ true → IsPairOf key.now (said_in entry.entry) → ⊥) }
{
    match entry {
        Entry::Pair { key: name, .. } => within && are_equal(name.as_bytes(), key),
        _ => false,
    }
}

// Returns whether the line after an entry is in a section of this name, given whether the entry is.
fn is_within(entry: Entry<'_>, within: bool, section: &[u8]) -> bool
    ensures { (now : List ℕ) → MatchBool within (now ≡ section.now) (now ≡ section.now → ⊥)
        → MatchBool result (name_after now (said_in entry.entry) ≡ section.now)
        (name_after now (said_in entry.entry) ≡ section.now → ⊥) }
{
    match entry {
        Entry::Section(name) => are_equal(name.as_bytes(), section),
        _ => within,
    }
}

/// Finds the first pair with a key in the sections of a name. The name of pairs before the first
/// section is empty. Names and keys are compared byte by byte. Returns the result of
/// [`next_placed`] for that pair, or the first other result, and how far the document is read:
/// after a pair, [`next_placed`] continues with the further lines of its value.
///
/// Lines after the pair are not checked. Does not allocate. A call takes time linear in the bytes
/// that it reads.
///
/// ```
/// use format_ini::dialect::Dialect;
/// use format_ini::lines::Places;
/// use format_ini::lookup::find_pair;
///
/// let bytes = b"[a]\nx = 1\n[b]\nx = 2\n";
/// match find_pair(Dialect::python(), bytes, b"b", b"x").0 {
///     Ok(Some(pair)) => assert_eq!(rt; pair.at, Places { head: 14, value: 18 }),
///     _ => assert!(rt; false),
/// }
/// assert_eq!(rt; find_pair(Dialect::python(), bytes, b"b", b"y").0, Ok(None));
/// ```
pub fn find_pair<'i>(
    dialect: Dialect,
    bytes: &'i [u8],
    section: &[u8],
    key: &[u8],
) -> (Result<Option<Placed<'i>>, Stop>, Reading)
    ensures { IsLookup dialect bytes.now section.now key.now result.0 result.1 }
{
    let mut reading = Reading::begin(bytes);
    let mut within = are_equal(b"", section);
    'entries: loop {
        match next_placed(dialect, bytes, &mut reading) {
            Err(stop) => return (Err(stop), reading),
            Ok(None) => return (Ok(None), reading),
            Ok(Some(placed)) => {
                if is_for(placed.entry, within, key) {
                    return (Ok(Some(placed)), reading);
                }
                within = is_within(placed.entry, within, section);
            }
        }
    }
}
