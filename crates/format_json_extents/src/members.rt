//! Members of an object by their name.

ghost use Rattle.std.specs.Prelude.{◌≤◌, length};
ghost use Rattle.format_json_extents.specs.Members.{IsSearchOf, IsSearched};
ghost use Rattle.format_json_extents.specs.Names.{name_text};

use crate::names::compare;
use crate::tokens::skip_byte;
use crate::walk::{is_end, read_next, skip_separator};

/// The result of a search for a member.
#[derive(Clone, Copy, Debug, PartialEq, Eq)]
pub enum Search {
    /// The first member of the name was found.
    Found,
    /// No member has the name.
    Missing,
    /// There is no object, or its members are invalid.
    Invalid,
}

/// Finds the first member of a name from after the opening brace, as [`find_member`] does.
fn find_inside<'i>(level: usize, token: bool, inside: &'i [u8], name: &[u8]) -> (Search, &'i [u8])
    ensures search { IsSearched result.0 level (name_text token name.now) inside.now result.1.now }
    ensures within { length result.1.now ≤ length inside.now }
{
    let mut left = inside;
    'members: loop {
        if is_end(left) {
            return (Search::Missing, left);
        }
        match compare(token, skip_separator(left), name) {
            Some(found) => {
                if found.0 {
                    return (Search::Found, found.1);
                }
                let mut next = found.1;
                match read_next(level, &mut next) {
                    Some(_) => left = next,
                    None => return (Search::Invalid, left),
                }
            }
            None => return (Search::Invalid, left),
        }
    }
}

/// Finds the first member of a name in the object that the bytes start with, after whitespace and
/// at most one comma or colon. Names are compared with their escapes decoded: `{"\u0061":1}` has a
/// member `a`. If `token` is true, `name` is a reference token of a JSON pointer (RFC 6901): `~0`
/// is a tilde and `~1` a slash.
///
/// Returns the bytes after the name, from which [`read_next`] reads the value. Values before it are
/// skipped, so that each byte up to there is read once; they may be nested at most `level` deep.
///
/// If no member has the name, returns [`Search::Missing`] and the bytes after the last member. If
/// there is no object, or its members are not valid up to there, returns [`Search::Invalid`].
///
/// ```
/// use format_json_extents::members::{Search, find_member};
///
/// let object = b"{\"a\": [1], \"\\u0062\": 2}".as_slice();
/// let (search, rest) = find_member(1, false, object, b"b");
/// assert!(rt; matches!(search, Search::Found) && rest == b": 2}".as_slice());
/// assert!(rt; matches!(find_member(1, false, object, b"c").0, Search::Missing));
/// assert!(rt; matches!(find_member(1, false, b"[1]", b"c").0, Search::Invalid));
/// ```
pub fn find_member<'i>(
    level: usize,
    token: bool,
    bytes: &'i [u8],
    name: &[u8],
) -> (Search, &'i [u8])
    ensures search { IsSearchOf result.0 level (name_text token name.now) bytes.now result.1.now }
    ensures within { length result.1.now ≤ length bytes.now }
{
    match skip_byte(b'{', skip_separator(bytes)) {
        Some(inside) => find_inside(level, token, inside, name),
        None => (Search::Invalid, bytes),
    }
}
