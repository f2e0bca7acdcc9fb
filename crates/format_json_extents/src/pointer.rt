//! Values by JSON pointers (RFC 6901), without allocating.

ghost use Rattle.std.specs.Prelude.{◌≡◌, ◌↔◌, IfNone, IfSome, IsTrue};
ghost use Rattle.format_json_extents.specs.Pointer.{AreEscapes, BeginsEscape, IsChild, IsLookup};
ghost use Rattle.format_json_extents.specs.Pointer.{IsPointer, IsToken};
ghost use Rattle.format_json_extents.specs.Texts.{NoMatchAtStart};
ghost use Rattle.format_json_extents.specs.Value.{IsText, IsValue};

pub mod item;

use crate::pointer::item::{find_item, index_for};
use crate::tokens::skip_whitespace;
use crate::value::{skip_opening, skip_value};

/// The result of a search by a JSON pointer.
#[derive(Clone, Copy, Debug, PartialEq, Eq)]
pub enum Lookup {
    /// The value was found.
    Found,
    /// An object has no member of the name.
    NoMember,
    /// An array has no element of the index, or the token is not an index.
    NoElement,
    /// A value before the end of the pointer is neither an array nor an object.
    NotAContainer,
}

/// Returns whether bytes are the rest of an escape after its tilde.
fn begins_escape(bytes: &[u8]) -> bool
    ensures { IsTrue result ↔ BeginsEscape bytes.now }
{
    match bytes.split_first() {
        Some((first, _)) => *first == b'0' || *first == b'1',
        None => false,
    }
}

/// Returns whether `0` or `1` follows each tilde.
fn are_escapes(bytes: &[u8]) -> bool
    ensures { IsTrue result ↔ AreEscapes bytes.now }
{
    let mut rest = bytes;
    'escapes: loop {
        match rest.split_first() {
            Some((first, more)) => {
                if *first == b'~' && !begins_escape(more) {
                    return false;
                }
                rest = more;
            }
            None => return true,
        }
    }
}

/// Returns whether bytes are a JSON pointer (RFC 6901, section 3): empty, or starting with a slash,
/// with `0` or `1` after each tilde. Bytes of 128 and above are not examined: a pointer is also
/// UTF-8.
///
/// ```
/// use format_json_extents::pointer::is_pointer;
///
/// assert!(rt; is_pointer(b"".as_slice()) && is_pointer(b"/a~1b/0".as_slice()));
/// assert!(rt; !is_pointer(b"a".as_slice()) && !is_pointer(b"/~2".as_slice()));
/// ```
pub fn is_pointer(pointer: &[u8]) -> bool
    ensures { IsTrue result ↔ IsPointer pointer.now }
{
    match pointer.split_first() {
        Some((first, more)) => *first == b'/' && are_escapes(more),
        None => true,
    }
}

/// Skips a reference token, and returns the remaining bytes: none, or those from the next slash on.
fn skip_token<'i>(bytes: &'i [u8]) -> &'i [u8]
    ensures { IsToken bytes.now result.now }
{
    let mut rest = bytes;
    'token: loop {
        match rest.split_first() {
            Some((first, more)) => {
                if *first == b'/' {
                    return rest;
                }
                rest = more;
            }
            None => return rest,
        }
    }
}

/// Finds the value that a reference token selects in the value at the start of the bytes. Returns
/// it as [`find_value`] does.
fn find_child<'i>(
    level: usize,
    token: &[u8],
    value: &'i [u8],
) -> Option<(Lookup, &'i [u8], &'i [u8])>
    ensures none { IfNone result (NoMatchAtStart (IsValue level) value.now) }
    ensures found { IfSome result (λ r.
        IsChild r.0 level token.now value.now r.1.now r.2.now) }
{
    match skip_opening(value) {
        Some((keyed, inside)) => {
            if level == 0 {
                return None;
            }
            let index = index_for(keyed, token);
            let (found, start, rest) = find_item(keyed, level - 1, index, token, inside)?;
            if found {
                Some((Lookup::Found, start, rest))
            } else if keyed {
                Some((Lookup::NoMember, start, rest))
            } else {
                Some((Lookup::NoElement, start, rest))
            }
        }
        None => Some((Lookup::NotAContainer, value, value)),
    }
}

/// Finds the value that a JSON pointer identifies in a JSON text whose arrays and objects are
/// nested at most `level` deep: of members with the same name, the first. Returns the bytes from
/// the value on, and those after it.
///
/// If there is no such value, the result has the reason, and the bytes of the innermost value that
/// the pointer reaches. An index is digits without a leading zero; `-` has no element. Names are
/// compared with their escapes decoded.
///
/// Each byte is read once, and once more for each token whose value contains it. Each level uses
/// frames of the stack. Does not allocate.
///
/// Returns `None` only if `text` is not such a text.
///
/// ```
/// use format_json_extents::pointer::{Lookup, find_value};
///
/// let text = b"{\"a\": [1, {\"b/c\": 23}]}".as_slice();
/// let found = find_value(3, text, b"/a/1/b~1c");
/// assert!(rt; matches!(found, Some((Lookup::Found, at, rest)) if at.len() - rest.len() == 2));
/// assert!(rt; matches!(find_value(3, text, b"/b"), Some((Lookup::NoMember, _, _))));
/// assert!(rt; matches!(find_value(3, text, b"/a/2"), Some((Lookup::NoElement, _, _))));
/// assert!(rt; matches!(find_value(3, text, b"/a/0/0"), Some((Lookup::NotAContainer, _, _))));
/// ```
pub fn find_value<'i>(
    level: usize,
    text: &'i [u8],
    pointer: &[u8],
) -> Option<(Lookup, &'i [u8], &'i [u8])>
    requires { IsPointer pointer.now }
    ensures none { IfNone result (IsText level text.now → ⊥) }
    ensures found { IfSome result (λ r.
        IsLookup r.0 level text.now pointer.now r.1.now r.2.now) }
{
    let mut here = skip_whitespace(text);
    let mut rest = skip_value(level, here)?;
    let mut depth = level;
    let mut tokens = pointer;
    'tokens: loop {
        match tokens.split_first() {
            Some((_, more)) => {
                let after = skip_token(more);
                let token = &more[..more.len() - after.len()];
                let (lookup, start, end) = find_child(depth, token, here)?;
                match lookup {
                    Lookup::Found => {
                        here = start;
                        rest = end;
                        depth -= 1;
                        tokens = after;
                    }
                    Lookup::NoMember => return Some((Lookup::NoMember, here, rest)),
                    Lookup::NoElement => return Some((Lookup::NoElement, here, rest)),
                    Lookup::NotAContainer => return Some((Lookup::NotAContainer, here, rest)),
                }
            }
            None => return Some((Lookup::Found, here, rest)),
        }
    }
}
