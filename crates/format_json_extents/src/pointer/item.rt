//! Items of arrays and objects that a reference token selects.

ghost use Rattle.std.specs.Prelude.{◌≡◌, ◌↔◌, IfNone, IfSome, IsTrue, MatchOption, Some};
ghost use Rattle.format_json_extents.specs.Pointer.{IsFoundItem, IsIndex, IsIndexFor, IsSought};
ghost use Rattle.format_json_extents.specs.Pointer.{lower};
ghost use Rattle.format_json_extents.specs.Texts.{NoByte, NoMatchAtStart, RestAfter};
ghost use Rattle.format_json_extents.specs.Value.{IsName, IsNestedTail, IsValue};

use crate::integer::as_u64;
use crate::names::compare;
use crate::number::read_number;
use crate::string::skip_string;
use crate::tokens::{skip_byte, skip_whitespace};
use crate::value::{skip_closing, skip_empty, skip_value};

/// Returns the index that a reference token is: digits without a leading zero.
fn index_of(token: &[u8]) -> Option<u64>
    ensures { IsIndex token.now result }
{
    let mut rest = token;
    match read_number(&mut rest) {
        Some(_) => { if rest.is_empty() { as_u64(token) } else { None } }
        None => None,
    }
}

/// Returns the index that a reference token is in an array; `None` in an object.
pub fn index_for(keyed: bool, token: &[u8]) -> Option<u64>
    ensures { IsIndexFor keyed token.now result }
{
    if keyed { None } else { index_of(token) }
}

/// Returns whether an index is 0.
fn is_first(index: Option<u64>) -> bool
    ensures { IsTrue result ↔ index ≡ Some 0 }
{
    match index {
        Some(number) => number == 0,
        None => false,
    }
}

/// Returns the index from the next element on.
fn lower(index: Option<u64>) -> Option<u64>
    ensures { result ≡ lower index }
{
    match index {
        Some(number) => Some(number.saturating_sub(1)),
        None => None,
    }
}

/// Skips the name and the colon of a member, and nothing in an array. Also returns whether the item
/// is the one that the token selects.
fn skip_key<'i>(
    keyed: bool,
    index: Option<u64>,
    token: &[u8],
    bytes: &'i [u8],
) -> Option<(bool, &'i [u8])>
    ensures rest { MatchOption result (NoMatchAtStart (IsName keyed) bytes.now)
        (λ r. RestAfter (IsName keyed) NoByte bytes.now r.1.now) }
    ensures sought { IfSome result (λ r. IsSought keyed r.0 index token.now bytes.now) }
{
    if keyed {
        let start = skip_whitespace(bytes);
        let end = skip_string(start)?;
        let rest = skip_byte(b':', skip_whitespace(end))?;
        let name = compare(true, start, token)?;
        Some((name.0, rest))
    } else {
        Some((is_first(index), bytes))
    }
}

/// Finds the item that a reference token selects, from after the opening bracket of an array or an
/// object. Returns whether it is there, the bytes from its value on, and those after the value.
/// Returns `None` only if no such array or object starts there.
pub fn find_item<'i>(
    keyed: bool,
    level: usize,
    index: Option<u64>,
    token: &[u8],
    inside: &'i [u8],
) -> Option<(bool, &'i [u8], &'i [u8])>
    ensures none { IfNone result (NoMatchAtStart (IsNestedTail keyed (IsValue level)) inside.now) }
    ensures found { IfSome result (λ r.
        IsFoundItem r.0 keyed level index token.now inside.now r.1.now r.2.now) }
{
    match skip_empty(keyed, inside) {
        Some(_) => return Some((false, inside, inside)),
        None => {}
    }
    let mut rest = inside;
    let mut left = index;
    'items: loop {
        let (same, named) = skip_key(keyed, left, token, rest)?;
        let start = skip_whitespace(named);
        let end = skip_value(level, start)?;
        if same {
            return Some((true, start, end));
        }
        let ahead = skip_whitespace(end);
        match skip_closing(keyed, ahead) {
            Some(_) => return Some((false, inside, inside)),
            None => {
                rest = skip_byte(b',', ahead)?;
                left = lower(left);
            }
        }
    }
}
