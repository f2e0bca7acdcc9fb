//! Values of JSON and their contents, as they are written in a text (RFC 8259, sections 2 to 5).

ghost use Rattle.std.specs.Prelude.{◌≡◌, ◌≤◌, ◌↔◌, ◌∷◌, ◌++◌, Bool, List, ℕ, IfNone, IfSome};
ghost use Rattle.std.specs.Prelude.{IsTrue, MatchOption, length};
ghost use Rattle.std.specs.Str.{IsUtf8};
ghost use Rattle.format_json_extents.specs.Standard.{IsTextByStandard, IsValueByStandard};
ghost use Rattle.format_json_extents.specs.Texts.{IsLongest, NoByte, NoMatchAtStart, RestAfter};
ghost use Rattle.format_json_extents.specs.Value.{ExtendsNumberOf, IsEmptyTail, IsItemsTail};
ghost use Rattle.format_json_extents.specs.Value.{IsName, IsNotContinued, IsText, IsValue};
ghost use Rattle.format_json_extents.specs.Value.{closing_bracket, opening_bracket};

use crate::scalar::skip_scalar;
use crate::string::skip_string;
use crate::tokens::{skip_byte, skip_whitespace};

/// Skips an opening bracket, and returns whether names follow it.
#[inline(always)]
pub fn skip_opening<'i>(bytes: &'i [u8]) -> Option<(bool, &'i [u8])>
    ensures { MatchOption result
        ((keyed : Bool) (more : List ℕ) → bytes.now ≡ opening_bracket keyed ∷ more → ⊥)
        (λ r. bytes.now ≡ opening_bracket r.0 ∷ r.1.now) }
{
    let (first, inside) = bytes.split_first()?;
    match *first {
        b'[' => Some((false, inside)),
        b'{' => Some((true, inside)),
        _ => None,
    }
}

/// Skips the closing bracket.
#[inline(always)]
pub fn skip_closing<'i>(keyed: bool, bytes: &'i [u8]) -> Option<&'i [u8]>
    ensures { MatchOption result ((more : List ℕ) → bytes.now ≡ closing_bracket keyed ∷ more → ⊥)
        (λ rest. bytes.now ≡ closing_bracket keyed ∷ rest.now) }
{
    if keyed {
        skip_byte(b'}', bytes)
    } else {
        skip_byte(b']', bytes)
    }
}

/// Skips the closing bracket of an empty array or object.
#[inline(always)]
pub fn skip_empty<'i>(keyed: bool, bytes: &'i [u8]) -> Option<&'i [u8]>
    ensures { MatchOption result (NoMatchAtStart (IsEmptyTail keyed) bytes.now)
        (λ rest. RestAfter (IsEmptyTail keyed) NoByte bytes.now rest.now) }
{
    skip_closing(keyed, skip_whitespace(bytes))
}

/// Skips a name and its colon in an object, and nothing in an array.
#[inline(always)]
fn skip_name<'i>(keyed: bool, bytes: &'i [u8]) -> Option<&'i [u8]>
    ensures { MatchOption result (NoMatchAtStart (IsName keyed) bytes.now)
        (λ rest. RestAfter (IsName keyed) NoByte bytes.now rest.now) }
{
    if keyed {
        let name = skip_string(skip_whitespace(bytes))?;
        skip_byte(b':', skip_whitespace(name))
    } else {
        Some(bytes)
    }
}

/// Skips the items and the closing bracket, from before the first item.
#[cycle(nesting)]
#[inline(never)]
fn skip_items<'i>(keyed: bool, level: usize, bytes: &'i [u8]) -> Option<&'i [u8]>
    ensures { MatchOption result (NoMatchAtStart (IsItemsTail keyed (IsValue level)) bytes.now)
        (λ rest. RestAfter (IsItemsTail keyed (IsValue level)) NoByte bytes.now rest.now) }
{
    let mut rest = bytes;
    'items: loop {
        let named = skip_name(keyed, rest)?;
        let item = skip_value(level, skip_whitespace(named))?;
        let ahead = skip_whitespace(item);
        match skip_closing(keyed, ahead) {
            Some(end) => return Some(end),
            None => rest = skip_byte(b',', ahead)?,
        }
    }
}

/// Skips the longest value that the bytes start with, as [`read_value`] does.
#[cycle(nesting)]
#[inline(always)]
pub fn skip_value<'i>(level: usize, bytes: &'i [u8]) -> Option<&'i [u8]>
    ensures { MatchOption result (NoMatchAtStart (IsValue level) bytes.now)
        (λ rest. RestAfter (IsValue level) (ExtendsNumberOf bytes.now) bytes.now rest.now) }
{
    match skip_opening(bytes) {
        Some((keyed, inside)) => {
            if level == 0 {
                return None;
            }
            match skip_empty(keyed, inside) {
                Some(rest) => Some(rest),
                None => skip_items(keyed, level - 1, inside),
            }
        }
        None => skip_scalar(bytes),
    }
}

/// Returns the longest value that the input starts with whose arrays and objects are nested at most
/// `level` deep, and consumes it. At level 0 there are no arrays and objects; `[1, {}]` has two
/// levels. Whitespace before the value is not skipped.
///
/// A number may be shorter than the writer meant, as in `read_number`. Each level uses frames of
/// the stack, so `level` must not exceed what the stack has room for. Bytes of 128 and above are
/// not examined: the result is JSON if it is UTF-8, and then a value as `format_json_values` parses
/// it (clauses `standard` and `longest`). All other values that the input starts with are numbers
/// that go on in the next byte (clause `only`).
///
/// Returns `None` if and only if the input does not start with such a value; then no input is
/// consumed.
///
/// ```
/// use format_json_extents::value::read_value;
///
/// let mut input = b"{\"a\": [1, null]}, 2".as_slice();
/// assert!(rt; read_value(2, &mut input).is_some_and(|it| it == b"{\"a\": [1, null]}".as_slice()));
/// assert_eq!(rt; input, b", 2".as_slice());
/// assert!(rt; read_value(1, &mut b"[[]]".as_slice()).is_none());
/// ```
pub fn read_value<'i>(level: usize, input: &mut &'i [u8]) -> Option<&'i [u8]>
    ensures found { IfSome result (λ text.
        IsLongest (IsValue level) text.now input.old.now input.new.now) }
    ensures none { IfNone result (NoMatchAtStart (IsValue level) input.old.now) }
    ensures kept { IfNone result (input.new.now ≡ input.old.now) }
    ensures only { (text rest : List ℕ) → IsValue level text → input.old.now ≡ text ++ rest
        → IsNotContinued text rest → MatchOption result ⊥ (λ found. text ≡ found.now) }
    ensures standard { IfSome result (λ text. IsUtf8 text.now → IsValueByStandard level text.now) }
    ensures longest { (text rest : List ℕ) → IsValueByStandard level text
        → input.old.now ≡ text ++ rest
        → MatchOption result ⊥ (λ found. length text ≤ length found.now) }
{
    let start = *input;
    let rest = skip_value(level, start)?;
    *input = rest;
    Some(&start[..start.len() - rest.len()])
}

/// Returns whether the bytes are a JSON text, a value with whitespace around it, whose arrays and
/// objects are nested at most `level` deep. See [`read_value`] for `level`. Bytes of 128 and above
/// are not examined: the bytes are JSON if they are UTF-8. Then the result is true if and only if
/// `format_json_values::value::parse_value` returns their value, unless an allocation fails there
/// (clause `standard`).
///
/// ```
/// use format_json_extents::value::is_text;
///
/// assert!(rt; is_text(2, b" {\"a\": [1, 2.5e3, true]}\n".as_slice()));
/// assert!(rt; !is_text(2, b"[1, 2,]".as_slice()));
/// assert!(rt; !is_text(2, b"[[[]]]".as_slice()));
/// ```
pub fn is_text(level: usize, bytes: &[u8]) -> bool
    ensures text { IsTrue result ↔ IsText level bytes.now }
    ensures standard { IsUtf8 bytes.now → IsTrue result ↔ IsTextByStandard level bytes.now }
{
    match skip_value(level, skip_whitespace(bytes)) {
        Some(rest) => skip_whitespace(rest).is_empty(),
        None => false,
    }
}
