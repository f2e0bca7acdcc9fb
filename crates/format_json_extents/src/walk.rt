//! The values in arrays and objects of JSON, in sequence.

ghost use Rattle.std.specs.Prelude.{◌≡◌, ◌↔◌, ℕ, IfNone, IfSome, IsTrue};
ghost use Rattle.format_json_extents.specs.Texts.{NoMatchAtStart, RestAfter, Then};
ghost use Rattle.format_json_extents.specs.Value.{IsValue};
ghost use Rattle.format_json_extents.specs.Walk.{EndsItems, ExtendsSeparator, IsClosingByte};
ghost use Rattle.format_json_extents.specs.Walk.{IsCommaOrColon, IsNextValue, IsOfKind};
ghost use Rattle.format_json_extents.specs.Walk.{IsSeparator};

use crate::tokens::skip_whitespace;
use crate::value::read_value;

/// The kind of a value.
#[derive(Clone, Copy, Debug, PartialEq, Eq)]
pub enum Kind {
    /// The word null.
    Null,
    /// The word false.
    False,
    /// The word true.
    True,
    /// A number.
    Number,
    /// A string.
    String,
    /// An array.
    Array,
    /// An object.
    Object,
}

/// Returns the kind of a value, by its first byte.
///
/// ```
/// use format_json_extents::walk::{Kind, kind_of};
///
/// assert_eq!(rt; kind_of(b"[1]".as_slice()), Kind::Array);
/// assert_eq!(rt; kind_of(b"-1".as_slice()), Kind::Number);
/// ```
pub fn kind_of(value: &[u8]) -> Kind
    ensures { (level : ℕ) → IsValue level value.now → IsOfKind level result value.now }
{
    match value.split_first() {
        Some((b'n', _)) => Kind::Null,
        Some((b'f', _)) => Kind::False,
        Some((b't', _)) => Kind::True,
        Some((b'"', _)) => Kind::String,
        Some((b'[', _)) => Kind::Array,
        Some((b'{', _)) => Kind::Object,
        _ => Kind::Number,
    }
}

/// Whether a byte is a comma or a colon.
fn is_mark(byte: u8) -> bool
    ensures { IsTrue result ↔ IsCommaOrColon byte }
{
    byte == b',' || byte == b':'
}

/// Whether a byte is a closing bracket.
fn is_closing(byte: u8) -> bool
    ensures { IsTrue result ↔ IsClosingByte byte }
{
    byte == b']' || byte == b'}'
}

/// Skips whitespace, at most one comma or colon, and whitespace; returns the remaining bytes.
#[inline(always)]
pub fn skip_separator<'i>(bytes: &'i [u8]) -> &'i [u8]
    ensures { RestAfter IsSeparator ExtendsSeparator bytes.now result.now }
{
    let ahead = skip_whitespace(bytes);
    match ahead.split_first() {
        Some((first, more)) => {
            if is_mark(*first) {
                skip_whitespace(more)
            } else {
                ahead
            }
        }
        None => ahead,
    }
}

/// Skips whitespace, at most one comma or colon, and whitespace; then consumes and returns the
/// longest value whose arrays and objects are nested at most `level` deep. From after an opening
/// bracket, each call returns the next element of an array; in an object, names and values
/// alternate.
///
/// Returns `None` if and only if no such value follows; then no input is consumed.
///
/// ```
/// use format_json_extents::walk::{is_end, read_next};
///
/// let mut inside = b" \"a\" : [1]}".as_slice();
/// assert!(rt; read_next(1, &mut inside).is_some_and(|it| it == b"\"a\"".as_slice()));
/// assert!(rt; read_next(1, &mut inside).is_some_and(|it| it == b"[1]".as_slice()));
/// assert!(rt; is_end(inside));
/// ```
pub fn read_next<'i>(level: usize, input: &mut &'i [u8]) -> Option<&'i [u8]>
    ensures found { IfSome result (λ text.
        IsNextValue level text.now input.old.now input.new.now) }
    ensures none { IfNone result (NoMatchAtStart (Then IsSeparator (IsValue level)) input.old.now) }
    ensures kept { IfNone result (input.new.now ≡ input.old.now) }
{
    let mut left = skip_separator(*input);
    let value = read_value(level, &mut left)?;
    *input = left;
    Some(value)
}

/// Returns whether only whitespace precedes a closing bracket or the end.
///
/// ```
/// use format_json_extents::walk::is_end;
///
/// assert!(rt; is_end(b" ]".as_slice()) && is_end(b"".as_slice()));
/// assert!(rt; !is_end(b", 2]".as_slice()));
/// ```
pub fn is_end(bytes: &[u8]) -> bool
    ensures { IsTrue result ↔ EndsItems bytes.now }
{
    match skip_whitespace(bytes).split_first() {
        Some((first, _)) => is_closing(*first),
        None => true,
    }
}
