//! Whether a connection persists after a message (RFC 9112, section 9.3).
#![tactic(auto)]

ghost use Rattle.format_http.specs.Bodies.Lists.{parts_of};
ghost use Rattle.format_http.specs.Persistence.{HasOption, IsAtLeast, IsOption, Persists};
ghost use Rattle.std.specs.Prelude.{◌↔◌, IsTrue};

use crate::bodies::lists::{element_of, next_part};
use crate::heads::fields::Fields;

/// Whether an element of a list is this option.
fn is_option(option: &[u8], list: &[u8]) -> bool
    ensures { IsTrue result ↔ IsOption option.now (parts_of list.now) }
{
    let mut left = Some(list);
    'parts: while let Some(here) = left {
        let (part, more) = next_part(here);
        if element_of(part).eq_ignore_ascii_case(option) {
            return true;
        }
        left = more;
    }
    false
}

/// Whether a Connection field has this option.
fn has_option<'i, F: Fields<'i>>(option: &[u8], fields: F) -> bool
    ensures { IsTrue result ↔ HasOption option.now (F.pairs fields) }
{
    let mut left = fields;
    'passed: while let Some(field) = left.next() {
        if field.name.eq_ignore_ascii_case(b"connection".as_slice())
            && is_option(option, field.value)
        {
            return true;
        }
    }
    false
}

/// Whether a version is 1.1 or later.
fn is_at_least(major: u8, minor: u8) -> bool
    ensures { IsTrue result ↔ IsAtLeast major minor }
{
    major > 1 || (major == 1 && minor >= 1)
}

/// Returns whether the connection persists after a message of this version with these fields, by
/// the rules of section 9.3 in order: not with the option `close`; otherwise with HTTP/1.1 or
/// later, and with HTTP/1.0 and the option `keep-alive`.
///
/// Options are the elements of all Connection fields, which are lists. Names of fields and options
/// are compared ignoring ASCII case. It does not allocate.
///
/// A body that ends with the connection ends it, whatever the fields say. A proxy must not persist
/// after a request of HTTP/1.0, and a recipient need not.
///
/// ```
/// use format_http::heads::field_line::Field;
/// use format_http::persistence::persists;
///
/// let close = [Field { name: b"Connection", value: b"TE, Close" }];
/// assert!(rt; !persists(1, 1, close.as_slice()));
/// assert!(rt; persists(1, 1, [].as_slice()));
/// let kept = [Field { name: b"Connection", value: b"keep-alive" }];
/// assert!(rt; persists(1, 0, kept.as_slice()));
/// assert!(rt; !persists(1, 0, [].as_slice()));
/// ```
pub fn persists<'i, F: Fields<'i>>(major: u8, minor: u8, fields: F) -> bool
    ensures { IsTrue result ↔ Persists major minor (F.pairs fields) }
{
    if has_option(b"close".as_slice(), fields) {
        return false;
    }
    if is_at_least(major, minor) {
        return true;
    }
    major == 1 && minor == 0 && has_option(b"keep-alive".as_slice(), fields)
}
