//! The fields that determine the length of a body (RFC 9112, section 6).
#![tactic(auto)]

ghost use Rattle.format_http.specs.Bodies.Fields.{HasOne, IsNumber};
ghost use Rattle.std.specs.Prelude.{◌≡◌, ◌↔◌, IsTrue};

use crate::heads::fields::Fields;

/// Whether a field has this name.
pub(crate) fn has<'i, F: Fields<'i>>(fields: F, name: &[u8]) -> bool
    ensures { IsTrue result ↔ HasOne name.now (F.pairs fields) }
{
    let mut left = fields;
    'passed: while let Some(field) = left.next() {
        if field.name.eq_ignore_ascii_case(name) {
            return true;
        }
    }
    false
}

/// Whether two values are the same.
pub(crate) fn is_same(one: &[u8], other: &[u8]) -> bool
    ensures { IsTrue result ↔ one.now ≡ other.now }
{
    one == other
}

/// Whether a value is a number: decimal digits, one or more.
pub(crate) fn is_number(value: &[u8]) -> bool
    ensures { IsTrue result ↔ IsNumber value.now }
{
    let mut left = value;
    'bytes: while let Some((first, more)) = left.split_first() {
        if !first.is_ascii_digit() {
            return false;
        }
        left = more;
    }
    !value.is_empty()
}
