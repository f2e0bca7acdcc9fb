//! The position of the next byte in the trailer section.
#![tactic(auto)]

ghost use Rattle.format_http_chunked.specs.Dues.{DueFields};
ghost use Rattle.format_http_chunked.specs.Steps.{ArePassed};
ghost use Rattle.format_http_chunked.specs.declared.places.InField.TheVariants as field;
ghost use Rattle.std.specs.Prelude.{◌≡◌, ◌↔◌, ◌++◌, ◌∷◌, ℕ, List, None, IfSome, ◌+◌, length};
ghost use Rattle.std.specs.Prelude.{◌≤◌, MatchBool, take};

use crate::bytes::{is_token, is_value};
use crate::places::InField;

/// Returns the position in field lines after this byte, or `None` if no field line continues with
/// it.
#[inline]
pub(crate) fn field_behind(at: InField, byte: u8) -> Option<InField>
    ensures some { IfSome result (λ next. (fields : List ℕ) → DueFields at (byte ∷ fields)
        ↔ DueFields next fields) }
    ensures begins { IfSome result (λ next. at ≡ field.Start → byte ≡ 13 → ⊥) }
    ensures none { result ≡ None → (fields : List ℕ) → DueFields at (byte ∷ fields) → ⊥ }
{
    match at {
        InField::Start => if is_token(byte) {
            Some(InField::Name)
        } else {
            None
        },
        InField::Name => {
            if is_token(byte) {
                return Some(InField::Name);
            }
            if byte == b':' {
                Some(InField::Value)
            } else {
                None
            }
        }
        InField::Value => {
            if is_value(byte) {
                return Some(InField::Value);
            }
            if byte == b'\r' {
                Some(InField::Return)
            } else {
                None
            }
        }
        InField::Return => if byte == b'\n' {
            Some(InField::Start)
        } else {
            None
        },
    }
}

/// Consumes the longest prefix of field lines that `room` allows. Returns the position of the next
/// byte, the remaining room, and the rest.
pub(crate) fn pass_fields<'i>(
    at: InField,
    room: usize,
    bytes: &'i [u8],
) -> (InField, usize, &'i [u8])
    ensures spent { length bytes.now + result.1 ≡ length result.2.now + room }
    ensures passed { (fields : List ℕ) × (bytes.now ≡ fields ++ result.2.now)
        × ArePassed at result.0 fields }
{
    let mut next = at;
    let mut left = room;
    let mut rest = bytes;
    'bytes: while let Some((byte, others)) = rest.split_first() {
        match (field_behind(next, *byte), left.checked_sub(1)) {
            (Some(behind), Some(less)) => {
                next = behind;
                left = less;
                rest = others;
            }
            _ => return (next, left, rest),
        }
    }
    (next, left, rest)
}

/// The first bytes.
pub(crate) fn front(bytes: &[u8], size: usize) -> &[u8]
    requires { size ≤ length bytes.now }
    ensures { result.now ≡ take size bytes.now }
{
    &bytes[..size]
}

/// Whether this byte is the carriage return after the trailer section.
pub(crate) fn ends_there(at: InField, byte: u8) -> bool
    ensures { MatchBool result ((at ≡ field.Start) × (byte ≡ 13))
        (at ≡ field.Start → byte ≡ 13 → ⊥) }
{
    match at {
        InField::Start => byte == b'\r',
        _ => false,
    }
}
