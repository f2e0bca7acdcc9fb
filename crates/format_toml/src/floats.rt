//! Floats (TOML 1.0: Float), as text.
ghost use Rattle.std.specs.List.{filter};
ghost use Rattle.std.specs.Prelude.{◌≡◌, ◌↔◌, ◌==◌, not, string_bytes, IfOk, IsAscii, IsTrue};
ghost use Rattle.format_toml.specs.Floats.{AreDigits, IsDecimal, IsFloat, IsMagnitude, IsWhole};
ghost use Rattle.format_toml.specs.Floats.{SignsOff, SplitsAt};

use crate::integers::is_lone;
use std::alloc::{AllocError, Allocator};

/// Returns the parts before and after the first occurrence of either byte.
fn split_at_first(text: &[u8], one: u8, other: u8) -> Option<(&[u8], &[u8])>
    ensures { SplitsAt one other text.now result }
{
    for place in 0..text.len() {
        if text[place] == one || text[place] == other {
            return Some((&text[..place], &text[place + 1..]));
        }
    }
    None
}

/// Whether it is decimal digits with underscores between them or none.
fn are_digits(text: &[u8]) -> bool
    ensures { IsTrue result ↔ AreDigits text.now }
{
    let mut due = true;
    for byte in text {
        if byte.is_ascii_digit() {
            due = false;
        } else if *byte == b'_' && !due {
            due = true;
        } else {
            return false;
        }
    }
    !due
}

/// Returns whether the text is decimal digits, where a leading zero must be the only digit.
fn is_whole(text: &[u8]) -> bool
    ensures { IsTrue result ↔ IsWhole text.now }
{
    is_lone(text) && are_digits(text)
}

/// Whether it is a whole part, a point and digits.
fn is_decimal(text: &[u8]) -> bool
    ensures { IsTrue result ↔ IsDecimal text.now }
{
    match split_at_first(text, b'.', b'.') {
        Some((whole, fraction)) => is_whole(whole) && are_digits(fraction),
        None => false,
    }
}

/// Returns the text without its leading sign, if it has one.
fn without_sign(text: &[u8]) -> &[u8]
    ensures { SignsOff text.now result.now }
{
    let Some((first, rest)) = text.split_first() else {
        return text;
    };
    let first = *first;
    if first == b'+' || first == b'-' {
        return rest;
    }
    text
}

/// Whether it is a float without its sign that is neither `inf` nor `nan`.
fn is_magnitude(text: &[u8]) -> bool
    ensures { IsTrue result ↔ IsMagnitude text.now }
{
    match split_at_first(text, b'e', b'E') {
        Some((number, power)) => {
            are_digits(without_sign(power)) && (is_whole(number) || is_decimal(number))
        }
        None => is_decimal(text),
    }
}

/// Whether it is a float.
pub(crate) fn is_float(text: &[u8]) -> bool
    ensures { IsTrue result ↔ IsFloat text.now }
{
    let rest = without_sign(text);
    if rest == b"inf".as_slice() || rest == b"nan".as_slice() {
        return true;
    }
    is_magnitude(rest)
}

/// The text without its underscores.
pub(crate) fn without_underscores<A: Allocator>(
    alloc: A,
    text: &[u8],
) -> Result<String<A>, AllocError>
    requires { IsAscii text.now }
    ensures { IfOk result (λ s. string_bytes s ≡ filter (λ c. not (c == 95)) text.now) }
{
    let mut kept = String::new(alloc);
    for byte in text {
        if *byte != b'_' {
            kept.push(char::from(*byte))?;
        }
    }
    Ok(kept)
}
