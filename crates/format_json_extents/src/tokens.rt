//! Single bytes, and all bytes of a set.

ghost use Rattle.std.specs.Prelude.{◌≡◌, ◌≤◌, ◌↔◌, ◌∷◌, List, ℕ, IsTrue, MatchOption, drop, length};
ghost use Rattle.std.specs.List.{All};
ghost use Rattle.format_json_extents.specs.Number.{IsDigit};
ghost use Rattle.format_json_extents.specs.Strings.{IsUnescaped};
ghost use Rattle.format_json_extents.specs.Texts.{EndsAt, RestAfter};
ghost use Rattle.format_json_extents.specs.Value.{IsWhitespaceByte};

use std::simd::prelude::*;

// How many bytes one load takes.
const LANES: usize = 16;

/// Whether a byte is whitespace.
#[inline(always)]
fn is_space(byte: u8) -> bool
    ensures { IsTrue result ↔ IsWhitespaceByte byte }
{
    // Most bytes are above.
    byte <= b' ' && (byte == b' ' || byte == b'\n' || byte == b'\r' || byte == b'\t')
}

/// Whether a byte is a digit.
#[inline(always)]
fn is_digit(byte: u8) -> bool
    ensures { IsTrue result ↔ IsDigit byte }
{
    byte >= b'0' && byte <= b'9'
}

/// Whether a byte stands for itself in a string.
#[inline(always)]
fn is_unescaped(byte: u8) -> bool
    ensures { IsTrue result ↔ IsUnescaped byte }
{
    byte >= 32 && byte != b'"' && byte != b'\\'
}

/// Skips all digits, and returns the remaining bytes.
#[inline(always)]
pub fn skip_digits<'i>(bytes: &'i [u8]) -> &'i [u8]
    ensures { RestAfter (All IsDigit) IsDigit bytes.now result.now }
{
    let mut rest = bytes;
    'digits: loop {
        match rest.split_first() {
            Some((first, more)) => {
                if is_digit(*first) {
                    rest = more;
                } else {
                    return rest;
                }
            }
            None => return rest,
        }
    }
}

/// Skips all whitespace, and returns the remaining bytes.
#[inline(always)]
pub fn skip_whitespace<'i>(bytes: &'i [u8]) -> &'i [u8]
    ensures { RestAfter (All IsWhitespaceByte) IsWhitespaceByte bytes.now result.now }
{
    // Mostly there is none, or one byte.
    match bytes.split_first() {
        Some((first, more)) => {
            if is_space(*first) {
                skip_more_whitespace(more)
            } else {
                bytes
            }
        }
        None => bytes,
    }
}

/// The same, after a byte of whitespace.
#[inline(always)]
fn skip_more_whitespace<'i>(bytes: &'i [u8]) -> &'i [u8]
    ensures { RestAfter (All IsWhitespaceByte) IsWhitespaceByte bytes.now result.now }
{
    match bytes.split_first() {
        Some((first, more)) => {
            if is_space(*first) {
                skip_long_whitespace(more)
            } else {
                bytes
            }
        }
        None => bytes,
    }
}

/// Skips `count` bytes.
#[inline(always)]
fn skip_many<'i>(count: usize, bytes: &'i [u8]) -> &'i [u8]
    requires { count ≤ length bytes.now }
    ensures { result.now ≡ drop count bytes.now }
{
    &bytes[count..]
}

/// Returns the number of lanes before the first that is not an unescaped byte of a string, or
/// `None` if all are.
#[inline(always)]
fn unescaped_first(lanes: u8x16) -> Option<usize>
    ensures { MatchOption result (All IsUnescaped lanes)
        (λ count. EndsAt IsUnescaped lanes count) }
{
    // Quotes and backslashes become lower than a space, as control characters are.
    let none = u8x16::splat(0);
    let unquoted = lanes.simd_eq(u8x16::splat(b'"')).select(none, lanes);
    let plain = lanes.simd_eq(u8x16::splat(b'\\')).select(none, unquoted);
    let others = plain.simd_lt(u8x16::splat(32)).to_bitmask();
    if others == 0 {
        return None;
    }
    Some(others.trailing_zeros() as usize)
}

/// Returns the number of lanes before the first that is not whitespace, or `None` if all are.
#[inline(always)]
fn space_first(lanes: u8x16) -> Option<usize>
    ensures { MatchOption result (All IsWhitespaceByte lanes)
        (λ count. EndsAt IsWhitespaceByte lanes count) }
{
    // Each byte of whitespace becomes a space.
    let space = u8x16::splat(b' ');
    let tabs = lanes.simd_eq(u8x16::splat(b'\t')).select(space, lanes);
    let lines = lanes.simd_eq(u8x16::splat(b'\n')).select(space, tabs);
    let spaced = lanes.simd_eq(u8x16::splat(b'\r')).select(space, lines);
    let ends = spaced.simd_ne(space).to_bitmask();
    if ends == 0 {
        return None;
    }
    Some(ends.trailing_zeros() as usize)
}

/// The same as `skip_whitespace`, of several bytes of whitespace.
#[inline(never)]
fn skip_long_whitespace<'i>(bytes: &'i [u8]) -> &'i [u8]
    ensures { RestAfter (All IsWhitespaceByte) IsWhitespaceByte bytes.now result.now }
{
    let mut rest = bytes;
    'lanes: while rest.len() >= LANES {
        match space_first(u8x16::from_slice(rest)) {
            Some(count) => return skip_many(count, rest),
            None => rest = skip_many(LANES, rest),
        }
    }
    'last: loop {
        match rest.split_first() {
            Some((first, more)) => {
                if is_space(*first) {
                    rest = more;
                } else {
                    return rest;
                }
            }
            None => return rest,
        }
    }
}

/// Skips all bytes that need no escape in a string, and returns the remaining bytes.
#[inline(always)]
pub fn skip_unescaped<'i>(bytes: &'i [u8]) -> &'i [u8]
    ensures { RestAfter (All IsUnescaped) IsUnescaped bytes.now result.now }
{
    if bytes.len() >= LANES {
        match unescaped_first(u8x16::from_slice(bytes)) {
            Some(count) => return skip_many(count, bytes),
            None => {}
        }
    }
    skip_more_unescaped(bytes)
}

/// The same, in longer strings and at the end of the bytes.
#[inline(never)]
fn skip_more_unescaped<'i>(bytes: &'i [u8]) -> &'i [u8]
    ensures { RestAfter (All IsUnescaped) IsUnescaped bytes.now result.now }
{
    let mut rest = bytes;
    'lanes: while rest.len() >= LANES {
        match unescaped_first(u8x16::from_slice(rest)) {
            Some(count) => return skip_many(count, rest),
            None => rest = skip_many(LANES, rest),
        }
    }
    'last: loop {
        match rest.split_first() {
            Some((first, more)) => {
                if is_unescaped(*first) {
                    rest = more;
                } else {
                    return rest;
                }
            }
            None => return rest,
        }
    }
}

/// Skips `byte`, and returns the remaining bytes.
#[inline(always)]
pub fn skip_byte<'i>(byte: u8, bytes: &'i [u8]) -> Option<&'i [u8]>
    ensures { MatchOption result ((more : List ℕ) → bytes.now ≡ byte ∷ more → ⊥)
        (λ rest. bytes.now ≡ byte ∷ rest.now) }
{
    let (first, rest) = bytes.split_first()?;
    if *first == byte { Some(rest) } else { None }
}
