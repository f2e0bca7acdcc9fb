//! The number of a numeral, from all its digits at once: sixteen bytes of one load.
//!
//! Digits are moved after zeros into the last lanes, and neighbours are joined, to numbers below
//! 100, then below 10 000, and so on.
ghost use Rattle.std.specs.Prelude.{◌≡◌, ◌≤◌, ◌<◌, ◌+◌, ◌-◌, ◌*◌, ◌++◌, ℕ, List, IfSome};
ghost use Rattle.std.specs.Prelude.{length};
ghost use Rattle.std.specs.Prelude.{replicate, take};
ghost use Rattle.parser_definitions.specs.Digits.{value_in};
ghost use Rattle.winnow_numbers.specs.Lanes.{AreAtMost, StartsWithNumeral, EndsDigits, as_words};
ghost use Rattle.winnow_numbers.specs.Lanes.{in_base, joined};

use std::simd::prelude::*;

// How many bytes one load takes.
const LANES: usize = 16;

// The place of each lane.
const PLACES: [u8; LANES] = [0, 1, 2, 3, 4, 5, 6, 7, 8, 9, 10, 11, 12, 13, 14, 15];

/// Returns the length in bytes of the digits of the numeral at the start, and its number. Returns
/// `None` if there are fewer than 16 bytes, if they do not start with a numeral, or if its end is
/// not in the first 16.
#[inline(always)]
pub(crate) fn first_numeral(bytes: &[u8]) -> Option<(usize, u64)>
    ensures { IfSome result (λ found. (digits rest : List ℕ)
        × StartsWithNumeral bytes.now digits rest × (found.0 ≡ length digits)
        × (found.1 ≡ value_in 10 digits)) }
{
    if bytes.len() < LANES {
        return None;
    }
    if bytes[0] == b'0' {
        return Some((1, 0));
    }
    let digits = u8x16::from_slice(bytes) - u8x16::splat(b'0');
    let count = digits_first(digits)?;
    if count == 0 {
        return None;
    }
    Some((count, number_first(digits, count)))
}

/// Returns the number of lanes before the first that is not a digit, or `None` if all are digits.
#[inline(always)]
fn digits_first(lanes: u8x16) -> Option<usize>
    ensures { IfSome result (λ count. EndsDigits lanes count) }
{
    let others = lanes.simd_gt(u8x16::splat(9)).to_bitmask();
    if others == 0 {
        return None;
    }
    Some(others.trailing_zeros() as usize)
}

/// The number of the first digits.
#[inline(always)]
fn number_first(lanes: u8x16, count: usize) -> u64
    requires { EndsDigits lanes count }
    ensures { result ≡ in_base 10 0 (take count lanes) }
{
    sixteen(moved_last(lanes, count))
}

/// The first lanes, moved after zeros into the last.
#[inline(always)]
fn moved_last(lanes: u8x16, count: usize) -> u8x16
    requires { count ≤ LANES }
    ensures { result ≡ replicate (LANES - count) 0 ++ take count lanes }
{
    let before = ((LANES - count) % 256) as u8;
    lanes.swizzle_dyn(u8x16::from_array(PLACES) - u8x16::splat(before))
}

/// The number of sixteen digits.
#[inline(always)]
fn sixteen(digits: u8x16) -> u64
    requires { AreAtMost 9 digits }
    ensures { result ≡ in_base 10 0 digits }
{
    let words = two_words(fours(pairs(digits)));
    eight(words[0]) * 100_000_000 + eight(words[1])
}

/// Each two digits as one number, which is below 100.
#[inline(always)]
fn pairs(digits: u8x16) -> u16x8
    requires { AreAtMost 9 digits }
    ensures { result ≡ joined 10 digits }
{
    (u16x8::from_le_bytes(digits) * u16x8::splat(2561)) >> u16x8::splat(8)
}

/// Each two numbers below 100 as one, which is below 10 000.
#[inline(always)]
fn fours(pairs: u16x8) -> u32x4
    requires { AreAtMost 99 pairs }
    ensures { result ≡ joined 100 pairs }
{
    (u32x4::from_le_bytes(pairs.to_le_bytes()) * u32x4::splat(6_553_601)) >> u32x4::splat(16)
}

/// Each two numbers as one word, the first below.
#[inline(always)]
fn two_words(fours: u32x4) -> [u64; 2]
    requires { AreAtMost 9999 fours }
    ensures { result ≡ as_words 4_294_967_296 fours }
{
    u64x2::from_le_bytes(fours.to_le_bytes()).to_array()
}

/// The number of eight digits, from a word of two numbers below 10 000.
#[inline(always)]
fn eight(word: u64) -> u64
    requires { (x y : ℕ) × (word ≡ x + 4_294_967_296 * y) × (x ≤ 9999) × (y ≤ 9999) }
    ensures { (x y : ℕ) → word ≡ x + 4_294_967_296 * y → x ≤ 9999 → result ≡ x * 10_000 + y }
{
    word % 4_294_967_296 * 10_000 + (word >> 32)
}
