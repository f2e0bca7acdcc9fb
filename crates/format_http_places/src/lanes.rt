//! The length of a run of bytes of one class in sixteen bytes, which are examined together.

ghost use Rattle.std.specs.Prelude.{◌≡◌, ◌≤◌, length};
ghost use Rattle.format_http.specs.Heads.Bytes.{IsTokenByte, IsValueByte, IsVisible};
ghost use Rattle.format_http_places.specs.Runs.{FirstAre, SoManyOf16, first_set};

use std::simd::prelude::*;

/// That many bytes are looked at.
pub(crate) const LANES: usize = 16;

#[inline(always)]
fn first_set(mask: u64) -> usize
    ensures { result ≡ first_set mask }
{
    if mask == 0 {
        LANES
    } else {
        mask.trailing_zeros() as usize
    }
}

/// How many letters and dashes.
#[inline(always)]
pub(crate) fn name_run(bytes: &[u8]) -> usize
    requires { LANES ≤ length bytes.now }
    ensures { (result ≤ 16) × FirstAre IsTokenByte bytes.now result }
{
    let v = u8x16::from_slice(bytes);
    let from_a = (v | u8x16::splat(0x20)) - u8x16::splat(b'a');
    let stops = from_a.simd_ge(u8x16::splat(26)) & v.simd_ne(u8x16::splat(b'-'));
    first_set(stops.to_bitmask())
}

/// How many bytes of targets.
#[inline(always)]
pub(crate) fn target_run(bytes: &[u8]) -> usize
    requires { LANES ≤ length bytes.now }
    ensures { SoManyOf16 IsVisible bytes.now result }
{
    let v = u8x16::from_slice(bytes);
    let stops = (v - u8x16::splat(b'!')).simd_ge(u8x16::splat(94));
    first_set(stops.to_bitmask())
}

/// How many bytes of values.
#[inline(always)]
pub(crate) fn value_run(bytes: &[u8]) -> usize
    requires { LANES ≤ length bytes.now }
    ensures { SoManyOf16 IsValueByte bytes.now result }
{
    let v = u8x16::from_slice(bytes);
    let is_control = v.simd_lt(u8x16::splat(b' ')) & v.simd_ne(u8x16::splat(b'\t'));
    let stops = is_control | v.simd_eq(u8x16::splat(0x7f));
    first_set(stops.to_bitmask())
}
