//! Numbers of JSON as integers.

ghost use Rattle.std.specs.Prelude.{◌≡◌, ◌⊎◌, pos};
ghost use Rattle.format_json_extents.specs.Number.{IsNumber};
ghost use Rattle.format_json_extents.specs.Texts.{NoMatchAtStart};
ghost use Rattle.exported.specs.Code.{done, invalid, not_an_integer};
ghost use Rattle.exported.specs.JsonInteger.{ShowsInteger, ShowsNatural, ShowsNoInteger};
ghost use Rattle.exported.specs.JsonInteger.{ShowsNoNatural};

use crate::code::{DONE, INVALID, NOT_AN_INTEGER};
use format_json_extents::{integer, number};

/// Converts the longest JSON number (RFC 8259) at the start of `bytes` to a signed 64-bit integer.
/// `-0` gives 0. Whitespace before the number is not skipped.
///
/// `DONE`: the integer is written.
///
/// # Errors
///
/// `NOT_AN_INTEGER`: the number has a point or an exponent, like `1.0` and `1e2`, or does not fit.
/// 0 is written.
///
/// `INVALID`: `bytes` does not start with a number. 0 is written.
///
/// # Safety
///
/// `bytes` must be valid for reads of `bytes_length` bytes, which must not change during the call,
/// and `out` must be valid for writes of one integer. They must not overlap. The call needs 16 KiB
/// of stack.
#[unsafe(no_mangle)]
pub extern "C" fn exported_json_integer(bytes: &[u8], out: &mut i64) -> u32
    ensures integer { result ≡ done → ShowsInteger bytes.now out.new }
    ensures other { result ≡ not_an_integer → ShowsNoInteger bytes.now }
    ensures refused { result ≡ invalid → NoMatchAtStart IsNumber bytes.now }
    ensures none { (result ≡ done → ⊥) → out.new ≡ pos 0 }
    ensures codes { (result ≡ done) ⊎ ((result ≡ not_an_integer) ⊎ (result ≡ invalid)) }
{
    *out = 0;
    let mut left = bytes;
    match number::read_number(&mut left) {
        Some(text) => match integer::as_i64(text) {
            Some(found) => {
                *out = found;
                DONE
            }
            None => NOT_AN_INTEGER,
        },
        None => INVALID,
    }
}

/// Like `exported_json_integer`, for an unsigned 64-bit integer.
///
/// `DONE`: the integer is written.
///
/// # Errors
///
/// `NOT_AN_INTEGER`: the number has a minus sign, even `-0`, a point or an exponent, or does not
/// fit. 0 is written.
///
/// `INVALID`: `bytes` does not start with a number. 0 is written.
///
/// # Safety
///
/// `bytes` must be valid for reads of `bytes_length` bytes, which must not change during the call,
/// and `out` must be valid for writes of one integer. They must not overlap. The call needs 16 KiB
/// of stack.
#[unsafe(no_mangle)]
pub extern "C" fn exported_json_natural(bytes: &[u8], out: &mut u64) -> u32
    ensures integer { result ≡ done → ShowsNatural bytes.now out.new }
    ensures other { result ≡ not_an_integer → ShowsNoNatural bytes.now }
    ensures refused { result ≡ invalid → NoMatchAtStart IsNumber bytes.now }
    ensures none { (result ≡ done → ⊥) → out.new ≡ 0 }
    ensures codes { (result ≡ done) ⊎ ((result ≡ not_an_integer) ⊎ (result ≡ invalid)) }
{
    *out = 0;
    let mut left = bytes;
    match number::read_number(&mut left) {
        Some(text) => match integer::as_u64(text) {
            Some(found) => {
                *out = found;
                DONE
            }
            None => NOT_AN_INTEGER,
        },
        None => INVALID,
    }
}
