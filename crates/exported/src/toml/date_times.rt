//! Dates and times of TOML, as numbers.

ghost use Rattle.std.specs.List.{All};
ghost use Rattle.std.specs.Prelude.{◌≡◌, ◌⊎◌};
ghost use Rattle.exported.specs.Code.{done, invalid, no_memory};
ghost use Rattle.exported.specs.TomlDateTimes.{IsNoDateTime, ShowsDateTime, no_date_time};
ghost use Rattle.format_toml_nodes.specs.DateTimes.{nanoseconds};
ghost use Rattle.format_toml_tree.specs.Dates.{HasPoint, IsDigit};

use crate::code::{DONE, INVALID, NO_MEMORY};
pub use format_toml_nodes::date_times::TomlDateTimeParts;
use format_toml_nodes::date_times::{NO_DATE_TIME, nanosecond, read_date_time};
use std::alloc::Global;

/// Converts the text of a date, a time or both to numbers. It is a date-time of TOML 1.0, as
/// `1979-05-27T00:32:00.999999-07:00`, so each timestamp of RFC 3339 is one. Date and time are
/// separated by `T`, `t` or a space. The day exists in its month. A second of 60 is accepted in
/// each minute. Digits of a fraction after the ninth are cut off.
///
/// `DONE`: the numbers are written. The kind tells which parts there are: those of a part that is
/// missing are 0.
///
/// A call holds up to 4 bytes of memory for each byte of a fraction.
///
/// # Errors
///
/// `INVALID`: the bytes are not a date, a time or both. Zeros are written.
///
/// `NO_MEMORY`: the digits of a fraction could not be copied. Zeros are written.
///
/// # Safety
///
/// `bytes` must be valid for reads of `bytes_length` bytes, which must not change during the call,
/// and `out` must be valid for writes of one date-time. They must not overlap. The call needs 16
/// KiB of stack.
#[unsafe(no_mangle)]
pub extern "C" fn exported_toml_date_time(
    alloc: Global,
    bytes: &[u8],
    out: &mut TomlDateTimeParts,
) -> u32
    ensures shown { result ≡ done → ShowsDateTime bytes.now out.new }
    ensures refused { result ≡ invalid → IsNoDateTime bytes.now }
    ensures memory { result ≡ no_memory → HasPoint bytes.now }
    ensures none { (result ≡ done → ⊥) → out.new ≡ no_date_time }
    ensures codes { (result ≡ done) ⊎ ((result ≡ invalid) ⊎ (result ≡ no_memory)) }
{
    *out = NO_DATE_TIME;
    match read_date_time(alloc, bytes) {
        Ok(Some(found)) => {
            *out = found;
            DONE
        }
        Ok(None) => INVALID,
        Err(_) => NO_MEMORY,
    }
}

/// Converts the digits of the fraction of a second to nanoseconds: those that a node of a time has
/// in the text. Digits after the ninth are cut off.
///
/// `DONE`: the nanoseconds are written, from 0 to 999,999,999. Without digits, they are 0.
///
/// # Errors
///
/// `INVALID`: not all bytes are digits. 0 is written.
///
/// # Safety
///
/// `digits` must be valid for reads of `digits_length` bytes, which must not change during the
/// call, and `out` must be valid for writes of one number. They must not overlap. The call needs 16
/// KiB of stack.
#[unsafe(no_mangle)]
pub extern "C" fn exported_toml_nanosecond(digits: &[u8], out: &mut u32) -> u32
    ensures nanosecond { result ≡ done → All IsDigit digits.now
        × (out.new ≡ nanoseconds digits.now) }
    ensures refused { result ≡ invalid → (All IsDigit digits.now → ⊥) × (out.new ≡ 0) }
    ensures codes { (result ≡ done) ⊎ (result ≡ invalid) }
{
    *out = 0;
    match nanosecond(digits) {
        Some(found) => {
            *out = found;
            DONE
        }
        None => INVALID,
    }
}
