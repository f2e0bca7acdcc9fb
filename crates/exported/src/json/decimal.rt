//! Numbers of JSON as decimals.

ghost use Rattle.std.specs.Prelude.{◌≡◌, ◌⊎◌};
ghost use Rattle.format_json_extents.specs.Number.{IsNumber};
ghost use Rattle.format_json_extents.specs.Texts.{NoMatchAtStart};
ghost use Rattle.exported.specs.Code.{done, invalid, out_of_range};
ghost use Rattle.exported.specs.JsonDecimal.{ShowsDecimal, ShowsNoDecimal, no_decimal};

use crate::code::{DONE, INVALID, OUT_OF_RANGE};
use format_json_extents::laws::numbers_are_written_in_parts;
use format_json_extents::{decimal, number};

/// The exact value of a number: digits times a power of ten. The digits do not end in zero, so two
/// numbers are equal if and only if their decimals are. Zero has digits 0, exponent 0, and no sign.
#[repr(C)]
#[derive(Clone, Copy, Drop)]
pub struct Decimal {
    /// The factor of the power of ten.
    pub digits: u64,
    /// The power of ten.
    pub exponent: i32,
    /// Whether the number is below zero. `-0` is not.
    pub negative: bool,
}

/// Zero.
const NO_DECIMAL: Decimal = Decimal {
    digits: 0,
    exponent: 0,
    negative: false,
};

/// Converts the longest JSON number (RFC 8259) at the start of `bytes` to a decimal: a sign, digits
/// and a power of ten whose value equals the number. Nothing is rounded: `1500`, `1.50e3` and
/// `15E+2` have the digits 15 and the exponent 2. Whitespace before the number is not skipped.
///
/// `DONE`: the decimal is written.
///
/// # Errors
///
/// `OUT_OF_RANGE`: the digits without zeros at their end do not fit 64 bits, or the power of ten
/// does not fit 32 bits with a sign. Zeros are written.
///
/// `INVALID`: `bytes` does not start with a number. Zeros are written.
///
/// # Safety
///
/// `bytes` must be valid for reads of `bytes_length` bytes, which must not change during the call,
/// and `out` must be valid for writes of one decimal. They must not overlap. The call needs 16 KiB
/// of stack.
#[unsafe(no_mangle)]
pub extern "C" fn exported_json_decimal(bytes: &[u8], out: &mut Decimal) -> u32
    ensures decimal { result ≡ done → ShowsDecimal bytes.now out.new }
    ensures range { result ≡ out_of_range → ShowsNoDecimal bytes.now }
    ensures refused { result ≡ invalid → NoMatchAtStart IsNumber bytes.now }
    ensures none { (result ≡ done → ⊥) → out.new ≡ no_decimal }
    ensures codes { (result ≡ done) ⊎ ((result ≡ out_of_range) ⊎ (result ≡ invalid)) }
{
    *out = NO_DECIMAL;
    numbers_are_written_in_parts();
    let mut left = bytes;
    match number::read_number(&mut left) {
        Some(text) => match decimal::as_decimal(text) {
            Ok(found) => {
                *out = Decimal {
                    digits: found.digits,
                    exponent: found.exponent,
                    negative: found.negative,
                };
                DONE
            }
            Err(_) => OUT_OF_RANGE,
        },
        None => INVALID,
    }
}
