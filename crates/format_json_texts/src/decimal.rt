//! Numbers of JSON (RFC 8259, section 6) as decimals, with no rounding and no memory: a sign,
//! digits, and a power of ten.
//!
//! ```
//! use format_json_texts::decimal::{Decimal, DecimalError, as_decimal};
//!
//! let price = Decimal { negative: true, digits: 1995, exponent: -2 };
//! assert_eq!(rt; as_decimal(b"-19.950".as_slice()), Ok(price));
//! let long = as_decimal(b"0.1000000000000000055511151231257827".as_slice());
//! assert_eq!(rt; long, Err(DecimalError::TooManyDigits));
//! ```

ghost use Rattle.format_json_texts.specs.Decimals.{Answers};
ghost use Rattle.format_json_texts.specs.NumberParts.{IsWritten, Number};
ghost use Rattle.std.specs.Prelude.{◌≡◌, ◌++◌};

use crate::coefficient::read_coefficient;
use crate::power::{power_of, shifted};

/// An integer times a power of ten, written the one shortest way: the digits do not end in zero,
/// and zero is digits 0, exponent 0, with no sign. So two numbers are equal if and only if their
/// decimals are, as those of `1500`, `1.50e3` and `15E+2`.
///
/// ```
/// use format_json_texts::decimal::{Decimal, as_decimal};
///
/// let found = Decimal { negative: false, digits: 15, exponent: 2 };
/// assert_eq!(rt; as_decimal(b"1500".as_slice()), Ok(found));
/// assert_eq!(rt; as_decimal(b"1.50e3".as_slice()), Ok(found));
/// let zero = Decimal { negative: false, digits: 0, exponent: 0 };
/// assert_eq!(rt; as_decimal(b"-0.00e7".as_slice()), Ok(zero));
/// ```
#[derive(Clone, Copy, Debug, PartialEq, Eq)]
pub struct Decimal {
    /// Whether it is below zero; zero is not, that of `-0` neither.
    pub negative: bool,
    /// The factor of the power of ten.
    pub digits: u64,
    /// The power of ten.
    pub exponent: i32,
}

/// Why a number has no decimal that fits.
///
/// ```
/// use format_json_texts::decimal::{DecimalError, as_decimal};
///
/// let long = as_decimal(b"18446744073709551617".as_slice());
/// assert_eq!(rt; long, Err(DecimalError::TooManyDigits));
/// let large = as_decimal(b"1e2147483648".as_slice());
/// assert_eq!(rt; large, Err(DecimalError::ExponentOutOfRange));
/// ```
#[derive(Clone, Copy, Debug, PartialEq, Eq)]
pub enum DecimalError {
    /// The digits, without zeros at their end, are 2<sup>64</sup> or more.
    TooManyDigits,
    /// The digits fit, and their power of ten is below -2<sup>31</sup>, or 2<sup>31</sup> or more.
    ExponentOutOfRange,
}

/// Returns whether the number starts with a minus sign, and the bytes after the sign.
#[inline]
fn skip_sign<'i>(number: &'i [u8]) -> (bool, &'i [u8])
    ensures { (n : Number) (is : IsWritten number.now n)
        → (result.0 ≡ n.negative) × (result.1.now ≡ n.whole ++ (is.point ++ is.exponent)) }
{
    match number.split_first() {
        Some((first, more)) => {
            if *first == b'-' {
                return (true, more);
            }
        }
        None => {}
    }
    (false, number)
}

/// Returns the exact decimal value of a JSON number. Trailing zeros do not count as digits, so
/// `10e400` fits, and so does a one followed by a thousand zeros. The result is unspecified if the
/// bytes are not a JSON number.
///
/// Fails with [`DecimalError::TooManyDigits`] if the digits do not fit 64 bits. Otherwise fails
/// with [`DecimalError::ExponentOutOfRange`] if the power of ten does not fit 32 bits. Each number
/// has only one decimal
/// ([`each_number_has_one_decimal`](crate::laws::each_number_has_one_decimal)), so none that fits
/// is missed.
///
/// ```
/// use format_json_texts::decimal::{Decimal, as_decimal};
///
/// let large = Decimal { negative: false, digits: 1, exponent: 401 };
/// assert_eq!(rt; as_decimal(b"10e400".as_slice()), Ok(large));
/// let small = Decimal { negative: true, digits: 5, exponent: -3 };
/// assert_eq!(rt; as_decimal(b"-0.005".as_slice()), Ok(small));
/// ```
pub fn as_decimal(number: &[u8]) -> Result<Decimal, DecimalError>
    ensures { (n : Number) → IsWritten number.now n → Answers n result }
{
    let (negative, unsigned) = skip_sign(number);
    let Some(read) = read_coefficient(unsigned) else {
        return Err(DecimalError::TooManyDigits);
    };
    if read.digits == 0 {
        return Ok(Decimal {
            negative: false,
            digits: 0,
            exponent: 0,
        });
    }
    let Some(power) = power_of(read.exponent) else {
        return Err(DecimalError::ExponentOutOfRange);
    };
    match shifted(power, read.zeros, read.places) {
        Some(exponent) => Ok(Decimal {
            negative,
            digits: read.digits,
            exponent,
        }),
        None => Err(DecimalError::ExponentOutOfRange),
    }
}
