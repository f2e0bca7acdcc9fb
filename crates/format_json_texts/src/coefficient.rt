//! The digits of a number, before and after the decimal point.

ghost use Rattle.format_json_texts.specs.NumberParts.{IsWritten, Number};
ghost use Rattle.format_json_texts.specs.Digits.{IsReduced, IsTooLong};
ghost use Rattle.std.specs.Prelude.{◌≡◌, ◌++◌, List, MatchOption, length, ℕ};
ghost use Rattle.std.specs.Str.Parse.{digits_value};

use crate::digits::{Significand, push_digits};

/// All digits of a number as one integer, and the bytes after them.
#[derive(Drop)]
pub(crate) struct Coefficient<'i> {
    /// The integer, without the zeros at its end.
    pub(crate) digits: u64,
    /// How many zeros these are.
    pub(crate) zeros: u64,
    /// The number of digits after the decimal point.
    pub(crate) places: u64,
    /// The exponent, from its letter on; empty where there is none.
    pub(crate) exponent: &'i [u8],
}

/// Reads the digits of a number, from after its sign; returns `None` if they do not fit.
#[inline]
pub(crate) fn read_coefficient<'i>(unsigned: &'i [u8]) -> Option<Coefficient<'i>>
    ensures { (text : List ℕ) (n : Number) (is : IsWritten text n)
        → unsigned.now ≡ n.whole ++ (is.point ++ is.exponent)
        → MatchOption result (IsTooLong (digits_value 10 (n.whole ++ n.fraction)))
        (λ read. (read.exponent.now ≡ is.exponent) × (read.places ≡ length n.fraction)
        × IsReduced (digits_value 10 (n.whole ++ n.fraction)) read.digits read.zeros) }
{
    let none = Significand {
        digits: 0,
        zeros: 0,
    };
    let (whole, rest) = push_digits(none, unsigned)?;
    match rest.split_first() {
        Some((first, digits)) => {
            if *first == b'.' {
                let (all, exponent) = push_digits(whole, digits)?;
                return Some(Coefficient {
                    digits: all.digits,
                    zeros: all.zeros,
                    places: (digits.len() - exponent.len()) as u64,
                    exponent,
                });
            }
        }
        None => {}
    }
    Some(Coefficient {
        digits: whole.digits,
        zeros: whole.zeros,
        places: 0,
        exponent: rest,
    })
}
