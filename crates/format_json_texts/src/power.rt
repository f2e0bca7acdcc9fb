//! The power of ten of a number.

ghost use Rattle.format_json_texts.specs.NumberParts.{IsExponent};
ghost use Rattle.std.specs.Int.{w32, w128};
ghost use Rattle.std.specs.Option.{SomeIff};
ghost use Rattle.std.specs.Prelude.{◌+ℤ◌, ◌-ℤ◌, FitsSigned, pos, ℤ};

/// The power of ten that an exponent says, from its letter on; none where it does not fit.
#[inline]
pub(crate) fn power_of(exponent: &[u8]) -> Option<i128>
    ensures { (power : ℤ) → IsExponent exponent.now power
        → SomeIff result (FitsSigned w128 power) power }
{
    let Some((_, text)) = exponent.split_first() else {
        return Some(0);
    };
    match str::from_utf8(text) {
        Ok(text) => text.parse::<i128>().ok(),
        Err(_) => None,
    }
}

/// The power with zeros more and places less; none where it does not fit.
#[inline]
pub(crate) fn shifted(power: i128, zeros: u64, places: u64) -> Option<i32>
    ensures { SomeIff result (FitsSigned w32 (power +ℤ pos zeros -ℤ pos places))
        (power +ℤ pos zeros -ℤ pos places) }
{
    let shift = i128::from(zeros) - i128::from(places);
    i32::try_from(power.checked_add(shift)?).ok()
}
