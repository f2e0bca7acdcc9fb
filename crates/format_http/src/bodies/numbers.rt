//! The numbers of digits.
#![tactic(auto)]

ghost use Rattle.std.specs.Char.{digit_value};
ghost use Rattle.std.specs.Option.{SomeIff};
ghost use Rattle.std.specs.Prelude.{◌≡◌, ◌^◌, ◌<◌, ◌≤◌};
ghost use Rattle.parser_definitions.specs.Digits.{value_in};

/// Returns the value of a digit or a letter, from 0 for '0' to 35 for 'Z' and 'z'; 36 for any other
/// byte.
pub(crate) fn value_of(byte: u8) -> u64
    ensures { result ≡ digit_value byte }
{
    match char::from(byte).to_digit(36) {
        Some(value) => u64::from(value),
        None => 36,
    }
}

/// The number of digits in this base, or `None` if it does not fit in 64 bits.
#[inline(always)]
pub(crate) fn number_in(base: u64, digits: &[u8]) -> Option<u64>
    requires { 1 ≤ base }
    ensures { SomeIff result (value_in base digits.now < 2 ^ 64) (value_in base digits.now) }
{
    let mut number = 0_u64;
    for digit in digits {
        number = number.checked_mul(base)?.checked_add(value_of(*digit))?;
    }
    Some(number)
}
