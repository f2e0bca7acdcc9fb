//! The arithmetic of the operators, within 64 bits.
ghost use Rattle.std.specs.Prelude.{◌<◌, ◌^◌};
ghost use Rattle.std.specs.Option.{SomeIff};
ghost use Rattle.format_calculator.specs.Calculator.{GivesOption, IsPower, IsUnitPower};
ghost use Rattle.format_calculator.specs.Calculator.{factorial, mark_value, pair_value, sign_value};

use crate::calc::operators::{Mark, Pair, Sign};

/// The factorial of a number, where 64 bits hold it.
fn factorial_within(number: u64) -> Option<u64>
    ensures { SomeIff result (factorial number < 2 ^ 64) (factorial number) }
{
    let mut product: u64 = 1;
    let mut factor: u64 = 0;
    'factors: while factor < number {
        factor += 1;
        match product.checked_mul(factor) {
            Some(next) => product = next,
            None => return None,
        }
    }
    Some(product)
}

/// The factorial of a number that is not negative, where it fits.
pub(super) fn factorial_of(number: i64) -> Option<i64>
    ensures { GivesOption (mark_value Mark.Factorial number) result }
{
    match u64::try_from(number) {
        Ok(number) => match factorial_within(number) {
            Some(product) => i64::try_from(product).ok(),
            None => None,
        },
        Err(_) => None,
    }
}

/// A power of 0, 1 or -1.
fn unit_power(base: i64, exponent: u64) -> Option<i64>
    ensures { GivesOption (IsUnitPower base exponent) result }
{
    if base == 0 {
        return Some(0);
    }
    if base == 1 {
        return Some(1);
    }
    if base != -1 {
        return None;
    }
    if exponent % 2 == 0 { Some(1) } else { Some(-1) }
}

/// A power, where it fits.
fn power_of(base: i64, exponent: i64) -> Option<i64>
    ensures { GivesOption (IsPower base exponent) result }
{
    match u64::try_from(exponent) {
        Ok(number) => match u32::try_from(number) {
            Ok(number) => base.checked_pow(number),
            Err(_) => unit_power(base, number),
        },
        Err(_) => None,
    }
}

/// Applies an operator before an operand.
pub(super) fn signed(sign: Sign, operand: i64) -> Option<i64>
    ensures { GivesOption (sign_value sign operand) result }
{
    match sign {
        Sign::Positive => Some(operand),
        Sign::Negative => operand.checked_neg(),
    }
}

/// Applies an operator between two operands.
pub(super) fn joined(pair: Pair, left: i64, right: i64) -> Option<i64>
    ensures { GivesOption (pair_value pair left right) result }
{
    match pair {
        Pair::Plus => left.checked_add(right),
        Pair::Minus => left.checked_sub(right),
        Pair::Times => left.checked_mul(right),
        Pair::Over => left.checked_div(right),
        Pair::Rest => left.checked_rem(right),
        Pair::Power => power_of(left, right),
        Pair::Equals => { if left == right { Some(1) } else { Some(0) } }
    }
}
