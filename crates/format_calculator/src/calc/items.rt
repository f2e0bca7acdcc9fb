//! The items of a formula: numbers and operators, each with the whitespace after it.
ghost use Rattle.std.specs.Prelude.{◌≡◌, ℕ, pos, ◌+◌, ◌*◌, ◌<◌, MatchBool, MatchOption};
ghost use Rattle.std.specs.Str.{chars};
ghost use Rattle.format_calculator.specs.Calculator.{AnswersItem, CharItem, IsDigitTaken};
ghost use Rattle.format_calculator.specs.Calculator.{NumberItem};
ghost use Rattle.format_calculator.specs.Calculator.{StandsFor, StopsAt, TakesOne, behind};
ghost use Rattle.format_calculator.specs.Calculator.{is_digit};
ghost use Rattle.format_calculator.specs.Calculator.{is_white, mark_at, number_from, pair_at};
ghost use Rattle.format_calculator.specs.Calculator.{sign_at};

use crate::calc::operators::{Mark, Pair, Sign, mark_of, pair_of, sign_of};
use streams::stream::Stream;
use winnow_expression::combinator::{Infix, Postfix, Prefix};

/// Takes a digit, if one comes first.
fn digit(input: &mut &str) -> Option<i64>
    ensures { MatchOption result
        (StopsAt is_digit (chars input.old.now) × (chars input.new.now ≡ chars input.old.now))
        (λ d. IsDigitTaken (chars input.old.now) d (chars input.new.now)) }
{
    let start = *input;
    match input.next_token() {
        Some(c) => {
            let code = u32::from(c);
            if code >= 48 && code <= 57 {
                Some(i64::from(code - 48))
            } else {
                *input = start;
                None
            }
        }
        None => None,
    }
}

/// Takes a whitespace character, if one comes first.
fn space(input: &mut &str) -> bool
    ensures { MatchBool result (TakesOne is_white (chars input.old.now) (chars input.new.now))
        (StopsAt is_white (chars input.old.now) × (chars input.new.now ≡ chars input.old.now)) }
{
    let start = *input;
    match input.next_token() {
        Some(c) => {
            if c == ' ' || c == '\t' || c == '\n' || c == '\r' {
                true
            } else {
                *input = start;
                false
            }
        }
        None => false,
    }
}

/// Takes all whitespace that comes first.
pub(super) fn white(input: &mut &str)
    ensures { chars input.new.now ≡ behind is_white (chars input.old.now) }
{
    'spaces: while space(input) {}
}

/// Takes an operator before an operand and the whitespace after it.
pub(super) fn read_sign(input: &mut &str) -> Option<Prefix<Sign>>
    ensures { AnswersItem (CharItem sign_at) (chars input.old.now) result (chars input.new.now) }
{
    let start = *input;
    match input.next_token() {
        Some(c) => match sign_of(c) {
            Some(operator) => {
                white(input);
                Some(operator)
            }
            None => {
                *input = start;
                None
            }
        },
        None => None,
    }
}

/// Takes an operator after an operand and the whitespace after it.
pub(super) fn read_mark(input: &mut &str) -> Option<Postfix<Mark>>
    ensures { AnswersItem (CharItem mark_at) (chars input.old.now) result (chars input.new.now) }
{
    let start = *input;
    match input.next_token() {
        Some(c) => match mark_of(c) {
            Some(operator) => {
                white(input);
                Some(operator)
            }
            None => {
                *input = start;
                None
            }
        },
        None => None,
    }
}

/// Takes an operator between two operands and the whitespace after it.
pub(super) fn read_pair(input: &mut &str) -> Option<Infix<Pair>>
    ensures { AnswersItem (CharItem pair_at) (chars input.old.now) result (chars input.new.now) }
{
    let start = *input;
    match input.next_token() {
        Some(c) => match pair_of(c) {
            Some(operator) => {
                white(input);
                Some(operator)
            }
            None => {
                *input = start;
                None
            }
        },
        None => None,
    }
}

/// The number with one digit more, where it fits.
fn with_digit(value: Option<i64>, digit: i64) -> Option<i64>
    ensures { (n k : ℕ) → StandsFor value n → digit ≡ pos k → k < 10
        → StandsFor result (10 * n + k) }
{
    match value {
        Some(value) => match value.checked_mul(10) {
            Some(tens) => tens.checked_add(digit),
            None => None,
        },
        None => None,
    }
}

/// Takes the digits that come first, as a number where it fits, after a first digit.
fn digits(input: &mut &str, first: i64) -> Option<i64>
    ensures rest { chars input.new.now ≡ behind is_digit (chars input.old.now) }
    ensures value { (k : ℕ) → first ≡ pos k → k < 10
        → StandsFor result (number_from k (chars input.old.now)) }
{
    let mut value = Some(first);
    'digits: while let Some(next) = digit(input) {
        value = with_digit(value, next);
    }
    value
}

/// Takes a number and the whitespace after it.
pub(super) fn read_number(input: &mut &str) -> Option<i64>
    ensures { AnswersItem NumberItem (chars input.old.now) result (chars input.new.now) }
{
    let start = *input;
    match digit(input) {
        Some(first) => match digits(input, first) {
            Some(value) => {
                white(input);
                Some(value)
            }
            None => {
                *input = start;
                None
            }
        },
        None => None,
    }
}
