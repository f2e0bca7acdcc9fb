//! Decimal unsigned numbers.
ghost use Rattle.std.specs.Prelude.{⊤, ◌≡◌, ◌<◌, ◌≤◌, ◌^◌, ℕ, MatchOption};
ghost use Rattle.std.specs.Str.{IsUtf8};
ghost use Rattle.stream_errors.specs.Form.{answer_by};
ghost use Rattle.parser_definitions.specs.Does.{Ran};
ghost use Rattle.parser_definitions.specs.Number.{DecUintDoes};
ghost use Rattle.winnow_numbers.specs.DecimalText.{ReadsUnsigned};

use crate::ascii::digits::small_numeral;
use crate::ascii::numeral::take_numeral;
use std::str;
use stream_errors::parser_error::ParserError;
use stream_sets::as_bstr::{AsBStr, SlicesAsBytes};
use stream_sets::as_char::AsChar;
use streams::stream::StreamIsPartial;

/// The unsigned numbers that [`dec_uint`] parses.
///
/// ```
/// assert_eq!(rt; <u8 as Uint>::try_from_dec_uint("255"), Some(255));
/// assert_eq!(rt; <u8 as Uint>::try_from_dec_uint("256"), None);
/// ```
pub trait Uint: Sized {
    // The number of a value.
    ghost number: { Self → ℕ };

    // The least number that does not fit.
    ghost bound: { ℕ };

    /// Parses digits, optionally after a `+`, by the type's `FromStr`. Returns `None` if and only
    /// if the text is something else, or the number does not fit.
    fn try_from_dec_uint(slice: &str) -> Option<Self>
        ensures { ReadsUnsigned number bound slice.now result };

    /// The value of a number, `None` if and only if it does not fit.
    fn try_from_number(value: u64) -> Option<Self>
        ensures { MatchOption result (bound ≤ value)
            (λ n. (value < bound) × (number n ≡ value)) };
}

impl Uint for u8 {
    ghost number = { λ n. n };

    ghost bound = { 2 ^ 8 };

    #[inline(always)]
    fn try_from_dec_uint(slice: &str) -> Option<u8> {
        slice.parse().ok()
    }

    #[inline(always)]
    fn try_from_number(value: u64) -> Option<u8> {
        if value <= u8::MAX as u64 {
            Some(value as u8)
        } else {
            None
        }
    }
}

impl Uint for u16 {
    ghost number = { λ n. n };

    ghost bound = { 2 ^ 16 };

    #[inline(always)]
    fn try_from_dec_uint(slice: &str) -> Option<u16> {
        slice.parse().ok()
    }

    #[inline(always)]
    fn try_from_number(value: u64) -> Option<u16> {
        if value <= u16::MAX as u64 {
            Some(value as u16)
        } else {
            None
        }
    }
}

impl Uint for u32 {
    ghost number = { λ n. n };

    ghost bound = { 2 ^ 32 };

    #[inline(always)]
    fn try_from_dec_uint(slice: &str) -> Option<u32> {
        slice.parse().ok()
    }

    #[inline(always)]
    fn try_from_number(value: u64) -> Option<u32> {
        if value <= u32::MAX as u64 {
            Some(value as u32)
        } else {
            None
        }
    }
}

impl Uint for u64 {
    ghost number = { λ n. n };

    ghost bound = { 2 ^ 64 };

    #[inline(always)]
    fn try_from_dec_uint(slice: &str) -> Option<u64> {
        slice.parse().ok()
    }

    #[inline(always)]
    fn try_from_number(value: u64) -> Option<u64> {
        Some(value)
    }
}

impl Uint for u128 {
    ghost number = { λ n. n };

    ghost bound = { 2 ^ 128 };

    #[inline(always)]
    fn try_from_dec_uint(slice: &str) -> Option<u128> {
        slice.parse().ok()
    }

    #[inline(always)]
    fn try_from_number(value: u64) -> Option<u128> {
        Some(value as u128)
    }
}

impl Uint for usize {
    ghost number = { λ n. n };

    ghost bound = { 2 ^ 64 };

    #[inline(always)]
    fn try_from_dec_uint(slice: &str) -> Option<usize> {
        slice.parse().ok()
    }

    #[inline(always)]
    fn try_from_number(value: u64) -> Option<usize> {
        Some(value as usize)
    }
}

/// Parses a decimal unsigned number: one `0`, or a digit from 1 to 9 and all digits after it.
///
/// Backtracks without consuming input if the input does not start with a digit, or if the number
/// does not fit the type.
///
/// On partial input that is empty it is incomplete, and consumes nothing. On partial input that
/// ends in the digits of a number that does not begin with `0` it is incomplete, and the first
/// digit is consumed. The need is 1 unit. With an error type without a mode it backtracks instead,
/// and consumes nothing.
///
/// Known as `u8` to `u128` of `character::complete` in nom.
///
/// ```
/// let mut input = "12;";
/// assert_eq!(rt; dec_uint::<_, u8, _>(&mut input), Ok::<_, EmptyError>(12));
/// assert_eq!(rt; input, ";");
/// let mut input = "01";
/// assert_eq!(rt; dec_uint::<_, u8, _>(&mut input), Ok::<_, EmptyError>(0));
/// assert_eq!(rt; input, "1");
/// let mut input = "256";
/// let answer: Result<_, ErrMode<EmptyError>> = dec_uint::<_, u8, _>(&mut input);
/// assert!(rt; matches!(answer, Err(ErrMode::Backtrack(_))));
/// assert_eq!(rt; input, "256");
/// ```
#[inline(always)]
pub fn dec_uint<Input, Output, Error>(input: &mut Input) -> Result<Output, Error>
where
    Input: StreamIsPartial + SlicesAsBytes,
    Input::Token: AsChar,
    Input::Slice: AsBStr,
    Output: Uint,
    Error: ParserError<Input>,
    ensures ran { Ran {S = ⊤} Input.reading (DecUintDoes Output.number Output.bound
        Input.seen_as Input.Token.code Input.reading) Error.form tt (Input.view input.old)
        (answer_by Error.kind result) tt (Input.view input.new) }
{
    let start = input.checkpoint();
    if let Some(number) = small_numeral(input) {
        if let Some(number) = Output::try_from_number(number) {
            return Ok(number);
        }
    }
    input.reset(&start);
    any_uint(input)
}

/// A decimal unsigned number, by the slice of its numeral.
#[inline(never)]
fn any_uint<I, N, E>(input: &mut I) -> Result<N, E>
where
    I: StreamIsPartial + SlicesAsBytes,
    I::Token: AsChar,
    I::Slice: AsBStr,
    N: Uint,
    E: ParserError<I>,
    ensures ran { Ran {S = ⊤} I.reading (DecUintDoes N.number N.bound I.seen_as I.Token.code
        I.reading) E.form tt (I.view input.old) (answer_by E.kind result) tt (I.view input.new) }
{
    let start = input.checkpoint();
    match take_numeral::<I, E>(input, false) {
        Ok(slice) => match uint_of::<I::Slice, N>(&slice) {
            Some(number) => Ok(number),
            None => {
                input.reset(&start);
                Err(E::from_input(input))
            }
        },
        Err(error) => Err(error),
    }
}

/// The number that a slice is read as.
#[inline(always)]
fn uint_of<S: AsBStr, N: Uint>(slice: &S) -> Option<N>
    requires { IsUtf8 (S.bytes slice.now) }
    ensures { ReadsUnsigned N.number N.bound (S.bytes slice.now) result }
{
    match str::from_utf8(slice.as_bstr()) {
        Ok(text) => N::try_from_dec_uint(text),
        Err(_) => None,
    }
}
