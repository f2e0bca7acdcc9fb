//! Decimal signed numbers.
ghost use Rattle.std.specs.Prelude.{⊤, ◌≡◌, ℤ, FitsSigned, IfSome, MatchOption};
ghost use Rattle.std.specs.Int.{w8, w16, w32, w64, w128};
ghost use Rattle.std.specs.Str.{IsUtf8};
ghost use Rattle.stream_errors.specs.Form.{answer_by};
ghost use Rattle.streams.specs.Input.{IsEndOf};
ghost use Rattle.parser_definitions.specs.Does.{Ran};
ghost use Rattle.parser_definitions.specs.Number.{DecIntDoes};
ghost use Rattle.winnow_numbers.specs.DecimalText.{ReadsSigned};
ghost use Rattle.winnow_numbers.specs.Numeral.{PassesSigned, SignedBy};

use crate::ascii::digits::small_numeral;
use crate::ascii::numeral::{first_sign, take_numeral};
use std::str;
use stream_errors::parser_error::ParserError;
use stream_sets::as_bstr::{AsBStr, SlicesAsBytes};
use stream_sets::as_char::AsChar;
use streams::stream::StreamIsPartial;

/// The signed numbers that [`dec_int`] parses.
///
/// ```
/// assert_eq!(rt; <i8 as Int>::try_from_dec_int("-128"), Some(-128));
/// assert_eq!(rt; <i8 as Int>::try_from_dec_int("128"), None);
/// ```
pub trait Int: Sized {
    // The number of a value.
    ghost number: { Self → ℤ };

    // Whether a number fits.
    ghost fits: { ℤ → Type 0 };

    /// Parses digits, optionally after a `+` or a `-`, by the type's `FromStr`. Returns `None` if
    /// and only if the text is something else, or the number does not fit.
    fn try_from_dec_int(slice: &str) -> Option<Self>
        ensures { ReadsSigned number fits slice.now result };

    /// The value of a number, `None` if and only if it does not fit.
    fn try_from_number(value: i64) -> Option<Self>
        ensures { MatchOption result (fits value → ⊥)
            (λ n. fits value × (number n ≡ value)) };
}

impl Int for i8 {
    ghost number = { λ n. n };

    ghost fits = { λ n. FitsSigned w8 n };

    #[inline(always)]
    fn try_from_dec_int(slice: &str) -> Option<i8> {
        slice.parse().ok()
    }

    #[inline(always)]
    fn try_from_number(value: i64) -> Option<i8> {
        if value >= i8::MIN as i64 && value <= i8::MAX as i64 {
            Some(value as i8)
        } else {
            None
        }
    }
}

impl Int for i16 {
    ghost number = { λ n. n };

    ghost fits = { λ n. FitsSigned w16 n };

    #[inline(always)]
    fn try_from_dec_int(slice: &str) -> Option<i16> {
        slice.parse().ok()
    }

    #[inline(always)]
    fn try_from_number(value: i64) -> Option<i16> {
        if value >= i16::MIN as i64 && value <= i16::MAX as i64 {
            Some(value as i16)
        } else {
            None
        }
    }
}

impl Int for i32 {
    ghost number = { λ n. n };

    ghost fits = { λ n. FitsSigned w32 n };

    #[inline(always)]
    fn try_from_dec_int(slice: &str) -> Option<i32> {
        slice.parse().ok()
    }

    #[inline(always)]
    fn try_from_number(value: i64) -> Option<i32> {
        if value >= i32::MIN as i64 && value <= i32::MAX as i64 {
            Some(value as i32)
        } else {
            None
        }
    }
}

impl Int for i64 {
    ghost number = { λ n. n };

    ghost fits = { λ n. FitsSigned w64 n };

    #[inline(always)]
    fn try_from_dec_int(slice: &str) -> Option<i64> {
        slice.parse().ok()
    }

    #[inline(always)]
    fn try_from_number(value: i64) -> Option<i64> {
        Some(value)
    }
}

impl Int for i128 {
    ghost number = { λ n. n };

    ghost fits = { λ n. FitsSigned w128 n };

    #[inline(always)]
    fn try_from_dec_int(slice: &str) -> Option<i128> {
        slice.parse().ok()
    }

    #[inline(always)]
    fn try_from_number(value: i64) -> Option<i128> {
        Some(value as i128)
    }
}

impl Int for isize {
    ghost number = { λ n. n };

    ghost fits = { λ n. FitsSigned w64 n };

    #[inline(always)]
    fn try_from_dec_int(slice: &str) -> Option<isize> {
        slice.parse().ok()
    }

    #[inline(always)]
    fn try_from_number(value: i64) -> Option<isize> {
        Some(value as isize)
    }
}

/// Parses a decimal signed number: one `0`; or a digit from 1 to 9 and all digits after it, which a
/// `+` or a `-` may precede.
///
/// Backtracks without consuming input if the input does not start with such digits, or if the
/// number does not fit the type.
///
/// It is incomplete on partial input that has nothing after an optional sign, or that ends in the
/// digits of a number that does not begin with `0`. The sign and the first digit that are there
/// are consumed. The need is 1 unit. With an error type without a mode it backtracks instead, and
/// consumes nothing.
///
/// Known as `i8` to `i128` of `character::complete` in nom.
///
/// ```
/// let mut input = "-12;";
/// assert_eq!(rt; dec_int::<_, i8, _>(&mut input), Ok::<_, EmptyError>(-12));
/// assert_eq!(rt; input, ";");
/// let mut input = "-0";
/// let answer: Result<_, ErrMode<EmptyError>> = dec_int::<_, i8, _>(&mut input);
/// assert!(rt; matches!(answer, Err(ErrMode::Backtrack(_))));
/// assert_eq!(rt; input, "-0");
/// let mut input = "128";
/// let answer: Result<_, ErrMode<EmptyError>> = dec_int::<_, i8, _>(&mut input);
/// assert!(rt; matches!(answer, Err(ErrMode::Backtrack(_))));
/// assert_eq!(rt; input, "128");
/// ```
#[inline(always)]
pub fn dec_int<Input, Output, Error>(input: &mut Input) -> Result<Output, Error>
where
    Input: StreamIsPartial + SlicesAsBytes,
    Input::Token: AsChar,
    Input::Slice: AsBStr,
    Output: Int,
    Error: ParserError<Input>,
    ensures ran { Ran {S = ⊤} Input.reading (DecIntDoes Output.number Output.fits
        Input.seen_as Input.Token.code Input.reading) Error.form tt (Input.view input.old)
        (answer_by Error.kind result) tt (Input.view input.new) }
{
    let start = input.checkpoint();
    if let Some(number) = small_int(input) {
        if let Some(number) = Output::try_from_number(number) {
            return Ok(number);
        }
    }
    input.reset(&start);
    any_int(input)
}

/// Passes the numeral at the start, with its sign, and returns its number. It may return `None`,
/// and leave the input anywhere, if there is no numeral, if it has many digits, or if partial input
/// ends in it.
#[inline(always)]
fn small_int<I: StreamIsPartial + SlicesAsBytes>(input: &mut I) -> Option<i64>
where
    I::Token: AsChar,
    I::Slice: AsBStr,
    ensures ran { IfSome result (PassesSigned I.seen_as I.Token.code I.reading
        (I.view input.old) (I.view input.new)) }
    ensures status { (I.view input.new).status ≡ (I.view input.old).status }
    ensures ends { IsEndOf I.reading (I.view input.new) (I.view input.old) }
{
    let sign = first_sign(input);
    let number = small_numeral(input)?;
    with_sign(sign, number)
}

/// Returns the number after a sign, or without one. Returns `None` if that is above `i64::MAX`, or
/// is 0 after a sign.
#[inline(always)]
fn with_sign(sign: Option<char>, number: u64) -> Option<i64>
    ensures { IfSome result (λ z. SignedBy sign number z) }
{
    if number > i64::MAX as u64 {
        return None;
    }
    let number = number as i64;
    match sign {
        None => Some(number),
        Some(_) if number == 0 => None,
        Some('-') => Some(-number),
        Some(_) => Some(number),
    }
}

/// A decimal signed number, by the slice of its numeral.
#[inline(never)]
fn any_int<I, N, E>(input: &mut I) -> Result<N, E>
where
    I: StreamIsPartial + SlicesAsBytes,
    I::Token: AsChar,
    I::Slice: AsBStr,
    N: Int,
    E: ParserError<I>,
    ensures ran { Ran {S = ⊤} I.reading (DecIntDoes N.number N.fits I.seen_as I.Token.code
        I.reading) E.form tt (I.view input.old) (answer_by E.kind result) tt (I.view input.new) }
{
    let start = input.checkpoint();
    match take_numeral::<I, E>(input, true) {
        Ok(slice) => match int_of::<I::Slice, N>(&slice) {
            Some(number) => Ok(number),
            None => {
                input.reset(&start);
                Err(E::from_input(input))
            }
        },
        Err(error) => Err(error),
    }
}

/// The number that a slice is read as.
#[inline(always)]
fn int_of<S: AsBStr, N: Int>(slice: &S) -> Option<N>
    requires { IsUtf8 (S.bytes slice.now) }
    ensures { ReadsSigned N.number N.fits (S.bytes slice.now) result }
{
    match str::from_utf8(slice.as_bstr()) {
        Ok(text) => N::try_from_dec_int(text),
        Err(_) => None,
    }
}
