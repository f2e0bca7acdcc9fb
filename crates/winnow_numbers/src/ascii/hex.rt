//! Hexadecimal numbers.
ghost use Rattle.std.specs.Prelude.{⊤, ◌≡◌, ◌+◌, ◌*◌, ◌<◌, ◌≤◌, [], length, true, false};
ghost use Rattle.std.specs.Bool.{MatchBool};
ghost use Rattle.std.specs.Char.{digit_value};
ghost use Rattle.std.specs.List.{AllByRecursion};
ghost use Rattle.stream_errors.specs.Form.{answer_by};
ghost use Rattle.stream_sets.specs.AsChar.{IsHexDigit};
ghost use Rattle.parser_definitions.specs.Does.{Ran};
ghost use Rattle.parser_definitions.specs.Digits.{NoneFirst, SomeFirst, value_in};
ghost use Rattle.parser_definitions.specs.HexUint.{HexUintDoes};

use crate::ascii::impls::hex_uint::HexUint;
use crate::ascii::impls::hex_uint::sealed::SealedMarker;
use stream_errors::parser_error::ParserError;
use stream_sets::as_bstr::{AsBStr, SlicesAsBytes};
use stream_sets::as_char::AsChar;
use stream_sets::classes::HexadecimalDigits;
use streams::needed::Needed;
use streams::stream::{Stream, StreamIsPartial};
use winnow_core::parser::Parser;
use winnow_token::token::take_while;

/// Parses a hexadecimal number: the longest prefix of hexadecimal digits, in either case.
///
/// Backtracks without consuming input if the input does not start with such a digit, or starts with
/// more of them than the type holds. If partial input has only digits, possibly none, and at most
/// as many as the type holds, it is incomplete with a need of 1 unit, and consumes nothing.
///
/// ```
/// let mut input = "fA;";
/// assert_eq!(rt; hex_uint::<_, u8, _>(&mut input), Ok::<_, EmptyError>(0xFA));
/// assert_eq!(rt; input, ";");
/// let mut input = "fff";
/// let answer: Result<_, ErrMode<EmptyError>> = hex_uint::<_, u8, _>(&mut input);
/// assert!(rt; matches!(answer, Err(ErrMode::Backtrack(_))));
/// assert_eq!(rt; input, "fff");
/// ```
#[inline(always)]
pub fn hex_uint<Input, Output, Error>(input: &mut Input) -> Result<Output, Error>
where
    Input: StreamIsPartial + SlicesAsBytes,
    Input::Token: AsChar,
    Input::Slice: AsBStr,
    Output: HexUint,
    Error: ParserError<Input>,
    ensures ran { Ran {S = ⊤} Input.reading (HexUintDoes Output.number Output.nibbles
        Input.seen_as Input.Token.code Input.reading) Error.form tt (Input.view input.old)
        (answer_by Error.kind result) tt (Input.view input.new) }
{
    let start = input.checkpoint();
    let most = Output::max_nibbles(SealedMarker);
    let mut digits = take_while::<_, Input, Error, _>(1..=most, HexadecimalDigits);
    match digits.parse_next(input) {
        Ok(slice) => {
            let bytes = slice.as_bstr();
            let full = bytes.len() == most;
            if overflows(input, full) {
                input.reset(&start);
                return Err(Error::from_input(input));
            }
            if may_overflow(input, full) {
                input.reset(&start);
                return Err(Error::incomplete(input, Needed::new(1)));
            }
            Ok(number_of(bytes))
        }
        Err(error) => Err(error),
    }
}

/// Whether a type that is full is followed by another hexadecimal digit; nothing is consumed.
#[inline(always)]
fn overflows<I: Stream>(input: &mut I, full: bool) -> bool
where
    I::Token: AsChar,
    ensures kept { I.view input.new ≡ I.view input.old }
    ensures tells { MatchBool result
        ((full ≡ true)
        × SomeFirst I.seen_as I.Token.code IsHexDigit (I.view input.old).left.tokens)
        (full ≡ true
        → NoneFirst I.seen_as I.Token.code IsHexDigit (I.view input.old).left.tokens) }
{
    if !full {
        return false;
    }
    let place = input.checkpoint();
    let follows = match input.next_token() {
        None => false,
        Some(token) => token.is_hex_digit(),
    };
    input.reset(&place);
    follows
}

/// Returns whether another hexadecimal digit may follow those of a type that is full, since partial
/// input ends after them.
#[inline(always)]
fn may_overflow<I: StreamIsPartial>(input: &I, full: bool) -> bool
    ensures { MatchBool result
        ((full ≡ true) × ((I.view input.now).left.tokens ≡ [])
        × ((I.view input.now).status.cut ≡ true))
        (full ≡ true → (I.view input.now).left.tokens ≡ []
        → (I.view input.now).status.cut ≡ false) }
{
    if !full {
        return false;
    }
    if !input.is_partial() {
        return false;
    }
    input.eof_offset() == 0
}

/// The number that hexadecimal digits stand for.
#[inline(always)]
fn number_of<N: HexUint>(bytes: &[u8]) -> N
    requires digits { AllByRecursion IsHexDigit bytes.now }
    requires few { length bytes.now ≤ N.nibbles }
    ensures { N.number result ≡ value_in 16 bytes.now }
{
    let mut number = N::default();
    for byte in bytes {
        number = number.push_nibble(nibble_of(*byte));
    }
    number
}

/// The value of a hexadecimal digit.
#[inline(always)]
fn nibble_of(byte: u8) -> u8
    requires { IsHexDigit byte }
    ensures value { result ≡ digit_value byte }
    ensures digit { result < 16 }
{
    if byte <= b'9' {
        byte - b'0'
    } else if byte <= b'F' {
        byte - b'A' + 10
    } else {
        byte - b'a' + 10
    }
}
