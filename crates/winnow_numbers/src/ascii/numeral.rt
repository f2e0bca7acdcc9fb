//! Decimal numerals, as slices of the input.
ghost use Rattle.std.specs.Prelude.{⊤, ◌≡◌, ℕ, List, MatchResult, Some, true, ◌⊎◌};
ghost use Rattle.streams.specs.Input.{IsEndOf};
ghost use Rattle.streams.specs.Kind.{backtrack};
ghost use Rattle.stream_errors.specs.Form.{answer_by, incomplete_kind};
ghost use Rattle.parser_definitions.specs.Does.{Ran};
ghost use Rattle.parser_definitions.specs.Left.{left_of};
ghost use Rattle.parser_definitions.specs.Numeral.{HasDigits, HasNoDigits, HasSign, LacksMore};
ghost use Rattle.parser_definitions.specs.Numeral.{is_none};
ghost use Rattle.parser_definitions.specs.Outcome.{setting_of};
ghost use Rattle.winnow_numbers.specs.Numeral.{NumeralDoes, sign_of};

use stream_errors::parser_error::ParserError;
use stream_sets::as_char::AsChar;
use streams::needed::Needed;
use streams::stream::{Stream, StreamIsPartial};
use winnow_ascii::ascii::digit0;
use winnow_core::short::short;

/// Takes the numeral at the start, with its sign if one is allowed, and returns its slice.
#[inline(always)]
pub(crate) fn take_numeral<I: StreamIsPartial, E: ParserError<I>>(
    input: &mut I,
    signed: bool,
) -> Result<I::Slice, E>
where
    I::Token: AsChar,
    ensures ran { Ran {S = ⊤} I.reading (NumeralDoes I.seen_as I.Token.code I.reading signed)
        E.form tt (I.view input.old) (answer_by E.kind result) tt (I.view input.new) }
{
    let start = input.checkpoint();
    let zero = pass_sign(input, signed);
    match pass_digits::<I, E>(input, zero) {
        Ok(()) => {
            let length = input.offset_from(&start);
            input.reset(&start);
            Ok(input.next_slice(length))
        }
        Err(error) => {
            if !error.is_backtrack() {
                return Err(error);
            }
            input.reset(&start);
            Err(error)
        }
    }
}

/// Passes a sign at the start, if one is allowed, and returns whether there is no sign.
#[inline(always)]
fn pass_sign<I: Stream>(input: &mut I, signed: bool) -> bool
where
    I::Token: AsChar,
    ensures ran { (sign : List ℕ) × HasSign I.seen_as I.Token.code I.reading signed
        (left_of (I.view input.old)) sign (left_of (I.view input.new))
        × (result ≡ is_none sign) }
    ensures status { (I.view input.new).status ≡ (I.view input.old).status }
    ensures ends { IsEndOf I.reading (I.view input.new) (I.view input.old) }
{
    if !signed {
        return true;
    }
    match first_sign(input) {
        None => true,
        Some(_) => false,
    }
}

/// Passes a sign at the start, and returns it.
#[inline(always)]
pub(crate) fn first_sign<I: Stream>(input: &mut I) -> Option<char>
where
    I::Token: AsChar,
    ensures ran { HasSign I.seen_as I.Token.code I.reading true (left_of (I.view input.old))
        (sign_of result) (left_of (I.view input.new)) }
    ensures status { (I.view input.new).status ≡ (I.view input.old).status }
    ensures ends { IsEndOf I.reading (I.view input.new) (I.view input.old) }
{
    let start = input.checkpoint();
    match input.next_token() {
        None => None,
        Some(token) => {
            let character = token.as_char();
            if character == '+' || character == '-' {
                return Some(character);
            }
            input.reset(&start);
            None
        }
    }
}

/// Passes a digit from 1 to 9 and the digits after it, or a zero if it is allowed. Without these
/// the input is left after the tokens that were tested.
#[inline(always)]
fn pass_digits<I: StreamIsPartial, E: ParserError<I>>(input: &mut I, zero: bool) -> Result<(), E>
where
    I::Token: AsChar,
    ensures ran { MatchResult result
        (λ _. (digits : List ℕ) × HasDigits I.seen_as I.Token.code I.reading zero
        (setting_of E.form (I.view input.old)) (left_of (I.view input.old)) digits
        (left_of (I.view input.new)))
        (λ error.
        (LacksMore I.seen_as I.Token.code I.reading (left_of (I.view input.old))
        (left_of (I.view input.new)) × ((I.view input.old).status.cut ≡ true)
        × (E.kind error ≡ incomplete_kind E.form (Some 1)))
        ⊎ (HasNoDigits I.seen_as I.Token.code zero (setting_of E.form (I.view input.old))
        (left_of (I.view input.old)) × (E.kind error ≡ backtrack))) }
    ensures status { (I.view input.new).status ≡ (I.view input.old).status }
    ensures ends { IsEndOf I.reading (I.view input.new) (I.view input.old) }
{
    match input.next_token() {
        None => Err(short(input, Needed::new(1))),
        Some(token) => match token.as_char() {
            '1'..='9' => match digit0::<I, E>(input) {
                Ok(_) => Ok(()),
                Err(error) => Err(error),
            },
            '0' if zero => Ok(()),
            _ => Err(E::from_input(input)),
        },
    }
}
