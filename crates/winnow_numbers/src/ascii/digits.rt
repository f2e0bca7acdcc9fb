//! The numbers of short numerals.
ghost use Rattle.std.specs.Prelude.{◌≡◌, ◌≤◌, ◌-◌, IfSome, ℕ, List, length};
ghost use Rattle.stream_sets.specs.AsChar.{IsDecDigit};
ghost use Rattle.streams.specs.Input.{IsEndOf};
ghost use Rattle.parser_definitions.specs.Digits.{value_in};
ghost use Rattle.winnow_numbers.specs.Lanes.{StartsWithNumeral};
ghost use Rattle.winnow_numbers.specs.Numeral.{PassesDigits};

use crate::ascii::lanes::first_numeral;
use stream_sets::as_bstr::{AsBStr, SlicesAsBytes};
use stream_sets::as_char::AsChar;
use streams::stream::StreamIsPartial;

// The greatest number after which any digit still fits 64 bits.
const MOST: u64 = 1_844_674_407_370_955_160;

/// Passes the numeral at the start, without a sign, and returns its number. It may return `None`,
/// and leave the input anywhere, if there is no numeral, if it has many digits, or if partial input
/// ends in it.
#[inline(always)]
pub(crate) fn small_numeral<I: StreamIsPartial + SlicesAsBytes>(input: &mut I) -> Option<u64>
where
    I::Token: AsChar,
    I::Slice: AsBStr,
    ensures ran { IfSome result (PassesDigits I.seen_as I.Token.code I.reading
        (I.view input.old) (I.view input.new)) }
    ensures status { (I.view input.new).status ≡ (I.view input.old).status }
    ensures ends { IsEndOf I.reading (I.view input.new) (I.view input.old) }
{
    match numeral_left(input) {
        Some((length, number)) => {
            input.next_slice(length);
            Some(number)
        }
        None => numeral_by_tokens(input),
    }
}

/// Returns the length in bytes of the digits of the numeral at the start, and its number. It may
/// return `None`. Consumes nothing.
#[inline(always)]
fn numeral_left<I: StreamIsPartial + SlicesAsBytes>(input: &mut I) -> Option<(usize, u64)>
where
    I::Token: AsChar,
    I::Slice: AsBStr,
    ensures begins { IfSome result (λ found. (digits rest : List ℕ)
        × StartsWithNumeral (I.bytes_of (I.view input.old).left.tokens) digits rest
        × (found.0 ≡ length digits) × (found.1 ≡ value_in 10 digits)) }
    ensures same { I.view input.new ≡ I.view input.old }
{
    let start = input.checkpoint();
    let left = input.finish();
    input.reset(&start);
    first_numeral(left.as_bstr())
}

/// The same as [`small_numeral`], in one pass over the tokens.
#[inline(always)]
fn numeral_by_tokens<I: StreamIsPartial>(input: &mut I) -> Option<u64>
where
    I::Token: AsChar,
    ensures ran { IfSome result (PassesDigits I.seen_as I.Token.code I.reading
        (I.view input.old) (I.view input.new)) }
    ensures status { (I.view input.new).status ≡ (I.view input.old).status }
    ensures ends { IsEndOf I.reading (I.view input.new) (I.view input.old) }
{
    let mut number = match input.next_token()?.as_char() {
        '0' => return Some(0),
        digit @ '1'..='9' => digit as u64 - '0' as u64,
        _ => return None,
    };
    loop {
        let behind = input.checkpoint();
        let digit = match input.next_token() {
            Some(token) => digit_of(token.as_char()),
            None if input.is_partial() => return None,
            None => return Some(number),
        };
        if digit > 9 {
            input.reset(&behind);
            return Some(number);
        }
        if number > MOST {
            return None;
        }
        number = number * 10 + u64::from(digit);
    }
}

/// Returns the value of a decimal digit, and a number above 9 for another character. One comparison
/// distinguishes these, and the value is then available.
#[inline(always)]
fn digit_of(character: char) -> u32
    ensures value { IsDecDigit character → result ≡ character - 48 }
    ensures digit { result ≤ 9 → IsDecDigit character }
{
    (character as u32).wrapping_sub('0' as u32)
}
