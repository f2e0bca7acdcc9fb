//! Hexadecimal numbers.
ghost use Rattle.std.specs.Prelude.{◌≡◌, ◌+◌, ◌*◌, ◌^◌, ◌<◌, ℕ, ⊤};
ghost use Rattle.std.proofs.Common.{arith};
ghost use Rattle.parser_definitions.specs.HexUint.{HexUintDoes, OneNumber, hex_uint_law};
ghost use Rattle.parser_definitions.specs.NumberGrammar.{Hexadecimal};
ghost use Rattle.parser_definitions.specs.Projects.Numbers.{hex_uint_projects, hexadecimal_takes};

use crate::ascii::hex_uint;
use crate::ascii::impls::hex_uint::sealed::SealedMarker;
use stream_errors::parser_error::ParserError;
use stream_sets::as_bstr::{AsBStr, SlicesAsBytes};
use stream_sets::as_char::AsChar;
use streams::stream::StreamIsPartial;
use winnow_core::parser::Parser;

pub(crate) mod sealed {
    /// A value that only this crate can pass to
    /// [`max_nibbles`](crate::ascii::impls::HexUint::max_nibbles).
    #[derive(Clone, Copy)]
    pub struct SealedMarker;
}

/// The unsigned numbers that [`hex_uint`](crate::ascii::hex_uint) parses.
///
/// ```
/// assert_eq!(rt; 0xA_u8.push_nibble(0xB), 0xAB);
/// ```
pub trait HexUint: Default {
    // The number of a value.
    ghost number: { Self → ℕ };

    // That many hexadecimal digits always fit, and no more do.
    ghost nibbles: { ℕ };

    /// How many hexadecimal digits the type holds: 2, 4, 8, 16, 32, and 16 of `usize`.
    fn max_nibbles(_marker: SealedMarker) -> usize
        ensures { result ≡ nibbles };

    /// Returns the number times 16, plus a digit. The digit must be below 16, and the result must
    /// fit.
    fn push_nibble(self, nibble: u8) -> Self
        requires digit { nibble < 16 }
        requires fits { 16 * number self + nibble < 16 ^ nibbles }
        ensures { number result ≡ 16 * number self + nibble };

    // A type holds some digit.
    ghost holds_some: { 0 < nibbles };

    // The default is 0.
    ghost starts_at_zero: { (n : Self) → Self.is_default n → number n ≡ 0 };
}

impl HexUint for u8 {
    ghost number = { λ n. n };

    ghost nibbles = { 2 };

    #[inline(always)]
    fn max_nibbles(_marker: SealedMarker) -> usize {
        2
    }

    #[inline(always)]
    fn push_nibble(self, nibble: u8) -> u8 {
        16 * self + nibble
    }

    ghost holds_some = { Prim.omega arith };

    ghost starts_at_zero = { λ n zero. zero };
}

impl HexUint for u16 {
    ghost number = { λ n. n };

    ghost nibbles = { 4 };

    #[inline(always)]
    fn max_nibbles(_marker: SealedMarker) -> usize {
        4
    }

    #[inline(always)]
    fn push_nibble(self, nibble: u8) -> u16 {
        16 * self + u16::from(nibble)
    }

    ghost holds_some = { Prim.omega arith };

    ghost starts_at_zero = { λ n zero. zero };
}

impl HexUint for u32 {
    ghost number = { λ n. n };

    ghost nibbles = { 8 };

    #[inline(always)]
    fn max_nibbles(_marker: SealedMarker) -> usize {
        8
    }

    #[inline(always)]
    fn push_nibble(self, nibble: u8) -> u32 {
        16 * self + u32::from(nibble)
    }

    ghost holds_some = { Prim.omega arith };

    ghost starts_at_zero = { λ n zero. zero };
}

impl HexUint for u64 {
    ghost number = { λ n. n };

    ghost nibbles = { 16 };

    #[inline(always)]
    fn max_nibbles(_marker: SealedMarker) -> usize {
        16
    }

    #[inline(always)]
    fn push_nibble(self, nibble: u8) -> u64 {
        16 * self + u64::from(nibble)
    }

    ghost holds_some = { Prim.omega arith };

    ghost starts_at_zero = { λ n zero. zero };
}

impl HexUint for u128 {
    ghost number = { λ n. n };

    ghost nibbles = { 32 };

    #[inline(always)]
    fn max_nibbles(_marker: SealedMarker) -> usize {
        32
    }

    #[inline(always)]
    fn push_nibble(self, nibble: u8) -> u128 {
        16 * self + u128::from(nibble)
    }

    ghost holds_some = { Prim.omega arith };

    ghost starts_at_zero = { λ n zero. zero };
}

impl HexUint for usize {
    ghost number = { λ n. n };

    ghost nibbles = { 16 };

    #[inline(always)]
    fn max_nibbles(_marker: SealedMarker) -> usize {
        16
    }

    #[inline(always)]
    fn push_nibble(self, nibble: u8) -> usize {
        16 * self + usize::from(nibble)
    }

    ghost holds_some = { Prim.omega arith };

    ghost starts_at_zero = { λ n zero. zero };
}

/// The parser [`hex_uint`](crate::ascii::hex_uint), of each type of output.
///
/// ```
/// assert_eq!(rt; HexUintParser.parse_peek("fA;"), Ok::<_, EmptyError>((";", 0xFA_u8)));
/// ```
#[derive(Clone, Copy, Debug, PartialEq, Eq)]
pub struct HexUintParser;

impl<I: StreamIsPartial + SlicesAsBytes, O: HexUint, E: ParserError<I>> Parser<I, O, E>
    for HexUintParser
where
    I::Token: AsChar,
    I::Slice: AsBStr,
{
    ghost State = { ⊤ };

    ghost state = { λ _. tt };

    ghost does = { HexUintDoes O.number O.nibbles I.seen_as I.Token.code I.reading };

    ghost terms = { record {
      premise = ⊤;
      stable = ⊤;
      alike = OneNumber O.number;
      claim = λ s. record {
        premise = ⊤;
        backtracks = ⊤;
        spares_memory = ⊤;
        consumes = ⊤;
        grammar = Hexadecimal O.number O.nibbles I.seen_as I.Token.code;
      };
    } };

    ghost lawful = { record {
      law = λ _. hex_uint_law O.number O.nibbles I.seen_as I.Token.code I.reading
          I.one_code;
      claimed = λ s. record {
        projects = λ at is. hex_uint_projects O.number O.nibbles I.seen_as I.Token.code I.reading
            I.one_code at s;
        takes = λ is some. hexadecimal_takes O.number O.nibbles I.seen_as I.Token.code;
      };
    } };

    #[inline(always)]
    fn parse_next(&mut self, input: &mut I) -> Result<O, E> {
        hex_uint(input)
    }
}
