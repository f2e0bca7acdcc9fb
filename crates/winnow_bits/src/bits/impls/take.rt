//! That many bits, as a number.
ghost use Rattle.std.specs.Prelude.{◌≡◌, ⊤, ℕ};
ghost use Rattle.parser_definitions.specs.BitTake.{BitTakeDoes, bit_take_law};
ghost use Rattle.stream_bits.specs.BitReading.{bits_reading};
ghost use Rattle.parser_definitions.specs.Terms.{no_claim, nothing_claimed};

use crate::bits::fields::take_counted;
use crate::bits::output::BitOutput;
use std::marker::PhantomData;
use stream_bits::bits::Bits;
use stream_errors::parser_error::ParserError;
use streams::byte_stream::ByteStream;
use streams::stream::StreamIsPartial;
use winnow_core::parser::Parser;

/// The parser that [`take`](crate::bits::take) makes.
///
/// ```
/// use winnow::binary::bits::impls::{Bits, Take};
/// use winnow::binary::bits::take;
///
/// let mut parser: Take<_, u8, EmptyError> = take(4u8);
/// let mut input = Bits(b"\xAB".as_slice(), 0);
/// assert_eq!(rt; parser.parse_next(&mut input), Ok(0xA));
/// ```
#[derive(Drop)]
pub struct Take<I, O, E> {
    pub(crate) count: usize,
    pub(crate) marker: PhantomData<(I, O, E)>,
}

impl<I: ByteStream + StreamIsPartial, O: BitOutput, E: ParserError<Bits<I>>> Parser<Bits<I>, O, E>
    for Take<I, O, E> {
    ghost State = { ℕ };

    ghost state = { λ s. s.count };

    ghost does = { BitTakeDoes O.number O.WIDTH (bits_reading I.reading) };

    ghost terms = { record {
      premise = ⊤;
      stable = ⊤;
      alike = λ o p. O.number o ≡ O.number p;
      claim = λ _. no_claim;
    } };

    ghost lawful = { record {
      law = λ is. bit_take_law O.number O.WIDTH (bits_reading I.reading);
      claimed = λ _. nothing_claimed;
    } };

    #[inline(always)]
    fn parse_next(&mut self, input: &mut Bits<I>) -> Result<O, E> {
        take_counted(input, self.count)
    }
}
