//! That many bits, which must be a number.
ghost use Rattle.std.specs.Prelude.{◌≡◌, ⊤, ℕ};
ghost use Rattle.parser_definitions.specs.BitTake.{BitPatternDoes, bit_pattern_law};
ghost use Rattle.stream_bits.specs.BitReading.{bits_reading};
ghost use Rattle.parser_definitions.specs.Terms.{no_claim, nothing_claimed};

use crate::bits::fields::take_counted;
use crate::bits::output::BitOutput;
use std::marker::PhantomData;
use stream_bits::bits::Bits;
use stream_errors::parser_error::ParserError;
use streams::byte_stream::ByteStream;
use streams::stream::{Stream, StreamIsPartial};
use winnow_core::parser::Parser;

/// The parser that [`pattern`](crate::bits::pattern) makes.
///
/// ```
/// use winnow::binary::bits::impls::{Bits, Pattern};
/// use winnow::binary::bits::pattern;
///
/// let mut parser: Pattern<_, u8, EmptyError> = pattern(0xA, 4u8);
/// let mut input = Bits(b"\xAB".as_slice(), 0);
/// assert_eq!(rt; parser.parse_next(&mut input), Ok(0xA));
/// ```
#[derive(Drop)]
pub struct Pattern<I, O, E> {
    pub(crate) value: O,
    pub(crate) count: usize,
    pub(crate) marker: PhantomData<(I, E)>,
}

impl<I: ByteStream + StreamIsPartial, O: BitOutput, E: ParserError<Bits<I>>> Parser<Bits<I>, O, E>
    for Pattern<I, O, E> {
    ghost State = { ℕ × ℕ };

    ghost state = { λ s. (O.number s.value, s.count) };

    ghost does = { BitPatternDoes O.number O.WIDTH (bits_reading I.reading) };

    ghost terms = { record {
      premise = ⊤;
      stable = ⊤;
      alike = λ o p. O.number o ≡ O.number p;
      claim = λ _. no_claim;
    } };

    ghost lawful = { record {
      law = λ is. bit_pattern_law O.number O.WIDTH (bits_reading I.reading);
      claimed = λ _. nothing_claimed;
    } };

    #[inline(always)]
    fn parse_next(&mut self, input: &mut Bits<I>) -> Result<O, E> {
        let start = input.checkpoint();
        match take_counted::<I, O, E>(input, self.count) {
            Ok(taken) => {
                if taken == self.value {
                    Ok(taken)
                } else {
                    input.reset(&start);
                    Err(E::from_input(input))
                }
            }
            Err(error) => Err(error),
        }
    }
}
