//! Laws of the parsers of bits, each proved by a function that does nothing.
ghost use Rattle.parser_definitions.specs.Does.{Ran};
ghost use Rattle.std.specs.Prelude.{◌≡◌};
ghost use Rattle.stream_bits.specs.BitReading.{bits_reading};
ghost use Rattle.stream_errors.specs.Form.{modal};
ghost use Rattle.winnow_bits.specs.BitLaws.{TakesFirstBits};
ghost use Rattle.winnow_bits.specs.Longer.{BytesCounted, EachSameOnLongerBy, WholeBytesCounted};

use crate::bits::BitOutput;
use crate::bits::impls::{BitsParser, Bytes, Take};
use stream_bits::bits::Bits;
use stream_errors::convert::ErrorConvert;
use stream_errors::parser_error::ParserError;
use streams::byte_stream::ByteStream;
use streams::stream::StreamIsPartial;
use winnow_core::parser::Parser;

/// A final result of [`bits`](crate::bits::bits) on partial input, around a stable parser, is also
/// the result on every longer input of at most `usize::MAX / 8` bytes, whose bits can be counted,
/// partial or complete, unless out of memory: an equal output or an error of the same kind, the
/// same new state, and the rest followed by the added bytes.
pub fn longer_inputs_get_partial_results_of_bits<
    I: ByteStream + Copy,
    P: Parser<Bits<I>, O, E>,
    O: Drop,
    E: ParserError<Bits<I>> + ErrorConvert<F>,
    F: ParserError<I>,
>()
    ensures { F.form ≡ modal → P.terms.premise → P.terms.stable
        → EachSameOnLongerBy BytesCounted
        (Ran I.reading ⟦<BitsParser<P, I, O, E, F> as Parser<I, O, F>>⟧.does F.form)
        P.terms.alike }
{}

/// A final result of [`bytes`](crate::bits::bytes) on partial input, around a stable parser, is
/// also the result on every longer input, partial or complete, unless out of memory, if the added
/// bits are those of whole bytes, and all bits can be counted: an equal output or an error of the
/// same kind, the same new state, and the rest followed by the added bits.
pub fn longer_inputs_get_partial_results_of_bytes<
    I: ByteStream + Copy,
    P: Parser<I, O, E>,
    O,
    E: ParserError<I> + ErrorConvert<F>,
    F: ParserError<Bits<I>>,
>()
    ensures { F.form ≡ modal → P.terms.premise → P.terms.stable
        → EachSameOnLongerBy WholeBytesCounted
        (Ran (bits_reading I.reading)
        ⟦<Bytes<P, I, O, E, F> as Parser<Bits<I>, O, F>>⟧.does F.form) P.terms.alike }
{}

/// [`take`](crate::bits::take) returns the number of the first bits, as many as requested; these
/// bits followed by the rest are the original bits.
pub fn taken_bits_and_the_rest_are_the_input<
    I: ByteStream + StreamIsPartial,
    O: BitOutput,
    E: ParserError<Bits<I>>,
>()
    ensures { TakesFirstBits O.number (bits_reading I.reading)
        (Ran (bits_reading I.reading) ⟦<Take<I, O, E> as Parser<Bits<I>, O, E>>⟧.does E.form) }
{}
