//! Helper functions of `bits` and `bytes`.
#![tactic(auto, using(streams::specs::Ends::ends_follow))]

ghost use Rattle.std.specs.Prelude.{◌≡◌, true};
ghost use Rattle.stream_bits.specs.BitReading.{bits_reading};
ghost use Rattle.streams.specs.Needed.{need_of};
ghost use Rattle.winnow_bits.specs.BytesOfBits.{WholeBytesOf};
ghost use Rattle.parser_definitions.specs.BitsOfBytes.{need_in_bytes};
ghost use Rattle.parser_definitions.specs.BytesOfBits.{need_in_bits};
ghost use Rattle.winnow_bits.specs.Needs.{with_need};

use stream_bits::bits::Bits;
use stream_errors::convert::ErrorConvert;
use stream_errors::parser_error::ParserError;
use streams::byte_stream::ByteStream;
use streams::needed::Needed;
use streams::stream::Stream;

/// Returns the remaining whole bytes.
#[inline(always)]
pub(crate) fn whole_bytes<I: ByteStream>(bits: Bits<I>) -> I
    requires { (⟦<Bits<I> as Stream>⟧.view bits).left.possible ≡ true }
    ensures { WholeBytesOf (bits_reading I.reading) (⟦<Bits<I> as Stream>⟧.view bits)
        (I.view result) }
{
    let Bits(mut bytes, offset) = bits;
    if offset != 0 {
        let _begun = bytes.next_slice(1);
        bytes.shows_bytes();
        return bytes;
    }
    bytes.shows_bytes();
    bytes
}

/// Converts a need of bits to one of bytes.
#[inline]
fn needed_in_bytes(needed: Needed) -> Needed
    ensures { need_of result ≡ need_in_bytes (need_of needed) }
{
    match needed {
        Needed::Unknown => Needed::Unknown,
        Needed::Size(bits) => Needed::new(bits.get() / 8 + 1),
    }
}

/// Converts a need of bytes to one of bits.
#[inline]
fn needed_in_bits(needed: Needed) -> Needed
    ensures { need_of result ≡ need_in_bits (need_of needed) }
{
    match needed {
        Needed::Unknown => Needed::Unknown,
        Needed::Size(bytes) => match bytes.get().checked_mul(8) {
            Some(bits) => Needed::new(bits),
            None => Needed::Unknown,
        },
    }
}

/// Converts an error of a parser of bits to one of bytes.
#[inline]
pub(crate) fn in_bytes<I: ByteStream, E: ParserError<Bits<I>> + ErrorConvert<F>, F: ParserError<I>>(
    input: &I,
    error: E,
) -> F
    ensures { F.kind result ≡ with_need need_in_bytes (E.kind error) }
{
    match error.needed() {
        Some(needed) => F::incomplete(input, needed_in_bytes(needed)),
        None => error.convert(),
    }
}

/// Converts an error of a parser of bytes to one of bits.
#[inline]
pub(crate) fn in_bits<I: ByteStream, E: ParserError<I> + ErrorConvert<F>, F: ParserError<Bits<I>>>(
    input: &Bits<I>,
    error: E,
) -> F
    ensures { F.kind result ≡ with_need need_in_bits (E.kind error) }
{
    match error.needed() {
        Some(needed) => F::incomplete(input, needed_in_bits(needed)),
        None => error.convert(),
    }
}
