//! Inputs of errors: bytes as bits, from the first on, and the bytes of bits.
ghost use Rattle.std.specs.Prelude.{◌≡◌};

use crate::bits::Bits;
use stream_errors::convert::ConvertInput;
use streams::locating::LocatingSlice;
use streams::partial::Partial;
use streams::stream::Stream;

impl<'a> ConvertInput<Bits<&'a [u8]>> for &'a [u8] {
    ghost converts = { λ input other. (other.0 ≡ input) × (other.1 ≡ 0) };

    #[inline(always)]
    fn convert_input(self) -> Bits<&'a [u8]> {
        Bits(self, 0)
    }
}

impl<I> ConvertInput<Bits<Partial<I>>> for Partial<I> {
    ghost converts = { λ input other. (other.0 ≡ input) × (other.1 ≡ 0) };

    #[inline(always)]
    fn convert_input(self) -> Bits<Partial<I>> {
        Bits(self, 0)
    }
}

impl<I: Stream> ConvertInput<Bits<LocatingSlice<I>>> for LocatingSlice<I> {
    ghost converts = { λ input other. (other.0 ≡ input) × (other.1 ≡ 0) };

    #[inline(always)]
    fn convert_input(self) -> Bits<LocatingSlice<I>> {
        Bits(self, 0)
    }
}

impl<I> ConvertInput<I> for Bits<I> {
    ghost converts = { λ input other. other ≡ input.0 };

    #[inline(always)]
    fn convert_input(self) -> I {
        self.0
    }
}
