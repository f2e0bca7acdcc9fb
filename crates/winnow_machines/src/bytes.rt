//! Streams whose slices are the bytes of their tokens.
ghost use Rattle.std.specs.Prelude.{◌≡◌, ℕ, List, refl};

use stream_sets::as_bstr::{AsBStr, SlicesAsBytes};
use streams::byte_stream::ByteStream;
use streams::locating::LocatingSlice;
use streams::partial::Partial;

/// A stream of bytes whose slices have the bytes of the tokens that they show, as they are.
///
/// It has no functions. It is implemented by `&[u8]` and by the streams that wrap it.
pub trait SlicesOfBytes: ByteStream + SlicesAsBytes
where
    Self::Slice: AsBStr,
{
    // The bytes of tokens are the tokens.
    ghost same_bytes: { (tokens : List ℕ) → Self.bytes_of tokens ≡ tokens };
}

impl<'a> SlicesOfBytes for &'a [u8] {
    ghost same_bytes = { λ tokens. refl };
}

impl<I: SlicesOfBytes> SlicesOfBytes for Partial<I>
where
    I::Slice: AsBStr,
{
    ghost same_bytes = { I.same_bytes };
}

impl<I: SlicesOfBytes> SlicesOfBytes for LocatingSlice<I>
where
    I::Slice: AsBStr,
{
    ghost same_bytes = { I.same_bytes };
}
