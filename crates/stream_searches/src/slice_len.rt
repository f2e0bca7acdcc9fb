//! Lengths of slices and literals.
ghost use Rattle.std.specs.Prelude.{◌≡◌, ℕ, List, length};
ghost use Rattle.std.specs.Char.{len_utf8};
ghost use Rattle.std.proofs.Common.{ap, ◌∙◌};
ghost use Rattle.streams.specs.Text.{length_encodes};

use crate::caseless::Caseless;
use streams::locating::LocatingSlice;
use streams::partial::Partial;
use streams::stream::Stream;
use streams::token_slice::TokenSlice;

/// A slice or a literal that knows how many units it takes: bytes of bytes and text, items of token
/// lists.
///
/// ```
/// assert_eq!(rt; "é".slice_len(), 2);
/// assert_eq!(rt; Caseless("hello").slice_len(), 5);
/// ```
pub trait SliceLen {
    // The units.
    ghost units_of: { Self → ℕ };

    /// How many units it takes.
    fn slice_len(&self) -> usize
        ensures { result ≡ units_of self.now };
}

impl SliceLen for u8 {
    ghost units_of = { λ _. 1 };

    #[inline(always)]
    fn slice_len(&self) -> usize {
        1
    }
}

impl SliceLen for char {
    ghost units_of = { λ c. len_utf8 c };

    #[inline(always)]
    fn slice_len(&self) -> usize {
        self.len_utf8()
    }
}

impl<'a, T> SliceLen for &'a [T] {
    ghost units_of = { λ s. length s.now };

    #[inline(always)]
    fn slice_len(&self) -> usize {
        self.len()
    }
}

impl<'a, T, const N: usize> SliceLen for &'a [T; N] {
    ghost units_of = { λ s. length s.now };

    #[inline(always)]
    fn slice_len(&self) -> usize {
        self.as_slice().len()
    }
}

impl<T, const N: usize> SliceLen for [T; N] {
    ghost units_of = { λ s. length s };

    #[inline(always)]
    fn slice_len(&self) -> usize {
        self.len()
    }
}

impl<'a> SliceLen for &'a str {
    ghost units_of = { λ s. length s.now };

    #[inline(always)]
    fn slice_len(&self) -> usize {
        self.len()
    }
}

impl<S: SliceLen> SliceLen for Caseless<S> {
    ghost units_of = { λ s. S.units_of s.0 };

    #[inline(always)]
    fn slice_len(&self) -> usize {
        self.0.slice_len()
    }
}

/// A stream whose slices know how many units they take: those of the tokens that a slice shows.
///
/// It has no functions. Contracts of parsers that ask a slice for its length speak by it of tokens.
///
/// ```
/// let mut input = Partial::new(LocatingSlice::new("é7"));
/// assert_eq!(rt; input.next_slice(3).slice_len(), 3);
/// ```
pub trait SlicesWithLength: Stream
where
    Self::Slice: SliceLen,
{
    // A slice takes the units of the tokens that it shows.
    ghost has_units: { (slice : Self.Slice) (tokens : List Self.Seen)
        → Self.reading.shows slice tokens
        → Self.Slice.units_of slice ≡ Self.reading.units tokens };
}

impl<'a> SlicesWithLength for &'a [u8] {
    ghost has_units = { λ slice tokens shown. ap (λ l. length l) shown };
}

impl<'a> SlicesWithLength for &'a str {
    ghost has_units = { λ slice tokens shown. ap (λ l. length l) shown ∙ length_encodes tokens };
}

impl<'t, T> SlicesWithLength for TokenSlice<'t, T> {
    ghost has_units = { λ slice tokens shown. ap (λ l. length l) shown };
}

impl<I: SlicesWithLength> SlicesWithLength for Partial<I>
where
    I::Slice: SliceLen,
{
    ghost has_units = { I.has_units };
}

impl<I: SlicesWithLength> SlicesWithLength for LocatingSlice<I>
where
    I::Slice: SliceLen,
{
    ghost has_units = { I.has_units };
}
