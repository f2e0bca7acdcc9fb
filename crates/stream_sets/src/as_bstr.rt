//! Slices that are seen as bytes.
ghost use Rattle.std.specs.Prelude.{◌≡◌, ◌<◌, ℕ, List, [], ◌∷◌, ◌++◌, length, refl};
ghost use Rattle.std.specs.Str.{encode_utf8_all};
ghost use Rattle.std.proofs.Common.{sym};
ghost use Rattle.std.proofs.lemmas.Str.{encodes-append};
ghost use Rattle.stream_sets.specs.AsBStr.{FirstByte, encodes_ascii, own_first, utf8_first};
ghost use Rattle.streams.specs.Text.{length_encodes};

use crate::as_char::AsChar;
use streams::locating::LocatingSlice;
use streams::partial::Partial;
use streams::stream::Stream;

/// A slice of bytes or of text, seen as its bytes.
///
/// ```
/// assert_eq!(rt; "é".as_bstr(), [0xC3, 0xA9].as_slice());
/// ```
pub trait AsBStr {
    // The bytes.
    ghost bytes: { Self → List ℕ };

    /// The bytes: those of a text are its UTF-8.
    fn as_bstr(&self) -> &[u8]
        ensures { result.now ≡ bytes self.now };
}

impl<'a> AsBStr for &'a [u8] {
    ghost bytes = { λ s. s.now };

    #[inline(always)]
    fn as_bstr(&self) -> &[u8] {
        *self
    }
}

impl<'a> AsBStr for &'a str {
    ghost bytes = { λ s. s.now };

    #[inline(always)]
    fn as_bstr(&self) -> &[u8] {
        self.as_bytes()
    }
}

/// A stream whose slices are seen as bytes: those of the tokens that a slice shows.
///
/// It has no functions. Contracts of parsers that look at the bytes of a slice speak by it of
/// tokens.
///
/// ```
/// let mut input = Partial::new(LocatingSlice::new("é7"));
/// assert_eq!(rt; input.next_slice(3).as_bstr(), [0xC3, 0xA9, 0x37].as_slice());
/// ```
pub trait SlicesAsBytes: Stream
where
    Self::Token: AsChar,
    Self::Slice: AsBStr,
{
    // The bytes of tokens: themselves, or their UTF-8.
    ghost bytes_of: { List Self.Seen → List ℕ };

    // A slice has the bytes of the tokens that it shows.
    ghost has_bytes: { (slice : Self.Slice) (tokens : List Self.Seen)
        → Self.reading.shows slice tokens → Self.Slice.bytes slice ≡ bytes_of tokens };

    // Bytes of a list are those of its parts.
    ghost bytes_add: { (xs ys : List Self.Seen)
        → bytes_of (xs ++ ys) ≡ bytes_of xs ++ bytes_of ys };

    // An ASCII character is the byte of its number.
    ghost ascii_byte: { (token : Self.Token) → Self.Token.code token < 128
        → bytes_of (Self.seen_as token ∷ []) ≡ Self.Token.code token ∷ [] };

    // The bytes of a token begin with one that says whether it is an ASCII character, and which.
    ghost first_byte: { (seen : Self.Seen) → FirstByte Self.seen_as Self.Token.code bytes_of seen };

    // Units are bytes.
    ghost units_bytes: { (tokens : List Self.Seen)
        → Self.reading.units tokens ≡ length (bytes_of tokens) };

    // Tokens with the same view are one character.
    ghost one_code: { (token other : Self.Token) → Self.seen_as token ≡ Self.seen_as other
        → Self.Token.code token ≡ Self.Token.code other };
}

impl<'a> SlicesAsBytes for &'a [u8] {
    ghost bytes_of = { λ tokens. tokens };

    ghost has_bytes = { λ slice tokens shown. shown };

    ghost bytes_add = { λ xs ys. refl };

    ghost ascii_byte = { λ token small. refl };

    ghost first_byte = { own_first };

    ghost units_bytes = { λ tokens. refl };

    ghost one_code = { λ token other same. same };
}

impl<'a> SlicesAsBytes for &'a str {
    ghost bytes_of = { encode_utf8_all };

    ghost has_bytes = { λ slice tokens shown. shown };

    ghost bytes_add = { encodes-append };

    ghost ascii_byte = { encodes_ascii };

    ghost first_byte = { utf8_first };

    ghost units_bytes = { λ tokens. sym (length_encodes tokens) };

    ghost one_code = { λ token other same. same };
}

impl<I: SlicesAsBytes> SlicesAsBytes for Partial<I>
where
    I::Token: AsChar,
    I::Slice: AsBStr,
{
    ghost bytes_of = { I.bytes_of };

    ghost has_bytes = { I.has_bytes };

    ghost bytes_add = { I.bytes_add };

    ghost ascii_byte = { I.ascii_byte };

    ghost first_byte = { I.first_byte };

    ghost units_bytes = { I.units_bytes };

    ghost one_code = { I.one_code };
}

impl<I: SlicesAsBytes> SlicesAsBytes for LocatingSlice<I>
where
    I::Token: AsChar,
    I::Slice: AsBStr,
{
    ghost bytes_of = { I.bytes_of };

    ghost has_bytes = { I.has_bytes };

    ghost bytes_add = { I.bytes_add };

    ghost ascii_byte = { I.ascii_byte };

    ghost first_byte = { I.first_byte };

    ghost units_bytes = { I.units_bytes };

    ghost one_code = { I.one_code };
}
