//! Searches for one of some characters, in bytes and in text.
ghost use Rattle.std.specs.Prelude.{◌≡◌, [], ◌∷◌, ◌⊎◌, length};
ghost use Rattle.std.specs.Char.{encode_utf8};
ghost use Rattle.std.specs.Str.{IsUtf8};
ghost use Rattle.stream_searches.specs.FindSlice.{FindsSlice};
ghost use Rattle.stream_searches.specs.FirstMatch.{literal_stays, two_stay, three_stay};
ghost use Rattle.stream_searches.specs.FirstMatch.{two_characters_stay, three_characters_stay};
ghost use Rattle.stream_searches.specs.Three.{IsOneOfThree};
ghost use Rattle.streams.specs.Bytes.{bytes_reading};
ghost use Rattle.streams.specs.Text.{text_reading};

use crate::find::FindSlice;
use crate::find::several::find_several;
use std::ops;

/// Searches bytes for the UTF-8 of one of three characters.
#[inline(always)]
fn find_encoded(all: &[u8], first: char, second: char, third: char) -> Option<ops::Range<usize>>
    ensures utf8 { IsUtf8 (encode_utf8 first) × IsUtf8 (encode_utf8 second)
        × IsUtf8 (encode_utf8 third) }
    ensures finds { FindsSlice length
        (IsOneOfThree (encode_utf8 first) (encode_utf8 second) (encode_utf8 third)) all.now
        result }
{
    find_several(
        all,
        first.encode_utf8(&mut [0; 4]).as_bytes(),
        second.encode_utf8(&mut [0; 4]).as_bytes(),
        third.encode_utf8(&mut [0; 4]).as_bytes(),
    )
}

/// Searches bytes for the UTF-8 of one of two characters. If both are ASCII, each is one byte,
/// which is searched for many bytes at a time, and needs no comparison where it was found.
#[inline(always)]
fn find_two_characters(all: &[u8], first: char, second: char) -> Option<ops::Range<usize>>
    ensures utf8 { IsUtf8 (encode_utf8 first) × IsUtf8 (encode_utf8 second) }
    ensures finds { FindsSlice length
        (λ xs. (xs ≡ encode_utf8 first) ⊎ (xs ≡ encode_utf8 second)) all.now result }
{
    if first.is_ascii() && second.is_ascii() {
        all.find_slice((first as u8, second as u8))
    } else {
        find_encoded(all, first, second, second)
    }
}

/// Searches bytes for the UTF-8 of one of three characters: for three bytes, where all are ASCII.
#[inline(always)]
fn find_three_characters(
    all: &[u8],
    first: char,
    second: char,
    third: char,
) -> Option<ops::Range<usize>>
    ensures utf8 { IsUtf8 (encode_utf8 first) × IsUtf8 (encode_utf8 second)
        × IsUtf8 (encode_utf8 third) }
    ensures finds { FindsSlice length
        (IsOneOfThree (encode_utf8 first) (encode_utf8 second) (encode_utf8 third)) all.now
        result }
{
    if first.is_ascii() && second.is_ascii() && third.is_ascii() {
        all.find_slice((first as u8, second as u8, third as u8))
    } else {
        find_encoded(all, first, second, third)
    }
}

/// A character stands for the bytes of its UTF-8.
impl<'a> FindSlice<(char,)> for &'a [u8] {
    ghost sought = { λ t xs. xs ≡ encode_utf8 t.0 };

    #[inline(always)]
    fn find_slice(&self, substr: (char,)) -> Option<ops::Range<usize>> {
        self.find_slice(substr.0)
    }

    ghost stays_first = { λ t. literal_stays bytes_reading (encode_utf8 t.0) };
}

/// A character stands for the bytes of its UTF-8.
impl<'a> FindSlice<(char, char)> for &'a [u8] {
    ghost sought = { λ t xs. (xs ≡ encode_utf8 t.0) ⊎ (xs ≡ encode_utf8 t.1) };

    #[inline(always)]
    fn find_slice(&self, substr: (char, char)) -> Option<ops::Range<usize>> {
        find_two_characters(*self, substr.0, substr.1)
    }

    ghost stays_first = { λ t. two_characters_stay bytes_reading t.0 t.1 };
}

/// A character stands for the bytes of its UTF-8.
impl<'a> FindSlice<(char, char, char)> for &'a [u8] {
    ghost sought = { λ t xs. IsOneOfThree (encode_utf8 t.0) (encode_utf8 t.1) (encode_utf8 t.2)
        xs };

    #[inline(always)]
    fn find_slice(&self, substr: (char, char, char)) -> Option<ops::Range<usize>> {
        find_three_characters(*self, substr.0, substr.1, substr.2)
    }

    ghost stays_first = { λ t. three_characters_stay bytes_reading t.0 t.1 t.2 };
}

impl<'a> FindSlice<(char,)> for &'a str {
    ghost sought = { λ t xs. xs ≡ t.0 ∷ [] };

    #[inline(always)]
    fn find_slice(&self, substr: (char,)) -> Option<ops::Range<usize>> {
        self.find_slice(substr.0)
    }

    ghost stays_first = { λ t. literal_stays text_reading (t.0 ∷ []) };
}

impl<'a> FindSlice<(char, char)> for &'a str {
    ghost sought = { λ t xs. (xs ≡ t.0 ∷ []) ⊎ (xs ≡ t.1 ∷ []) };

    #[inline(always)]
    fn find_slice(&self, substr: (char, char)) -> Option<ops::Range<usize>> {
        find_two_characters(self.as_bytes(), substr.0, substr.1)
    }

    ghost stays_first = { λ t. two_stay text_reading t.0 t.1 };
}

impl<'a> FindSlice<(char, char, char)> for &'a str {
    ghost sought = { λ t xs. IsOneOfThree (t.0 ∷ []) (t.1 ∷ []) (t.2 ∷ []) xs };

    #[inline(always)]
    fn find_slice(&self, substr: (char, char, char)) -> Option<ops::Range<usize>> {
        find_three_characters(self.as_bytes(), substr.0, substr.1, substr.2)
    }

    ghost stays_first = { λ t. three_stay text_reading t.0 t.1 t.2 };
}
