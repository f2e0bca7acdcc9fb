//! Searches of the input for a literal.
ghost use Rattle.std.specs.Prelude.{◌≡◌, List, [], ◌∷◌, ◌⊎◌, length};
ghost use Rattle.std.specs.Char.{encode_utf8};
ghost use Rattle.streams.specs.Bytes.{bytes_reading};
ghost use Rattle.stream_searches.specs.FindSlice.{FindsSlice};
ghost use Rattle.stream_searches.specs.FirstMatch.{StaysFirst, literal_stays, two_stay, three_stay};

mod characters;
mod place;
mod several;
mod text;
mod wrapped;

use crate::find::place::first_place;
use memchr::{memchr, memchr2, memchr3};
use std::ops;
use streams::stream::Stream;

/// A stream that can be searched for a literal of type `T`, or for one of a tuple of them.
///
/// ```
/// assert_eq!(rt; b"aaab".as_slice().find_slice(b"aab".as_slice()), Some(1..4));
/// assert_eq!(rt; b"a,b;".as_slice().find_slice((b';', b',')), Some(1..2));
/// assert_eq!(rt; b"a".as_slice().find_slice(b"".as_slice()), Some(0..0));
/// ```
pub trait FindSlice<T>: Stream {
    // The needles: lists of tokens that are searched for.
    ghost sought: { T → List Self.Seen → Type 0 };

    /// Returns the first range, in units, at which `substr` occurs. Consumes nothing.
    fn find_slice(&self, substr: T) -> Option<ops::Range<usize>>
        ensures { FindsSlice Self.reading.units (sought substr) (Self.view self.now).left.tokens
            result };

    // The first match stays the first one, whatever tokens come after.
    ghost stays_first: { (substr : T) → StaysFirst Self.reading.units (sought substr) };
}

/// Searches bytes for bytes.
#[inline(always)]
fn find_bytes(all: &[u8], literal: &[u8]) -> Option<ops::Range<usize>>
    ensures { FindsSlice length (λ xs. xs ≡ literal.now) all.now result }
{
    match first_place(all, literal) {
        Some(start) => Some(start..start + literal.len()),
        None => None,
    }
}

impl<'a> FindSlice<u8> for &'a [u8] {
    ghost sought = { λ b xs. xs ≡ b ∷ [] };

    #[inline(always)]
    fn find_slice(&self, substr: u8) -> Option<ops::Range<usize>> {
        match memchr(substr, *self) {
            Some(start) => Some(start..start + 1),
            None => None,
        }
    }

    ghost stays_first = { λ b. literal_stays bytes_reading (b ∷ []) };
}

impl<'a> FindSlice<(u8,)> for &'a [u8] {
    ghost sought = { λ t xs. xs ≡ t.0 ∷ [] };

    #[inline(always)]
    fn find_slice(&self, substr: (u8,)) -> Option<ops::Range<usize>> {
        self.find_slice(substr.0)
    }

    ghost stays_first = { λ t. literal_stays bytes_reading (t.0 ∷ []) };
}

impl<'a> FindSlice<(u8, u8)> for &'a [u8] {
    ghost sought = { λ t xs. (xs ≡ t.0 ∷ []) ⊎ (xs ≡ t.1 ∷ []) };

    #[inline(always)]
    fn find_slice(&self, substr: (u8, u8)) -> Option<ops::Range<usize>> {
        match memchr2(substr.0, substr.1, *self) {
            Some(start) => Some(start..start + 1),
            None => None,
        }
    }

    ghost stays_first = { λ t. two_stay bytes_reading t.0 t.1 };
}

impl<'a> FindSlice<(u8, u8, u8)> for &'a [u8] {
    ghost sought = { λ t xs. (xs ≡ t.0 ∷ []) ⊎ ((xs ≡ t.1 ∷ []) ⊎ (xs ≡ t.2 ∷ [])) };

    #[inline(always)]
    fn find_slice(&self, substr: (u8, u8, u8)) -> Option<ops::Range<usize>> {
        match memchr3(substr.0, substr.1, substr.2, *self) {
            Some(start) => Some(start..start + 1),
            None => None,
        }
    }

    ghost stays_first = { λ t. three_stay bytes_reading t.0 t.1 t.2 };
}

impl<'a, 'b> FindSlice<&'b [u8]> for &'a [u8] {
    ghost sought = { λ s xs. xs ≡ s.now };

    #[inline(always)]
    fn find_slice(&self, substr: &'b [u8]) -> Option<ops::Range<usize>> {
        find_bytes(*self, substr)
    }

    ghost stays_first = { λ s. literal_stays bytes_reading s.now };
}

/// A text stands for its bytes.
impl<'a, 'b> FindSlice<&'b str> for &'a [u8] {
    ghost sought = { λ s xs. xs ≡ s.now };

    #[inline(always)]
    fn find_slice(&self, substr: &'b str) -> Option<ops::Range<usize>> {
        find_bytes(*self, substr.as_bytes())
    }

    ghost stays_first = { λ s. literal_stays bytes_reading s.now };
}

/// A character stands for the bytes of its UTF-8.
impl<'a> FindSlice<char> for &'a [u8] {
    ghost sought = { λ c xs. xs ≡ encode_utf8 c };

    #[inline(always)]
    fn find_slice(&self, substr: char) -> Option<ops::Range<usize>> {
        let mut buffer = [0; 4];
        find_bytes(*self, substr.encode_utf8(&mut buffer).as_bytes())
    }

    ghost stays_first = { λ c. literal_stays bytes_reading (encode_utf8 c) };
}
