//! Searches of text: a literal stands for its characters.
ghost use Rattle.std.specs.Prelude.{◌≡◌, [], ◌∷◌};
ghost use Rattle.std.specs.Str.{chars};
ghost use Rattle.streams.specs.Text.{text_reading};
ghost use Rattle.stream_searches.specs.FirstMatch.{literal_stays};

use crate::find::{FindSlice, find_bytes};
use std::ops;

impl<'a, 'b> FindSlice<&'b str> for &'a str {
    ghost sought = { λ s xs. xs ≡ chars s.now };

    #[inline(always)]
    fn find_slice(&self, substr: &'b str) -> Option<ops::Range<usize>> {
        find_bytes(self.as_bytes(), substr.as_bytes())
    }

    ghost stays_first = { λ s. literal_stays text_reading (chars s.now) };
}

impl<'a> FindSlice<char> for &'a str {
    ghost sought = { λ c xs. xs ≡ c ∷ [] };

    #[inline(always)]
    fn find_slice(&self, substr: char) -> Option<ops::Range<usize>> {
        let mut buffer = [0; 4];
        find_bytes(self.as_bytes(), substr.encode_utf8(&mut buffer).as_bytes())
    }

    ghost stays_first = { λ c. literal_stays text_reading (c ∷ []) };
}
