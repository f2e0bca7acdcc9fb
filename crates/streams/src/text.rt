//! Text as a stream of characters.
//!
//! The stream of winnow for `&str`: tokens are characters, and each offset and each need counts
//! bytes of UTF-8, one to four a character. If an offset after more characters than there are is
//! requested, the need is unknown, since a missing character has an unknown number of bytes.
//!
//! ```
//! let mut input = "aé€";
//! assert_eq!(rt; input.offset_at(2), Ok(3));
//! assert_eq!(rt; input.offset_at(4), Err(Needed::Unknown));
//! assert_eq!(rt; input.next_token(), Some('a'));
//! assert_eq!(rt; input.next_slice(2), "é");
//! assert_eq!(rt; input, "€");
//! ```
ghost use Rattle.std.specs.Prelude.{◌≡◌, false, refl};
ghost use Rattle.std.specs.Str.{chars};
ghost use Rattle.streams.specs.Input.{at_start};
ghost use Rattle.streams.specs.Text.{text_follows, text_input, text_reading, chars_left};
ghost use Rattle.streams.specs.Text.{chars_left_step, one_text};

use crate::needed::Needed;
use crate::stream::{Stream, StreamIsPartial, UpdateSlice};
use crate::token_test::TokenTest;
use std::str::CharIndices;

impl<'a> Stream for &'a str {
    type Token = char;

    type Seen = char;

    type Slice = &'a str;

    type IterOffsets = CharIndices<'a>;

    type Checkpoint = &'a str;

    ghost view = { λ s. text_input s.now };

    ghost seen = { λ s. at_start (chars s.now) };

    ghost reading = { text_reading };

    ghost seen_as = { λ c. c };

    ghost counts_missing = { false };

    ghost following = { text_follows };

    ghost offsets_left = { chars_left };

    #[inline(always)]
    fn iter_offsets(&self) -> CharIndices<'a> {
        self.char_indices()
    }

    #[inline(always)]
    fn eof_offset(&self) -> usize {
        self.as_bytes().len()
    }

    #[inline(always)]
    fn next_token(&mut self) -> Option<char> {
        let all = *self;
        let mut chars = all.chars();
        let first = chars.next()?;
        *self = chars.as_str();
        Some(first)
    }

    #[inline(always)]
    fn offset_for<P: TokenTest<char> + Drop>(&self, predicate: P) -> Option<usize> {
        for (offset, c) in self.char_indices() {
            if predicate.test(c) {
                return Some(offset);
            }
        }
        None
    }

    #[inline(always)]
    fn offset_at(&self, tokens: usize) -> Result<usize, Needed> {
        let mut rest = self.char_indices();
        for _ in 0..tokens {
            if rest.next().is_none() {
                return Err(Needed::Unknown);
            }
        }
        Ok(rest.offset())
    }

    #[inline(always)]
    fn next_slice(&mut self, offset: usize) -> &'a str {
        let all = *self;
        // The bytes of a text show that it is UTF-8, and so may be split between two characters.
        let _bytes = all.as_bytes();
        let (front, rest) = all.split_at(offset);
        *self = rest;
        front
    }

    #[inline(always)]
    fn finish(&mut self) -> &'a str {
        let all = *self;
        // The bytes of a text show that it is UTF-8.
        let _bytes = all.as_bytes();
        *self = &all[all.len()..];
        all
    }

    #[inline(always)]
    fn checkpoint(&self) -> &'a str {
        *self
    }

    #[inline(always)]
    fn reset(&mut self, checkpoint: &&'a str) {
        *self = *checkpoint;
    }

    #[inline(always)]
    fn offset_from(&self, start: &&'a str) -> usize {
        start.as_bytes().len() - self.as_bytes().len()
    }

    ghost offsets_step = { chars_left_step };
}

impl<'a> StreamIsPartial for &'a str {
    type PartialState = ();

    ghost supports_partial = { false };

    ghost flag = { λ _. false };

    #[inline(always)]
    fn complete(&mut self) {}

    #[inline(always)]
    fn restore_partial(&mut self, _state: ()) {}

    #[inline(always)]
    fn is_partial_supported() -> bool
        ensures { result ≡ false }
    {
        false
    }

    #[inline(always)]
    fn is_partial(&self) -> bool {
        false
    }

    ghost whole = { λ _ _. refl };

    ghost whole_state = { λ _ _. refl };
}

impl<'a> UpdateSlice for &'a str {
    #[inline(always)]
    fn update_slice(self, slice: &'a str) -> &'a str {
        slice
    }

    ghost one_list = { one_text };
}
