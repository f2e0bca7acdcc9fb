//! Bytes as a stream.
ghost use Rattle.std.specs.Prelude.{◌≡◌, ◌+◌, ◌<◌, ◌^◌, []};
ghost use Rattle.std.specs.Prelude.{length};
ghost use Rattle.std.specs.Prelude.{true, false, refl};
ghost use Rattle.std.specs.Iterator.{at_most};
ghost use Rattle.streams.specs.Counted.{one_counted};
ghost use Rattle.streams.specs.Input.{at_start};
ghost use Rattle.streams.specs.Stream.{with_offsets, GivesNext};
ghost use Rattle.streams.specs.Bytes.{bytes_follow, bytes_input, bytes_reading};

use crate::needed::Needed;
use crate::stream::{Stream, StreamIsPartial, UpdateSlice};
use crate::token_test::TokenTest;

/// The bytes left, each with its offset in bytes.
///
/// ```
/// let mut bytes = b"ab".as_slice().iter_offsets();
/// assert_eq!(rt; bytes.next(), Some((0, b'a')));
/// assert_eq!(rt; bytes.next(), Some((1, b'b')));
/// assert_eq!(rt; bytes.next(), None);
/// ```
#[derive(Drop)]
pub struct ByteOffsets<'a> {
    rest: &'a [u8],
    offset: usize,
    ghost fits: { offset + length rest.now < 2 ^ 64 },
}

impl<'a> Iterator for ByteOffsets<'a> {
    type Item = (usize, u8);

    ghost next_gives = { λ s r t. GivesNext (with_offsets length s.offset s.rest.now) r
        (with_offsets length t.offset t.rest.now) };

    ghost remaining = { λ s. at_most (length s.rest.now) };

    #[inline]
    fn next(&mut self) -> Option<(usize, u8)> {
        let rest = self.rest;
        match rest {
            [] => None,
            [first, tail @ ..] => {
                let offset = self.offset;
                self.rest = tail;
                self.offset = offset + 1;
                Some((offset, *first))
            }
        }
    }
}

impl<'a> Stream for &'a [u8] {
    type Token = u8;

    type Seen = u8;

    type Slice = &'a [u8];

    type IterOffsets = ByteOffsets<'a>;

    type Checkpoint = &'a [u8];

    ghost view = { λ s. bytes_input s.now };

    ghost seen = { λ s. at_start s.now };

    ghost reading = { bytes_reading };

    ghost seen_as = { λ b. b };

    ghost counts_missing = { true };

    ghost following = { bytes_follow };

    ghost offsets_left = { λ s. with_offsets length s.offset s.rest.now };

    #[inline(always)]
    fn iter_offsets(&self) -> ByteOffsets<'a> {
        ByteOffsets {
            rest: *self,
            offset: 0,
        }
    }

    #[inline(always)]
    fn eof_offset(&self) -> usize {
        self.len()
    }

    #[inline(always)]
    #[tactic(auto, using(crate::specs::Bytes::slice_ends))]
    fn next_token(&mut self) -> Option<u8> {
        let all = *self;
        match all {
            [] => None,
            [first, tail @ ..] => {
                *self = tail;
                Some(*first)
            }
        }
    }

    #[inline(always)]
    fn offset_for<P: TokenTest<u8> + Drop>(&self, predicate: P) -> Option<usize> {
        let all = *self;
        let mut from = 0;
        // Most runs are short. Four tests in a turn: the loop itself costs as much as one.
        'short: while from < 16 && all.len() - from >= 4 {
            if predicate.test(all[from]) {
                return Some(from);
            }
            if predicate.test(all[from + 1]) {
                return Some(from + 1);
            }
            if predicate.test(all[from + 2]) {
                return Some(from + 2);
            }
            if predicate.test(all[from + 3]) {
                return Some(from + 3);
            }
            from += 4;
        }
        // In a longer run eight, with no exit between them, so that they can be vectors.
        'long: while all.len() - from >= 8 {
            let mut is_found = false;
            for next in 0..8 {
                is_found = predicate.test(all[from + next]) | is_found;
            }
            if is_found {
                break 'long;
            }
            from += 8;
        }
        for i in from..all.len() {
            if predicate.test(all[i]) {
                return Some(i);
            }
        }
        None
    }

    #[inline(always)]
    fn offset_at(&self, tokens: usize) -> Result<usize, Needed> {
        let len = self.len();
        if tokens <= len {
            Ok(tokens)
        } else {
            Err(Needed::new(tokens - len))
        }
    }

    #[inline(always)]
    #[tactic(auto, using(crate::specs::Bytes::slice_ends))]
    fn next_slice(&mut self, offset: usize) -> &'a [u8] {
        let all = *self;
        *self = &all[offset..];
        &all[..offset]
    }

    #[inline(always)]
    #[tactic(auto, using(crate::specs::Bytes::slice_ends))]
    fn finish(&mut self) -> &'a [u8] {
        let all = *self;
        *self = &all[all.len()..];
        all
    }

    #[inline(always)]
    fn checkpoint(&self) -> &'a [u8] {
        *self
    }

    #[inline(always)]
    fn reset(&mut self, checkpoint: &&'a [u8]) {
        *self = *checkpoint;
    }

    #[inline(always)]
    fn offset_from(&self, start: &&'a [u8]) -> usize {
        start.len() - self.len()
    }

    ghost offsets_step = { λ s r t e. e };
}

impl<'a> StreamIsPartial for &'a [u8] {
    type PartialState = ();

    ghost supports_partial = { false };

    ghost flag = { λ _. false };

    #[inline(always)]
    fn complete(&mut self) {}

    #[inline(always)]
    fn restore_partial(&mut self, _state: ()) {}

    #[inline(always)]
    fn is_partial_supported() -> bool
        ensures { result ≡ false }
    {
        false
    }

    #[inline(always)]
    fn is_partial(&self) -> bool {
        false
    }

    ghost whole = { λ _ _. refl };

    ghost whole_state = { λ _ _. refl };
}

impl<'a> UpdateSlice for &'a [u8] {
    #[inline(always)]
    fn update_slice(self, slice: &'a [u8]) -> &'a [u8] {
        slice
    }

    ghost one_list = { one_counted };
}
