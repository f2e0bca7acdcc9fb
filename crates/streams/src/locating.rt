//! Streams that know their place.
ghost use Rattle.std.specs.Prelude.{◌≡◌, ◌^◌, ◌+◌, ◌<◌, ⊤};
ghost use Rattle.streams.specs.Located.{located_input, located_left, located_reading};

use crate::needed::Needed;
use crate::stream::{Location, Stream, StreamIsPartial, UpdateSlice};
use crate::token_test::TokenTest;
use std::alloc::AllocError;

/// A stream that counts the units passed from its start.
///
/// The place is a number of units: bytes of bytes and text, items of token lists.
///
/// ```
/// let mut input = LocatingSlice::new(b"ab".as_slice());
/// assert_eq!(rt; input.next_token(), Some(b'a'));
/// assert_eq!(rt; input.current_token_start(), 1);
/// assert_eq!(rt; *input.as_inner(), b"b".as_slice());
/// ```
#[derive(Debug, PartialEq, Eq, Drop)]
pub struct LocatingSlice<I: Stream> {
    input: I,
    passed: usize,
    ghost fits: { passed + I.reading.units (I.view input).left.tokens < 2 ^ 64 },
}

/// A place of a [`LocatingSlice`](crate::locating::LocatingSlice) to go back to.
#[derive(Drop)]
pub struct LocatedCheckpoint<I: Stream> {
    inner: I::Checkpoint,
    passed: usize,
    ghost fits: { passed + I.reading.units (I.seen inner).tokens < 2 ^ 64 },
}

impl<I: Stream> LocatingSlice<I> {
    /// Returns a stream whose offsets count from the start of `input`.
    #[inline(always)]
    pub fn new(input: I) -> LocatingSlice<I>
        ensures { ⟦<LocatingSlice<I> as Stream>⟧.view result ≡ located_input (I.view input) 0 }
    {
        let _units = input.eof_offset();
        LocatingSlice { input, passed: 0 }
    }

    /// The stream inside.
    #[inline(always)]
    pub fn as_inner(&self) -> &I
        ensures { located_input (I.view result.now)
            (⟦<LocatingSlice<I> as Stream>⟧.view self.now).left.place.passed
            ≡ ⟦<LocatingSlice<I> as Stream>⟧.view self.now }
    {
        &self.input
    }
}

impl<I: Stream + Copy> Clone for LocatingSlice<I> {
    ghost is_clone = { λ x y. located_input (I.view y.input) y.passed
        ≡ located_input (I.view x.input) x.passed };

    ghost is_infallible = { λ _. ⊤ };

    #[inline(always)]
    fn clone(&self) -> Result<LocatingSlice<I>, AllocError> {
        Ok(LocatingSlice {
            input: self.input,
            passed: self.passed,
        })
    }
}

impl<I: Stream + Copy> Copy for LocatingSlice<I> {}

impl<I: Stream> Stream for LocatingSlice<I> {
    type Token = I::Token;

    type Seen = I::Seen;

    type Slice = I::Slice;

    type IterOffsets = I::IterOffsets;

    type Checkpoint = LocatedCheckpoint<I>;

    ghost view = { λ s. located_input (I.view s.input) s.passed };

    ghost seen = { λ c. located_left (I.seen c.inner) c.passed };

    ghost reading = { located_reading I.reading };

    ghost seen_as = { I.seen_as };

    ghost counts_missing = { I.counts_missing };

    ghost following = { I.following };

    ghost offsets_left = { I.offsets_left };

    #[inline(always)]
    fn iter_offsets(&self) -> I::IterOffsets {
        self.input.iter_offsets()
    }

    #[inline(always)]
    fn eof_offset(&self) -> usize {
        self.input.eof_offset()
    }

    #[inline(always)]
    fn next_token(&mut self) -> Option<I::Token> {
        let before = self.input.eof_offset();
        let token = self.input.next_token()?;
        self.passed += before - self.input.eof_offset();
        Some(token)
    }

    #[inline(always)]
    fn offset_for<P: TokenTest<I::Token> + Drop>(&self, predicate: P) -> Option<usize> {
        self.input.offset_for(predicate)
    }

    #[inline(always)]
    fn offset_at(&self, tokens: usize) -> Result<usize, Needed> {
        self.input.offset_at(tokens)
    }

    #[inline(always)]
    fn next_slice(&mut self, offset: usize) -> I::Slice {
        let slice = self.input.next_slice(offset);
        self.passed += offset;
        slice
    }

    #[inline(always)]
    fn finish(&mut self) -> I::Slice {
        let units = self.input.eof_offset();
        let slice = self.input.finish();
        self.passed += units;
        slice
    }

    #[inline(always)]
    fn checkpoint(&self) -> LocatedCheckpoint<I> {
        let _units = self.input.eof_offset();
        LocatedCheckpoint {
            inner: self.input.checkpoint(),
            passed: self.passed,
        }
    }

    #[inline(always)]
    fn reset(&mut self, checkpoint: &LocatedCheckpoint<I>) {
        self.input.reset(&checkpoint.inner);
        self.passed = checkpoint.passed;
    }

    #[inline(always)]
    fn offset_from(&self, start: &LocatedCheckpoint<I>) -> usize {
        self.input.offset_from(&start.inner)
    }

    ghost offsets_step = { I.offsets_step };
}

impl<I: StreamIsPartial> StreamIsPartial for LocatingSlice<I> {
    type PartialState = I::PartialState;

    ghost supports_partial = { I.supports_partial };

    ghost flag = { I.flag };

    #[inline(always)]
    fn complete(&mut self) -> I::PartialState {
        self.input.complete()
    }

    #[inline(always)]
    fn restore_partial(&mut self, state: I::PartialState) {
        self.input.restore_partial(state);
    }

    #[inline(always)]
    fn is_partial_supported() -> bool
        ensures { result ≡ I.supports_partial }
    {
        I::is_partial_supported()
    }

    #[inline(always)]
    fn is_partial(&self) -> bool {
        self.input.is_partial()
    }

    ghost whole = { λ none s. I.whole none s.input };

    ghost whole_state = { I.whole_state };
}

impl<I: Stream> Location for LocatingSlice<I> {
    #[inline(always)]
    fn current_token_start(&self) -> usize {
        self.passed
    }

    #[inline(always)]
    fn previous_token_end(&self) -> usize {
        self.passed
    }
}

impl<I: UpdateSlice> UpdateSlice for LocatingSlice<I> {
    #[inline(always)]
    fn update_slice(self, slice: I::Slice) -> LocatingSlice<I> {
        let input = self.input.update_slice(slice);
        let units = input.eof_offset();
        LocatingSlice {
            input,
            passed: self.passed.saturating_sub(units),
        }
    }

    ghost one_list = { I.one_list };
}
