//! Streams that may get more.
ghost use Rattle.std.specs.Prelude.{◌≡◌, true};
ghost use Rattle.streams.specs.Equal.{true_is_false};
ghost use Rattle.streams.specs.Partial.{with_flag};

use crate::needed::Needed;
use crate::stream::{Location, Stream, StreamIsPartial, UpdateSlice};
use crate::token_test::TokenTest;

/// A stream that may have only a prefix of the input.
///
/// A parser returns `Incomplete` if more input could change its result, until the stream is marked
/// as complete.
///
/// ```
/// let mut input = Partial::new(b"ab".as_slice());
/// assert!(rt; input.is_partial());
/// assert!(rt; input.complete());
/// assert!(rt; !input.is_partial());
/// ```
#[derive(Clone, Copy, Debug, PartialEq, Eq, Drop)]
pub struct Partial<I> {
    input: I,
    partial: bool,
}

impl<I: Stream> Partial<I> {
    /// The stream, with more to come.
    #[inline(always)]
    pub fn new(input: I) -> Partial<I>
        ensures { ⟦<Partial<I> as Stream>⟧.view result ≡ with_flag (I.view input) true }
    {
        Partial {
            input,
            partial: true,
        }
    }

    /// The stream inside, with the flag that it has itself.
    #[inline(always)]
    pub fn as_inner(&self) -> &I
        ensures { with_flag (I.view result.now)
            (⟦<Partial<I> as Stream>⟧.view self.now).status.cut
            ≡ ⟦<Partial<I> as Stream>⟧.view self.now }
    {
        &self.input
    }

    /// The stream inside, with the flag that it has itself.
    #[inline(always)]
    pub fn into_inner(self) -> I
        ensures { with_flag (I.view result) (⟦<Partial<I> as Stream>⟧.view self).status.cut
            ≡ ⟦<Partial<I> as Stream>⟧.view self }
    {
        self.input
    }
}

impl<I: Stream> Stream for Partial<I> {
    type Token = I::Token;

    type Seen = I::Seen;

    type Slice = I::Slice;

    type IterOffsets = I::IterOffsets;

    type Checkpoint = I::Checkpoint;

    ghost view = { λ s. with_flag (I.view s.input) s.partial };

    ghost seen = { I.seen };

    ghost reading = { I.reading };

    ghost seen_as = { I.seen_as };

    ghost counts_missing = { I.counts_missing };

    ghost following = { I.following };

    ghost offsets_left = { I.offsets_left };

    #[inline(always)]
    fn iter_offsets(&self) -> I::IterOffsets {
        self.input.iter_offsets()
    }

    #[inline(always)]
    fn eof_offset(&self) -> usize {
        self.input.eof_offset()
    }

    #[inline(always)]
    fn next_token(&mut self) -> Option<I::Token> {
        self.input.next_token()
    }

    #[inline(always)]
    fn offset_for<P: TokenTest<I::Token> + Drop>(&self, predicate: P) -> Option<usize> {
        self.input.offset_for(predicate)
    }

    #[inline(always)]
    fn offset_at(&self, tokens: usize) -> Result<usize, Needed> {
        self.input.offset_at(tokens)
    }

    #[inline(always)]
    fn next_slice(&mut self, offset: usize) -> I::Slice {
        self.input.next_slice(offset)
    }

    #[inline(always)]
    fn finish(&mut self) -> I::Slice {
        self.input.finish()
    }

    #[inline(always)]
    fn checkpoint(&self) -> I::Checkpoint {
        self.input.checkpoint()
    }

    #[inline(always)]
    fn reset(&mut self, checkpoint: &I::Checkpoint) {
        self.input.reset(checkpoint);
    }

    #[inline(always)]
    fn offset_from(&self, start: &I::Checkpoint) -> usize {
        self.input.offset_from(start)
    }

    ghost offsets_step = { I.offsets_step };
}

impl<I: Stream> StreamIsPartial for Partial<I> {
    type PartialState = bool;

    ghost supports_partial = { true };

    ghost flag = { λ state. state };

    #[inline(always)]
    fn complete(&mut self) -> bool {
        let was_partial = self.partial;
        self.partial = false;
        was_partial
    }

    #[inline(always)]
    fn restore_partial(&mut self, state: bool) {
        self.partial = state;
    }

    #[inline(always)]
    fn is_partial_supported() -> bool
        ensures { result ≡ true }
    {
        true
    }

    #[inline(always)]
    fn is_partial(&self) -> bool {
        self.partial
    }

    ghost whole = { λ e. true_is_false e };

    ghost whole_state = { λ e. true_is_false e };
}

impl<I: Location> Location for Partial<I> {
    #[inline(always)]
    fn current_token_start(&self) -> usize {
        self.input.current_token_start()
    }

    #[inline(always)]
    fn previous_token_end(&self) -> usize {
        self.input.previous_token_end()
    }
}

impl<I: UpdateSlice> UpdateSlice for Partial<I> {
    #[inline(always)]
    fn update_slice(self, slice: I::Slice) -> Partial<I> {
        Partial {
            input: self.input.update_slice(slice),
            partial: self.partial,
        }
    }

    ghost one_list = { I.one_list };
}
