//! A stream that records errors.
ghost use Rattle.std.specs.Prelude.{◌≡◌, ◌++◌, ◌∷◌, [], MatchResult};
ghost use Rattle.stream_recovery.specs.Recorded.{recorded_errors, recorded_input};
ghost use Rattle.stream_recovery.specs.Recorded.{recoverable_view};

use std::alloc::{Allocator, Global};
use stream_errors::has_kind::HasKind;
use streams::byte_stream::ByteStream;
use streams::needed::Needed;
use streams::stream::{Location, Stream, StreamIsPartial};
use streams::token_test::TokenTest;

/// A stream over which parsers recover from errors: it keeps, in order, those from which they did.
///
/// Tokens, slices, offsets and places are those of the stream inside. Going back to a place takes
/// back what was read, and no error that was recorded. `R` is the type of the errors that are kept,
/// and their list grows by the allocator `A`.
///
/// ```
/// let mut input: Recoverable<&str, EmptyError> = Recoverable::new(alloc, "ab");
/// assert_eq!(rt; input.next_token(), Some('a'));
/// let (rest, errors) = input.into_parts();
/// assert_eq!(rt; rest, "b");
/// assert_eq!(rt; errors.len(), 0);
/// ```
#[derive(Debug, Drop)]
pub struct Recoverable<I, R, A: Allocator = Global> {
    input: I,
    errors: Vec<R, A>,
}

impl<I, R, A: Allocator> Recoverable<I, R, A> {
    /// Returns the inner stream, at its current position, and the recorded errors, in order.
    #[inline(always)]
    pub fn into_parts(self) -> (I, Vec<R, A>)
        ensures input { result.0 ≡ recorded_input self }
        ensures errors { result.1.items ≡ recorded_errors self }
    {
        let Recoverable { input, errors } = self;
        (input, errors)
    }

    /// Appends an error to the recorded ones. If an allocation for it fails, returns the error, and
    /// the stream is unchanged.
    #[inline(always)]
    pub fn push_err(&mut self, err: R) -> Result<(), R>
        ensures { MatchResult result
            (λ _. (recorded_input self.new ≡ recorded_input self.old)
            × (recorded_errors self.new ≡ recorded_errors self.old ++ err ∷ []))
            (λ back. (back ≡ err) × (recorded_input self.new ≡ recorded_input self.old)
            × (recorded_errors self.new ≡ recorded_errors self.old)) }
    {
        match self.errors.push(err) {
            Ok(()) => Ok(()),
            Err(refused) => Err(refused.value),
        }
    }
}

impl<I: Stream, R: HasKind + Drop, A: Allocator> Recoverable<I, R, A> {
    /// The stream, with no error recorded. No memory is taken.
    #[inline(always)]
    pub fn new(alloc: A, input: I) -> Recoverable<I, R, A>
        ensures input { recorded_input result ≡ input }
        ensures errors { recorded_errors result ≡ [] }
        ensures view { ⟦<Recoverable<I, R, A> as Stream>⟧.view result ≡ I.view input }
    {
        Recoverable {
            input,
            errors: Vec::new(alloc),
        }
    }

    /// Returns the inner stream, at its current position.
    #[inline(always)]
    pub fn as_inner(&self) -> &I
        ensures { result.now ≡ recorded_input self.now }
    {
        &self.input
    }
}

impl<I: Stream, R: HasKind + Drop, A: Allocator> Stream for Recoverable<I, R, A> {
    type Token = I::Token;

    type Seen = I::Seen;

    type Slice = I::Slice;

    type IterOffsets = I::IterOffsets;

    type Checkpoint = I::Checkpoint;

    ghost view = { recoverable_view I.view R.kind };

    ghost seen = { I.seen };

    ghost reading = { I.reading };

    ghost seen_as = { I.seen_as };

    ghost counts_missing = { I.counts_missing };

    ghost following = { I.following };

    ghost offsets_left = { I.offsets_left };

    #[inline(always)]
    fn iter_offsets(&self) -> I::IterOffsets {
        self.input.iter_offsets()
    }

    #[inline(always)]
    fn eof_offset(&self) -> usize {
        self.input.eof_offset()
    }

    #[inline(always)]
    fn next_token(&mut self) -> Option<I::Token> {
        self.input.next_token()
    }

    #[inline(always)]
    fn offset_for<P: TokenTest<I::Token> + Drop>(&self, predicate: P) -> Option<usize> {
        self.input.offset_for(predicate)
    }

    #[inline(always)]
    fn offset_at(&self, tokens: usize) -> Result<usize, Needed> {
        self.input.offset_at(tokens)
    }

    #[inline(always)]
    fn next_slice(&mut self, offset: usize) -> I::Slice {
        self.input.next_slice(offset)
    }

    #[inline(always)]
    fn finish(&mut self) -> I::Slice {
        self.input.finish()
    }

    #[inline(always)]
    fn checkpoint(&self) -> I::Checkpoint {
        self.input.checkpoint()
    }

    #[inline(always)]
    fn reset(&mut self, checkpoint: &I::Checkpoint) {
        self.input.reset(checkpoint);
    }

    #[inline(always)]
    fn offset_from(&self, start: &I::Checkpoint) -> usize {
        self.input.offset_from(start)
    }

    ghost offsets_step = { I.offsets_step };
}

impl<I: StreamIsPartial, R: HasKind + Drop, A: Allocator> StreamIsPartial for Recoverable<I, R, A> {
    type PartialState = I::PartialState;

    ghost supports_partial = { I.supports_partial };

    ghost flag = { I.flag };

    #[inline(always)]
    fn complete(&mut self) -> I::PartialState {
        self.input.complete()
    }

    #[inline(always)]
    fn restore_partial(&mut self, state: I::PartialState) {
        self.input.restore_partial(state);
    }

    #[inline(always)]
    fn is_partial_supported() -> bool
        ensures { result ≡ I.supports_partial }
    {
        I::is_partial_supported()
    }

    #[inline(always)]
    fn is_partial(&self) -> bool {
        self.input.is_partial()
    }

    ghost whole = { λ none s. I.whole none s.input };

    ghost whole_state = { I.whole_state };
}

impl<I: Location, R: HasKind + Drop, A: Allocator> Location for Recoverable<I, R, A> {
    #[inline(always)]
    fn current_token_start(&self) -> usize {
        self.input.current_token_start()
    }

    #[inline(always)]
    fn previous_token_end(&self) -> usize {
        self.input.previous_token_end()
    }
}

impl<I: ByteStream, R: HasKind + Drop, A: Allocator> ByteStream for Recoverable<I, R, A> {
    #[inline(always)]
    fn shows_bytes(&self) {
        self.input.shows_bytes();
    }

    ghost counts_bytes = { I.counts_bytes };

    ghost sees_number = { I.sees_number };

    ghost stands_between = { λ s. I.stands_between s.input };

    ghost always_possible = { λ s. I.always_possible s.input };

    ghost followed_by_bytes = { I.followed_by_bytes };
}
