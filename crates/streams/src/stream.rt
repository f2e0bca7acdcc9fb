//! The traits of streams.
ghost use Rattle.std.specs.Prelude.{◌≡◌, ℕ, ◌+◌, List, [], ◌∷◌, Bool, false, Option, MatchOption};
ghost use Rattle.std.specs.Iterator.{IsFinite};
ghost use Rattle.streams.specs.Input.{Input, Remaining, IsEndOf, Remains, Passes, Takes, back_at};
ghost use Rattle.streams.specs.Following.{Following};
ghost use Rattle.streams.specs.Reading.{Reading, ShowsOneList};
ghost use Rattle.streams.specs.Stream.{IsBoundary, AnswersSeen, Cuts, FindsFirst, FindsOffset};
ghost use Rattle.streams.specs.Stream.{IsUpdate, with_offsets};
ghost use Rattle.streams.specs.Needed.{by_need};

use crate::needed::Needed;
use crate::token_test::TokenTest;

/// An input that parsers take tokens from, as in winnow's documentation.
///
/// Offsets count units: bytes of bytes and text, items of token lists, bits of bits.
///
/// ```
/// let mut input = b"ab".as_slice();
/// assert_eq!(rt; input.next_token(), Some(b'a'));
/// assert_eq!(rt; input.eof_offset(), 1);
/// ```
pub trait Stream: Drop {
    /// The smallest part of the input.
    type Token: Drop;

    /// The view of a token in contracts.
    type Seen;

    /// A part of the input, as parsers answer it.
    type Slice: Drop;

    /// The tokens left, each with its offset.
    type IterOffsets: Iterator<Item = (usize, Self::Token)>;

    /// A place to go back to.
    type Checkpoint: Drop;

    // A parser's view of the stream.
    ghost view: { Self → Input Self.Seen };

    // The remaining input at a checkpoint.
    ghost seen: { Self.Checkpoint → Remaining Self.Seen };

    // How tokens are counted and handed out.
    ghost reading: { Reading Self.Seen Self.Slice };

    // The view of a token in contracts.
    ghost seen_as: { Self.Token → Self.Seen };

    // Whether `offset_at` reports how many tokens are missing.
    ghost counts_missing: { Bool };

    // The lists that more input may add after those left.
    ghost following: { Following Self.Seen };

    // The tokens still to come, each with its offset.
    ghost offsets_left: { Self.IterOffsets → List (ℕ × Self.Seen) };

    /// The tokens left, each with its offset in units. Nothing is consumed.
    fn iter_offsets(&self) -> Self::IterOffsets
        ensures can { Self.IterOffsets.can_next result }
        ensures finite { IsFinite (Self.IterOffsets.remaining result) }
        ensures items { offsets_left result
            ≡ with_offsets reading.units 0 (view self.now).left.tokens };

    /// Returns the number of remaining units.
    fn eof_offset(&self) -> usize
        ensures { result ≡ reading.units (view self.now).left.tokens };

    /// The first token, which is consumed; `None` at the end.
    fn next_token(&mut self) -> Option<Self::Token>
        ensures ends { IsEndOf reading (view self.new) (view self.old) }
        ensures passes { MatchOption result
            (((view self.old).left.tokens ≡ []) × (view self.new ≡ view self.old))
            (λ t. Passes reading (seen_as t ∷ []) (view self.old) (view self.new)) };

    /// The offset, in units, of the first token for which `predicate` holds, if there is one.
    fn offset_for<P: TokenTest<Self::Token> + Drop>(&self, predicate: P) -> Option<usize>
        requires { P.can_test predicate }
        ensures { FindsFirst (AnswersSeen seen_as (P.answers predicate)) reading.units
            (view self.now).left.tokens result };

    /// The offset, in units, after the first `tokens` tokens. Where there are fewer, the need is
    /// how many are missing, or unknown over text.
    fn offset_at(&self, tokens: usize) -> Result<usize, Needed>
        ensures { FindsOffset counts_missing reading.units (view self.now).left.tokens tokens
            (by_need result) };

    /// Consumes the tokens before `offset`, in units, and returns their slice. `offset` must be
    /// between two tokens of this stream, or at its start or end.
    fn next_slice(&mut self, offset: usize) -> Self::Slice
        requires { IsBoundary reading.units (view self.old).left.tokens offset }
        ensures ends { IsEndOf reading (view self.new) (view self.old) }
        ensures cuts { Cuts reading offset (view self.old) result (view self.new) };

    /// Consumes all remaining tokens and returns their slice.
    fn finish(&mut self) -> Self::Slice
        ensures ends { IsEndOf reading (view self.new) (view self.old) }
        ensures takes { Takes reading (view self.old).left.tokens (view self.old) result
            (view self.new) }
        ensures nothing { (view self.new).left.tokens ≡ [] };

    /// The present place.
    fn checkpoint(&self) -> Self::Checkpoint
        ensures { seen result ≡ (view self.now).left };

    /// Goes back to a place, and changes neither the flag nor the recorded errors.
    fn reset(&mut self, checkpoint: &Self::Checkpoint)
        ensures { view self.new ≡ back_at (seen checkpoint.now) (view self.old) };

    /// Returns the number of units between `start` and the current position. `start` must be an
    /// earlier position of this stream.
    fn offset_from(&self, start: &Self::Checkpoint) -> usize
        requires { Remains (view self.now).left (seen start.now) }
        ensures { result + reading.units (view self.now).left.tokens
            ≡ reading.units (seen start.now).tokens };

    // A step of the iterator gives the first of the tokens still to come.
    ghost offsets_step: { (s : Self.IterOffsets) (r : Option (ℕ × Self.Token))
        (t : Self.IterOffsets) → Self.IterOffsets.next_gives s r t
        → MatchOption r (offsets_left s ≡ [])
        (λ x. offsets_left s ≡ (x.0, seen_as x.1) ∷ offsets_left t) };
}

/// A stream that says whether more input may come.
///
/// A stream that does not support this is always whole.
///
/// ```
/// assert!(rt; !b"ab".as_slice().is_partial());
/// ```
pub trait StreamIsPartial: Stream {
    /// The state that `complete` returns and `restore_partial` takes.
    type PartialState: Drop;

    // Whether the type has a flag.
    ghost supports_partial: { Bool };

    // The flag that a state stands for.
    ghost flag: { Self.PartialState → Bool };

    /// Marks the input as complete, and answers the old state.
    fn complete(&mut self) -> Self::PartialState
        ensures state { flag result ≡ (Self.view self.old).status.cut }
        ensures complete { Self.view self.new
            ≡ record (Self.view self.old)
            { status = record (Self.view self.old).status { cut = false } } };

    /// Puts an old state back.
    fn restore_partial(&mut self, state: Self::PartialState)
        ensures { Self.view self.new
            ≡ record (Self.view self.old)
            { status = record (Self.view self.old).status { cut = flag state } } };

    /// Whether the type can be partial at all.
    fn is_partial_supported() -> bool
        ensures { result ≡ supports_partial };

    /// Whether more input may come.
    fn is_partial(&self) -> bool
        ensures { result ≡ (Self.view self.now).status.cut };

    // A type with no flag is always whole.
    ghost whole: { supports_partial ≡ false → (s : Self) → (Self.view s).status.cut ≡ false };

    // ... and so is each of its states.
    ghost whole_state: { supports_partial ≡ false → (s : Self.PartialState) → flag s ≡ false };
}

/// A stream that knows its offset.
///
/// ```
/// let mut input = LocatingSlice::new(b"ab".as_slice());
/// assert_eq!(rt; input.next_token(), Some(b'a'));
/// assert_eq!(rt; input.current_token_start(), 1);
/// ```
pub trait Location: Stream {
    /// Where the next token begins, in units from the start.
    fn current_token_start(&self) -> usize
        ensures { result ≡ (Self.view self.now).left.place.passed };

    /// Where the last token taken ended, in units from the start.
    fn previous_token_end(&self) -> usize
        ensures { result ≡ (Self.view self.now).left.place.passed };
}

/// A stream in whose place one over a part of it can be put: over exactly the tokens that a slice
/// of it shows.
///
/// ```
/// assert_eq!(rt; b"abc".as_slice().update_slice(b"b".as_slice()), b"b".as_slice());
/// ```
pub trait UpdateSlice: Stream {
    /// Returns a stream over `slice`, with the same flag. If the slice was just taken from this
    /// stream, the new stream begins where the slice did. Otherwise its offset is unspecified.
    fn update_slice(self, slice: Self::Slice) -> Self
        ensures { IsUpdate Self.reading (Self.view self) slice (Self.view result) };

    // A slice shows one list of tokens, so these are the remaining tokens of a stream over it.
    ghost one_list: { ShowsOneList Self.reading };
}
