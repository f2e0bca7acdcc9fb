//! A list of tokens as a stream.
ghost use Rattle.std.specs.Prelude.{◌≡◌, true, false, refl, ⊤};
ghost use Rattle.streams.specs.Following.{none_follows};
ghost use Rattle.streams.specs.Input.{at_start};
ghost use Rattle.streams.specs.Counted.{counted_input, counted_reading, one_counted};
ghost use Rattle.streams.specs.TokenSlice.{tokens_of, tokens_left, tokens_left_step};

use crate::needed::Needed;
use crate::stream::{Stream, StreamIsPartial, UpdateSlice};
use crate::token_test::TokenTest;
use std::alloc::AllocError;
use std::iter::Enumerate;
use std::slice::Iter;

/// A list of tokens, such as a lexer makes.
///
/// A token is handed out by reference. Each offset and each need counts items.
///
/// ```
/// let mut input = TokenSlice::new(&[7, 8]);
/// assert_eq!(rt; input.next_token(), Some(&7));
/// assert_eq!(rt; input.as_slice(), [8].as_slice());
/// assert_eq!(rt; input.offset_at(3), Err(Needed::new(2)));
/// ```
#[derive(Debug, PartialEq, Eq)]
pub struct TokenSlice<'t, T> {
    tokens: &'t [T],
}

impl<'t, T> Copy for TokenSlice<'t, T> {}

impl<'t, T> Clone for TokenSlice<'t, T> {
    ghost is_clone = { λ s r. tokens_of r ≡ tokens_of s };

    ghost is_infallible = { λ _. ⊤ };

    fn clone(&self) -> Result<Self, AllocError> {
        Ok(*self)
    }
}

impl<'t, T> TokenSlice<'t, T> {
    /// The stream of `tokens`, from the first on.
    ///
    /// ```
    /// assert_eq!(rt; TokenSlice::new(&[7, 8]).eof_offset(), 2);
    /// ```
    pub fn new(tokens: &'t [T]) -> Self
        ensures { tokens_of result ≡ tokens.now }
    {
        TokenSlice { tokens }
    }

    /// The tokens left.
    ///
    /// ```
    /// assert_eq!(rt; TokenSlice::new(&[7, 8]).as_slice(), [7, 8].as_slice());
    /// ```
    #[inline(always)]
    pub fn as_slice(&self) -> &'t [T]
        ensures { result.now ≡ tokens_of self.now }
    {
        self.tokens
    }
}

impl<'t, T> Stream for TokenSlice<'t, T> {
    type Token = &'t T;

    type Seen = T;

    type Slice = &'t [T];

    type IterOffsets = Enumerate<Iter<'t, T>>;

    type Checkpoint = &'t [T];

    ghost view = { λ s. counted_input (tokens_of s) };

    ghost seen = { λ s. at_start s.now };

    ghost reading = { counted_reading };

    ghost seen_as = { λ t. t.now };

    ghost counts_missing = { true };

    // A list of tokens is always whole.
    ghost following = { none_follows };

    ghost offsets_left = { tokens_left };

    #[inline(always)]
    fn iter_offsets(&self) -> Enumerate<Iter<'t, T>> {
        self.tokens.iter().enumerate()
    }

    #[inline(always)]
    fn eof_offset(&self) -> usize {
        self.tokens.len()
    }

    #[inline(always)]
    fn next_token(&mut self) -> Option<&'t T> {
        let (first, rest) = self.tokens.split_first()?;
        self.tokens = rest;
        Some(first)
    }

    #[inline(always)]
    fn offset_for<P: TokenTest<&'t T> + Drop>(&self, predicate: P) -> Option<usize> {
        for (offset, token) in self.tokens.iter().enumerate() {
            if predicate.test(token) {
                return Some(offset);
            }
        }
        None
    }

    #[inline(always)]
    fn offset_at(&self, tokens: usize) -> Result<usize, Needed> {
        let len = self.tokens.len();
        if tokens <= len {
            Ok(tokens)
        } else {
            Err(Needed::new(tokens - len))
        }
    }

    #[inline(always)]
    fn next_slice(&mut self, offset: usize) -> &'t [T] {
        let (front, rest) = self.tokens.split_at(offset);
        self.tokens = rest;
        front
    }

    #[inline(always)]
    fn finish(&mut self) -> &'t [T] {
        let (all, end) = self.tokens.split_at(self.tokens.len());
        self.tokens = end;
        all
    }

    #[inline(always)]
    fn checkpoint(&self) -> &'t [T] {
        self.tokens
    }

    #[inline(always)]
    fn reset(&mut self, checkpoint: &&'t [T]) {
        self.tokens = *checkpoint;
    }

    #[inline(always)]
    fn offset_from(&self, start: &&'t [T]) -> usize {
        start.len() - self.tokens.len()
    }

    ghost offsets_step = { tokens_left_step };
}

impl<'t, T> StreamIsPartial for TokenSlice<'t, T> {
    type PartialState = ();

    ghost supports_partial = { false };

    ghost flag = { λ _. false };

    #[inline(always)]
    fn complete(&mut self) {}

    #[inline(always)]
    fn restore_partial(&mut self, _state: ()) {}

    #[inline(always)]
    fn is_partial_supported() -> bool
        ensures { result ≡ false }
    {
        false
    }

    #[inline(always)]
    fn is_partial(&self) -> bool {
        false
    }

    ghost whole = { λ _ _. refl };

    ghost whole_state = { λ _ _. refl };
}

impl<'t, T> UpdateSlice for TokenSlice<'t, T> {
    #[inline(always)]
    fn update_slice(self, slice: &'t [T]) -> TokenSlice<'t, T> {
        TokenSlice::new(slice)
    }

    ghost one_list = { one_counted };
}
