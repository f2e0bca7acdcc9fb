//! The bits of bytes as a stream.
#![tactic(auto, using(streams::specs::Ends::ends_follow))]

ghost use Rattle.std.specs.Prelude.{◌≡◌, ◌<◌, ◌≤◌, ◌+◌, ◌*◌, ◌/◌, ◌%◌, ◌==◌};
ghost use Rattle.std.specs.Prelude.{true, false, length, [], MatchOption};
ghost use Rattle.streams.specs.Input.{IsEndOf, Takes};
ghost use Rattle.stream_bits.specs.BitInput.{bits_follow, bits_from, bits_input, bits_left};
ghost use Rattle.stream_bits.specs.BitReading.{IsBitPosition, bits_reading};
ghost use Rattle.stream_bits.specs.Offsets.{bits_to_come};
ghost use Rattle.streams.specs.Stream.{Cuts, IsBoundary, with_offsets};
ghost use Rattle.stream_bits.specs.Within.{ReadsNumber};

use crate::offsets::BitOffsets;
use streams::byte_stream::ByteStream;
use streams::needed::Needed;
use streams::stream::{Location, Stream, StreamIsPartial};
use streams::token_test::TokenTest;

/// The maximum number of bytes whose bits a number of 64 bits counts.
const MOST_BYTES: usize = usize::MAX / 8;

/// The bits of a stream of bytes, the most significant bit of each byte first.
///
/// The second field is the number of bits of the first byte that have been read. Offsets count
/// bits.
///
/// A value is impossible if that number is 8 or more, if it is not 0 and no byte remains, or if
/// there are more than `usize::MAX / 8` bytes. It has no bits left, and does not change.
///
/// ```
/// let mut input = Bits(b"\x80".as_slice(), 0);
/// assert_eq!(rt; input.next_token(), Some(true));
/// assert_eq!(rt; input, Bits(b"\x80".as_slice(), 1));
/// ```
#[derive(Clone, Copy, Debug, PartialEq, Eq, Drop)]
pub struct Bits<I>(pub I, pub usize);

/// A place of a stream of bits to go back to.
#[derive(Drop)]
pub struct BitsCheckpoint<I: ByteStream> {
    bytes: I::Checkpoint,
    offset: usize,
    left: usize,
    ghost counted: { left ≡ length (bits_from (I.seen bytes).tokens offset) },
}

impl<I: ByteStream> Bits<I> {
    /// Whether the value is possible: whether its bits can be read.
    ///
    /// ```
    /// assert!(rt; !Bits(b"\x80".as_slice(), 8).is_possible());
    /// ```
    #[inline(always)]
    pub fn is_possible(&self) -> bool
        ensures { result ≡ (⟦<Bits<I> as Stream>⟧.view self.now).left.possible }
    {
        let bytes = self.0.eof_offset();
        self.1 < 8 && (self.1 == 0 || 0 < bytes) && bytes <= MOST_BYTES
    }

    /// Whether the value is possible and `count` bits remain, of which there is at least one.
    /// It compares bytes, which the compiler joins for consecutive constant counts.
    ///
    /// ```
    /// assert!(rt; Bits(b"\xAB".as_slice(), 4).has(4));
    /// assert!(rt; !Bits(b"\xAB".as_slice(), 4).has(5));
    /// ```
    #[inline(always)]
    pub fn has(&self, count: usize) -> bool
        requires some { 0 < count }
        ensures yes { result ≡ true → ((⟦<Bits<I> as Stream>⟧.view self.now).left.possible ≡ true)
            × (count ≤ length (⟦<Bits<I> as Stream>⟧.view self.now).left.tokens) }
        ensures no { result ≡ false → (⟦<Bits<I> as Stream>⟧.view self.now).left.possible ≡ true
            → length (⟦<Bits<I> as Stream>⟧.view self.now).left.tokens < count }
    {
        let bytes = self.0.eof_offset();
        self.1 < 8 && bytes <= MOST_BYTES && count / 8 + (count % 8 + self.1 + 7) / 8 <= bytes
    }

    /// Consumes the next `count` bits and returns them as a number, or `None` if no byte remains.
    ///
    /// The value must be possible, and the bits must be in one byte.
    ///
    /// ```
    /// assert_eq!(rt; Bits(b"\xAB".as_slice(), 4).next_of_byte(4), Some(0xB));
    /// ```
    #[inline(always)]
    pub fn next_of_byte(&mut self, count: usize) -> Option<u8>
        requires possible { (⟦<Bits<I> as Stream>⟧.view self.old).left.possible ≡ true }
        requires some { 0 < count }
        requires within { self.old.1 + count ≤ 8 }
        ensures { MatchOption result
            (((⟦<Bits<I> as Stream>⟧.view self.old).left.tokens ≡ [])
            × (⟦<Bits<I> as Stream>⟧.view self.new ≡ ⟦<Bits<I> as Stream>⟧.view self.old))
            (λ n. ReadsNumber (bits_reading I.reading) count (⟦<Bits<I> as Stream>⟧.view self.old)
            n (⟦<Bits<I> as Stream>⟧.view self.new)) }
    {
        let start = self.0.checkpoint();
        let byte = self.0.next_token()?;
        let least = 8 - self.1 - count;
        let number = ((byte as u16 >> least) % (1u16 << count)) as u8;
        if least == 0 {
            self.1 = 0;
            return Some(number);
        }
        self.0.reset(&start);
        self.1 += count;
        Some(number)
    }
}

impl<I: ByteStream> Stream for Bits<I> {
    type Token = bool;

    type Seen = bool;

    type Slice = (I::Slice, usize, usize);

    type IterOffsets = BitOffsets<I>;

    type Checkpoint = BitsCheckpoint<I>;

    ghost view = { λ s. bits_input (I.view s.0) s.1 };

    ghost seen = { λ c. bits_left (I.seen c.bytes) c.offset };

    ghost reading = { bits_reading I.reading };

    ghost seen_as = { λ b. b };

    ghost counts_missing = { true };

    ghost following = { bits_follow I.reading };

    ghost offsets_left = { λ s. with_offsets length s.offset
        (bits_to_come s.possible (I.offsets_left s.bytes) s.begun s.ahead) };

    fn iter_offsets(&self) -> BitOffsets<I> {
        let bytes = self.0.iter_offsets();
        if self.is_possible() {
            BitOffsets::new(bytes, self.1)
        } else {
            BitOffsets::none(bytes)
        }
    }

    #[inline(always)]
    fn eof_offset(&self) -> usize {
        if self.is_possible() {
            8 * self.0.eof_offset() - self.1
        } else {
            0
        }
    }

    #[inline(always)]
    fn next_token(&mut self) -> Option<bool> {
        if self.is_possible() {
            let number = self.next_of_byte(1)?;
            Some(number == 1)
        } else {
            None
        }
    }

    #[inline(always)]
    fn offset_for<P: TokenTest<bool> + Drop>(&self, predicate: P) -> Option<usize> {
        for (offset, bit) in self.iter_offsets() {
            if predicate.test(bit) {
                return Some(offset);
            }
        }
        None
    }

    #[inline(always)]
    fn offset_at(&self, tokens: usize) -> Result<usize, Needed> {
        let left = self.eof_offset();
        if tokens <= left {
            Ok(tokens)
        } else {
            Err(Needed::new(tokens - left))
        }
    }

    #[inline(always)]
    fn next_slice(&mut self, offset: usize) -> (I::Slice, usize, usize)
        requires { IsBoundary length (bits_from (I.view self.old.0).left.tokens self.old.1)
            offset }
        ensures ends { IsEndOf (bits_reading I.reading) (bits_input (I.view self.new.0) self.new.1)
            (bits_input (I.view self.old.0) self.old.1) }
        ensures cuts { Cuts (bits_reading I.reading) offset
            (bits_input (I.view self.old.0) self.old.1) result
            (bits_input (I.view self.new.0) self.new.1) }
        ensures stands { IsBitPosition I.reading (I.view self.old.0).left.tokens self.old.1
            offset result self.new.1 }
    {
        let start = self.1;
        if offset == 0 {
            return (self.0.next_slice(0), start, start);
        }
        let end = start + offset;
        self.1 = end % 8;
        (self.0.next_slice(end / 8), start, end % 8)
    }

    #[inline(always)]
    fn finish(&mut self) -> (I::Slice, usize, usize)
        ensures ends { IsEndOf (bits_reading I.reading) (bits_input (I.view self.new.0) self.new.1)
            (bits_input (I.view self.old.0) self.old.1) }
        ensures takes { Takes (bits_reading I.reading)
            (bits_from (I.view self.old.0).left.tokens self.old.1)
            (bits_input (I.view self.old.0) self.old.1) result
            (bits_input (I.view self.new.0) self.new.1) }
        ensures nothing { bits_from (I.view self.new.0).left.tokens self.new.1 ≡ [] }
        ensures stands { IsBitPosition I.reading (I.view self.old.0).left.tokens self.old.1
            (length (bits_from (I.view self.old.0).left.tokens self.old.1)) result self.new.1 }
    {
        let left = self.eof_offset();
        self.next_slice(left)
    }

    #[inline(always)]
    fn checkpoint(&self) -> BitsCheckpoint<I> {
        let left = self.eof_offset();
        BitsCheckpoint {
            bytes: self.0.checkpoint(),
            offset: self.1,
            left,
        }
    }

    #[inline(always)]
    fn reset(&mut self, checkpoint: &BitsCheckpoint<I>) {
        self.0.reset(&checkpoint.bytes);
        self.1 = checkpoint.offset;
    }

    #[inline(always)]
    fn offset_from(&self, start: &BitsCheckpoint<I>) -> usize {
        start.left - self.eof_offset()
    }

    ghost offsets_step = { λ s r t e. e };
}

impl<I: ByteStream + StreamIsPartial> StreamIsPartial for Bits<I> {
    type PartialState = I::PartialState;

    ghost supports_partial = { I.supports_partial };

    ghost flag = { I.flag };

    #[inline(always)]
    fn complete(&mut self) -> I::PartialState {
        self.0.complete()
    }

    #[inline(always)]
    fn restore_partial(&mut self, state: I::PartialState) {
        self.0.restore_partial(state);
    }

    #[inline(always)]
    fn is_partial_supported() -> bool
        ensures { result ≡ I.supports_partial }
    {
        I::is_partial_supported()
    }

    #[inline(always)]
    fn is_partial(&self) -> bool {
        self.0.is_partial()
    }

    ghost whole = { λ none s. I.whole none s.0 };

    ghost whole_state = { I.whole_state };
}

impl<I: ByteStream + Location> Location for Bits<I> {
    #[inline(always)]
    fn current_token_start(&self) -> usize {
        self.0.current_token_start()
    }

    #[inline(always)]
    fn previous_token_end(&self) -> usize {
        self.0.previous_token_end()
    }
}
