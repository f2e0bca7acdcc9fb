//! The bits of bytes, each with its offset.
#![tactic(auto)]

ghost use Rattle.std.specs.Prelude.{◌≡◌, ◌<◌, ◌≤◌, ◌+◌, ◌*◌, ◌^◌, length, true, map, drop, []};
ghost use Rattle.std.specs.Iterator.{at_most};
ghost use Rattle.streams.specs.Stream.{GivesNext, with_offsets};
ghost use Rattle.stream_bits.specs.BitList.{bits_of};
ghost use Rattle.stream_bits.specs.Offsets.{bits_to_come};

use streams::byte_stream::ByteStream;

/// The bits left, each with its offset in bits.
///
/// ```
/// let mut bits = Bits(b"\x81".as_slice(), 6).iter_offsets();
/// assert_eq!(rt; bits.next(), Some((0, false)));
/// assert_eq!(rt; bits.next(), Some((1, true)));
/// assert_eq!(rt; bits.next(), None);
/// ```
#[derive(Drop)]
pub struct BitOffsets<I: ByteStream> {
    bytes: I::IterOffsets,
    begun: u8,
    ahead: usize,
    offset: usize,
    possible: bool,
    ghost inside: { ahead < 8 },
    ghost fits: { offset + length (bits_to_come possible (I.offsets_left bytes) begun ahead)
        < 2 ^ 64 },
}

impl<I: ByteStream> BitOffsets<I> {
    /// Returns the bits of `bytes` after the first `read` bits of the first byte.
    #[inline(always)]
    pub(crate) fn new(bytes: I::IterOffsets, read: usize) -> BitOffsets<I>
        requires can { I.IterOffsets.can_next bytes }
        requires inside { read < 8 }
        requires there { read ≤ 8 * length (I.offsets_left bytes) }
        requires few { 8 * length (I.offsets_left bytes) < 2 ^ 64 }
        ensures can { ⟦<BitOffsets<I> as Iterator>⟧.can_next result }
        ensures start { result.offset ≡ 0 }
        ensures bits { bits_to_come result.possible (I.offsets_left result.bytes) result.begun
            result.ahead ≡ drop read (bits_of (map (λ x. x.1) (I.offsets_left bytes))) }
    {
        let mut bytes = bytes;
        if read == 0 {
            return BitOffsets {
                bytes,
                begun: 0,
                ahead: 0,
                offset: 0,
                possible: true,
            };
        }
        match bytes.next() {
            Some((_, begun)) => {
                return BitOffsets {
                    bytes,
                    begun,
                    ahead: 8 - read,
                    offset: 0,
                    possible: true,
                };
            }
            None => BitOffsets::none(bytes),
        }
    }

    /// No bits.
    #[inline(always)]
    pub(crate) fn none(bytes: I::IterOffsets) -> BitOffsets<I>
        ensures can { ⟦<BitOffsets<I> as Iterator>⟧.can_next result }
        ensures start { result.offset ≡ 0 }
        ensures bits { bits_to_come result.possible (I.offsets_left result.bytes) result.begun
            result.ahead ≡ [] }
    {
        BitOffsets {
            bytes,
            begun: 0,
            ahead: 0,
            offset: 0,
            possible: false,
        }
    }
}

impl<I: ByteStream> Iterator for BitOffsets<I> {
    type Item = (usize, bool);

    ghost can_next = { λ s. s.possible ≡ true → I.IterOffsets.can_next s.bytes };

    ghost next_gives = { λ s r t.
        GivesNext
        (with_offsets length s.offset
        (bits_to_come s.possible (I.offsets_left s.bytes) s.begun s.ahead))
        r
        (with_offsets length t.offset
        (bits_to_come t.possible (I.offsets_left t.bytes) t.begun t.ahead)) };

    ghost remaining = { λ s. at_most
        (length (bits_to_come s.possible (I.offsets_left s.bytes) s.begun s.ahead)) };

    #[inline(always)]
    fn next(&mut self) -> Option<(usize, bool)> {
        if !self.possible {
            return None;
        }
        let offset = self.offset;
        if self.ahead == 0 {
            match self.bytes.next() {
                Some((_, begun)) => {
                    self.begun = begun;
                    self.ahead = 7;
                    self.offset = offset + 1;
                    return Some((offset, (begun >> 7usize) % 2 == 1));
                }
                None => {
                    self.possible = false;
                    return None;
                }
            }
        }
        self.ahead -= 1;
        self.offset = offset + 1;
        Some((offset, (self.begun >> self.ahead) % 2 == 1))
    }
}
