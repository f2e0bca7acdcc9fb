//! Streams of bytes.
ghost use Rattle.std.specs.Prelude.{◌≡◌, ◌<◌, ℕ, true, refl};
ghost use Rattle.std.specs.List.{All};
ghost use Rattle.streams.specs.ByteStream.{CountsBytes, FollowedByBytes, located_counts};

use crate::locating::LocatingSlice;
use crate::partial::Partial;
use crate::stream::Stream;

/// A stream of bytes: its tokens are bytes, each seen as its number, and its units are bytes. It is
/// always between two bytes, and bytes follow it.
///
/// It is implemented by `&[u8]` and by the streams that wrap one. It has the properties that
/// contracts and laws of parsers of bytes need of any stream of bytes.
///
/// ```
/// // It does nothing; its contract says that 97 and 98 are below 256.
/// b"ab".as_slice().shows_bytes();
/// ```
pub trait ByteStream: Stream<Token = u8, Seen = u8> {
    /// Does nothing, and says that each token left is below 256.
    fn shows_bytes(&self)
        ensures { All (λ b. b < 256) (Self.view self.now).left.tokens };

    // Units are bytes, and do not lead into one.
    ghost counts_bytes: { CountsBytes Self.reading };

    // A byte is seen as its number.
    ghost sees_number: { (b : ℕ) → Self.seen_as b ≡ b };

    // The stream is never inside a byte.
    ghost stands_between: { (s : Self) → (Self.view s).left.place.bits_read ≡ 0 };

    // It can always be read.
    ghost always_possible: { (s : Self) → (Self.view s).left.possible ≡ true };

    // More input adds bytes, any of them, and nothing else.
    ghost followed_by_bytes: { FollowedByBytes Self.following };
}

/// Does nothing, and says that each byte of a slice is below 256.
///
/// ```
/// // Behind it 97 and 98 are known to be below 256.
/// each_is_a_byte(b"ab");
/// ```
#[inline(always)]
pub fn each_is_a_byte(bytes: &[u8])
    ensures { All (λ b. b < 256) bytes.now }
{}

impl<'a> ByteStream for &'a [u8] {
    #[inline(always)]
    fn shows_bytes(&self) {
        each_is_a_byte(*self);
    }

    ghost counts_bytes = { record { units = λ bytes. refl; between = λ p n. refl } };

    ghost sees_number = { λ b. refl };

    ghost stands_between = { λ s. refl };

    ghost always_possible = { λ s. refl };

    ghost followed_by_bytes = { record { may = λ left more f. f; only = λ left more f. f } };
}

impl<I: ByteStream> ByteStream for Partial<I> {
    #[inline(always)]
    fn shows_bytes(&self) {
        self.as_inner().shows_bytes();
    }

    ghost counts_bytes = { I.counts_bytes };

    ghost sees_number = { I.sees_number };

    ghost stands_between = { λ s. I.stands_between s.input };

    ghost always_possible = { λ s. I.always_possible s.input };

    ghost followed_by_bytes = { I.followed_by_bytes };
}

impl<I: ByteStream> ByteStream for LocatingSlice<I> {
    #[inline(always)]
    fn shows_bytes(&self) {
        self.as_inner().shows_bytes();
    }

    ghost counts_bytes = { located_counts I.counts_bytes };

    ghost sees_number = { I.sees_number };

    ghost stands_between = { λ s. I.stands_between s.input };

    ghost always_possible = { λ s. I.always_possible s.input };

    ghost followed_by_bytes = { I.followed_by_bytes };
}
