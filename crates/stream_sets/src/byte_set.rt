//! A set of bytes as a table.
ghost use Rattle.std.specs.Prelude.{◌≡◌, ◌<◌, ◌≤◌, ◌+◌, ◌-◌, ◌==◌, ◌||◌, ℕ, not};
ghost use Rattle.std.specs.Int.{bit_at};
ghost use Rattle.stream_sets.specs.ByteSet.{has_byte, members_below};

use crate::sets::ContainsToken;

/// A set of bytes: four words of 64 bits, a bit for each byte. It takes no memory, and asking it
/// is one look-up.
///
/// ```
/// let blanks = ByteSet::from_set(&(b' ', b'\t'));
/// assert!(rt; blanks.contains(b' '));
/// assert!(rt; !blanks.complement().contains(b' '));
/// assert_eq!(rt; blanks.union(ByteSet::from_set(&b'\n')).len(), 3);
/// ```
#[derive(Clone, Copy, Debug, PartialEq, Eq)]
pub struct ByteSet {
    words: [u64; 4],
}

impl ByteSet {
    /// Returns the set of the bytes that `set` contains. Tests each of the 256 bytes once.
    ///
    /// ```
    /// assert_eq!(rt; ByteSet::from_set(&(b'0'..=b'9')).len(), 10);
    /// ```
    pub fn from_set<S: ContainsToken<u8>>(set: &S) -> ByteSet
        requires { S.can_test set.now }
        ensures members { (b : ℕ) → b < 256 → S.tells set.now b (has_byte result b) }
    {
        ByteSet {
            words: [
                word_of(set, 0),
                word_of(set, 64),
                word_of(set, 128),
                word_of(set, 192),
            ],
        }
    }

    /// Whether `byte` is a member.
    #[inline(always)]
    pub fn contains(&self, byte: u8) -> bool
        ensures { result ≡ has_byte self.now byte }
    {
        self.words[byte as usize / 64] >> (byte % 64) & 1 == 1
    }

    /// Returns the set of all bytes that are not in `self`.
    pub fn complement(self) -> ByteSet
        ensures { (b : ℕ) → b < 256 → has_byte result b ≡ not (has_byte self b) }
    {
        ByteSet {
            words: [
                flipped(self.words[0]),
                flipped(self.words[1]),
                flipped(self.words[2]),
                flipped(self.words[3]),
            ],
        }
    }

    /// The bytes that are members of either set.
    pub fn union(self, other: ByteSet) -> ByteSet
        ensures { (b : ℕ) → b < 256 → has_byte result b ≡ (has_byte self b || has_byte other b) }
    {
        ByteSet {
            words: [
                self.words[0] | other.words[0],
                self.words[1] | other.words[1],
                self.words[2] | other.words[2],
                self.words[3] | other.words[3],
            ],
        }
    }

    /// The number of members, 0 to 256.
    #[tactic(auto, unfolding(crate::specs::ByteSet::members_below))]
    pub fn len(&self) -> usize
        ensures { result ≡ members_below self.now 256 }
    {
        let mut members = 0;
        for byte in 0..256_u16 {
            if self.contains(byte as u8) {
                members += 1;
            }
        }
        members
    }
}

/// The bits of 64 bytes from one on that a set contains.
fn word_of<S: ContainsToken<u8>>(set: &S, first: u8) -> u64
    requires callable { S.can_test set.now }
    requires within { first ≤ 192 }
    ensures { (i : ℕ) → i < 64 → S.tells set.now (first + i) (bit_at result i == 1) }
{
    let mut word = 0;
    for bit in 0..64 {
        if set.contains_token(first + bit) {
            word |= 1 << bit;
        }
    }
    word
}

/// A word with each bit the other one.
fn flipped(word: u64) -> u64
    ensures { (i : ℕ) → i < 64 → bit_at result i ≡ 1 - bit_at word i }
{
    !word
}

/// The bytes of the table.
impl ContainsToken<u8> for ByteSet {
    ghost tells = { λ s t b. b ≡ has_byte s t };

    #[inline(always)]
    fn contains_token(&self, token: u8) -> bool {
        self.contains(token)
    }
}
