//! Sets of tokens.
ghost use Rattle.std.specs.Prelude.{◌≡◌, ◌↔◌, ◌≤◌, ◌<◌, IsTrue, Bool, true, ⊤};
ghost use Rattle.std.specs.Range.{range_inclusive_start, range_inclusive_end};
ghost use Rattle.stream_sets.specs.Sets.{HasCode};

mod tuples;

use crate::as_char::AsChar;
use std::ops;

/// A set of tokens: a byte or a character, a range of them, a list of them, a tuple of one to ten
/// sets, or all tokens for which a closure holds.
///
/// Tokens are compared as characters: a byte is the character of its number.
///
/// ```
/// assert!(rt; b'a'.contains_token(b'a'));
/// assert!(rt; !('a'..='f').contains_token(b'g'));
/// assert!(rt; [b' ', b'\t'].contains_token('\t'));
/// assert!(rt; (b'_', 'a'..='z').contains_token(b'_'));
/// assert!(rt; !Pred(|b: u8| b.is_ascii_digit()).contains_token(b'a'));
/// ```
pub trait ContainsToken<T> {
    // The states in which any token may be tested.
    ghost can_test: { Self → Type 0 } = { λ _. ⊤ };

    // Whether a token is a member.
    ghost tells: { Self → T → Bool → Type 0 };

    /// Whether `token` is a member.
    fn contains_token(&self, token: T) -> bool
        requires { can_test self.now }
        ensures { tells self.now token result };
}

/// The byte, or the character of its number.
impl<T: AsChar> ContainsToken<T> for u8 {
    ghost tells = { λ s t b. IsTrue b ↔ (T.code t ≡ s) };

    #[inline(always)]
    fn contains_token(&self, token: T) -> bool {
        token.as_char() == char::from(*self)
    }
}

/// The character, or the byte of its number.
impl<T: AsChar> ContainsToken<T> for char {
    ghost tells = { λ s t b. IsTrue b ↔ (T.code t ≡ s) };

    #[inline(always)]
    fn contains_token(&self, token: T) -> bool {
        token.as_char() == *self
    }
}

/// The characters from one to another, without that.
impl<T: AsChar, C: AsChar + Copy> ContainsToken<T> for ops::Range<C> {
    ghost tells = { λ s t b. IsTrue b ↔ ((C.code s.start ≤ T.code t) × (T.code t < C.code s.end)) };

    #[inline(always)]
    fn contains_token(&self, token: T) -> bool {
        let character = token.as_char();
        self.start.as_char() <= character && character < self.end.as_char()
    }
}

/// The characters from one to another, with that.
impl<T: AsChar, C: AsChar + Copy> ContainsToken<T> for ops::RangeInclusive<C> {
    ghost tells = { λ s t b. IsTrue b
        ↔ ((C.code (range_inclusive_start s) ≤ T.code t)
        × (T.code t ≤ C.code (range_inclusive_end s))) };

    #[inline(always)]
    fn contains_token(&self, token: T) -> bool {
        let character = token.as_char();
        (*self.start()).as_char() <= character && character <= (*self.end()).as_char()
    }
}

/// The characters from one on.
impl<T: AsChar, C: AsChar + Copy> ContainsToken<T> for ops::RangeFrom<C> {
    ghost tells = { λ s t b. IsTrue b ↔ (C.code s.start ≤ T.code t) };

    #[inline(always)]
    fn contains_token(&self, token: T) -> bool {
        self.start.as_char() <= token.as_char()
    }
}

/// The characters before one.
impl<T: AsChar, C: AsChar + Copy> ContainsToken<T> for ops::RangeTo<C> {
    ghost tells = { λ s t b. IsTrue b ↔ (T.code t < C.code s.end) };

    #[inline(always)]
    fn contains_token(&self, token: T) -> bool {
        token.as_char() < self.end.as_char()
    }
}

/// The characters up to one, with that.
impl<T: AsChar, C: AsChar + Copy> ContainsToken<T> for ops::RangeToInclusive<C> {
    ghost tells = { λ s t b. IsTrue b ↔ (T.code t ≤ C.code s.end) };

    #[inline(always)]
    fn contains_token(&self, token: T) -> bool {
        token.as_char() <= self.end.as_char()
    }
}

/// All tokens.
impl<T: Drop> ContainsToken<T> for ops::RangeFull {
    ghost tells = { λ s t b. b ≡ true };

    #[inline(always)]
    fn contains_token(&self, _token: T) -> bool {
        true
    }
}

/// The characters of a list.
impl<'a, T: AsChar, C: AsChar + Copy> ContainsToken<T> for &'a [C] {
    ghost tells = { λ s t b. IsTrue b ↔ HasCode C.code s.now (T.code t) };

    #[inline(always)]
    fn contains_token(&self, token: T) -> bool {
        is_among(*self, token.as_char())
    }
}

/// The characters of a list.
impl<T: AsChar, C: AsChar + Copy, const N: usize> ContainsToken<T> for [C; N] {
    ghost tells = { λ s t b. IsTrue b ↔ HasCode C.code s (T.code t) };

    #[inline(always)]
    fn contains_token(&self, token: T) -> bool {
        is_among(self, token.as_char())
    }
}

/// The characters of a list.
impl<'a, T: AsChar, C: AsChar + Copy, const N: usize> ContainsToken<T> for &'a [C; N] {
    ghost tells = { λ s t b. IsTrue b ↔ HasCode C.code s.now (T.code t) };

    #[inline(always)]
    fn contains_token(&self, token: T) -> bool {
        is_among(*self, token.as_char())
    }
}

/// Whether one of the members is the character.
#[inline(always)]
fn is_among<C: AsChar + Copy>(members: &[C], character: char) -> bool
    ensures { IsTrue result ↔ HasCode C.code members.now character }
{
    members
        .iter()
        .any(|member: &C| (*member).as_char() == character)
}

/// The set of the tokens for which a closure returns true. The closure's result must depend only on
/// the token.
#[derive(Clone, Copy, Drop)]
pub struct Pred<F>(pub F);

impl<T, F: Fn(T) -> bool> ContainsToken<T> for Pred<F> {
    ghost can_test = { λ s. F.IsAlwaysCallable s.0 };

    ghost tells = { λ s t b. F.post s.0 t b };

    #[inline(always)]
    fn contains_token(&self, token: T) -> bool {
        (self.0)(token)
    }
}
