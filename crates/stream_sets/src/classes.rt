//! Sets of characters, by the classes of ASCII.
ghost use Rattle.std.specs.Prelude.{◌↔◌, IsTrue};
ghost use Rattle.stream_sets.specs.AsChar.{IsAlpha, IsAlphanum, IsDecDigit, IsHexDigit, IsOctDigit};
ghost use Rattle.stream_sets.specs.AsChar.{IsSpace, IsMultispace};

use crate::as_char::AsChar;
use crate::sets::ContainsToken;

/// The set of ASCII letters.
///
/// ```
/// assert!(rt; Letters.contains_token(b'a'));
/// assert!(rt; !Letters.contains_token(b'1'));
/// ```
#[derive(Clone, Copy, Debug, PartialEq, Eq)]
pub struct Letters;

impl<T: AsChar> ContainsToken<T> for Letters {
    ghost tells = { λ s t b. IsTrue b ↔ IsAlpha (T.code t) };

    #[inline(always)]
    fn contains_token(&self, token: T) -> bool {
        token.is_alpha()
    }
}

/// The set of ASCII letters and digits.
///
/// ```
/// assert!(rt; Alphanumerics.contains_token(b'a'));
/// assert!(rt; !Alphanumerics.contains_token(b'-'));
/// ```
#[derive(Clone, Copy, Debug, PartialEq, Eq)]
pub struct Alphanumerics;

impl<T: AsChar> ContainsToken<T> for Alphanumerics {
    ghost tells = { λ s t b. IsTrue b ↔ IsAlphanum (T.code t) };

    #[inline(always)]
    fn contains_token(&self, token: T) -> bool {
        token.is_alphanum()
    }
}

/// The set of ASCII digits.
///
/// ```
/// assert!(rt; DecimalDigits.contains_token(b'7'));
/// assert!(rt; !DecimalDigits.contains_token(b'a'));
/// ```
#[derive(Clone, Copy, Debug, PartialEq, Eq)]
pub struct DecimalDigits;

impl<T: AsChar> ContainsToken<T> for DecimalDigits {
    ghost tells = { λ s t b. IsTrue b ↔ IsDecDigit (T.code t) };

    #[inline(always)]
    fn contains_token(&self, token: T) -> bool {
        token.is_dec_digit()
    }
}

/// The set of hexadecimal digits, in either case.
///
/// ```
/// assert!(rt; HexadecimalDigits.contains_token(b'f'));
/// assert!(rt; !HexadecimalDigits.contains_token(b'g'));
/// ```
#[derive(Clone, Copy, Debug, PartialEq, Eq)]
pub struct HexadecimalDigits;

impl<T: AsChar> ContainsToken<T> for HexadecimalDigits {
    ghost tells = { λ s t b. IsTrue b ↔ IsHexDigit (T.code t) };

    #[inline(always)]
    fn contains_token(&self, token: T) -> bool {
        token.is_hex_digit()
    }
}

/// The set of octal digits.
///
/// ```
/// assert!(rt; OctalDigits.contains_token(b'7'));
/// assert!(rt; !OctalDigits.contains_token(b'8'));
/// ```
#[derive(Clone, Copy, Debug, PartialEq, Eq)]
pub struct OctalDigits;

impl<T: AsChar> ContainsToken<T> for OctalDigits {
    ghost tells = { λ s t b. IsTrue b ↔ IsOctDigit (T.code t) };

    #[inline(always)]
    fn contains_token(&self, token: T) -> bool {
        token.is_oct_digit()
    }
}

/// The set of space and tab.
///
/// ```
/// assert!(rt; Spaces.contains_token(b' '));
/// assert!(rt; !Spaces.contains_token(b'\n'));
/// ```
#[derive(Clone, Copy, Debug, PartialEq, Eq)]
pub struct Spaces;

impl<T: AsChar> ContainsToken<T> for Spaces {
    ghost tells = { λ s t b. IsTrue b ↔ IsSpace (T.code t) };

    #[inline(always)]
    fn contains_token(&self, token: T) -> bool {
        token.is_space()
    }
}

/// The set of space, tab, carriage return and line feed.
///
/// ```
/// assert!(rt; Multispaces.contains_token(b'\n'));
/// assert!(rt; !Multispaces.contains_token(b'a'));
/// ```
#[derive(Clone, Copy, Debug, PartialEq, Eq)]
pub struct Multispaces;

impl<T: AsChar> ContainsToken<T> for Multispaces {
    ghost tells = { λ s t b. IsTrue b ↔ IsMultispace (T.code t) };

    #[inline(always)]
    fn contains_token(&self, token: T) -> bool {
        matches!(token.as_char(), ' ' | '\t' | '\r' | '\n')
    }
}
