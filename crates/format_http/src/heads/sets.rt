//! The sets of bytes in a head.
#![tactic(auto)]

ghost use Rattle.std.specs.Prelude.{◌↔◌, IsTrue};
ghost use Rattle.format_http.specs.Heads.Bytes.{IsDigit, IsTokenByte, IsValueByte, IsVisible};
ghost use Rattle.format_http.specs.Heads.Bytes.{IsWhite};

use stream_sets::sets::ContainsToken;

/// The bytes of tokens. Names and methods are made of them.
#[derive(Clone, Copy, Drop)]
pub struct TokenBytes;

impl ContainsToken<u8> for TokenBytes {
    ghost tells = { λ s b answer. IsTrue answer ↔ IsTokenByte b };

    #[inline]
    fn contains_token(&self, b: u8) -> bool {
        b.is_ascii_digit()
            || b.is_ascii_uppercase()
            || (b'^' <= b && b <= b'z')
            || b == b'!'
            || (b'#' <= b && b <= b'\'')
            || (b'*' <= b && b <= b'+')
            || (b'-' <= b && b <= b'.')
            || b == b'|'
            || b == b'~'
    }
}

/// The whitespace that may surround a value.
#[derive(Clone, Copy, Drop)]
pub struct White;

impl ContainsToken<u8> for White {
    ghost tells = { λ s b answer. IsTrue answer ↔ IsWhite b };

    #[inline]
    fn contains_token(&self, b: u8) -> bool {
        b == b' ' || b == b'\t'
    }
}

/// The bytes of values.
#[derive(Clone, Copy, Drop)]
pub struct ValueBytes;

impl ContainsToken<u8> for ValueBytes {
    ghost tells = { λ s b answer. IsTrue answer ↔ IsValueByte b };

    #[inline]
    fn contains_token(&self, b: u8) -> bool {
        (b >= 32 && b != 127) || b == b'\t'
    }
}

/// The visible bytes. Targets are made of them.
#[derive(Clone, Copy, Drop)]
pub struct Visible;

impl ContainsToken<u8> for Visible {
    ghost tells = { λ s b answer. IsTrue answer ↔ IsVisible b };

    #[inline]
    fn contains_token(&self, b: u8) -> bool {
        b'!' <= b && b <= b'~'
    }
}

/// The decimal digits.
#[derive(Clone, Copy, Drop)]
pub struct Digits;

impl ContainsToken<u8> for Digits {
    ghost tells = { λ s b answer. IsTrue answer ↔ IsDigit b };

    #[inline]
    fn contains_token(&self, b: u8) -> bool {
        b.is_ascii_digit()
    }
}
