//! Tokens that are characters.
ghost use Rattle.std.specs.Prelude.{◌≡◌, ◌↔◌, ℕ, IsTrue};
ghost use Rattle.stream_sets.specs.AsChar.{IsAlpha, IsAlphanum, IsDecDigit, IsHexDigit, IsOctDigit};
ghost use Rattle.stream_sets.specs.AsChar.{IsSpace, IsNewline};

/// A token that is seen as a character. The classes are those of ASCII: no character from 128 on is
/// in any.
///
/// A byte is the character of its number.
///
/// ```
/// assert!(rt; b'7'.is_dec_digit());
/// assert!(rt; !'é'.is_alpha());
/// assert_eq!(rt; 0xE9_u8.as_char(), 'é');
/// ```
pub trait AsChar {
    // The number of the character.
    ghost code: { Self → ℕ };

    /// The character.
    fn as_char(self) -> char
        ensures { result ≡ code self };

    /// Whether it is an ASCII letter.
    fn is_alpha(self) -> bool
        ensures { IsTrue result ↔ IsAlpha (code self) };

    /// Whether it is an ASCII letter or digit.
    fn is_alphanum(self) -> bool
        ensures { IsTrue result ↔ IsAlphanum (code self) };

    /// Whether it is an ASCII digit.
    fn is_dec_digit(self) -> bool
        ensures { IsTrue result ↔ IsDecDigit (code self) };

    /// Whether it is an ASCII digit, or a letter from `a` to `f` in either case.
    fn is_hex_digit(self) -> bool
        ensures { IsTrue result ↔ IsHexDigit (code self) };

    /// Whether it is an ASCII digit from 0 to 7.
    fn is_oct_digit(self) -> bool
        ensures { IsTrue result ↔ IsOctDigit (code self) };

    /// Whether it is a space or a tab.
    fn is_space(self) -> bool
        ensures { IsTrue result ↔ IsSpace (code self) };

    /// Whether it is a line feed.
    fn is_newline(self) -> bool
        ensures { IsTrue result ↔ IsNewline (code self) };
}

/// The character of its number.
impl AsChar for u8 {
    ghost code = { λ b. b };

    #[inline(always)]
    fn as_char(self) -> char {
        char::from(self)
    }

    #[inline(always)]
    fn is_alpha(self) -> bool {
        matches!(self, b'A'..=b'Z' | b'a'..=b'z')
    }

    #[inline(always)]
    fn is_alphanum(self) -> bool {
        matches!(self, b'A'..=b'Z' | b'a'..=b'z' | b'0'..=b'9')
    }

    #[inline(always)]
    fn is_dec_digit(self) -> bool {
        matches!(self, b'0'..=b'9')
    }

    #[inline(always)]
    fn is_hex_digit(self) -> bool {
        matches!(self, b'0'..=b'9' | b'A'..=b'F' | b'a'..=b'f')
    }

    #[inline(always)]
    fn is_oct_digit(self) -> bool {
        matches!(self, b'0'..=b'7')
    }

    #[inline(always)]
    fn is_space(self) -> bool {
        matches!(self, b' ' | b'\t')
    }

    #[inline(always)]
    fn is_newline(self) -> bool {
        self == b'\n'
    }
}

/// Itself.
impl AsChar for char {
    ghost code = { λ c. c };

    #[inline(always)]
    fn as_char(self) -> char {
        self
    }

    #[inline(always)]
    fn is_alpha(self) -> bool {
        matches!(self, 'A'..='Z' | 'a'..='z')
    }

    #[inline(always)]
    fn is_alphanum(self) -> bool {
        matches!(self, 'A'..='Z' | 'a'..='z' | '0'..='9')
    }

    #[inline(always)]
    fn is_dec_digit(self) -> bool {
        matches!(self, '0'..='9')
    }

    #[inline(always)]
    fn is_hex_digit(self) -> bool {
        matches!(self, '0'..='9' | 'A'..='F' | 'a'..='f')
    }

    #[inline(always)]
    fn is_oct_digit(self) -> bool {
        matches!(self, '0'..='7')
    }

    #[inline(always)]
    fn is_space(self) -> bool {
        matches!(self, ' ' | '\t')
    }

    #[inline(always)]
    fn is_newline(self) -> bool {
        self == '\n'
    }
}

/// The byte after it.
impl AsChar for &u8 {
    ghost code = { λ r. r.now };

    #[inline(always)]
    fn as_char(self) -> char {
        (*self).as_char()
    }

    #[inline(always)]
    fn is_alpha(self) -> bool {
        (*self).is_alpha()
    }

    #[inline(always)]
    fn is_alphanum(self) -> bool {
        (*self).is_alphanum()
    }

    #[inline(always)]
    fn is_dec_digit(self) -> bool {
        (*self).is_dec_digit()
    }

    #[inline(always)]
    fn is_hex_digit(self) -> bool {
        (*self).is_hex_digit()
    }

    #[inline(always)]
    fn is_oct_digit(self) -> bool {
        (*self).is_oct_digit()
    }

    #[inline(always)]
    fn is_space(self) -> bool {
        (*self).is_space()
    }

    #[inline(always)]
    fn is_newline(self) -> bool {
        (*self).is_newline()
    }
}

/// The character after it.
impl AsChar for &char {
    ghost code = { λ r. r.now };

    #[inline(always)]
    fn as_char(self) -> char {
        (*self).as_char()
    }

    #[inline(always)]
    fn is_alpha(self) -> bool {
        (*self).is_alpha()
    }

    #[inline(always)]
    fn is_alphanum(self) -> bool {
        (*self).is_alphanum()
    }

    #[inline(always)]
    fn is_dec_digit(self) -> bool {
        (*self).is_dec_digit()
    }

    #[inline(always)]
    fn is_hex_digit(self) -> bool {
        (*self).is_hex_digit()
    }

    #[inline(always)]
    fn is_oct_digit(self) -> bool {
        (*self).is_oct_digit()
    }

    #[inline(always)]
    fn is_space(self) -> bool {
        (*self).is_space()
    }

    #[inline(always)]
    fn is_newline(self) -> bool {
        (*self).is_newline()
    }
}
