//! Numbers of tokens.
ghost use Rattle.std.specs.Prelude.{◌≡◌, ℕ};

/// An unsigned integer that a `usize` holds.
///
/// ```
/// assert_eq!(rt; 3u8.to_usize(), 3);
/// ```
pub trait ToUsize {
    // The number.
    ghost number: { Self → ℕ };

    /// The same number.
    fn to_usize(&self) -> usize
        ensures { result ≡ number self.now };
}

impl ToUsize for u8 {
    ghost number = { λ n. n };

    #[inline(always)]
    fn to_usize(&self) -> usize {
        usize::from(*self)
    }
}

impl ToUsize for u16 {
    ghost number = { λ n. n };

    #[inline(always)]
    fn to_usize(&self) -> usize {
        usize::from(*self)
    }
}

impl ToUsize for u32 {
    ghost number = { λ n. n };

    #[inline(always)]
    fn to_usize(&self) -> usize {
        *self as usize
    }
}

impl ToUsize for u64 {
    ghost number = { λ n. n };

    #[inline(always)]
    fn to_usize(&self) -> usize {
        *self as usize
    }
}

impl ToUsize for usize {
    ghost number = { λ n. n };

    #[inline(always)]
    fn to_usize(&self) -> usize {
        *self
    }
}
