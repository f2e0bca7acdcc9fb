//! Slices that are read as text.
ghost use Rattle.std.specs.Prelude.{Option};
ghost use Rattle.stream_sets.specs.ParseSlice.{ParsesAs, ReadsBytes};

use std::str::FromStr;

/// A slice that can be read as a value of the type `R`, by its `FromStr`.
///
/// ```
/// assert_eq!(rt; "12".parse_slice(), Some(12_u8));
/// assert_eq!(rt; b"256".as_slice().parse_slice(), None::<u8>);
/// ```
pub trait ParseSlice<R> {
    // The value that a slice is parsed as.
    ghost reads: { Self → Option R → Type 0 };

    /// Parses the slice as a value. Returns `None` if the type rejects the text, or if bytes are
    /// not UTF-8.
    fn parse_slice(&self) -> Option<R>
        ensures { reads self.now result };
}

impl<'a, R: FromStr> ParseSlice<R> for &'a str
where
    R::Err: Drop,
{
    ghost reads = { λ slice result. ParsesAs R.from_str_gives slice.now result };

    #[inline]
    fn parse_slice(&self) -> Option<R> {
        self.parse().ok()
    }
}

impl<'a, R: FromStr> ParseSlice<R> for &'a [u8]
where
    R::Err: Drop,
{
    ghost reads = { λ slice result. ReadsBytes R.from_str_gives slice.now result };

    #[inline]
    fn parse_slice(&self) -> Option<R> {
        match str::from_utf8(self) {
            Ok(text) => text.parse().ok(),
            Err(_) => None,
        }
    }
}
