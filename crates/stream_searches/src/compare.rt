//! Comparisons of the input with a literal.
//!
//! Those of bytes are here, those of other streams in the files below.
ghost use Rattle.std.specs.Prelude.{◌≡◌, ◌≤◌, List, [], ◌∷◌, length};
ghost use Rattle.std.specs.Bool.{Decides};
ghost use Rattle.std.specs.Char.{encode_utf8};
ghost use Rattle.stream_searches.specs.Compare.{ComparesAs, StartsWithSpelling};
ghost use Rattle.stream_searches.specs.Compare.{same-length};

mod caseless;
mod text;
mod tokens;
mod wrapped;

use streams::stream::Stream;

/// The result of comparing the input with a literal.
#[derive(Clone, Copy, Debug, PartialEq, Eq)]
pub enum CompareResult {
    /// The input starts with the literal. Holds the length of the match in units.
    Ok(usize),
    /// The input is a proper prefix of the literal.
    Incomplete,
    /// Neither.
    Error,
}

/// A stream that can be compared with a literal of type `T`.
///
/// ```
/// assert_eq!(rt; b"abc".as_slice().compare(b"ab".as_slice()), CompareResult::Ok(2));
/// assert_eq!(rt; b"a".as_slice().compare(b"ab".as_slice()), CompareResult::Incomplete);
/// assert_eq!(rt; b"b".as_slice().compare(b'a'), CompareResult::Error);
/// ```
pub trait Compare<T>: Stream {
    // The lists of tokens that a literal stands for.
    ghost spells: { T → List Self.Seen → Type 0 };

    /// Compares the first tokens with `literal`. Nothing is consumed.
    fn compare(&self, literal: T) -> CompareResult
        ensures { ComparesAs Self.reading.units (spells literal)
            (Self.view self.now).left.tokens result };

    // All lists that a literal stands for take the same units.
    ghost same_units: { (t : T) (xs ys : List Self.Seen) → spells t xs → spells t ys
        → Self.reading.units xs ≡ Self.reading.units ys };
}

/// The longest literal that is compared in place if its type has its length: the loop is unrolled
/// then, where a call would cost more than the comparison.
const KNOWN: usize = 8;

/// The same if the length is known only at run time.
pub(crate) const UNKNOWN: usize = 0;

/// Returns whether bytes start with the literal, which is compared in place up to a length.
#[inline(always)]
pub(crate) fn begins_with(all: &[u8], literal: &[u8], in_place: usize) -> bool
    requires { length literal.now ≤ length all.now }
    ensures { Decides result (StartsWithSpelling (λ xs. xs ≡ literal.now) all.now) }
{
    let count = literal.len();
    if count > in_place {
        // Most literals that do not match differ in the first byte, which needs no call.
        if all[0] != literal[0] {
            return false;
        }
        return all.starts_with(literal);
    }
    for at in 0..count {
        if all[at] != literal[at] {
            return false;
        }
    }
    true
}

/// Compares bytes with bytes, in place up to a length; each is looked at once.
#[inline(always)]
pub(crate) fn compare_bytes(all: &[u8], literal: &[u8], in_place: usize) -> CompareResult
    ensures { ComparesAs length (λ xs. xs ≡ literal.now) all.now result }
{
    if literal.len() <= all.len() {
        if begins_with(all, literal, in_place) {
            CompareResult::Ok(literal.len())
        } else {
            CompareResult::Error
        }
    } else if literal.starts_with(all) {
        CompareResult::Incomplete
    } else {
        CompareResult::Error
    }
}

impl<'a> Compare<u8> for &'a [u8] {
    ghost spells = { λ b xs. xs ≡ b ∷ [] };

    #[inline(always)]
    fn compare(&self, literal: u8) -> CompareResult {
        let all = *self;
        match all {
            [] => CompareResult::Incomplete,
            [first, ..] => {
                if *first == literal {
                    CompareResult::Ok(1)
                } else {
                    CompareResult::Error
                }
            }
        }
    }

    ghost same_units = { λ t xs ys p q. same-length p q };
}

impl<'a, 'b> Compare<&'b [u8]> for &'a [u8] {
    ghost spells = { λ s xs. xs ≡ s.now };

    #[inline(always)]
    fn compare(&self, literal: &'b [u8]) -> CompareResult {
        compare_bytes(*self, literal, UNKNOWN)
    }

    ghost same_units = { λ t xs ys p q. same-length p q };
}

impl<'a, const N: usize> Compare<[u8; N]> for &'a [u8] {
    ghost spells = { λ s xs. xs ≡ s };

    #[inline(always)]
    fn compare(&self, literal: [u8; N]) -> CompareResult {
        compare_bytes(*self, literal.as_slice(), KNOWN)
    }

    ghost same_units = { λ t xs ys p q. same-length p q };
}

impl<'a, 'b, const N: usize> Compare<&'b [u8; N]> for &'a [u8] {
    ghost spells = { λ s xs. xs ≡ s.now };

    #[inline(always)]
    fn compare(&self, literal: &'b [u8; N]) -> CompareResult {
        compare_bytes(*self, literal.as_slice(), KNOWN)
    }

    ghost same_units = { λ t xs ys p q. same-length p q };
}

/// A character stands for the bytes of its UTF-8.
impl<'a> Compare<char> for &'a [u8] {
    ghost spells = { λ c xs. xs ≡ encode_utf8 c };

    #[inline(always)]
    fn compare(&self, literal: char) -> CompareResult {
        let mut buffer = [0; 4];
        compare_bytes(*self, literal.encode_utf8(&mut buffer).as_bytes(), KNOWN)
    }

    ghost same_units = { λ t xs ys p q. same-length p q };
}

/// A text stands for its bytes.
impl<'a, 'b> Compare<&'b str> for &'a [u8] {
    ghost spells = { λ s xs. xs ≡ s.now };

    #[inline(always)]
    fn compare(&self, literal: &'b str) -> CompareResult {
        compare_bytes(*self, literal.as_bytes(), UNKNOWN)
    }

    ghost same_units = { λ t xs ys p q. same-length p q };
}
