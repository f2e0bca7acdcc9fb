//! Comparisons without regard to ASCII case.
ghost use Rattle.std.specs.Prelude.{[], ◌∷◌, length};
ghost use Rattle.std.specs.Char.{encode_utf8};
ghost use Rattle.std.specs.Str.{chars};
ghost use Rattle.stream_searches.specs.Caseless.{IsCaseless, same_lengths, same_widths};
ghost use Rattle.stream_searches.specs.Compare.{ComparesAs};

use crate::caseless::Caseless;
use crate::compare::{Compare, CompareResult};
use streams::stream::Stream;

/// Compares bytes with bytes without regard to ASCII case; each is looked at once.
#[inline(always)]
fn compare_caseless(all: &[u8], literal: &[u8]) -> CompareResult
    ensures { ComparesAs length (IsCaseless literal.now) all.now result }
{
    let count = literal.len();
    if count <= all.len() {
        if all[..count].eq_ignore_ascii_case(literal) {
            CompareResult::Ok(count)
        } else {
            CompareResult::Error
        }
    } else if all.eq_ignore_ascii_case(&literal[..all.len()]) {
        CompareResult::Incomplete
    } else {
        CompareResult::Error
    }
}

impl<'a> Compare<Caseless<u8>> for &'a [u8] {
    ghost spells = { λ s xs. IsCaseless (s.0 ∷ []) xs };

    #[inline(always)]
    fn compare(&self, literal: Caseless<u8>) -> CompareResult {
        compare_caseless(*self, [literal.0].as_slice())
    }

    ghost same_units = { λ s xs ys p q. same_lengths (s.0 ∷ []) xs ys p q };
}

impl<'a, 'b> Compare<Caseless<&'b [u8]>> for &'a [u8] {
    ghost spells = { λ s xs. IsCaseless s.0.now xs };

    #[inline(always)]
    fn compare(&self, literal: Caseless<&'b [u8]>) -> CompareResult {
        compare_caseless(*self, literal.0)
    }

    ghost same_units = { λ s xs ys p q. same_lengths s.0.now xs ys p q };
}

impl<'a, const N: usize> Compare<Caseless<[u8; N]>> for &'a [u8] {
    ghost spells = { λ s xs. IsCaseless s.0 xs };

    #[inline(always)]
    fn compare(&self, literal: Caseless<[u8; N]>) -> CompareResult {
        compare_caseless(*self, literal.0.as_slice())
    }

    ghost same_units = { λ s xs ys p q. same_lengths s.0 xs ys p q };
}

impl<'a, 'b, const N: usize> Compare<Caseless<&'b [u8; N]>> for &'a [u8] {
    ghost spells = { λ s xs. IsCaseless s.0.now xs };

    #[inline(always)]
    fn compare(&self, literal: Caseless<&'b [u8; N]>) -> CompareResult {
        compare_caseless(*self, literal.0.as_slice())
    }

    ghost same_units = { λ s xs ys p q. same_lengths s.0.now xs ys p q };
}

/// A character stands for the bytes of its UTF-8.
impl<'a> Compare<Caseless<char>> for &'a [u8] {
    ghost spells = { λ s xs. IsCaseless (encode_utf8 s.0) xs };

    #[inline(always)]
    fn compare(&self, literal: Caseless<char>) -> CompareResult {
        let mut buffer = [0; 4];
        compare_caseless(*self, literal.0.encode_utf8(&mut buffer).as_bytes())
    }

    ghost same_units = { λ s xs ys p q. same_lengths (encode_utf8 s.0) xs ys p q };
}

/// A text stands for its bytes.
impl<'a, 'b> Compare<Caseless<&'b str>> for &'a [u8] {
    ghost spells = { λ s xs. IsCaseless s.0.now xs };

    #[inline(always)]
    fn compare(&self, literal: Caseless<&'b str>) -> CompareResult {
        compare_caseless(*self, literal.0.as_bytes())
    }

    ghost same_units = { λ s xs ys p q. same_lengths s.0.now xs ys p q };
}

impl<'a> Compare<Caseless<char>> for &'a str {
    ghost spells = { λ s xs. IsCaseless (s.0 ∷ []) xs };

    #[inline(always)]
    fn compare(&self, literal: Caseless<char>) -> CompareResult {
        let mut buffer = [0; 4];
        compare_caseless(
            self.as_bytes(),
            literal.0.encode_utf8(&mut buffer).as_bytes(),
        )
    }

    ghost same_units = { λ s xs ys p q. same_widths (s.0 ∷ []) xs ys p q };
}

impl<'a, 'b> Compare<Caseless<&'b str>> for &'a str {
    ghost spells = { λ s xs. IsCaseless (chars s.0.now) xs };

    #[inline(always)]
    fn compare(&self, literal: Caseless<&'b str>) -> CompareResult {
        compare_caseless(self.as_bytes(), literal.0.as_bytes())
    }

    ghost same_units = { λ s xs ys p q. same_widths (chars s.0.now) xs ys p q };
}
