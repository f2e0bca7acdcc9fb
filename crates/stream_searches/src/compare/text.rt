//! Comparisons of text: a literal stands for its characters.
ghost use Rattle.std.specs.Prelude.{◌≡◌, [], ◌∷◌};
ghost use Rattle.std.specs.Str.{chars};
ghost use Rattle.stream_searches.specs.TextCompare.{same_width};

use crate::compare::{Compare, CompareResult, UNKNOWN, compare_bytes};
use streams::stream::Stream;

impl<'a> Compare<char> for &'a str {
    ghost spells = { λ c xs. xs ≡ c ∷ [] };

    #[inline(always)]
    fn compare(&self, literal: char) -> CompareResult {
        let mut rest = *self;
        match rest.next_token() {
            None => CompareResult::Incomplete,
            Some(first) => {
                if first == literal {
                    CompareResult::Ok(first.len_utf8())
                } else {
                    CompareResult::Error
                }
            }
        }
    }

    ghost same_units = { λ t xs ys p q. same_width p q };
}

impl<'a, 'b> Compare<&'b str> for &'a str {
    ghost spells = { λ s xs. xs ≡ chars s.now };

    #[inline(always)]
    fn compare(&self, literal: &'b str) -> CompareResult {
        compare_bytes(self.as_bytes(), literal.as_bytes(), UNKNOWN)
    }

    ghost same_units = { λ t xs ys p q. same_width p q };
}
