//! Comparisons of token lists: a literal stands for the lists whose tokens equal its own.
ghost use Rattle.std.specs.Prelude.{◌∷◌, [], length};
ghost use Rattle.stream_searches.specs.Compare.{ComparesAs};
ghost use Rattle.stream_searches.specs.TokenCompare.{EqualsList, same_count};

use crate::compare::{Compare, CompareResult};
use streams::stream::Stream;
use streams::token_slice::TokenSlice;

/// Compares tokens with tokens; each is looked at once.
#[inline(always)]
fn compare_tokens<T: Eq>(tokens: &[T], literal: &[T]) -> CompareResult
    ensures { ComparesAs length (EqualsList T.eq literal.now) tokens.now result }
{
    if literal.len() <= tokens.len() {
        if tokens.starts_with(literal) {
            CompareResult::Ok(literal.len())
        } else {
            CompareResult::Error
        }
    } else if literal.starts_with(tokens) {
        CompareResult::Incomplete
    } else {
        CompareResult::Error
    }
}

impl<'t, 'b, T: Eq> Compare<&'b [T]> for TokenSlice<'t, T> {
    ghost spells = { λ s xs. EqualsList T.eq s.now xs };

    #[inline(always)]
    fn compare(&self, literal: &'b [T]) -> CompareResult {
        compare_tokens(self.as_slice(), literal)
    }

    ghost same_units = { λ t xs ys p q. same_count T.eq t.now xs ys p q };
}

impl<'t, T: Eq + Drop> Compare<T> for TokenSlice<'t, T> {
    ghost spells = { λ t xs. EqualsList T.eq (t ∷ []) xs };

    #[inline(always)]
    fn compare(&self, literal: T) -> CompareResult {
        let mut rest = *self;
        match rest.next_token() {
            None => CompareResult::Incomplete,
            Some(first) => {
                if literal == *first {
                    CompareResult::Ok(1)
                } else {
                    CompareResult::Error
                }
            }
        }
    }

    ghost same_units = { λ t xs ys p q. same_count T.eq (t ∷ []) xs ys p q };
}
