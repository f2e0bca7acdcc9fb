//! A fold of separated elements from the left, which needs no list, and the fold from the right: if
//! the closure is associative, both have the same value.
#![tactic(auto)]

ghost use Rattle.std.specs.Prelude.{◌≡◌, IfSome, List, max, ℕ};
ghost use Rattle.winnow.specs.SeparatedFoldl1.{FoldsLeft};
ghost use Rattle.winnow.specs.SeparatedFoldr1.{FoldsRight};

use std::alloc::Allocator;
use winnow::Parser;
use winnow::combinator::{separated_foldl1, separated_foldr1};
use winnow::error::EmptyError;
use winnow::laws::separated_folds_agree;
use winnow::token::impls::Any;

/// Folds bytes with commas between them from the left and from the right. Returns both values, or
/// `None` if a fold fails. Both fold the same bytes.
fn fold_both<H, A>(alloc: A, op: H, bytes: &[u8]) -> Option<(u8, u8)>
where
    H: FnMut(u8, u8, u8) -> u8 + Copy + Drop,
    A: Allocator + Copy,
    requires { H.IsAlwaysCallable op }
    ensures { IfSome result (λ both. (first : ℕ) × (links : List (ℕ × ℕ)) × (p : H) × (q : H)
        × FoldsLeft H.step op first links both.0 p × FoldsRight H.step op first links both.1 q) }
{
    let (mut left, mut right) = (bytes, bytes);
    let to_left: Result<u8, EmptyError> = separated_foldl1(Any, b',', op).parse_next(&mut left);
    let to_right: Result<u8, EmptyError> = separated_foldr1(alloc, Any, b',', op).parse_next(
        &mut right,
    );
    separated_folds_agree::<Any, u8, H, &[u8], u8, u8, EmptyError, A>();
    match (to_left, to_right) {
        (Ok(left), Ok(right)) => Some((left, right)),
        _ => None,
    }
}

/// The greater of two bytes.
fn greater(one: u8, _comma: u8, other: u8) -> u8
    ensures { result ≡ max one other }
{
    one.max(other)
}

/// Returns the greatest of the bytes with commas between them that `bytes` starts with, twice:
/// folded from the left, and from the right. Both are the same. `None` if there is no byte, or out
/// of memory.
///
/// ```
/// use example_callers::folds::greatest_of_both;
///
/// assert_eq!(rt; greatest_of_both(alloc, b"a,c,b;".as_slice()), Some((b'c', b'c')));
/// assert_eq!(rt; greatest_of_both(alloc, b"".as_slice()), None);
/// ```
pub fn greatest_of_both<A: Allocator + Copy>(alloc: A, bytes: &[u8]) -> Option<(u8, u8)>
    ensures { IfSome result (λ both. both.0 ≡ both.1) }
{
    fold_both(alloc, greater, bytes)
}
