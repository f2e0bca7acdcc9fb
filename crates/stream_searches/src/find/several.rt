//! Searches of bytes for one of three texts.
ghost use Rattle.std.specs.Prelude.{◌≡◌, ◌<◌, ℕ, List, ◌++◌, MatchOption, length};
ghost use Rattle.stream_searches.specs.Compare.{StartsWithSpelling};
ghost use Rattle.stream_searches.specs.FindSlice.{FindsSlice};
ghost use Rattle.stream_searches.specs.Three.{IsOneOfThree};

use crate::compare::{CompareResult, UNKNOWN, compare_bytes};
use memchr::memchr3;
use std::ops;

/// Returns the length in bytes of one of three texts that `all` starts with, if there is one.
#[inline(always)]
fn first_length(all: &[u8], first: &[u8], second: &[u8], third: &[u8]) -> Option<usize>
    ensures { MatchOption result
        (StartsWithSpelling (IsOneOfThree first.now second.now third.now) all.now → ⊥)
        (λ n. (front : List ℕ) × (rest : List ℕ)
        × IsOneOfThree first.now second.now third.now front × (all.now ≡ front ++ rest)
        × (n ≡ length front)) }
{
    if let CompareResult::Ok(length) = compare_bytes(all, first, UNKNOWN) {
        return Some(length);
    }
    if let CompareResult::Ok(length) = compare_bytes(all, second, UNKNOWN) {
        return Some(length);
    }
    if let CompareResult::Ok(length) = compare_bytes(all, third, UNKNOWN) {
        return Some(length);
    }
    None
}

/// Searches bytes for one of three texts that are not empty, from one byte that begins one to the
/// next.
pub(crate) fn find_several(
    all: &[u8],
    first: &[u8],
    second: &[u8],
    third: &[u8],
) -> Option<ops::Range<usize>>
    requires first { 0 < length first.now }
    requires second { 0 < length second.now }
    requires third { 0 < length third.now }
    ensures { FindsSlice length (IsOneOfThree first.now second.now third.now) all.now result }
{
    let mut start = 0;
    while let Some(at) = memchr3(first[0], second[0], third[0], &all[start..]) {
        start += at;
        if let Some(length) = first_length(&all[start..], first, second, third) {
            return Some(start..start + length);
        }
        start += 1;
    }
    None
}
