//! Comparisons of streams that are made of a stream.
use crate::compare::{Compare, CompareResult};
use streams::locating::LocatingSlice;
use streams::partial::Partial;

impl<T, I: Compare<T>> Compare<T> for Partial<I> {
    ghost spells = { I.spells };

    #[inline(always)]
    fn compare(&self, literal: T) -> CompareResult {
        self.as_inner().compare(literal)
    }

    ghost same_units = { I.same_units };
}

impl<T, I: Compare<T>> Compare<T> for LocatingSlice<I> {
    ghost spells = { I.spells };

    #[inline(always)]
    fn compare(&self, literal: T) -> CompareResult {
        self.as_inner().compare(literal)
    }

    ghost same_units = { I.same_units };
}
