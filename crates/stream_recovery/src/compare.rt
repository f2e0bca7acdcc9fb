//! Comparisons of streams that record errors.
use crate::recoverable::Recoverable;
use std::alloc::Allocator;
use stream_errors::has_kind::HasKind;
use stream_searches::compare::{Compare, CompareResult};

impl<T, I: Compare<T>, R: HasKind + Drop, A: Allocator> Compare<T> for Recoverable<I, R, A> {
    ghost spells = { I.spells };

    #[inline(always)]
    fn compare(&self, literal: T) -> CompareResult {
        self.as_inner().compare(literal)
    }

    ghost same_units = { I.same_units };
}
