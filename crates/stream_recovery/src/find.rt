//! Searches of streams that record errors.
use crate::recoverable::Recoverable;
use std::alloc::Allocator;
use std::ops;
use stream_errors::has_kind::HasKind;
use stream_searches::find::FindSlice;

impl<T, I: FindSlice<T>, R: HasKind + Drop, A: Allocator> FindSlice<T> for Recoverable<I, R, A> {
    ghost sought = { I.sought };

    #[inline(always)]
    fn find_slice(&self, substr: T) -> Option<ops::Range<usize>> {
        self.as_inner().find_slice(substr)
    }

    ghost stays_first = { I.stays_first };
}
