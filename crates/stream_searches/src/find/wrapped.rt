//! Searches of streams that are made of a stream.
use crate::find::FindSlice;
use std::ops;
use streams::locating::LocatingSlice;
use streams::partial::Partial;

impl<T, I: FindSlice<T>> FindSlice<T> for Partial<I> {
    ghost sought = { I.sought };

    #[inline(always)]
    fn find_slice(&self, substr: T) -> Option<ops::Range<usize>> {
        self.as_inner().find_slice(substr)
    }

    ghost stays_first = { I.stays_first };
}

impl<T, I: FindSlice<T>> FindSlice<T> for LocatingSlice<I> {
    ghost sought = { I.sought };

    #[inline(always)]
    fn find_slice(&self, substr: T) -> Option<ops::Range<usize>> {
        self.as_inner().find_slice(substr)
    }

    ghost stays_first = { I.stays_first };
}
