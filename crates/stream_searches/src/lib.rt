//! Comparisons of literals with the start of a stream, and searches of a stream for them.
#![tactic(auto)]

pub mod caseless;
pub mod compare;
pub mod find;
pub mod slice_len;
