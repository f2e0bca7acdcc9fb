//! Elements with separators between them, collected in an accumulator or joined to the left or the
//! right.
//!
//! Each combinator is proved to satisfy the definition of its name in `specs/`: a first element,
//! and repeated links, each of which is a separator that consumes input and an element.
#![tactic(auto)]

pub mod combinator;
pub mod laws;
