//! Repetition of a parser: into an accumulator or a value, until another parser succeeds, as an
//! iterator, or into a buffer or a slice.
//!
//! Each combinator is proved to satisfy the definition of its name in `specs/`: consecutive calls
//! of the repeated parser, and the call that ended them.
#![tactic(auto)]

pub mod combinator;
pub mod laws;
