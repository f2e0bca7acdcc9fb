//! Combinators for choices, options and sequences.
//!
//! Each one is proved to do what its definition in `parser_definitions` says, which is made of the
//! definitions of its children.
#![tactic(auto)]

pub mod combinator;
