//! The core of the parsers: the trait `Parser` with its adapters, parsers by value, and sequences.
//!
//! A parser is proved to be its definition: each implementation of
//! [`Parser`](crate::parser::Parser) says by its ghost member `does` which outcomes a call may
//! have:
//! a definition of the crate `parser_definitions`, over the definitions of its children.
#![tactic(auto)]

pub mod combinator;
pub mod laws;
pub mod literal;
pub mod parser;
pub mod short;

pub use crate::parser::Parser;
