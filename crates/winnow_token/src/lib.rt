//! The parsers of tokens.
//!
//! Each is proved to be its definition, a file of `specs/` with the parser's name.
#![tactic(auto)]

pub mod laws;
pub mod token;
