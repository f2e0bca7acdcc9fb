//! The parsers of bits, and of bytes as bits and back.
//!
//! Each is proved to be its definition, a file of `specs/`.
#![tactic(auto)]

pub mod bits;
pub mod laws;
