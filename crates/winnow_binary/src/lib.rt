//! The parsers of binary data: integers whose order of bytes is chosen, and data after its length.
//!
//! Each is the definition of its name in `specs/`.
#![tactic(auto)]

pub mod binary;
pub mod laws;
