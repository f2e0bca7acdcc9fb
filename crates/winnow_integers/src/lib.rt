//! The parsers of integers as bytes.
//!
//! All have one definition, by the width, the sign and the order of the bytes, over each stream of
//! bytes.
#![tactic(auto)]

pub mod binary;
pub mod laws;
