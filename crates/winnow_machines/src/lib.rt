//! Parsers of words of machines.
#![tactic(auto)]

pub mod bytes;
pub mod examples;
pub mod word;
