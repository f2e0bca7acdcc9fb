//! Streams of bits: the bits of a stream of bytes.
//!
//! A stream of bits is seen as an input of the tokens `true` and `false`, each byte from its
//! greatest bit on.
#![tactic(auto)]

pub mod bits;
mod convert;
pub mod offsets;
mod recover;
