//! Requirements of parsers on the tokens of a stream: counts, classes of characters, sets of tokens
//! and of bytes. Also values of slices, and accumulators of outputs.
#![tactic(auto)]

pub mod accumulate;
pub mod as_bstr;
pub mod as_char;
pub mod byte_set;
pub mod classes;
pub mod numbers;
pub mod parse_slice;
pub mod range;
pub mod sets;
