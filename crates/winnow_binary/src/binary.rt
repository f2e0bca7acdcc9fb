//! Parsers of binary data, as winnow's documentation has them: integers whose order of bytes is
//! chosen, and data after its length.
#![tactic(auto, using(streams::specs::Ends::ends_follow))]

mod chosen;
pub mod impls;
mod lengths;

pub use crate::binary::chosen::{i16, i24, i32, i64, i128, u16, u24, u32, u64, u128};
pub use crate::binary::lengths::{length_and_then, length_repeat, length_take};
