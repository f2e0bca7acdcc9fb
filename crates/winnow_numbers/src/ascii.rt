//! Parsers of ASCII text, as winnow's documentation has them: those of numbers.
#![tactic(auto, using(streams::specs::Ends::ends_follow))]

mod digits;
mod hex;
pub mod impls;
mod int;
mod lanes;
mod numeral;
mod uint;

pub use crate::ascii::hex::hex_uint;
pub use crate::ascii::int::{Int, dec_int};
pub use crate::ascii::uint::{Uint, dec_uint};
