//! Parsers of ASCII text, as winnow's documentation has them: those of characters and lines.
#![tactic(auto, using(streams::specs::Ends::ends_follow))]

mod classes;
pub mod impls;
mod line_ends;
mod members;

pub use crate::ascii::classes::{
    alpha0, alpha1, alphanumeric0, alphanumeric1, digit0, digit1, hex_digit0, hex_digit1,
    multispace0, multispace1, oct_digit0, oct_digit1, space0, space1,
};
pub use crate::ascii::line_ends::{crlf, line_ending, newline, tab, till_line_ending};
