//! Combinators, as winnow's documentation has them: those of choice, options and sequence.
#![tactic(auto, using(streams::specs::Ends::ends_follow))]

pub mod basic;
pub mod branch;
pub mod impls;
pub mod sequence;

pub use crate::combinator::basic::{backtrack_err, cond, cut_err, empty, fail, not, opt, peek};
pub use crate::combinator::branch::alt;
pub use crate::combinator::sequence::{delimited, preceded, separated_pair, terminated};
