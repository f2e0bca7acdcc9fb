//! Combinators, as winnow's documentation has them: those of elements with separators.
#![tactic(auto, using(streams::specs::Ends::ends_follow))]

pub mod impls;
pub mod multi;

pub use crate::combinator::multi::{separated, separated_foldl1, separated_foldr1};
