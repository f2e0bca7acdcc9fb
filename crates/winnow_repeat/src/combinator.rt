//! Combinators, as winnow's documentation has them: those that repeat a parser.
#![tactic(auto, using(streams::specs::Ends::ends_follow))]

pub mod folding;
pub mod impls;
pub mod items;
pub mod multi;
pub mod slices;

pub use crate::combinator::impls::ParserIterator;
pub use crate::combinator::multi::{fill, iterator, repeat, repeat_till};
pub use crate::combinator::slices::{TooMany, repeat_into_slice};
