//! Streams that record the errors from which parsers recover.
//!
//! A stream that records errors is seen as the input inside it, with the kinds of the errors
//! recorded after those that this one has recorded itself.
#![tactic(auto)]

mod compare;
mod find;
mod recover;
pub mod recoverable;
mod slices;
