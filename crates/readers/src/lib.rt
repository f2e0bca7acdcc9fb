//! Readers of small formats, made of the library's parsers, and the program over them: the crate
//! `readers_program` runs it over the standard streams.
#![tactic(auto)]

pub mod calc;
pub mod fault;
pub mod ini;
pub mod laws;
pub mod program;

pub use crate::program::run;
