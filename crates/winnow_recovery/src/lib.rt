//! Parsers that recover from errors: the adapters `retry_after` and `resume_after`, and
//! `recoverable_parse`, which returns all errors that were recorded.
//!
//! Each adapter is proved to do what its definition says: `Retry` and `Resume` of
//! `parser_definitions`.
#![tactic(auto)]

pub mod combinator;
pub mod laws;
pub mod parser;

pub use crate::parser::{RecoverableParser, RecoveringParser};
