//! The basis of parsers that are specified by grammars: functions as parsers, incremental input,
//! and results of successive calls.
#![tactic(auto)]

pub mod by_pieces;
pub mod by_with;
pub mod laws;
pub mod pieces;
pub mod rule;
pub mod spans;
