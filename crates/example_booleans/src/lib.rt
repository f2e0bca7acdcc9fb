//! Boolean formulas: an expression language with its exact contract.
#![tactic(auto)]

pub mod booleans;
pub mod statements;
