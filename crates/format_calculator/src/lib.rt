//! The value of a formula of whole numbers, with its exact contract.
#![tactic(auto)]

pub mod calc;
pub mod fault;
