//! The library in use: what callers prove with its contracts and laws.
#![tactic(auto)]

pub mod byte_orders;
pub mod choices;
pub mod complete_streams;
pub mod derivations;
pub mod escapes;
pub mod fields;
pub mod first_line;
pub mod folds;
pub mod functions;
pub mod identifiers;
pub mod items;
pub mod lexed;
pub mod longer;
pub mod looks;
pub mod marks;
pub mod numbers;
pub mod numerals;
pub mod percentages;
pub mod pieces;
pub mod places;
pub mod prefixes;
pub mod premises;
pub mod rule_pieces;
pub mod slices;
pub mod spans;
pub mod words;
