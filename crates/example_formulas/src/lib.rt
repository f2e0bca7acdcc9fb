//! Sizes, as `2k+3*4`: an expression whose parts are all parsers of the library.
//!
//! The contract of the expression follows from the law that an expression parses the unique tree.
//! The law requires only that one state and one input determine the parts, each by its own type.
#![tactic(auto)]

pub mod sizes;
