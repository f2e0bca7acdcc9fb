//! The trees of operator expressions: a call gives the value of the only tree over its reading that
//! respects precedence.
//!
//! A tree, its precedence and its value are defined without calls and their least powers.
#![tactic(auto)]

pub mod laws;
