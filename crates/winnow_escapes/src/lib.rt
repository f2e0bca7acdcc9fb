//! Text with escapes: parts that stand for themselves, and parts after a control, as a backslash.
//!
//! Each is the definition of its name in `specs/`: a chain of turns, and what ended it.
#![tactic(auto)]

pub mod ascii;
pub mod laws;
