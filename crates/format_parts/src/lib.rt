//! Common parts of readers of text formats: grammars over characters, hexadecimal digits of
//! escapes, and items between marks, as the values of an array.
#![tactic(auto)]

pub mod faults;
pub mod hexadecimal;
pub mod location;
pub mod marks;
pub mod turns;
