//! Closed callers of the parsers whose grammar has a precondition on a closure, a type or a part.
//! Each meets the precondition, and specifies its result by the grammar.

pub mod closures;
pub mod errors;
pub mod lengths;
pub mod outputs;
pub mod repeats;
