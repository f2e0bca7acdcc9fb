//! Operator expressions: operands with prefix, postfix and infix operators between them, joined by
//! the powers of the operators.
//!
//! The parser is proved to be its definition, which is in `specs/` under its name: calls with a
//! least power, one inside another. The crate above proves that such a call gives the value of the
//! only tree that respects precedence.
#![tactic(auto)]

pub mod combinator;
