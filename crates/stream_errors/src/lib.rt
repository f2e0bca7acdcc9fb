//! Errors of parsers: their kinds, and the errors of a whole parse.
//!
//! Contracts depend only on the kind of an error: backtrack, cut, incomplete with its need, or out
//! of memory (`Kind` of the crate `streams`). A plain error type has backtrack and memory only;
//! [`ErrMode`](crate::mode::ErrMode) around it has all four.
#![tactic(auto)]

pub mod context;
pub mod context_error;
pub mod control;
pub mod convert;
pub mod empty;
pub mod expected;
pub mod external;
pub mod fault;
pub mod growth;
pub mod has_kind;
pub mod input_error;
pub mod joining;
pub mod messages;
pub mod modal;
pub mod mode;
pub mod parser_error;
pub mod recover;
pub mod recoverable;
pub mod str_context;
