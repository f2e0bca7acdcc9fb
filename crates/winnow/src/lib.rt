//! The parser library winnow under its own module names.
//!
//! Users depend only on this crate. Each item is in the module where winnow has it, and is defined
//! and proved in the crate that its documentation names. The definitions that clauses of public
//! functions cite are in `Rattle.winnow.specs`.
//!
//! ```
//! use winnow::ascii::impls::Digit1;
//! use winnow::error::EmptyError;
//! use winnow::prelude::*;
//!
//! let mut input = "12;";
//! assert_eq!(rt; Digit1.parse_next(&mut input), Ok::<_, EmptyError>("12"));
//! assert_eq!(rt; input, ";");
//! ```
#![tactic(auto)]

pub mod ascii;
pub mod binary;
pub mod combinator;
pub mod error;
pub mod exact;
pub mod laws;
mod macros;
pub mod parsers;
pub mod prelude;
pub mod stream;

pub use stream_errors::mode::ModalResult;
pub use streams::locating::LocatingSlice;
pub use streams::partial::Partial;
pub use winnow_core::parser::{Func, FuncWith, ModalParser, Parser};
pub use winnow_recovery::{RecoverableParser, RecoveringParser};
pub use winnow_token::token;
