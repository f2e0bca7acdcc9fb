//! The first offset at which a text is no longer a prefix of a TOML document (toml.io/en/v1.0.0).
//!
//! [`first_stop`](walk::first_stop) walks over the characters of a text that a parser rejected. It
//! returns the offset of the first one with which no document continues, and what is expected
//! there.
//!
//! ```
//! use format_toml_errors::expected::Expected;
//! use format_toml_errors::walk::first_stop;
//!
//! let stop = first_stop(alloc, 1, "a = [\n1,\nx]");
//! assert!(rt; matches!(stop, Ok(Some(stop))
//!     if stop.rest == "x]" && stop.expected == Expected::ValueOrBracket));
//! ```
#![tactic(auto)]

mod escapes;
pub mod expected;
pub mod figures;
pub mod laws;
pub mod modes;
mod moments;
mod steps;
mod strings;
pub mod walk;
