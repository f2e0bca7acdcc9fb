//! Readers for callers in C and in Rust, as a static library.
//!
//! A function takes the caller's bytes as a pointer and a length, returns a code, and writes its
//! result where the caller specifies. Results are offsets in the caller's own bytes, so no memory
//! that a function allocates outlives the call.
//!
//! JSON values are those that the crates `format_json_values` and `format_json_pieces` parse: an
//! unpaired surrogate escape such as `\ud800` is rejected, although the grammar of the standard
//! allows it.
#![tactic(auto)]

pub mod calc;
pub mod code;
pub mod csv;
pub mod dns;
pub mod http;
pub mod ini;
pub mod json;
pub mod output;
pub mod pairs;
pub mod resp;
pub mod span;
pub mod text;
pub mod toml;
