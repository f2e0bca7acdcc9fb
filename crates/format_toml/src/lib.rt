//! Parsers of TOML 1.0 documents (toml.io/en/v1.0.0) in text.
//!
//! [`parse_lines`](lines::parse_lines) parses the statements of a document's lines.
//! [`build`](format_toml_tree::build::build) makes the tree of these lines, which borrows from
//! them, or reports the first line that the standard rejects, for instance one that defines a key
//! again.
//!
//! ```
//! use format_toml::lines::parse_lines;
//! use format_toml::values::SAFE_DEPTH;
//! use format_toml_tree::build::build;
//!
//! let text = "[server]\nhost = \"a\"\nports = [80, 443]\n";
//! let Ok(lines) = parse_lines(alloc, SAFE_DEPTH, text) else {
//!     return;
//! };
//! let Ok(tree) = build(alloc, SAFE_DEPTH, lines.as_slice()) else {
//!     return;
//! };
//! let server = tree.root().get("server");
//! assert!(rt; matches!(server, Some(server) if server.len() == 2));
//! ```
//!
//! The complete grammar of the standard is accepted. Choices that it leaves to a parser:
//!
//! - A line ending in a multi-line string is a line feed, also if it is written as a carriage
//!   return and a line feed.
//! - Integers have 64 bits: a text with any other integer is rejected. A float is kept as its text,
//!   without underscores.
//! - All digits of a fraction of a second are kept. A second of 60 is accepted in each minute.
//! - The caller gives the maximum nesting depth of arrays and inline tables: the standard has no
//!   maximum.
//! - The standard has no byte order mark, so a text that starts with one is rejected.
#![tactic(auto)]

pub mod characters;
mod escapes;
mod floats;
mod gaps;
mod integers;
mod keys;
pub mod lines;
mod long_parts;
mod long_strings;
mod parts;
mod plain;
mod scalars;
pub mod starts;
mod statements;
mod strings;
mod units;
pub mod value;
pub mod values;
