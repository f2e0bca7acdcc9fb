//! TOML 1.0 (toml.io/en/v1.0.0) with one entry point: from a text or bytes to the tree of its
//! document.
//!
//! [`from_text`] and [`from_bytes`] return a [`Tree`]. [`root`](Tree::root), [`get`](Node::get),
//! [`get_path`](Node::get_path), [`at`](Node::at), [`as_str`](Node::as_str) and similar functions
//! access its contents. The tree borrows from a [`Document`], which the caller provides. If a text
//! is not a TOML document, a [`TomlError`] gives the position and the reason, and
//! [`shown`](TomlError::shown) displays it as compilers do.
//!
//! ```
//! use format_toml_document::{Document, SAFE_DEPTH, from_text};
//!
//! let mut document = Document::new(alloc);
//! let text = "[server]\nhost = \"a\"\nports = [80, 443]\n";
//! let Ok(tree) = from_text(alloc, SAFE_DEPTH, text, &mut document) else {
//!     return;
//! };
//! let ports = tree.root().get_path(&["server", "ports"]);
//! assert!(rt; matches!(ports, Some(ports) if ports.len() == 2));
//! ```
//!
//! See `format_toml` and `format_toml_tree` for the accepted input, and the choices where the
//! standard leaves room.
#![tactic(auto)]

pub mod fault;
pub mod laws;
pub mod read;

pub use fault::{Shown, TomlError};
pub use format_parts::location::Location;
pub use format_toml::values::SAFE_DEPTH;
pub use format_toml_errors::expected::Expected;
pub use format_toml_errors::figures::Base;
pub use format_toml_errors::modes::Mark;
pub use format_toml_tree::node::Node;
pub use format_toml_tree::roles::Reason;
pub use format_toml_tree::tree::Tree;
pub use format_toml_tree::value::{Date, DateTime, Float, Offset, Time, Value};
pub use read::{Document, from_bytes, from_text};
