//! The extents of JSON texts (RFC 8259) in bytes: finds where a value ends, without allocating.
//!
//! In UTF-8 bytes the values and texts are those of `format_json_texts`, which `format_json_values`
//! and `format_json_pieces` parse: see the functions in [`laws`].
//!
//! [`write_nodes`](nodes::write_nodes) checks a text and writes all of its values as nodes into a
//! buffer of the caller, in one pass. The nodes are in the order of the text: an array or an object
//! precedes its contents, and a name precedes its value. Each node has its kind, the offsets of its
//! bytes, and the index of the node after everything in it, so that a caller skips an array or an
//! object in one step.
//!
//! Differences from the standard, and choices where it leaves room:
//!
//! - The caller gives the maximum nesting depth of arrays and objects (section 9).
//! - Bytes of 128 and above are not examined: the caller is responsible for valid UTF-8 (section
//!   8.1).
//! - Strings keep their escapes. A string with an unpaired escaped surrogate is rejected, since it
//!   denotes no character, although the grammar of the standard accepts it (section 8.2).
//! - Members of an object may have the same name (section 4).
#![tactic(auto)]

pub mod decimal;
pub mod integer;
pub mod laws;
pub mod members;
pub mod names;
pub mod node;
pub mod nodes;
pub mod number;
pub mod pointer;
pub mod scalar;
pub mod steps;
pub mod string;
pub mod tokens;
pub mod unescape;
pub mod value;
pub mod walk;
