//! JSON values (RFC 8259), written as text.
//!
//! Choices where the standard permits several texts for one value:
//!
//! - There is no whitespace (section 2), unless a [`Layout`](layout::Layout) asks for lines.
//! - Strings are escaped as in RFC 8785 (section 3.2.2.2): only where they must be.
//! - A number is written as it is in the value, and the members of an object in their order,
//!   including those with the same name. So the text need not be that of RFC 8785.
//! - The caller gives the maximum nesting depth of arrays and objects, as for parsing with
//!   `format_json_values` (section 9).
#![tactic(auto)]

pub mod error;
pub mod laws;
pub mod layout;
mod nested;
mod number;
pub mod string;
pub mod value;
