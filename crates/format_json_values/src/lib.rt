//! Parsers of JSON values (RFC 8259) in text: numbers, strings and words (sections 3, 6 and 7), and
//! arrays and objects.
//!
//! Differences from the standard, and choices where it leaves room:
//!
//! - The caller gives the maximum nesting depth of arrays and objects (section 9 permits such a
//!   limit). A deeper text is rejected.
//! - A number is kept as it is written, of any range and precision (section 6).
//! - An object keeps its members in order, including those with the same name (section 4).
//! - A string with an unpaired escaped surrogate is rejected, although the grammar of the standard
//!   accepts it (section 8.2).
//! - A byte order mark is not whitespace (section 8.1), so a text that starts with one is rejected.
#![tactic(auto)]

mod escapes;
pub mod integer;
pub mod number;
mod parts;
pub mod scalar;
mod scalar_parts;
pub mod string;
mod units;
pub mod value;
