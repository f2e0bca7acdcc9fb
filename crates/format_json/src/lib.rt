//! JSON (RFC 8259): parses text and bytes into values, and writes values as text.
//!
//! [`from_text`] and [`from_bytes`] parse a [`Value`]. [`get`](Value::get), [`at`](Value::at),
//! [`along`](Value::along), [`as_str`](Value::as_str) and similar functions access its contents;
//! [`to_text`] and [`to_text_pretty`] write it. If a text is not JSON, a [`JsonError`] gives the
//! byte offset, line and column of the error, and the input that is expected there.
//!
//! ```
//! use format_json::{SAFE_DEPTH, from_text, to_text};
//!
//! let Ok(value) = from_text(alloc, SAFE_DEPTH, "{\"name\": \"rain\", \"days\": [1, 2.50]}") else {
//!     return;
//! };
//! assert!(rt; matches!(value.get("name"), Some(name) if name.as_str() == Some("rain")));
//! for day in value.members() {
//!     assert!(rt; day.0.as_str() == "name" || day.1.elements().len() == 2);
//! }
//! let text = to_text(alloc, SAFE_DEPTH, &value);
//! let written = "{\"name\":\"rain\",\"days\":[1,2.50]}";
//! assert!(rt; matches!(text, Ok(text) if text.as_str() == written));
//! ```
//!
//! Choices where the standard leaves room:
//!
//! - The caller gives the maximum nesting depth of arrays and objects, for parsing and for writing
//!   (section 9). Both recurse once per level; up to [`SAFE_DEPTH`] a stack of two megabytes
//!   suffices.
//! - A number is kept as it is written, of any range and precision (section 6); [`as_decimal`]
//!   returns its exact value, without rounding.
//! - An object keeps its members in order, including those with the same name (section 4); [`get`]
//!   returns the last.
//! - A string with an unpaired escaped surrogate is rejected (section 8.2).
//! - A byte order mark is not whitespace (section 8.1), so a text that starts with one is rejected.
#![tactic(auto)]

pub mod fault;
pub mod number;
pub mod read;
pub mod write;

pub use fault::{JsonError, JsonWriteError};
pub use format_json_pieces::expected::Expected;
pub use format_json_pieces::value::{read_next_in_pieces, read_value_in_pieces};
pub use format_json_texts::decimal::{Decimal, DecimalError};
pub use format_json_texts::path::Step;
pub use format_json_texts::value::Value;
pub use format_json_values::value::SAFE_DEPTH;
pub use format_parts::location::Location;
pub use number::as_decimal;
pub use read::{from_bytes, from_text};
pub use write::{to_text, to_text_pretty};
