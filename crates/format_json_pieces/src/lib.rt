//! JSON values (RFC 8259) from complete and partial input.
//!
//! Bytes are parsed as UTF-8 (section 8.1): a text that is not UTF-8 is rejected. The text of a
//! value is found by `format_json_extents`, in one pass and without allocating; then it is parsed
//! as in `format_json_values`. If there is none and more input may follow, a second pass checks
//! whether the bytes can continue to a value, with the open brackets in memory. If they cannot,
//! they are rejected, however far away the end is. So the results are specified by the texts of
//! `format_json_texts`, and its other choices apply here: the level, numbers as they are written,
//! members in order.
//!
//! A number must not be followed by a byte that can continue it: a digit, a point, an `e` or an
//! `E`. So there is no value in `01`, `1.` or `1e`, although
//! `format_json_values::value::read_value` parses the `0` or the `1`.
#![tactic(auto)]

pub mod begun;
pub mod expected;
pub mod extent;
pub mod inside;
pub mod laws;
pub mod place;
pub mod value;
