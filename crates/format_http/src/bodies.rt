//! The length of the body of an HTTP/1.1 message, determined by its head (RFC 9112, section 6.3),
//! or the reason why the message must be rejected.
//!
//! The rules are in [`IsBodyLength`](../specs/Bodies/Framing.antt), numbered as in the standard.
//! Choices where the standard leaves one:
//!
//! - Transfer-Encoding together with Content-Length is rejected, in requests and in responses; the
//!   standard says that it ought to be handled as an error (rule 3). So is Transfer-Encoding in a
//!   message of a version before 1.1 (section 6.1).
//! - `chunked` before another coding, or twice, is rejected, in requests and in responses (section
//!   6.1). So is an element of Transfer-Encoding that is no transfer coding by the grammar of RFC
//!   9110, section 10.1.4; empty elements are skipped.
//! - Content-Length fields that are a list of one repeated numeral, such as `42, 42`, have its
//!   value (rule 5). `42, 042` are two different numerals. `,42` and `42,` are rejected: an empty
//!   element differs from a numeral (RFC 9110, section 8.6).
//! - A length that does not fit in 64 bits is rejected.
mod coding;
mod codings;
mod fields;
pub mod framing;
mod invalid;
pub mod laws;
mod lengths;
pub(crate) mod lists;
mod numbers;
pub mod refusals;
