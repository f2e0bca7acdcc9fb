//! Heads of HTTP/1.1 responses (RFC 9112), specified by their encoding: status lines, and complete
//! heads. [`bodies`](crate::bodies) returns the length of the body after a head.
//!
//! Differences from the standard: a status line without a reason may lack the space before it,
//! which servers must send (section 4) and some do not. An empty line before the status line, and a
//! line that starts with whitespace to continue the previous one, are not part of a head.
pub mod head;
pub mod status_line;
