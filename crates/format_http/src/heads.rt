//! Heads of HTTP/1.1 requests (RFC 9112), specified by their encoding: request lines, field lines,
//! and complete heads; the lookup of fields by name, the forms of request targets, and the Host
//! fields of a request.
//!
//! Differences from the standard: in a head, a target is any sequence of visible ASCII bytes, of
//! which [`targets`] accepts those that are in a form of the standard. An empty line before the
//! request line, and a line that starts with whitespace to continue the previous one, are not part
//! of a head.
pub mod field_line;
pub mod fields;
pub mod head;
pub mod hosts;
pub mod laws;
pub mod named;
pub mod request_line;
pub mod sets;
pub mod targets;
mod uris;
