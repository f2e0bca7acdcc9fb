//! Records of comma separated values in one buffer, by any dialect (RFC 4180, section 2), and
//! tables that are read record by record from a reader.
//!
//! A [`Dialect`](dialect::Dialect) holds the byte that separates fields, the byte that quotes them,
//! and the line endings of records. A [`ByteRecord`](record::ByteRecord) holds the fields of one
//! record in one buffer, and is reused for the next.
#![tactic(auto)]

pub mod buffers;
pub mod dialect;
pub mod error;
pub mod extent;
mod finds;
pub mod laws;
mod mark;
pub mod read;
mod read_buffer;
pub mod reader;
pub mod record;
pub mod records;
mod refill;
mod taken;
mod turns;
pub mod write;
