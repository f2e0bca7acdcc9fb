//! The chunked body of a message of HTTP/1.1 (RFC 9112, section 7.1), decoded incrementally.
//!
//! A [`Decoder`](decoder::Decoder) is given each byte once, and returns the parts of the body:
//! data, fields of the trailer section, the end. Its state is a few words, and it does not
//! allocate.
#![tactic(auto)]

mod bytes;
pub mod decoder;
mod fields;
mod framing;
mod lines;
mod places;
pub mod state;
