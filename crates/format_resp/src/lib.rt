//! Replies of Redis in RESP2 and RESP3, the second and the third version of its protocol: a parser
//! for complete and partial input, specified by the encoding of replies, and a writer of replies
//! and commands.
//!
//! It parses each type of RESP3, with the nulls of RESP2; of RESP2 the five types and two nulls.
//! The reply that has attributes is the last element after them. As in the protocol, integers may
//! have a plus sign and leading zeros, and sizes leading zeros; `-1` is the only size of a null.
//!
//! Differences from the protocol:
//!
//! - Streamed strings and aggregates (`$?`, `*?`), which no server sends, are rejected as invalid.
//! - A push is also parsed within other aggregates, though servers send one only between replies.
//!   It may be empty, or start with something other than a string.
//! - Doubles may have an exponent, as in the Redis serialization protocol specification, and not in
//!   the first document on RESP3. They may be `-nan`, which servers send.
//! - Sizes and integers are signed 64-bit numbers, and a line may have any length.
//! - The caller limits the nesting depth of aggregates.
//! - Inline commands, which are not arrays, are not replies.
#![tactic(auto)]

pub mod back;
pub mod bounded;
mod entries;
pub mod extent;
mod heads;
mod kinds;
pub mod leaves;
mod lines;
mod marks;
pub mod node;
pub mod nodes;
pub mod numbers;
pub mod parts;
mod pieces;
pub mod read;
pub mod reply;
pub mod write;
