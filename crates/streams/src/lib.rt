//! Streams: the input of a parser, and a parser's view of it.
//!
//! A parser's view of an input is defined in `specs/Input.antt`: the remaining tokens, the position
//! where they begin, and a status that is never reset. Each stream defines its view by its ghost
//! members, and each call of [`Stream`](crate::stream::Stream) is exact over that.
#![tactic(auto)]

pub mod byte_stream;
pub mod bytes;
pub mod has_kind;
pub mod locating;
pub mod needed;
pub mod partial;
pub mod stream;
pub mod text;
pub mod token_slice;
pub mod token_test;
