//! Heads of requests and of responses of HTTP/1.1 (RFC 9112) as offsets in their bytes, on complete
//! and on partial input, in one pass and without allocating.
#![tactic(auto)]

pub mod extent;
mod fields;
mod lanes;
mod line;
pub mod parts;
pub mod places;
pub mod read;
pub mod response;
mod runs;
pub mod slices;
pub mod state;
mod status;
mod stop;
pub mod trailers;
