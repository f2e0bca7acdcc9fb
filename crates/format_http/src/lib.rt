//! Messages of HTTP/1.1 (RFC 9112): the heads of requests and responses, the length of a message's
//! body, and the reasons for which a server must reject a request.
#![tactic(auto)]

pub mod bodies;
pub mod heads;
pub mod persistence;
pub mod responses;
