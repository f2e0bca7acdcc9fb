//! Machines over bytes that arrive in chunks, by composition.
//!
//! A [`Machine`](machine::Machine) recognizes the words of a language. Machines are composed of
//! smaller ones, and [`advance`](extent::advance) runs each of them: it returns the length of the
//! longest word at the start of the bytes, or that more bytes are needed, or the offset of the
//! first invalid byte, however the bytes are divided into chunks.
#![tactic(auto)]

pub mod alt;
pub mod counted;
pub mod digits;
pub mod examples;
pub mod extent;
pub mod laws;
pub mod machine;
pub mod nested;
pub mod number;
pub mod opt;
pub mod seq;
pub mod sets;
pub mod star;
pub mod text;
pub mod times;
