//! Parsers of ASCII character classes and of line endings.
//!
//! The parsers of classes take the members of a class, as defined in `specs/Class.antt`. They work
//! on every stream whose tokens are characters, such as bytes and text. Each parser of line endings
//! is specified by the definition of its name in `specs/`.
#![tactic(auto)]

pub mod ascii;
