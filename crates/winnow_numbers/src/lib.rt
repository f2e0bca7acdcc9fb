//! The parsers of numbers as text, as ASCII digits.
//!
//! Each is the definition of its name in `specs/`, over each stream whose tokens are characters and
//! whose slices show them as bytes.
#![tactic(auto)]

pub mod ascii;
