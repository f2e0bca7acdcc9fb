//! Small examples of the library: each module is a reader of a page or two, proved.
//!
//! - `settings_file`: a file of settings, the first proof of `docs/FIRST_PROOF.md`.
//! - `version`: a version as `1.2.3-rc.1`, with numbers, an optional part and a list.
//! - `color`: a color as `#a0b1c2`.
//! - `lines`: lines of one letter, by their grammar and in the words of a standard.
//! - `nested`: trees of numbers in brackets, nested up to a depth.
//! - `pieces`: a setting from partial input, with final results.
//! - `strings`: texts with escapes.
#![tactic(auto)]

pub mod color;
pub mod lines;
pub mod nested;
pub mod pieces;
pub mod settings_file;
pub mod strings;
pub mod version;
