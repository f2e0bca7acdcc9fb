//! The definition of JSON texts (RFC 8259), and proofs that grammars match them.
//!
//! `specs/` defines the texts of numbers, strings and values in the terms of the grammar of RFC
//! 8259. It also has grammars as parsers use them: they match from the left, with the first
//! alternative that matches and the longest run. The laws state that the two agree. Each law is a
//! function that does nothing; its clause is the law.
//!
//! A difference from the standard: a string with an unpaired escaped surrogate is rejected, since
//! it denotes no character. The grammar of the standard accepts it (section 8.2).
//!
//! A [`Value`](value::Value) is the meaning of such a text. Its contents are accessed by kind, by
//! the names of members and the indices of elements, and along [paths](path). A number also has an
//! exact [`Decimal`](decimal::Decimal).
#![tactic(auto)]

mod coefficient;
mod copies;
pub mod decimal;
mod digits;
mod kinds;
pub mod laws;
pub mod path;
mod power;
pub mod value;
