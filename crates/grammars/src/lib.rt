//! Grammars over tokens, and encodings of values: definitions, lemmas and laws.
//!
//! A grammar relates tokens to an output whose match they start with, and to the rest. An encoding
//! relates a value to its tokens. Both, and the grammars whose outputs for the same tokens are
//! equivalent, are definitions and lemmas of `specs/`. The functions of [`laws`] do nothing; their
//! clauses are laws: which tokens some encoding starts with, and the first invalid token. These
//! compose as encodings do, so they follow from those of the parts.
#![tactic(auto)]

pub mod laws;
