//! Definitions of parsers: from a state and an input to an outcome. It has no parsers.
#![tactic(auto)]
