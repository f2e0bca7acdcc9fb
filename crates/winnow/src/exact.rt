//! Functions as parsers with a grammar, and parsers of partial input with a grammar: what they
//! read, and between which offsets. winnow has no such traits.
pub use winnow_grammar::by_pieces::{ByPieces, RuleInPieces};
pub use winnow_grammar::by_with::ByWith;
pub use winnow_grammar::pieces::ReadsPieces;
pub use winnow_grammar::rule::{By, Rule};
pub use winnow_grammar::spans::ReadsSpanned;
