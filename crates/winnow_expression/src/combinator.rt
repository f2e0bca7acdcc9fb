//! Combinators, as winnow's documentation has them: operator expressions.
#![tactic(auto, using(streams::specs::Ends::ends_follow))]

pub mod calls;
pub mod folds;
pub mod impls;
pub mod machine;
pub mod operators;
pub mod places;
pub mod precedence;

pub use crate::combinator::folds::{FoldBinary, FoldUnary, NoFold};
pub use crate::combinator::operators::{Binding, Infix, Postfix, Prefix};
pub use crate::combinator::precedence::expression;
