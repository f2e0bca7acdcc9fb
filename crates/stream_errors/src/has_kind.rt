//! The kinds of errors, on which contracts depend. The trait is in the crate `streams`, since a
//! stream that records errors shows their kinds.
pub use streams::has_kind::HasKind;
