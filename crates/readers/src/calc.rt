//! Formulas of whole numbers.
//!
//! ```
//! use readers::calc;
//! use readers::fault::ReadError;
//!
//! assert_eq!(rt; calc::value(alloc, "-3!"), Ok(-6));
//! assert_eq!(rt; calc::value(alloc, "1 2"), Err(ReadError::Invalid(2)));
//! ```
pub use format_calculator::calc::value;
