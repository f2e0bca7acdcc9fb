//! The errors of readers.
//!
//! ```
//! use readers::fault::ReadError;
//! use readers::ini;
//!
//! assert_eq!(rt; ini::pair(b"key"), Err(ReadError::Invalid(3)));
//! ```
pub use format_calculator::fault::ReadError;
