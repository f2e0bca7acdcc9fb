//! The errors of readers.

/// The error of a reader.
///
/// ```
/// use format_calculator::calc;
/// use format_calculator::fault::ReadError;
///
/// assert_eq!(rt; calc::value(alloc, "1/0"), Err(ReadError::Invalid(3)));
/// ```
#[derive(Clone, Copy, Debug, PartialEq)]
pub enum ReadError {
    /// The input is invalid at this offset, in bytes from its start.
    Invalid(usize),
    /// Memory allocation failed.
    NoMemory,
}
