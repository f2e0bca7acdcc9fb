//! Why no record was read.

use crate::read::Reason;
use std::io;

/// The first offset in a table at which no record can continue, and the reason.
///
/// ```
/// use format_csv_records::error::InvalidTable;
/// use format_csv_records::read::Reason;
///
/// let fault = InvalidTable { offset: 3, why: Reason::OpenQuote };
/// assert_eq!(rt; fault.offset, 3);
/// ```
#[derive(Clone, Copy, Debug, PartialEq, Eq)]
pub struct InvalidTable {
    /// The offset in the table of the byte that cannot continue a record.
    pub offset: u64,
    /// Why.
    pub why: Reason,
}

/// Why no record was read.
///
/// ```
/// use format_csv_records::error::ReadError;
///
/// assert!(rt; matches!(ReadError::OutOfMemory, ReadError::OutOfMemory));
/// ```
#[derive(Clone, Copy, Debug)]
pub enum ReadError {
    /// The bytes that are not read yet do not start with a record.
    Invalid(InvalidTable),
    /// The reader failed.
    Failed(io::Error),
    /// Memory allocation failed.
    OutOfMemory,
}
