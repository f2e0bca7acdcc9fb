//! The errors of messages and their parts.

/// The reason why a part is invalid. Offsets are in bytes from the start of the message.
///
/// ```
/// use format_dns::fault::PartError;
///
/// assert!(rt; PartError::Ends(3) != PartError::Reserved(3));
/// ```
#[derive(Clone, Copy, Debug, PartialEq, Eq)]
pub enum PartError {
    /// The message, or a record's data by their length, end within what begins here: a label, a
    /// pointer, the end of a name, fields of a fixed length, a character string, or data.
    Ends(usize),
    /// From this offset on a record's data has octets after the contents of its type (RFC 1035,
    /// section 3.2.1).
    Trailing(usize),
    /// The byte here has one alone of its two highest bits: such labels are reserved (RFC 1035,
    /// section 4.1.4).
    Reserved(usize),
    /// The pointer at this offset does not lead to an offset before the labels that precede it.
    NotPrior(usize),
    /// The pointer here is one more than are followed.
    TooMany(usize),
    /// With the labels from here on a name has more than 255 octets (RFC 1035, section 2.3.4).
    TooLong(usize),
    /// Memory allocation failed.
    NoMemory,
}

/// A section of a message (RFC 1035, section 4.1).
///
/// ```
/// use format_dns::fault::Section;
///
/// assert!(rt; Section::Answer != Section::Authority);
/// ```
#[derive(Clone, Copy, Debug, PartialEq, Eq)]
pub enum Section {
    /// Twelve bytes, which say among other things how many entries the other sections have.
    Header,
    /// The questions.
    Question,
    /// The records that answer them.
    Answer,
    /// The records that point to an authority.
    Authority,
    /// The records that hold more.
    Additional,
}

/// The reason why there is no message: the first entry that is invalid or could not be allocated.
/// All entries before it are valid.
///
/// ```
/// use format_dns::fault::{PartError, MessageError, Section};
///
/// let fault = MessageError { section: Section::Answer, entry: 2, why: PartError::Ends(40) };
/// let said = format!(in alloc; "{fault}");
/// let told = "entry 2 of the answer section: incomplete element at offset 40";
/// assert!(rt; matches!(said, Ok(said) if said.as_str().starts_with(told)));
/// ```
#[derive(Clone, Copy, Debug, PartialEq, Eq)]
pub struct MessageError {
    /// The section that it is of.
    pub section: Section,
    /// The number of entries of the section before it.
    pub entry: usize,
    /// The reason why it is invalid, and the offset; or that memory allocation failed, in which
    /// case it may be valid.
    pub why: PartError,
}
