//! Messages of the Domain Name System: the header (RFC 1035, section 4.1.1), names with compression
//! (sections 3.1 and 4.1.4), questions (section 4.1.2), records (section 4.1.3), and complete
//! messages.
//!
//! Differences from the standard, and choices that it leaves open:
//!
//! - Header fields may have any value. The three reserved bits, which must be zero, are returned
//!   unchanged, and so are undefined opcodes and response codes.
//! - A pointer must lead to an offset before the labels that precede it ("a prior occurrence"), so
//!   pointers never form a cycle. The caller limits the number of pointers that are followed. The
//!   offset may be any, also in the header or in the middle of a label.
//! - The bytes of a label are arbitrary: section 2.3.1 only prefers letters, digits and hyphens.
//! - A name that is too long gets this error, whatever its octets after the first 255 are. So at
//!   most 128 labels of a name are examined, for any message.
//! - Names in a record's data must not extend beyond the data, and octets after the contents of its
//!   type are an error. Names may be compressed in each type that is parsed, also in SRV (RFC 3597,
//!   section 4). The data of A, AAAA and SRV are parsed in the class of the Internet, and are plain
//!   octets in other classes.
//! - A record of the class 254 (NONE) or 255 (ANY) may have no data, for any type, as those of an
//!   update do (RFC 2136). In any other class the data must be those of its type.
//! - The name of a mailbox, of a host or of a question may be any name. Questions may have any type
//!   and class.
//! - Bytes after the last record that the header counts are not part of the message: they are not
//!   read, and not an error. The offset where the message ends is returned.
#![tactic(auto)]

pub mod data;
pub mod fault;
mod fields;
pub mod header;
mod labels;
pub mod message;
pub mod name;
pub mod question;
pub mod record;
mod shown;
pub mod text;
