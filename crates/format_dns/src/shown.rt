//! Error messages.

use crate::fault::{MessageError, PartError, Section};
use std::error::Error;
use std::fmt;
use std::fmt::{Display, Formatter};

impl Display for PartError {
    fn fmt<W: fmt::Write>(&self, f: &mut Formatter<W>) -> fmt::Result {
        let (told, place) = match *self {
            PartError::Ends(place) => ("incomplete element", place),
            PartError::Trailing(place) => ("unexpected trailing data", place),
            PartError::Reserved(place) => ("reserved label type", place),
            PartError::NotPrior(place) => ("compression pointer without a prior target", place),
            PartError::TooMany(place) => ("too many compression pointers", place),
            PartError::TooLong(place) => ("name too long", place),
            PartError::NoMemory => return f.write_str("out of memory"),
        };
        write!(f, "{told} at offset {place}")
    }
}

impl Error for PartError {}

impl Display for Section {
    fn fmt<W: fmt::Write>(&self, f: &mut Formatter<W>) -> fmt::Result {
        f.write_str(match *self {
            Section::Header => "header section",
            Section::Question => "question section",
            Section::Answer => "answer section",
            Section::Authority => "authority section",
            Section::Additional => "additional section",
        })
    }
}

/// The text of the error. Entries of a section are counted from 0.
impl Display for MessageError {
    fn fmt<W: fmt::Write>(&self, f: &mut Formatter<W>) -> fmt::Result {
        let (section, entry, why) = (self.section, self.entry, self.why);
        write!(f, "entry {entry} of the {section}: {why}")
    }
}

impl Error for MessageError {}
