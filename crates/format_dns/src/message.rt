//! Whole messages (RFC 1035, section 4.1).

ghost use Rattle.std.specs.Prelude.{◌≡◌};
ghost use Rattle.format_dns.specs.Messages.{HeaderResult, MessageResult};

use crate::fault::{MessageError, PartError, Section};
use crate::header::{Header, read_header};
use crate::question::{Questions, questions_in};
use crate::record::{Records, records_in};
use std::alloc::Allocator;

/// A message, of whose bytes `'m` the labels of its names are slices.
#[derive(Drop)]
pub struct Message<'m, A: Allocator> {
    /// Its header.
    pub header: Header,
    /// Its questions, as many as the header says.
    pub questions: Questions<'m, A>,
    /// The records of its answer section.
    pub answers: Records<'m, A>,
    /// The records of its authority section.
    pub authority: Records<'m, A>,
    /// The records of its additional section.
    pub additional: Records<'m, A>,
}

impl<'m, A: Allocator> Message<'m, A> {
    /// The place after the last record, in bytes from the start: how many bytes the message has.
    ///
    /// ```
    /// use format_dns::message::read_message;
    ///
    /// let bytes = b"\x12\x34\x01\0\0\0\0\0\0\0\0\0rest".as_slice();
    /// let message = read_message(alloc, 127, bytes);
    /// assert!(rt; matches!(message, Ok(message) if message.behind() == 12));
    /// ```
    pub fn behind(&self) -> usize
        ensures { result ≡ self.now.additional.behind }
    {
        self.additional.behind
    }
}

/// The header with which a message begins.
fn header_in(message: &[u8]) -> Result<Header, MessageError>
    ensures { HeaderResult message.now result }
{
    let lacks = MessageError {
        section: Section::Header,
        entry: 0,
        why: PartError::Ends(0),
    };
    let Some(mut first) = message.get(..12) else {
        return Err(lacks);
    };
    match read_header(&mut first) {
        Ok(header) => Ok(header),
        Err(_) => Err(lacks),
    }
}

/// Parses the message at the start of the bytes: a header of twelve bytes, followed by as many
/// questions and records of the three sections as it counts. Each is parsed as by
/// [`read_question`](crate::question::read_question) or
/// [`read_record`](crate::record::read_record). At most `pointers` pointers are followed in
/// sequence; 127 suffice if each leads to a label.
///
/// Bytes after the last record are not read, and are not an error: [`behind`](Message::behind) is
/// the offset where the message ends.
///
/// An error holds the section and the number of the first entry that is invalid, with the reason
/// and the offset, or that could not be allocated. An incomplete header is entry 0 of its section,
/// and ends at offset 0. Memory is allocated as entries are read, regardless of the header's
/// counts: for a message of twelve bytes nothing is allocated.
///
/// ```
/// use format_dns::fault::{PartError, Section};
/// use format_dns::message::read_message;
///
/// let bytes = b"\x12\x34\x01\x00\x00\x01\x00\x00\x00\x00\x00\x00\x03com\x00\x00\x02\x00\x01";
/// match read_message(alloc, 127, bytes.as_slice()) {
///     Ok(message) => {
///         assert_eq!(rt; message.header.id, 0x1234);
///         assert_eq!(rt; message.questions.list[0].kind, 2);
///     }
///     Err(_) => assert!(rt; false),
/// }
/// match read_message(alloc, 127, &bytes[..20]) {
///     Ok(_) => assert!(rt; false),
///     Err(fault) => {
///         assert!(rt; fault.section == Section::Question && fault.entry == 0);
///         assert!(rt; fault.why == PartError::Ends(17));
///     }
/// }
/// ```
pub fn read_message<'m, A: Allocator + Copy>(
    alloc: A,
    pointers: usize,
    message: &'m [u8],
) -> Result<Message<'m, A>, MessageError>
    ensures { MessageResult message.now pointers result }
{
    let header = header_in(message)?;
    let questions = questions_in(alloc, pointers, message, 12, header.question_count)?;
    let place = questions.behind;
    let count = header.answer_count;
    let answers = records_in(Section::Answer, alloc, pointers, message, place, count)?;
    let place = answers.behind;
    let count = header.authority_count;
    let authority = records_in(Section::Authority, alloc, pointers, message, place, count)?;
    let place = authority.behind;
    let count = header.additional_count;
    let additional = records_in(Section::Additional, alloc, pointers, message, place, count)?;
    Ok(Message {
        header,
        questions,
        answers,
        authority,
        additional,
    })
}
