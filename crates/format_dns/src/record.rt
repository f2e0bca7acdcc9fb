//! Resource records (RFC 1035, sections 3.2 and 4.1.3).
ghost use Rattle.format_dns.specs.Questions.{PartResult, SectionResult};
ghost use Rattle.format_dns.specs.Records.{AreRecords, HasNoRecord, IsRecord, RecordsLack};
ghost use Rattle.format_dns.specs.Records.{RecordsResult, RecordsWant};

use crate::data::{Data, form_in, read_data};
use crate::fault::{MessageError, PartError, Section};
use crate::fields::record_fields_at;
use crate::name::{Name, read_name};
use std::alloc::Allocator;

/// A resource record of a message `'m`.
#[derive(Drop)]
pub struct Record<'m, A: Allocator> {
    /// The name of the node to which the record pertains.
    pub name: Name<'m, A>,
    /// The number of its type.
    pub kind: u16,
    /// The number of its class; 1 is the Internet.
    pub class: u16,
    /// For how many seconds it may be cached, as it stands: a time to live above 2 to the 31, less
    /// one, is to be taken as zero (RFC 2181, section 8).
    pub time_to_live: u32,
    /// Its data, by the type and the class.
    pub data: Data<'m, A>,
    /// The place in the message, in bytes, after the record.
    pub behind: usize,
}

/// Reads the record at offset `place` of a message, in bytes from its start. At most `pointers`
/// pointers are followed in sequence, as by [`read_name`], for its name and for each name in its
/// data. The data have the given length, and must be exactly the contents of their type. In the
/// classes 254 (NONE) and 255 (ANY) the data of any type may be empty, as in a message that updates
/// a zone (RFC 2136, sections 2.4 and 2.5).
///
/// An error holds the reason why there is no record and the first offset where it fails: in its
/// name, in the fields after it, or in the data. Or it is out of memory.
///
/// ```
/// use format_dns::data::Data;
/// use format_dns::record::read_record;
///
/// let message = b"\x03com\x00\xc0\x00\x00\x02\x00\x01\x00\x00\x0e\x10\x00\x04\x01a\xc0\x00";
/// let record = read_record(alloc, 1, message, 5);
/// assert!(rt; matches!(&record, Ok(record) if record.kind == 2 && record.behind == 21));
/// assert!(rt; matches!(&record, Ok(record) if matches!(&record.data, Data::Name(_))));
/// assert!(rt; read_record(alloc, 1, &message[..20], 5).is_err());
/// ```
pub fn read_record<'m, A: Allocator + Copy>(
    alloc: A,
    pointers: usize,
    message: &'m [u8],
    place: usize,
) -> Result<Record<'m, A>, PartError>
    ensures { PartResult (IsRecord message.now pointers place)
        (HasNoRecord message.now pointers place)
        result }
{
    let name = read_name(alloc, pointers, message, place)?;
    let fields = record_fields_at(message, name.behind)?;
    let start = name.behind + 10;
    let behind = start + usize::from(fields.length);
    let Some(whole) = message.get(..behind) else {
        return Err(PartError::Ends(start));
    };
    let form = form_in(fields.kind, fields.class, fields.length);
    let data = read_data(alloc, pointers, form, whole, start)?;
    Ok(Record {
        name,
        kind: fields.kind,
        class: fields.class,
        time_to_live: fields.time_to_live,
        data,
        behind,
    })
}

/// Consecutive records of a message `'m`.
#[derive(Drop)]
pub struct Records<'m, A: Allocator> {
    /// The records, in the order of the message.
    pub list: Vec<Record<'m, A>, A>,
    /// The place in the message, in bytes, after the last.
    pub behind: usize,
}

/// Reads `count` records from offset `place` of a message on, in bytes from its start, each as by
/// [`read_record`]. In a complete message they start at the offset after its questions, section by
/// section.
///
/// An error holds the reason why the first invalid record is invalid and its offset, or is out of
/// memory. Memory is allocated as records are read, regardless of `count`.
///
/// ```
/// use format_dns::record::read_records;
///
/// let message = b"\x00\x00\x0a\x00\x01\x00\x00\x00\x00\x00\x00".as_slice();
/// let records = read_records(alloc, 0, message, 0, 1);
/// assert!(rt; matches!(records, Ok(read) if read.list.len() == 1 && read.behind == 11));
/// assert!(rt; read_records(alloc, 0, message, 0, 2).is_err());
/// ```
pub fn read_records<'m, A: Allocator + Copy>(
    alloc: A,
    pointers: usize,
    message: &'m [u8],
    place: usize,
    count: u16,
) -> Result<Records<'m, A>, PartError>
    ensures { RecordsResult message.now pointers place count result }
{
    match records_in(Section::Answer, alloc, pointers, message, place, count) {
        Ok(records) => Ok(records),
        Err(fault) => Err(fault.why),
    }
}

/// Like [`read_records`], for a section. The error also holds the number of records before the one
/// that is invalid or could not be allocated.
pub(crate) fn records_in<'m, A: Allocator + Copy>(
    section: Section,
    alloc: A,
    pointers: usize,
    message: &'m [u8],
    place: usize,
    count: u16,
) -> Result<Records<'m, A>, MessageError>
    ensures { SectionResult section (AreRecords message.now pointers place count)
        (RecordsWant message.now pointers A place count)
        (RecordsLack message.now pointers A place count) result }
{
    let mut list = Vec::new(alloc);
    let mut behind = place;
    while list.len() < usize::from(count) {
        let entry = list.len();
        let record = match read_record(alloc, pointers, message, behind) {
            Ok(record) => record,
            Err(why) => return Err(MessageError {
                section,
                entry,
                why,
            }),
        };
        behind = record.behind;
        if list.push(record).is_err() {
            let why = PartError::NoMemory;
            return Err(MessageError {
                section,
                entry,
                why,
            });
        }
    }
    Ok(Records { list, behind })
}
