//! Documents: a sequence of records, a header, and a byte order mark.
//!
//! One record is held at a time, so the memory needed is that of the longest record: 10 megabytes
//! of line feeds need that of one empty record.

ghost use Rattle.std.specs.Prelude.{◌≡◌, ◌∷◌, ◌<◌, length, ◌-◌, MatchOption, OnErr, option_map};
ghost use Rattle.format_csv_records.specs.Named.{FieldNamed, FirstNamed};
ghost use Rattle.format_csv_records.specs.Parts.{NoMark};
ghost use Rattle.format_csv_records.specs.Records.{fields_of};
ghost use Rattle.format_csv_records.specs.Refused.{ReadsRecord};

use crate::dialect::Dialect;
use crate::read::{RecordError, behind, first_is, read_record_into};
use crate::record::ByteRecord;
use std::alloc::Allocator;

/// The records of a document, in sequence.
///
/// ```
/// use format_csv_records::dialect::Dialect;
/// use format_csv_records::record::ByteRecord;
/// use format_csv_records::records::Records;
///
/// let mut records = Records::new(Dialect::standard(), b"a,b\r\n1,2\r\n".as_slice());
/// let mut fields = ByteRecord::new(alloc);
/// assert!(rt; records.next_record(&mut fields) == Ok(true));
/// assert!(rt; records.next_record(&mut fields) == Ok(true));
/// assert!(rt; matches!(fields.get(1), Some(field) if field == b"2".as_slice()));
/// assert!(rt; records.next_record(&mut fields) == Ok(false));
/// ```
#[derive(Clone, Copy)]
pub struct Records<'i> {
    /// How the records are written.
    pub dialect: Dialect,
    /// All bytes.
    pub bytes: &'i [u8],
    /// The bytes of the records that are not read yet.
    pub rest: &'i [u8],
}

impl<'i> Records<'i> {
    /// Creates the sequence of the records of `bytes`, before the first.
    pub fn new(dialect: Dialect, bytes: &'i [u8]) -> Records<'i>
        ensures { (result.dialect ≡ dialect) × (result.bytes.now ≡ bytes.now)
            × (result.rest.now ≡ bytes.now) }
    {
        let rest = bytes;
        Records {
            dialect,
            bytes,
            rest,
        }
    }

    /// Reads the next record into `fields`. Returns `true` if a record was read, and `false` after
    /// the last one. After an error no more records are read: the next call returns the same error,
    /// unless an allocation fails. The offset of an error counts from the start of the record,
    /// which [`offset`](Records::offset) returns.
    pub fn next_record<A: Allocator>(
        &mut self,
        fields: &mut ByteRecord<A>,
    ) -> Result<bool, RecordError>
        ensures read { ReadsRecord self.old.dialect self.old.rest.now result
            (fields_of fields.new) self.new.rest.now }
        ensures same { (self.new.dialect ≡ self.old.dialect)
            × (self.new.bytes.now ≡ self.old.bytes.now) }
        ensures full { OnErr result (0 < length self.old.rest.now) }
    {
        read_record_into(self.dialect, fields, &mut self.rest)
    }

    /// Returns the offset of the next record. `text_positions::excerpt::position_in` returns the
    /// line and column of an offset in all bytes.
    pub fn offset(&self) -> usize
        ensures { result ≡ length self.now.bytes.now - length self.now.rest.now }
    {
        self.bytes.len().saturating_sub(self.rest.len())
    }
}

/// Returns the rest after a UTF-8 byte order mark (the bytes EF BB BF), or `None` if `bytes` does
/// not start with one. If the mark is not skipped, it is part of the first field.
///
/// ```
/// use format_csv_records::records::skip_mark;
///
/// let told = skip_mark(b"\xef\xbb\xbfa,b\n".as_slice());
/// assert!(rt; matches!(told, Some(rest) if rest == b"a,b\n".as_slice()));
/// assert!(rt; skip_mark(b"a,b\n".as_slice()).is_none());
/// ```
pub fn skip_mark(bytes: &[u8]) -> Option<&[u8]>
    ensures { MatchOption result (NoMark bytes.now)
        (λ rest. bytes.now ≡ 239 ∷ 187 ∷ 191 ∷ rest.now) }
{
    if !first_is(bytes, 0xef) {
        return None;
    }
    let second = behind(bytes, 1);
    if !first_is(second, 0xbb) {
        return None;
    }
    let third = behind(second, 1);
    if first_is(third, 0xbf) {
        Some(behind(third, 1))
    } else {
        None
    }
}

/// The place of the first column of this name, counted from 0: of the first field of a header that
/// is the name.
///
/// ```
/// use format_csv_records::dialect::Dialect;
/// use format_csv_records::record::ByteRecord;
/// use format_csv_records::records::{Records, column_of};
///
/// let mut header = ByteRecord::new(alloc);
/// let mut records = Records::new(Dialect::standard(), b"name,size\r\n".as_slice());
/// assert!(rt; records.next_record(&mut header) == Ok(true));
/// assert_eq!(rt; column_of(&header, b"size".as_slice()), Some(1));
/// assert_eq!(rt; column_of(&header, b"width".as_slice()), None);
/// ```
pub fn column_of<A: Allocator>(header: &ByteRecord<A>, name: &[u8]) -> Option<usize>
    ensures { FirstNamed (fields_of header.now) name.now result }
{
    for place in 0..header.len() {
        if let Some(field) = header.get(place) {
            if field == name {
                return Some(place);
            }
        }
    }
    None
}

/// The field of a record under the first column of this name. There is none where no column has the
/// name, or where the record has too few fields.
///
/// ```
/// use format_csv_records::dialect::{Dialect, LineEnds};
/// use format_csv_records::record::ByteRecord;
/// use format_csv_records::records::{Records, field_of};
///
/// let (mut header, mut fields) = (ByteRecord::new(alloc), ByteRecord::new(alloc));
/// if let Ok(dialect) = Dialect::new(b';', b'"', LineEnds::Lf) {
///     let mut records = Records::new(dialect, b"name;size\nfile;12\n".as_slice());
///     assert!(rt; records.next_record(&mut header) == Ok(true));
///     assert!(rt; records.next_record(&mut fields) == Ok(true));
///     let size = field_of(&header, &fields, b"size".as_slice());
///     assert!(rt; matches!(size, Some(bytes) if bytes == b"12".as_slice()));
/// }
/// ```
pub fn field_of<'f, A: Allocator>(
    header: &ByteRecord<A>,
    fields: &'f ByteRecord<A>,
    name: &[u8],
) -> Option<&'f [u8]>
    ensures { FieldNamed (fields_of header.now) (fields_of fields.now) name.now
        (option_map (λ s. s.now) result) }
{
    let place = column_of(header, name)?;
    fields.get(place)
}
