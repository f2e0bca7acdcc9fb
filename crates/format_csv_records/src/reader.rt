//! A reader of the records of a table, one by one, whose bytes come from a `Read`.
//!
//! ```
//! use format_csv_records::reader::Reader;
//! use format_csv_records::dialect::Dialect;
//! use format_csv_records::record::ByteRecord;
//!
//! let bytes = b"name,size\r\nfile,12\r\n".as_slice();
//! let mut table = Reader::new(Dialect::standard(), bytes, alloc);
//! let mut fields = ByteRecord::new(alloc);
//! assert!(rt; matches!(table.next_record(&mut fields), Ok(true)));
//! assert!(rt; matches!(table.next_record(&mut fields), Ok(true)));
//! assert!(rt; matches!(fields.get(1), Some(field) if field == b"12".as_slice()));
//! assert!(rt; matches!(table.next_record(&mut fields), Ok(false)));
//! ```

ghost use Rattle.std.specs.Prelude.{◌≡◌, ◌⊎◌, ◌<◌, [], length, Err};
ghost use Rattle.std.specs.Io.KnownBytes.{prepend_known};
ghost use Rattle.format_csv_records.specs.Records.{fields_of};
ghost use Rattle.format_csv_records.specs.Held.{IsFull};
ghost use Rattle.format_csv_records.specs.Marks.{ReadsMark};
ghost use Rattle.format_csv_records.specs.Results.{Reads, ReadsOfAll};

use crate::dialect::Dialect;
use crate::error::ReadError;
use crate::extent::RecordExtent;
use crate::finds::{Found, find};
use crate::mark::fill_to;
use crate::read_buffer::Buffer;
use crate::record::ByteRecord;
use crate::records::skip_mark;
use crate::taken::{fault_at, take_record};
use std::alloc::Allocator;
use std::io::Read;
use std::marker::Model;

/// A table whose bytes come from a reader, whatever pieces it gives, into one buffer.
///
/// The buffer has the bytes of one record and of one piece: room for 8,192 bytes, or, where a
/// record is longer, for four times as many as it has at most. The time for a table is linear in
/// its bytes, however few of them come at a time.
///
/// ```
/// use format_csv_records::reader::Reader;
/// use format_csv_records::dialect::Dialect;
/// use format_csv_records::record::ByteRecord;
///
/// let mut table = Reader::new(Dialect::standard(), b"a,\"b".as_slice(), alloc);
/// let mut fields = ByteRecord::new(alloc);
/// assert!(rt; table.next_record(&mut fields).is_err());
/// assert_eq!(rt; table.offset(), 0);
/// ```
#[derive(Drop)]
pub struct Reader<R, A: Allocator> {
    source: R,
    dialect: Dialect,
    buffer: Buffer<A>,
    extent: RecordExtent,
    offset: u64,
}

impl<R, A: Allocator> Model for Reader<R, A> {
    ghost use Rattle.format_csv_records.specs.Table.{IsOfBuffer, Table, table_of};

    ghost Value = { Table R };

    ghost view = { table_of };

    ghost invariant = { IsOfBuffer };
}

impl<R: Read, A: Allocator> Reader<R, A> {
    /// Creates a reader of the table that `source` gives. It neither reads nor allocates.
    pub fn new(dialect: Dialect, source: R, alloc: A) -> Reader<R, A>
        ensures { (result.dialect ≡ dialect) × (result.source ≡ source)
            × (result.buffer.bytes ≡ []) × (result.offset ≡ 0) }
    {
        Reader {
            source,
            dialect,
            buffer: Buffer::new(alloc),
            extent: RecordExtent::new(),
            offset: 0,
        }
    }

    /// How many bytes of the table were passed: at which the next record begins. It stops at
    /// `u64::MAX`.
    pub fn offset(&self) -> u64
        ensures { result ≡ self.now.offset }
    {
        self.offset
    }

    /// How many bytes the buffer has room for.
    pub fn buffer_size(&self) -> usize
        ensures { result ≡ self.now.buffer.size }
    {
        self.buffer.size()
    }

    /// Skips a UTF-8 byte order mark (the bytes EF BB BF) at the start of the remaining bytes, and
    /// returns whether there was one. Call it before the first record. It reads until it holds
    /// three bytes, or the source ends.
    ///
    /// # Errors
    ///
    /// [`ReadError::Failed`] and [`ReadError::OutOfMemory`], as for [`Reader::next_record`]. No
    /// byte is consumed, and the next call resumes.
    ///
    /// ```
    /// use format_csv_records::reader::Reader;
    /// use format_csv_records::dialect::Dialect;
    ///
    /// let bytes = b"\xef\xbb\xbfa,b\r\n".as_slice();
    /// let mut table = Reader::new(Dialect::standard(), bytes, alloc);
    /// assert!(rt; matches!(table.pass_mark(), Ok(true)));
    /// assert!(rt; table.offset() == 3);
    /// assert!(rt; matches!(table.pass_mark(), Ok(false)));
    /// ```
    #[tactic(none)]
    pub fn pass_mark(&mut self) -> Result<bool, ReadError>
        ensures reads { ReadsMark self.old.buffer.bytes self.new.buffer.bytes
            (R.remaining self.old.source) (R.remaining self.new.source) self.old.offset
            self.new.offset result }
        ensures full { result ≡ Err ReadError.OutOfMemory → IsFull self.new.buffer }
    {
        let start = self.offset;
        let filled = fill_to(&mut self.source, &mut self.buffer, 3);
        self.extent = RecordExtent::new();
        match filled {
            Ok(()) => match skip_mark(self.buffer.held()) {
                None => Ok(false),
                Some(_) => {
                    self.buffer.consume(3);
                    self.offset = start.saturating_add(3);
                    Ok(true)
                }
            },
            Err(error) => Err(error),
        }
    }

    /// Reads the next record into `fields`. Returns `true` if a record was read, and `false` at the
    /// end of the source. The last record may lack its line ending. It reads more bytes only if the
    /// bytes held do not decide the result. Old contents of `fields` are discarded; after `false`
    /// and after an error it has no fields.
    ///
    /// # Errors
    ///
    /// After each error the bytes of the incomplete record are kept, and none is consumed.
    ///
    /// - [`ReadError::Invalid`]: the bytes do not start with a record. The error holds the offset
    ///   in the table of the first byte that cannot continue a record, or of its end, and the
    ///   reason. The next call returns the same error if no bytes arrived.
    /// - [`ReadError::Failed`]: the reader failed while more bytes were needed. The next call reads
    ///   again and resumes. Interrupted reads are retried.
    /// - [`ReadError::OutOfMemory`]: the buffer or the fields could not be allocated. The buffer
    ///   grows only if the bytes held are at least half of it, and the fields only if there are
    ///   such bytes. The next call resumes.
    #[tactic(none)]
    pub fn next_record<B: Allocator>(
        &mut self,
        fields: &mut ByteRecord<B>,
    ) -> Result<bool, ReadError>
        ensures reads { Reads self.old.dialect self.old.buffer.bytes self.new.buffer.bytes
            (R.remaining self.old.source) (R.remaining self.new.source) self.old.offset
            self.new.offset self.old.buffer.size self.new.buffer.size result
            (fields_of fields.new) }
        ensures of_all { ReadsOfAll self.old.dialect
            (prepend_known self.old.buffer.bytes (R.remaining self.old.source))
            (prepend_known self.new.buffer.bytes (R.remaining self.new.source))
            self.old.offset result (fields_of fields.new) }
        ensures same { self.new.dialect ≡ self.old.dialect }
        ensures full { result ≡ Err ReadError.OutOfMemory → IsFull self.new.buffer
            ⊎ (0 < length self.new.buffer.bytes) }
    {
        let start = self.offset;
        fields.clear();
        match find(
            self.dialect,
            &mut self.source,
            &mut self.buffer,
            &mut self.extent,
        ) {
            Ok(Found::Enough) => {
                let (buffer, extent) = (&mut self.buffer, &mut self.extent);
                take_record(self.dialect, buffer, extent, &mut self.offset, fields)
            }
            Ok(Found::Never(fault)) => { Err(ReadError::Invalid(fault_at(start, fault))) }
            Err(error) => Err(error),
        }
    }
}
