//! Removal of the record at the start of the bytes held.

ghost use Rattle.std.specs.Prelude.{◌≡◌, ◌≤◌, ◌<◌, ◌-◌, length, Err, OnErr};
ghost use Rattle.format_csv_records.specs.Extents.{IsExtentOf};
ghost use Rattle.format_csv_records.specs.Records.{fields_of};
ghost use Rattle.format_csv_records.specs.Refused.{ReadsRecord};
ghost use Rattle.format_csv_records.specs.Results.{IsFaultAt, IsTaken, offset_after};

use crate::dialect::Dialect;
use crate::error::{InvalidTable, ReadError};
use crate::extent::RecordExtent;
use crate::read::{InvalidRecord, RecordError, read_record_into};
use crate::read_buffer::Buffer;
use crate::record::ByteRecord;
use std::alloc::Allocator;

/// Converts the error of a record that starts at offset `start` of the table to an error of the
/// table.
pub(crate) fn fault_at(start: u64, fault: InvalidRecord) -> InvalidTable
    ensures { IsFaultAt start fault result }
{
    InvalidTable {
        offset: start.saturating_add(fault.offset as u64),
        why: fault.why,
    }
}

/// Reads the record that the bytes held begin with, and lets its bytes go.
fn read_held<A: Allocator, B: Allocator>(
    dialect: Dialect,
    buffer: &mut Buffer<A>,
    fields: &mut ByteRecord<B>,
) -> Result<bool, RecordError>
    ensures told { ReadsRecord dialect buffer.old.bytes result (fields_of fields.new)
        buffer.new.bytes }
    ensures less { length buffer.new.bytes ≤ length buffer.old.bytes }
    ensures size { buffer.new.size ≡ buffer.old.size }
    ensures full { OnErr result (0 < length buffer.old.bytes) }
{
    let held = buffer.held();
    let mut rest = held;
    let told = read_record_into(dialect, fields, &mut rest);
    let count = held.len() - rest.len();
    buffer.consume(count);
    told
}

/// Takes the record, and resets the extent for the next one.
pub(crate) fn take_record<A: Allocator, B: Allocator>(
    dialect: Dialect,
    buffer: &mut Buffer<A>,
    extent: &mut RecordExtent,
    offset: &mut u64,
    fields: &mut ByteRecord<B>,
) -> Result<bool, ReadError>
    requires { IsExtentOf dialect extent.old buffer.old.bytes }
    ensures of { IsExtentOf dialect extent.new buffer.new.bytes }
    ensures told { IsTaken dialect buffer.old.bytes offset.old result (fields_of fields.new)
        buffer.new.bytes }
    ensures moved { offset.new ≡ offset_after offset.old
        (length buffer.old.bytes - length buffer.new.bytes) }
    ensures size { buffer.new.size ≡ buffer.old.size }
    ensures full { result ≡ Err ReadError.OutOfMemory → 0 < length buffer.new.bytes }
{
    let (start, before) = (*offset, buffer.held().len());
    match read_held(dialect, buffer, fields) {
        Ok(read) => {
            let count = before - buffer.held().len();
            *offset = start.saturating_add(count as u64);
            *extent = RecordExtent::new();
            Ok(read)
        }
        Err(RecordError::Invalid(fault)) => Err(ReadError::Invalid(fault_at(start, fault))),
        Err(RecordError::OutOfMemory) => Err(ReadError::OutOfMemory),
    }
}
