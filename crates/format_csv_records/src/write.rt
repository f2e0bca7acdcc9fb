//! Appending records in any dialect, with quotes only for fields that need them.

ghost use Rattle.std.specs.Prelude.{◌≡◌, ◌++◌, ◌∷◌, [], List, ℕ, MatchBool, OnOk};
ghost use Rattle.format_csv_records.specs.Dialects.{doubled};
ghost use Rattle.format_csv_records.specs.Written.{Extends, IsLastOf, IsWritten, Writes};
ghost use Rattle.format_csv_records.specs.Written.{WritesRecord, WrittenFields, bytes_of};
ghost use Rattle.format_csv_records.specs.Written.{written_end};
ghost use Rattle.format_csv_records.specs.declared.write.WriteError.TheVariants.{NoFields};
ghost use Rattle.format_csv_records.specs.declared.write.WriteError.TheVariants.{OutOfMemory};

use crate::dialect::{Dialect, LineEnds};
use crate::read::{behind, front, plain_len, unquoted_len};
use std::alloc::{AllocError, Allocator};

/// Why a record was not written.
#[derive(Clone, Copy, Debug, PartialEq, Eq)]
pub enum WriteError {
    /// There are no fields: a record has one or more.
    NoFields,
    /// Memory allocation failed.
    OutOfMemory,
}

fn line_end(ends: LineEnds) -> &'static [u8]
    ensures { result.now ≡ written_end ends }
{
    match ends {
        LineEnds::CrLf | LineEnds::Either => b"\r\n".as_slice(),
        LineEnds::Lf => b"\n".as_slice(),
    }
}

// One byte after the others.
fn put<A: Allocator>(byte: u8, out: &mut Vec<u8, A>) -> Result<(), AllocError>
    ensures done { OnOk result (out.new.items ≡ out.old.items ++ byte ∷ []) }
    ensures kept { Extends out.old.items out.new.items }
{
    match out.push(byte) {
        Ok(()) => Ok(()),
        Err(_) => Err(AllocError),
    }
}

// The bytes between the quotes, and the closing one.
fn write_doubled<A: Allocator>(
    quote: u8,
    field: &[u8],
    out: &mut Vec<u8, A>,
) -> Result<(), AllocError>
    ensures done { OnOk result
        (out.new.items ≡ out.old.items ++ (doubled quote field.now ++ quote ∷ [])) }
    ensures kept { Extends out.old.items out.new.items }
{
    let mut rest = field;
    'runs: loop {
        let run = unquoted_len(quote, rest);
        if run == rest.len() {
            out.extend_from_slice(rest)?;
            return put(quote, out);
        }
        out.extend_from_slice(front(rest, run + 1))?;
        put(quote, out)?;
        rest = behind(rest, run + 1);
    }
}

fn write_field<A: Allocator>(
    dialect: Dialect,
    field: &[u8],
    out: &mut Vec<u8, A>,
) -> Result<(), AllocError>
    ensures done { OnOk result ((text : List ℕ) × IsWritten dialect field.now text
        × (out.new.items ≡ out.old.items ++ text)) }
    ensures kept { Extends out.old.items out.new.items }
{
    if plain_len(dialect, field) == field.len() {
        return out.extend_from_slice(field);
    }
    put(dialect.quote, out)?;
    write_doubled(dialect.quote, field, out)
}

// Fields, with a delimiter after each.
fn write_others<A: Allocator>(
    dialect: Dialect,
    fields: &[&[u8]],
    out: &mut Vec<u8, A>,
) -> Result<(), AllocError>
    ensures done { OnOk result ((text : List ℕ) × WrittenFields dialect (bytes_of fields.now) text
        × (out.new.items ≡ out.old.items ++ text)) }
    ensures kept { Extends out.old.items out.new.items }
{
    for field in fields {
        write_field(dialect, field, out)?;
        put(dialect.delimiter, out)?;
    }
    Ok(())
}

fn write_last<A: Allocator>(
    dialect: Dialect,
    alone: bool,
    field: &[u8],
    out: &mut Vec<u8, A>,
) -> Result<(), AllocError>
    ensures done { OnOk result ((text : List ℕ) × IsLastOf dialect alone field.now text
        × (out.new.items ≡ out.old.items ++ text)) }
    ensures kept { Extends out.old.items out.new.items }
{
    if alone && field.is_empty() {
        put(dialect.quote, out)?;
        return put(dialect.quote, out);
    }
    write_field(dialect, field, out)
}

// Whether there are none.
fn none_of(others: &[&[u8]]) -> bool
    ensures { MatchBool result (others.now ≡ []) (others.now ≡ [] → ⊥) }
{
    others.is_empty()
}

// Writes one or more fields after `others`, and a line ending.
fn write_parts<A: Allocator>(
    dialect: Dialect,
    others: &[&[u8]],
    last: &[u8],
    out: &mut Vec<u8, A>,
) -> Result<(), AllocError>
    ensures done { OnOk result (Writes dialect (bytes_of others.now ++ last.now ∷ [])
        out.old.items out.new.items) }
    ensures kept { Extends out.old.items out.new.items }
{
    write_others(dialect, others, out)?;
    write_last(dialect, none_of(others), last, out)?;
    out.extend_from_slice(line_end(dialect.ends))
}

/// Appends a record: the fields, separated by delimiters, and a line ending. The line ending is a
/// carriage return and a line feed if the dialect accepts either. A field with a quote, a
/// delimiter, a carriage return or a line feed is written in quotes, with each quote doubled. So is
/// an empty field that is the only one. Any other field is written unchanged. Reading the record
/// returns the same fields, regardless of what follows.
///
/// # Errors
///
/// - `NoFields`: there are no fields.
/// - `OutOfMemory`: memory allocation failed.
///
/// After an error `out` has the bytes that it had before.
///
/// ```
/// use format_csv_records::dialect::Dialect;
/// use format_csv_records::write::write_record;
///
/// let mut out = Vec::new(alloc);
/// let fields = [b"a".as_slice(), b"b, \"c\"".as_slice()];
/// let done = write_record(Dialect::standard(), fields.as_slice(), &mut out);
/// assert!(rt; done.is_ok());
/// assert_eq!(rt; out.as_slice(), b"a,\"b, \"\"c\"\"\"\r\n".as_slice());
/// ```
pub fn write_record<A: Allocator>(
    dialect: Dialect,
    fields: &[&[u8]],
    out: &mut Vec<u8, A>,
) -> Result<(), WriteError>
    ensures { WritesRecord dialect (bytes_of fields.now) out.old.items result out.new.items }
{
    let count = fields.len();
    if count == 0 {
        return Err(WriteError::NoFields);
    }
    let start = out.len();
    match write_parts(dialect, &fields[..count - 1], fields[count - 1], out) {
        Ok(()) => Ok(()),
        Err(_) => {
            out.truncate(start);
            Err(WriteError::OutOfMemory)
        }
    }
}
