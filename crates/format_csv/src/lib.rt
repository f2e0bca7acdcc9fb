//! Comma separated values (RFC 4180, section 2), specified by their encoding.
//!
//! A document is a sequence of records with a line ending after each. The last record may lack it
//! unless its encoding is empty. So empty input is a document without records, and a single line
//! ending is a record of one empty field.
//!
//! Differences from the standard: a field without quotes may contain any bytes except quotes,
//! commas, carriage returns and line feeds. A field in quotes may contain any bytes. With
//! `LineEnd::Lf` lines end with a line feed. Records may differ in their number of fields.
#![tactic(auto)]

ghost use Rattle.std.specs.Prelude.{◌≡◌, MatchResult, OnErr, ⊤};
ghost use Rattle.streams.specs.Bytes.{bytes_input, bytes_reading};
ghost use Rattle.format_csv.specs.Csv.{AreRecords, IsRecord, bytes_of, commas};
ghost use Rattle.format_csv.specs.Read.{record_takes, record_unique};
ghost use Rattle.format_csv_records.specs.Dialects.{AreFields};
ghost use Rattle.format_csv_records.specs.Refused.{IsNoRecord};
ghost use Rattle.winnow_core.specs.Exact.{Reads};
ghost use Rattle.winnow_core.specs.Exact.Whole.{ReadsAll};

pub mod dialects;
mod lists;
pub mod pieces;
pub mod table;

use crate::dialects::dialect_of;
use crate::lists::FieldLists;
use format_csv_records::read::{RecordError, read_fields};
use std::alloc::Allocator;
use stream_errors::empty::EmptyError;
use stream_errors::fault::ParseFault;
use stream_errors::has_kind::HasKind;
use stream_errors::mode::ErrMode;
use stream_errors::parser_error::ParserError;
use winnow_core::parser::Parser;
use winnow_grammar::rule::Rule;
use winnow_repeat::combinator::repeat;

/// A line ending.
#[derive(Clone, Copy, Debug, PartialEq, Eq)]
pub enum LineEnd {
    /// A carriage return and a line feed, as specified in RFC 4180.
    CrLf,
    /// Only a line feed.
    Lf,
}

/// The bytes of the fields of a record, without the quotes round them, and each quote there once.
pub type Record<A> = Vec<Vec<u8, A>, A>;

// Reads the fields at the start of the bytes, and returns them and the rest after their record.
fn read_lists<'i, A: Allocator + Copy>(
    alloc: A,
    end: LineEnd,
    bytes: &'i [u8],
) -> Result<(Record<A>, &'i [u8]), RecordError>
    ensures { MatchResult result
        (λ it. AreFields (commas end) bytes.now (bytes_of it.0.items) it.1.now)
        (λ error. IsNoRecord (commas end) bytes.now error) }
{
    let mut lists = FieldLists::new(alloc);
    match read_fields(dialect_of(end), &mut lists, bytes) {
        Ok(rest) => Ok((lists.fields, rest)),
        Err(error) => Err(error),
    }
}

/// The name of what [`read_record`] reads.
#[derive(Clone, Copy, Drop)]
struct Line<A>(A, LineEnd);

impl<'i, A: Allocator> Rule<&'i [u8], Record<A>> for Line<A> {
    ghost grammar = { λ r. IsRecord r.1 };

    ghost consumes = { λ _. ⊤ };

    fn name() {}

    ghost unique = { λ r. record_unique r.1 };

    ghost takes = { λ r _. record_takes r.1 };
}

/// Parses the record at the start of the input. It must be followed by a line ending, which is
/// consumed, or by the end of the input. Empty input does not start with a record. On an error the
/// input is unchanged.
///
/// ```
/// use format_csv::{LineEnd, read_record};
///
/// let mut input = b"a,\"b \"\"c\"\"\"\r\nd".as_slice();
/// let fields = read_record(alloc, LineEnd::CrLf, &mut input);
/// assert!(rt; matches!(fields, Ok(fields) if fields[1].as_slice() == b"b \"c\"".as_slice()));
/// assert_eq!(rt; input, b"d".as_slice());
/// ```
pub fn read_record<'i, A: Allocator + Copy>(
    alloc: A,
    end: LineEnd,
    input: &mut &'i [u8],
) -> Result<Record<A>, ErrMode<EmptyError>>
    ensures reads { Reads bytes_reading ⟦<ErrMode<EmptyError> as HasKind>⟧.kind (IsRecord end)
        (bytes_input input.old.now) result (bytes_input input.new.now) }
    ensures unchanged { OnErr result (input.new.now ≡ input.old.now) }
{
    if input.is_empty() {
        return Err(ParserError::<&'i [u8]>::from_input(input));
    }
    match read_lists(alloc, end, input) {
        Ok((fields, rest)) => {
            *input = rest;
            Ok(fields)
        }
        Err(RecordError::Invalid(_)) => Err(ParserError::<&'i [u8]>::from_input(input)),
        Err(RecordError::OutOfMemory) => Err(ParserError::<&'i [u8]>::no_memory(input)),
    }
}

/// Parses all of the bytes as a document and returns its records.
///
/// All records are in memory at once, and each field is a list of its own: 10 megabytes of line
/// feeds need 1.3 gigabytes. `format_csv_records::records::Records` holds one record at a time, in
/// one buffer.
///
/// # Errors
///
/// The bytes are not a document, with the offset where the records ended (which is tested and not
/// proved); or memory allocation failed.
///
/// ```
/// use format_csv::{LineEnd, parse_document};
///
/// let records = parse_document(alloc, LineEnd::Lf, b"a,b\n\"c\nd\",".as_slice());
/// assert!(rt; matches!(records, Ok(records) if records.len() == 2));
/// assert!(rt; parse_document(alloc, LineEnd::Lf, b"a,b c\"\n".as_slice()).is_err());
/// ```
pub fn parse_document<'i, A: Allocator + Copy>(
    alloc: A,
    end: LineEnd,
    input: &'i [u8],
) -> Result<Vec<Record<A>, A>, ParseFault<&'i [u8], EmptyError>>
    ensures { ReadsAll ⟦<ErrMode<EmptyError> as ParserError<&'i [u8]>>⟧.inner_kind
        (AreRecords end) input.now result }
{
    let record = Line(alloc, end).by(|input: &mut &[u8]| read_record(alloc, end, input));
    repeat(alloc, 0.., record).read_all(input)
}
