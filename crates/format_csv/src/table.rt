//! Tables: documents whose first record is a header (RFC 4180, section 2, items 3 and 4).

ghost use Rattle.format_csv.specs.Answered.{IsAnswered};
ghost use Rattle.format_csv.specs.Table.{FieldTold, FirstNamed, FirstOdd, HeadTold, TableTold};

use crate::{LineEnd, Record, parse_document};
use std::alloc::Allocator;
use stream_errors::empty::EmptyError;
use stream_errors::fault::ParseFault;
use stream_errors::mode::ErrMode;
use stream_errors::parser_error::ParserError;

/// A header, and the records after it. As [`parse_table`] makes it, each of them has as many
/// fields as the header.
///
/// ```
/// use format_csv::LineEnd;
/// use format_csv::table::parse_table;
///
/// match parse_table(alloc, LineEnd::Lf, b"name,size\nfile,12\n".as_slice()) {
///     Ok(table) => {
///         assert_eq!(rt; table.header.len(), 2);
///         assert_eq!(rt; table.records.len(), 1);
///     }
///     Err(_) => assert!(rt; false),
/// }
/// ```
#[derive(Drop)]
pub struct Table<A: Allocator> {
    /// The names of the columns, in order. Two columns may have one name.
    pub header: Record<A>,
    /// The records after the header, in order.
    pub records: Vec<Record<A>, A>,
}

/// A record that has not as many fields as the header.
///
/// ```
/// use format_csv::table::Ragged;
///
/// let ragged = Ragged { number: 1, has: 3, wants: 2 };
/// assert!(rt; ragged.has > ragged.wants);
/// ```
#[derive(Clone, Copy, Debug, PartialEq, Eq)]
pub struct Ragged {
    /// Which one it is, counted from 1 after the header.
    pub number: usize,
    /// How many fields it has.
    pub has: usize,
    /// How many fields the header has.
    pub wants: usize,
}

/// The reason why bytes are not a table. `F` is the error of a document.
///
/// ```
/// use format_csv::LineEnd;
/// use format_csv::table::{TableError, parse_table};
///
/// match parse_table(alloc, LineEnd::Lf, b"a,b\nc,\"d\n".as_slice()) {
///     Err(TableError::Document(ParseFault::Invalid(error))) => {
///         assert_eq!(rt; error.offset(), 4);
///     }
///     _ => assert!(rt; false),
/// }
/// ```
#[derive(Debug, PartialEq, Drop)]
pub enum TableError<F> {
    /// The bytes are not a document, with the offset where the records ended (which is tested and
    /// not proved); or memory allocation failed.
    Document(F),
    /// There are none, so there is no header.
    Empty,
    /// They are a document, and this is the first of its records that the header does not fit.
    Width(Ragged),
}

/// The first record with another number of fields, if there is one.
fn first_odd<A: Allocator>(wants: usize, records: &[Record<A>]) -> Option<Ragged>
    ensures { FirstOdd wants records.now result }
{
    for (place, fields) in records.iter().enumerate() {
        let has = fields.len();
        if has != wants {
            let number = place + 1;
            return Some(Ragged { number, has, wants });
        }
    }
    None
}

/// The table that the records of a document are.
fn table_of<F, A: Allocator>(records: Vec<Record<A>, A>) -> Result<Table<A>, TableError<F>>
    ensures { HeadTold records.items result }
{
    let mut records = records;
    if records.is_empty() {
        return Err(TableError::Empty);
    }
    let header = records.remove(0);
    match first_odd(header.len(), &records) {
        None => Ok(Table { header, records }),
        Some(ragged) => Err(TableError::Width(ragged)),
    }
}

/// Parses all of the bytes as a table: a document ([`parse_document`]) whose first record is the
/// header, and whose other records have as many fields as the header. A single header is a table
/// without records. An empty line after the header is a record of one field.
///
/// # Errors
///
/// - `Width`: the first record whose number of fields differs from the header's.
/// - `Empty`: there are no bytes.
/// - `Document`: the bytes are not a document, with the offset where the records ended; or memory
///   allocation failed.
///
/// ```
/// use format_csv::LineEnd;
/// use format_csv::table::{Ragged, TableError, parse_table};
///
/// let ragged = parse_table(alloc, LineEnd::CrLf, b"a,b\r\n1,2\r\n3\r\n".as_slice());
/// let second = Ragged { number: 2, has: 1, wants: 2 };
/// assert!(rt; matches!(ragged, Err(TableError::Width(it)) if it == second));
/// let none = parse_table(alloc, LineEnd::CrLf, b"".as_slice());
/// assert!(rt; matches!(none, Err(TableError::Empty)));
/// ```
pub fn parse_table<'i, A: Allocator + Copy>(
    alloc: A,
    end: LineEnd,
    input: &'i [u8],
) -> Result<Table<A>, TableError<ParseFault<&'i [u8], EmptyError>>>
    ensures told { TableTold ⟦<ErrMode<EmptyError> as ParserError<&'i [u8]>>⟧.inner_kind end
        input.now result }
    ensures answered { IsAnswered ⟦<ErrMode<EmptyError> as ParserError<&'i [u8]>>⟧.inner_kind end
        input.now result }
{
    match parse_document(alloc, end, input) {
        Ok(records) => table_of(records),
        Err(fault) => Err(TableError::Document(fault)),
    }
}

/// The place of the first column of this name, counted from 0, if there is one.
fn column_of<A: Allocator>(header: &[Vec<u8, A>], name: &[u8]) -> Option<usize>
    ensures { FirstNamed header.now name.now result }
{
    for (place, field) in header.iter().enumerate() {
        if field.as_slice() == name {
            return Some(place);
        }
    }
    None
}

impl<A: Allocator> Table<A> {
    /// The field of a record under the first column of this name. There is none where no column
    /// has the name, or where the record has too few fields, as none of the table's own has.
    ///
    /// ```
    /// use format_csv::LineEnd;
    /// use format_csv::table::parse_table;
    ///
    /// match parse_table(alloc, LineEnd::Lf, b"name,size\nfile,12\n".as_slice()) {
    ///     Ok(table) => {
    ///         let size = table.field_of(&table.records[0], b"size".as_slice());
    ///         assert!(rt; matches!(size, Some(bytes) if bytes.as_slice() == b"12".as_slice()));
    ///     }
    ///     Err(_) => assert!(rt; false),
    /// }
    /// ```
    pub fn field_of<'t>(&self, fields: &'t Record<A>, name: &[u8]) -> Option<&'t Vec<u8, A>>
        ensures { FieldTold self.now.header.items fields.now.items name.now result }
    {
        let place = column_of(&self.header, name)?;
        fields.get(place)
    }
}
