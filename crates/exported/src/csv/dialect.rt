//! Dialects of comma-separated values as callers give them.

ghost use Rattle.std.specs.Prelude.{◌≡◌, ◌<◌, IfSome, MatchOption};
ghost use Rattle.exported.specs.Csv.{HasDialect, IsDialect, ends_of};
ghost use Rattle.format_csv_records.specs.declared.dialect.Dialect.{Dialect};

use format_csv_records::dialect::{Dialect, LineEnds};

/// A carriage return and a line feed end a record, as in RFC 4180.
pub const CSV_CRLF: u32 = 0;

/// Only a line feed ends a record.
pub const CSV_LF: u32 = 1;

/// Either of them ends a record, for each record anew.
pub const CSV_EITHER: u32 = 2;

/// A dialect of comma-separated values. The delimiter, the quote, a carriage return and a line feed
/// must be four different bytes. RFC 4180 has a comma, a double quote, and `CSV_CRLF`. There is
/// always a quote: for fields without quotes, choose a byte that does not occur. There are no
/// escape characters and no comments.
#[repr(C)]
#[derive(Clone, Copy, Drop)]
pub struct CsvDialect {
    /// The byte between two fields.
    pub delimiter: u8,
    /// The byte around a quoted field. It is doubled within the quotes.
    pub quote: u8,
    /// The end of a record: one of the constants from `CSV_CRLF` to `CSV_EITHER`.
    pub line_ends: u32,
}

/// Returns the line endings of a number, if it has any.
fn ends_of(number: u32) -> Option<LineEnds>
    ensures { MatchOption result (number < 3 → ⊥) (λ it. (number < 3) × (it ≡ ends_of number)) }
{
    match number {
        0 => Some(LineEnds::CrLf),
        1 => Some(LineEnds::Lf),
        2 => Some(LineEnds::Either),
        _ => None,
    }
}

/// Proves that a byte is below 256.
#[inline(always)]
fn is_byte(byte: u8)
    ensures { byte < 256 }
{}

/// Returns the dialect that `given` describes, if there is one.
pub(crate) fn dialect_of(given: CsvDialect) -> Option<Dialect>
    ensures only { MatchOption result (HasDialect given → ⊥)
        (λ it. IsDialect given it × ((d : Dialect) → IsDialect given d → it ≡ d)) }
    ensures byte { IfSome result (λ it. it.quote < 256) }
{
    is_byte(given.quote);
    match ends_of(given.line_ends) {
        Some(ends) => match Dialect::new(given.delimiter, given.quote, ends) {
            Ok(dialect) => Some(dialect),
            Err(_) => None,
        },
        None => None,
    }
}
