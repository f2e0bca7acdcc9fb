//! Dialects: what separates fields, what quotes them, and what ends a record.

ghost use Rattle.std.specs.Prelude.{◌≡◌, ◌⊎◌, ◌↔◌, IfSome, IsTrue, MatchResult};
ghost use Rattle.format_csv_records.specs.Apart.{DialectReason, IsApart};

/// The line endings that end a record.
///
/// ```
/// use format_csv_records::dialect::LineEnds;
///
/// assert!(rt; LineEnds::Either != LineEnds::Lf);
/// ```
#[derive(Clone, Copy, Debug, PartialEq, Eq)]
pub enum LineEnds {
    /// A carriage return and a line feed, as specified in RFC 4180, section 2, item 1.
    CrLf,
    /// Only a line feed.
    Lf,
    /// One or the other, at each record anew.
    Either,
}

/// Why two bytes make no dialect.
///
/// ```
/// use format_csv_records::dialect::{Dialect, DialectError, LineEnds};
///
/// let none = Dialect::new(b'"', b'"', LineEnds::Lf);
/// assert!(rt; matches!(none, Err(DialectError::DelimiterIsQuote)));
/// ```
#[derive(Clone, Copy, Debug, PartialEq, Eq)]
pub enum DialectError {
    /// The delimiter and the quote are one byte.
    DelimiterIsQuote,
    /// The delimiter is a carriage return or a line feed.
    DelimiterEndsLines,
    /// The quote is a carriage return or a line feed.
    QuoteEndsLines,
}

/// A dialect: the byte between two fields, the byte around a field, and the line endings of
/// records.
///
/// ```
/// use format_csv_records::dialect::{Dialect, LineEnds};
///
/// match Dialect::new(b';', b'\'', LineEnds::Either) {
///     Ok(dialect) => assert_eq!(rt; dialect.delimiter, b';'),
///     Err(_) => assert!(rt; false),
/// }
/// ```
#[derive(Clone, Copy, Debug)]
pub struct Dialect {
    /// The byte between two fields.
    pub delimiter: u8,
    /// The byte around a field in quotes. It is doubled within the quotes.
    pub quote: u8,
    /// The line endings that end a record.
    pub ends: LineEnds,
    ghost apart: { IsApart delimiter quote },
}

fn ends_lines(byte: u8) -> bool
    ensures { IsTrue result ↔ ((byte ≡ 13) ⊎ (byte ≡ 10)) }
{
    byte == b'\r' || byte == b'\n'
}

impl Dialect {
    /// Creates a dialect. The delimiter, the quote, the carriage return and the line feed must be
    /// four different bytes. If there are two reasons for an error, returns the first one in
    /// [`DialectError`].
    ///
    /// ```
    /// use format_csv_records::dialect::{Dialect, DialectError, LineEnds};
    ///
    /// assert!(rt; Dialect::new(b'\t', b'"', LineEnds::CrLf).is_ok());
    /// let none = Dialect::new(b',', b'\r', LineEnds::CrLf);
    /// assert!(rt; matches!(none, Err(DialectError::QuoteEndsLines)));
    /// ```
    pub fn new(delimiter: u8, quote: u8, ends: LineEnds) -> Result<Dialect, DialectError>
        ensures { MatchResult result
            (λ it. (it.delimiter ≡ delimiter) × (it.quote ≡ quote) × (it.ends ≡ ends))
            (λ fault. DialectReason delimiter quote fault) }
    {
        if delimiter == quote {
            return Err(DialectError::DelimiterIsQuote);
        }
        if ends_lines(delimiter) {
            return Err(DialectError::DelimiterEndsLines);
        }
        if ends_lines(quote) {
            return Err(DialectError::QuoteEndsLines);
        }
        Ok(Dialect {
            delimiter,
            quote,
            ends,
        })
    }

    /// The dialect of RFC 4180: commas, double quotes, and carriage returns with line feeds.
    ///
    /// ```
    /// use format_csv_records::dialect::{Dialect, LineEnds};
    ///
    /// assert_eq!(rt; Dialect::standard().ends, LineEnds::CrLf);
    /// ```
    pub fn standard() -> Dialect
        ensures { (result.delimiter ≡ 44) × (result.quote ≡ 34)
            × (result.ends ≡ LineEnds.CrLf) }
    {
        Dialect {
            delimiter: b',',
            quote: b'"',
            ends: LineEnds::CrLf,
        }
    }

    // Returns the same dialect if it has commas and double quotes, so that the compiler knows both.
    #[inline(always)]
    pub(crate) fn of_commas(self) -> Option<Dialect>
        ensures { IfSome result (λ it. it ≡ self) }
    {
        if self.delimiter == b',' && self.quote == b'"' {
            Some(Dialect {
                delimiter: b',',
                quote: b'"',
                ends: self.ends,
            })
        } else {
            None
        }
    }
}
