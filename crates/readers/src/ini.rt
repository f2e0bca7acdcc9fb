//! INI text.
ghost use Rattle.std.specs.Prelude.{IfOk, IfErr};
ghost use Rattle.readers.specs.Pair.{IsPairLine, IsPairFault};

mod parts;
mod sections;
mod tables;

use crate::fault::ReadError;
pub use crate::ini::parts::{category, key_value};
pub use crate::ini::sections::{Section, document};
use crate::ini::tables::{bytes_of_line, key_bytes, line_feed};
use winnow::Parser;
use winnow::error::{EmptyError, ParseFault};
use winnow::stream::ByteStream;
use winnow::token::take_while;

/// Parses one line of a key, `=` and a value: one or more ASCII letters or digits, `=`, bytes other
/// than a line feed, and at most one line feed.
///
/// Returns the key and the value, as slices of the input; the value may be empty. Other bytes are
/// rejected. The offset of the error is the length of their longest prefix that such a line can
/// start with.
///
/// ```
/// use readers::fault::ReadError;
/// use readers::ini;
///
/// assert_eq!(rt; ini::pair(b"key=value\n"), Ok((b"key".as_slice(), b"value".as_slice())));
/// assert_eq!(rt; ini::pair(b"a=b\nc"), Err(ReadError::Invalid(4)));
/// ```
pub fn pair(input: &[u8]) -> Result<(&[u8], &[u8]), ReadError>
    ensures parts { IfOk result (λ p. IsPairLine input.now p.0.now p.1.now) }
    ensures refused { IfErr result (λ f. IsPairFault input.now f) }
{
    input.shows_bytes();
    let line_feed = line_feed();
    let mut line = (
        take_while::<_, _, EmptyError, _>(1.., key_bytes()),
        b'=',
        take_while(0.., bytes_of_line(line_feed)),
        take_while(..=1, line_feed),
    );
    match line.parse(input) {
        Ok((key, _, value, _)) => Ok((key, value)),
        Err(ParseFault::Invalid(error)) => Err(ReadError::Invalid(error.offset())),
        Err(ParseFault::Incomplete(_)) => unreachable!(),
    }
}
