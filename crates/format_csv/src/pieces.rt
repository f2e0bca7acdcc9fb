//! Records from pieces: one at a time, as their bytes come in.

ghost use Rattle.std.specs.Prelude.{IfErr};
ghost use Rattle.streams.specs.Bytes.{bytes_follow, bytes_reading};
ghost use Rattle.grammars.specs.Grammar.{NoMatch};
ghost use Rattle.format_csv.specs.Csv.{IsRecord};
ghost use Rattle.format_csv.specs.Pieces.{IsLine, MayGoOn};
ghost use Rattle.winnow_grammar.specs.Cut.{Asks, ReadsOrAsks};

use crate::dialects::dialect_of;
use crate::{LineEnd, Record, read_lists, read_record};
use format_csv_records::extent::RecordExtent;
use std::alloc::Allocator;
use stream_errors::empty::EmptyError;
use stream_errors::has_kind::HasKind;
use stream_errors::mode::ErrMode;
use stream_errors::parser_error::ParserError;
use streams::needed::Needed;
use streams::partial::Partial;
use streams::stream::{Stream, StreamIsPartial};

/// Like [`read_record`](crate::read_record), for partial input.
///
/// On partial input a record is returned only if its line ending is there; every longer input then
/// starts with the same record. It backtracks as soon as no longer input starts with a record. It
/// returns `Incomplete` only if the input does not start with a record and its line ending, and
/// some longer input starts with a record. Any call may fail with out of memory instead. Complete
/// input is parsed as by `read_record`.
///
/// ```
/// use format_csv::LineEnd;
/// use format_csv::pieces::read_record_in_pieces;
/// use winnow::error::ErrMode;
/// use winnow::stream::Partial;
///
/// let mut piece = Partial::new(b"a,\"b\n".as_slice());
/// let asks = read_record_in_pieces(alloc, LineEnd::Lf, &mut piece);
/// assert!(rt; matches!(asks, Err(ErrMode::Incomplete(_))));
/// let mut more = Partial::new(b"a,\"b\nc\"\nd".as_slice());
/// let record = read_record_in_pieces(alloc, LineEnd::Lf, &mut more);
/// assert!(rt; matches!(record, Ok(fields) if fields[1].as_slice() == b"b\nc".as_slice()));
/// assert_eq!(rt; *more.as_inner(), b"d".as_slice());
/// let mut none = Partial::new(b"a,b\"".as_slice());
/// let refused = read_record_in_pieces(alloc, LineEnd::Lf, &mut none);
/// assert!(rt; matches!(refused, Err(ErrMode::Backtrack(_))));
/// ```
pub fn read_record_in_pieces<'i, A: Allocator + Copy>(
    alloc: A,
    end: LineEnd,
    input: &mut Partial<&'i [u8]>,
) -> Result<Record<A>, ErrMode<EmptyError>>
    ensures record { ReadsOrAsks bytes_reading bytes_follow ⟦<ErrMode<EmptyError> as HasKind>⟧.kind
        (IsRecord end) (⟦<Partial<&'static [u8]> as Stream>⟧.view input.old) result
        (⟦<Partial<&'static [u8]> as Stream>⟧.view input.new) }
    ensures asks { IfErr result (λ e. Asks (⟦<ErrMode<EmptyError> as HasKind>⟧.kind e)
        → NoMatch (IsLine {A = A} end)
        (⟦<Partial<&'static [u8]> as Stream>⟧.view input.old).left.tokens) }
    ensures goes_on { IfErr result (λ e. Asks (⟦<ErrMode<EmptyError> as HasKind>⟧.kind e)
        → MayGoOn end (⟦<Partial<&'static [u8]> as Stream>⟧.view input.old).left.tokens) }
{
    let whole = *input.as_inner();
    if !input.is_partial() {
        let mut left = whole;
        let answer = read_record(alloc, end, &mut left);
        *input = Partial::new(left);
        input.complete();
        return answer;
    }
    match RecordExtent::new().advance(dialect_of(end), whole) {
        Ok(Some(_)) => match read_lists(alloc, end, whole) {
            Ok((fields, left)) => {
                *input = Partial::new(left);
                Ok(fields)
            }
            Err(_) => Err(ParserError::<&[u8]>::no_memory(&whole)),
        },
        Ok(None) => Err(ErrMode::Incomplete(Needed::Unknown)),
        Err(_) => Err(ParserError::<&[u8]>::from_input(&whole)),
    }
}
