//! Sequences of labels.
ghost use Rattle.format_dns.specs.Names.{IsLabel, IsString};
ghost use Rattle.std.specs.Prelude.{◌≡◌, Some};
ghost use Rattle.parser_definitions.specs.Terms.{CanRead};
ghost use Rattle.stream_sets.specs.Range.{from_to};
ghost use Rattle.streams.specs.Bytes.{bytes_input, bytes_reading};
ghost use Rattle.winnow_core.specs.Exact.{Reads};
ghost use Rattle.grammars.specs.Grammar.{Counted, Gathered, Many};
ghost use Rattle.grammars.specs.Grammar.Lengths.{SaysOne, Sized};

use std::alloc::Allocator;
use stream_errors::empty::EmptyError;
use stream_errors::has_kind::HasKind;
use stream_errors::mode::ErrMode;
use stream_errors::parser_error::ParserError;
use stream_sets::numbers::ToUsize;
use streams::stream::StreamIsPartial;
use winnow_binary::binary::length_take;
use winnow_core::parser::Parser;
use winnow_repeat::combinator::repeat;
use winnow_token::token::one_of;

/// Parses consecutive slices, each after its length, up to `most` of them.
fn read_sized<I, E, N, P, A>(
    alloc: A,
    most: usize,
    count: P,
    input: &mut I,
) -> Result<Vec<I::Slice, A>, E>
where
    I: StreamIsPartial,
    E: ParserError<I>,
    N: ToUsize + Drop,
    P: Parser<I, N, E> + Drop,
    A: Allocator + Copy,
    requires count { CanRead (P.can_parse count) (P.terms.claim (P.state count))
        × (P.terms.claim (P.state count)).consumes }
    requires says { SaysOne N.number (P.terms.claim (P.state count)).grammar }
    ensures { Reads I.reading E.kind
        (Gathered (λ list parts. list.items ≡ parts)
        (Many (Sized N.number (Counted I.reading) (P.terms.claim (P.state count)).grammar)
        (from_to 0 (Some most)))) (I.view input.old) result (I.view input.new) }
{
    repeat(alloc, ..=most, length_take(count)).read(input)
}

/// Parses as many labels as there are, up to `most`, each after its length from 1 to 63.
pub fn read_labels<'i, A: Allocator + Copy>(
    alloc: A,
    most: usize,
    input: &mut &'i [u8],
) -> Result<Vec<&'i [u8], A>, ErrMode<EmptyError>>
    ensures { Reads bytes_reading ⟦<ErrMode<EmptyError> as HasKind>⟧.kind
        (Gathered (λ list labels. list.items ≡ labels) (Many IsLabel (from_to 0 (Some most))))
        (bytes_input input.old.now) result (bytes_input input.new.now) }
{
    read_sized(alloc, most, one_of(1..=63), input)
}

/// Parses as many character strings as there are, up to `most`, each after its length in one byte.
pub fn read_strings<'i, A: Allocator + Copy>(
    alloc: A,
    most: usize,
    input: &mut &'i [u8],
) -> Result<Vec<&'i [u8], A>, ErrMode<EmptyError>>
    ensures { Reads bytes_reading ⟦<ErrMode<EmptyError> as HasKind>⟧.kind
        (Gathered (λ list strings. list.items ≡ strings) (Many IsString (from_to 0 (Some most))))
        (bytes_input input.old.now) result (bytes_input input.new.now) }
{
    read_sized(alloc, most, one_of(0..=255), input)
}
