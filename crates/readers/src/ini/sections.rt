//! Documents, section by section.
ghost use Rattle.std.specs.Prelude.{map, MatchResult};
ghost use Rattle.readers.specs.Document.{HasSections, IsDocumentFault};
ghost use Rattle.readers.specs.DocumentRuns.{DocumentRuns, PairsRuns, SectionRuns, SectionsRuns};
ghost use Rattle.readers.specs.Sections.{pair_text, section_text};
ghost use Rattle.winnow.specs.Bytes.{bytes_input};
ghost use Rattle.winnow.specs.Form.{answer_by};

use crate::fault::ReadError;
use crate::ini::parts::{gap, key_value, section_name};
use crate::ini::tables::NameBytes;
use std::alloc::Allocator;
use winnow::combinator::{preceded, repeat, seq, terminated};
use winnow::error::{ErrMode, HasKind, InputError, ParseFault, ParserError};
use winnow::{Func, FuncWith, Parser};

/// A section: its name, and its pairs of a key and a value in order, as slices of the input. `A` is
/// the allocator of the list.
///
/// ```
/// use readers::ini;
///
/// let sections = ini::document(alloc, b"[a]\nx=1");
/// assert!(rt; matches!(sections, Ok(sections) if sections[0].name == "a"));
/// ```
#[derive(Debug, PartialEq, Drop)]
pub struct Section<'i, A: Allocator> {
    /// The name between `[` and `]`.
    pub name: &'i str,
    /// The pairs, repeats kept.
    pub pairs: Vec<(&'i str, &'i str), A>,
}

/// The pairs after a section's name, each with the gap after it.
fn pairs<'i, A: Allocator + Copy>(
    alloc: A,
    input: &mut &'i [u8],
) -> Result<Vec<(&'i str, &'i str), A>, ErrMode<InputError<&'i [u8]>>>
    ensures { PairsRuns (λ all. map pair_text all.items) (bytes_input input.old.now)
        (answer_by ⟦<ErrMode<InputError<&'i [u8]>> as HasKind>⟧.kind result)
        (bytes_input input.new.now) }
{
    repeat(
        alloc,
        0..,
        terminated(Func(key_value), FuncWith(alloc, gap)),
    )
    .parse_next(input)
}

/// One section: its name, a gap, and its pairs.
fn one_section<'i, A: Allocator + Copy>(
    with: (A, NameBytes),
    input: &mut &'i [u8],
) -> Result<Section<'i, A>, ErrMode<InputError<&'i [u8]>>>
    ensures { SectionRuns section_text (bytes_input input.old.now)
        (answer_by ⟦<ErrMode<InputError<&'i [u8]>> as HasKind>⟧.kind result)
        (bytes_input input.new.now) }
{
    let (alloc, names) = with;
    let name = FuncWith(names, section_name);
    seq!(Section {
        name: terminated(name, FuncWith(alloc, gap)),
        pairs: FuncWith(alloc, pairs),
    })
    .parse_next(input)
}

/// All sections.
fn sections<'i, A: Allocator + Copy>(
    with: (A, NameBytes),
    input: &mut &'i [u8],
) -> Result<Vec<Section<'i, A>, A>, ErrMode<InputError<&'i [u8]>>>
    ensures { SectionsRuns (λ all. map section_text all.items) (bytes_input input.old.now)
        (answer_by ⟦<ErrMode<InputError<&'i [u8]>> as HasKind>⟧.kind result)
        (bytes_input input.new.now) }
{
    repeat(with.0, 0.., FuncWith(with, one_section)).parse_next(input)
}

/// A gap, and all sections.
fn gap_and_sections<'i, A: Allocator + Copy>(
    with: (A, NameBytes),
    input: &mut &'i [u8],
) -> Result<Vec<Section<'i, A>, A>, ErrMode<InputError<&'i [u8]>>>
    ensures { DocumentRuns (λ all. map section_text all.items) (bytes_input input.old.now)
        (answer_by ⟦<ErrMode<InputError<&'i [u8]>> as HasKind>⟧.kind result)
        (bytes_input input.new.now) }
{
    preceded(FuncWith(with.0, gap), FuncWith(with, sections)).parse_next(input)
}

/// Parses a document: any number of sections, each a name in brackets, as
/// [`category`](crate::ini::category) reads it, and pairs, as [`key_value`](crate::ini::key_value)
/// reads them, with whitespace and comments before, between and after them. No pair precedes the
/// first section.
///
/// Returns the sections in order, each with its pairs in order, including repeated ones, as slices
/// of the input. The input is read once, in time linear in its length.
///
/// Other bytes are [`ReadError::Invalid`] with the offset, in bytes from the start, of the first
/// part that is not a section, pair, whitespace or comment. Only the lists allocate, so an input
/// without a section does not. The error is [`ReadError::NoMemory`] if an allocation fails.
///
/// ```
/// use readers::fault::ReadError;
/// use readers::ini;
///
/// let sections = ini::document(alloc, b"[a]\nx=1\n");
/// assert!(rt; matches!(sections, Ok(sections) if sections[0].pairs[0] == ("x", "1")));
/// let refused = ini::document(alloc, b"[a]\nx\n");
/// assert!(rt; matches!(refused, Err(ReadError::Invalid(4))));
/// ```
pub fn document<'i, A: Allocator + Copy>(
    alloc: A,
    input: &'i [u8],
) -> Result<Vec<Section<'i, A>, A>, ReadError>
    ensures { MatchResult result
        (λ sections. HasSections input.now (map section_text sections.items))
        (λ fault. IsDocumentFault input.now fault) }
{
    match FuncWith((alloc, NameBytes::new()), gap_and_sections).parse(input) {
        Ok(sections) => Ok(sections),
        Err(ParseFault::Invalid(error)) => {
            if error.inner().is_memory() {
                Err(ReadError::NoMemory)
            } else {
                Err(ReadError::Invalid(error.offset()))
            }
        }
        Err(ParseFault::Incomplete(_)) => unreachable!(),
    }
}
