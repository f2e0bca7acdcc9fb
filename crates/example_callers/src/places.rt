//! The place of a word in a stream: a call that reads by a grammar says between which places.
ghost use Rattle.winnow.specs.Does.{Ran};
ghost use Rattle.std.specs.Prelude.{false, IfErr, IfOk, ◌≡◌};
ghost use Rattle.example_callers.specs.Places.{IsPlaced, KeyAndMark};
ghost use Rattle.winnow.specs.AsChar.{IsAlpha};
ghost use Rattle.winnow.specs.Class.{CharIsFunction};
ghost use Rattle.winnow.specs.Exact.{IsSpared, Reads};
ghost use Rattle.winnow.specs.Kind.{backtrack};
ghost use Rattle.winnow.specs.Grammar.{Class, Literally};
ghost use Rattle.winnow.specs.Premises.{IsStateless};
ghost use Rattle.winnow.specs.Spans.{IsBetween, output_alone};

use std::ops::Range;
use winnow::Parser;
use winnow::ascii::impls::Alpha1;
use winnow::combinator::impls::Span;
use winnow::error::ParserError;
use winnow::exact::ReadsSpanned;
use winnow::laws::{Likeness, deterministic_parts_are_stateless, spans_are_stateless};
use winnow::stream::{AsChar, Compare, LocatingSlice, Location, Stream, StreamIsPartial};

/// A word and the mark `=`, of any stream of bytes.
fn name<I, E>(input: &mut I) -> Result<(I::Slice, u8), E>
where
    I: StreamIsPartial + Compare<u8>,
    I::Token: AsChar,
    E: ParserError<I>,
    requires seen { CharIsFunction I.seen_as I.Token.code }
    ensures reads { Reads I.reading E.kind (KeyAndMark I.Token.code I.seen_as I.reading
        (Literally I.reading I.spells (λ s _. s) 61)) (I.view input.old) result
        (I.view input.new) }
    ensures spared { IsSpared E.kind (I.view input.old) result }
{
    (Alpha1, b'=').read(input)
}

/// Parses a word and returns it with its span, over any stream of bytes with offsets.
fn word_between<I, E>(input: &mut I) -> Result<(I::Slice, Range<usize>), E>
where
    I: StreamIsPartial + Location,
    I::Token: AsChar,
    E: ParserError<I>,
    requires seen { CharIsFunction I.seen_as I.Token.code }
    ensures reads { Reads I.reading E.kind (Class IsAlpha 1 I.Token.code I.seen_as I.reading)
        (I.view input.old) (output_alone result) (I.view input.new) }
    ensures between { IsBetween (I.view input.old) result (I.view input.new) }
    ensures spared { IsSpared E.kind (I.view input.old) result }
{
    Alpha1.read_spanned(input)
}

/// Parses an assignment `key=value` and returns the value and its span, in bytes from the start of
/// the stream. Fails if the input does not start with an assignment.
///
/// ```
/// use example_callers::places::value_place;
/// use winnow::error::EmptyError;
/// use winnow::stream::LocatingSlice;
///
/// let mut input = LocatingSlice::new(b"key=value;".as_slice());
/// let value = b"value".as_slice();
/// assert_eq!(rt; value_place(&mut input), Ok::<_, EmptyError>((value, 4..9)));
/// ```
pub fn value_place<I, E>(input: &mut LocatingSlice<I>) -> Result<(I::Slice, Range<usize>), E>
where
    I: StreamIsPartial + Compare<u8>,
    I::Token: AsChar,
    E: ParserError<LocatingSlice<I>>,
    requires seen { CharIsFunction I.seen_as I.Token.code }
    requires whole { (⟦<LocatingSlice<I> as Stream>⟧.view input.old).status.cut ≡ false }
    ensures found { IfOk result (IsPlaced I.reading
        (KeyAndMark I.Token.code I.seen_as I.reading (Literally I.reading I.spells (λ s _. s) 61))
        (Class IsAlpha 1 I.Token.code I.seen_as I.reading)
        (⟦<LocatingSlice<I> as Stream>⟧.view input.old).left) }
    ensures fails { IfErr result (λ error. E.kind error ≡ backtrack) }
{
    match name(input) {
        Ok(_) => word_between(input),
        Err(error) => Err(error),
    }
}

/// Equal bytes.
struct Equal;

impl Likeness<u8> for Equal {
    ghost alike = { λ v w. v ≡ w };
}

/// States that the span of a plus sign is the same in all calls on one input.
pub fn signs_have_one_span<I, E>()
where
    I: StreamIsPartial + Compare<u8> + Location,
    E: ParserError<I>,
    ensures { IsStateless (λ u v. u ≡ v)
        (Ran I.reading ⟦<Span<u8, I, u8, E> as Parser<I, Range<usize>, E>>⟧.does E.form) 43 }
{
    deterministic_parts_are_stateless::<u8, I, u8, E>();
    spans_are_stateless::<u8, I, u8, E, Equal>();
}
