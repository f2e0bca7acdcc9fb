//! Repetition.
ghost use Rattle.parser_definitions.specs.Does.{Ran};
ghost use Rattle.std.specs.Prelude.{◌≡◌, ◌<◌, ⊤, true};
ghost use Rattle.stream_sets.specs.Range.{IsWithin, bounds_of};
ghost use Rattle.stream_sets.specs.declared.range.Range.{Range};
ghost use Rattle.grammars.specs.Grammar.{Repeated};
ghost use Rattle.grammars.specs.Grammar.Unique.{repeated_take};
ghost use Rattle.stream_errors.specs.Form.{answer_by, modal};
ghost use Rattle.winnow_repeat.specs.Fold.{fold_closure};
ghost use Rattle.winnow_repeat.specs.Repeat.{repeat_occurrences, repeat_parser};
ghost use Rattle.winnow_repeat.specs.TryFold.{try_fold_closure};
ghost use Rattle.winnow_repeat.specs.VerifyFold.{verify_fold_closure};
ghost use Rattle.parser_definitions.specs.Folding.{Built, gathering};
ghost use Rattle.parser_definitions.specs.Projects.{projects_as};
ghost use Rattle.parser_definitions.specs.Projects.Gathers.{repeat_projects};
ghost use Rattle.parser_definitions.specs.Repeat.{OneOrMore, RepeatDoes, repeat_law};
ghost use Rattle.parser_definitions.specs.Then.Steps.{instead, same};

use crate::combinator::impls::{RepeatFold, RepeatTryFold, RepeatVerifyFold};
use crate::combinator::items::{parse_item, repeat_items, repeat_many};
use std::alloc::Allocator;
use std::marker::PhantomData;
use stream_errors::external::FromExternalError;
use stream_errors::parser_error::ParserError;
use stream_sets::accumulate::Accumulate;
use stream_sets::range::Range;
use streams::stream::Stream;
use winnow_core::parser::Parser;

/// The parser that [`repeat`](crate::combinator::repeat) makes.
///
/// ```
/// let mut letters = repeat(alloc, 2, 'a');
/// assert_eq!(rt; letters.parse_peek("aaa"), Ok::<_, EmptyError>(("a", ())));
/// ```
#[derive(Drop)]
pub struct Repeat<P, I, O, C, E, A> {
    pub(crate) alloc: A,
    pub(crate) occurrences: Range,
    pub(crate) parser: P,
    pub(crate) marker: PhantomData<(I, O, C, E)>,
}

impl<P: Parser<I, O, E>, I: Stream, O, E: ParserError<I>, A: Drop> Repeat<P, I, O, (), E, A> {
    /// Folds the outputs in order into a value, which `init` creates, with `op`.
    ///
    /// It ends and fails like the repetition, and does not allocate. In the form `1..` the value is
    /// created after the first item, and otherwise before it. Known as `fold_many0` and
    /// `fold_many1` in nom.
    ///
    /// ```
    /// let digit = Any.verify_map(|letter: char| letter.to_digit(10));
    /// let digits = repeat(alloc, 0.., digit);
    /// let mut sum = digits.fold(|| 0_u32, |sum: u32, n: u32| sum + n);
    /// assert_eq!(rt; sum.parse_peek("12a"), Ok::<_, EmptyError>(("a", 3)));
    /// ```
    #[inline(always)]
    pub fn fold<G, H, R>(self, init: G, op: H) -> RepeatFold<P, G, H, I, O, R, E>
    where
        G: FnMut() -> R,
        H: FnMut(R, O) -> R,
        ensures occurrences { result.occurrences ≡ repeat_occurrences self }
        ensures parser { result.parser ≡ repeat_parser self }
        ensures init { result.init ≡ init }
        ensures op { fold_closure result ≡ op }
    {
        RepeatFold::new(self.occurrences, self.parser, init, op)
    }

    /// Like [`fold`](Repeat::fold), but `op` may reject an output by returning `None`. Then it
    /// backtracks, and the input is left before the rejected item. The value is created first, in
    /// every form.
    ///
    /// ```
    /// let digit = Any.verify_map(|letter: char| letter.to_digit(10));
    /// let digits = repeat(alloc, 0.., digit);
    /// let mut sum = digits.verify_fold(|| u32::MAX - 4, |sum: u32, n: u32| sum.checked_add(n));
    /// let mut input = "23";
    /// assert_eq!(rt; sum.parse_next(&mut input), Err(EmptyError::from_input(&"3")));
    /// assert_eq!(rt; input, "3");
    /// ```
    #[inline(always)]
    pub fn verify_fold<G, H, R>(self, init: G, op: H) -> RepeatVerifyFold<P, G, H, I, O, R, E>
    where
        G: FnMut() -> R,
        H: FnMut(R, O) -> Option<R>,
        ensures occurrences { result.occurrences ≡ repeat_occurrences self }
        ensures parser { result.parser ≡ repeat_parser self }
        ensures init { result.init ≡ init }
        ensures op { verify_fold_closure result ≡ op }
    {
        RepeatVerifyFold::new(self.occurrences, self.parser, init, op)
    }

    /// Like [`verify_fold`](Repeat::verify_fold), but `op` returns an error if it rejects an
    /// output. The error is stored as [`FromExternalError`] specifies, and backtracks.
    ///
    /// ```
    /// let digit = Any.verify_map(|letter: char| letter.to_digit(10));
    /// let digits = repeat(alloc, 0.., digit);
    /// let mut sum = digits.try_fold(|| 0_u32, |sum: u32, n: u32| match n {
    ///     9 => Err("no nine"),
    ///     _ => Ok(sum + n),
    /// });
    /// let mut input = "19";
    /// assert_eq!(rt; sum.parse_next(&mut input), Err(EmptyError::from_input(&"9")));
    /// assert_eq!(rt; input, "9");
    /// ```
    #[inline(always)]
    pub fn try_fold<G, H, R, X>(self, init: G, op: H) -> RepeatTryFold<P, G, H, I, O, R, E, X>
    where
        G: FnMut() -> R,
        H: FnMut(R, O) -> Result<R, X>,
        E: FromExternalError<I, X>,
        ensures occurrences { result.occurrences ≡ repeat_occurrences self }
        ensures parser { result.parser ≡ repeat_parser self }
        ensures init { result.init ≡ init }
        ensures op { try_fold_closure result ≡ op }
    {
        RepeatTryFold::new(self.occurrences, self.parser, init, op)
    }
}

impl<
    P: Parser<I, O, E>,
    I: Stream,
    O: Drop,
    C: Accumulate<O, A>,
    E: ParserError<I>,
    A: Allocator + Copy,
> Parser<I, C, E> for Repeat<P, I, O, C, E, A> {
    ghost can_parse = { λ s. P.can_parse s.parser };

    ghost State = { P.State × Range };

    ghost state = { λ s. (P.state s.parser, s.occurrences) };

    ghost does = { RepeatDoes C.accumulator P.does };

    ghost terms = { record {
      premise = P.terms.premise;
      stable = P.terms.stable;
      alike = Built (gathering {Q = P.State × Range} C.accumulator) P.terms.alike;
      claim = λ s. record {
        premise = (P.terms.claim s.0).premise × (P.terms.claim s.0).backtracks
            × (P.terms.claim s.0).consumes
            × IsWithin (bounds_of s.1).greatest (bounds_of s.1).least;
        backtracks = ⊤;
        spares_memory = (P.terms.claim s.0).spares_memory × C.spares_memory;
        consumes = 0 < (bounds_of s.1).least;
        grammar = Repeated C.holds s.1 (P.terms.claim s.0).grammar;
      };
    } };

    ghost lawful = { record {
      law = λ is. repeat_law C.accumulator (P.lawful.law is);
      claimed = λ s. record {
        projects = λ at is. repeat_projects C.accumulator C.gathers (λ m. C.never_wants m.1)
            (projects_as (λ b. b) (λ m. m.0) ((P.lawful.claimed s.0).projects at is.0)) is.1
            ((P.lawful.claimed s.0).takes is.0 is.2) is.3;
        takes = λ is some. repeated_take C.holds s.1
            ((P.lawful.claimed s.0).projects (record { form = modal; possible = true }) is.0).unique
            ((P.lawful.claimed s.0).takes is.0 is.2) some;
      };
    } };

    fn parse_next(&mut self, input: &mut I) -> Result<C, E> {
        let least = self.occurrences.start_inclusive;
        match self.occurrences.greatest() {
            None => {
                if least == 1 {
                    repeat_one(self.alloc, &mut self.parser, input)
                } else {
                    repeat_many(self.alloc, least, None, &mut self.parser, input)
                }
            }
            Some(most) => repeat_many(self.alloc, least, Some(most), &mut self.parser, input),
        }
    }
}

/// Repeats one or more times: the accumulator is created after the first item.
fn repeat_one<
    P: Parser<I, O, E>,
    I: Stream,
    O: Drop,
    C: Accumulate<O, A>,
    E: ParserError<I>,
    A: Allocator + Copy,
>(alloc: A, parser: &mut P, input: &mut I) -> Result<C, E>
    requires { P.can_parse parser.old }
    ensures again { P.can_parse parser.new }
    ensures ran { Ran I.reading (OneOrMore same instead (gathering C.accumulator) P.does) E.form
        (P.state parser.old) (I.view input.old) (answer_by E.kind result) (P.state parser.new)
        (I.view input.new) }
{
    let start = input.checkpoint();
    let first = parse_item(parser, input, &start)?;
    let mut all = match C::initial(alloc, None) {
        Ok(all) => all,
        Err(_) => return Err(E::no_memory(input)),
    };
    match all.accumulate(first) {
        Ok(()) => repeat_items(all, 0, None, parser, input),
        Err(_) => Err(E::no_memory(input)),
    }
}
