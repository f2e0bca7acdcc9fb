//! Takes of the tokens outside a set.
ghost use Rattle.std.specs.Prelude.{◌<◌, ⊤};
ghost use Rattle.streams.specs.Stream.{AnswersSeen};
ghost use Rattle.stream_sets.specs.Once.{Others, SetIsFunction};
ghost use Rattle.stream_sets.specs.Range.{bounds_of, IsWithin};
ghost use Rattle.stream_sets.specs.declared.range.Range.{Range};
ghost use Rattle.grammars.specs.Grammar.{Longest};
ghost use Rattle.parser_definitions.specs.Projects.Tokens.{longest_takes, take_while_projects};
ghost use Rattle.parser_definitions.specs.TakeWhile.{TakeTillDoes, take_till_law};
ghost use Rattle.parser_definitions.specs.Spelled.{ShowSame};

use crate::token::members::{Others, take_members};
use std::marker::PhantomData;
use stream_errors::parser_error::ParserError;
use stream_sets::range::Range;
use stream_sets::sets::ContainsToken;
use streams::stream::StreamIsPartial;
use winnow_core::parser::Parser;

/// The parser that [`take_till`](crate::token::take_till) makes.
///
/// ```
/// let mut parser: TakeTill<_, _, _> = take_till(0.., ';');
/// assert_eq!(rt; parser.parse_peek("ab;"), Ok::<_, EmptyError>((";", "ab")));
/// ```
#[derive(Drop)]
pub struct TakeTill<S, I, E> {
    pub(crate) occurrences: Range,
    pub(crate) set: S,
    pub(crate) marker: PhantomData<(I, E)>,
}

impl<S: ContainsToken<I::Token>, I: StreamIsPartial, E: ParserError<I>> Parser<I, I::Slice, E>
    for TakeTill<S, I, E> {
    ghost can_parse = { λ s. S.can_test s.set };

    ghost State = { Range × S };

    ghost state = { λ s. (s.occurrences, s.set) };

    ghost does = { TakeTillDoes I.seen_as I.reading (λ x. S.tells x.1) (λ x. bounds_of x.0) };

    ghost terms = { record {
      premise = (x : S)
          → SetIsFunction (AnswersSeen I.seen_as (Others S.tells x));
      stable = ⊤;
      alike = ShowSame I.reading;
      claim = λ s. record {
        premise = SetIsFunction (AnswersSeen I.seen_as (Others S.tells s.1))
            × IsWithin (bounds_of s.0).greatest (bounds_of s.0).least;
        backtracks = ⊤;
        spares_memory = ⊤;
        consumes = 0 < (bounds_of s.0).least;
        grammar = Longest I.reading I.seen_as (Others S.tells) s.1 (bounds_of s.0);
      };
    } };

    ghost lawful = { record {
      law = λ is. take_till_law I.seen_as I.reading (λ x. S.tells x.1)
          (λ x. bounds_of x.0) (λ x. is x.1);
      claimed = λ s. record {
        projects = λ at is. take_while_projects I.reading I.seen_as (Others S.tells) (λ x. x.1)
            (λ x. bounds_of x.0) is.0 is.1;
        takes = λ is some. longest_takes I.reading I.seen_as (Others S.tells) s.1
            (bounds_of s.0) some;
      };
    } };

    #[inline(always)]
    fn parse_next(&mut self, input: &mut I) -> Result<I::Slice, E> {
        take_members(input, self.occurrences, &Others(&self.set))
    }
}
