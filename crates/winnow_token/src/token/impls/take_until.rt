//! The implementation of `take_until`.
ghost use Rattle.std.specs.Prelude.{◌<◌, ⊤};
ghost use Rattle.stream_sets.specs.Range.{bounds_of, IsWithin};
ghost use Rattle.stream_sets.specs.declared.range.Range.{Range};
ghost use Rattle.grammars.specs.Grammar.Searches.{Before};
ghost use Rattle.grammars.specs.Grammar.Searches.Unique.{before_takes};
ghost use Rattle.parser_definitions.specs.Projects.Tokens.{take_until_projects};
ghost use Rattle.parser_definitions.specs.TakeUntil.{TakeUntilDoes, take_until_law};
ghost use Rattle.parser_definitions.specs.Spelled.{ShowSame};

use crate::token::until::take_before;
use std::marker::PhantomData;
use stream_errors::parser_error::ParserError;
use stream_searches::find::FindSlice;
use stream_sets::range::Range;
use streams::stream::StreamIsPartial;
use winnow_core::parser::Parser;

/// The parser that [`take_until`](crate::token::take_until) makes.
///
/// ```
/// let mut parser: TakeUntil<_, _, _> = take_until(0.., ';');
/// assert_eq!(rt; parser.parse_peek("ab;"), Ok::<_, EmptyError>((";", "ab")));
/// ```
#[derive(Drop)]
pub struct TakeUntil<T, I, E> {
    pub(crate) occurrences: Range,
    pub(crate) literal: T,
    pub(crate) marker: PhantomData<(I, E)>,
}

impl<T: Copy, I: StreamIsPartial + FindSlice<T>, E: ParserError<I>> Parser<I, I::Slice, E>
    for TakeUntil<T, I, E> {
    ghost State = { Range × T };

    ghost state = { λ s. (s.occurrences, s.literal) };

    ghost does = { TakeUntilDoes I.reading (λ x. I.sought x.1) (λ x. bounds_of x.0) };

    ghost terms = { record {
      premise = ⊤;
      stable = ⊤;
      alike = ShowSame I.reading;
      claim = λ s. record {
        premise = IsWithin (bounds_of s.0).greatest (bounds_of s.0).least;
        backtracks = ⊤;
        spares_memory = ⊤;
        consumes = 0 < (bounds_of s.0).least;
        grammar = Before I.reading (I.sought s.1) (bounds_of s.0);
      };
    } };

    ghost lawful = { record {
      law = λ _. take_until_law I.reading (λ x. I.sought x.1) (λ x. bounds_of x.0)
          (λ x. I.stays_first x.1);
      claimed = λ s. record {
        projects = λ at is. take_until_projects I.reading (λ x. I.sought x.1) (λ x. bounds_of x.0)
            is;
        takes = λ is some. before_takes I.reading (I.sought s.1) (bounds_of s.0) some;
      };
    } };

    #[inline(always)]
    fn parse_next(&mut self, input: &mut I) -> Result<I::Slice, E> {
        take_before(input, self.occurrences, self.literal)
    }
}
