//! That many tokens.
ghost use Rattle.std.specs.Prelude.{ℕ, ◌<◌, ⊤};
ghost use Rattle.grammars.specs.Grammar.{Counted};
ghost use Rattle.winnow_token.specs.Take.Laws.{counted_takes};
ghost use Rattle.parser_definitions.specs.Projects.Tokens.{take_projects};
ghost use Rattle.parser_definitions.specs.Take.{TakeDoes, take_law};
ghost use Rattle.parser_definitions.specs.Spelled.{ShowSame};

use std::marker::PhantomData;
use stream_errors::parser_error::ParserError;
use streams::stream::StreamIsPartial;
use winnow_core::parser::Parser;
use winnow_core::short::short;

/// The parser that [`take`](crate::token::take) makes.
///
/// ```
/// let mut parser: Take<_, _> = take(3u8);
/// assert_eq!(rt; parser.parse_peek("abcd"), Ok::<_, EmptyError>(("d", "abc")));
/// ```
#[derive(Drop)]
pub struct Take<I, E> {
    pub(crate) count: usize,
    pub(crate) marker: PhantomData<(I, E)>,
}

impl<I: StreamIsPartial, E: ParserError<I>> Parser<I, I::Slice, E> for Take<I, E> {
    ghost State = { ℕ };

    ghost state = { λ s. s.count };

    ghost does = { TakeDoes I.reading I.counts_missing (λ (n : ℕ). n) };

    ghost terms = { record {
      premise = ⊤;
      stable = ⊤;
      alike = ShowSame I.reading;
      claim = λ s. record {
        premise = ⊤;
        backtracks = ⊤;
        spares_memory = ⊤;
        consumes = 0 < s;
        grammar = Counted I.reading s;
      };
    } };

    ghost lawful = { record {
      law = λ _. take_law I.reading I.counts_missing (λ n. n);
      claimed = λ s. record {
        projects = λ at is. take_projects I.reading I.counts_missing (λ n. n);
        takes = λ is some. counted_takes I.reading s some;
      };
    } };

    #[inline(always)]
    fn parse_next(&mut self, input: &mut I) -> Result<I::Slice, E> {
        match input.offset_at(self.count) {
            Ok(offset) => Ok(input.next_slice(offset)),
            Err(needed) => Err(short(input, needed)),
        }
    }
}
