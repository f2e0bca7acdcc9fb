//! The implementation of `length_take`.
ghost use Rattle.std.specs.Prelude.{⊤, true};
ghost use Rattle.grammars.specs.Grammar.{Counted};
ghost use Rattle.grammars.specs.Grammar.Lengths.{SaysOne, Sized};
ghost use Rattle.stream_errors.specs.Form.{modal};
ghost use Rattle.parser_definitions.specs.Length.{LengthTakeDoes, OneLength, length_take_law};
ghost use Rattle.parser_definitions.specs.Projects.Length.{length_take_projects};
ghost use Rattle.parser_definitions.specs.Projects.Length.{length_take_takes};
ghost use Rattle.parser_definitions.specs.Spelled.{ShowSame};

use std::marker::PhantomData;
use stream_errors::parser_error::ParserError;
use stream_sets::numbers::ToUsize;
use streams::stream::StreamIsPartial;
use winnow_core::parser::Parser;
use winnow_token::token::take;

/// The parser that [`length_take`](crate::binary::length_take) makes.
///
/// ```
/// let mut parser: LengthTake<_, _, _, _> = length_take(U8);
/// let answer = parser.parse_peek(b"\x01ab".as_slice());
/// assert_eq!(rt; answer, Ok::<_, EmptyError>((b"b".as_slice(), b"a".as_slice())));
/// ```
#[derive(Drop)]
pub struct LengthTake<P, I, N, E> {
    pub(crate) count: P,
    pub(crate) marker: PhantomData<(I, N, E)>,
}

impl<P: Parser<I, N, E>, I: StreamIsPartial, N: ToUsize + Drop, E: ParserError<I>> Parser<
    I,
    I::Slice,
    E,
> for LengthTake<P, I, N, E> {
    ghost can_parse = { λ s. P.can_parse s.count };

    ghost State = { P.State };

    ghost state = { λ s. P.state s.count };

    ghost does = { LengthTakeDoes N.number I.reading I.counts_missing P.does };

    ghost terms = { record {
      premise = P.terms.premise × OneLength N.number P.terms.alike;
      stable = P.terms.stable × ⊤;
      alike = ShowSame I.reading;
      claim = λ s. record {
        premise = (P.terms.claim s).premise × SaysOne N.number (P.terms.claim s).grammar;
        backtracks = (P.terms.claim s).backtracks;
        spares_memory = (P.terms.claim s).spares_memory;
        consumes = (P.terms.claim s).consumes;
        grammar = Sized N.number (Counted I.reading) (P.terms.claim s).grammar;
      };
    } };

    ghost lawful = { record {
      law = λ is. length_take_law N.number I.reading I.counts_missing is.1
          (P.lawful.law is.0);
      claimed = λ s. record {
        projects = λ at is. length_take_projects N.number I.reading I.counts_missing
            ((P.lawful.claimed s).projects at is.0) is.1;
        takes = λ is some. length_take_takes N.number I.reading
            ((P.lawful.claimed s).projects (record { form = modal; possible = true }) is.0).unique
            ((P.lawful.claimed s).takes is.0 some);
      };
    } };

    #[inline]
    fn parse_next(&mut self, input: &mut I) -> Result<I::Slice, E> {
        let count = self.count.parse_next(input)?;
        take(count).parse_next(input)
    }
}
