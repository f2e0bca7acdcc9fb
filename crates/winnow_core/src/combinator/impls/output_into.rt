//! Outputs that are converted.
ghost use Rattle.std.specs.Prelude.{◌≡◌};
ghost use Rattle.grammars.specs.Grammar.{Made};
ghost use Rattle.grammars.specs.Grammar.Unique.{made_of_takes};
ghost use Rattle.parser_definitions.specs.Outputs.{OutputIntoDoes, OutputsMadeAlike};
ghost use Rattle.parser_definitions.specs.Outputs.{output_into_law};
ghost use Rattle.parser_definitions.specs.Projects.Outputs.{output_into_projects};

use crate::parser::Parser;
use std::marker::PhantomData;
use stream_errors::parser_error::ParserError;
use streams::stream::Stream;

/// The parser that [`Parser::output_into`](crate::parser::Parser::output_into) makes.
///
/// ```
/// let mut parser = Any.output_into::<u64>();
/// assert_eq!(rt; parser.parse_peek(b"\x02".as_slice()), Ok::<_, EmptyError>((b"".as_slice(), 2)));
/// ```
#[derive(Drop)]
pub struct OutputInto<F, I, O, O2, E> {
    pub(crate) parser: F,
    pub(crate) marker: PhantomData<(I, O, O2, E)>,
}

impl<F, I, O, O2, E> OutputInto<F, I, O, O2, E> {
    #[inline(always)]
    pub(crate) fn new(parser: F) -> OutputInto<F, I, O, O2, E>
        ensures { result.parser ≡ parser }
    {
        OutputInto {
            parser,
            marker: PhantomData,
        }
    }
}

impl<F: Parser<I, O, E>, I: Stream, O: Into<O2>, O2, E: ParserError<I>> Parser<I, O2, E>
    for OutputInto<F, I, O, O2, E> {
    ghost can_parse = { λ s. F.can_parse s.parser };

    ghost State = { F.State };

    ghost state = { λ s. F.state s.parser };

    ghost does = { OutputIntoDoes O.converts F.does };

    ghost terms = { record {
      premise = F.terms.premise;
      stable = F.terms.stable;
      alike = OutputsMadeAlike F.terms.alike O.converts;
      claim = λ s. record {
        premise = (F.terms.claim s).premise;
        backtracks = (F.terms.claim s).backtracks;
        spares_memory = (F.terms.claim s).spares_memory;
        consumes = (F.terms.claim s).consumes;
        grammar = Made (λ (_ : Unit {0}) o u. O.converts o u) tt (F.terms.claim s).grammar;
      };
    } };

    ghost lawful = { record {
      law = λ is. output_into_law O.converts (F.lawful.law is);
      claimed = λ s. record {
        projects = λ at is. output_into_projects ((F.lawful.claimed s).projects at is)
            O.converts;
        takes = λ is some. made_of_takes (λ (_ : Unit {0}) o u. O.converts o u) tt
            ((F.lawful.claimed s).takes is some);
      };
    } };

    #[inline]
    fn parse_next(&mut self, input: &mut I) -> Result<O2, E> {
        let output = self.parser.parse_next(input)?;
        Ok(output.into())
    }
}
