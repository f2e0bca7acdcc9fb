//! The implementation of `default_value`.
ghost use Rattle.std.specs.Prelude.{◌≡◌};
ghost use Rattle.grammars.specs.Grammar.{Made};
ghost use Rattle.grammars.specs.Grammar.Unique.{made_of_takes};
ghost use Rattle.parser_definitions.specs.Outputs.{DefaultValueDoes, default_value_law};
ghost use Rattle.parser_definitions.specs.Projects.Outputs.{default_value_projects};

use crate::parser::Parser;
use std::marker::PhantomData;
use stream_errors::parser_error::ParserError;
use streams::stream::Stream;

/// The parser that [`Parser::default_value`](crate::parser::Parser::default_value) makes.
///
/// ```
/// let mut parser = b'a'.default_value::<u8>();
/// assert_eq!(rt; parser.parse_peek(b"ab".as_slice()), Ok::<_, EmptyError>((b"b".as_slice(), 0)));
/// ```
#[derive(Drop)]
pub struct DefaultValue<F, I, O, O2, E> {
    pub(crate) parser: F,
    pub(crate) marker: PhantomData<(I, O, O2, E)>,
}

impl<F, I, O, O2, E> DefaultValue<F, I, O, O2, E> {
    #[inline(always)]
    pub(crate) fn new(parser: F) -> DefaultValue<F, I, O, O2, E>
        ensures { result.parser ≡ parser }
    {
        DefaultValue {
            parser,
            marker: PhantomData,
        }
    }
}

impl<F: Parser<I, O, E>, I: Stream, O: Drop, O2: Default, E: ParserError<I>> Parser<I, O2, E>
    for DefaultValue<F, I, O, O2, E> {
    ghost can_parse = { λ s. F.can_parse s.parser };

    ghost State = { F.State };

    ghost state = { λ s. F.state s.parser };

    ghost does = { DefaultValueDoes O2.is_default F.does };

    ghost terms = { record {
      premise = F.terms.premise;
      stable = F.terms.stable;
      alike = λ u v. O2.is_default u × O2.is_default v;
      claim = λ s. record {
        premise = (F.terms.claim s).premise;
        backtracks = (F.terms.claim s).backtracks;
        spares_memory = (F.terms.claim s).spares_memory;
        consumes = (F.terms.claim s).consumes;
        grammar = Made (λ (_ : Unit {0}) o u. O2.is_default u) tt (F.terms.claim s).grammar;
      };
    } };

    ghost lawful = { record {
      law = λ is. default_value_law O2.is_default (λ u v x y. (x, y)) (F.lawful.law is);
      claimed = λ s. record {
        projects = λ at is. default_value_projects ((F.lawful.claimed s).projects at is)
            O2.is_default;
        takes = λ is some. made_of_takes (λ (_ : Unit {0}) o u. O2.is_default u) tt
            ((F.lawful.claimed s).takes is some);
      };
    } };

    #[inline]
    fn parse_next(&mut self, input: &mut I) -> Result<O2, E> {
        let _output = self.parser.parse_next(input)?;
        Ok(O2::default())
    }
}
