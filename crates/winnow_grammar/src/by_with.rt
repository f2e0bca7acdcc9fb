//! Rules by functions with an argument.
ghost use Rattle.std.specs.Prelude.{◌≡◌, ⊤};
ghost use Rattle.parser_definitions.specs.Func.{ByDoes, beside};
ghost use Rattle.winnow_core.specs.Functions.{func_lawful, func_terms};
ghost use Rattle.winnow_grammar.specs.FuncCalls.{CalledAtPair};
ghost use Rattle.winnow_grammar.specs.Rule.{CallsRead, CallsSpared, by_projects};

use crate::rule::Rule;
use stream_errors::parser_error::ParserError;
use streams::stream::Stream;
use winnow_core::parser::Parser;

/// The parser that [`Rule::by_with`] makes.
#[derive(Clone, Copy, Drop)]
pub struct ByWith<N, A, F> {
    rule: N,
    argument: A,
    run: F,
}

impl<N, A, F> ByWith<N, A, F> {
    #[inline(always)]
    pub(crate) fn new(rule: N, argument: A, run: F) -> Self
        ensures rule { result.rule ≡ rule }
        ensures argument { result.argument ≡ argument }
        ensures run { result.run ≡ run }
    {
        ByWith {
            rule,
            argument,
            run,
        }
    }
}

impl<
    N: Rule<I, O>,
    A: Copy,
    F: FnMut(A, &mut I) -> Result<O, E>,
    I: Stream,
    O,
    E: ParserError<I>,
> Parser<I, O, E> for ByWith<N, A, F> {
    ghost can_parse = { λ s. F.IsAlwaysCallable s.run × CallsRead I.reading I.view E.kind
        (CalledAtPair F.FnMut) (N.grammar s.rule) (s.argument, s.run) };

    ghost State = { N × (A × F) };

    ghost state = { λ s. (s.rule, (s.argument, s.run)) };

    ghost does = { ByDoes I.view E.kind (CalledAtPair F.FnMut) };

    ghost terms = { func_terms I.view E.kind (beside (λ (n : N). CalledAtPair F.FnMut))
        (λ s. record {
          premise = CallsRead I.reading I.view E.kind (CalledAtPair F.FnMut) (N.grammar s.0) s.1;
          backtracks = ⊤;
          spares_memory = CallsSpared I.view E.kind (CalledAtPair F.FnMut) s.1;
          consumes = N.consumes s.0;
          grammar = N.grammar s.0;
        }) };

    ghost lawful = { record {
      law = λ is. func_lawful I.view E.kind is;
      claimed = λ s. record {
        projects = λ at is. by_projects s is (N.unique s.0);
        takes = λ is some. N.takes s.0 some;
      };
    } };

    #[inline(always)]
    fn parse_next(&mut self, input: &mut I) -> Result<O, E> {
        (self.run)(self.argument, input)
    }
}
