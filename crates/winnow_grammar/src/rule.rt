//! Rules: functions as parsers, specified by a grammar.
ghost use Rattle.std.specs.Fn.{CalledAtMut};
ghost use Rattle.std.specs.Prelude.{◌≡◌, ⊤};
ghost use Rattle.grammars.specs.Grammar.{Grammar, IsUnique, TakesTokens};
ghost use Rattle.winnow_grammar.specs.Rule.{by_rule, by_run};
ghost use Rattle.winnow_grammar.specs.Rule.{CallsRead, CallsSpared, by_projects};
ghost use Rattle.winnow_grammar.specs.RulePieces.{pieces_rule, pieces_run};
ghost use Rattle.winnow_grammar.specs.RuleWith.{with_argument, with_rule, with_run};
ghost use Rattle.parser_definitions.specs.Func.{ByDoes, beside};
ghost use Rattle.winnow_core.specs.Functions.{func_lawful, func_terms};

use crate::by_pieces::ByPieces;
use crate::by_with::ByWith;
use stream_errors::parser_error::ParserError;
use streams::stream::Stream;
use winnow_core::parser::Parser;

/// The name of a grammar: a value that has one.
pub trait Rule<I: Stream, O>: Sized {
    // The grammar of the rule.
    ghost grammar: { Self → Grammar I.Seen O };

    // When what is read takes tokens.
    ghost consumes: { Self → Type 0 };

    /// Does nothing.
    #[doc(hidden)]
    #[inline(always)]
    fn name() {}

    // The rest after a match is a suffix of the tokens, and the tokens determine it.
    ghost unique: { (r : Self) → IsUnique (grammar r) };

    // Every match consumes tokens.
    ghost takes: { (r : Self) → consumes r → TakesTokens (grammar r) };

    /// Returns a parser that calls a function whose contract has this grammar.
    #[inline(always)]
    final fn by<F>(self, run: F) -> By<Self, F>
        ensures rule { by_rule result ≡ self }
        ensures run { by_run result ≡ run }
    {
        By { rule: self, run }
    }

    /// Like [`by`](Rule::by), for a function with an argument, such as an allocator. Each call gets
    /// a copy of the argument. It needs no closure, so the output may borrow from the input.
    #[inline(always)]
    final fn by_with<A, F>(self, argument: A, run: F) -> ByWith<Self, A, F>
        ensures rule { with_rule result ≡ self }
        ensures argument { with_argument result ≡ argument }
        ensures run { with_run result ≡ run }
    {
        ByWith::new(self, argument, run)
    }

    /// Like [`by`](Rule::by), for a function whose contract also covers partial input, by a rule
    /// that has a definition ([`RuleInPieces`](crate::by_pieces::RuleInPieces)). The parser is
    /// stable, so [`parse_cut`](winnow_core::parser::Parser::parse_cut) accepts it, and its
    /// combinations.
    #[inline(always)]
    final fn by_pieces<F>(self, run: F) -> ByPieces<Self, F>
        ensures rule { pieces_rule result ≡ self }
        ensures run { pieces_run result ≡ run }
    {
        ByPieces::new(self, run)
    }
}

/// The parser that [`Rule::by`] makes.
#[derive(Clone, Copy, Drop)]
pub struct By<N, F> {
    rule: N,
    run: F,
}

impl<N: Rule<I, O>, F: FnMut(&mut I) -> Result<O, E>, I: Stream, O, E: ParserError<I>> Parser<
    I,
    O,
    E,
> for By<N, F> {
    ghost can_parse = { λ s. F.IsAlwaysCallable s.run
        × CallsRead I.reading I.view E.kind (CalledAtMut F.FnMut) (N.grammar s.rule) s.run };

    ghost State = { N × F };

    ghost state = { λ s. (s.rule, s.run) };

    ghost does = { ByDoes I.view E.kind (CalledAtMut F.FnMut) };

    ghost terms = { func_terms I.view E.kind (beside (λ (n : N). CalledAtMut F.FnMut))
        (λ s. record {
          premise = CallsRead I.reading I.view E.kind (CalledAtMut F.FnMut) (N.grammar s.0) s.1;
          backtracks = ⊤;
          spares_memory = CallsSpared I.view E.kind (CalledAtMut F.FnMut) s.1;
          consumes = N.consumes s.0;
          grammar = N.grammar s.0;
        }) };

    ghost lawful = { record {
      law = λ is. func_lawful I.view E.kind is;
      claimed = λ s. record {
        projects = λ at is. by_projects s is (N.unique s.0);
        takes = λ is some. N.takes s.0 some;
      };
    } };

    #[inline(always)]
    fn parse_next(&mut self, input: &mut I) -> Result<O, E> {
        (self.run)(input)
    }
}
