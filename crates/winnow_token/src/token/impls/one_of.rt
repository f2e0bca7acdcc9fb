//! One token of a set.
ghost use Rattle.std.specs.Prelude.{⊤};
ghost use Rattle.streams.specs.Stream.{AnswersSeen};
ghost use Rattle.stream_sets.specs.Once.{SetIsFunction};
ghost use Rattle.grammars.specs.Grammar.{Token, TokenOf};
ghost use Rattle.winnow_token.specs.OneOf.Laws.{token_of_takes};
ghost use Rattle.parser_definitions.specs.OneOf.{OneOfDoes, one_of_law};
ghost use Rattle.parser_definitions.specs.Projects.Tokens.{one_of_projects};
ghost use Rattle.parser_definitions.specs.Shown.{SeenSame};

use std::marker::PhantomData;
use stream_errors::parser_error::ParserError;
use stream_sets::sets::ContainsToken;
use streams::needed::Needed;
use streams::stream::StreamIsPartial;
use winnow_core::parser::Parser;
use winnow_core::short::short;

/// The parser that [`one_of`](crate::token::one_of) makes.
///
/// ```
/// let mut parser: OneOf<_, _, _> = one_of('a');
/// assert_eq!(rt; parser.parse_peek("ab"), Ok::<_, EmptyError>(("b", 'a')));
/// ```
#[derive(Drop)]
pub struct OneOf<S, I, E> {
    pub(crate) set: S,
    pub(crate) marker: PhantomData<(I, E)>,
}

impl<S: ContainsToken<I::Token>, I: StreamIsPartial, E: ParserError<I>> Parser<I, I::Token, E>
    for OneOf<S, I, E>
where
    I::Token: Copy,
{
    ghost can_parse = { λ s. S.can_test s.set };

    ghost State = { S };

    ghost state = { λ s. s.set };

    ghost does = { OneOfDoes I.seen_as I.reading S.tells };

    ghost terms = { record {
      premise = (x : S)
          → SetIsFunction (AnswersSeen I.seen_as (S.tells x));
      stable = ⊤;
      alike = SeenSame I.seen_as;
      claim = λ s. record {
        premise = SetIsFunction (AnswersSeen I.seen_as (S.tells s));
        backtracks = ⊤;
        spares_memory = ⊤;
        consumes = ⊤;
        grammar = TokenOf I.seen_as S.tells s;
      };
    } };

    ghost lawful = { record {
      law = λ is. one_of_law I.seen_as I.reading S.tells is;
      claimed = λ s. record {
        projects = λ at is. one_of_projects I.seen_as I.reading S.tells is;
        takes = λ is some. token_of_takes I.seen_as S.tells s;
      };
    } };

    #[inline(always)]
    fn parse_next(&mut self, input: &mut I) -> Result<I::Token, E> {
        let start = input.checkpoint();
        match input.next_token() {
            Some(token) => {
                if self.set.contains_token(token) {
                    Ok(token)
                } else {
                    input.reset(&start);
                    Err(E::from_input(input))
                }
            }
            None => Err(short(input, Needed::new(1))),
        }
    }
}
