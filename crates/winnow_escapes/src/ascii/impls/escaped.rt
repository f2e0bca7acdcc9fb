//! Text with escapes, and its unescaped value.
ghost use Rattle.std.specs.Prelude.{◌≡◌};
ghost use Rattle.parser_definitions.specs.Escaped.{AlikeSides, EscapedDoes, Settled, either_kept};
ghost use Rattle.parser_definitions.specs.Escaped.{escaped_law};
ghost use Rattle.parser_definitions.specs.Folding.{Built, gathering};
ghost use Rattle.winnow_escapes.specs.Escaped.{escaped_control, escaped_escape};
ghost use Rattle.winnow_escapes.specs.Escaped.{escaped_normal};
ghost use Rattle.parser_definitions.specs.Terms.{no_claim, nothing_claimed};

use crate::ascii::turns::read_turns;
use std::marker::PhantomData;
use stream_errors::control::ControlError;
use stream_errors::parser_error::ParserError;
use stream_sets::accumulate::Accumulate;
use streams::stream::StreamIsPartial;
use winnow_core::parser::Parser;

/// The parser that [`escaped`](crate::ascii::escaped) makes.
///
/// ```
/// let mut parser = escaped(alloc, Alpha1, '\\', Any.void());
/// let answer: Result<(&str, ()), EmptyError> = parser.parse_peek("a\\n;");
/// assert_eq!(rt; answer, Ok((";", ())));
/// ```
#[derive(Drop)]
pub struct Escaped<N, K, X, I, O, D, P, C, E, A> {
    pub(crate) alloc: A,
    pub(crate) normal: N,
    pub(crate) control: K,
    pub(crate) escape: X,
    pub(crate) marker: PhantomData<(I, O, D, P, C, E)>,
}

impl<N, K, X, I, O, D, P, C, E, A> Escaped<N, K, X, I, O, D, P, C, E, A> {
    #[inline(always)]
    pub(crate) fn new(
        alloc: A,
        normal: N,
        control: K,
        escape: X,
    ) -> Escaped<N, K, X, I, O, D, P, C, E, A>
        ensures normal { escaped_normal result ≡ normal }
        ensures control { escaped_control result ≡ control }
        ensures escape { escaped_escape result ≡ escape }
    {
        Escaped {
            alloc,
            normal,
            control,
            escape,
            marker: PhantomData,
        }
    }
}

impl<
    N: Parser<I, O, E>,
    K: Parser<I, D, ControlError>,
    X: Parser<I, P, E>,
    I: StreamIsPartial,
    O: Drop,
    D: Drop,
    P: Drop,
    C: Accumulate<O, A> + Accumulate<P, A>,
    E: ParserError<I>,
    A: Copy,
> Parser<I, C, E> for Escaped<N, K, X, I, O, D, P, C, E, A> {
    ghost can_parse = { λ s. N.can_parse s.normal × K.can_parse s.control × X.can_parse s.escape };

    ghost State = { N.State × K.State × X.State };

    ghost state = { λ s. (N.state s.normal, K.state s.control, X.state s.escape) };

    ghost does = { EscapedDoes ⟦<C as Accumulate<O, A>>⟧.accumulator
        ⟦<C as Accumulate<P, A>>⟧.accumulator N.does K.does X.does };

    ghost terms = { record {
      premise = N.terms.premise × K.terms.premise × X.terms.premise;
      stable = N.terms.stable × (Settled K.does × X.terms.stable);
      alike = Built (gathering {Q = N.State × K.State × X.State}
          (either_kept ⟦<C as Accumulate<O, A>>⟧.accumulator
          ⟦<C as Accumulate<P, A>>⟧.accumulator)) (AlikeSides N.terms.alike X.terms.alike);
      claim = λ _. no_claim;
    } };

    ghost lawful = { record {
      law = λ is. escaped_law ⟦<C as Accumulate<O, A>>⟧.accumulator
          ⟦<C as Accumulate<P, A>>⟧.accumulator (N.lawful.law is.0) (K.lawful.law is.1)
          (X.lawful.law is.2);
      claimed = λ _. nothing_claimed;
    } };

    fn parse_next(&mut self, input: &mut I) -> Result<C, E> {
        match <C as Accumulate<O, A>>::initial(self.alloc, Some(64)) {
            Ok(empty) => read_turns::<N, K, X, I, O, D, P, C, E, A>(
                empty,
                &mut self.normal,
                &mut self.control,
                &mut self.escape,
                input,
            ),
            Err(_) => Err(E::no_memory(input)),
        }
    }
}
