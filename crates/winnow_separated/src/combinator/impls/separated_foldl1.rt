//! Elements with separators between them, folded to the left.
ghost use Rattle.parser_definitions.specs.Does.{Ran};
ghost use Rattle.std.specs.Prelude.{◌≡◌};
ghost use Rattle.stream_errors.specs.Form.{answer_by};
ghost use Rattle.winnow_separated.specs.SeparatedFoldl1.{foldl1_parser};
ghost use Rattle.winnow_separated.specs.SeparatedFoldl1.{foldl1_separator};
ghost use Rattle.parser_definitions.specs.Terms.{no_claim, nothing_claimed};
ghost use Rattle.parser_definitions.specs.SeparatedFold.{AlikeLeft, JoinsAlike, JoinsLinks};
ghost use Rattle.parser_definitions.specs.SeparatedFold.{SeparatedFoldl1Does};
ghost use Rattle.parser_definitions.specs.SeparatedFold.{separated_foldl1_law};

use crate::combinator::impls::link::Link;
use std::marker::PhantomData;
use stream_errors::parser_error::ParserError;
use streams::stream::Stream;
use winnow_core::parser::Parser;

/// The parser that [`separated_foldl1`](crate::combinator::separated_foldl1) makes.
///
/// ```
/// let number = Digit1.parse_to::<u32>();
/// let mut parser = separated_foldl1(number, '-', |left: u32, _: char, right: u32| left - right);
/// assert_eq!(rt; parser.parse_peek("9-5;"), Ok::<_, EmptyError>((";", 4)));
/// ```
#[derive(Drop)]
pub struct SeparatedFoldl1<P, S, H, I, O, D, E> {
    pub(crate) link: Link<P, S>,
    pub(crate) op: H,
    pub(crate) marker: PhantomData<(I, O, D, E)>,
}

impl<P, S, H, I, O, D, E> SeparatedFoldl1<P, S, H, I, O, D, E> {
    #[inline(always)]
    pub(crate) fn new(parser: P, separator: S, op: H) -> SeparatedFoldl1<P, S, H, I, O, D, E>
        ensures parser { foldl1_parser result ≡ parser }
        ensures separator { foldl1_separator result ≡ separator }
        ensures op { result.op ≡ op }
    {
        SeparatedFoldl1 {
            link: Link { parser, separator },
            op,
            marker: PhantomData,
        }
    }
}

impl<
    P: Parser<I, O, E>,
    S: Parser<I, D, E>,
    H: FnMut(O, D, O) -> O,
    I: Stream,
    O: Drop,
    D: Drop,
    E: ParserError<I>,
> Parser<I, O, E> for SeparatedFoldl1<P, S, H, I, O, D, E> {
    ghost can_parse = { λ s. P.can_parse s.link.parser × S.can_parse s.link.separator
        × H.IsAlwaysCallable s.op };

    ghost State = { P.State × S.State × H };

    ghost state = { λ s. (P.state s.link.parser, S.state s.link.separator, s.op) };

    ghost does = { SeparatedFoldl1Does H.step P.does S.does };

    ghost terms = { record {
      premise = P.terms.premise × S.terms.premise
          × JoinsAlike S.terms.alike (AlikeLeft H.step P.terms.alike S.terms.alike)
          P.terms.alike H.step;
      stable = P.terms.stable × S.terms.stable;
      alike = AlikeLeft H.step P.terms.alike S.terms.alike;
      claim = λ _. no_claim;
    } };

    ghost lawful = { record {
      law = λ is. separated_foldl1_law H.step is.2 (P.lawful.law is.0) (S.lawful.law is.1);
      claimed = λ _. nothing_claimed;
    } };

    fn parse_next(&mut self, input: &mut I) -> Result<O, E> {
        let first = self.link.parser.parse_next(input)?;
        join_left(first, &mut self.link, &mut self.op, input)
    }
}

/// Joins links to a first element, each as it is parsed, until one backtracks.
fn join_left<
    P: Parser<I, O, E>,
    S: Parser<I, D, E>,
    H: FnMut(O, D, O) -> O,
    I: Stream,
    O: Drop,
    D: Drop,
    E: ParserError<I>,
>(first: O, link: &mut Link<P, S>, op: &mut H, input: &mut I) -> Result<O, E>
    requires parser { P.can_parse link.old.parser }
    requires separator { S.can_parse link.old.separator }
    requires op { H.IsAlwaysCallable op.old }
    ensures again { P.can_parse link.new.parser × S.can_parse link.new.separator
        × H.IsAlwaysCallable op.new }
    ensures ran { Ran I.reading (JoinsLinks H.step P.does S.does first) E.form
        (P.state link.old.parser, S.state link.old.separator, op.old) (I.view input.old)
        (answer_by E.kind result)
        (P.state link.new.parser, S.state link.new.separator, op.new) (I.view input.new) }
{
    let mut value = first;
    'links: loop {
        let start = input.checkpoint();
        match link.run(input) {
            Ok(Some((separator, element))) => value = op(value, separator, element),
            Ok(None) => return Err(E::assert(input, "each separator must consume")),
            Err(error) => {
                if error.is_backtrack() {
                    input.reset(&start);
                    return Ok(value);
                }
                return Err(error);
            }
        }
    }
}
