//! Elements with separators between them, folded to the right.
ghost use Rattle.std.specs.Prelude.{◌≡◌};
ghost use Rattle.winnow_separated.specs.SeparatedFoldr1.{FoldsRight};
ghost use Rattle.winnow_separated.specs.SeparatedFoldr1.{foldr1_parser};
ghost use Rattle.winnow_separated.specs.SeparatedFoldr1.{foldr1_separator};
ghost use Rattle.parser_definitions.specs.Terms.{no_claim, nothing_claimed};
ghost use Rattle.parser_definitions.specs.SeparatedFold.{AlikeRight, JoinsAlike};
ghost use Rattle.parser_definitions.specs.SeparatedFold.{SeparatedFoldr1Does};
ghost use Rattle.parser_definitions.specs.SeparatedFold.{separated_foldr1_law};

use std::alloc::Allocator;
use std::marker::PhantomData;
use stream_errors::parser_error::ParserError;
use streams::stream::Stream;
use winnow_core::parser::Parser;
use winnow_repeat::combinator::items::repeat_many;

/// The parser that [`separated_foldr1`](crate::combinator::separated_foldr1) makes.
///
/// ```
/// let number = Digit1.parse_to::<u32>();
/// let take_off = |left: u32, _: char, right: u32| left - right;
/// let mut parser = separated_foldr1(alloc, number, '-', take_off);
/// assert_eq!(rt; parser.parse_peek("9-5;"), Ok::<_, EmptyError>((";", 4)));
/// ```
#[derive(Drop)]
pub struct SeparatedFoldr1<P, S, H, I, O, D, E, A> {
    pub(crate) alloc: A,
    pub(crate) pair: (S, P),
    pub(crate) op: H,
    pub(crate) marker: PhantomData<(I, O, D, E)>,
}

impl<P, S, H, I, O, D, E, A> SeparatedFoldr1<P, S, H, I, O, D, E, A> {
    #[inline(always)]
    pub(crate) fn new(
        alloc: A,
        parser: P,
        separator: S,
        op: H,
    ) -> SeparatedFoldr1<P, S, H, I, O, D, E, A>
        ensures parser { foldr1_parser result ≡ parser }
        ensures separator { foldr1_separator result ≡ separator }
        ensures op { result.op ≡ op }
    {
        SeparatedFoldr1 {
            alloc,
            pair: (separator, parser),
            op,
            marker: PhantomData,
        }
    }
}

impl<
    P: Parser<I, O, E>,
    S: Parser<I, D, E>,
    H: FnMut(O, D, O) -> O,
    I: Stream,
    O: Drop,
    D: Drop,
    E: ParserError<I>,
    A: Allocator + Copy,
> Parser<I, O, E> for SeparatedFoldr1<P, S, H, I, O, D, E, A> {
    ghost can_parse = { λ s. P.can_parse s.pair.1 × S.can_parse s.pair.0
        × H.IsAlwaysCallable s.op };

    ghost State = { P.State × S.State × H };

    ghost state = { λ s. (P.state s.pair.1, S.state s.pair.0, s.op) };

    ghost does = { SeparatedFoldr1Does A H.step P.does S.does };

    ghost terms = { record {
      premise = P.terms.premise × S.terms.premise
          × JoinsAlike S.terms.alike P.terms.alike
          (AlikeRight H.step P.terms.alike S.terms.alike) H.step;
      stable = P.terms.stable × S.terms.stable;
      alike = AlikeRight H.step P.terms.alike S.terms.alike;
      claim = λ _. no_claim;
    } };

    ghost lawful = { record {
      law = λ is. separated_foldr1_law A H.step is.2 (P.lawful.law is.0) (S.lawful.law is.1);
      claimed = λ _. nothing_claimed;
    } };

    fn parse_next(&mut self, input: &mut I) -> Result<O, E> {
        let first = self.pair.1.parse_next(input)?;
        let links: Vec<(D, O), A> = repeat_many(self.alloc, 0, None, &mut self.pair, input)?;
        Ok(join_right(first, links, &mut self.op))
    }
}

/// Joins a first element and links after it, from the last one on.
fn join_right<H: FnMut(O, D, O) -> O, O: Drop, D: Drop, A: Allocator>(
    first: O,
    links: Vec<(D, O), A>,
    op: &mut H,
) -> O
    requires { H.IsAlwaysCallable op.old }
    ensures again { H.IsAlwaysCallable op.new }
    ensures folded { FoldsRight H.step op.old first links.items result op.new }
{
    let mut links = links;
    let Some((mut separator, mut right)) = links.pop() else {
        return first;
    };
    'links: while let Some((before, left)) = links.pop() {
        right = op(left, separator, right);
        separator = before;
    }
    op(first, separator, right)
}
