//! A token, with which a closure is called, and its span.
ghost use Rattle.winnow.specs.Does.{Ran};
ghost use Rattle.std.specs.Prelude.{◌≡◌, true};
ghost use Rattle.winnow.specs.EqualDefinition.{AlikePairs, MadeAlike, StepsAlike};
ghost use Rattle.winnow.specs.Form.{answer_by, modal};
ghost use Rattle.winnow.specs.Longer.{SameOnLonger};
ghost use Rattle.winnow.specs.Shown.{SeenSame};

use std::ops::Range;
use winnow::Parser;
use winnow::combinator::impls::{Map, WithSpan};
use winnow::error::ParserError;
use winnow::stream::{Location, StreamIsPartial};
use winnow::token::impls::Any;

/// A token, with which a closure is called, and its span.
pub type Spanned<G, I, T, O, E> = WithSpan<Map<Any, G, I, T, O, E>, I, O, E>;

/// An output and its span.
pub type Placed<O> = (O, Range<usize>);

/// Parses a token, calls the closure with it, and returns its output with the token's span.
///
/// If the result is final, the same parser has an equal result on every longer input, partial or
/// complete, from the same state of the closure: an equal output, and this span. Then the closure
/// has the same new state, and the rest is followed by the added tokens.
pub fn read_spanned<G: FnMut(I::Token) -> O, I: Location + StreamIsPartial, O, E: ParserError<I>>(
    parser: &mut Spanned<G, I, I::Token, O, E>,
    input: &mut I,
) -> Result<Placed<O>, E>
    requires callable { ⟦<Spanned<G, I, I::Token, O, E> as Parser<I, Placed<O>, E>>⟧.can_parse
        parser.old }
    requires once { StepsAlike (SeenSame I.seen_as) G.step }
    requires modal { E.form ≡ modal }
    requires is_partial { (I.view input.old).status.cut ≡ true }
    requires readable { (I.view input.old).left.possible ≡ true }
    ensures same { SameOnLonger
        (Ran I.reading ⟦<Spanned<G, I, I::Token, O, E> as Parser<I, Placed<O>, E>>⟧.does E.form)
        (AlikePairs (MadeAlike (SeenSame I.seen_as) G.step) (λ u v. u ≡ v))
        (⟦<Spanned<G, I, I::Token, O, E> as Parser<I, Placed<O>, E>>⟧.state parser.old)
        (I.view input.old) (answer_by E.kind result)
        (⟦<Spanned<G, I, I::Token, O, E> as Parser<I, Placed<O>, E>>⟧.state parser.new)
        (I.view input.new) }
{
    parser.parse_cut(input)
}
