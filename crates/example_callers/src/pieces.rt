//! Parsers of partial input. Each returns `Incomplete`, is out of memory, or has a result that
//! every longer input has too, from the same state: an equal output (`alike` of the parser), or an
//! error of the same kind.
ghost use Rattle.winnow.specs.Does.{Ran};
ghost use Rattle.std.specs.Prelude.{◌≡◌, true, ℕ, ⊤};
ghost use Rattle.winnow.specs.Form.{answer_by, modal};
ghost use Rattle.winnow.specs.Longer.{EachSameOnLonger, SameOnLonger};

use std::alloc::Allocator;
use winnow::ascii::impls::{DecUint, Digit1, LineEnding};
use winnow::combinator::impls::Separated;
use winnow::laws::longer_inputs_get_partial_results;
use winnow::prelude::*;
use winnow::stream::{AsBStr, AsChar, Compare, SlicesAsBytes};
use winnow::token::impls::Any;

/// A number, a colon, digits and a line ending.
type Field = (DecUint, u8, Digit1, LineEnding);

/// Parses a number, a colon, digits and a line ending.
pub fn field<
    I: StreamIsPartial + Compare<u8> + Compare<&'static str> + SlicesAsBytes,
    E: ParserError<I>,
>(input: &mut I) -> Result<(u8, u8, I::Slice, I::Slice), E>
where
    I::Token: AsChar,
    I::Slice: AsBStr,
    requires premise { ⟦<Field as Parser<I, (u8, u8, I::Slice, I::Slice), E>>⟧.terms.premise }
    requires modal { E.form ≡ modal }
    requires is_cut { (I.view input.old).status.cut ≡ true }
    requires readable { (I.view input.old).left.possible ≡ true }
    ensures same { (t : ⊤ × ℕ × ⊤ × ⊤) × SameOnLonger
        (Ran I.reading ⟦<Field as Parser<I, (u8, u8, I::Slice, I::Slice), E>>⟧.does E.form)
        ⟦<Field as Parser<I, (u8, u8, I::Slice, I::Slice), E>>⟧.terms.alike (tt, 58, tt, tt)
        (I.view input.old) (answer_by E.kind result) t (I.view input.new) }
{
    (DecUint, b':', Digit1, LineEnding).parse_cut(input)
}

/// Numbers with commas between them, into a list.
type Numbers<I, E, A> = Separated<DecUint, u8, I, u8, u8, Vec<u8, A>, E, A>;

/// Numbers with commas between them, into a list.
pub fn numbers_stay<
    I: StreamIsPartial + Compare<u8> + SlicesAsBytes,
    E: ParserError<I>,
    A: Allocator + Copy,
>()
where
    I::Token: AsChar,
    I::Slice: AsBStr,
    ensures { E.form ≡ modal
        → ⟦<Numbers<I, E, A> as Parser<I, Vec<u8, A>, E>>⟧.terms.premise
        → ⟦<Numbers<I, E, A> as Parser<I, Vec<u8, A>, E>>⟧.terms.stable
        → EachSameOnLonger
        (Ran I.reading ⟦<Numbers<I, E, A> as Parser<I, Vec<u8, A>, E>>⟧.does E.form)
        ⟦<Numbers<I, E, A> as Parser<I, Vec<u8, A>, E>>⟧.terms.alike }
{
    longer_inputs_get_partial_results::<Numbers<I, E, A>, I, Vec<u8, A>, E>();
}

/// A parser between brackets, and a line ending.
type Bracketed<P> = (u8, P, u8, LineEnding);

/// Parses with any stable parser between brackets, and a line ending.
pub fn bracketed<
    P: Parser<I, O, E> + Drop,
    I: StreamIsPartial + Compare<u8> + Compare<&'static str>,
    O: Drop,
    E: ParserError<I>,
>(inner: P, input: &mut I) -> Result<(u8, O, u8, I::Slice), E>
    requires callable { P.can_parse inner }
    requires premise { ⟦<Bracketed<P> as Parser<I, (u8, O, u8, I::Slice), E>>⟧.terms.premise }
    requires stable { P.terms.stable }
    requires modal { E.form ≡ modal }
    requires is_cut { (I.view input.old).status.cut ≡ true }
    requires readable { (I.view input.old).left.possible ≡ true }
    ensures same { (t : ℕ × P.State × ℕ × ⊤) × SameOnLonger
        (Ran I.reading ⟦<Bracketed<P> as Parser<I, (u8, O, u8, I::Slice), E>>⟧.does E.form)
        ⟦<Bracketed<P> as Parser<I, (u8, O, u8, I::Slice), E>>⟧.terms.alike
        (91, P.state inner, 93, tt) (I.view input.old) (answer_by E.kind result) t
        (I.view input.new) }
{
    (b'[', inner, b']', LineEnding).parse_cut(input)
}

/// Parses one token, and passes its error through a closure. The proof shows that the closure keeps
/// the error's kind and has one next state, so the call is one of [`Any`].
pub fn token_kept<I: StreamIsPartial, E: ParserError<I>>(input: &mut I) -> Result<I::Token, E>
    requires modal { E.form ≡ modal }
    requires is_cut { (I.view input.old).status.cut ≡ true }
    requires readable { (I.view input.old).left.possible ≡ true }
    ensures same { SameOnLonger (Ran I.reading ⟦<Any as Parser<I, I::Token, E>>⟧.does E.form)
        ⟦<Any as Parser<I, I::Token, E>>⟧.terms.alike tt (I.view input.old)
        (answer_by E.kind result) tt (I.view input.new) }
{
    longer_inputs_get_partial_results::<Any, I, I::Token, E>();
    Any.map_err_kept(|error: E| error).parse_cut(input)
}
