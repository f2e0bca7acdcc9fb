//! Fields of bits, from partial input and from longer input.
#![tactic(auto)]

ghost use Rattle.std.specs.Prelude.{◌≡◌, true};
ghost use Rattle.example_callers.specs.Longer.{HasSameFields};
ghost use Rattle.winnow.specs.Form.{answer_by, modal};

use winnow::Parser;
use winnow::binary::bits::impls::{Bits, BitsParser, Take};
use winnow::binary::bits::{bits, take};
use winnow::error::{ErrorConvert, ParserError};
use winnow::laws::longer_inputs_get_partial_results_of_bits;
use winnow::stream::{ByteStream, StreamIsPartial};

/// Calls `first` on partial input, and `second`, which is in the same state, on `longer`.
///
/// If the first result is final and `longer` is the partial input followed by more bytes, partial
/// or complete, whose bits can be counted, both results are equal, and the second rest is the first
/// followed by these bytes; or the second call is out of memory.
pub fn bits_of_both<
    I: ByteStream + Copy,
    P: Parser<Bits<I>, O, E>,
    O: Drop,
    E: ParserError<Bits<I>> + ErrorConvert<F>,
    F: ParserError<I>,
>(
    first: &mut BitsParser<P, I, O, E, F>,
    second: &mut BitsParser<P, I, O, E, F>,
    piece: &mut I,
    longer: &mut I,
) -> (Result<O, F>, Result<O, F>)
    requires callable { ⟦<BitsParser<P, I, O, E, F> as Parser<I, O, F>>⟧.can_parse first.old
        × ⟦<BitsParser<P, I, O, E, F> as Parser<I, O, F>>⟧.can_parse second.old }
    requires one_state { ⟦<BitsParser<P, I, O, E, F> as Parser<I, O, F>>⟧.state second.old
        ≡ ⟦<BitsParser<P, I, O, E, F> as Parser<I, O, F>>⟧.state first.old }
    requires premise { P.terms.premise }
    requires stable { P.terms.stable }
    requires modal { F.form ≡ modal }
    requires is_partial { (I.view piece.old).status.cut ≡ true }
    requires readable { (I.view piece.old).left.possible ≡ true }
    ensures same { HasSameFields P.terms.alike (I.view piece.old) (answer_by F.kind result.0)
        (I.view piece.new) (I.view longer.old) (answer_by F.kind result.1) (I.view longer.new) }
{
    longer_inputs_get_partial_results_of_bits::<I, P, O, E, F>();
    let on_piece = first.parse_next(piece);
    let on_longer = second.parse_next(longer);
    (on_piece, on_longer)
}

/// Parses a byte of two fields of four bits, from partial input and from `longer`, by
/// [`bits_of_both`].
///
/// ```
/// use example_callers::fields::header_of_both;
/// use winnow::error::{EmptyError, ErrMode};
/// use winnow::stream::Partial;
///
/// type Error = ErrMode<EmptyError>;
///
/// let mut piece = Partial::new(b"\x12".as_slice());
/// let mut longer = Partial::new(b"\x12\x34".as_slice());
/// let both = header_of_both::<_, Error, Error>(&mut piece, &mut longer);
/// assert_eq!(rt; both, (Ok((1, 2)), Ok((1, 2))));
/// ```
pub fn header_of_both<
    I: ByteStream + StreamIsPartial + Copy,
    E: ParserError<Bits<I>> + ErrorConvert<F>,
    F: ParserError<I>,
>(piece: &mut I, longer: &mut I) -> (Result<(u8, u8), F>, Result<(u8, u8), F>)
    requires modal { F.form ≡ modal }
    requires is_partial { (I.view piece.old).status.cut ≡ true }
    requires readable { (I.view piece.old).left.possible ≡ true }
    ensures same { HasSameFields (λ fields others. (fields.0 ≡ others.0) × (fields.1 ≡ others.1))
        (I.view piece.old) (answer_by F.kind result.0) (I.view piece.new) (I.view longer.old)
        (answer_by F.kind result.1) (I.view longer.new) }
{
    let version: Take<I, u8, E> = take(4u8);
    let length: Take<I, u8, E> = take(4u8);
    let mut first = bits((version, length));
    let version: Take<I, u8, E> = take(4u8);
    let length: Take<I, u8, E> = take(4u8);
    let mut second = bits((version, length));
    bits_of_both(&mut first, &mut second, piece, longer)
}
