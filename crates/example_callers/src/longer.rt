//! Two calls of one parser: on partial input, and on the same input followed by more tokens.
ghost use Rattle.std.specs.Prelude.{◌≡◌, true};
ghost use Rattle.example_callers.specs.Longer.{FoldsOnce, HasSameResult, MakesOnce};
ghost use Rattle.winnow.specs.Form.{answer_by, modal};

use std::alloc::Allocator;
use winnow::Parser;
use winnow::combinator::repeat;
use winnow::error::{EmptyError, ErrMode, HasKind, ParserError};
use winnow::stream::{Partial, Stream};
use winnow::token::impls::Any;

/// Bytes of which more may come.
type Bytes = Partial<&'static [u8]>;

/// Errors with a mode.
type Error = ErrMode<EmptyError>;

/// The results of the two calls.
type Both<O, E> = (Result<O, E>, Result<O, E>);

/// Calls `first` on partial input, and `second`, which is in the same state, on `longer`.
///
/// If the first result is final and `longer` is the partial input followed by more tokens, both
/// results are equal, and the second rest is the first followed by these tokens; or the second call
/// is out of memory.
pub fn call_both<P: Parser<I, O, E>, I: Stream, O, E: ParserError<I>>(
    first: &mut P,
    second: &mut P,
    piece: &mut I,
    longer: &mut I,
) -> (Result<O, E>, Result<O, E>)
    requires callable { P.can_parse first.old × P.can_parse second.old }
    requires one_state { P.state second.old ≡ P.state first.old }
    requires premise { P.terms.premise }
    requires stable { P.terms.stable }
    requires modal { E.form ≡ modal }
    requires is_partial { (I.view piece.old).status.cut ≡ true }
    requires readable { (I.view piece.old).left.possible ≡ true }
    ensures same { HasSameResult P.terms.alike (I.view piece.old) (answer_by E.kind result.0)
        (I.view piece.new) (I.view longer.old) (answer_by E.kind result.1) (I.view longer.new) }
{
    let on_piece = first.parse_cut(piece);
    let on_longer = second.parse_next(longer);
    (on_piece, on_longer)
}

/// Folds four bytes by closures, by [`call_both`].
fn fold_four<G, H, A>(
    alloc: A,
    init: G,
    op: H,
    piece: &mut Bytes,
    longer: &mut Bytes,
) -> Both<u64, Error>
where
    G: FnMut() -> u64 + Copy + Drop,
    H: FnMut(u64, u8) -> u64 + Copy + Drop,
    A: Allocator + Copy,
    requires callable { G.IsAlwaysCallable init × H.IsAlwaysCallable op }
    requires made { MakesOnce G.step }
    requires folded { FoldsOnce H.step }
    requires is_partial { (⟦<Bytes as Stream>⟧.view piece.old).status.cut ≡ true }
    ensures same { HasSameResult (λ m n. m ≡ n) (⟦<Bytes as Stream>⟧.view piece.old)
        (answer_by ⟦<Error as HasKind>⟧.kind result.0) (⟦<Bytes as Stream>⟧.view piece.new)
        (⟦<Bytes as Stream>⟧.view longer.old) (answer_by ⟦<Error as HasKind>⟧.kind result.1)
        (⟦<Bytes as Stream>⟧.view longer.new) }
{
    let mut first = repeat(alloc, 4, Any).fold(init, op);
    let mut second = repeat(alloc, 4, Any).fold(init, op);
    call_both(&mut first, &mut second, piece, longer)
}

/// Returns the sum of the first four bytes of partial input, and of `longer`.
///
/// If the first result is a sum and `longer` is the partial input followed by more bytes, both sums
/// are equal, and the second rest is the first followed by these bytes.
///
/// ```
/// use example_callers::longer::sums_of_four;
/// use winnow::stream::Partial;
///
/// let mut piece = Partial::new(b"\x01\x02\x03\x04".as_slice());
/// let mut longer = Partial::new(b"\x01\x02\x03\x04\x05".as_slice());
/// assert_eq!(rt; sums_of_four(alloc, &mut piece, &mut longer), (Ok(10), Ok(10)));
/// ```
pub fn sums_of_four<A: Allocator + Copy>(
    alloc: A,
    piece: &mut Bytes,
    longer: &mut Bytes,
) -> (Result<u64, Error>, Result<u64, Error>)
    requires is_partial { (⟦<Bytes as Stream>⟧.view piece.old).status.cut ≡ true }
    ensures same { HasSameResult (λ m n. m ≡ n) (⟦<Bytes as Stream>⟧.view piece.old)
        (answer_by ⟦<Error as HasKind>⟧.kind result.0) (⟦<Bytes as Stream>⟧.view piece.new)
        (⟦<Bytes as Stream>⟧.view longer.old) (answer_by ⟦<Error as HasKind>⟧.kind result.1)
        (⟦<Bytes as Stream>⟧.view longer.new) }
{
    let add = |sum: u64, byte: u8| sum.wrapping_add(u64::from(byte));
    fold_four(alloc, || 0u64, add, piece, longer)
}
