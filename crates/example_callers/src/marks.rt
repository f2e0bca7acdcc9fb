//! A byte, with which a closure that may change is called, and another byte.
ghost use Rattle.winnow.specs.Does.{Ran};
ghost use Rattle.std.specs.Prelude.{◌≡◌, true};
ghost use Rattle.example_callers.specs.Marks.{CountsOne, ReadsMarks, StepsOnce};
ghost use Rattle.winnow.specs.Form.{answer_by, modal};
ghost use Rattle.winnow.specs.Longer.{SameOnLonger};

use winnow::Parser;
use winnow::combinator::impls::Map;
use winnow::error::{EmptyError, ErrMode, HasKind};
use winnow::stream::{Partial, Stream};
use winnow::token::impls::Any;

/// Bytes of which more may come.
pub type Bytes = Partial<&'static [u8]>;

/// Errors with a mode.
pub type Error = ErrMode<EmptyError>;

/// A byte, with which a closure is called, and another byte.
pub type Marks<G> = (Map<Any, G, Bytes, u8, u64, Error>, Any);

/// Parses a byte, calls the closure with it, and parses another byte.
///
/// If the result is final, the same parser has an equal result on every longer input, partial or
/// complete, from the same state of the closure. Then the closure has the same new state, and the
/// rest is followed by the added bytes.
pub fn read_marks<G: FnMut(u8) -> u64>(
    parser: &mut Marks<G>,
    input: &mut Bytes,
) -> Result<(u64, u8), Error>
    requires callable { ⟦<Marks<G> as Parser<Bytes, (u64, u8), Error>>⟧.can_parse parser.old }
    requires once { StepsOnce G.step }
    requires is_partial { (⟦<Bytes as Stream>⟧.view input.old).status.cut ≡ true }
    ensures exact { ReadsMarks G.step
        (⟦<Marks<G> as Parser<Bytes, (u64, u8), Error>>⟧.state parser.old).0.1
        (⟦<Bytes as Stream>⟧.view input.old).left.tokens
        (answer_by ⟦<Error as HasKind>⟧.kind result)
        (⟦<Marks<G> as Parser<Bytes, (u64, u8), Error>>⟧.state parser.new).0.1
        (⟦<Bytes as Stream>⟧.view input.new).left.tokens }
    ensures same { SameOnLonger
        (Ran ⟦<Bytes as Stream>⟧.reading
        ⟦<Marks<G> as Parser<Bytes, (u64, u8), Error>>⟧.does modal) (λ o p. o ≡ p)
        (⟦<Marks<G> as Parser<Bytes, (u64, u8), Error>>⟧.state parser.old)
        (⟦<Bytes as Stream>⟧.view input.old) (answer_by ⟦<Error as HasKind>⟧.kind result)
        (⟦<Marks<G> as Parser<Bytes, (u64, u8), Error>>⟧.state parser.new)
        (⟦<Bytes as Stream>⟧.view input.new) }
{
    parser.parse_cut(input)
}

/// Parses two bytes, and returns the number of bytes that a closure counted, which is 1, and the
/// second byte.
///
/// ```
/// use example_callers::marks::count_marks;
/// use winnow::stream::Partial;
///
/// let mut input = Partial::new(b"-;rest".as_slice());
/// assert_eq!(rt; count_marks(&mut input), Ok((1, b';')));
/// ```
pub fn count_marks(input: &mut Bytes) -> Result<(u64, u8), Error>
    requires is_partial { (⟦<Bytes as Stream>⟧.view input.old).status.cut ≡ true }
    ensures counted { CountsOne (⟦<Bytes as Stream>⟧.view input.old).left.tokens
        (answer_by ⟦<Error as HasKind>⟧.kind result)
        (⟦<Bytes as Stream>⟧.view input.new).left.tokens }
{
    let mut count = 0u64;
    let mut parser = (
        Any.map(move |_byte: u8| {
            if count < 1000 {
                count += 1;
            }
            count
        }),
        Any,
    );
    read_marks(&mut parser, input)
}
