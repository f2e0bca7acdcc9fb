//! Numbers in both orders of bytes.
#![tactic(auto)]

ghost use Rattle.std.specs.Prelude.{◌≡◌, ◌∷◌, ℕ, List};
ghost use Rattle.example_callers.specs.ByteOrders.{SameNumber};
ghost use Rattle.winnow.specs.Form.{answer_by};

use winnow::Parser;
use winnow::binary::impls::{BeU16, LeU16};
use winnow::error::{EmptyError, HasKind};
use winnow::laws::little_endian_is_big_endian_of_the_reversed_bytes;

/// Parses a number of two bytes from both inputs: its low byte is first in `little`, and its high
/// byte in `big`.
///
/// If the first two bytes of `big` are those of `little` the other way round, and the others are
/// the same, then both results are the same number, and both rests are the same.
///
/// ```
/// use example_callers::byte_orders::both_orders;
///
/// let mut little = b"\x02\x01;".as_slice();
/// let mut big = b"\x01\x02;".as_slice();
/// assert_eq!(rt; both_orders(&mut little, &mut big), (Ok(258), Ok(258)));
/// assert_eq!(rt; little, big);
/// ```
pub fn both_orders<'i>(
    little: &mut &'i [u8],
    big: &mut &'i [u8],
) -> (Result<u16, EmptyError>, Result<u16, EmptyError>)
    ensures same { (low high : ℕ) → (rest : List ℕ) → little.old.now ≡ low ∷ high ∷ rest
        → big.old.now ≡ high ∷ low ∷ rest
        → SameNumber (answer_by ⟦<EmptyError as HasKind>⟧.kind result.0) little.new.now
        (answer_by ⟦<EmptyError as HasKind>⟧.kind result.1) big.new.now }
{
    little_endian_is_big_endian_of_the_reversed_bytes::<&'i [u8], EmptyError>();
    let low_first = LeU16.parse_next(little);
    let high_first = BeU16.parse_next(big);
    (low_first, high_first)
}
