//! Machines of data after their length.
ghost use Rattle.machines.specs.Counts.{counted_grammar, counted_lawful};
ghost use Rattle.machines.specs.Numbers.{PassesData};

use crate::machine::Machine;
use crate::number::Number;
use crate::sets::rest_after;

/// A state of [`Counted`]: in the numeral, or in the data with the number of missing bytes.
#[derive(Clone, Copy)]
pub enum Count<S> {
    Numeral(S),
    Data(usize),
}

#[inline(always)]
fn pass_data(size: usize, bytes: &[u8]) -> (usize, &[u8])
    ensures { PassesData size bytes.now result.0 result.1.now }
{
    if bytes.len() < size {
        (size - bytes.len(), rest_after(bytes, bytes.len()))
    } else {
        (0, rest_after(bytes, size))
    }
}

/// A numeral, and then as many bytes as its number.
///
/// ```
/// use machines::counted::Counted;
/// use machines::digits::{Decimal, Numeral};
/// use machines::extent::{advance, begin};
/// use machines::sets::Byte;
///
/// let machine = Counted(Numeral { radix: Decimal, limit: 99, mark: Byte(b':') });
/// let mut extent = begin(&machine);
/// assert_eq!(rt; advance(&machine, &mut extent, b"3:ab".as_slice()), Ok(None));
/// assert_eq!(rt; advance(&machine, &mut extent, b"3:abcd".as_slice()), Ok(Some(5)));
/// ```
#[derive(Clone, Copy)]
pub struct Counted<N>(pub N);

impl<N: Number> Machine for Counted<N> {
    type State = Count<N::State>;

    ghost grammar = { λ m. counted_grammar (N.numerals m.0) };

    ghost sound = { λ m. N.sound m.0 };

    ghost lawful = { λ m is. counted_lawful (N.numerals m.0) (N.lawful m.0 is) };

    #[inline(always)]
    fn start(&self) -> Count<N::State> {
        Count::Numeral(self.0.start())
    }

    #[inline(always)]
    fn pass<'i>(&self, at: Count<N::State>, bytes: &'i [u8]) -> (Count<N::State>, &'i [u8]) {
        match at {
            Count::Data(size) => {
                let (more, rest) = pass_data(size, bytes);
                (Count::Data(more), rest)
            }
            Count::Numeral(from) => {
                let (to, left) = self.0.pass(from, bytes);
                match self.0.value(to) {
                    None => (Count::Numeral(to), left),
                    Some(size) => {
                        if size == 0 {
                            return (Count::Numeral(to), left);
                        }
                        if left.is_empty() {
                            return (Count::Numeral(to), left);
                        }
                        let (more, rest) = pass_data(size, left);
                        (Count::Data(more), rest)
                    }
                }
            }
        }
    }

    #[inline(always)]
    fn is_done(&self, at: Count<N::State>) -> bool {
        match at {
            Count::Data(size) => size == 0,
            Count::Numeral(inner) => match self.0.value(inner) {
                None => false,
                Some(size) => size == 0,
            },
        }
    }

    #[inline(always)]
    fn is_over(&self, at: Count<N::State>) -> bool {
        match at {
            Count::Data(more) => more == 0,
            Count::Numeral(inner) => match self.0.value(inner) {
                None => false,
                Some(size) => size == 0,
            },
        }
    }
}
