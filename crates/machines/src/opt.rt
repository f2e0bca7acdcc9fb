//! A machine that may be left out.
ghost use Rattle.machines.specs.Opts.{opt_grammar, opt_lawful};

use crate::machine::Machine;

/// A word of a machine, or nothing.
///
/// ```
/// use machines::extent::{advance, begin};
/// use machines::opt::Opt;
/// use machines::seq::Seq;
/// use machines::sets::Byte;
///
/// let machine = Seq(Opt(Byte(b'-')), Byte(b'1'));
/// let mut extent = begin(&machine);
/// assert_eq!(rt; advance(&machine, &mut extent, b"-1".as_slice()), Ok(Some(2)));
/// assert_eq!(rt; advance(&machine, &mut begin(&machine), b"1".as_slice()), Ok(Some(1)));
/// ```
#[derive(Clone, Copy)]
pub struct Opt<A>(pub A);

impl<A: Machine> Machine for Opt<A> {
    type State = Option<A::State>;

    ghost grammar = { λ m. opt_grammar (A.grammar m.0) };

    ghost sound = { λ m. A.sound m.0 };

    ghost lawful = { λ m is. opt_lawful (A.grammar m.0) (A.lawful m.0 is) };

    #[inline(always)]
    fn start(&self) -> Option<A::State> {
        None
    }

    #[inline(always)]
    fn pass<'i>(&self, at: Option<A::State>, bytes: &'i [u8]) -> (Option<A::State>, &'i [u8]) {
        match at {
            Some(from) => {
                let (to, left) = self.0.pass(from, bytes);
                (Some(to), left)
            }
            None => {
                let (to, left) = self.0.pass(self.0.start(), bytes);
                if left.len() == bytes.len() {
                    return (None, bytes);
                }
                (Some(to), left)
            }
        }
    }

    #[inline(always)]
    fn is_done(&self, at: Option<A::State>) -> bool {
        match at {
            None => true,
            Some(inner) => self.0.is_done(inner),
        }
    }

    #[inline(always)]
    fn is_over(&self, at: Option<A::State>) -> bool {
        match at {
            None => self.0.is_over(self.0.start()),
            Some(inner) => self.0.is_over(inner),
        }
    }
}
