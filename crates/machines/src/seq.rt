//! One machine after another.
ghost use Rattle.std.specs.Prelude.{◌≡◌};
ghost use Rattle.machines.specs.Grammar.{AreDisjoint};
ghost use Rattle.machines.specs.Seqs.{seq_grammar, seq_lawful};

use crate::machine::Machine;

/// A state of [`Seq`]: in the first machine, or in the second.
#[derive(Clone, Copy)]
pub enum Stage<A, B> {
    First(A),
    Second(B),
}

/// A word of the first machine, and then one of the second. No byte that continues a complete word
/// of the first may also start a word of the second.
///
/// ```
/// use machines::extent::{advance, begin};
/// use machines::seq::Seq;
/// use machines::sets::Byte;
///
/// let machine = Seq(Byte(b'a'), Seq(Byte(b'b'), Byte(b'c')));
/// let mut extent = begin(&machine);
/// assert_eq!(rt; advance(&machine, &mut extent, b"ab".as_slice()), Ok(None));
/// assert_eq!(rt; advance(&machine, &mut extent, b"abx".as_slice()), Err(2));
/// ```
#[derive(Clone, Copy)]
pub struct Seq<A, B>(pub A, pub B);

impl<A: Machine, B: Machine> Machine for Seq<A, B> {
    type State = Stage<A::State, B::State>;

    ghost grammar = { λ m. seq_grammar (A.grammar m.0) (B.grammar m.1) };

    ghost sound = { λ m. A.sound m.0 × B.sound m.1
        × AreDisjoint (A.grammar m.0).nexts (B.grammar m.1).firsts };

    ghost lawful = { λ m is. seq_lawful (A.grammar m.0) (B.grammar m.1) (A.lawful m.0 is.0)
        (B.lawful m.1 is.1) is.2 };

    #[inline(always)]
    fn start(&self) -> Stage<A::State, B::State> {
        Stage::First(self.0.start())
    }

    #[inline(always)]
    fn pass<'i>(
        &self,
        at: Stage<A::State, B::State>,
        bytes: &'i [u8],
    ) -> (Stage<A::State, B::State>, &'i [u8]) {
        match at {
            Stage::Second(from) => {
                let (to, left) = self.1.pass(from, bytes);
                (Stage::Second(to), left)
            }
            Stage::First(from) => {
                let (to, left) = self.0.pass(from, bytes);
                if left.is_empty() {
                    return (Stage::First(to), left);
                }
                if self.0.is_done(to) {
                    let (then, rest) = self.1.pass(self.1.start(), left);
                    if rest.len() == left.len() {
                        return (Stage::First(to), left);
                    }
                    return (Stage::Second(then), rest);
                }
                (Stage::First(to), left)
            }
        }
    }

    #[inline(always)]
    fn is_done(&self, at: Stage<A::State, B::State>) -> bool {
        match at {
            Stage::First(first) => self.0.is_done(first) && self.1.is_done(self.1.start()),
            Stage::Second(second) => self.1.is_done(second),
        }
    }

    #[inline(always)]
    fn is_over(&self, at: Stage<A::State, B::State>) -> bool {
        match at {
            Stage::First(first) => self.0.is_over(first) && self.1.is_over(self.1.start()),
            Stage::Second(second) => self.1.is_over(second),
        }
    }
}
