//! A choice by the first byte.
ghost use Rattle.std.specs.Prelude.{◌≡◌};
ghost use Rattle.machines.specs.Grammar.{AreDisjoint};
ghost use Rattle.machines.specs.Alts.{alt_grammar, alt_lawful};

use crate::machine::Machine;

/// A state of [`Alt`]: before the first byte, or in one of the two machines.
#[derive(Clone, Copy)]
pub enum Branch<A, B> {
    Neither,
    Left(A),
    Right(B),
}

/// A word of either machine. No byte may start words of both.
///
/// ```
/// use machines::alt::Alt;
/// use machines::extent::{advance, begin};
/// use machines::text::Text;
///
/// let machine = Alt(Text(*b"on"), Text(*b"yes"));
/// assert_eq!(rt; advance(&machine, &mut begin(&machine), b"yes".as_slice()), Ok(Some(3)));
/// assert_eq!(rt; advance(&machine, &mut begin(&machine), b"oyes".as_slice()), Err(1));
/// ```
#[derive(Clone, Copy)]
pub struct Alt<A, B>(pub A, pub B);

impl<A: Machine, B: Machine> Machine for Alt<A, B> {
    type State = Branch<A::State, B::State>;

    ghost grammar = { λ m. alt_grammar (A.grammar m.0) (B.grammar m.1) };

    ghost sound = { λ m. A.sound m.0 × B.sound m.1
        × AreDisjoint (A.grammar m.0).firsts (B.grammar m.1).firsts };

    ghost lawful = { λ m is. alt_lawful (A.grammar m.0) (B.grammar m.1) (A.lawful m.0 is.0)
        (B.lawful m.1 is.1) is.2 };

    #[inline(always)]
    fn start(&self) -> Branch<A::State, B::State> {
        Branch::Neither
    }

    #[inline(always)]
    fn pass<'i>(
        &self,
        at: Branch<A::State, B::State>,
        bytes: &'i [u8],
    ) -> (Branch<A::State, B::State>, &'i [u8]) {
        match at {
            Branch::Left(from) => {
                let (to, left) = self.0.pass(from, bytes);
                (Branch::Left(to), left)
            }
            Branch::Right(from) => {
                let (to, left) = self.1.pass(from, bytes);
                (Branch::Right(to), left)
            }
            Branch::Neither => {
                let (one, rest) = self.0.pass(self.0.start(), bytes);
                if rest.len() == bytes.len() {
                    let (other, left) = self.1.pass(self.1.start(), bytes);
                    if left.len() == bytes.len() {
                        return (Branch::Neither, bytes);
                    }
                    return (Branch::Right(other), left);
                }
                (Branch::Left(one), rest)
            }
        }
    }

    #[inline(always)]
    fn is_done(&self, at: Branch<A::State, B::State>) -> bool {
        match at {
            Branch::Left(left) => self.0.is_done(left),
            Branch::Right(right) => self.1.is_done(right),
            Branch::Neither => { self.0.is_done(self.0.start()) || self.1.is_done(self.1.start()) }
        }
    }

    #[inline(always)]
    fn is_over(&self, at: Branch<A::State, B::State>) -> bool {
        match at {
            Branch::Left(left) => self.0.is_over(left),
            Branch::Right(right) => self.1.is_over(right),
            Branch::Neither => { self.0.is_over(self.0.start()) && self.1.is_over(self.1.start()) }
        }
    }
}
