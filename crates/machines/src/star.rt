//! Machines of repeated words.
ghost use Rattle.std.specs.Prelude.{◌≡◌, ◌↔◌, IsTrue, false, []};
ghost use Rattle.machines.specs.Grammar.{AreDisjoint, Passes};
ghost use Rattle.machines.specs.Stars.{InnerDone, InnerStopped, StarResidual, some_grammar};
ghost use Rattle.machines.specs.Stars.{some_lawful, star_grammar, star_lawful};

use crate::machine::Machine;

#[inline(always)]
pub(crate) fn is_inner_done<A: Machine>(machine: &A, at: Option<A::State>) -> bool
    requires sound { A.sound machine.now }
    ensures { IsTrue result ↔ InnerDone (A.grammar machine.now) at }
{
    match at {
        None => true,
        Some(inner) => machine.is_done(inner),
    }
}

#[inline(always)]
fn is_whole<A: Machine>(machine: &A, at: Option<A::State>) -> bool
    requires sound { A.sound machine.now }
    ensures { IsTrue result ↔ StarResidual (A.grammar machine.now) at [] }
{
    match at {
        None => true,
        Some(inner) => machine.is_done(inner),
    }
}

// Passes words, from a state in which no byte continues the word before.
#[inline(always)]
fn pass_words<'i, A: Machine>(
    machine: &A,
    from: Option<A::State>,
    bytes: &'i [u8],
) -> (Option<A::State>, &'i [u8])
    requires sound { A.sound machine.now }
    requires filled { (A.grammar machine.now).nullable ≡ false }
    requires disjoint { AreDisjoint (A.grammar machine.now).nexts (A.grammar machine.now).firsts }
    requires stopped { InnerStopped (A.grammar machine.now) from bytes.now }
    ensures { Passes (star_grammar (A.grammar machine.now)) from bytes.now result.0 result.1.now }
{
    let mut state = from;
    let mut rest = bytes;
    'turns: loop {
        if rest.is_empty() {
            return (state, rest);
        }
        if is_whole(machine, state) {
            let (to, left) = machine.pass(machine.start(), rest);
            if left.len() == rest.len() {
                return (state, rest);
            }
            state = Some(to);
            rest = left;
        } else {
            return (state, rest);
        }
    }
}

#[inline(always)]
fn pass_all<'i, A: Machine>(
    machine: &A,
    at: Option<A::State>,
    bytes: &'i [u8],
) -> (Option<A::State>, &'i [u8])
    requires sound { A.sound machine.now }
    requires filled { (A.grammar machine.now).nullable ≡ false }
    requires disjoint { AreDisjoint (A.grammar machine.now).nexts (A.grammar machine.now).firsts }
    ensures { Passes (star_grammar (A.grammar machine.now)) at bytes.now result.0 result.1.now }
{
    match at {
        None => pass_words(machine, None, bytes),
        Some(from) => {
            let (to, left) = machine.pass(from, bytes);
            pass_words(machine, Some(to), left)
        }
    }
}

/// Words of a machine, zero or more.
///
/// No word may be empty, and no byte that starts a word may also continue a word that is complete.
///
/// ```
/// use machines::extent::{advance, begin};
/// use machines::seq::Seq;
/// use machines::sets::Byte;
/// use machines::star::Star;
///
/// let machine = Seq(Star(Seq(Byte(b'a'), Byte(b','))), Byte(b'.'));
/// let mut extent = begin(&machine);
/// assert_eq!(rt; advance(&machine, &mut extent, b"a,a,.".as_slice()), Ok(Some(5)));
/// ```
#[derive(Clone, Copy)]
pub struct Star<A>(pub A);

impl<A: Machine> Machine for Star<A> {
    type State = Option<A::State>;

    ghost grammar = { λ m. star_grammar (A.grammar m.0) };

    ghost sound = { λ m. A.sound m.0 × ((A.grammar m.0).nullable ≡ false)
        × AreDisjoint (A.grammar m.0).nexts (A.grammar m.0).firsts };

    ghost lawful = { λ m is. star_lawful (A.grammar m.0) (A.lawful m.0 is.0) is.1 is.2 };

    #[inline(always)]
    fn start(&self) -> Option<A::State> {
        None
    }

    #[inline(always)]
    fn pass<'i>(&self, at: Option<A::State>, bytes: &'i [u8]) -> (Option<A::State>, &'i [u8]) {
        pass_all(&self.0, at, bytes)
    }

    #[inline(always)]
    fn is_done(&self, at: Option<A::State>) -> bool {
        is_whole(&self.0, at)
    }

    #[inline(always)]
    fn is_over(&self, _at: Option<A::State>) -> bool {
        false
    }
}

/// Words of a machine, one or more.
///
/// No word may be empty, and no byte that starts a word may also continue a word that is complete.
///
/// ```
/// use machines::extent::{advance, begin};
/// use machines::sets::Byte;
/// use machines::star::SomeOf;
///
/// let machine = SomeOf(Byte(b'a'));
/// let mut extent = begin(&machine);
/// assert_eq!(rt; advance(&machine, &mut extent, b"aa.".as_slice()), Ok(Some(2)));
/// assert_eq!(rt; advance(&machine, &mut begin(&machine), b".".as_slice()), Err(0));
/// ```
#[derive(Clone, Copy)]
pub struct SomeOf<A>(pub A);

impl<A: Machine> Machine for SomeOf<A> {
    type State = Option<A::State>;

    ghost grammar = { λ m. some_grammar (A.grammar m.0) };

    ghost sound = { λ m. A.sound m.0 × ((A.grammar m.0).nullable ≡ false)
        × AreDisjoint (A.grammar m.0).nexts (A.grammar m.0).firsts };

    ghost lawful = { λ m is. some_lawful (A.grammar m.0) (A.lawful m.0 is.0) is.1 is.2 };

    #[inline(always)]
    fn start(&self) -> Option<A::State> {
        Some(self.0.start())
    }

    #[inline(always)]
    fn pass<'i>(&self, at: Option<A::State>, bytes: &'i [u8]) -> (Option<A::State>, &'i [u8]) {
        pass_all(&self.0, at, bytes)
    }

    #[inline(always)]
    fn is_done(&self, at: Option<A::State>) -> bool {
        is_whole(&self.0, at)
    }

    #[inline(always)]
    fn is_over(&self, _at: Option<A::State>) -> bool {
        false
    }
}
