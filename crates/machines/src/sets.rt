//! Machines of one byte, and of a run of bytes, of a set.
ghost use Rattle.std.specs.Prelude.{◌≡◌, ◌≤◌, ◌↔◌, ◌==◌, IsTrue, ℕ, Bool, length, take, drop, ⊤};
ghost use Rattle.std.proofs.Common.{eq-eqb, refl};
ghost use Rattle.machines.specs.Languages.{AllOf};
ghost use Rattle.machines.specs.Sets.{IsSet, NotFirst, one_grammar, one_lawful, only};
ghost use Rattle.machines.specs.Sets.{run_grammar, run_lawful};

use crate::machine::Machine;

/// A set of bytes that is not empty. See [`Plain`](crate::examples::Plain) for one.
pub trait ByteSet {
    // Whether a byte is in the set.
    ghost within: { Self → ℕ → Bool };

    /// Returns whether `byte` is in the set.
    fn has(&self, byte: u8) -> bool
        ensures { IsTrue result ↔ IsTrue (within self.now byte) };

    /// Returns the number of bytes in the longest prefix of `bytes` whose bytes are in the set.
    fn run(&self, bytes: &[u8]) -> usize
        ensures few { result ≤ length bytes.now }
        ensures all { AllOf (within self.now) (take result bytes.now) }
        ensures ends { NotFirst (within self.now) (drop result bytes.now) }
    {
        let mut n = 0;
        'bytes: while n < bytes.len() {
            if !self.has(bytes[n]) {
                return n;
            }
            n += 1;
        }
        n
    }

    ghost nonempty: { (s : Self) → IsSet (within s) };
}

/// The set of one byte, and its machine.
///
/// ```
/// use machines::extent::{advance, begin};
/// use machines::sets::{Byte, OneOf};
///
/// let machine = OneOf(Byte(b':'));
/// let mut extent = begin(&machine);
/// assert_eq!(rt; advance(&machine, &mut extent, b"::".as_slice()), Ok(Some(1)));
/// ```
#[derive(Clone, Copy)]
pub struct Byte(pub u8);

impl ByteSet for Byte {
    ghost within = { λ s. only s.0 };

    ghost nonempty = { λ s. (s.0, eq-eqb s.0 s.0 refl) };

    #[inline(always)]
    fn has(&self, byte: u8) -> bool {
        byte == self.0
    }
}

#[inline(always)]
pub(crate) fn rest_after(bytes: &[u8], size: usize) -> &[u8]
    requires { size ≤ length bytes.now }
    ensures { result.now ≡ drop size bytes.now }
{
    &bytes[size..]
}

/// One byte of a set.
///
/// ```
/// use machines::examples::NotQuote;
/// use machines::extent::{advance, begin};
/// use machines::sets::OneOf;
///
/// let machine = OneOf(NotQuote);
/// assert_eq!(rt; advance(&machine, &mut begin(&machine), b"ab".as_slice()), Ok(Some(1)));
/// ```
#[derive(Clone, Copy)]
pub struct OneOf<S>(pub S);

impl<S: ByteSet> Machine for OneOf<S> {
    type State = bool;

    ghost grammar = { λ m. one_grammar (S.within m.0) };

    ghost sound = { λ _. ⊤ };

    ghost lawful = { λ m _. one_lawful (S.within m.0) (S.nonempty m.0) };

    #[inline(always)]
    fn start(&self) -> bool {
        false
    }

    #[inline(always)]
    fn pass<'i>(&self, at: bool, bytes: &'i [u8]) -> (bool, &'i [u8]) {
        if at {
            return (at, bytes);
        }
        match bytes.split_first() {
            None => (at, bytes),
            Some((byte, rest)) => {
                if self.0.has(*byte) {
                    (true, rest)
                } else {
                    (at, bytes)
                }
            }
        }
    }

    #[inline(always)]
    fn is_done(&self, at: bool) -> bool {
        at
    }

    #[inline(always)]
    fn is_over(&self, at: bool) -> bool {
        at
    }
}

/// Bytes of a set, zero or more: as many as there are.
///
/// ```
/// use machines::examples::NotQuote;
/// use machines::extent::{advance, begin};
/// use machines::sets::Run;
///
/// let machine = Run(NotQuote);
/// let mut extent = begin(&machine);
/// assert_eq!(rt; advance(&machine, &mut extent, b"ab".as_slice()), Ok(None));
/// assert_eq!(rt; advance(&machine, &mut extent, b"abc\"".as_slice()), Ok(Some(3)));
/// ```
#[derive(Clone, Copy)]
pub struct Run<S>(pub S);

impl<S: ByteSet> Machine for Run<S> {
    type State = ();

    ghost grammar = { λ m. run_grammar (S.within m.0) };

    ghost sound = { λ _. ⊤ };

    ghost lawful = { λ m _. run_lawful (S.within m.0) };

    #[inline(always)]
    fn start(&self) -> () {
        ()
    }

    #[inline(always)]
    fn pass<'i>(&self, at: (), bytes: &'i [u8]) -> ((), &'i [u8]) {
        let run = self.0.run(bytes);
        (at, rest_after(bytes, run))
    }

    #[inline(always)]
    fn is_done(&self, _at: ()) -> bool {
        true
    }

    #[inline(always)]
    fn is_over(&self, _at: ()) -> bool {
        false
    }
}

impl Machine for Byte {
    type State = bool;

    ghost grammar = { λ m. one_grammar (only m.0) };

    ghost sound = { λ _. ⊤ };

    ghost lawful = { λ m _. one_lawful (only m.0) (m.0, eq-eqb m.0 m.0 refl) };

    #[inline(always)]
    fn start(&self) -> bool {
        false
    }

    #[inline(always)]
    fn pass<'i>(&self, at: bool, bytes: &'i [u8]) -> (bool, &'i [u8]) {
        OneOf(*self).pass(at, bytes)
    }

    #[inline(always)]
    fn is_done(&self, at: bool) -> bool {
        OneOf(*self).is_done(at)
    }

    #[inline(always)]
    fn is_over(&self, at: bool) -> bool {
        OneOf(*self).is_over(at)
    }
}
