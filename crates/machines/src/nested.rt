//! Machines of nested brackets.
ghost use Rattle.std.specs.Prelude.{◌≡◌, ◌≤◌, ◌↔◌, IsTrue};
ghost use Rattle.machines.specs.Grammar.{Passes};
ghost use Rattle.machines.specs.Nests.{AreApart, IsClosing, IsPushed, IsOpening};
ghost use Rattle.machines.specs.Nests.{IsTurn, bit_of, brackets_of, nested_grammar};
ghost use Rattle.machines.specs.Stars.{InnerStopped};
ghost use Rattle.machines.specs.Turns.{nested_lawful};

use crate::machine::Machine;
use crate::star::is_inner_done;

/// An opening bracket, and the closing bracket that matches it.
#[derive(Clone, Copy)]
pub struct Pair {
    pub opener: u8,
    pub closer: u8,
}

/// A state of [`Nested`]: the number of open brackets, their kinds as bits with the innermost
/// lowest, and the state in a word.
#[derive(Clone, Copy)]
pub struct Nest<S> {
    pub depth: usize,
    pub kinds: u64,
    pub inner: Option<S>,
}

#[inline(always)]
fn bit(kind: bool) -> u64
    ensures { result ≡ bit_of kind }
{
    if kind { 1 } else { 0 }
}

// Adds a bit below 63 others.
#[inline(always)]
fn push(kinds: u64, kind: bool) -> u64
    ensures { IsPushed kinds kind result }
{
    let below = 1 << 63;
    if kinds < below {
        return kinds * 2 + bit(kind);
    }
    (kinds - below) * 2 + bit(kind)
}

/// Words of a machine, zero or more, with balanced brackets of one or two kinds between them, which
/// are nested at most `limit` times. `limit` must be at most 64.
///
/// No word may be empty, and no byte that starts a word or is a bracket may also continue a
/// complete word. All brackets must differ from each other and from the bytes that start words;
/// only the two closing brackets may be equal.
///
/// ```
/// use machines::extent::{advance, begin};
/// use machines::nested::{Nested, Pair};
/// use machines::seq::Seq;
/// use machines::sets::Byte;
///
/// let round = Pair { opener: b'(', closer: b')' };
/// let square = Pair { opener: b'[', closer: b']' };
/// let inside = Nested { word: Byte(b'.'), first: round, second: Some(square), limit: 2 };
/// let machine = Seq(inside, Byte(b'\n'));
/// let mut extent = begin(&machine);
/// assert_eq!(rt; advance(&machine, &mut extent, b"(.[]).\n".as_slice()), Ok(Some(7)));
/// assert_eq!(rt; advance(&machine, &mut begin(&machine), b"(.]\n".as_slice()), Err(2));
/// assert_eq!(rt; advance(&machine, &mut begin(&machine), b"((()))\n".as_slice()), Err(2));
/// ```
#[derive(Clone, Copy)]
pub struct Nested<A> {
    pub word: A,
    pub first: Pair,
    pub second: Option<Pair>,
    pub limit: usize,
}

impl<A: Machine> Nested<A> {
    // The kind of an opening bracket.
    #[inline(always)]
    fn opening(&self, byte: u8) -> Option<bool>
        ensures { IsOpening (brackets_of self.now.first self.now.second) byte result }
    {
        if byte == self.first.opener {
            return Some(false);
        }
        match self.second {
            None => None,
            Some(pair) => if byte == pair.opener {
                Some(true)
            } else {
                None
            },
        }
    }

    #[inline(always)]
    fn is_closer(&self, kind: bool, byte: u8) -> bool
        ensures { IsTrue result
            ↔ (byte ≡ (brackets_of self.now.first self.now.second).closer kind) }
    {
        if kind {
            match self.second {
                None => false,
                Some(pair) => byte == pair.closer,
            }
        } else {
            byte == self.first.closer
        }
    }

    #[inline(always)]
    fn closing(&self, depth: usize, kinds: u64, byte: u8) -> Option<(usize, u64)>
        ensures { IsClosing (brackets_of self.now.first self.now.second) depth kinds byte result }
    {
        if depth == 0 {
            return None;
        }
        if self.is_closer(kinds % 2 == 1, byte) {
            Some((depth - 1, kinds / 2))
        } else {
            None
        }
    }

    // The stack after a bracket, if it may come next.
    #[inline(always)]
    fn turn(&self, depth: usize, kinds: u64, byte: u8) -> Option<(usize, u64)>
        requires { self.now.limit ≤ 64 }
        ensures { IsTurn (brackets_of self.now.first self.now.second) self.now.limit depth kinds
            byte result }
    {
        if depth < self.limit {
            match self.opening(byte) {
                Some(kind) => Some((depth + 1, push(kinds, kind))),
                None => self.closing(depth, kinds, byte),
            }
        } else {
            self.closing(depth, kinds, byte)
        }
    }

    // Passes items, from a state in which no byte continues the word before.
    #[inline(always)]
    fn pass_items<'i>(&self, from: Nest<A::State>, bytes: &'i [u8]) -> (Nest<A::State>, &'i [u8])
        requires sound { A.sound self.now.word }
        requires apart { AreApart (brackets_of self.now.first self.now.second)
            (A.grammar self.now.word) }
        requires limited { self.now.limit ≤ 64 }
        requires stopped { InnerStopped (A.grammar self.now.word) from.inner bytes.now }
        ensures { Passes (nested_grammar (brackets_of self.now.first self.now.second)
            (A.grammar self.now.word) self.now.limit) from bytes.now result.0 result.1.now }
    {
        let mut state = from;
        let mut rest = bytes;
        'turns: loop {
            match rest.split_first() {
                None => return (state, rest),
                Some((byte, others)) => {
                    if !is_inner_done(&self.word, state.inner) {
                        return (state, rest);
                    }
                    match self.turn(state.depth, state.kinds, *byte) {
                        Some((depth, kinds)) => {
                            state = Nest {
                                depth,
                                kinds,
                                inner: None,
                            };
                            rest = others;
                        }
                        None => {
                            let (to, left) = self.word.pass(self.word.start(), rest);
                            if left.len() == rest.len() {
                                return (state, rest);
                            }
                            state = Nest {
                                depth: state.depth,
                                kinds: state.kinds,
                                inner: Some(to),
                            };
                            rest = left;
                        }
                    }
                }
            }
        }
    }
}

impl<A: Machine> Machine for Nested<A> {
    type State = Nest<A::State>;

    ghost grammar = { λ m. nested_grammar (brackets_of m.first m.second) (A.grammar m.word)
        m.limit };

    ghost sound = { λ m. A.sound m.word
        × AreApart (brackets_of m.first m.second) (A.grammar m.word) × (m.limit ≤ 64) };

    ghost lawful = { λ m is. nested_lawful (brackets_of m.first m.second) (A.grammar m.word)
        (A.lawful m.word is.0) is.1 m.limit };

    #[inline(always)]
    fn start(&self) -> Nest<A::State> {
        Nest {
            depth: 0,
            kinds: 0,
            inner: None,
        }
    }

    #[inline(always)]
    fn pass<'i>(&self, at: Nest<A::State>, bytes: &'i [u8]) -> (Nest<A::State>, &'i [u8]) {
        match at.inner {
            None => self.pass_items(at, bytes),
            Some(from) => {
                let (to, left) = self.word.pass(from, bytes);
                let inner = Nest {
                    depth: at.depth,
                    kinds: at.kinds,
                    inner: Some(to),
                };
                self.pass_items(inner, left)
            }
        }
    }

    #[inline(always)]
    fn is_done(&self, at: Nest<A::State>) -> bool {
        if at.depth == 0 {
            return is_inner_done(&self.word, at.inner);
        }
        false
    }

    #[inline(always)]
    fn is_over(&self, _at: Nest<A::State>) -> bool {
        false
    }
}
