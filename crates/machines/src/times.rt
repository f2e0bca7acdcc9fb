//! Machines of words in a range of counts.
ghost use Rattle.std.specs.Prelude.{◌≡◌, false};
ghost use Rattle.machines.specs.Grammar.{AreDisjoint, Passes};
ghost use Rattle.machines.specs.Ranges.{IsOneLess, times_grammar, times_lawful};
ghost use Rattle.machines.specs.Stars.{InnerStopped};

use crate::machine::Machine;
use crate::star::is_inner_done;

/// A state of [`Times`]: how many more words are needed and how many more than these are possible,
/// and the state in a word.
#[derive(Clone, Copy)]
pub struct Turn<S> {
    pub least: usize,
    pub extra: usize,
    pub inner: Option<S>,
}

// The counts after one more word, if it may come next.
#[inline(always)]
fn one_less(least: usize, extra: usize) -> Option<(usize, usize)>
    ensures { IsOneLess least extra result }
{
    if least > 0 {
        return Some((least - 1, extra));
    }
    if extra > 0 {
        Some((0, extra - 1))
    } else {
        None
    }
}

/// Words of a machine: at least `least`, and at most `extra` more than these.
///
/// No word may be empty, and no byte that starts a word may also continue a word that is complete.
///
/// ```
/// use machines::extent::{advance, begin};
/// use machines::sets::Byte;
/// use machines::times::Times;
///
/// let machine = Times { word: Byte(b'a'), least: 1, extra: 1 };
/// let mut extent = begin(&machine);
/// assert_eq!(rt; advance(&machine, &mut extent, b"aaa".as_slice()), Ok(Some(2)));
/// assert_eq!(rt; advance(&machine, &mut begin(&machine), b"b".as_slice()), Err(0));
/// ```
#[derive(Clone, Copy)]
pub struct Times<A> {
    pub word: A,
    pub least: usize,
    pub extra: usize,
}

impl<A: Machine> Times<A> {
    // Passes words, from a state in which no byte continues the word before.
    #[inline(always)]
    fn pass_words<'i>(&self, from: Turn<A::State>, bytes: &'i [u8]) -> (Turn<A::State>, &'i [u8])
        requires sound { A.sound self.now.word }
        requires filled { (A.grammar self.now.word).nullable ≡ false }
        requires disjoint { AreDisjoint (A.grammar self.now.word).nexts
            (A.grammar self.now.word).firsts }
        requires stopped { InnerStopped (A.grammar self.now.word) from.inner bytes.now }
        ensures { Passes (times_grammar (A.grammar self.now.word) self.now.least self.now.extra)
            from bytes.now result.0 result.1.now }
    {
        let mut state = from;
        let mut rest = bytes;
        'turns: loop {
            if rest.is_empty() {
                return (state, rest);
            }
            if !is_inner_done(&self.word, state.inner) {
                return (state, rest);
            }
            match one_less(state.least, state.extra) {
                None => return (state, rest),
                Some((least, extra)) => {
                    let (to, left) = self.word.pass(self.word.start(), rest);
                    if left.len() == rest.len() {
                        return (state, rest);
                    }
                    state = Turn {
                        least,
                        extra,
                        inner: Some(to),
                    };
                    rest = left;
                }
            }
        }
    }
}

impl<A: Machine> Machine for Times<A> {
    type State = Turn<A::State>;

    ghost grammar = { λ m. times_grammar (A.grammar m.word) m.least m.extra };

    ghost sound = { λ m. A.sound m.word × ((A.grammar m.word).nullable ≡ false)
        × AreDisjoint (A.grammar m.word).nexts (A.grammar m.word).firsts };

    ghost lawful = { λ m is. times_lawful (A.grammar m.word) (A.lawful m.word is.0) is.1 is.2
        m.least m.extra };

    #[inline(always)]
    fn start(&self) -> Turn<A::State> {
        Turn {
            least: self.least,
            extra: self.extra,
            inner: None,
        }
    }

    #[inline(always)]
    fn pass<'i>(&self, at: Turn<A::State>, bytes: &'i [u8]) -> (Turn<A::State>, &'i [u8]) {
        match at.inner {
            None => self.pass_words(at, bytes),
            Some(from) => {
                let (to, left) = self.word.pass(from, bytes);
                let inner = Turn {
                    least: at.least,
                    extra: at.extra,
                    inner: Some(to),
                };
                self.pass_words(inner, left)
            }
        }
    }

    #[inline(always)]
    fn is_done(&self, at: Turn<A::State>) -> bool {
        if at.least == 0 {
            return is_inner_done(&self.word, at.inner);
        }
        false
    }

    #[inline(always)]
    fn is_over(&self, at: Turn<A::State>) -> bool {
        match one_less(at.least, at.extra) {
            Some(_) => false,
            None => match at.inner {
                None => true,
                Some(inner) => self.word.is_over(inner),
            },
        }
    }
}
