//! The machine of a fixed text.
ghost use Rattle.std.specs.Prelude.{◌↔◌, IsTrue, [], ⊤};
ghost use Rattle.machines.specs.Grammar.{HasEnded, Passes};
ghost use Rattle.machines.specs.Texts.{TextResidual, text_grammar, text_lawful};

use crate::machine::Machine;

#[inline(always)]
fn pass_text<'i>(text: &[u8], at: usize, bytes: &'i [u8]) -> (usize, &'i [u8])
    ensures { Passes (text_grammar text.now) at bytes.now result.0 result.1.now }
{
    let mut passed = at;
    let mut rest = bytes;
    'bytes: while passed < text.len() {
        match rest.split_first() {
            None => return (passed, rest),
            Some((byte, others)) => {
                if *byte != text[passed] {
                    return (passed, rest);
                }
                passed += 1;
                rest = others;
            }
        }
    }
    (passed, rest)
}

#[inline(always)]
fn is_past(text: &[u8], at: usize) -> bool
    ensures done { IsTrue result ↔ TextResidual text.now at [] }
    ensures over { HasEnded (text_grammar text.now) at result }
{
    text.len() <= at
}

/// A fixed text. The state is the number of its bytes that were passed.
///
/// ```
/// use machines::extent::{advance, begin};
/// use machines::text::Text;
///
/// let machine = Text(*b"GET");
/// let mut extent = begin(&machine);
/// assert_eq!(rt; advance(&machine, &mut extent, b"GE".as_slice()), Ok(None));
/// assert_eq!(rt; advance(&machine, &mut extent, b"GET /".as_slice()), Ok(Some(3)));
/// assert_eq!(rt; advance(&machine, &mut begin(&machine), b"GOT".as_slice()), Err(1));
/// ```
#[derive(Clone, Copy)]
pub struct Text<const N: usize>(pub [u8; N]);

impl<const N: usize> Machine for Text<N> {
    type State = usize;

    ghost grammar = { λ m. text_grammar m.0 };

    ghost sound = { λ _. ⊤ };

    ghost lawful = { λ m _. text_lawful m.0 };

    #[inline(always)]
    fn start(&self) -> usize {
        0
    }

    #[inline(always)]
    fn pass<'i>(&self, at: usize, bytes: &'i [u8]) -> (usize, &'i [u8]) {
        pass_text(self.0.as_slice(), at, bytes)
    }

    #[inline(always)]
    fn is_done(&self, at: usize) -> bool {
        is_past(self.0.as_slice(), at)
    }

    #[inline(always)]
    fn is_over(&self, at: usize) -> bool {
        is_past(self.0.as_slice(), at)
    }
}
