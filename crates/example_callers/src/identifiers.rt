//! Examples of names: the output followed by the rest is the original input.
#![tactic(auto)]

ghost use Rattle.std.specs.Prelude.{◌≡◌, ◌++◌, IfOk};

use winnow::error::{EmptyError, ErrMode};
use winnow::prelude::*;
use winnow::token::{one_of, take_while};

/// Parses a name: a letter or an underscore, and then letters, digits and underscores. The name
/// followed by the rest is the original input.
pub fn read_identifier<'i>(input: &mut &'i [u8]) -> Result<&'i [u8], ErrMode<EmptyError>>
    ensures { IfOk result (λ name. input.old.now ≡ name.now ++ input.new.now) }
{
    let first = one_of((b'a'..=b'z', b'A'..=b'Z', b'_'));
    let later = take_while(0.., (b'a'..=b'z', b'A'..=b'Z', b'0'..=b'9', b'_'));
    (first, later).take().parse_next(input)
}
