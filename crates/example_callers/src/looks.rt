//! Looking ahead in use: a stream that is read and set back is as it was.
#![tactic(auto)]

ghost use Rattle.std.specs.Prelude.{◌≡◌, ◌<◌, ◌↔◌, length, IfOk, IsTrue};
ghost use Rattle.example_callers.specs.Words.{Word};
ghost use Rattle.winnow.specs.Bytes.{bytes_input};

use winnow::ascii::impls::Alpha1;
use winnow::combinator::peek;
use winnow::error::EmptyError;
use winnow::prelude::*;
use winnow::token::impls::Any;

/// Returns whether a byte remains, and leaves the input unchanged.
pub fn looked_at<'i>(input: &mut &'i [u8]) -> bool
    ensures same { bytes_input input.new.now ≡ bytes_input input.old.now }
    ensures answer { IsTrue result ↔ (0 < length input.old.now) }
{
    let start = input.checkpoint();
    let first = input.next_token();
    let behind = input.offset_from(&start);
    input.reset(&start);
    first.is_some() && behind == 1 && input.eof_offset() > 0
}

/// Looks at the first byte, and parses a word of letters that begins with it. The word is read from
/// the start of the input, since [`peek`] resets it.
///
/// ```
/// use example_callers::looks::first_and_word;
///
/// let mut input = b"ab;".as_slice();
/// assert_eq!(rt; first_and_word(&mut input), Ok((b'a', b"ab".as_slice())));
/// assert_eq!(rt; input, b";".as_slice());
/// ```
pub fn first_and_word<'i>(input: &mut &'i [u8]) -> Result<(u8, &'i [u8]), EmptyError>
    ensures reads { IfOk result (λ both. Word input.old.now both.1 input.new.now) }
{
    let first = peek(Any).parse_next(input)?;
    let word = Alpha1.read(input)?;
    Ok((first, word))
}
