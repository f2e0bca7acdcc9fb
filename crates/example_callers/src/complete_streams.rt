//! Examples of complete streams: results on a partial stream that is marked complete, in terms of
//! the plain stream.
#![tactic(auto)]

ghost use Rattle.winnow.specs.Does.{Ran};
ghost use Rattle.std.specs.Prelude.{ℕ};
ghost use Rattle.winnow.specs.Bytes.{bytes_input};
ghost use Rattle.winnow.specs.Form.{answer_by, modal};
ghost use Rattle.winnow.specs.Input.{Input};

use winnow::Parser;
use winnow::combinator::impls::Opt;
use winnow::combinator::opt;
use winnow::error::{EmptyError, ErrMode, HasKind};
use winnow::stream::{Partial, Stream, StreamIsPartial};

/// A sign that may be left out.
type Sign<'a> = Opt<u8, &'a [u8], u8, ErrMode<EmptyError>>;

/// Reads a sign from bytes as a partial stream that is marked complete: what it comes to is a run
/// of the plain parser on the plain bytes.
pub fn sign_of_complete<'a>(bytes: &'a [u8]) -> Result<Option<u8>, ErrMode<EmptyError>>
    ensures { (t : ℕ) × (j : Input ℕ)
        × Ran ⟦<&'a [u8] as Stream>⟧.reading
        ⟦<Sign<'a> as Parser<&'a [u8], Option<u8>, ErrMode<EmptyError>>>⟧.does modal 43
        (bytes_input bytes.now) (answer_by ⟦<ErrMode<EmptyError> as HasKind>⟧.kind result) t j }
{
    let mut input = Partial::new(bytes);
    let _state = input.complete();
    opt(b'+').parse_next(&mut input)
}
