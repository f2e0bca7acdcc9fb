//! Letters with escapes, from partial input and from longer input.
#![tactic(auto)]

ghost use Rattle.std.specs.Prelude.{◌≡◌, true};
ghost use Rattle.example_callers.specs.Longer.{HasSameResult};
ghost use Rattle.winnow.specs.Form.{answer_by};

use crate::longer::call_both;
use winnow::ascii::impls::Alpha1;
use winnow::ascii::take_escaped;
use winnow::error::{EmptyError, ErrMode, HasKind};
use winnow::laws::{a_byte_control_is_settled, controls_of_one_token_are_settled};
use winnow::stream::{Partial, Stream};
use winnow::token::impls::Any;
use winnow::token::one_of;

/// Partial bytes, as clauses name them.
type Bytes = Partial<&'static [u8]>;

/// Errors with a mode.
type Error = ErrMode<EmptyError>;

/// Letters with their escapes, or an error.
type Letters<'i> = Result<&'i [u8], ErrMode<EmptyError>>;

/// Parses letters, and bytes after a backslash, from partial input, and from `longer`.
///
/// If the first result is final and `longer` is the partial input followed by more bytes, partial
/// or complete, both results are the same bytes, or errors of the same kind, and the second rest is
/// the first followed by these bytes. So it is since a backslash is one byte.
///
/// ```
/// use example_callers::escapes::letters_of_both;
/// use winnow::stream::Partial;
///
/// let mut piece = Partial::new(b"a\\;b;".as_slice());
/// let mut longer = Partial::new(b"a\\;b; c".as_slice());
/// let letters = b"a\\;b".as_slice();
/// assert_eq!(rt; letters_of_both(&mut piece, &mut longer), (Ok(letters), Ok(letters)));
/// ```
pub fn letters_of_both<'i>(
    piece: &mut Partial<&'i [u8]>,
    longer: &mut Partial<&'i [u8]>,
) -> (Letters<'i>, Letters<'i>)
    requires is_partial { (⟦<Bytes as Stream>⟧.view piece.old).status.cut ≡ true }
    ensures same { HasSameResult (λ letters others. letters.now ≡ others.now)
        (⟦<Bytes as Stream>⟧.view piece.old)
        (answer_by ⟦<Error as HasKind>⟧.kind result.0) (⟦<Bytes as Stream>⟧.view piece.new)
        (⟦<Bytes as Stream>⟧.view longer.old) (answer_by ⟦<Error as HasKind>⟧.kind result.1)
        (⟦<Bytes as Stream>⟧.view longer.new) }
{
    a_byte_control_is_settled::<Partial<&'i [u8]>>();
    let mut first = take_escaped(Alpha1, b'\\', Any);
    let mut second = take_escaped(Alpha1, b'\\', Any);
    call_both(&mut first, &mut second, piece, longer)
}

/// Parses letters, and bytes after a backslash or a percent sign, from partial input, and from
/// `longer`. The results are as those of [`letters_of_both`].
///
/// ```
/// use example_callers::escapes::letters_with_marks;
/// use winnow::stream::Partial;
///
/// let mut piece = Partial::new(b"a%;b\\c;".as_slice());
/// let mut longer = Partial::new(b"a%;b\\c;d".as_slice());
/// let letters = b"a%;b\\c".as_slice();
/// assert_eq!(rt; letters_with_marks(&mut piece, &mut longer), (Ok(letters), Ok(letters)));
/// ```
pub fn letters_with_marks<'i>(
    piece: &mut Partial<&'i [u8]>,
    longer: &mut Partial<&'i [u8]>,
) -> (Letters<'i>, Letters<'i>)
    requires is_partial { (⟦<Bytes as Stream>⟧.view piece.old).status.cut ≡ true }
    ensures same { HasSameResult (λ letters others. letters.now ≡ others.now)
        (⟦<Bytes as Stream>⟧.view piece.old)
        (answer_by ⟦<Error as HasKind>⟧.kind result.0) (⟦<Bytes as Stream>⟧.view piece.new)
        (⟦<Bytes as Stream>⟧.view longer.old) (answer_by ⟦<Error as HasKind>⟧.kind result.1)
        (⟦<Bytes as Stream>⟧.view longer.new) }
{
    controls_of_one_token_are_settled::<(u8, u8), Partial<&'i [u8]>>();
    let mut first = take_escaped(Alpha1, one_of((b'\\', b'%')), Any);
    let mut second = take_escaped(Alpha1, one_of((b'\\', b'%')), Any);
    call_both(&mut first, &mut second, piece, longer)
}
