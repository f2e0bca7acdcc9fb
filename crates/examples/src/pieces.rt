//! Readers of partial input whose results are final.
//!
//! A result is also that of every longer input, unless it is `Incomplete` or out of memory. So it
//! does not matter where the input is split. Each reader is composed of parsers of the library.
ghost use Rattle.winnow.specs.Does.{Ran};
ghost use Rattle.std.specs.Prelude.{◌≡◌, ⊤, true, ℕ};
ghost use Rattle.winnow.specs.Form.{answer_by, modal};
ghost use Rattle.winnow.specs.Longer.{SameOnLonger};
ghost use Rattle.examples.specs.Pieces.Pieces.{SameSettings};

use winnow::Parser;
use winnow::ascii::impls::{Alpha1, Digit1};
use winnow::error::{EmptyError, ErrMode, HasKind};
use winnow::stream::{Partial, Stream};

/// A piece of bytes, as clauses name it.
type Bytes = Partial<&'static [u8]>;

/// The errors of the readers.
type Error = ErrMode<EmptyError>;

/// A setting, as clauses name it.
type Setting = (&'static [u8], u8, &'static [u8]);

/// Parses a name, an equals sign and digits at the start of partial input.
///
/// ```
/// use examples::pieces::read_setting;
/// use winnow::stream::Partial;
///
/// let mut input = Partial::new(b"width=12;".as_slice());
/// let answer = read_setting(&mut input);
/// assert_eq!(rt; answer, Ok((b"width".as_slice(), b'=', b"12".as_slice())));
/// assert!(rt; read_setting(&mut Partial::new(b"width=1".as_slice())).is_err());
/// ```
pub fn read_setting<'i>(
    input: &mut Partial<&'i [u8]>,
) -> Result<(&'i [u8], u8, &'i [u8]), ErrMode<EmptyError>>
    requires is_cut { (⟦<Bytes as Stream>⟧.view input.old).status.cut ≡ true }
    ensures same { (t : ⊤ × ℕ × ⊤) × SameOnLonger
        (Ran ⟦<Bytes as Stream>⟧.reading
        ⟦<(Alpha1, u8, Digit1) as Parser<Bytes, Setting, Error>>⟧.does modal) SameSettings
        (tt, 61, tt) (⟦<Bytes as Stream>⟧.view input.old)
        (answer_by ⟦<Error as HasKind>⟧.kind result) t (⟦<Bytes as Stream>⟧.view input.new) }
{
    (Alpha1, b'=', Digit1).parse_cut(input)
}
