//! A color, as `#a0b1c2`.
ghost use Rattle.std.specs.Prelude.{◌≡◌, ◌↔◌, IsTrue, false};
ghost use Rattle.examples.specs.Color.Read.{ColorRead};
ghost use Rattle.examples.specs.Color.Color.{Color};
ghost use Rattle.winnow.specs.AsChar.{IsHexDigit};
ghost use Rattle.winnow.specs.Exact.Whole.{ReadsAll};
ghost use Rattle.winnow.specs.Grammar.{Literally};
ghost use Rattle.winnow.specs.Once.{TokenEqInjective};
ghost use Rattle.winnow.specs.Told.{IsTextOf};

use winnow::Parser;
use winnow::combinator::preceded;
use winnow::error::{EmptyError, ErrMode, ParseFault, ParserError};
use winnow::stream::{AsChar, Compare, ContainsToken, StreamIsPartial};
use winnow::token::take_while;

/// Hexadecimal digits.
#[derive(Clone, Copy, Drop)]
struct HexDigits;

impl ContainsToken<u8> for HexDigits {
    ghost tells = { λ s b answer. IsTrue answer ↔ IsHexDigit b };

    fn contains_token(&self, b: u8) -> bool {
        b.is_hex_digit()
    }
}

/// A color, of any stream of bytes.
fn color<I, E>(input: I) -> Result<(I::Slice, I::Slice, I::Slice), ParseFault<I, E::Inner>>
where
    I: StreamIsPartial<Token = u8> + Compare<u8>,
    E: ParserError<I>,
    requires whole { I.supports_partial ≡ false }
    requires seen { TokenEqInjective I.seen_as }
    ensures { ReadsAll E.inner_kind (ColorRead I.reading I.seen_as
        (Literally I.reading I.spells (λ s _. s))) (I.view input).left.tokens result }
{
    let red = take_while(2, HexDigits);
    let green = take_while(2, HexDigits);
    let blue = take_while(2, HexDigits);
    let mut color = preceded(b'#', (red, green, blue));
    Parser::<I, _, E>::read_all(&mut color, input)
}

/// Parses all of a text as a color such as `#a0b1c2`, and returns the two hexadecimal digits of
/// red, of green and of blue. An error holds the offset in bytes at which the text is not a color.
///
/// ```
/// use examples::color::parse_color;
///
/// let color = parse_color(b"#a0b1c2".as_slice());
/// assert!(rt; matches!(color, Ok((red, _, _)) if red == b"a0".as_slice()));
/// assert!(rt; parse_color(b"#a0b1c".as_slice()).is_err());
/// ```
pub fn parse_color<'i>(
    text: &'i [u8],
) -> Result<(&'i [u8], &'i [u8], &'i [u8]), ParseFault<&'i [u8], EmptyError>>
    ensures { IsTextOf ⟦<ErrMode<EmptyError> as ParserError<&'i [u8]>>⟧.inner_kind Color
        text.now result }
{
    color::<&'i [u8], ErrMode<EmptyError>>(text)
}
