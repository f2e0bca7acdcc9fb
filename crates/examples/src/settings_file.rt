//! A file of settings, a line each, as `width=12`: the first proof of `docs/FIRST_PROOF.md`.
ghost use Rattle.std.specs.Prelude.{◌≡◌, ◌↔◌, IsTrue, false};
ghost use Rattle.examples.specs.SettingsFile.Settings.{InKey, InValue, Settings};
ghost use Rattle.examples.specs.SettingsFile.Read.{SettingsRead};
ghost use Rattle.winnow.specs.Exact.Whole.{ReadsAll};
ghost use Rattle.winnow.specs.Grammar.{Literally};
ghost use Rattle.winnow.specs.Once.{TokenEqInjective};
ghost use Rattle.winnow.specs.Told.{IsTextOf};

use std::alloc::Allocator;
use winnow::Parser;
use winnow::combinator::{repeat, separated_pair, terminated};
use winnow::error::{EmptyError, ErrMode, ParseFault, ParserError};
use winnow::stream::{Compare, ContainsToken, StreamIsPartial};
use winnow::token::take_while;

/// The bytes of keys.
#[derive(Clone, Copy, Drop)]
struct KeyBytes;

impl ContainsToken<u8> for KeyBytes {
    ghost tells = { λ s b answer. IsTrue answer ↔ InKey b };

    fn contains_token(&self, b: u8) -> bool {
        b != b'=' && b != b'\n'
    }
}

/// The bytes of values.
#[derive(Clone, Copy, Drop)]
struct ValueBytes;

impl ContainsToken<u8> for ValueBytes {
    ghost tells = { λ s b answer. IsTrue answer ↔ InValue b };

    fn contains_token(&self, b: u8) -> bool {
        b != b'\n'
    }
}

/// Settings, of any stream of bytes.
fn settings<I, E, A>(
    alloc: A,
    input: I,
) -> Result<Vec<(I::Slice, I::Slice), A>, ParseFault<I, E::Inner>>
where
    I: StreamIsPartial<Token = u8> + Compare<u8>,
    E: ParserError<I>,
    A: Allocator + Copy,
    requires whole { I.supports_partial ≡ false }
    requires seen { TokenEqInjective I.seen_as }
    ensures { ReadsAll E.inner_kind (SettingsRead I.reading I.seen_as
        (Literally I.reading I.spells (λ s _. s))) (I.view input).left.tokens result }
{
    let key = take_while(1.., KeyBytes);
    let value = take_while(0.., ValueBytes);
    let line = terminated(separated_pair(key, b'=', value), b'\n');
    let mut lines = repeat(alloc, 0.., line);
    Parser::<I, _, E>::read_all(&mut lines, input)
}

/// Parses the settings of a file, in order. Each is a key of one byte or more, an equals sign, a
/// value and a line feed. A value may have any bytes except line feeds; a key may not have equals
/// signs either. An error holds the offset in bytes at which a line is not a setting, or is out of
/// memory.
///
/// ```
/// use examples::settings_file::parse_settings;
///
/// let file = b"width=12\ntitle=a=b\n".as_slice();
/// let settings = parse_settings(alloc, file);
/// let title = (b"title".as_slice(), b"a=b".as_slice());
/// assert!(rt; matches!(settings, Ok(list) if list[1] == title));
/// assert!(rt; parse_settings(alloc, b"width=12".as_slice()).is_err());
/// ```
pub fn parse_settings<'i, A: Allocator + Copy>(
    alloc: A,
    file: &'i [u8],
) -> Result<Vec<(&'i [u8], &'i [u8]), A>, ParseFault<&'i [u8], EmptyError>>
    ensures { IsTextOf ⟦<ErrMode<EmptyError> as ParserError<&'i [u8]>>⟧.inner_kind Settings
        file.now result }
{
    settings::<&'i [u8], ErrMode<EmptyError>, A>(alloc, file)
}
