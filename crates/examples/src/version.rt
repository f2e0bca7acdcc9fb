//! A version, as `1.2.3-rc.1`.
ghost use Rattle.std.specs.Prelude.{◌≡◌, ◌↔◌, IsTrue, false, []};
ghost use Rattle.examples.specs.Version.Read.{VersionRead};
ghost use Rattle.examples.specs.Version.Version.{InWord, Version};
ghost use Rattle.winnow.specs.Exact.Whole.{ReadsAll};
ghost use Rattle.winnow.specs.Grammar.{Literally};
ghost use Rattle.winnow.specs.Once.{TokenEqInjective};
ghost use Rattle.winnow.specs.Told.{IsTextOf};

use std::alloc::Allocator;
use winnow::Parser;
use winnow::ascii::impls::DecUint;
use winnow::combinator::{opt, preceded, separated, terminated};
use winnow::error::{EmptyError, ErrMode, ParseFault, ParserError};
use winnow::stream::{AsBStr, AsChar, Compare, ContainsToken, SlicesAsBytes, StreamIsPartial};
use winnow::token::take_while;

/// The bytes of words.
#[derive(Clone, Copy, Drop)]
struct WordBytes;

impl ContainsToken<u8> for WordBytes {
    ghost tells = { λ s b answer. IsTrue answer ↔ InWord b };

    fn contains_token(&self, b: u8) -> bool {
        b.is_alphanum() || b == b'-'
    }
}

/// A version, of any stream of bytes.
fn version<I, E, A>(
    alloc: A,
    input: I,
) -> Result<((u64, u64, u64), Option<Vec<I::Slice, A>>), ParseFault<I, E::Inner>>
where
    I: StreamIsPartial<Token = u8> + Compare<u8> + SlicesAsBytes,
    I::Slice: AsBStr,
    E: ParserError<I>,
    A: Allocator + Copy,
    requires whole { I.supports_partial ≡ false }
    requires seen { TokenEqInjective I.seen_as }
    requires dot { I.spells 46 [] → ⊥ }
    ensures { ReadsAll E.inner_kind (VersionRead I.reading I.seen_as
        (Literally I.reading I.spells (λ s _. s))) (I.view input).left.tokens result }
{
    let numbers = (
        terminated(DecUint, b'.'),
        terminated(DecUint, b'.'),
        DecUint,
    );
    let word = take_while(1.., WordBytes);
    let words = opt(preceded(b'-', separated(alloc, 1.., word, b'.')));
    let mut version = (numbers, words);
    Parser::<I, _, E>::read_all(&mut version, input)
}

/// Parses all of a text as a version: three numbers with dots between them, and optionally a hyphen
/// and one or more words with dots between them. A number is below 2 to the 64, without leading
/// zeros. A word has one or more letters, digits and hyphens. An error holds the offset in bytes at
/// which the text is not a version, or is out of memory.
///
/// ```
/// use examples::version::parse_version;
///
/// let version = parse_version(alloc, b"1.2.3-rc.1".as_slice());
/// assert!(rt; matches!(version, Ok(((1, 2, 3), Some(words))) if words[0] == b"rc".as_slice()));
/// assert!(rt; parse_version(alloc, b"1.02.3".as_slice()).is_err());
/// ```
pub fn parse_version<'i, A: Allocator + Copy>(
    alloc: A,
    text: &'i [u8],
) -> Result<((u64, u64, u64), Option<Vec<&'i [u8], A>>), ParseFault<&'i [u8], EmptyError>>
    ensures { IsTextOf ⟦<ErrMode<EmptyError> as ParserError<&'i [u8]>>⟧.inner_kind Version
        text.now result }
{
    version::<&'i [u8], ErrMode<EmptyError>, A>(alloc, text)
}
