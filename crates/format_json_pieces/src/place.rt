//! The first offset at which a scan of a JSON text rejects a byte.
ghost use Rattle.format_json_pieces.specs.Begun.{IsViableText};
ghost use Rattle.format_json_pieces.specs.Place.{IsLongestPrefix, IsPlace, IsPlaceIn};
ghost use Rattle.format_json_pieces.specs.Value.{BeginsText};
ghost use Rattle.format_json_pieces.specs.declared.expected.Expected.{Expected};
ghost use Rattle.format_json_pieces.specs.declared.expected.Expected.TheVariants as what;
ghost use Rattle.std.specs.Option.{option_to_list};
ghost use Rattle.std.specs.Prelude.{◌≡◌, ◌<◌, ◌^◌, ℕ, List, IfOk, length};

use crate::begun::{Bracket, Mode, Step, next_step};
use crate::expected::{Expected, wanted};
use std::alloc::{AllocError, Allocator};

/// An offset in bytes, and the input that is expected there.
///
/// ```
/// use format_json_pieces::expected::Expected;
/// use format_json_pieces::place::Place;
///
/// let place = Place { offset: 3, expected: Expected::Colon };
/// assert_eq!(rt; place.offset, 3);
/// ```
#[derive(Clone, Copy, Debug, PartialEq, Eq, Drop)]
pub struct Place {
    /// The number of bytes before it.
    pub offset: usize,
    /// The input that is expected there.
    pub expected: Expected,
}

/// Returns the first offset at which the scan of a JSON text, whose arrays and objects are nested
/// at most `level` deep, rejects a byte. The bytes before it can continue to a text, and with this
/// byte they cannot, regardless of what follows
/// ([law](places_are_ends_of_longest_prefixes)). If the scan accepts all of the bytes, the offset
/// is their end.
///
/// Fails if memory allocation fails: one byte is held for each open bracket.
///
/// ```
/// use format_json_pieces::expected::Expected;
/// use format_json_pieces::place::{Place, first_place};
///
/// let found = first_place(alloc, 1, b"[1, 2,]");
/// let place = Place { offset: 6, expected: Expected::Value };
/// assert!(rt; matches!(found, Ok(found) if found == place));
/// let found = first_place(alloc, 1, b"[[");
/// let place = Place { offset: 1, expected: Expected::NoDeeper };
/// assert!(rt; matches!(found, Ok(found) if found == place));
/// ```
pub fn first_place<A: Allocator>(alloc: A, level: usize, bytes: &[u8]) -> Result<Place, AllocError>
    ensures { IfOk result (λ place. IsPlace level bytes.now place.offset place.expected) }
{
    place_in(alloc, Some(Bracket::Whole), level, bytes)
}

/// The brackets that are open at first.
fn opened<A: Allocator>(alloc: A, outer: Option<Bracket>) -> Result<Vec<Bracket, A>, AllocError>
    ensures { IfOk result (λ brackets. brackets.items ≡ option_to_list outer) }
{
    let mut brackets = Vec::new(alloc);
    if let Some(bracket) = outer {
        brackets.push(bracket)?;
    }
    Ok(brackets)
}

/// As [`first_place`], for a value in the bracket `outer`; or in none, so that any bytes may follow
/// it.
pub(crate) fn place_in<A: Allocator>(
    alloc: A,
    outer: Option<Bracket>,
    level: usize,
    bytes: &[u8],
) -> Result<Place, AllocError>
    ensures { IfOk result (λ place.
        IsPlaceIn level outer bytes.now place.offset place.expected) }
{
    let mut brackets = opened(alloc, outer)?;
    let most = level.saturating_add(brackets.len());
    let mut mode = Mode::Value;
    let mut left = bytes;
    'bytes: while let Some((first, more)) = left.split_first() {
        let held = brackets.last().copied();
        match next_step(mode, held, *first) {
            Step::Invalid => {
                let offset = bytes.len() - left.len();
                let expected = wanted(mode, held);
                return Ok(Place { offset, expected });
            }
            Step::Goes(next) => mode = next,
            Step::Opens(bracket) => {
                if brackets.len() >= most {
                    let offset = bytes.len() - left.len();
                    let expected = Expected::NoDeeper;
                    return Ok(Place { offset, expected });
                }
                brackets.push(bracket)?;
                mode = Mode::First;
            }
            Step::Closes => {
                let _ = brackets.pop();
                if brackets.is_empty() {
                    return Ok(end_of(bytes));
                }
                mode = Mode::After;
            }
            Step::Ends => {
                if brackets.is_empty() {
                    return Ok(end_of(bytes));
                }
                mode = Mode::After;
            }
            Step::Ended => return Ok(end_of(bytes)),
        }
        left = more;
    }
    let offset = bytes.len();
    let expected = wanted(mode, brackets.last().copied());
    Ok(Place { offset, expected })
}

/// The end of bytes that are a text.
fn end_of(bytes: &[u8]) -> Place
    ensures offset { result.offset ≡ length bytes.now }
    ensures expected { result.expected ≡ what.End }
{
    Place {
        offset: bytes.len(),
        expected: Expected::End,
    }
}

/// Bytes are accepted by the walk of [`first_place`] if and only if they are a prefix of a JSON
/// text at the same level: bytes that it accepts have a continuation that is a text (`there`), and
/// bytes that it rejects have none (`back`).
///
/// An allocator makes the value, and its strings and lists have fewer than 2⁶³ bytes or items, as a
/// slice has. So the bytes of `there` are fewer than 2⁶¹.
///
/// ```
/// use format_json_pieces::place::prefixes_are_those_of_texts;
/// use std::alloc::Allocator;
///
/// fn of_an_allocator<A: Allocator>() {
///     prefixes_are_those_of_texts::<A>();
/// }
/// ```
pub fn prefixes_are_those_of_texts<A: Allocator>()
    ensures there { (alloc : A) (level : ℕ) (bytes : List ℕ) → length bytes < 2 ^ 61
        → IsViableText level bytes → BeginsText A level bytes }
    ensures back { (level : ℕ) (bytes : List ℕ) → BeginsText A level bytes
        → IsViableText level bytes }
{}

/// The bytes before the offset of [`first_place`] are the longest prefix that is one of a JSON text
/// at the level: some text starts with them, and none with these and the next byte.
///
/// ```
/// use format_json_pieces::place::places_are_ends_of_longest_prefixes;
/// use std::alloc::Allocator;
///
/// fn of_an_allocator<A: Allocator>() {
///     places_are_ends_of_longest_prefixes::<A>();
/// }
/// ```
pub fn places_are_ends_of_longest_prefixes<A: Allocator>()
    ensures { (alloc : A) (level : ℕ) (bytes : List ℕ) (offset : ℕ) (expected : Expected)
        → length bytes < 2 ^ 61 → IsPlace level bytes offset expected
        → IsLongestPrefix A level bytes offset }
{}
