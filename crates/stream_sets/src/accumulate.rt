//! Accumulators of the outputs of a repetition.
ghost use Rattle.std.specs.BTreeMap.{IsEmpty};
ghost use Rattle.std.specs.Prelude.{List, ◌≡◌, [], MatchResult, string_bytes, ⊤};
ghost use Rattle.stream_sets.specs.Accumulator.{Accumulator, Wants, characters_kept, entries_kept};
ghost use Rattle.stream_sets.specs.Accumulator.{list_kept, nothing_kept, nothing_wants};
ghost use Rattle.stream_sets.specs.Accumulator.{number_kept, number_wants, slices_kept};
ghost use Rattle.stream_sets.specs.Accumulator.{texts_kept};
ghost use Rattle.stream_sets.specs.Accumulator.Holds.{Holds, HasCharacters, HasEntries, HasNumber};
ghost use Rattle.stream_sets.specs.Accumulator.Holds.{HasItems, HasTexts, characters_hold};
ghost use Rattle.stream_sets.specs.Accumulator.Holds.{entries_hold, items_hold, list_holds};
ghost use Rattle.stream_sets.specs.Accumulator.Holds.{nothing_holds, number_holds, texts_hold};

use std::alloc::{AllocError, Allocator};
use std::collections::BTreeMap;

/// An accumulator of the outputs of a repetition: nothing, a number, a list, a text or a map. `A`
/// is the allocator that it is made with.
///
/// ```
/// use std::alloc::{AllocError, Global};
///
/// let list: Result<Vec<u8>, AllocError> = Accumulate::<u8, Global>::initial(alloc, None);
/// assert!(rt; matches!(list, Ok(list) if list.is_empty()));
/// ```
pub trait Accumulate<O, A>: Drop {
    // The empty ones, how one takes an output, and when a request for memory may be refused.
    ghost accumulator: { Accumulator Self O };

    // The outputs that it took since it was empty.
    ghost holds: { Self → List O → Type 0 };

    // The condition under which it does not allocate.
    ghost spares_memory: { Type 0 };

    /// Returns an empty accumulator, for `capacity` outputs if that is known. Fails only if an
    /// allocation fails.
    fn initial(alloc: A, capacity: Option<usize>) -> Result<Self, AllocError>
    where
        Self: Sized,
        ensures { MatchResult result (accumulator.starts capacity)
            (λ _. accumulator.start_grows capacity) };

    /// Adds one output. Fails only if an allocation fails.
    fn accumulate(&mut self, output: O) -> Result<(), AllocError>
        ensures { MatchResult result (λ _. accumulator.takes self.old output self.new)
            (λ _. accumulator.grows self.old output) };

    // It took these.
    ghost gathers: { Holds accumulator holds };

    // Under this condition it never fails.
    ghost never_wants: { spares_memory → Wants accumulator → ⊥ };
}

/// Nothing is kept, and no memory is taken.
impl<O: Drop, A: Drop> Accumulate<O, A> for () {
    ghost accumulator = { nothing_kept };

    ghost holds = { λ _ _. ⊤ };

    ghost gathers = { nothing_holds };

    ghost spares_memory = { ⊤ };

    ghost never_wants = { λ spares. nothing_wants };

    #[inline(always)]
    fn initial(_alloc: A, _capacity: Option<usize>) -> Result<(), AllocError>
        ensures { MatchResult result (λ _. ⊤) (λ _. ⊥) }
    {
        Ok(())
    }

    #[inline(always)]
    fn accumulate(&mut self, _output: O) -> Result<(), AllocError> {
        Ok(())
    }
}

/// A list to whose end the outputs are put. An empty one takes no memory.
impl<O: Drop, A: Allocator> Accumulate<O, A> for Vec<O, A> {
    ghost accumulator = { list_kept };

    ghost holds = { λ list os. list.items ≡ os };

    ghost gathers = { list_holds };

    ghost spares_memory = { ⊥ };

    ghost never_wants = { λ never. absurd never };

    #[inline(always)]
    fn initial(alloc: A, _capacity: Option<usize>) -> Result<Vec<O, A>, AllocError>
        ensures { MatchResult result (λ list. list.items ≡ []) (λ _. ⊥) }
    {
        Ok(Vec::new(alloc))
    }

    #[inline(always)]
    fn accumulate(&mut self, output: O) -> Result<(), AllocError> {
        self.push(output)?;
        Ok(())
    }
}

/// A list to whose end the items of the slices are copied. An empty one takes no memory; a longer
/// one allocates only if it has no room for a slice.
///
/// ```
/// let list: Result<Vec<u8>, EmptyError> =
///     separated(alloc, Range::from(0..), Digit1, b',').parse_next(&mut b"1,23".as_slice());
/// assert!(rt; matches!(list, Ok(list) if list.as_slice() == b"123".as_slice()));
/// ```
impl<'i, T: Copy + Drop, A: Allocator> Accumulate<&'i [T], A> for Vec<T, A> {
    ghost accumulator = { slices_kept };

    ghost holds = { HasItems };

    ghost gathers = { items_hold };

    ghost spares_memory = { ⊥ };

    ghost never_wants = { λ never. absurd never };

    #[inline(always)]
    fn initial(alloc: A, _capacity: Option<usize>) -> Result<Vec<T, A>, AllocError>
        ensures { MatchResult result (λ list. list.items ≡ []) (λ _. ⊥) }
    {
        Ok(Vec::new(alloc))
    }

    #[inline(always)]
    fn accumulate(&mut self, output: &'i [T]) -> Result<(), AllocError> {
        self.extend_from_slice(output)
    }
}

/// The number of the outputs, which stays at the greatest `usize`. No memory is taken.
///
/// ```
/// let number: Result<usize, EmptyError> =
///     repeat(alloc, Range::from(0..), Any).parse_next(&mut "abc");
/// assert_eq!(rt; number, Ok(3));
/// ```
impl<O: Drop, A: Drop> Accumulate<O, A> for usize {
    ghost accumulator = { number_kept };

    ghost holds = { HasNumber };

    ghost gathers = { number_holds };

    ghost spares_memory = { ⊤ };

    ghost never_wants = { λ spares. number_wants };

    #[inline(always)]
    fn initial(_alloc: A, _capacity: Option<usize>) -> Result<usize, AllocError>
        ensures { MatchResult result (λ number. number ≡ 0) (λ _. ⊥) }
    {
        Ok(0)
    }

    #[inline(always)]
    fn accumulate(&mut self, _output: O) -> Result<(), AllocError> {
        *self = self.saturating_add(1);
        Ok(())
    }
}

/// An empty text, with room for `capacity` bytes if that is given and can be allocated.
#[inline(always)]
fn text_with_room<A: Allocator>(alloc: A, capacity: Option<usize>) -> String<A>
    ensures { string_bytes result ≡ [] }
{
    let mut text = String::new(alloc);
    if let Some(room) = capacity {
        let _refused = text.reserve(room).is_err();
    }
    text
}

/// A text to which the characters are appended. An empty one has room for `capacity` bytes, if that
/// is given and can be allocated; a longer one allocates only if it has no room for a character.
///
/// ```
/// let text: Result<String, EmptyError> =
///     repeat(alloc, Range::from(0..), Any).parse_next(&mut "abc");
/// assert!(rt; matches!(text, Ok(text) if text.as_str() == "abc"));
/// ```
impl<A: Allocator> Accumulate<char, A> for String<A> {
    ghost accumulator = { characters_kept };

    ghost holds = { HasCharacters };

    ghost gathers = { characters_hold };

    ghost spares_memory = { ⊥ };

    ghost never_wants = { λ never. absurd never };

    #[inline(always)]
    fn initial(alloc: A, capacity: Option<usize>) -> Result<String<A>, AllocError>
        ensures { MatchResult result (λ text. string_bytes text ≡ []) (λ _. ⊥) }
    {
        Ok(text_with_room(alloc, capacity))
    }

    #[inline(always)]
    fn accumulate(&mut self, output: char) -> Result<(), AllocError> {
        self.push(output)
    }
}

/// A text to which the texts are appended. An empty one has room for `capacity` bytes, if that is
/// given and can be allocated; a longer one allocates only if it has no room for a text.
///
/// ```
/// let text: Result<String, EmptyError> =
///     separated(alloc, Range::from(0..), Digit1, ',').parse_next(&mut "1,23");
/// assert!(rt; matches!(text, Ok(text) if text.as_str() == "123"));
/// ```
impl<'i, A: Allocator> Accumulate<&'i str, A> for String<A> {
    ghost accumulator = { texts_kept };

    ghost holds = { HasTexts };

    ghost gathers = { texts_hold };

    ghost spares_memory = { ⊥ };

    ghost never_wants = { λ never. absurd never };

    #[inline(always)]
    fn initial(alloc: A, capacity: Option<usize>) -> Result<String<A>, AllocError>
        ensures { MatchResult result (λ text. string_bytes text ≡ []) (λ _. ⊥) }
    {
        Ok(text_with_room(alloc, capacity))
    }

    #[inline(always)]
    fn accumulate(&mut self, output: &'i str) -> Result<(), AllocError> {
        self.push_str(output)
    }
}

/// A map into which the pairs of a key and a value are inserted. It has the last value of a key,
/// with the first of its equal keys. An empty one does not allocate; a larger one allocates only
/// for a new key.
///
/// ```
/// use std::collections::BTreeMap;
///
/// let map: Result<BTreeMap<char, char>, EmptyError> =
///     repeat(alloc, Range::from(0..), (Any, Any)).parse_next(&mut "a1b2a3");
/// assert!(rt; matches!(map, Ok(map) if map.get(&'a') == Some(&'3') && map.len() == 2));
/// ```
impl<K: Ord + Drop, V: Drop, A: Allocator + Clone> Accumulate<(K, V), A> for BTreeMap<K, V, A> {
    ghost accumulator = { entries_kept K.cmp };

    ghost holds = { HasEntries K.cmp };

    ghost gathers = { entries_hold K.total };

    ghost spares_memory = { ⊥ };

    ghost never_wants = { λ never. absurd never };

    #[inline(always)]
    fn initial(alloc: A, _capacity: Option<usize>) -> Result<BTreeMap<K, V, A>, AllocError>
        ensures { MatchResult result (λ map. IsEmpty map) (λ _. ⊥) }
    {
        Ok(BTreeMap::new(alloc))
    }

    #[inline(always)]
    fn accumulate(&mut self, output: (K, V)) -> Result<(), AllocError> {
        let (key, value) = output;
        let _before = self.insert(key, value)?;
        Ok(())
    }
}
