//! Writing values and parsing them back.

ghost use Rattle.format_json_texts.specs.Values.{JsonText, ValueText};
ghost use Rattle.format_json_texts.specs.declared.value.Value.{Value};
ghost use Rattle.format_json_writer.specs.Alike.{AreAlike};
ghost use Rattle.std.specs.Prelude.{List, ℕ};
ghost use Rattle.stream_sets.specs.Accumulator.Holds.{HasCharacters};

use std::alloc::Allocator;

/// A value that is parsed from the encoding of a value is equivalent to it: its words, numbers,
/// strings, lists and names are the same, in the same order. The clause `text` of
/// [`to_text`](crate::value::to_text) states that a text encodes the value, and that of
/// [`parse_value`](format_json_values::value::parse_value) that a value is parsed from it. So
/// [`reads_back`](crate::value::reads_back), which calls both, returns an equivalent value.
///
/// ```
/// use format_json_writer::laws::what_is_written_reads_back_alike;
/// use std::alloc::Allocator;
///
/// fn of_an_allocator<A: Allocator>() {
///     what_is_written_reads_back_alike::<A>();
/// }
/// ```
pub fn what_is_written_reads_back_alike<A: Allocator>()
    ensures { (level : ℕ) (written read : Value A) (text : List ℕ)
        → ValueText HasCharacters level written text → JsonText HasCharacters level read text
        → AreAlike level written read }
{}
