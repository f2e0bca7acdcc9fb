//! Laws of the texts that are found: they are those of RFC 8259, and have one list of nodes.

ghost use Rattle.format_json_texts.specs.NumberParts.{IsWritten, Number};
ghost use Rattle.format_json_extents.specs.Number.{IsNumber};
ghost use Rattle.format_json_extents.specs.StepLists.{InTurn, StepList, StepsOfText, StepsResult};
ghost use Rattle.format_json_extents.specs.Value.{IsText, IsValue};
ghost use Rattle.format_json_texts.specs.Values.{JsonText, ValueText};
ghost use Rattle.format_json_texts.specs.declared.value.Value.{Value};
ghost use Rattle.std.specs.Prelude.{◌<◌, ◌^◌, ◌↔◌, ◌≡◌, ℕ, List, length};
ghost use Rattle.std.specs.Str.{IsUtf8, chars};
ghost use Rattle.stream_sets.specs.Accumulator.Holds.{HasCharacters};
ghost use Rattle.format_json_extents.specs.Nodes.{NodesOfText};
ghost use Rattle.format_json_extents.specs.declared.node.JsonNode.{JsonNode};

use std::alloc::Allocator;

/// UTF-8 bytes are a value of this crate if and only if their characters encode one by RFC 8259, as
/// defined in `format_json_texts`, with the same limit of nesting. So the values that are found are
/// those that `format_json_values` and `format_json_pieces` parse.
///
/// An allocator makes the value, and its strings and lists have fewer than 2⁶³ bytes or items, as a
/// slice has.
///
/// ```
/// use format_json_extents::laws::values_are_those_of_the_standard;
/// use std::alloc::Allocator;
///
/// fn of_an_allocator<A: Allocator>() {
///     values_are_those_of_the_standard::<A>();
/// }
/// ```
pub fn values_are_those_of_the_standard<A: Allocator>()
    ensures { (alloc : A) (level : ℕ) (bytes : List ℕ) → IsUtf8 bytes → length bytes < 2 ^ 63
        → IsValue level bytes ↔ ((v : Value A) × ValueText HasCharacters level v (chars bytes)) }
{}

/// Like [`values_are_those_of_the_standard`], for JSON texts: a value with whitespace around it.
///
/// ```
/// use format_json_extents::laws::texts_are_those_of_the_standard;
/// use std::alloc::Allocator;
///
/// fn of_an_allocator<A: Allocator>() {
///     texts_are_those_of_the_standard::<A>();
/// }
/// ```
pub fn texts_are_those_of_the_standard<A: Allocator>()
    ensures { (alloc : A) (level : ℕ) (bytes : List ℕ) → IsUtf8 bytes → length bytes < 2 ^ 63
        → IsText level bytes ↔ ((v : Value A) × JsonText HasCharacters level v (chars bytes)) }
{}

/// The steps of a JSON text, by the grammar of values, are those that successive calls of
/// [`crate::steps::read_step`] return from its start. There is a list of them (`StepsOfText`), and
/// the steps of any successive calls are a prefix of it. They are the whole list if and only if
/// only whitespace remains. Otherwise one more step follows, which the next call returns.
///
/// ```
/// use format_json_extents::laws::steps_in_turn_are_those_of_the_text;
///
/// steps_in_turn_are_those_of_the_text();
/// ```
pub fn steps_in_turn_are_those_of_the_text()
    ensures { (level : ℕ) (bytes : List ℕ) → IsText level bytes
        → (told : StepList) × StepsOfText level told bytes
        × ((found : StepList) (rest : List ℕ) → InTurn bytes found rest
        → StepsResult told found rest) }
{}

/// The numbers of this crate are the texts that numbers in their parts are written as, so those of
/// which [`crate::decimal::as_decimal`] tells the decimal.
///
/// ```
/// use format_json_extents::laws::numbers_are_written_in_parts;
///
/// numbers_are_written_in_parts();
/// ```
pub fn numbers_are_written_in_parts()
    ensures { (text : List ℕ) → IsNumber text ↔ ((n : Number) × IsWritten text n) }
{}

/// A JSON text has one list of nodes by the grammar of values. So the text determines what
/// [`crate::nodes::write_nodes`] writes.
///
/// ```
/// use format_json_extents::laws::a_text_has_one_list_of_nodes;
///
/// a_text_has_one_list_of_nodes();
/// ```
pub fn a_text_has_one_list_of_nodes()
    ensures { (level : ℕ) (text : List ℕ) (one other : List JsonNode) → NodesOfText level one text
        → NodesOfText level other text → one ≡ other }
{}
