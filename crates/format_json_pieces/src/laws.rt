//! Laws that relate the scanner of [`extent`](crate::extent) to the values of RFC 8259.
ghost use Rattle.format_json_pieces.specs.Extents.{Begins, EndsBefore};
ghost use Rattle.format_json_pieces.specs.Value.{BeginsValue, IsNextOrNone};
ghost use Rattle.format_json_pieces.specs.declared.begun.Mode.TheVariants as modes;
ghost use Rattle.format_json_texts.specs.declared.value.Value.{Value};
ghost use Rattle.std.specs.Prelude.{◌≡◌, ◌<◌, ◌^◌, ◌++◌, ◌∷◌, ℕ, List, Some, [], length};

use std::alloc::Allocator;

/// The scanner finds each value: if bytes start with a value, perhaps after whitespace, it stops at
/// the value's end, at the latest before a space that follows the bytes. At the end of complete
/// input [`ValueExtent::finish`](crate::extent::ValueExtent::finish) stops as before a space.
///
/// ```
/// use format_json_pieces::laws::each_value_is_found;
/// use std::alloc::Allocator;
///
/// fn of_an_allocator<A: Allocator>() {
///     each_value_is_found::<A>();
/// }
/// ```
pub fn each_value_is_found<A: Allocator>()
    ensures { (level : ℕ) (bytes : List ℕ) (v : Value A) (rest : List ℕ)
        → IsNextOrNone level bytes (Some v) rest
        → EndsBefore level modes.Value [] (bytes ++ 32 ∷ []) (rest ++ 32 ∷ []) }
{}

/// No value ends elsewhere: if the scanner stops before `rest`, each value that the bytes or a
/// continuation start with, perhaps after whitespace, ends there.
///
/// ```
/// use format_json_pieces::laws::no_value_ends_elsewhere;
/// use std::alloc::Allocator;
///
/// fn of_an_allocator<A: Allocator>() {
///     no_value_ends_elsewhere::<A>();
/// }
/// ```
pub fn no_value_ends_elsewhere<A: Allocator>()
    ensures { (level : ℕ) (bytes rest more : List ℕ)
        → EndsBefore level modes.Value [] bytes rest → (v : Value A) (other : List ℕ)
        → IsNextOrNone level (bytes ++ more) (Some v) other → other ≡ rest ++ more }
{}

/// All that the scanner finds is a value: if it stops before `rest`, the bytes before are
/// whitespace and the UTF-8 of a value by RFC 8259, which ends there.
///
/// An allocator makes the value, and its strings and lists have fewer than 2⁶³ bytes or items, as a
/// slice has.
///
/// ```
/// use format_json_pieces::laws::what_is_found_is_a_value;
/// use std::alloc::Allocator;
///
/// fn of_an_allocator<A: Allocator>() {
///     what_is_found_is_a_value::<A>();
/// }
/// ```
pub fn what_is_found_is_a_value<A: Allocator>()
    ensures { (alloc : A) (level : ℕ) (bytes rest : List ℕ) → length bytes < 2 ^ 63
        → EndsBefore level modes.Value [] bytes rest
        → (v : Value A) × IsNextOrNone level bytes (Some v) rest }
{}

/// Bytes are accepted by the scanner if and only if they are a prefix of bytes that start with a
/// value, perhaps after whitespace. So the bytes before an error can continue to a value
/// (`there`), and with the byte there they cannot, regardless of what follows (`back`).
///
/// As in [`what_is_found_is_a_value`], an allocator makes the value. So the bytes of `there` are
/// fewer than 2⁶¹.
///
/// ```
/// use format_json_pieces::laws::prefixes_are_those_of_values;
/// use std::alloc::Allocator;
///
/// fn of_an_allocator<A: Allocator>() {
///     prefixes_are_those_of_values::<A>();
/// }
/// ```
pub fn prefixes_are_those_of_values<A: Allocator>()
    ensures there { (alloc : A) (level : ℕ) (bytes : List ℕ) → length bytes < 2 ^ 61
        → Begins level bytes → BeginsValue A level bytes }
    ensures back { (level : ℕ) (bytes : List ℕ) → BeginsValue A level bytes
        → Begins level bytes }
{}
