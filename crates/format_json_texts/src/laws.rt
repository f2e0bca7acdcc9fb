//! Laws of the grammars of JSON: what stands by them is what RFC 8259 writes. Laws of decimals.

ghost use Rattle.format_json_texts.specs.Number.{ContinuesNumber, Number, NumberText};
ghost use Rattle.format_json_texts.specs.Strings.{Quoted, StringText};
ghost use Rattle.format_json_texts.specs.Values.{Json, JsonText};
ghost use Rattle.format_json_texts.specs.Values.Texts.{Ended};
ghost use Rattle.std.specs.Prelude.{◌≡◌, ◌↔◌, ℕ, Bool, ℤ};
ghost use Rattle.stream_sets.specs.Accumulator.Holds.{HasCharacters};
ghost use Rattle.grammars.specs.Texts.{Anything, IsGrammarOf, NotFirst};
ghost use Rattle.format_json_texts.specs.Decimals.{AreEqual, IsDecimal};
ghost use Rattle.format_json_texts.specs.NumberParts.{coefficient, scale};
ghost use Rattle.format_json_texts.specs.NumberParts as parts;

use std::alloc::Allocator;

/// A match of the grammar of numbers is a number of RFC 8259 (section 6). Such a number matches
/// wherever neither a digit, nor a point, nor an `e` or `E` follows it.
///
/// ```
/// use format_json_texts::laws::numbers_are_those_of_the_standard;
///
/// numbers_are_those_of_the_standard();
/// ```
pub fn numbers_are_those_of_the_standard()
    ensures { IsGrammarOf Number NumberText (NotFirst ContinuesNumber) }
{}

/// A match of the grammar of strings is a string of RFC 8259 (section 7), for an output that holds
/// its characters with their escapes undone. Such a string matches, regardless of what follows it.
/// An escaped surrogate denotes no character unless it is one of a pair. So a text with an unpaired
/// one is not a string, although the grammar of the standard accepts it (section 8.2).
///
/// ```
/// use format_json_texts::laws::strings_are_those_of_the_standard;
/// use std::alloc::Allocator;
///
/// fn of_an_allocator<A: Allocator>() {
///     strings_are_those_of_the_standard::<A>();
/// }
/// ```
pub fn strings_are_those_of_the_standard<A: Allocator>()
    ensures { IsGrammarOf (Quoted {A = A} HasCharacters) (StringText HasCharacters) Anything }
{}

/// A match of the grammar of JSON texts is such a text by RFC 8259 (section 2), whose arrays and
/// objects are nested at most `level` deep. Such a text matches wherever neither whitespace follows
/// it, nor a character that can continue a number.
///
/// ```
/// use format_json_texts::laws::nested_values_are_those_of_the_standard;
/// use std::alloc::Allocator;
///
/// fn of_an_allocator<A: Allocator>() {
///     nested_values_are_those_of_the_standard::<A>();
/// }
/// ```
pub fn nested_values_are_those_of_the_standard<A: Allocator>()
    ensures { (level : ℕ) → IsGrammarOf (Json {A = A} HasCharacters level)
        (JsonText HasCharacters level) Ended }
{}

/// A number has one decimal, whether it fits or not. So if
/// [`as_decimal`](crate::decimal::as_decimal) fails for a number, no sign, digits and power that
/// fit are a decimal of it.
///
/// ```
/// use format_json_texts::laws::each_number_has_one_decimal;
///
/// each_number_has_one_decimal();
/// ```
pub fn each_number_has_one_decimal()
    ensures { (n : parts.Number) (negative sign : Bool) (digits others : ℕ) (exponent power : ℤ)
        → IsDecimal n negative digits exponent → IsDecimal n sign others power
        → (negative ≡ sign) × (digits ≡ others) × (exponent ≡ power) }
{}

/// Two numbers are equal if and only if they have the same decimal: `1.50e3` and `1500` do.
///
/// ```
/// use format_json_texts::laws::equal_numbers_have_the_same_decimal;
///
/// equal_numbers_have_the_same_decimal();
/// ```
pub fn equal_numbers_have_the_same_decimal()
    ensures { (n m : parts.Number) (negative sign : Bool) (digits others : ℕ) (exponent power : ℤ)
        → IsDecimal n negative digits exponent → IsDecimal m sign others power
        → AreEqual (coefficient n) (scale n) (coefficient m) (scale m)
        ↔ (negative ≡ sign) × (digits ≡ others) × (exponent ≡ power) }
{}
