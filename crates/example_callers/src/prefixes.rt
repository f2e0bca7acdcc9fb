//! Callers of the laws of prefixes: the prefixes of numbers, signs, times and lists of numbers, and
//! the first invalid byte.
#![tactic(auto)]

ghost use Rattle.example_callers.specs.Prefixes.{IsDigitOr, IsListPrefix, IsMarkedPrefix};
ghost use Rattle.example_callers.specs.Prefixes.{IsTimePrefix, NumbersText, SignText};
ghost use Rattle.example_callers.specs.Times.{Digits, MarkedText, TimeText};
ghost use Rattle.winnow.specs.Prefixes.{IsFirstInvalid, IsPrefixOf, IsPrefixOfMatch};
ghost use Rattle.std.specs.Borrow.{Bor};
ghost use Rattle.std.specs.List.{All};
ghost use Rattle.std.specs.Prelude.{◌≡◌, ◌⊎◌, ◌↔◌, ℕ, List, [], ◌∷◌, ◌++◌};
ghost use Rattle.winnow.specs.AsChar.{IsDecDigit};
ghost use Rattle.winnow.specs.Counted.{counted_reading};
ghost use Rattle.winnow.specs.Grammar.{Class};
ghost use Rattle.winnow.specs.Texts.{Itself, MadeText, NotFirst, OptionalText};

use winnow::laws::{
    Format, Matches, TokenClass, first_invalid_after_tokens, first_invalid_in_choices,
    first_invalid_in_repetitions, first_invalid_in_sequences, prefixes_of_choices,
    prefixes_of_grammars, prefixes_of_mapped_outputs, prefixes_of_repetitions,
    prefixes_of_sequences, prefixes_of_tokens, the_first_invalid_token_is_unique,
};

/// Slices of bytes, as clauses name them.
type Bytes = &'static [u8];

/// One or more digits.
struct Number;

impl Format<u8, Bytes> for Number {
    ghost text = { Digits };
}

impl TokenClass<u8, Bytes> for Number {
    ghost members = { IsDecDigit };

    ghost reading = { counted_reading };
}

impl Matches<u8, Bytes> for Number {
    ghost grammar = { Class IsDecDigit 1 (λ b. b) (λ b. b) counted_reading };

    ghost follow = { NotFirst IsDecDigit };
}

/// The byte `B`.
struct Mark<const B: u8>;

impl<const B: u8> Format<u8, u8> for Mark<B> {
    ghost text = { Itself B };
}

/// The byte `B` and digits.
struct Marked<const B: u8>;

impl<const B: u8> Format<u8, Bytes> for Marked<B> {
    ghost text = { MarkedText B };
}

/// A plus or a minus.
struct Sign;

impl Format<u8, u8> for Sign {
    ghost text = { SignText };
}

/// A time such as `12:30`.
struct Time;

impl Format<u8, (Bytes, Bytes)> for Time {
    ghost text = { TimeText };
}

/// States that the prefixes of a number are digits, possibly none. The same holds if a value is
/// computed from the number, and for the grammar of [`Digit1`](winnow::ascii::impls::Digit1). The
/// first byte that is not a digit is the first invalid byte.
pub fn number_prefixes()
    ensures prefixes { (front : List ℕ) → IsPrefixOf Digits front ↔ All IsDecDigit front }
    ensures mapped { (value : Bor (List ℕ) → ℕ) (front : List ℕ)
        → IsPrefixOf (MadeText (λ f digits n. n ≡ f digits) value Digits) front
        ↔ All IsDecDigit front }
    ensures matched { (front : List ℕ)
        → IsPrefixOfMatch (Class IsDecDigit 1 (λ b. b) (λ b. b) counted_reading) front
        ↔ All IsDecDigit front }
    ensures invalid { (front rest : List ℕ) → All IsDecDigit front → NotFirst IsDecDigit rest
        → IsFirstInvalid Digits (front ++ rest) front rest }
{
    prefixes_of_tokens::<u8, Bytes, u8, u8, Number>();
    prefixes_of_mapped_outputs::<u8, Bytes, u32, Number>();
    prefixes_of_grammars::<u8, Bytes, Number, Number>();
    first_invalid_after_tokens::<u8, Bytes, Number>();
}

/// States that an optional sign has three prefixes: no bytes, a plus and a minus. Another first
/// byte is invalid, and so is each byte after a plus.
pub fn sign_prefixes()
    ensures prefixes { (front : List ℕ) → IsPrefixOf (OptionalText SignText) front
        ↔ ((front ≡ []) ⊎ ((front ≡ 43 ∷ []) ⊎ (front ≡ 45 ∷ []))) }
    ensures other { (tokens : List ℕ) → NotFirst (λ t. (t ≡ 43) ⊎ (t ≡ 45)) tokens
        → IsFirstInvalid (OptionalText SignText) tokens [] tokens }
    ensures after { (rest : List ℕ)
        → IsFirstInvalid (OptionalText SignText) (43 ∷ rest) (43 ∷ []) rest }
{
    prefixes_of_tokens::<u8, Bytes, u8, u8, Number>();
    prefixes_of_choices::<u8, u8, Mark<43>, Mark<45>>();
    prefixes_of_choices::<u8, u8, Sign, Sign>();
    first_invalid_after_tokens::<u8, Bytes, Number>();
    first_invalid_in_choices::<u8, u8, Mark<43>, Mark<45>>();
    first_invalid_in_choices::<u8, u8, Sign, Sign>();
}

/// States that the prefixes of the byte `B` with digits after it are no bytes, and `B` followed by
/// digits, possibly none. Another first byte is invalid.
fn marked_prefixes<const B: u8>()
    ensures prefixes { (front : List ℕ) → IsPrefixOf (MarkedText B) front ↔ IsMarkedPrefix B front }
    ensures other { (tokens : List ℕ) → NotFirst (λ t. t ≡ B) tokens
        → IsFirstInvalid (MarkedText B) tokens [] tokens }
{
    number_prefixes();
    prefixes_of_tokens::<u8, Bytes, u8, u8, Number>();
    prefixes_of_sequences::<u8, u8, Bytes, u8, u8, Bytes, Mark<B>, Number, Mark<B>>();
    first_invalid_after_tokens::<u8, Bytes, Number>();
    first_invalid_in_sequences::<u8, u8, Bytes, Bytes, Mark<B>, Number>();
}

/// States that the prefixes of a time are digits, possibly none, and one or more digits followed
/// by a colon and digits, possibly none. A byte after the first digits that is neither a digit nor
/// a colon is the first invalid byte, and no other byte is.
pub fn time_prefixes()
    ensures prefixes { (front : List ℕ) → IsPrefixOf TimeText front ↔ IsTimePrefix front }
    ensures invalid { (front rest : List ℕ) → All IsDecDigit front → NotFirst (IsDigitOr 58) rest
        → IsFirstInvalid TimeText (front ++ rest) front rest }
    ensures only { (front rest other end : List ℕ) → All IsDecDigit front
        → NotFirst (IsDigitOr 58) rest → IsFirstInvalid TimeText (front ++ rest) other end
        → end ≡ rest }
{
    number_prefixes();
    marked_prefixes::<58>();
    prefixes_of_sequences::<
        u8,
        Bytes,
        Bytes,
        u8,
        u8,
        (Bytes, Bytes),
        Number,
        Marked<58>,
        Mark<58>,
    >();
    first_invalid_in_sequences::<u8, Bytes, Bytes, (Bytes, Bytes), Number, Marked<58>>();
    the_first_invalid_token_is_unique::<u8, (Bytes, Bytes), Time>();
}

/// States that the prefixes of a list of numbers with commas between them are such lists, and
/// lists of at least one number followed by a comma. A byte after the first digits that is neither
/// a digit nor a comma is the first invalid byte.
pub fn list_prefixes()
    ensures prefixes { (front : List ℕ) → IsPrefixOf NumbersText front ↔ IsListPrefix front }
    ensures invalid { (front rest : List ℕ) → All IsDecDigit front → NotFirst (IsDigitOr 44) rest
        → IsFirstInvalid NumbersText (front ++ rest) front rest }
{
    number_prefixes();
    marked_prefixes::<44>();
    prefixes_of_repetitions::<u8, Bytes, u8, Number, Mark<44>>();
    prefixes_of_repetitions::<u8, Bytes, u8, Marked<44>, Mark<44>>();
    first_invalid_in_repetitions::<u8, Bytes, u8, Number, Mark<44>>();
    first_invalid_in_repetitions::<u8, Bytes, u8, Marked<44>, Mark<44>>();
}
