//! Laws of the first invalid token: no encoding continues with it what comes before
//! (`IsFirstInvalid`).
//!
//! A part is *complete* at a token if the tokens before it are an encoding. It is *delimited* by
//! the next part if no token that continues an encoding of it starts one of the next
//! (`IsDelimitedBy`).
ghost use Rattle.std.specs.Prelude.{◌≡◌, ◌≤◌, ℕ, List, [], ◌∷◌, ◌++◌, length};
ghost use Rattle.std.specs.List.{All};
ghost use Rattle.grammars.specs.Prefixes.{IsDelimitedBy, IsFirstInvalid, IsNonempty};
ghost use Rattle.grammars.specs.Prefixes.Rows.{NextText};
ghost use Rattle.grammars.specs.Texts.{AtLeast, BothText, EachText, EitherText, Itself, Members};
ghost use Rattle.grammars.specs.Texts.{NotFirst, OptionalText, PartedText};

use crate::laws::{Format, TokenClass};

/// At most one token is the first invalid one.
///
/// ```
/// use grammars::laws::Format;
/// use grammars::laws::first::the_first_invalid_token_is_unique;
///
/// fn of_a_format<A: Format<u8, u8>>() {
///     the_first_invalid_token_is_unique::<u8, u8, A>();
/// }
/// ```
pub fn the_first_invalid_token_is_unique<T, O, A: Format<T, O>>()
    ensures { (tokens front rest other end : List T) → IsFirstInvalid A.text tokens front rest
        → IsFirstInvalid A.text tokens other end → rest ≡ end }
{}

/// Another token than the one of the format is invalid, and so is every token after it. After a
/// run of tokens of a class, the first that is not in it is invalid.
///
/// ```
/// use grammars::laws::TokenClass;
/// use grammars::laws::first::first_invalid_after_tokens;
///
/// fn of_a_class<S: TokenClass<u8, u8>>() {
///     first_invalid_after_tokens::<u8, u8, S>();
/// }
/// ```
pub fn first_invalid_after_tokens<T, L, S: TokenClass<T, L>>()
    ensures other { (x : T) (tokens : List T) → ((more : List T) → tokens ≡ x ∷ more → ⊥)
        → IsFirstInvalid (Itself x) tokens [] tokens }
    ensures same { (x : T) (rest : List T) → IsFirstInvalid (Itself x) (x ∷ rest) (x ∷ []) rest }
    ensures run { (least : ℕ) (tokens front rest : List T)
        → ((xs : List T) → (slice : L) × S.reading.shows slice xs) → (t : T) × S.members t
        → All S.members front → tokens ≡ front ++ rest → NotFirst S.members rest
        → IsFirstInvalid (Members S.reading S.members least) tokens front rest }
{}

/// If the first part of a sequence is not complete at its first invalid token, this is that of the
/// sequence. Otherwise the first invalid token of the second part after it is.
///
/// ```
/// use grammars::laws::Format;
/// use grammars::laws::first::first_invalid_in_sequences;
///
/// fn of_parts<A: Format<u8, u8>, B: Format<u8, u8>>() {
///     first_invalid_in_sequences::<u8, u8, u8, u8, A, B>();
/// }
/// ```
pub fn first_invalid_in_sequences<T, O1, O2, O, A: Format<T, O1>, B: Format<T, O2>>()
    ensures first { (output : O1 → O2 → O) → IsDelimitedBy A.text B.text → IsNonempty B.text
        → (tokens front rest : List T) → IsFirstInvalid A.text tokens front rest
        → ((o : O1) → A.text o front → ⊥)
        → IsFirstInvalid (BothText output A.text B.text) tokens front rest }
    ensures second { (output : O1 → O2 → O) → IsDelimitedBy A.text B.text
        → (tokens front mid more rest : List T) (o : O1) → A.text o front
        → IsFirstInvalid A.text tokens front mid → IsFirstInvalid B.text mid more rest
        → IsFirstInvalid (BothText output A.text B.text) tokens (front ++ more) rest }
{}

/// The first invalid token of a choice is the later one of its branches. That of an option is the
/// one of its part.
///
/// ```
/// use grammars::laws::Format;
/// use grammars::laws::first::first_invalid_in_choices;
///
/// fn of_branches<A: Format<u8, u8>, B: Format<u8, u8>>() {
///     first_invalid_in_choices::<u8, u8, A, B>();
/// }
/// ```
pub fn first_invalid_in_choices<T, O, A: Format<T, O>, B: Format<T, O>>()
    ensures second { (tokens front rest other end : List T)
        → IsFirstInvalid A.text tokens front rest → IsFirstInvalid B.text tokens other end
        → length front ≤ length other
        → IsFirstInvalid (EitherText A.text B.text) tokens other end }
    ensures first { (tokens front rest other end : List T)
        → IsFirstInvalid A.text tokens front rest → IsFirstInvalid B.text tokens other end
        → length other ≤ length front
        → IsFirstInvalid (EitherText A.text B.text) tokens front rest }
    ensures option { (tokens front rest : List T) → IsFirstInvalid A.text tokens front rest
        → IsFirstInvalid (OptionalText A.text) tokens front rest }
{}

/// If the first element of a repetition is not complete at its first invalid token, this is that of
/// the repetition. Otherwise the first invalid token of the other elements is. Likewise for lists
/// with separators. A repetition that may be empty has the first invalid token of one that may not.
/// Without tokens none is invalid.
///
/// ```
/// use grammars::laws::Format;
/// use grammars::laws::first::first_invalid_in_repetitions;
///
/// fn of_elements<A: Format<u8, u8>, S: Format<u8, u8>>() {
///     first_invalid_in_repetitions::<u8, u8, u8, A, S>();
/// }
/// ```
pub fn first_invalid_in_repetitions<T, O, D, A: Format<T, O>, S: Format<T, D>>()
    ensures first { IsDelimitedBy A.text A.text → (tokens front rest : List T)
        → IsFirstInvalid A.text tokens front rest → ((o : O) → A.text o front → ⊥)
        → IsFirstInvalid (AtLeast 1 (EachText A.text)) tokens front rest }
    ensures others { IsDelimitedBy A.text A.text → (tokens front mid more rest : List T) (o : O)
        → A.text o front → IsFirstInvalid A.text tokens front mid
        → IsFirstInvalid (EachText A.text) mid more rest
        → IsFirstInvalid (AtLeast 1 (EachText A.text)) tokens (front ++ more) rest }
    ensures any { (tokens front rest : List T)
        → IsFirstInvalid (AtLeast 1 (EachText A.text)) tokens front rest
        → IsFirstInvalid (EachText A.text) tokens front rest }
    ensures none { IsFirstInvalid (EachText A.text) [] [] [] }
    ensures separated { IsDelimitedBy A.text (NextText S.text A.text)
        → (tokens front rest : List T) → IsFirstInvalid A.text tokens front rest
        → ((o : O) → A.text o front → ⊥)
        → IsFirstInvalid (AtLeast 1 (PartedText S.text A.text)) tokens front rest }
    ensures others_separated { IsDelimitedBy A.text (NextText S.text A.text)
        → (tokens front mid more rest : List T) (o : O) → A.text o front
        → IsFirstInvalid A.text tokens front mid
        → IsFirstInvalid (EachText (NextText S.text A.text)) mid more rest
        → IsFirstInvalid (AtLeast 1 (PartedText S.text A.text)) tokens (front ++ more) rest }
    ensures any_separated { (tokens front rest : List T)
        → IsFirstInvalid (AtLeast 1 (PartedText S.text A.text)) tokens front rest
        → IsFirstInvalid (PartedText S.text A.text) tokens front rest }
{}
