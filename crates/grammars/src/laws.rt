//! Laws of prefixes, by the parts of a format.
//!
//! A [`Format`] says which tokens encode which value. Tokens are a *prefix* if an encoding starts
//! with them (`IsPrefixOf`); it may have no more tokens.
ghost use Rattle.std.specs.Prelude.{◌≡◌, ◌⊎◌, ◌↔◌, ◌≤◌, ℕ, List, [], ◌∷◌, ◌++◌, length};
ghost use Rattle.std.specs.List.{All};
ghost use Rattle.streams.specs.Reading.{Reading};
ghost use Rattle.grammars.specs.Prefixes.{FollowedBy, IsNonempty, IsPrefixOf};
ghost use Rattle.grammars.specs.Prefixes.{IsPrefixOfMatch, NoneOr};
ghost use Rattle.grammars.specs.Prefixes.Parts.{InOneOfThree};
ghost use Rattle.grammars.specs.Prefixes.Rows.{NextText};
ghost use Rattle.grammars.specs.Grammar.{Grammar};
ghost use Rattle.grammars.specs.Texts.{AtLeast, BothText, EachText, EitherText, IsGrammarOf};
ghost use Rattle.grammars.specs.Texts.{MadeText, Members, OptionalText, PartedText, Spelled, Text};
ghost use Rattle.grammars.specs.Texts.{TokenOfText};

pub mod first;

/// A format of values of type `O`: which tokens encode which value.
///
/// ```
/// use grammars::laws::Format;
///
/// struct Comma;
///
/// impl Format<u8, u8> for Comma {
///     ghost text = { Itself 44 };
/// }
/// ```
pub trait Format<T, O> {
    // the encodings
    ghost text: { Text T O };
}

/// A grammar of values of type `O`, as parsers have it.
///
/// ```
/// use grammars::laws::Matches;
///
/// struct Comma;
///
/// impl Matches<u8, u8> for Comma {
///     ghost grammar = { Byte 44 };
///     ghost follow = { Anything };
/// }
/// ```
pub trait Matches<T, O> {
    // the grammar
    ghost grammar: { Grammar T O };

    // the tokens that may follow a match
    ghost follow: { List T → Type 0 };
}

/// A class of tokens, in streams with slices of type `L`.
///
/// ```
/// use grammars::laws::TokenClass;
///
/// struct Digits;
///
/// impl<'i> TokenClass<u8, &'i [u8]> for Digits {
///     ghost members = { IsDigit };
///     ghost reading = { counted_reading };
/// }
/// ```
pub trait TokenClass<T, L> {
    // the tokens of the class
    ghost members: { T → Type 0 };

    // how slices show tokens
    ghost reading: { Reading T L };
}

/// The prefixes of a literal are those of its tokens. Those of one token of a class are that token
/// and no tokens. Those of a run of a class are the runs of its tokens, if they are long enough or
/// the class has a token.
///
/// ```
/// use grammars::laws::{TokenClass, prefixes_of_tokens};
///
/// fn of_a_class<S: TokenClass<u8, u8>>() {
///     prefixes_of_tokens::<u8, u8, u8, u8, S>();
/// }
/// ```
pub fn prefixes_of_tokens<T, L, K, O, S: TokenClass<T, L>>()
    ensures literal { (xs : List T) (output : O) (front : List T)
        → IsPrefixOf (Spelled xs output) front ↔ ((more : List T) × (xs ≡ front ++ more)) }
    ensures one { (seen : K → T) (front : List T)
        → IsPrefixOf (TokenOfText seen (λ k. S.members (seen k))) front
        ↔ ((k : K) × S.members (seen k) × NoneOr (λ tokens. tokens ≡ seen k ∷ []) front) }
    ensures run { (least : ℕ) → ((xs : List T) → (slice : L) × S.reading.shows slice xs)
        → (front : List T) → IsPrefixOf (Members S.reading S.members least) front
        ↔ (All S.members front × ((least ≤ length front) ⊎ ((t : T) × S.members t))) }
{}

/// A prefix of a sequence is a prefix of its first part, if its second part has an encoding; or an
/// encoding of the first, followed by a prefix of the second. Likewise for three parts; longer
/// sequences are nested.
///
/// ```
/// use grammars::laws::{Format, prefixes_of_sequences};
///
/// fn of_parts<A: Format<u8, u8>, B: Format<u8, u8>, C: Format<u8, u8>>() {
///     prefixes_of_sequences::<u8, u8, u8, u8, u8, u8, A, B, C>();
/// }
/// ```
pub fn prefixes_of_sequences<
    T,
    O1,
    O2,
    O3,
    P,
    O,
    A: Format<T, O1>,
    B: Format<T, O2>,
    C: Format<T, O3>,
>()
    ensures two { (output : O1 → O2 → O) (front : List T)
        → IsPrefixOf (BothText output A.text B.text) front
        ↔ ((IsPrefixOf A.text front × IsNonempty B.text)
        ⊎ FollowedBy A.text (IsPrefixOf B.text) front) }
    ensures three { (outer : O1 → P → O) (inner : O2 → O3 → P) (front : List T)
        → IsPrefixOf (BothText outer A.text (BothText inner B.text C.text)) front
        ↔ InOneOfThree A.text B.text C.text front }
{}

/// A prefix of a choice is one of a branch. A prefix of an option is empty, or one of its part.
///
/// ```
/// use grammars::laws::{Format, prefixes_of_choices};
///
/// fn of_branches<A: Format<u8, u8>, B: Format<u8, u8>>() {
///     prefixes_of_choices::<u8, u8, A, B>();
/// }
/// ```
pub fn prefixes_of_choices<T, O, A: Format<T, O>, B: Format<T, O>>()
    ensures choice { (front : List T) → IsPrefixOf (EitherText A.text B.text) front
        ↔ (IsPrefixOf A.text front ⊎ IsPrefixOf B.text front) }
    ensures option { (front : List T)
        → IsPrefixOf (OptionalText A.text) front ↔ NoneOr (IsPrefixOf A.text) front }
{}

/// A prefix of a repetition is a repetition, followed by nothing or by a prefix of one more
/// element. If there must be one, it is a prefix of an element, or an element followed by a prefix
/// of a repetition. Lists with separators are such elements, each after the first with its
/// separator.
///
/// ```
/// use grammars::laws::{Format, prefixes_of_repetitions};
///
/// fn of_elements<A: Format<u8, u8>, S: Format<u8, u8>>() {
///     prefixes_of_repetitions::<u8, u8, u8, A, S>();
/// }
/// ```
pub fn prefixes_of_repetitions<T, O, D, A: Format<T, O>, S: Format<T, D>>()
    ensures any { (front : List T) → IsPrefixOf (EachText A.text) front
        ↔ FollowedBy (EachText A.text) (NoneOr (IsPrefixOf A.text)) front }
    ensures some { (front : List T) → IsPrefixOf (AtLeast 1 (EachText A.text)) front
        ↔ (IsPrefixOf A.text front ⊎ FollowedBy A.text (IsPrefixOf (EachText A.text)) front) }
    ensures separated { (front : List T) → IsPrefixOf (PartedText S.text A.text) front
        ↔ NoneOr (IsPrefixOf (AtLeast 1 (PartedText S.text A.text))) front }
    ensures some_separated { (front : List T)
        → IsPrefixOf (AtLeast 1 (PartedText S.text A.text)) front
        ↔ (IsPrefixOf A.text front
        ⊎ FollowedBy A.text (IsPrefixOf (EachText (NextText S.text A.text))) front) }
{}

/// Mapped outputs have the same prefixes: only tokens count.
///
/// ```
/// use grammars::laws::{Format, prefixes_of_mapped_outputs};
///
/// fn of_a_format<A: Format<u8, u8>>() {
///     prefixes_of_mapped_outputs::<u8, u8, u8, A>();
/// }
/// ```
pub fn prefixes_of_mapped_outputs<T, O, U, A: Format<T, O>>()
    ensures { (f : O → U) (front : List T)
        → IsPrefixOf (MadeText (λ g o u. u ≡ g o) f A.text) front ↔ IsPrefixOf A.text front }
{}

/// If a grammar reads a format, and a match may be all tokens, the prefixes of its whole matches
/// are those of the format.
///
/// ```
/// use grammars::laws::{Format, Matches, prefixes_of_grammars};
///
/// fn of_a_grammar<A: Format<u8, u8>, G: Matches<u8, u8>>() {
///     prefixes_of_grammars::<u8, u8, A, G>();
/// }
/// ```
pub fn prefixes_of_grammars<T, O, A: Format<T, O>, G: Matches<T, O>>()
    ensures { IsGrammarOf G.grammar A.text G.follow → G.follow [] → (front : List T)
        → IsPrefixOfMatch G.grammar front ↔ IsPrefixOf A.text front }
{}
