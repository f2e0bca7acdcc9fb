//! The traits of errors.
ghost use Rattle.std.specs.Prelude.{◌≡◌, ◌↔◌, IsTrue, IsSome, Option, None, Some, ◌⊎◌};
ghost use Rattle.std.specs.Prelude.{MatchResult, option_map};
ghost use Rattle.streams.specs.Kind.{Kind, backtrack, incomplete, memory};
ghost use Rattle.streams.specs.Needed.{need_of};
ghost use Rattle.stream_errors.specs.Join.{IsOrMemory, joint_kind};
ghost use Rattle.stream_errors.specs.Form.{plain, assert_kind, incomplete_kind};
ghost use Rattle.stream_errors.specs.Form.{inner_kind_of, need_of_kind};

use crate::has_kind::HasKind;
use streams::needed::Needed;
use streams::stream::Stream;

/// The requirements of parsers on their error type, as in winnow's documentation.
///
/// Contracts depend only on the kind of an error. A plain error type has the kinds backtrack and
/// memory, a modal one, as [`ErrMode`](crate::mode::ErrMode), all four. Kind memory means that
/// memory allocation failed; no parser backtracks over it.
///
/// ```
/// let plain = EmptyError::assert(&"", "why");
/// assert!(rt; ParserError::<&str>::is_backtrack(&plain));
/// let modal = ErrMode::<EmptyError>::assert(&"", "why");
/// assert_eq!(rt; modal, ErrMode::Cut(plain));
/// ```
pub trait ParserError<I: Stream>: HasKind + Drop {
    /// The error without its mode.
    type Inner: Drop;

    // The kind of an inner error.
    ghost inner_kind: { Self.Inner → Kind };

    // The pairs of errors whose joining allocates.
    ghost or_grows: { Self → Self → Type 0 };

    // The errors that allocate to add a position.
    ghost append_grows: { Self → Type 0 };

    /// Returns a backtracking error at the offset of `input`.
    fn from_input(input: &I) -> Self
        ensures { Self.kind result ≡ backtrack };

    /// The error for a parser that was made or called wrongly: it cuts, or backtracks for a plain
    /// type. It never ends the process.
    fn assert(input: &I, message: &'static str) -> Self
        ensures { Self.kind result ≡ assert_kind Self.form };

    /// The error for a need of more input: it is incomplete, or backtracks for a plain type.
    fn incomplete(input: &I, needed: Needed) -> Self
        ensures { Self.kind result ≡ incomplete_kind Self.form (need_of needed) };

    /// Returns the out-of-memory error.
    fn no_memory(input: &I) -> Self
        ensures { Self.kind result ≡ memory };

    /// Joins the errors of two branches. Two that backtrack give one that does. The result is out
    /// of memory if either is. Otherwise it is incomplete if one is, as the first of two. Otherwise
    /// it is a cut if one is. It can also be out of memory if joining allocates, but only then.
    fn or(self, other: Self) -> Self
        ensures { IsOrMemory (joint_kind (Self.kind self) (Self.kind other))
            (or_grows self other) (Self.kind result) };

    /// Adds the position of an enclosing parser. The kind is unchanged. It can become out of memory
    /// only if adding the position allocates.
    fn append(self, input: &I, token_start: &I::Checkpoint) -> Self
        ensures { IsOrMemory (Self.kind self) (append_grows self) (Self.kind result) };

    /// Whether another branch may be tried.
    fn is_backtrack(&self) -> bool
        ensures { IsTrue result ↔ (Self.kind self.now ≡ backtrack) };

    /// Returns whether more input may change the result.
    fn is_incomplete(&self) -> bool
        ensures { IsTrue result ↔ IsSome (need_of_kind (Self.kind self.now)) };

    /// Whether memory allocation failed.
    fn is_memory(&self) -> bool
        ensures { IsTrue result ↔ (Self.kind self.now ≡ memory) };

    /// How much more input is needed, for an incomplete error.
    fn needed(&self) -> Option<Needed>
        ensures { option_map need_of result ≡ need_of_kind (Self.kind self.now) };

    /// The error without its mode; an incomplete one has none inside and is given back.
    fn into_inner(self) -> Result<Self::Inner, Self>
        ensures { MatchResult result
            (λ inner. inner_kind_of (Self.kind self) ≡ Some (inner_kind inner))
            (λ e. (inner_kind_of (Self.kind self) ≡ None) × (e ≡ self)) };

    // An error of a plain type backtracks or is out of memory.
    ghost plain_kinds: { Self.form ≡ plain → (e : Self)
        → (Self.kind e ≡ backtrack) ⊎ (Self.kind e ≡ memory) };
}
