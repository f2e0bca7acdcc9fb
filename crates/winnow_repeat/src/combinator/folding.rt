//! How repetition folds its outputs into a value.
ghost use Rattle.parser_definitions.specs.Closures.{by_closures};
ghost use Rattle.parser_definitions.specs.Does.{Ran};
ghost use Rattle.parser_definitions.specs.Fold.{FoldManyDo};
ghost use Rattle.std.specs.Prelude.{◌≡◌, ◌⊎◌, MatchResult};
ghost use Rattle.stream_errors.specs.Form.{answer_by};
ghost use Rattle.stream_sets.specs.Range.{from_to};
ghost use Rattle.streams.specs.Kind.{Kind, backtrack, memory};
ghost use Rattle.winnow_repeat.specs.Fold.{FoldsItems};

use crate::combinator::items::is_descending;
use stream_errors::has_kind::HasKind;
use stream_errors::joining::append_position;
use stream_errors::parser_error::ParserError;
use stream_sets::range::Range;
use streams::stream::Stream;
use winnow_core::parser::Parser;

/// A fold of outputs into a value that may reject an output.
pub trait Folding<I: Stream, O, R, E: ParserError<I>> {
    /// The reason for rejecting an output.
    type Reason;

    // Where an output may be folded in.
    ghost can_fold: { Self → Type 0 };

    // The states of what folds, and that which it is in.
    ghost State: { Type 0 };

    ghost state: { Self → State };

    // An output is folded into a value, from a state to a state.
    ghost takes: { State → R → O → R → State → Type 0 };

    // An output is rejected.
    ghost rejects: { State → R → O → State → Type 0 };

    // An allocation for the error may fail.
    ghost grows: { State → R → O → Type 0 };

    // The kinds of errors for a reason.
    ghost refuses: { Self.Reason → Kind → Type 0 };

    /// Folds an output into a value, or returns the reason for rejecting it.
    fn fold(&mut self, value: R, output: O) -> Result<R, Self::Reason>
        requires { can_fold self.old }
        ensures again { can_fold self.new }
        ensures folded { MatchResult result
            (λ more. takes (state self.old) value output more (state self.new))
            (λ refusal. (k : Kind) → refuses refusal k
            → ((k ≡ backtrack) × rejects (state self.old) value output (state self.new))
            ⊎ ((k ≡ memory) × grows (state self.old) value output)) };

    /// Returns the error for a reason, at the position of `input`.
    fn error(refusal: Self::Reason, input: &I) -> E
        ensures { refuses refusal (E.kind result) };
}

/// Creates a value and folds as many items into it as a range allows.
#[inline(always)]
pub(crate) fn fold_range<
    P: Parser<I, O, E>,
    G: FnMut() -> R,
    F: Folding<I, O, R, E>,
    I: Stream,
    O: Drop,
    R: Drop,
    E: ParserError<I>,
>(occurrences: Range, parser: &mut P, init: &mut G, op: &mut F, input: &mut I) -> Result<R, E>
    requires parser { P.can_parse parser.old }
    requires init { G.IsAlwaysCallable init.old }
    requires op { F.can_fold op.old }
    ensures again { P.can_parse parser.new × G.IsAlwaysCallable init.new × F.can_fold op.new }
    ensures ran { Ran I.reading (FoldManyDo (by_closures G.step F.takes F.rejects F.grows) P.does)
        E.form (P.state parser.old, (occurrences, (init.old, F.state op.old))) (I.view input.old)
        (answer_by E.kind result)
        (P.state parser.new, (occurrences, (init.new, F.state op.new))) (I.view input.new) }
{
    let least = occurrences.start_inclusive;
    let greatest = occurrences.greatest();
    if is_descending(least, greatest) {
        return Err(E::assert(input, "the greatest count is below the least"));
    }
    let value = init();
    fold_items(value, least, greatest, parser, op, input)
}

/// Folds items into a value, at least `missing` and at most `room`.
#[inline(always)]
pub fn fold_items<
    P: Parser<I, O, E>,
    F: Folding<I, O, R, E>,
    I: Stream,
    O: Drop,
    R: Drop,
    E: ParserError<I>,
>(
    value: R,
    missing: usize,
    room: Option<usize>,
    parser: &mut P,
    op: &mut F,
    input: &mut I,
) -> Result<R, E>
    requires parser { P.can_parse parser.old }
    requires op { F.can_fold op.old }
    ensures again { P.can_parse parser.new × F.can_fold op.new }
    ensures ran { Ran I.reading (FoldsItems F.takes F.rejects F.grows P.does
        (from_to missing room) value) E.form (P.state parser.old, F.state op.old)
        (I.view input.old) (answer_by E.kind result) (P.state parser.new, F.state op.new)
        (I.view input.new) }
{
    let mut value = value;
    let mut missing = missing;
    let mut room = room;
    'items: loop {
        if room == Some(0) {
            return Ok(value);
        }
        let start = input.checkpoint();
        let left = input.eof_offset();
        match parser.parse_next(input) {
            Ok(output) => {
                if input.eof_offset() == left {
                    return Err(E::assert(input, "each item must consume"));
                }
                match op.fold(value, output) {
                    Ok(more) => value = more,
                    Err(refusal) => {
                        input.reset(&start);
                        return Err(F::error(refusal, input));
                    }
                }
                missing = missing.saturating_sub(1);
                room = room.map(|n: usize| n.saturating_sub(1));
            }
            Err(error) => {
                if missing == 0 && error.is_backtrack() {
                    input.reset(&start);
                    return Ok(value);
                }
                return Err(append_position(error, input, &start));
            }
        }
    }
}
