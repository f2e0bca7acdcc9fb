//! The derivation of a choice, branch by branch.
#![tactic(auto)]

ghost use Rattle.std.specs.Prelude.{◌≡◌, ◌∷◌, ℕ, List};
ghost use Rattle.example_callers.specs.Derivations.{IsRefused, IsSign};
ghost use Rattle.winnow.specs.Form.{answer_by};

use winnow::Parser;
use winnow::combinator::alt;
use winnow::error::{EmptyError, HasKind};

/// Parses a sign.
///
/// A plus is read by the first branch. At a minus, the first branch backtracks, and the second one
/// reads it from the start. At any other byte both backtrack, and the input is unchanged. The
/// proof of these clauses needs no step by hand: they follow from the definition of the choice.
///
/// ```
/// use example_callers::derivations::read_sign;
///
/// let mut input = b"-1".as_slice();
/// assert_eq!(rt; read_sign(&mut input), Ok(b'-'));
/// assert_eq!(rt; input, b"1".as_slice());
/// ```
pub fn read_sign<'i>(input: &mut &'i [u8]) -> Result<u8, EmptyError>
    ensures plus { (rest : List ℕ) → input.old.now ≡ 43 ∷ rest
        → IsSign 43 rest (answer_by ⟦<EmptyError as HasKind>⟧.kind result) input.new.now }
    ensures minus { (rest : List ℕ) → input.old.now ≡ 45 ∷ rest
        → IsSign 45 rest (answer_by ⟦<EmptyError as HasKind>⟧.kind result) input.new.now }
    ensures others { (first : ℕ) → (rest : List ℕ) → input.old.now ≡ first ∷ rest
        → (first ≡ 43 → ⊥) → (first ≡ 45 → ⊥)
        → IsRefused (first ∷ rest) (answer_by ⟦<EmptyError as HasKind>⟧.kind result)
        input.new.now }
{
    alt((b'+', b'-')).read_outcome(input)
}
