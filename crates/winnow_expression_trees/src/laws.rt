//! Laws of operator expressions, each proved by a function that does nothing.
ghost use Rattle.parser_definitions.specs.Does.{Ran};
ghost use Rattle.std.specs.Prelude.{◌≡◌, ◌⊎◌, ℤ, Bool, Err};
ghost use Rattle.stream_errors.specs.Form.{Answer, assert_kind};
ghost use Rattle.streams.specs.Input.{Input};
ghost use Rattle.streams.specs.Kind.{Kind, memory};
ghost use Rattle.winnow_expression.specs.Grammar.{folding};
ghost use Rattle.winnow_expression.specs.Parts.{PartsDo, did_grammar};
ghost use Rattle.winnow_expression_trees.specs.Accepting.{AcceptingDo, AssertingDo, FoldAnswers};
ghost use Rattle.winnow_expression_trees.specs.Alike.{AlikeInfix, AlikeTree};
ghost use Rattle.winnow_expression_trees.specs.Failure.{EndedBy, HasEmptyOperator};
ghost use Rattle.winnow_expression_trees.specs.Failure.{RejectedByPrecedence};
ghost use Rattle.winnow_expression_trees.specs.OneTree.{IsTheOneTree, KeepsOver};
ghost use Rattle.winnow_expression_trees.specs.Premises.{AlikePostfix, AlikePrefix, Decides};
ghost use Rattle.winnow_expression_trees.specs.Premises.{NotMemory, Premises};
ghost use Rattle.winnow_expression_trees.specs.Tree.{Tree};

pub mod parts;

use stream_errors::parser_error::ParserError;
use streams::stream::Stream;
use winnow_core::parser::Parser;
use winnow_expression::combinator::{FoldBinary, FoldUnary, Infix, Postfix, Prefix};

/// Which outputs count as the same: equal numbers, or slices that show the same text.
///
/// ```
/// use winnow_expression_trees::laws::Likeness;
///
/// struct Equal;
///
/// impl Likeness<i64> for Equal {
///     ghost alike = { λ v w. v ≡ w };
/// }
/// ```
pub trait Likeness<O> {
    // the equivalence of outputs
    ghost alike: { O → O → Type 0 };
}

/// States that an expression parses the only tree that respects precedence. The input must
/// determine the reading of each part, up to equivalent outputs. Folds must give equivalent results
/// for equivalent operands, and leave the input unchanged.
///
/// The calls of the parts and of the expression are those that clause `ran` of `parse_next` allows.
///
/// Then at most one tree over a prefix of the reading respects precedence. The expression succeeds
/// if and only if there is one whose folds succeed. It returns the value of that tree, and leaves
/// the input where the tree ends.
///
/// The parts are those of an [`Expression`](winnow_expression::combinator::impls::Expression):
/// clause `exact` is about its calls. It also states that if a tree respects precedence, a failure
/// is that of a fold, for values of trees that are read. So there is no tree after another failure,
/// as if nothing was consumed.
///
/// Clause `fails` adds: if no fold fails, and each operator that is read consumes input, a failure
/// has the kind and the rest of the result that ended the reading. Clause `ended` adds that this
/// result is unique. Out of memory is excepted.
///
/// ```
/// use winnow_expression_trees::laws::{Likeness, expression_is_unambiguous};
///
/// struct Equal;
///
/// impl Likeness<u8> for Equal {
///     ghost alike = { λ v w. v ≡ w };
/// }
///
/// // Of the expression over a byte that has no operators.
/// expression_is_unambiguous::<
///     &[u8],
///     u8,
///     u8,
///     Fail,
///     Fail,
///     Fail,
///     NoFold,
///     NoFold,
///     NoFold,
///     EmptyError,
///     Equal,
/// >();
/// ```
pub fn expression_is_unambiguous<
    I: Stream,
    O: Drop,
    P: Parser<I, O, E>,
    Pre: Parser<I, Prefix<F>, E>,
    Post: Parser<I, Postfix<G>, E>,
    Pix: Parser<I, Infix<H>, E>,
    F: FoldUnary<I, O, E>,
    G: FoldUnary<I, O, E>,
    H: FoldBinary<I, O, E>,
    E: ParserError<I>,
    A: Likeness<O>,
>()
    ensures exact { (s : (P.State × Pre.State) × (Post.State × Pix.State) × ℤ)
        → Premises A.alike (Ran I.reading P.does E.form) (Ran I.reading Pre.does E.form)
        (Ran I.reading Post.does E.form) (Ran I.reading Pix.does E.form) (G.folds E.form)
        (folding (F.folds E.form) (H.folds E.form) I.reading.units (assert_kind E.form))
        s.0.0 s.0.1 s.1.0 s.1.1
        → (i : Input I.Seen) (answer : Answer O)
        (t : (P.State × Pre.State) × (Post.State × Pix.State) × ℤ) (j : Input I.Seen)
        → Ran I.reading (PartsDo I.reading P.does Pre.does Post.does Pix.does F.folds G.folds
        H.folds) E.form s i answer t j
        → IsTheOneTree (did_grammar I.reading E.form P.does Pre.does
        Post.does Pix.does F.folds G.folds H.folds) A.alike (s.0, s.1) s.2 i answer (t.0, t.1) j }
    ensures fails { (s : (P.State × Pre.State) × (Post.State × Pix.State) × ℤ)
        → Premises A.alike (Ran I.reading P.does E.form) (Ran I.reading Pre.does E.form)
        (Ran I.reading Post.does E.form) (Ran I.reading Pix.does E.form) (G.folds E.form)
        (folding (F.folds E.form) (H.folds E.form) I.reading.units (assert_kind E.form))
        s.0.0 s.0.1 s.1.0 s.1.1
        → (i : Input I.Seen) (k : Kind)
        (t : (P.State × Pre.State) × (Post.State × Pix.State) × ℤ) (j : Input I.Seen)
        → Ran I.reading (PartsDo I.reading P.does Pre.does Post.does Pix.does F.folds G.folds
        H.folds) E.form s i (Err k) t j → (k ≡ memory → ⊥)
        → (RejectedByPrecedence (did_grammar I.reading E.form P.does Pre.does
        Post.does Pix.does F.folds G.folds H.folds) (s.0, s.1) s.2 i k j → ⊥)
        → (HasEmptyOperator (did_grammar I.reading E.form P.does Pre.does
        Post.does Pix.does F.folds G.folds H.folds) (s.0, s.1) i → ⊥)
        → EndedBy (did_grammar I.reading E.form P.does Pre.does
        Post.does Pix.does F.folds G.folds H.folds) (s.0, s.1) i k j }
    ensures ended { (s : (P.State × Pre.State) × (Post.State × Pix.State) × ℤ)
        → Premises A.alike (Ran I.reading P.does E.form) (Ran I.reading Pre.does E.form)
        (Ran I.reading Post.does E.form) (Ran I.reading Pix.does E.form) (G.folds E.form)
        (folding (F.folds E.form) (H.folds E.form) I.reading.units (assert_kind E.form))
        s.0.0 s.0.1 s.1.0 s.1.1
        → (i : Input I.Seen) (k l : Kind) (j n : Input I.Seen)
        → EndedBy (did_grammar I.reading E.form P.does Pre.does
        Post.does Pix.does F.folds G.folds H.folds) (s.0, s.1) i k j
        → EndedBy (did_grammar I.reading E.form P.does Pre.does
        Post.does Pix.does F.folds G.folds H.folds) (s.0, s.1) i l n
        → (k ≡ memory → ⊥) → (l ≡ memory → ⊥) → (k ≡ l) × (j ≡ n) }
{}

/// States that at most one tree over a prefix of the parts' reading respects precedence at a level.
/// The input must determine the result of each part, up to equivalent outputs and folds. There are
/// no requirements on the folds, on the input that parts consume or on their states, and nothing
/// need be run. Two such trees have the same shape, powers and end, and end in the same way.
///
/// ```
/// use winnow_expression_trees::laws::{Likeness, tree_is_unique};
///
/// struct Equal;
///
/// impl<O> Likeness<O> for Equal {
///     ghost alike = { λ v w. v ≡ w };
/// }
///
/// // Of the expression over a byte that has no operators.
/// tree_is_unique::<
///     &[u8],
///     u8,
///     u8,
///     Fail,
///     Fail,
///     Fail,
///     NoFold,
///     NoFold,
///     NoFold,
///     EmptyError,
///     Equal,
///     Equal,
///     Equal,
///     Equal,
/// >();
/// ```
pub fn tree_is_unique<
    I: Stream,
    O: Drop,
    P: Parser<I, O, E>,
    Pre: Parser<I, Prefix<F>, E>,
    Post: Parser<I, Postfix<G>, E>,
    Pix: Parser<I, Infix<H>, E>,
    F: FoldUnary<I, O, E>,
    G: FoldUnary<I, O, E>,
    H: FoldBinary<I, O, E>,
    E: ParserError<I>,
    A: Likeness<O>,
    B: Likeness<F>,
    C: Likeness<G>,
    D: Likeness<H>,
>()
    ensures one { (s : (P.State × Pre.State) × (Post.State × Pix.State))
        → Decides A.alike (Ran I.reading P.does E.form) s.0.0
        → Decides (AlikePrefix B.alike) (Ran I.reading Pre.does E.form) s.0.1
        → Decides (AlikePostfix C.alike) (Ran I.reading Post.does E.form) s.1.0
        → Decides (AlikeInfix D.alike) (Ran I.reading Pix.does E.form) s.1.1
        → (level : ℤ) (i : Input I.Seen) (r u : Tree O F G H) (m n : Input I.Seen) (b c : Bool)
        → KeepsOver (did_grammar I.reading E.form P.does Pre.does
        Post.does Pix.does F.folds G.folds H.folds) s level i r m b
        → KeepsOver (did_grammar I.reading E.form P.does Pre.does
        Post.does Pix.does F.folds G.folds H.folds) s level i u n c
        → AlikeTree A.alike B.alike C.alike D.alike r u × (m ≡ n) × (b ≡ c) }
{}

/// States that no tree respects precedence after an assert rule fails. The same holds after any
/// call that fails although no fold fails, for every kind except out of memory.
///
/// Clause `asserts` is about the calls in which neither a part nor a fold fails (`AssertingDo`):
/// they fail only by an assert rule, with its kind, as clause `kind` states. Clause `failures` is
/// about those in which no fold fails (`AcceptingDo`): a part may fail there too. Clause `ends`
/// states that these fail with the kind and the rest of the result that ended the reading, or that
/// an operator was read that consumes nothing.
///
/// Clause `within` states that the first calls are among the second ones, `run` that these are
/// calls of the expression, and `either` that each other call of it ends with the result of a fold
/// that fails.
///
/// ```
/// use winnow_expression_trees::laws::{Likeness, assert_rules_leave_no_tree};
///
/// struct Equal;
///
/// impl Likeness<u8> for Equal {
///     ghost alike = { λ v w. v ≡ w };
/// }
///
/// // Of the expression over a byte that has no operators.
/// assert_rules_leave_no_tree::<
///     &[u8],
///     u8,
///     u8,
///     Fail,
///     Fail,
///     Fail,
///     NoFold,
///     NoFold,
///     NoFold,
///     EmptyError,
///     Equal,
/// >();
/// ```
pub fn assert_rules_leave_no_tree<
    I: Stream,
    O: Drop,
    P: Parser<I, O, E>,
    Pre: Parser<I, Prefix<F>, E>,
    Post: Parser<I, Postfix<G>, E>,
    Pix: Parser<I, Infix<H>, E>,
    F: FoldUnary<I, O, E>,
    G: FoldUnary<I, O, E>,
    H: FoldBinary<I, O, E>,
    E: ParserError<I>,
    A: Likeness<O>,
>()
    ensures asserts { (s : (P.State × Pre.State) × (Post.State × Pix.State) × ℤ)
        → Premises A.alike (Ran I.reading P.does E.form) (Ran I.reading Pre.does E.form)
        (Ran I.reading Post.does E.form) (Ran I.reading Pix.does E.form) (G.folds E.form)
        (folding (F.folds E.form) (H.folds E.form) I.reading.units (assert_kind E.form))
        s.0.0 s.0.1 s.1.0 s.1.1
        → (i : Input I.Seen) (k : Kind)
        (t : (P.State × Pre.State) × (Post.State × Pix.State) × ℤ) (j : Input I.Seen)
        → Ran I.reading (AssertingDo I.reading P.does Pre.does Post.does Pix.does F.folds G.folds
        H.folds) E.form s i (Err k) t j → (k ≡ memory → ⊥)
        → (r : Tree O F G H) (n : Input I.Seen) (all : Bool)
        → KeepsOver (did_grammar I.reading E.form P.does Pre.does
        Post.does Pix.does F.folds G.folds H.folds) (s.0, s.1) s.2 i r n all → ⊥ }
    ensures failures { (s : (P.State × Pre.State) × (Post.State × Pix.State) × ℤ)
        → Premises A.alike (Ran I.reading P.does E.form) (Ran I.reading Pre.does E.form)
        (Ran I.reading Post.does E.form) (Ran I.reading Pix.does E.form) (G.folds E.form)
        (folding (F.folds E.form) (H.folds E.form) I.reading.units (assert_kind E.form))
        s.0.0 s.0.1 s.1.0 s.1.1
        → (i : Input I.Seen) (k : Kind)
        (t : (P.State × Pre.State) × (Post.State × Pix.State) × ℤ) (j : Input I.Seen)
        → Ran I.reading (AcceptingDo I.reading P.does Pre.does Post.does Pix.does F.folds G.folds
        H.folds) E.form s i (Err k) t j → (k ≡ memory → ⊥)
        → (r : Tree O F G H) (n : Input I.Seen) (all : Bool)
        → KeepsOver (did_grammar I.reading E.form P.does Pre.does
        Post.does Pix.does F.folds G.folds H.folds) (s.0, s.1) s.2 i r n all → ⊥ }
    ensures ends { (s : (P.State × Pre.State) × (Post.State × Pix.State) × ℤ)
        → Premises A.alike (Ran I.reading P.does E.form) (Ran I.reading Pre.does E.form)
        (Ran I.reading Post.does E.form) (Ran I.reading Pix.does E.form) (G.folds E.form)
        (folding (F.folds E.form) (H.folds E.form) I.reading.units (assert_kind E.form))
        s.0.0 s.0.1 s.1.0 s.1.1
        → (i : Input I.Seen) (k : Kind)
        (t : (P.State × Pre.State) × (Post.State × Pix.State) × ℤ) (j : Input I.Seen)
        → Ran I.reading (AcceptingDo I.reading P.does Pre.does Post.does Pix.does F.folds G.folds
        H.folds) E.form s i (Err k) t j → (k ≡ memory → ⊥)
        → EndedBy (did_grammar I.reading E.form P.does Pre.does
        Post.does Pix.does F.folds G.folds H.folds) (s.0, s.1) i k j
        ⊎ HasEmptyOperator (did_grammar I.reading E.form P.does Pre.does
        Post.does Pix.does F.folds G.folds H.folds) (s.0, s.1) i }
    ensures kind { (s : (P.State × Pre.State) × (Post.State × Pix.State) × ℤ)
        (i : Input I.Seen) (k : Kind)
        (t : (P.State × Pre.State) × (Post.State × Pix.State) × ℤ) (j : Input I.Seen)
        → Ran I.reading (AssertingDo I.reading P.does Pre.does Post.does Pix.does F.folds G.folds
        H.folds) E.form s i (Err k) t j
        → (k ≡ assert_kind E.form) ⊎ (k ≡ memory) }
    ensures within { (s : (P.State × Pre.State) × (Post.State × Pix.State) × ℤ)
        (i : Input I.Seen) (answer : Answer O)
        (t : (P.State × Pre.State) × (Post.State × Pix.State) × ℤ) (j : Input I.Seen)
        → Ran I.reading (AssertingDo I.reading P.does Pre.does Post.does Pix.does F.folds G.folds
        H.folds) E.form s i answer t j
        → Ran I.reading (AcceptingDo I.reading P.does Pre.does Post.does Pix.does F.folds G.folds
        H.folds) E.form s i answer t j }
    ensures run { (s : (P.State × Pre.State) × (Post.State × Pix.State) × ℤ)
        (i : Input I.Seen) (answer : Answer O)
        (t : (P.State × Pre.State) × (Post.State × Pix.State) × ℤ) (j : Input I.Seen)
        → Ran I.reading (AcceptingDo I.reading P.does Pre.does Post.does Pix.does F.folds G.folds
        H.folds) E.form s i answer t j
        → Ran I.reading (PartsDo I.reading P.does Pre.does Post.does Pix.does F.folds G.folds
        H.folds) E.form s i answer t j }
    ensures either { (s : (P.State × Pre.State) × (Post.State × Pix.State) × ℤ)
        (i : Input I.Seen) (answer : Answer O)
        (t : (P.State × Pre.State) × (Post.State × Pix.State) × ℤ) (j : Input I.Seen)
        → Ran I.reading (PartsDo I.reading P.does Pre.does Post.does Pix.does F.folds G.folds
        H.folds) E.form s i answer t j
        → Ran I.reading (AcceptingDo I.reading P.does Pre.does Post.does Pix.does F.folds G.folds
        H.folds) E.form s i answer t j
        ⊎ ((k : Input I.Seen) × FoldAnswers (did_grammar I.reading E.form P.does Pre.does
        Post.does Pix.does F.folds G.folds H.folds) answer k
        × (NotMemory answer → k ≡ j)) }
{}
