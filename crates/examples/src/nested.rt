//! Trees of numbers in brackets, as `[1,[2,3],[]]`, nested to a level that the caller gives.
//!
//! So recursion is written with combinators: a function of a level makes a parser of itself at the
//! level below, and hands it to a function that takes the parser of an element.
ghost use Rattle.std.specs.Prelude.{◌≡◌, ◌⊎◌, ◌<◌, false, IsTrue, ⊤};
ghost use Rattle.winnow.specs.Bytes.{bytes_input, bytes_reading};
ghost use Rattle.examples.specs.Nested.Trees.{AreElements, IsLeaf, IsTree, Opens, no_memory_kind};
ghost use Rattle.examples.specs.Nested.Trees.{tree_takes, tree_unique};
ghost use Rattle.winnow.specs.Terms.{CanRead};
ghost use Rattle.winnow.specs.Exact.{Reads};
ghost use Rattle.winnow.specs.Rule.{CallsRead};
ghost use Rattle.winnow.specs.Texts.{NotFirst};
ghost use Rattle.std.specs.Fn.{CalledAtMut};

use std::alloc::Allocator;
use winnow::Parser;
use winnow::ascii::impls::DecUint;
use winnow::combinator::impls::Separated;
use winnow::combinator::{delimited, separated};
use winnow::error::{EmptyError, ErrMode, HasKind, ParserError};
use winnow::exact::{By, Rule};
use winnow::stream::Stream;

/// A number, or trees in brackets.
#[derive(Drop)]
pub enum Tree<A: Allocator> {
    /// A number.
    Leaf(u32),
    /// Trees, in order.
    Branch(Vec<Tree<A>, A>),
}

/// A number.
fn read_leaf<'i, A: Allocator>(input: &mut &'i [u8]) -> Result<Tree<A>, ErrMode<EmptyError>>
    ensures { Reads bytes_reading ⟦<ErrMode<EmptyError> as HasKind>⟧.kind IsLeaf
        (bytes_input input.old.now) result (bytes_input input.new.now) }
{
    match DecUint.read(input) {
        Ok(number) => Ok(Tree::Leaf(number)),
        Err(error) => Err(error),
    }
}

/// Elements between the opening and the closing one, with separators between them. A function
/// reads an element by a rule.
fn read_elements<I, E, O, A, R, F, B>(
    alloc: A,
    rule: R,
    element: F,
    opening: B,
    comma: B,
    closing: B,
    input: &mut I,
) -> Result<Vec<O, A>, E>
where
    I: Stream,
    E: ParserError<I>,
    O: Drop,
    A: Allocator + Copy,
    R: Rule<I, O> + Drop,
    F: FnMut(&mut I) -> Result<O, E> + Drop,
    B: Parser<I, u8, E> + Drop,
    requires callable { F.IsAlwaysCallable element }
    requires reads { CallsRead I.reading I.view E.kind (CalledAtMut F.FnMut) (R.grammar rule)
        element }
    requires opening { CanRead (B.can_parse opening) (B.terms.claim (B.state opening)) }
    requires comma { CanRead (B.can_parse comma) (B.terms.claim (B.state comma))
        × (B.terms.claim (B.state comma)).consumes }
    requires closing { CanRead (B.can_parse closing) (B.terms.claim (B.state closing)) }
    ensures { Reads I.reading E.kind
        (AreElements (R.grammar rule) (B.terms.claim (B.state opening)).grammar
        (B.terms.claim (B.state comma)).grammar (B.terms.claim (B.state closing)).grammar)
        (I.view input.old) result (I.view input.new) }
{
    let elements: Separated<By<R, F>, B, I, O, u8, Vec<O, A>, E, A> = separated(
        alloc,
        0..,
        rule.by(element),
        comma,
    );
    delimited(opening, elements, closing).read(input)
}

/// Whether brackets are read at the level, and one that opens is the first byte.
fn opens(level: usize, input: &[u8]) -> bool
    ensures yes { IsTrue result → (0 < level) × Opens input.now }
    ensures no { result ≡ false → (level ≡ 0) ⊎ NotFirst (λ b. b ≡ 91) input.now }
{
    match input.first() {
        Some(byte) => level > 0 && *byte == b'[',
        None => false,
    }
}

/// The name of what [`read_tree`] reads.
#[derive(Clone, Copy, Drop)]
struct AnyTree<A>(A, usize);

impl<'i, A: Allocator> Rule<&'i [u8], Tree<A>> for AnyTree<A> {
    ghost grammar = { λ r. IsTree r.1 };

    ghost consumes = { λ _. ⊤ };

    fn name() {}

    ghost unique = { λ r. tree_unique r.1 };

    ghost takes = { λ r _. tree_takes r.1 };
}

/// Parses a tree whose brackets are nested at most `level` deep.
///
/// ```
/// use examples::nested::{Tree, read_tree};
///
/// let mut input = b"[1,[2,3],[]];".as_slice();
/// let tree = read_tree(alloc, 2, &mut input);
/// assert!(rt; matches!(tree, Ok(Tree::Branch(list)) if list.len() == 3));
/// assert_eq!(rt; input, b";".as_slice());
/// ```
pub fn read_tree<'i, A: Allocator + Copy>(
    alloc: A,
    level: usize,
    input: &mut &'i [u8],
) -> Result<Tree<A>, ErrMode<EmptyError>>
    ensures { Reads bytes_reading ⟦<ErrMode<EmptyError> as HasKind>⟧.kind (IsTree level)
        (bytes_input input.old.now) result (bytes_input input.new.now) }
{
    if !opens(level, input) {
        return read_leaf(input);
    }
    let below = level - 1;
    let element = |input: &mut &[u8]|
        ensures { Reads bytes_reading no_memory_kind (IsTree below)
            (bytes_input input.old.now) result (bytes_input input.new.now) }
    { read_tree(alloc, below, input) };
    let rule = AnyTree(alloc, below);
    match read_elements(alloc, rule, element, b'[', b',', b']', input) {
        Ok(list) => Ok(Tree::Branch(list)),
        Err(error) => Err(error),
    }
}
