//! A function over partial input as a parser, by a rule whose definition is that of a parser.
#![tactic(auto)]

ghost use Rattle.std.specs.Prelude.{⊤, ◌≡◌, true};
ghost use Rattle.example_callers.specs.Longer.{HasSameResult};
ghost use Rattle.example_callers.specs.WordPieces.{SameBytes, WordDoes};
ghost use Rattle.example_callers.specs.WordPieces.{word_law, word_reads, word_takes};
ghost use Rattle.example_callers.specs.Words.{Word, word_unique};
ghost use Rattle.winnow.specs.Bytes.{bytes_reading};
ghost use Rattle.winnow.specs.Form.{answer_by, modal};
ghost use Rattle.winnow.specs.Input.{IsEndOf};
ghost use Rattle.winnow.specs.Left.{left_of};
ghost use Rattle.winnow.specs.Outcome.{outcome_of, setting_of};

use crate::longer::call_both;
use winnow::Parser;
use winnow::ascii::impls::Alpha1;
use winnow::combinator::separated_pair;
use winnow::error::{EmptyError, ErrMode, HasKind};
use winnow::exact::{Rule, RuleInPieces};
use winnow::stream::{Partial, Stream};

/// Partial bytes, as clauses name them.
type Bytes = Partial<&'static [u8]>;

/// Errors with a mode.
type Error = ErrMode<EmptyError>;

/// Two words, or an error.
type Words<'i> = Result<(&'i [u8], &'i [u8]), ErrMode<EmptyError>>;

/// A word of letters, by name. Its definition is that of [`Alpha1`].
#[derive(Clone, Copy, Drop)]
struct WordRule;

impl<'i> Rule<Partial<&'i [u8]>, &'i [u8]> for WordRule {
    ghost grammar = { λ _. Word };

    ghost consumes = { λ _. ⊤ };

    fn name() {}

    ghost unique = { λ _. word_unique };

    ghost takes = { λ _ _. word_takes };
}

impl<'i> RuleInPieces<Partial<&'i [u8]>, &'i [u8]> for WordRule {
    ghost does = { WordDoes };

    ghost alike = { SameBytes };

    fn pieces() {}

    ghost lawful = { word_law };

    ghost reads = { word_reads };
}

/// A word of partial bytes: the call leaves a suffix, and has an outcome of the rule's definition.
fn read_word<'i>(input: &mut Partial<&'i [u8]>) -> Result<&'i [u8], ErrMode<EmptyError>>
    ensures ends { IsEndOf bytes_reading (⟦<Bytes as Stream>⟧.view input.new)
        (⟦<Bytes as Stream>⟧.view input.old) }
    ensures tells { (rule : WordRule)
        → WordDoes (setting_of modal (⟦<Bytes as Stream>⟧.view input.old)) rule
        (left_of (⟦<Bytes as Stream>⟧.view input.old))
        (outcome_of (answer_by ⟦<Error as HasKind>⟧.kind result)
        (rule, left_of (⟦<Bytes as Stream>⟧.view input.new))) }
{
    Alpha1.parse_next(input)
}

/// Parses two words with an equals sign between them from partial input, and from `longer`. Both
/// words are read by one function.
///
/// If the first result is final and `longer` is the partial input followed by more bytes, partial
/// or complete, both results are the same words, or errors of the same kind, and the second rest is
/// the first followed by these bytes.
///
/// ```
/// use example_callers::rule_pieces::words_of_both;
/// use winnow::stream::Partial;
///
/// let mut piece = Partial::new(b"key=word;".as_slice());
/// let mut longer = Partial::new(b"key=word; more".as_slice());
/// let words = (b"key".as_slice(), b"word".as_slice());
/// assert_eq!(rt; words_of_both(&mut piece, &mut longer), (Ok(words), Ok(words)));
/// assert_eq!(rt; *longer.as_inner(), b"; more".as_slice());
/// ```
pub fn words_of_both<'i>(
    piece: &mut Partial<&'i [u8]>,
    longer: &mut Partial<&'i [u8]>,
) -> (Words<'i>, Words<'i>)
    requires is_partial { (⟦<Bytes as Stream>⟧.view piece.old).status.cut ≡ true }
    ensures same { HasSameResult (λ words others. SameBytes words.0 others.0
        × SameBytes words.1 others.1) (⟦<Bytes as Stream>⟧.view piece.old)
        (answer_by ⟦<Error as HasKind>⟧.kind result.0) (⟦<Bytes as Stream>⟧.view piece.new)
        (⟦<Bytes as Stream>⟧.view longer.old) (answer_by ⟦<Error as HasKind>⟧.kind result.1)
        (⟦<Bytes as Stream>⟧.view longer.new) }
{
    let name = WordRule.by_pieces(read_word);
    let value = WordRule.by_pieces(read_word);
    let mut first = separated_pair(name, b'=', value);
    let name = WordRule.by_pieces(read_word);
    let value = WordRule.by_pieces(read_word);
    let mut second = separated_pair(name, b'=', value);
    call_both(&mut first, &mut second, piece, longer)
}
