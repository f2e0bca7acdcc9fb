//! The parser of the longest word of a machine.
#![tactic(auto, using(streams::specs::Ends::ends_follow))]

ghost use Rattle.std.specs.Prelude.{◌≡◌, [], ⊤};
ghost use Rattle.parser_definitions.specs.Spelled.{ShowSame};
ghost use Rattle.winnow_machines.specs.Projects.{LongestWord, word_projects, word_takes};
ghost use Rattle.winnow_machines.specs.Scan.{Tells};
ghost use Rattle.winnow_machines.specs.Word.{WordDoes, word_law, words};

use crate::bytes::SlicesOfBytes;
use machines::machine::Machine;
use std::marker::PhantomData;
use stream_errors::parser_error::ParserError;
use stream_sets::as_bstr::AsBStr;
use streams::needed::Needed;
use streams::stream::StreamIsPartial;
use winnow_core::parser::Parser;
use winnow_core::short::short;

/// Returns a parser of the longest word of `machine` at the start of the input, as a slice. With
/// [`and_then`](Parser::and_then) another parser reads the word.
///
/// On partial input it returns `Incomplete`, with an unknown need, if and only if some longer input
/// is a word. It backtracks, and consumes nothing, if no word continues with some byte and the
/// bytes before it are none; and on complete input that ends within a word.
///
/// ```
/// use machines::counted::Counted;
/// use machines::digits::{Decimal, Numeral};
/// use machines::sets::Byte;
/// use winnow::stream::Partial;
/// use winnow_machines::word::word;
///
/// // The length of the data in digits, a colon, and the data.
/// let length = Numeral { radix: Decimal, limit: 4096, mark: Byte(b':') };
/// let mut input = Partial::new(b"5:hello;".as_slice());
/// let data: Result<_, ErrMode<EmptyError>> = word(Counted(length)).parse_next(&mut input);
/// assert_eq!(rt; data, Ok(b"5:hello".as_slice()));
/// ```
#[inline(always)]
pub fn word<M, I, E>(machine: M) -> WordParser<M, I, E>
    ensures { result.machine ≡ machine }
{
    WordParser {
        machine,
        marker: PhantomData,
    }
}

/// The parser that [`word`] returns.
#[derive(Drop)]
pub struct WordParser<M, I, E> {
    pub machine: M,
    marker: PhantomData<(I, E)>,
}

/// How far a machine goes in the bytes that remain.
enum Found {
    /// The first so many bytes are the longest word.
    Word(usize),
    /// All of them begin a word, or a longer one.
    Open,
    /// No word begins so.
    Invalid,
}

/// Scans the remaining bytes from the start of the machine. `may_continue`: more may come.
#[inline(always)]
fn scan<M: Machine>(machine: &M, may_continue: bool, bytes: &[u8]) -> Found
    requires { M.sound machine.now }
    ensures { Tells (words (M.grammar machine.now)) may_continue bytes.now result }
{
    let (state, left) = machine.pass(machine.start(), bytes);
    let passed = bytes.len() - left.len();
    if left.is_empty() {
        if machine.is_over(state) {
            return Found::Word(passed);
        }
        if may_continue {
            return Found::Open;
        }
        return if machine.is_done(state) {
            Found::Word(passed)
        } else {
            Found::Open
        };
    }
    if machine.is_done(state) {
        Found::Word(passed)
    } else {
        Found::Invalid
    }
}

/// Scans the remaining bytes of a stream, and consumes nothing.
#[inline(always)]
fn scan_input<M: Machine, I: StreamIsPartial + SlicesOfBytes>(machine: &M, input: &mut I) -> Found
where
    I::Slice: AsBStr,
    requires { M.sound machine.now }
    ensures found { Tells (words (M.grammar machine.now)) (I.view input.old).status.cut
        (I.view input.old).left.tokens result }
    ensures same { I.view input.new ≡ I.view input.old }
{
    let start = input.checkpoint();
    let left = input.finish();
    input.reset(&start);
    let may_continue = input.is_partial();
    scan(machine, may_continue, left.as_bstr())
}

impl<M: Machine, I: StreamIsPartial + SlicesOfBytes, E: ParserError<I>> Parser<I, I::Slice, E>
    for WordParser<M, I, E>
where
    I::Slice: AsBStr,
{
    ghost can_parse = { λ s. M.sound s.machine };

    ghost State = { M };

    ghost state = { λ s. s.machine };

    ghost does = { WordDoes I.reading (λ m. words (M.grammar m)) };

    ghost terms = { record {
      premise = ⊤;
      stable = ⊤;
      alike = ShowSame I.reading;
      claim = λ m. record {
        premise = ⊤;
        backtracks = ⊤;
        spares_memory = ⊤;
        consumes = words (M.grammar m) [] → ⊥;
        grammar = LongestWord I.reading (words (M.grammar m));
      };
    } };

    ghost lawful = { record {
      law = λ is. word_law I.reading (λ m. words (M.grammar m));
      claimed = λ m. record {
        projects = λ at is. word_projects I.reading (λ m. words (M.grammar m)) m;
        takes = λ is some. word_takes I.reading (λ m. words (M.grammar m)) m some;
      };
    } };

    #[inline(always)]
    fn parse_next(&mut self, input: &mut I) -> Result<I::Slice, E> {
        match scan_input(&self.machine, input) {
            Found::Word(length) => Ok(input.next_slice(length)),
            Found::Open => Err(short(input, Needed::Unknown)),
            Found::Invalid => Err(E::from_input(input)),
        }
    }
}
