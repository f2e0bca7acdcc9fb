//! The `Parser` trait.
#![tactic(auto, using(streams::specs::Ends::ends_follow))]

ghost use Rattle.std.specs.Prelude.{⊤, ◌≡◌, true, false, IfErr};
ghost use Rattle.stream_errors.specs.Form.{answer_by, modal};
ghost use Rattle.parser_definitions.specs.Does.{Gets, Ran};
ghost use Rattle.parser_definitions.specs.Left.{left_of};
ghost use Rattle.parser_definitions.specs.Outcome.{Does, outcome_of};
ghost use Rattle.parser_definitions.specs.Terms.{MeetsTerms, Terms};
ghost use Rattle.winnow_core.specs.ByRef.{by_ref_name, by_ref_parser};
ghost use Rattle.winnow_core.specs.Exact.{IsSpared, Reads, UnlessWanted};
ghost use Rattle.winnow_core.specs.Exact.Whole.{IsWant, ReadsAll};
ghost use Rattle.winnow_core.specs.Longer.{SameOnLonger};
ghost use Rattle.winnow_core.specs.Parse.{ParsesWhole};
ghost use Rattle.winnow_core.specs.ParseIter.{IsReached, parse_iter_name, parse_iter_parser};
ghost use Rattle.winnow_core.specs.ParseIter.{parse_iter_standing, reads};
ghost use Rattle.winnow_core.specs.ParsePeek.{PeekAnswers};
ghost use Rattle.winnow_core.specs.Tells.{Tells, TellsAll};
ghost use Rattle.winnow_core.specs.Take.{take_parser};
ghost use Rattle.winnow_core.specs.Value.{value_kept, value_parser};

mod func;
mod literals;
mod modal;
mod tuples;

use crate::combinator::impls::{
    AndThen, ByRef, CompleteErr, Context, ContextWith, DefaultValue, ErrInto, FlatMap, Map, MapErr,
    MapErrKept, OutputInto, ParseIter, ParseTo, Span, Take, TryMap, Value, Verify, VerifyMap, Void,
    WithSpan, WithTaken,
};
pub use crate::parser::func::{Func, FuncWith};
pub use crate::parser::modal::ModalParser;
use std::alloc::Allocator;
use std::marker::PhantomData;
use stream_errors::context::AddContext;
use stream_errors::external::FromExternalError;
use stream_errors::fault::ParseFault;
use stream_errors::parser_error::ParserError;
use stream_sets::parse_slice::ParseSlice;
use streams::stream::{Location, Stream, StreamIsPartial};

/// A parser: consumes tokens from an input and returns an output, as winnow's trait of this name.
///
/// Parsers are composed from parsers. Literals such as `b'='` and `b"key"` are parsers, and a tuple
/// runs its members in order and returns a tuple of their outputs.
///
/// ```
/// assert_eq!(rt; ('a', '=').parse_peek("a=1"), Ok::<_, EmptyError>(("1", ('a', '='))));
/// ```
pub trait Parser<I: Stream, O, E: ParserError<I>>: Sized {
    // Precondition of every call: the closures in the parser may be called.
    ghost can_parse: { Self → Type 0 } = { λ _. ⊤ };

    // The part of a parser that its results depend on: for instance its closures, or the states of
    // its children.
    ghost State: { Type 0 };

    // The current state of a parser.
    ghost state: { Self → State };

    // The parser's definition: its outcomes for a state and an input. `AnyOutcome` specifies
    // nothing.
    ghost does: { Does State I.Seen O };

    // When the definition is lawful, when it is stable, which outputs are equal, and its
    // specification by a grammar, for a state. `no_terms` and `no_claim`: nothing.
    ghost terms: { Terms State I.Seen O };

    /// Runs the parser at the start of `input` and returns its output.
    ///
    /// On success `input` is the rest. After an error it is a suffix of the original input; each
    /// parser documents which one.
    fn parse_next(&mut self, input: &mut I) -> Result<O, E>
        requires { can_parse self.old }
        ensures again { can_parse self.new }
        ensures ran { Ran I.reading does E.form (state self.old) (I.view input.old)
            (answer_by E.kind result) (state self.new) (I.view input.new) };

    /// Parses all of `input`, and fails if any input remains.
    ///
    /// The error holds the inner error, without its mode, and the offset at which the failing
    /// parser stopped, in the units of the stream (bytes, for `&[u8]` and `&str`). If a parser
    /// needs more input, the error is [`ParseFault::Incomplete`] with the number of units instead.
    /// The stream type must not be partial.
    ///
    /// ```
    /// assert!(rt; Parser::<_, char, EmptyError>::parse(&mut 'a', "ab").is_err());
    /// ```
    final fn parse(&mut self, input: I) -> Result<O, ParseFault<I, E::Inner>>
    where
        I: StreamIsPartial,
        O: Drop,
        requires callable { can_parse self.old }
        requires whole { I.supports_partial ≡ false }
        ensures again { can_parse self.new }
        ensures ran { ParsesWhole I.view I.reading.units E.inner_kind (I.view input).left
            (λ answer j. Ran I.reading does E.form (state self.old) (I.view input) answer
            (state self.new) j) result }
    {
        let mut input = input;
        let start = input.checkpoint();
        match self.parse_next(&mut input) {
            Ok(output) => {
                if input.eof_offset() == 0 {
                    Ok(output)
                } else {
                    let error = E::from_input(&input);
                    Err(ParseFault::at(input, start, error))
                }
            }
            Err(error) => Err(ParseFault::at(input, start, error)),
        }
    }

    /// Like [`parse_next`](Parser::parse_next), with a contract in terms of the parser's
    /// definition.
    ///
    /// The call has an outcome of the definition: the output and the rest, the kind of the error
    /// and the input after it, or the need; and the parser's new state. It is the only outcome for
    /// this state and input.
    ///
    /// Requires the parser's precondition (`premise`).
    #[inline(always)]
    final fn read_outcome(&mut self, input: &mut I) -> Result<O, E>
        requires callable { can_parse self.old }
        requires premise { terms.premise }
        ensures again { can_parse self.new }
        ensures ran { Ran I.reading does E.form (state self.old) (I.view input.old)
            (answer_by E.kind result) (state self.new) (I.view input.new) }
        ensures tells { Tells I.reading terms.alike does E.form (state self.old)
            (I.view input.old) (answer_by E.kind result) (state self.new) (I.view input.new) }
    {
        Self::parse_next(self, input)
    }

    /// Calls [`parse`](Parser::parse), and specifies the parser's outcome as
    /// [`read_outcome`](Parser::read_outcome) does: an output that leaves nothing, or a fault. The
    /// fault is at the offset where the parser failed, or where its output left something. The
    /// caller must ensure what the parser requires (`premise`), and a stream type that is not
    /// partial.
    #[inline(always)]
    final fn parse_outcome(&mut self, input: I) -> Result<O, ParseFault<I, E::Inner>>
    where
        I: StreamIsPartial,
        O: Drop,
        requires callable { can_parse self.old }
        requires premise { terms.premise }
        requires whole { I.supports_partial ≡ false }
        ensures again { can_parse self.new }
        ensures ran { ParsesWhole I.view I.reading.units E.inner_kind (I.view input).left
            (λ answer j. Ran I.reading does E.form (state self.old) (I.view input) answer
            (state self.new) j) result }
        ensures tells { TellsAll I.reading.units E.inner_kind terms.alike does E.form
            (state self.old) (I.view input) (state self.new) result }
    {
        self.parse(input)
    }

    /// Like [`parse_next`](Parser::parse_next) on partial input, for a stable parser.
    ///
    /// If the result is neither `Incomplete` nor out of memory, every longer input, partial or
    /// complete, has an equal result (`alike`), after which the parser has the same state and the
    /// rest is followed by the added tokens. Requires errors with a mode, partial input that can be
    /// read, and the parser's precondition (`premise`).
    ///
    /// ```
    /// let mut input = Partial::new("12;");
    /// assert_eq!(rt; Digit1.parse_cut(&mut input), Ok::<_, ErrMode<EmptyError>>("12"));
    /// assert_eq!(rt; *input.as_inner(), ";");
    /// ```
    #[inline(always)]
    final fn parse_cut(&mut self, input: &mut I) -> Result<O, E>
        requires callable { can_parse self.old }
        requires premise { terms.premise }
        requires stable { terms.stable }
        requires modal { E.form ≡ modal }
        requires is_cut { (I.view input.old).status.cut ≡ true }
        requires readable { (I.view input.old).left.possible ≡ true }
        ensures again { can_parse self.new }
        ensures ran { Ran I.reading does E.form (state self.old) (I.view input.old)
            (answer_by E.kind result) (state self.new) (I.view input.new) }
        ensures gets { Gets terms.alike does (state self.old) (left_of (I.view input.old))
            (outcome_of (answer_by E.kind result) (state self.new, left_of (I.view input.new))) }
        ensures same { SameOnLonger (Ran I.reading does E.form) terms.alike (state self.old)
            (I.view input.old) (answer_by E.kind result) (state self.new) (I.view input.new) }
    {
        self.read_outcome(input)
    }

    /// Like [`parse_next`](Parser::parse_next), with a contract in terms of the parser's grammar.
    ///
    /// On complete input it returns `Ok` only if the input starts with a match, and backtracks only
    /// if it does not. The only other error is out of memory, and only of a parser that allocates
    /// (`spared`).
    ///
    /// Requires the parser's precondition (`premise`), and that its errors are backtracks
    /// (`backtracks`).
    #[inline(always)]
    final fn read(&mut self, input: &mut I) -> Result<O, E>
        requires callable { can_parse self.old }
        requires premise { (terms.claim (state self.old)).premise }
        requires backtracks { (terms.claim (state self.old)).backtracks }
        ensures again { can_parse self.new }
        ensures ran { Ran I.reading does E.form (state self.old) (I.view input.old)
            (answer_by E.kind result) (state self.new) (I.view input.new) }
        ensures kept { (I.view input.old).status.cut ≡ false
            → UnlessWanted E.kind result (state self.new ≡ state self.old) }
        ensures reads { Reads I.reading E.kind (terms.claim (state self.old)).grammar
            (I.view input.old) result (I.view input.new) }
        ensures spared { (terms.claim (state self.old)).spares_memory
            → IsSpared E.kind (I.view input.old) result }
    {
        self.parse_next(input)
    }

    /// Like [`parse`](Parser::parse), with a contract in terms of the parser's grammar.
    ///
    /// It returns `Ok` only if the whole input matches, and an error only if it does not. The only
    /// other error is out of memory, and only of a parser that allocates (`spared`);
    /// [`ParseFault::Incomplete`] is never returned.
    ///
    /// Requires the parser's precondition (`premise`), and a stream type that is not partial.
    #[inline(always)]
    final fn read_all(&mut self, input: I) -> Result<O, ParseFault<I, E::Inner>>
    where
        I: StreamIsPartial,
        O: Drop,
        requires callable { can_parse self.old }
        requires premise { (terms.claim (state self.old)).premise }
        requires whole { I.supports_partial ≡ false }
        ensures again { can_parse self.new }
        ensures ran { ParsesWhole I.view I.reading.units E.inner_kind (I.view input).left
            (λ answer j. Ran I.reading does E.form (state self.old) (I.view input) answer
            (state self.new) j) result }
        ensures reads { ReadsAll E.inner_kind (terms.claim (state self.old)).grammar
            (I.view input).left.tokens result }
        ensures spared { (terms.claim (state self.old)).spares_memory
            → IfErr result (λ fault. IsWant E.inner_kind fault → ⊥) }
    {
        self.parse(input)
    }

    /// Returns an iterator that parses `input` repeatedly until it is empty.
    ///
    /// If a call fails, or succeeds without consuming input, the iterator yields one error, as
    /// [`parse`](Parser::parse) does, with its offset from the start of `input`, and then only
    /// `None`. On empty input it returns `None` without running the parser. The stream type must
    /// not be partial.
    ///
    /// ```
    /// // Two items, and then the fault at offset 2.
    /// assert_eq!(rt; Parser::<_, char, EmptyError>::parse_iter(&mut 'a', "aab").count(), 3);
    /// ```
    #[inline(always)]
    final fn parse_iter(&mut self, input: I) -> ParseIter<'_, Self, I, O, E>
    where
        I: StreamIsPartial,
        requires whole { I.supports_partial ≡ false }
        ensures parser { parse_iter_parser result ≡ self.old }
        ensures behind { parse_iter_name result ≡ self.entry.ghost_name }
        ensures reads { parse_iter_standing I.view I.seen result
            ≡ reads (I.view input).left (I.view input) }
        ensures reached { IsReached I.reading (parse_iter_standing I.view I.seen result) }
    {
        ParseIter::new(self, input)
    }

    /// Runs the parser on an owned input and returns the rest and the output, or the error.
    ///
    /// ```
    /// assert_eq!(rt; 'a'.parse_peek("ab"), Ok::<_, EmptyError>(("b", 'a')));
    /// ```
    #[inline(always)]
    final fn parse_peek(&mut self, input: I) -> Result<(I, O), E>
        requires { can_parse self.old }
        ensures again { can_parse self.new }
        ensures ran { PeekAnswers I.view E.kind
            (λ answer j. Ran I.reading does E.form (state self.old) (I.view input) answer
            (state self.new) j) result }
    {
        let mut input = input;
        match self.parse_next(&mut input) {
            Ok(output) => Ok((input, output)),
            Err(error) => Err(error),
        }
    }

    /// Borrows the parser as a parser. Its state is shared with `self`.
    #[inline(always)]
    final fn by_ref(&mut self) -> ByRef<'_, Self, I, O, E>
        ensures state { by_ref_parser result ≡ self.old }
        ensures behind { by_ref_name result ≡ self.entry.ghost_name }
    {
        ByRef {
            parser: self,
            marker: PhantomData,
        }
    }

    /// Replaces the output with a clone of `value`.
    ///
    /// Fails with out of memory if the clone fails to allocate.
    #[inline(always)]
    final fn value<O2: Clone>(self, value: O2) -> Value<Self, I, O, O2, E>
        ensures parser { value_parser result ≡ self }
        ensures value { value_kept result ≡ value }
    {
        Value::new(self, value)
    }

    /// Replaces the output with `O2::default()`.
    #[inline(always)]
    final fn default_value<O2: Default>(self) -> DefaultValue<Self, I, O, O2, E>
        ensures { result.parser ≡ self }
    {
        DefaultValue::new(self)
    }

    /// Discards the output. Known as `ignore` elsewhere.
    #[inline(always)]
    final fn void(self) -> Void<Self, I, O, E>
        ensures { result.parser ≡ self }
    {
        Void::new(self)
    }

    /// Converts the output with `Into`.
    #[inline(always)]
    final fn output_into<O2>(self) -> OutputInto<Self, I, O, O2, E>
    where
        O: Into<O2>,
        ensures { result.parser ≡ self }
    {
        OutputInto::new(self)
    }

    /// Replaces the output with the consumed slice. Known as `recognize` elsewhere.
    #[inline(always)]
    final fn take(self) -> Take<Self, I, O, E>
        ensures { take_parser result ≡ self }
    {
        Take::new(self)
    }

    /// Returns the output and the consumed slice. Known as `consumed` elsewhere.
    #[inline(always)]
    final fn with_taken(self) -> WithTaken<Self, I, O, E>
        ensures { result.parser ≡ self }
    {
        WithTaken::new(self)
    }

    /// Replaces the output with its span: the offsets of its start and end, from the start of the
    /// stream and in its units.
    #[inline(always)]
    final fn span(self) -> Span<Self, I, O, E>
    where
        I: Location,
        ensures { result.parser ≡ self }
    {
        Span::new(self)
    }

    /// Returns the output and its span: the offsets of its start and end, from the start of the
    /// stream and in its units.
    #[inline(always)]
    final fn with_span(self) -> WithSpan<Self, I, O, E>
    where
        I: Location,
        ensures { result.parser ≡ self }
    {
        WithSpan::new(self)
    }

    /// Applies `map` to the output.
    #[inline(always)]
    final fn map<G, O2>(self, map: G) -> Map<Self, G, I, O, O2, E>
    where
        G: FnMut(O) -> O2,
        ensures parser { result.parser ≡ self }
        ensures map { result.map ≡ map }
    {
        Map::new(self, map)
    }

    /// Applies the fallible `map` to the output.
    ///
    /// If `map` fails, the parser backtracks with that error and resets the input. It fails with
    /// out of memory if the error cannot be stored.
    #[inline(always)]
    final fn try_map<G, O2, E2>(self, map: G) -> TryMap<Self, G, I, O, O2, E, E2>
    where
        G: FnMut(O) -> Result<O2, E2>,
        E: FromExternalError<I, E2>,
        ensures parser { result.parser ≡ self }
        ensures map { result.map ≡ map }
    {
        TryMap::new(self, map)
    }

    /// Applies `filter` to the output, and backtracks and resets the input if it returns `None`.
    /// Known as `map_opt` elsewhere.
    #[inline(always)]
    final fn verify_map<G, O2>(self, filter: G) -> VerifyMap<Self, G, I, O, O2, E>
    where
        G: FnMut(O) -> Option<O2>,
        ensures parser { result.parser ≡ self }
        ensures filter { result.filter ≡ filter }
    {
        VerifyMap::new(self, filter)
    }

    /// Runs the parser that `map` returns for the output, on the remaining input.
    ///
    /// Requires that every parser that `map` returns can be called.
    #[inline(always)]
    final fn flat_map<G, H, O2>(self, map: G) -> FlatMap<Self, G, H, I, O, O2, E>
    where
        G: FnMut(O) -> H,
        H: Parser<I, O2, E>,
        ensures parser { result.parser ≡ self }
        ensures map { result.map ≡ map }
    {
        FlatMap::new(self, map)
    }

    /// Parses the output with `inner`, as complete input.
    ///
    /// Any part of the output that `inner` does not consume is discarded. If `inner` fails, its
    /// error is returned and the input is reset.
    #[inline(always)]
    final fn and_then<G, O2>(self, inner: G) -> AndThen<Self, G, I, O, O2, E>
    where
        G: Parser<O, O2, E>,
        O: StreamIsPartial,
        E: ParserError<O>,
        ensures outer { result.outer ≡ self }
        ensures inner { result.inner ≡ inner }
    {
        AndThen::new(self, inner)
    }

    /// Converts the output with `FromStr`, and backtracks and resets the input if that fails. Known
    /// as `from_str` elsewhere.
    #[inline(always)]
    final fn parse_to<O2>(self) -> ParseTo<Self, I, O, O2, E>
    where
        O: ParseSlice<O2>,
        ensures { result.parser ≡ self }
    {
        ParseTo::new(self)
    }

    /// Returns the output if `filter` is true for it; otherwise backtracks and resets the input.
    /// Known as `satisfy` elsewhere.
    #[inline(always)]
    final fn verify<G>(self, filter: G) -> Verify<Self, G, I, O, E>
    where
        G: FnMut(&O) -> bool,
        ensures parser { result.parser ≡ self }
        ensures filter { result.filter ≡ filter }
    {
        Verify::new(self, filter)
    }

    /// Adds a clone of `context` to errors.
    ///
    /// The error keeps its kind, or becomes out of memory if the context cannot be stored. Known as
    /// `labelled` elsewhere.
    #[inline(always)]
    final fn context<C, A>(self, alloc: A, context: C) -> Context<Self, I, O, E, C, A>
    where
        C: Clone,
        A: Allocator,
        E: AddContext<I, C, A>,
        ensures parser { result.parser ≡ self }
        ensures context { result.context ≡ context }
    {
        Context::new(self, context, alloc)
    }

    /// Adds each item of the iterator that `context` returns to errors. The iterator must end.
    ///
    /// The error keeps its kind, or becomes out of memory if an item cannot be stored.
    #[inline(always)]
    final fn context_with<F, C, FI, A>(
        self,
        alloc: A,
        context: F,
    ) -> ContextWith<Self, I, O, E, F, C, FI, A>
    where
        F: Fn() -> FI,
        FI: Iterator<Item = C>,
        A: Allocator,
        E: AddContext<I, C, A>,
        ensures parser { result.parser ≡ self }
        ensures context { result.context ≡ context }
    {
        ContextWith::new(self, context, alloc)
    }

    /// Applies `map` to errors. The input is not reset.
    #[inline(always)]
    final fn map_err<G, E2>(self, map: G) -> MapErr<Self, G, I, O, E, E2>
    where
        G: FnMut(E) -> E2,
        ensures parser { result.parser ≡ self }
        ensures map { result.map ≡ map }
    {
        MapErr::new(self, map)
    }

    /// Applies `map` to errors. The input is not reset. To call the parser, `map` must keep the
    /// kind of every error, and both error types must have a mode or neither.
    ///
    /// ```
    /// let mut digits = Digit1.map_err_kept(|error: ErrMode<EmptyError>| error);
    /// let mut input = Partial::new("12;");
    /// assert_eq!(rt; digits.parse_next(&mut input), Ok::<_, ErrMode<EmptyError>>("12"));
    /// ```
    #[inline(always)]
    final fn map_err_kept<G, E2>(self, map: G) -> MapErrKept<Self, G, I, O, E, E2>
    where
        G: FnMut(E) -> E2,
        ensures parser { result.parser ≡ self }
        ensures map { result.map ≡ map }
    {
        MapErrKept::new(self, map)
    }

    /// Turns `Incomplete` into a backtrack.
    #[inline(always)]
    final fn complete_err(self) -> CompleteErr<Self, I, O, E>
        ensures { result.parser ≡ self }
    {
        CompleteErr::new(self)
    }

    /// Converts errors with `Into`.
    #[inline(always)]
    final fn err_into<E2>(self) -> ErrInto<Self, I, O, E, E2>
    where
        E: Into<E2>,
        ensures { result.parser ≡ self }
    {
        ErrInto::new(self)
    }

    // State and input determine the outcome; if the parser is stable, a final outcome on partial
    // input is the outcome of every longer input; and the outcomes agree with the grammar.
    ghost lawful: { MeetsTerms terms does };
}
