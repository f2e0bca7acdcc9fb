//! The trait of parsers of incremental input that are specified by a grammar.
ghost use Rattle.parser_definitions.specs.Does.{Ran};
ghost use Rattle.std.specs.Prelude.{◌≡◌};
ghost use Rattle.stream_errors.specs.Form.{answer_by, modal};
ghost use Rattle.winnow_core.specs.Tells.{Tells};
ghost use Rattle.winnow_grammar.specs.Cut.{ReadsOrAsks};

use stream_errors::parser_error::ParserError;
use streams::stream::Stream;
use winnow_core::parser::Parser;

/// A parser that is specified by a grammar: if it is stable, its result on partial input is its
/// result on every longer input. Every parser implements it.
///
/// ```
/// use stream_errors::empty::EmptyError;
/// use stream_errors::mode::ErrMode;
/// use streams::needed::Needed;
/// use streams::partial::Partial;
/// use winnow_ascii::ascii::impls::Alpha1;
/// use winnow_grammar::pieces::ReadsPieces;
///
/// let mut piece = Partial::new(b"ab".as_slice());
/// let asks: Result<&[u8], ErrMode<EmptyError>> = Alpha1.read_cut(&mut piece);
/// assert_eq!(rt; asks, Err(ErrMode::Incomplete(Needed::new(1))));
/// let mut more = Partial::new(b"ab;".as_slice());
/// let answer: Result<&[u8], ErrMode<EmptyError>> = Alpha1.read_cut(&mut more);
/// assert_eq!(rt; answer, Ok(b"ab".as_slice()));
/// ```
pub trait ReadsPieces<I: Stream, O, E: ParserError<I>>: Parser<I, O, E> {
    /// Like [`read`](winnow_core::parser::Parser::read), with a contract for partial input too.
    ///
    /// On partial input, an output is a match of the completed input, for every continuation, with
    /// the rest and the continuation remaining. A backtrack means that no completed input starts
    /// with a match. Otherwise it returns `Incomplete`, or is out of memory. The call has an
    /// outcome of the parser's definition (`tells`).
    ///
    /// Requires what `read` does, errors with a mode, and a stable parser (`lawful`, `stable`).
    #[inline(always)]
    final fn read_cut(&mut self, input: &mut I) -> Result<O, E>
        requires callable { Self.can_parse self.old }
        requires premise { (Self.terms.claim (Self.state self.old)).premise }
        requires backtracks { (Self.terms.claim (Self.state self.old)).backtracks }
        requires lawful { Self.terms.premise }
        requires stable { Self.terms.stable }
        requires modal { E.form ≡ modal }
        ensures again { Self.can_parse self.new }
        ensures ran { Ran I.reading Self.does E.form (Self.state self.old) (I.view input.old)
            (answer_by E.kind result) (Self.state self.new) (I.view input.new) }
        ensures reads { ReadsOrAsks I.reading I.following E.kind
            (Self.terms.claim (Self.state self.old)).grammar (I.view input.old) result
            (I.view input.new) }
        ensures tells { Tells I.reading Self.terms.alike Self.does E.form (Self.state self.old)
            (I.view input.old) (answer_by E.kind result) (Self.state self.new)
            (I.view input.new) }
    {
        self.read_outcome(input)
    }
}

impl<P: Parser<I, O, E>, I: Stream, O, E: ParserError<I>> ReadsPieces<I, O, E> for P {}
