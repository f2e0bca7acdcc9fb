//! The parts of replies, over any stream, by the grammars of their parsers.
ghost use Rattle.std.specs.Prelude.{◌≡◌, ◌∷◌, [], None};
ghost use Rattle.stream_errors.specs.Form.{modal};
ghost use Rattle.stream_sets.specs.Range.{from_to};
ghost use Rattle.streams.specs.Stream.{AnswersSeen};
ghost use Rattle.parser_definitions.specs.LineEnding.{SpellsByText};
ghost use Rattle.stream_sets.specs.Once.{SetIsFunction, TokenEqInjective};
ghost use Rattle.grammars.specs.Grammar.{Both, Counted, Longest, SpelledBy, Token};
ghost use Rattle.stream_sets.specs.Once.{Others};
ghost use Rattle.format_resp.specs.MustAsk.{ReadsOrMustAsk};
ghost use Rattle.grammars.specs.Grammar.Searches.{LiterallyBytes};

use stream_errors::parser_error::ParserError;
use stream_searches::compare::Compare;
use stream_sets::as_char::AsChar;
use stream_sets::sets::ContainsToken;
use streams::stream::StreamIsPartial;
use winnow_ascii::ascii::impls::Crlf;
use winnow_comb::combinator::terminated;
use winnow_grammar::pieces::ReadsPieces;
use winnow_token::token::impls::Any;
use winnow_token::token::{take, take_till};

/// A token.
#[inline(always)]
pub(crate) fn token<I: StreamIsPartial, E: ParserError<I>>(input: &mut I) -> Result<I::Token, E>
    requires modal { E.form ≡ modal }
    ensures { ReadsOrMustAsk I.reading I.following E.kind (Token I.seen_as) (I.view input.old)
        result (I.view input.new) }
{
    Any.read_cut(input)
}

/// Parses the bytes up to a carriage return and a line feed. Neither of these occurs in them.
#[inline(always)]
pub(crate) fn line<I: StreamIsPartial + Compare<&'static str>, E: ParserError<I>>(
    input: &mut I,
) -> Result<I::Slice, E>
where
    I::Token: AsChar + Copy,
    requires modal { E.form ≡ modal }
    requires seen { TokenEqInjective I.seen_as }
    requires spells { SpellsByText I.spells }
    requires some { SpelledBy I.spells (13 ∷ 10 ∷ []) [] → ⊥ }
    ensures { ReadsOrMustAsk I.reading I.following E.kind (Both (λ o1 o2. o1)
        (Longest I.reading I.seen_as (Others ⟦<(u8, u8) as ContainsToken<I::Token>>⟧.tells)
        (13, 10) (from_to 0 None)) (LiterallyBytes I.reading I.spells
        (13 ∷ 10 ∷ []))) (I.view input.old)
        result (I.view input.new) }
{
    line_up_to((b'\r', b'\n'), input)
}

/// Parses the tokens up to a member of the set, and a carriage return and a line feed after them.
#[inline(always)]
fn line_up_to<
    S: ContainsToken<I::Token> + Drop,
    I: StreamIsPartial + Compare<&'static str>,
    E: ParserError<I>,
>(set: S, input: &mut I) -> Result<I::Slice, E>
    requires callable { S.can_test set }
    requires modal { E.form ≡ modal }
    requires once { (x : S) → SetIsFunction (AnswersSeen I.seen_as (Others S.tells x)) }
    requires spells { SpellsByText I.spells }
    requires some { SpelledBy I.spells (13 ∷ 10 ∷ []) [] → ⊥ }
    ensures { ReadsOrMustAsk I.reading I.following E.kind (Both (λ o1 o2. o1)
        (Longest I.reading I.seen_as (Others S.tells) set (from_to 0 None))
        (LiterallyBytes I.reading I.spells (13 ∷ 10 ∷ []))) (I.view input.old) result
        (I.view input.new) }
{
    terminated(take_till(0.., set), Crlf).read_cut(input)
}

/// That many tokens, and a carriage return and a line feed after them.
#[inline(always)]
pub(crate) fn tokens<I: StreamIsPartial + Compare<&'static str>, E: ParserError<I>>(
    count: usize,
    input: &mut I,
) -> Result<I::Slice, E>
    requires modal { E.form ≡ modal }
    requires spells { SpellsByText I.spells }
    ensures { ReadsOrMustAsk I.reading I.following E.kind (Both (λ o1 o2. o1)
        (Counted I.reading count) (LiterallyBytes I.reading I.spells (13 ∷ 10 ∷ []))) (I.view
        input.old)
        result (I.view input.new) }
{
    terminated(take(count), Crlf).read_cut(input)
}
