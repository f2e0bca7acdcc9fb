//! Numbers of JSON (RFC 8259, section 6).
ghost use Rattle.format_json_values.specs.Numbers.{NumberOf};
ghost use Rattle.format_json_texts.specs.Number.{ContinuesNumber, IsNonzeroDigit, Number};
ghost use Rattle.format_json_texts.specs.Number.{NumberText};
ghost use Rattle.winnow_ascii.specs.Class.{CharIsFunction};
ghost use Rattle.winnow_core.specs.Exact.{IsSpared, Reads};
ghost use Rattle.grammars.specs.Grammar.{InClass, Literally};
ghost use Rattle.streams.specs.Text.{text_input, text_reading};
ghost use Rattle.grammars.specs.Texts.{NotFirst};
ghost use Rattle.winnow_grammar.specs.Told.{ReadsText};

use stream_errors::empty::EmptyError;
use stream_errors::has_kind::HasKind;
use stream_errors::mode::ErrMode;
use stream_errors::parser_error::ParserError;
use stream_searches::compare::Compare;
use stream_sets::as_char::AsChar;
use stream_sets::sets::ContainsToken;
use streams::stream::StreamIsPartial;
use winnow_ascii::ascii::impls::{Digit0, Digit1};
use winnow_comb::combinator::{alt, opt, preceded};
use winnow_core::parser::Parser;
use winnow_token::token::one_of;

/// The digits from 1 on.
#[derive(Clone, Copy, Drop)]
pub struct LeadingDigits;

impl<T: AsChar> ContainsToken<T> for LeadingDigits {
    ghost tells = { λ s. InClass IsNonzeroDigit T.code tt };

    #[inline(always)]
    fn contains_token(&self, token: T) -> bool {
        let c = token.as_char();
        '1' <= c && c <= '9'
    }
}

/// Parses the longest number and returns it as it is written, over any stream of characters.
///
/// ```
/// use format_json_values::number::number;
///
/// let mut cut = Partial::new("12.");
/// let asks: Result<&str, ErrMode<EmptyError>> = number(&mut cut);
/// assert_eq!(rt; asks, Err(ErrMode::Incomplete(Needed::new(1))));
/// ```
pub fn number<I, E>(input: &mut I) -> Result<I::Slice, E>
where
    I: StreamIsPartial + Compare<char>,
    I::Token: AsChar + Copy,
    E: ParserError<I>,
    requires seen { CharIsFunction I.seen_as I.Token.code }
    ensures reads { Reads I.reading E.kind (NumberOf I.reading I.seen_as I.Token.code
        (Literally I.reading I.spells (λ s _. s))) (I.view input.old) result (I.view input.new) }
    ensures spared { IsSpared E.kind (I.view input.old) result }
{
    let whole = alt(('0'.take(), (one_of(LeadingDigits), Digit0).take()));
    let fraction = preceded('.', Digit1);
    let exponent = preceded((alt(('e', 'E')), opt(alt(('+', '-')))), Digit1);
    (opt('-'), whole, opt(fraction), opt(exponent))
        .take()
        .read(input)
}

/// Parses the longest number and returns it as it is written.
///
/// ```
/// use format_json_values::number::read_number;
///
/// let mut input = "-12.5e+3, 0";
/// assert_eq!(rt; read_number(&mut input), Ok("-12.5e+3"));
/// assert_eq!(rt; input, ", 0");
/// assert!(rt; read_number(&mut "+1").is_err());
/// ```
pub fn read_number<'i>(input: &mut &'i str) -> Result<&'i str, ErrMode<EmptyError>>
    ensures grammar { Reads text_reading ⟦<ErrMode<EmptyError> as HasKind>⟧.kind Number
        (text_input input.old.now) result (text_input input.new.now) }
    ensures text { ReadsText text_reading ⟦<ErrMode<EmptyError> as HasKind>⟧.kind NumberText
        (NotFirst ContinuesNumber) (text_input input.old.now) result (text_input input.new.now) }
    ensures spared { IsSpared ⟦<ErrMode<EmptyError> as HasKind>⟧.kind (text_input input.old.now)
        result }
{
    number(input)
}
