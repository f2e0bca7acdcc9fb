//! Examples of tokens of a lexer: a grammar over a list of tokens.
#![tactic(auto)]

ghost use Rattle.std.specs.Prelude.{◌↔◌, IsTrue};
ghost use Rattle.example_callers.specs.Lexed.{IsNumber, IsSign, SignedNumbers};
ghost use Rattle.winnow.specs.Counted.{counted_input, counted_reading};
ghost use Rattle.winnow.specs.Exact.{IsSpared, Reads};
ghost use Rattle.winnow.specs.TokenSlice.{tokens_of};

use winnow::Parser;
use winnow::error::{EmptyError, HasKind};
use winnow::stream::{ContainsToken, TokenSlice};
use winnow::token::{one_of, take_while};

/// A token of a sum.
#[derive(Clone, Copy, Debug, PartialEq, Eq)]
pub enum Token {
    /// A plus sign.
    Plus,
    /// A minus sign.
    Minus,
    /// A number.
    Number(u64),
}

/// The signs.
#[derive(Clone, Copy, Drop)]
struct Signs;

impl<'t> ContainsToken<&'t Token> for Signs {
    ghost tells = { λ s token b. IsTrue b ↔ IsSign token.now };

    fn contains_token(&self, token: &'t Token) -> bool {
        match token {
            Token::Plus => true,
            Token::Minus => true,
            Token::Number(_) => false,
        }
    }
}

/// The numbers.
#[derive(Clone, Copy, Drop)]
struct Numbers;

impl<'t> ContainsToken<&'t Token> for Numbers {
    ghost tells = { λ s token b. IsTrue b ↔ IsNumber token.now };

    fn contains_token(&self, token: &'t Token) -> bool {
        match token {
            Token::Plus => false,
            Token::Minus => false,
            Token::Number(_) => true,
        }
    }
}

/// Parses a sign and all numbers that follow it. Backtracks, at the start of the input or after the
/// sign, if the input does not start with a sign and a number.
///
/// ```
/// use example_callers::lexed::{Token, signed_numbers};
/// use winnow::stream::TokenSlice;
///
/// let mut input = TokenSlice::new(&[Token::Minus, Token::Number(7), Token::Plus]);
/// let numbers = [Token::Number(7)];
/// assert_eq!(rt; signed_numbers(&mut input), Ok((&Token::Minus, numbers.as_slice())));
/// assert_eq!(rt; input.as_slice(), [Token::Plus].as_slice());
/// ```
pub fn signed_numbers<'t>(
    input: &mut TokenSlice<'t, Token>,
) -> Result<(&'t Token, &'t [Token]), EmptyError>
    ensures reads { Reads counted_reading ⟦<EmptyError as HasKind>⟧.kind SignedNumbers
        (counted_input (tokens_of input.old)) result (counted_input (tokens_of input.new)) }
    ensures spared { IsSpared ⟦<EmptyError as HasKind>⟧.kind
        (counted_input (tokens_of input.old)) result }
{
    (one_of(Signs), take_while(1.., Numbers)).read(input)
}
