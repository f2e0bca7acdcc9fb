//! Whitespace and comments over several lines (TOML 1.0: Array), and line endings.

ghost use Rattle.streams.specs.Text.{text_input, text_reading};
ghost use Rattle.format_toml.specs.Grammars.{Gap};
ghost use Rattle.format_toml.specs.Unique.{gap_unique};
ghost use Rattle.winnow_core.specs.Exact.{Reads};

use crate::characters::Characters;
use crate::parts::read_gap_of;
use std::alloc::Allocator;
use stream_errors::empty::EmptyError;
use stream_errors::has_kind::HasKind;
use stream_errors::mode::ErrMode;
use winnow_comb::combinator::{alt, preceded};
use winnow_grammar::rule::Rule;
use winnow_token::token::{one_of, take_while};

/// The name of what [`read_gap`] reads.
#[derive(Clone, Copy, Drop)]
pub struct AnyGap<A>(pub A);

impl<'i, A: Allocator> Rule<&'i str, ()> for AnyGap<A> {
    ghost grammar = { λ _. Gap };

    ghost consumes = { λ _. ⊥ };

    fn name() {}

    ghost unique = { λ _. gap_unique };

    ghost takes = { λ _ never. absurd never };
}

/// Parses all whitespace, line endings, and comments before line endings. Does not allocate.
pub fn read_gap<'i, A: Allocator + Copy>(
    alloc: A,
    input: &mut &'i str,
) -> Result<(), ErrMode<EmptyError>>
    ensures { Reads text_reading ⟦<ErrMode<EmptyError> as HasKind>⟧.kind Gap
        (text_input input.old.now) result (text_input input.new.now) }
{
    let comment = preceded('#', take_while(0.., Characters::Comment));
    let newline = alt(('\n', preceded('\r', '\n')));
    read_gap_of(alloc, one_of(Characters::White), comment, newline, input)
}
