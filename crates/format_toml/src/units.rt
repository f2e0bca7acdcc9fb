//! Eight hexadecimal digits of an escape (TOML 1.0: String).
ghost use Rattle.format_toml.specs.Unique.{wide_unique};
ghost use Rattle.format_toml.specs.Grammars.{WideUnits};
ghost use Rattle.streams.specs.Text.{text_input, text_reading};
ghost use Rattle.winnow_core.specs.Exact.{Reads};

use format_parts::hexadecimal::{Unit, read_unit};
use format_parts::turns::read_two_of;
use stream_errors::empty::EmptyError;
use stream_errors::has_kind::HasKind;
use stream_errors::mode::ErrMode;
use winnow_grammar::rule::Rule;

/// The name of eight hexadecimal digits.
#[derive(Clone, Copy, Drop)]
pub struct Wide;

impl<'i> Rule<&'i str, (u32, u32)> for Wide {
    ghost grammar = { λ _. WideUnits };

    ghost consumes = { λ _. ⊥ };

    fn name() {}

    ghost unique = { λ _. wide_unique };

    ghost takes = { λ _ never. absurd never };
}

/// Eight hexadecimal digits: the numbers of the first four, and of the others.
pub fn read_wide<'i>(input: &mut &'i str) -> Result<(u32, u32), ErrMode<EmptyError>>
    ensures { Reads text_reading ⟦<ErrMode<EmptyError> as HasKind>⟧.kind WideUnits
        (text_input input.old.now) result (text_input input.new.now) }
{
    read_two_of(Unit.by(read_unit), Unit.by(read_unit), input)
}
