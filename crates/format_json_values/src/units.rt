//! Units of escapes in strings of JSON: four hexadecimal digits (RFC 8259, section 7).
ghost use Rattle.format_json_values.specs.Escapes.{Units, units_takes, units_unique};
ghost use Rattle.std.specs.Prelude.{⊤};
ghost use Rattle.streams.specs.Text.{text_input, text_reading};
ghost use Rattle.winnow_core.specs.Exact.{IsSpared, Reads};

use crate::scalar_parts::read_units_of;
use format_parts::hexadecimal::{Unit, read_unit};
use stream_errors::empty::EmptyError;
use stream_errors::has_kind::HasKind;
use stream_errors::mode::ErrMode;
use winnow_grammar::rule::Rule;

/// The name of two units, the second after another backslash and u.
#[derive(Clone, Copy, Drop)]
pub struct TwoUnits;

impl<'i> Rule<&'i str, (u32, u32)> for TwoUnits {
    ghost grammar = { λ _. Units };

    ghost consumes = { λ _. ⊤ };

    fn name() {}

    ghost unique = { λ _. units_unique };

    ghost takes = { λ _ _. units_takes };
}

/// Two units, the second after another backslash and u.
pub fn read_units<'i>(input: &mut &'i str) -> Result<(u32, u32), ErrMode<EmptyError>>
    ensures reads { Reads text_reading ⟦<ErrMode<EmptyError> as HasKind>⟧.kind Units
        (text_input input.old.now) result (text_input input.new.now) }
    ensures spared { IsSpared ⟦<ErrMode<EmptyError> as HasKind>⟧.kind (text_input input.old.now)
        result }
{
    read_units_of(Unit.by(read_unit), '\\', 'u', Unit.by(read_unit), input)
}
