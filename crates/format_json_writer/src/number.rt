//! Numbers of JSON as text (RFC 8259, section 6).
ghost use Rattle.format_json_texts.specs.Number.{NumberText};
ghost use Rattle.format_parts.specs.Words.{Slice};
ghost use Rattle.format_json_writer.specs.Added.{IsPrefixOf, LacksRoom, PutsNumber};
ghost use Rattle.format_json_writer.specs.Refused.{IsNoNumber};
ghost use Rattle.format_json_writer.specs.declared.error.WriteError.TheVariants as errors;
ghost use Rattle.std.specs.Prelude.{◌≡◌, [], false, IfErr, IsTrue, OnOk, string_bytes};
ghost use Rattle.std.specs.Str.{chars};

use crate::error::WriteError;
use format_json_values::number::read_number;
use std::alloc::Allocator;

/// Returns whether the remaining text is empty.
fn is_read(rest: &str) -> bool
    ensures yes { IsTrue result → chars rest.now ≡ [] }
    ensures no { result ≡ false → chars rest.now ≡ [] → ⊥ }
{
    rest.is_empty()
}

/// Fails where a text is not a number, all of it. It needs no memory.
fn check_number(text: &str) -> Result<(), WriteError>
    ensures is { OnOk result ((slice : Slice) × NumberText slice (chars text.now)) }
    ensures none { IfErr result (IsNoNumber text.now) }
    ensures spared { IfErr result (λ e. e ≡ errors.Number) }
{
    let mut rest = text;
    match read_number(&mut rest) {
        Ok(_digits) => {
            if is_read(rest) {
                return Ok(());
            }
            Err(WriteError::Number)
        }
        Err(_) => Err(WriteError::Number),
    }
}

/// Appends a number, as it is written.
pub fn write_number<B: Allocator>(text: &str, into: &mut String<B>) -> Result<(), WriteError>
    ensures written { OnOk result (PutsNumber text.now (string_bytes into.old)
        (string_bytes into.new)) }
    ensures none { IfErr result (IsNoNumber text.now) }
    ensures kept { IsPrefixOf (string_bytes into.old) (string_bytes into.new) }
    ensures full { IfErr result (λ e. e ≡ errors.Memory → LacksRoom into.old text.now) }
{
    check_number(text)?;
    into.push_str(text)?;
    Ok(())
}
