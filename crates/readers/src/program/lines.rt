//! The lines of answers.
ghost use Rattle.std.specs.Prelude.{◌≡◌, ◌++◌, map, IfOk, OnOk};
ghost use Rattle.readers.specs.Program.{document_lines, number_line, pair_line, refused_line};
ghost use Rattle.readers.specs.Program.{section_lines};
ghost use Rattle.readers.specs.Sections.{section_text};

use crate::ini::Section;
use std::alloc::{AllocError, Allocator};

/// The line of a pair.
pub(super) fn line_of_pair<A: Allocator>(
    alloc: A,
    key: &[u8],
    value: &[u8],
) -> Result<Vec<u8, A>, AllocError>
    ensures { IfOk result (λ v. v.items ≡ pair_line key.now value.now) }
{
    let mut line = Vec::new(alloc);
    push_pair(&mut line, key, value)?;
    Ok(line)
}

/// The line of a number.
pub(super) fn line_of_number<A: Allocator>(alloc: A, value: i64) -> Result<Vec<u8, A>, AllocError>
    ensures { IfOk result (λ v. v.items ≡ number_line value) }
{
    let line = format!(in alloc; "{value}\n")?;
    Ok(line.into_bytes())
}

/// Returns the line for rejected bytes.
pub(super) fn line_of_refusal<A: Allocator>(alloc: A, at: usize) -> Result<Vec<u8, A>, AllocError>
    ensures { IfOk result (λ v. v.items ≡ refused_line at) }
{
    let line = format!(in alloc; "refused at {at}\n")?;
    Ok(line.into_bytes())
}

/// The lines of a document's sections.
pub(super) fn lines_of_sections<A: Allocator + Copy>(
    alloc: A,
    sections: &[Section<'_, A>],
) -> Result<Vec<u8, A>, AllocError>
    ensures { IfOk result (λ v. v.items ≡ document_lines (map section_text sections.now)) }
{
    let mut lines = Vec::new(alloc);
    for section in sections {
        push_section(&mut lines, section)?;
    }
    Ok(lines)
}

/// Puts the lines of a section after others.
fn push_section<A: Allocator + Copy>(
    lines: &mut Vec<u8, A>,
    section: &Section<'_, A>,
) -> Result<(), AllocError>
    ensures { OnOk result
        (lines.new.items ≡ lines.old.items ++ section_lines (section_text section.now)) }
{
    lines.extend_from_slice(b"section ")?;
    lines.extend_from_slice(section.name.as_bytes())?;
    lines.extend_from_slice(b"\n")?;
    for (key, value) in section.pairs.as_slice() {
        push_pair(lines, key.as_bytes(), value.as_bytes())?;
    }
    Ok(())
}

/// Puts the line of a pair after others.
fn push_pair<A: Allocator>(
    lines: &mut Vec<u8, A>,
    key: &[u8],
    value: &[u8],
) -> Result<(), AllocError>
    ensures { OnOk result (lines.new.items ≡ lines.old.items ++ pair_line key.now value.now) }
{
    lines.extend_from_slice(key)?;
    lines.extend_from_slice(b": ")?;
    lines.extend_from_slice(value)?;
    lines.push(b'\n')?;
    Ok(())
}
