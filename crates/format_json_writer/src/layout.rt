//! The whitespace between the parts of a text.
ghost use Rattle.format_json_writer.specs.Added.{IsPrefixOf, LacksRoom};
ghost use Rattle.format_json_writer.specs.Layout.{IsTooWide, deeper_of, line_in, line_of, space_of};
ghost use Rattle.format_json_writer.specs.declared.error.WriteError.TheVariants.{Memory};
ghost use Rattle.std.specs.Prelude.{◌≡◌, ◌≤◌, ◌++◌, IfErr, IfOk, OnErr, OnOk, string_bytes};
ghost use Rattle.std.specs.Prelude.{string_capacity};

use crate::error::WriteError;
use std::alloc::{AllocError, Allocator};

/// The whitespace of a text that is written.
///
/// ```
/// use format_json_values::value::parse_value;
/// use format_json_writer::layout::Layout;
/// use format_json_writer::value::to_text_with;
///
/// let Ok(value) = parse_value(alloc, 1, "{\"a\":1,\"b\":[]}") else {
///     return;
/// };
/// let text = to_text_with(alloc, 2, Layout::Lines { now: 0, step: 2 }, &value);
/// let lines = "{\n  \"a\": 1,\n  \"b\": []\n}";
/// assert!(rt; matches!(text, Ok(text) if text.as_str() == lines));
/// ```
#[derive(Clone, Copy, Debug, PartialEq, Eq)]
pub enum Layout {
    /// No whitespace.
    Compact,
    /// Each element and each member is on its own line, and a space follows each colon. An empty
    /// array or object is `[]` or `{}`.
    Lines {
        /// The indentation of the text, in spaces: 0, unless the text is a part of another.
        now: usize,
        /// The spaces that each array and object adds for its contents.
        step: usize,
    },
}

/// Returns the layout of the contents of an array or an object. Overflow is out of memory, since no
/// line has more bytes than `usize` can count.
pub fn deeper(layout: Layout) -> Result<Layout, WriteError>
    ensures deeper { IfOk result (λ inner. inner ≡ deeper_of layout) }
    ensures memory { IfErr result (λ e. e ≡ Memory) }
    ensures full { OnErr result (IsTooWide layout) }
{
    match layout {
        Layout::Compact => Ok(Layout::Compact),
        Layout::Lines { now, step } => match now.checked_add(step) {
            Some(now) => Ok(Layout::Lines { now, step }),
            None => Err(WriteError::Memory),
        },
    }
}

/// Appends the whitespace before an element or a member.
pub fn put_line<B: Allocator>(layout: Layout, into: &mut String<B>) -> Result<(), AllocError>
    ensures written { OnOk result
        (string_bytes into.new ≡ string_bytes into.old ++ line_of layout) }
    ensures kept { IsPrefixOf (string_bytes into.old) (string_bytes into.new) }
    ensures capacity { string_capacity into.old ≤ string_capacity into.new }
    ensures full { OnErr result (LacksRoom into.old (line_of layout)) }
{
    match layout {
        Layout::Compact => Ok(()),
        Layout::Lines { now, step: _ } => {
            into.push_str("\n")?;
            for _ in 0..now {
                into.push_str(" ")?;
            }
            Ok(())
        }
    }
}

/// Appends the whitespace before the first of some items or after the last, if there are any.
pub fn put_line_in<T, B: Allocator>(
    items: &[T],
    layout: Layout,
    into: &mut String<B>,
) -> Result<(), AllocError>
    ensures written { OnOk result (string_bytes into.new
        ≡ string_bytes into.old ++ line_in items.now layout) }
    ensures kept { IsPrefixOf (string_bytes into.old) (string_bytes into.new) }
    ensures capacity { string_capacity into.old ≤ string_capacity into.new }
    ensures full { OnErr result (LacksRoom into.old (line_in items.now layout)) }
{
    match items.split_first() {
        Some(_) => put_line(layout, into),
        None => Ok(()),
    }
}

/// Appends the whitespace after a colon.
pub fn put_space<B: Allocator>(layout: Layout, into: &mut String<B>) -> Result<(), AllocError>
    ensures written { OnOk result (string_bytes into.new
        ≡ string_bytes into.old ++ space_of layout) }
    ensures kept { IsPrefixOf (string_bytes into.old) (string_bytes into.new) }
    ensures capacity { string_capacity into.old ≤ string_capacity into.new }
    ensures full { OnErr result (LacksRoom into.old (space_of layout)) }
{
    match layout {
        Layout::Compact => Ok(()),
        Layout::Lines { now: _, step: _ } => into.push_str(" "),
    }
}
