//! Why a value of JSON is not written.
ghost use Rattle.format_json_writer.specs.declared.error.WriteError.TheVariants.{Memory};
ghost use Rattle.std.specs.Prelude.{◌≡◌};

use std::alloc::AllocError;

/// Why a value was not written.
///
/// ```
/// use format_json_texts::value::Value;
/// use format_json_writer::error::WriteError;
/// use format_json_writer::value::to_text;
/// use std::alloc::Global;
///
/// let value: Value<Global> = Value::Array(Vec::new(alloc));
/// assert!(rt; matches!(to_text(alloc, 0, &value), Err(WriteError::Level)));
/// ```
#[derive(Clone, Copy, Debug, PartialEq, Eq)]
pub enum WriteError {
    /// The text of a number in the value is not a number of RFC 8259 (section 6).
    Number,
    /// Arrays and objects are nested deeper than the level allows.
    Level,
    /// Memory allocation failed.
    Memory,
}

impl From<AllocError> for WriteError {
    ghost from_gives = { λ _ e. e ≡ Memory };

    fn from(_error: AllocError) -> WriteError {
        WriteError::Memory
    }
}
