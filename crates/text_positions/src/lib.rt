//! Lines and columns of a text.
#![tactic(auto)]

ghost use Rattle.std.specs.Prelude.{◌≡◌, ◌↔◌, IfSome, IsSome, List, take, ℕ};
ghost use Rattle.std.specs.Str.{IsCharBoundary, chars};
ghost use Rattle.text_positions.specs.Position.{IsPosition};

pub mod excerpt;

/// A place in a text, as a reader of the text would say it.
#[derive(Clone, Copy, Debug, PartialEq, Eq, Drop)]
pub struct Position {
    /// The number of the line, from 1 on: one more than the number of line feeds before the
    /// position.
    pub line: usize,
    /// The number of the column, from 1 on: one more than the number of characters since the last
    /// line feed before the position, or since the start of the text.
    pub column: usize,
}

/// Returns the line and the column of `offset`, in bytes from the start of a text.
///
/// Both are counted from 1, as compilers and editors show them. A column counts characters, and
/// neither bytes nor cells of a screen. A line ends with its line feed, so the carriage return of
/// `"\r\n"` is the last character of its line. The end of the text has a position too.
///
/// Returns `None` if the offset exceeds the length of the text or is within a character.
///
/// Reads the text before the offset once, and does not allocate.
///
/// ```
/// use text_positions::{Position, position_of};
///
/// let text = "größe=1\nhöhe?2\n";
/// assert_eq!(rt; position_of(text, 15), Some(Position { line: 2, column: 5 }));
/// assert_eq!(rt; position_of(text, 3), None);
/// ```
pub fn position_of(text: &str, offset: usize) -> Option<Position>
    ensures place { IfSome result (λ it.
        IsPosition (chars (take offset text.now)) it.line it.column) }
    ensures found { IsSome result ↔ IsCharBoundary text.now offset }
{
    let (before, _) = text.split_at_checked(offset)?;
    let mut line = 1;
    let mut column = 1;
    for c in before.chars() {
        if c == '\n' {
            line += 1;
            column = 1;
        } else {
            column += 1;
        }
    }
    Some(Position { line, column })
}

/// A place has one line and one column.
pub fn one_position()
    ensures { (before : List ℕ) (line column line' column' : ℕ) → IsPosition before line column
        → IsPosition before line' column' → (line ≡ line') × (column ≡ column') }
{}
