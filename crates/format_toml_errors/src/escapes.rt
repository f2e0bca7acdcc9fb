//! The characters of an escape of a basic string, one by one.
ghost use Rattle.format_toml_errors.specs.Escapes.{escape_step, is_hex, is_named, more_if};
ghost use Rattle.std.specs.Prelude.{◌≡◌};

/// The input that is expected next in an escape.
#[derive(Clone, Copy, Drop)]
pub enum Escape {
    /// The character after the backslash.
    Letter,
    /// Four hexadecimal digits that are not a surrogate.
    Unit,
    /// The second of them, after a D.
    AfterD,
    /// Any four hexadecimal digits.
    Four,
    /// Three of them.
    Three,
    /// Two of them.
    Two,
    /// One of them.
    One,
    /// Eight hexadecimal digits of a character.
    Eight,
    /// Seven of them, after a zero.
    Seven,
    /// Six of them, after two zeros.
    Six,
    /// Five of them, after three zeros.
    Five,
    /// Five of them, after two zeros and a one.
    FiveHigh,
}

/// The effect of a character of an escape.
#[derive(Clone, Copy, Drop)]
pub enum Escaped {
    /// No escape has it there.
    Invalid,
    /// The escape continues.
    More(Escape),
    /// It is the last one.
    Done,
}

/// Returns whether it is a hexadecimal digit.
pub fn is_hex(c: char) -> bool
    ensures { result ≡ is_hex c }
{
    ('0' <= c && c <= '9') || ('A' <= c && c <= 'F') || ('a' <= c && c <= 'f')
}

/// The escape continues if the test holds.
fn more_if(test: bool, escape: Escape) -> Escaped
    ensures { result ≡ more_if test escape }
{
    if test {
        Escaped::More(escape)
    } else {
        Escaped::Invalid
    }
}

/// Returns whether it is an escape with the backslash before it.
fn is_named(c: char) -> bool
    ensures { result ≡ is_named c }
{
    c == 'b' || c == 't' || c == 'n' || c == 'f' || c == 'r' || c == '"' || c == '\\'
}

/// Returns the effect of a character of an escape.
pub fn escape_step(escape: Escape, c: char) -> Escaped
    ensures { result ≡ escape_step escape c }
{
    match escape {
        Escape::Letter if c == 'u' => Escaped::More(Escape::Unit),
        Escape::Letter if c == 'U' => Escaped::More(Escape::Eight),
        Escape::Letter if is_named(c) => Escaped::Done,
        Escape::Unit if c == 'D' || c == 'd' => Escaped::More(Escape::AfterD),
        Escape::Unit => more_if(is_hex(c), Escape::Three),
        Escape::AfterD => more_if('0' <= c && c <= '7', Escape::Two),
        Escape::Four => more_if(is_hex(c), Escape::Three),
        Escape::Three => more_if(is_hex(c), Escape::Two),
        Escape::Two => more_if(is_hex(c), Escape::One),
        Escape::One if is_hex(c) => Escaped::Done,
        Escape::Letter | Escape::One => Escaped::Invalid,
        Escape::Eight => more_if(c == '0', Escape::Seven),
        Escape::Seven => more_if(c == '0', Escape::Six),
        Escape::Six if c == '1' => Escaped::More(Escape::FiveHigh),
        Escape::Six => more_if(c == '0', Escape::Five),
        Escape::Five if c == '0' => Escaped::More(Escape::Unit),
        Escape::Five => more_if(is_hex(c), Escape::Four),
        Escape::FiveHigh => more_if(c == '0', Escape::Four),
    }
}
