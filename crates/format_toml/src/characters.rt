//! Characters of keys, strings, comments, numbers and dates (TOML 1.0: Comment, Keys, String).
ghost use Rattle.std.specs.Prelude.{◌↔◌, IsTrue};
ghost use Rattle.format_toml.specs.Toml.{IsBare, IsOf, IsShown, IsUnquoted};

use stream_sets::sets::ContainsToken;

/// A set of characters.
///
/// ```
/// use format_toml::characters::Characters;
/// use winnow::stream::ContainsToken;
///
/// assert!(rt; Characters::Bare.contains_token('_'));
/// assert!(rt; !Characters::Bare.contains_token('.'));
/// assert!(rt; !Characters::Comment.contains_token('\u{7f}'));
/// assert!(rt; !Characters::Literal.contains_token('\''));
/// assert!(rt; Characters::Basic.contains_token('\t'));
/// assert!(rt; !Characters::Unquoted.contains_token(','));
/// assert!(rt; Characters::Digit.contains_token('7'));
/// ```
#[derive(Clone, Copy, Drop)]
pub enum Characters {
    /// Those of a bare key: letters and digits of ASCII, `-` and `_`.
    Bare,
    /// Those of a comment: all but control characters, and tabs.
    Comment,
    /// Those of a literal string: as of a comment, without `'`.
    Literal,
    /// Those of a basic string that stand for themselves: as of a comment, without `"` and `\`.
    Basic,
    /// Those of whitespace on a line: a space, and a tab.
    White,
    /// Those of numbers, dates and times: letters and digits of ASCII, `+`, `-`, `.`, `:` and `_`.
    Unquoted,
    /// Digits of ASCII.
    Digit,
}

/// Whether it is one of a bare key.
fn is_bare(c: char) -> bool
    ensures { IsTrue result ↔ IsBare c }
{
    ('A' <= c && c <= 'Z')
        || ('a' <= c && c <= 'z')
        || ('0' <= c && c <= '9')
        || c == '-'
        || c == '_'
}

/// Returns whether it is not a control character, or is a tab.
fn is_shown(c: char) -> bool
    ensures { IsTrue result ↔ IsShown c }
{
    c == '\t' || (' ' <= c && c <= '~') || '\u{80}' <= c
}

/// Whether it is one of a number, a date or a time.
fn is_unquoted(c: char) -> bool
    ensures { IsTrue result ↔ IsUnquoted c }
{
    ('0' <= c && c <= ':')
        || ('A' <= c && c <= 'Z')
        || ('a' <= c && c <= 'z')
        || c == '+'
        || ('-' <= c && c <= '.')
        || c == '_'
}

impl ContainsToken<char> for Characters {
    ghost tells = { λ s c b. IsTrue b ↔ IsOf s c };

    fn contains_token(&self, token: char) -> bool {
        match *self {
            Characters::Bare => is_bare(token),
            Characters::Comment => is_shown(token),
            Characters::Literal => is_shown(token) && token != '\'',
            Characters::Basic => is_shown(token) && token != '"' && token != '\\',
            Characters::White => token == ' ' || token == '\t',
            Characters::Unquoted => is_unquoted(token),
            Characters::Digit => '0' <= token && token <= '9',
        }
    }
}
