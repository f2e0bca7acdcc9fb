//! The effect of each character of a string.
ghost use Rattle.format_toml_errors.specs.Steps.{basic_step, blank_or, content_step, end_of};
ghost use Rattle.format_toml_errors.specs.Steps.{is_blank, is_shown, literal_step};
ghost use Rattle.format_toml_errors.specs.Steps.{long_escape_step, mark_of, next_step, quote_step};
ghost use Rattle.format_toml_errors.specs.declared.modes.Mode.TheVariants as modes;
ghost use Rattle.std.specs.Prelude.{◌≡◌, None};

use crate::escapes::{Escape, Escaped, escape_step};
use crate::modes::{Mark, Mode, Role, Step};

/// Returns whether it is a space or a tab.
pub fn is_blank(c: char) -> bool
    ensures { result ≡ is_blank c }
{
    c == ' ' || c == '\t'
}

/// Returns whether it is a tab or not a control character.
pub fn is_shown(c: char) -> bool
    ensures { result ≡ is_shown c }
{
    c == '\t' || (' ' <= c && c <= '~') || '\u{80}' <= c
}

/// Returns the quotation mark.
pub fn mark_of(mark: Mark) -> char
    ensures { result ≡ mark_of mark }
{
    match mark {
        Mark::Basic => '"',
        Mark::Literal => '\'',
    }
}

/// Returns the input that is expected after a string on one line.
fn end_of(role: Role) -> Step
    ensures { result ≡ end_of role }
{
    match role {
        Role::Name(owner) => Step::Goes(Mode::Behind(owner)),
        Role::Value => Step::Goes(Mode::After),
    }
}

/// Returns the effect of a character of a basic string.
pub fn basic_step(role: Role, c: char) -> Step
    ensures { result ≡ basic_step role c }
{
    if c == '"' {
        end_of(role)
    } else if c == '\\' {
        Step::Goes(Mode::Escaped(role, Escape::Letter))
    } else if is_shown(c) {
        Step::Goes(Mode::Basic(role))
    } else {
        Step::Invalid
    }
}

/// Returns the effect of a character of a literal string.
pub fn literal_step(role: Role, c: char) -> Step
    ensures { result ≡ literal_step role c }
{
    if c == '\'' {
        end_of(role)
    } else if is_shown(c) {
        Step::Goes(Mode::Literal(role))
    } else {
        Step::Invalid
    }
}

/// Returns the effect of a character of an escape of a basic string.
pub fn escaped_step(role: Role, escape: Escape, c: char) -> Step
    ensures { result ≡ next_step (modes.Escaped role escape) None c }
{
    match escape_step(escape, c) {
        Escaped::Invalid => Step::Invalid,
        Escaped::More(next) => Step::Goes(Mode::Escaped(role, next)),
        Escaped::Done => Step::Goes(Mode::Basic(role)),
    }
}

/// Returns the effect of the character after the first quotation mark of a value.
pub fn quote_step(mark: Mark, c: char) -> Step
    ensures { result ≡ quote_step mark c }
{
    if c == mark_of(mark) {
        return Step::Goes(Mode::Quotes(mark));
    }
    match mark {
        Mark::Basic => basic_step(Role::Value, c),
        Mark::Literal => literal_step(Role::Value, c),
    }
}

/// Returns the effect of a character of a multi-line string other than its quotation mark.
pub fn content_step(mark: Mark, c: char) -> Step
    ensures { result ≡ content_step mark c }
{
    if c == '\r' {
        return Step::Goes(Mode::LongReturn(mark));
    }
    match mark {
        Mark::Basic if c == '\\' => Step::Goes(Mode::LongEscape(Escape::Letter)),
        _ if c == '\n' || is_shown(c) => Step::Goes(Mode::Long(mark, 0)),
        _ => Step::Invalid,
    }
}

/// Returns the effect of a character after a backslash and whitespace in a multi-line string:
/// more whitespace, or the end of the line.
pub fn blank_or(step: Step, c: char) -> Step
    ensures { result ≡ blank_or step c }
{
    if is_blank(c) {
        Step::Goes(Mode::LongBlank)
    } else if c == '\n' {
        Step::Goes(Mode::Long(Mark::Basic, 0))
    } else if c == '\r' {
        Step::Goes(Mode::LongReturn(Mark::Basic))
    } else {
        step
    }
}

/// Returns the effect of a character of an escape in a multi-line string.
pub fn long_escape_step(escape: Escape, c: char) -> Step
    ensures { result ≡ long_escape_step escape c }
{
    let step = match escape_step(escape, c) {
        Escaped::Invalid => Step::Invalid,
        Escaped::More(next) => Step::Goes(Mode::LongEscape(next)),
        Escaped::Done => Step::Goes(Mode::Long(Mark::Basic, 0)),
    };
    match escape {
        Escape::Letter => blank_or(step, c),
        _ => step,
    }
}
