//! The effect of each character of a document, after those before it.
ghost use Rattle.format_toml_errors.specs.Steps.{after_step, back_to, behind_step, comment_step};
ghost use Rattle.format_toml_errors.specs.Steps.{in_line, is_bare, letter_of, long_step, name_step};
ghost use Rattle.format_toml_errors.specs.Steps.{next_step, plain_step, rest_of, sign_step};
ghost use Rattle.format_toml_errors.specs.Steps.{value_step};
ghost use Rattle.format_toml_errors.specs.declared.modes.Mode.TheVariants as modes;
ghost use Rattle.std.specs.Prelude.{◌≡◌, None};

use crate::figures::{Figure, Whole, ends_figure, figure_step};
use crate::modes::{Bracket, Gap, Letters, Mark, Mode, Owner, Role, Step};
use crate::moments::{digit, is_digit};
use crate::strings::{
    basic_step, blank_or, content_step, escaped_step, is_blank, is_shown, literal_step,
    long_escape_step, mark_of, quote_step,
};

/// Returns whether it is a character of a bare key.
fn is_bare(c: char) -> bool
    ensures { result ≡ is_bare c }
{
    ('A' <= c && c <= 'Z')
        || ('a' <= c && c <= 'z')
        || ('0' <= c && c <= '9')
        || c == '-'
        || c == '_'
}

/// Returns what is expected after a line that ended with a line feed after a carriage return.
fn back_to(gap: Gap) -> Mode
    ensures { result ≡ back_to gap }
{
    match gap {
        Gap::Line => Mode::Line,
        Gap::Item => Mode::Item,
        Gap::After => Mode::After,
    }
}

/// Returns the effect of the character that may begin a name of a key.
fn name_step(owner: Owner, c: char) -> Step
    ensures { result ≡ name_step owner c }
{
    if c == '"' {
        Step::Goes(Mode::Basic(Role::Name(owner)))
    } else if c == '\'' {
        Step::Goes(Mode::Literal(Role::Name(owner)))
    } else if is_bare(c) {
        Step::Goes(Mode::Bare(owner))
    } else {
        Step::Invalid
    }
}

/// Returns the effect of whitespace or the end of a line, or a comment, where a line may end.
fn in_line(gap: Gap, c: char) -> Step
    ensures { result ≡ in_line gap c }
{
    if is_blank(c) {
        Step::Goes(back_to(gap))
    } else if c == '\n' {
        match gap {
            Gap::Line => Step::Ends,
            other => Step::Goes(back_to(other)),
        }
    } else if c == '\r' {
        Step::Goes(Mode::Return(gap))
    } else if c == '#' {
        Step::Goes(Mode::Comment(gap))
    } else {
        Step::Invalid
    }
}

/// Returns the effect of a character where a line may begin.
fn line_step(c: char) -> Step
    ensures { result ≡ next_step modes.Line None c }
{
    match in_line(Gap::Line, c) {
        Step::Invalid if c == '[' => Step::Goes(Mode::Header),
        Step::Invalid => name_step(Owner::Entry, c),
        step => step,
    }
}

/// Returns the effect of a character of a comment.
fn comment_step(gap: Gap, c: char) -> Step
    ensures { result ≡ comment_step gap c }
{
    if c == '\n' || c == '\r' {
        in_line(gap, c)
    } else if is_shown(c) {
        Step::Goes(Mode::Comment(gap))
    } else {
        Step::Invalid
    }
}

/// Returns the effect of a character after a name of a key.
fn behind_step(owner: Owner, c: char) -> Step
    ensures { result ≡ behind_step owner c }
{
    if is_blank(c) {
        return Step::Goes(Mode::Behind(owner));
    }
    if c == '.' {
        return Step::Goes(Mode::Name(owner));
    }
    match owner {
        Owner::Entry | Owner::Member if c == '=' => Step::Goes(Mode::Value),
        Owner::Header if c == ']' => Step::Goes(Mode::After),
        Owner::Headers if c == ']' => Step::Goes(Mode::Closing),
        _ => Step::Invalid,
    }
}

/// Returns the effect of a character of a word or a sign that a value may begin with.
fn plain_step(c: char) -> Step
    ensures { result ≡ plain_step c }
{
    if c == 't' {
        Step::Goes(Mode::Word(Letters::Rue))
    } else if c == 'f' {
        Step::Goes(Mode::Word(Letters::Alse))
    } else if c == 'i' {
        Step::Goes(Mode::Word(Letters::Nf))
    } else if c == 'n' {
        Step::Goes(Mode::Word(Letters::An))
    } else if c == '+' || c == '-' {
        Step::Goes(Mode::Sign(c == '-'))
    } else if c == '0' {
        Step::Goes(Mode::Number(Figure::Zero))
    } else if is_digit(c) {
        Step::Goes(Mode::Number(Figure::Whole(Whole {
            digits: 1,
            negative: false,
            value: digit(c),
        })))
    } else {
        Step::Invalid
    }
}

/// Returns the effect of a character that a value may begin with.
fn value_step(c: char) -> Step
    ensures { result ≡ value_step c }
{
    if c == '"' {
        Step::Goes(Mode::Quote(Mark::Basic))
    } else if c == '\'' {
        Step::Goes(Mode::Quote(Mark::Literal))
    } else if c == '[' {
        Step::Opens(Bracket::Array)
    } else if c == '{' {
        Step::Opens(Bracket::Table)
    } else {
        plain_step(c)
    }
}

/// Returns the effect of a character where an element of an array or its end is expected.
fn item_step(c: char) -> Step
    ensures { result ≡ next_step modes.Item None c }
{
    match in_line(Gap::Item, c) {
        Step::Invalid if c == ']' => Step::Closes,
        Step::Invalid => value_step(c),
        step => step,
    }
}

/// Returns the effect of a character after a value in this bracket.
fn after_step(held: Option<Bracket>, c: char) -> Step
    ensures { result ≡ after_step held c }
{
    if is_blank(c) {
        return Step::Goes(Mode::After);
    }
    match held {
        None => in_line(Gap::Line, c),
        Some(Bracket::Array) if c == ',' => Step::Goes(Mode::Item),
        Some(Bracket::Array) if c == ']' => Step::Closes,
        Some(Bracket::Array) => in_line(Gap::After, c),
        Some(Bracket::Table) if c == ',' => Step::Goes(Mode::Name(Owner::Member)),
        Some(Bracket::Table) if c == '}' => Step::Closes,
        Some(Bracket::Table) => Step::Invalid,
    }
}

/// Returns the effect of a character of a multi-line string, after this many quotation marks. Three
/// to five of them end it.
fn long_step(mark: Mark, quotes: u64, held: Option<Bracket>, c: char) -> Step
    ensures { result ≡ long_step mark quotes held c }
{
    if c == mark_of(mark) && quotes < 5 {
        Step::Goes(Mode::Long(mark, quotes + 1))
    } else if quotes < 3 {
        content_step(mark, c)
    } else {
        after_step(held, c)
    }
}

/// Returns the first of these letters.
pub fn letter_of(letters: Letters) -> char
    ensures { result ≡ letter_of letters }
{
    match letters {
        Letters::Rue => 'r',
        Letters::Ue => 'u',
        Letters::E => 'e',
        Letters::Alse | Letters::An => 'a',
        Letters::Lse => 'l',
        Letters::Se => 's',
        Letters::Nf | Letters::N => 'n',
        Letters::F => 'f',
    }
}

/// Returns what is expected after the first of these letters.
fn rest_of(letters: Letters) -> Mode
    ensures { result ≡ rest_of letters }
{
    match letters {
        Letters::Rue => Mode::Word(Letters::Ue),
        Letters::Ue | Letters::Se => Mode::Word(Letters::E),
        Letters::Alse => Mode::Word(Letters::Lse),
        Letters::Lse => Mode::Word(Letters::Se),
        Letters::Nf => Mode::Word(Letters::F),
        Letters::An => Mode::Word(Letters::N),
        Letters::E | Letters::F | Letters::N => Mode::After,
    }
}

/// Returns the effect of the character after a sign.
fn sign_step(negative: bool, c: char) -> Step
    ensures { result ≡ sign_step negative c }
{
    if c == 'i' {
        Step::Goes(Mode::Word(Letters::Nf))
    } else if c == 'n' {
        Step::Goes(Mode::Word(Letters::An))
    } else if c == '0' {
        Step::Goes(Mode::Number(Figure::SignedZero))
    } else if is_digit(c) {
        Step::Goes(Mode::Number(Figure::Whole(Whole {
            digits: 5,
            negative,
            value: digit(c),
        })))
    } else {
        Step::Invalid
    }
}

/// Returns the effect of a character of a number, a date or a time, or after one.
fn number_step(figure: Figure, held: Option<Bracket>, c: char) -> Step
    ensures { result ≡ next_step (modes.Number figure) held c }
{
    match figure_step(figure, c) {
        Some(next) => Step::Goes(Mode::Number(next)),
        None if ends_figure(figure) => after_step(held, c),
        None => Step::Invalid,
    }
}

/// Returns the effect of a character if `mode` is expected in the bracket `held`, the last that was
/// opened.
pub fn next_step(mode: Mode, held: Option<Bracket>, c: char) -> Step
    ensures { result ≡ next_step mode held c }
{
    match mode {
        Mode::Line => line_step(c),
        Mode::Comment(gap) => comment_step(gap, c),
        Mode::Return(gap) if c == '\n' => Step::Goes(back_to(gap)),
        Mode::Header if c == '[' => Step::Goes(Mode::Name(Owner::Headers)),
        Mode::Header if is_blank(c) => Step::Goes(Mode::Name(Owner::Header)),
        Mode::Header => name_step(Owner::Header, c),
        Mode::Closing if c == ']' => Step::Goes(Mode::After),
        Mode::FirstName if c == '}' => Step::Closes,
        Mode::FirstName | Mode::Name(_) | Mode::Value if is_blank(c) => Step::Goes(mode),
        Mode::FirstName => name_step(Owner::Member, c),
        Mode::Name(owner) => name_step(owner, c),
        Mode::Value => value_step(c),
        Mode::Item => item_step(c),
        Mode::After => after_step(held, c),
        Mode::Bare(owner) if is_bare(c) => Step::Goes(Mode::Bare(owner)),
        Mode::Bare(owner) => behind_step(owner, c),
        Mode::Behind(owner) => behind_step(owner, c),
        Mode::Basic(role) => basic_step(role, c),
        Mode::Escaped(role, escape) => escaped_step(role, escape, c),
        Mode::Literal(role) => literal_step(role, c),
        Mode::Quote(mark) => quote_step(mark, c),
        Mode::Quotes(mark) if c == mark_of(mark) => Step::Goes(Mode::Long(mark, 0)),
        Mode::Quotes(_) => after_step(held, c),
        Mode::Long(mark, quotes) => long_step(mark, quotes, held, c),
        Mode::LongReturn(mark) if c == '\n' => Step::Goes(Mode::Long(mark, 0)),
        Mode::LongEscape(escape) => long_escape_step(escape, c),
        Mode::LongBlank => blank_or(Step::Invalid, c),
        Mode::Word(letters) if c == letter_of(letters) => Step::Goes(rest_of(letters)),
        Mode::Sign(negative) => sign_step(negative, c),
        Mode::Number(figure) => number_step(figure, held, c),
        Mode::Return(_) | Mode::Closing | Mode::LongReturn(_) | Mode::Word(_) => Step::Invalid,
    }
}
