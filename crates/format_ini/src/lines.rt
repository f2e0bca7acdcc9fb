//! The meaning of one line.

ghost use Rattle.std.specs.Prelude.{◌≡◌, ◌⊎◌, ◌≤◌, ◌<◌, ◌+◌, ◌^◌, [], List, ℕ};
ghost use Rattle.std.specs.Prelude.{IfOk, MatchOption, MatchResult, false, length};
ghost use Rattle.format_ini.specs.Front.{StartsWith};
ghost use Rattle.format_ini.specs.Lines.{IdleLineMeans, IsInvalidFor, IsLooseSection, IsPair};
ghost use Rattle.format_ini.specs.Lines.{IsSection, IsSectionHead, NoLooseSection, NoPair};
ghost use Rattle.format_ini.specs.Lines.{NoSection, NoSectionHead, OwnLineIsInvalid, OwnLineMeans};
ghost use Rattle.format_ini.specs.Lines.{Step, continued_indent, is_deeper, said_of, value_of};
ghost use Rattle.format_ini.specs.Places.{BehindBlanks, SaidAt, ValueAt};
ghost use Rattle.format_ini.specs.declared.dialect.Dialect.{Dialect};

use crate::dialect::{Continued, Dialect};
use crate::front::{Stop, around, cut, cut_last, first_is, is_comment, trim, without_comment};

/// The content of a line.
#[derive(Clone, Copy, Debug, PartialEq, Eq)]
pub enum Entry<'i> {
    /// `[name]` begins a section.
    Section(&'i str),
    /// A pair, with its value, or the part of the value on this line.
    Pair {
        /// The key, without whitespace at either end.
        key: &'i str,
        /// The value, without whitespace at either end; `None` if there is no delimiter.
        value: Option<&'i str>,
    },
    /// One more line of the value of the pair before, without whitespace at either end. It is
    /// empty for an empty line, also where no other line of the value follows.
    More(&'i str),
}

/// Why a line is none of the dialect.
#[derive(Clone, Copy, Debug, PartialEq, Eq)]
pub enum Reason {
    /// The line starts with `[` and has no `]`. Sections are not loose, also of the next two.
    OpenSection,
    /// There is nothing between `[` and `]`.
    EmptySection,
    /// There is text after the `]`.
    TextBehindSection,
    /// There is no section before the pair.
    NoSection,
    /// There is no key before the delimiter.
    NoKey,
    /// There is no delimiter.
    NoDelimiter,
}

/// The effect of the previous lines on the next one.
#[derive(Clone, Copy, Debug, PartialEq, Eq)]
pub struct State {
    /// Whether a section precedes the next line.
    pub section: bool,
    /// The number of blanks before the pair that the next line may continue, if there is one.
    pub pair: Option<usize>,
}

/// Where the texts of an entry begin.
#[derive(Clone, Copy, Debug, PartialEq, Eq)]
pub struct Places {
    /// Where the name of a section begins, a key, or one more line of a value. If that line is
    /// empty, where the line begins.
    pub head: usize,
    /// Where the value of a pair begins. An empty value begins right after the delimiter. Of an
    /// entry without a value it is the same as `head`.
    pub value: usize,
}

// The meaning of a line, the offsets of its texts, and the state after it.
#[derive(Clone, Copy)]
pub(crate) struct Line<'i> {
    pub(crate) entry: Option<Entry<'i>>,
    pub(crate) at: Places,
    pub(crate) next: State,
}

// A key, its value, and where both begin.
#[derive(Clone, Copy)]
struct Pair<'i> {
    key: &'i str,
    value: Option<&'i str>,
    at: Places,
}

// The same place for both.
fn both_at(place: usize) -> Places
    ensures { (result.head ≡ place) × (result.value ≡ place) }
{
    Places {
        head: place,
        value: place,
    }
}

// The name of the section that begins.
fn read_section(text: &str) -> Result<&str, Reason>
    requires { StartsWith (λ b. b ≡ 91) text.now }
    ensures { MatchResult result (λ name. IsSection text.now name.now)
        (λ why. NoSection text.now why) }
{
    let (_, inside) = around(text, 0);
    match cut(Stop::Bracket, inside) {
        None => Err(Reason::OpenSection),
        Some((name, _)) if name.is_empty() => Err(Reason::EmptySection),
        Some((name, left)) if left.is_empty() => Ok(name),
        Some(_) => Err(Reason::TextBehindSection),
    }
}

// Returns the name of the section that begins, up to the last `]`, or `None` if there is none.
fn read_loose(text: &str) -> Option<&str>
    requires { StartsWith (λ b. b ≡ 91) text.now }
    ensures { MatchOption result (NoLooseSection text.now)
        (λ name. IsLooseSection text.now name.now) }
{
    let (_, inside) = around(text, 0);
    match cut_last(inside) {
        None => None,
        Some((name, _)) => if name.is_empty() { None } else { Some(name) },
    }
}

// Returns the name of the section that begins, or `None` if the text is to be a pair.
fn read_head(dialect: Dialect, text: &str) -> Result<Option<&str>, Reason>
    requires { 0 < length text.now }
    ensures { MatchResult result
        (λ head. MatchOption head (NoSectionHead dialect text.now)
        (λ name. IsSectionHead dialect text.now name.now))
        (λ why. StartsWith (λ b. b ≡ 91) text.now × (dialect.loose_sections ≡ false)
        × NoSection text.now why) }
{
    if !first_is(text, b'[') {
        return Ok(None);
    }
    if dialect.loose_sections {
        return Ok(read_loose(text));
    }
    match read_section(text) {
        Ok(name) => Ok(Some(name)),
        Err(why) => Err(why),
    }
}

// Returns the number of blanks before a value. An empty value is before all of them.
fn gap_before(blanks: usize, value: &str) -> usize
    ensures few { result ≤ blanks }
    ensures gap { ((value.now ≡ []) × (result ≡ 0)) ⊎ ((value.now ≡ [] → ⊥) × (result ≡ blanks)) }
{
    if value.is_empty() { 0 } else { blanks }
}

// Returns the key and the value of a pair that begins at `place`.
fn read_pair<'i>(dialect: Dialect, place: usize, text: &'i str) -> Result<Pair<'i>, Reason>
    requires { place + length text.now < 2 ^ 63 }
    ensures pair { MatchResult result
        (λ it. IsPair dialect text.now it.key.now (value_of it.value))
        (λ why. NoPair dialect text.now why) }
    ensures key { IfOk result (λ it. BehindBlanks place text.now it.key.now it.at.head) }
    ensures value { IfOk result (λ it. ValueAt dialect place text.now (value_of it.value) it.at) }
{
    match cut(Stop::Delimiter(dialect.delimiters), text) {
        Some((before, _)) if before.is_empty() => Err(Reason::NoKey),
        Some((before, behind)) => {
            let (lead, key) = trim(before);
            let (blanks, value) = trim(behind);
            let gap = gap_before(blanks, value);
            let at = Places {
                head: place + lead,
                value: place + before.len() + 1 + gap,
            };
            Ok(Pair {
                key,
                value: Some(value),
                at,
            })
        }
        None if dialect.valueless => Ok(Pair {
            key: text,
            value: None,
            at: both_at(place),
        }),
        None => Err(Reason::NoDelimiter),
    }
}

// Returns the indentation of the pair that the next line may continue, after a pair.
fn after_pair(continued: Continued, indent: usize, value: Option<&str>) -> Option<usize>
    ensures { result ≡ continued_indent continued indent (value_of value.entry) }
{
    match continued {
        Continued::Never => None,
        Continued::UntilEmpty | Continued::PastEmpty => match value {
            Some(_) => Some(indent),
            None => None,
        },
    }
}

// Returns the meaning of a line of its own, whose text begins at this offset.
fn read_own<'i>(
    dialect: Dialect,
    state: State,
    indent: usize,
    place: usize,
    text: &'i str,
) -> Result<Line<'i>, Reason>
    requires some { 0 < length text.now }
    requires within { place + length text.now < 2 ^ 63 }
    ensures said { MatchResult result
        (λ line. OwnLineMeans dialect state indent text.now (said_of line.entry) line.next)
        (λ why. OwnLineIsInvalid dialect state text.now why) }
    ensures at { IfOk result (λ line. SaidAt dialect place text.now line.entry line.at) }
{
    if let Some(name) = read_head(dialect, text)? {
        let next = State {
            section: true,
            pair: None,
        };
        return Ok(Line {
            entry: Some(Entry::Section(name)),
            at: both_at(place + 1),
            next,
        });
    }
    if !state.section && !dialect.before_sections {
        return Err(Reason::NoSection);
    }
    let Pair { key, value, at } = read_pair(dialect, place, text)?;
    let next = State {
        section: state.section,
        pair: after_pair(dialect.continued, indent, value),
    };
    Ok(Line {
        entry: Some(Entry::Pair { key, value }),
        at,
        next,
    })
}

// Returns the meaning of an empty line or a comment that begins at `place`.
fn read_idle<'i>(continued: Continued, state: State, is_empty: bool, place: usize) -> Line<'i>
    ensures said { IdleLineMeans continued state is_empty (said_of result.entry) result.next }
    ensures at { (dialect : Dialect) (line : List ℕ)
        → SaidAt dialect place line result.entry result.at }
{
    let at = both_at(place);
    match continued {
        Continued::Never => Line {
            entry: None,
            at,
            next: state,
        },
        Continued::UntilEmpty => Line {
            entry: None,
            at,
            next: State {
                section: state.section,
                pair: None,
            },
        },
        Continued::PastEmpty => Line {
            entry: if is_empty && state.pair.is_some() {
                Some(Entry::More(""))
            } else {
                None
            },
            at,
            next: state,
        },
    }
}

// Returns whether a line of this indentation continues the value of the previous pair.
fn goes_on(pair: Option<usize>, depth: usize) -> bool
    ensures { result ≡ is_deeper pair depth }
{
    match pair {
        Some(pair) => pair < depth,
        None => false,
    }
}

// Returns the meaning of a line that begins at this offset.
pub(crate) fn read_line<'i>(
    dialect: Dialect,
    state: State,
    place: usize,
    line: &'i str,
) -> Result<Line<'i>, Reason>
    requires { place + length line.now < 2 ^ 63 }
    ensures said { MatchResult result
        (λ it. Step dialect state line.now (said_of it.entry) it.next)
        (λ why. IsInvalidFor dialect state line.now why) }
    ensures at { IfOk result (λ it. SaidAt dialect place line.now it.entry it.at) }
{
    let kept = without_comment(dialect.inline_comments, line);
    let (indent, text) = trim(kept);
    if text.is_empty() || is_comment(dialect.comments, text) {
        let is_empty = text.is_empty() && kept.len() == line.len();
        return Ok(read_idle(dialect.continued, state, is_empty, place));
    }
    if goes_on(state.pair, indent) {
        return Ok(Line {
            entry: Some(Entry::More(text)),
            at: both_at(place + indent),
            next: state,
        });
    }
    read_own(dialect, state, indent, place + indent, text)
}
