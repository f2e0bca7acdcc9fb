//! Lines (TOML 1.0: Key/Value Pair, Table, Array of Tables).

ghost use Rattle.std.specs.Str.{chars};
ghost use Rattle.streams.specs.Text.{text_input, text_reading};
ghost use Rattle.format_parts.specs.Words.{Char, latter};
ghost use Rattle.format_toml.specs.Grammars.{AnyItem, DoubleHeader, Entry, Header, Line, Table};
ghost use Rattle.format_toml.specs.Toml.{DocumentText, IsEntry, IsTable, IsTables};
ghost use Rattle.format_toml.specs.Unique.{item_unique, line_unique, table_unique};
ghost use Rattle.winnow_core.specs.Exact.{Reads};
ghost use Rattle.grammars.specs.Grammar.{Both};
ghost use Rattle.grammars.specs.Grammar.Meaning.{Meaning};
ghost use Rattle.winnow_grammar.specs.Told.{IsTextOf};

use crate::characters::Characters;
use crate::keys::{read_double, read_header};
use crate::parts::{parse_lines_of, read_line_of};
use crate::strings::begins_with;
use crate::value::Document;
use crate::values::read_entry;
use format_toml_tree::value::Item;
use std::alloc::Allocator;
use stream_errors::empty::EmptyError;
use stream_errors::fault::ParseFault;
use stream_errors::has_kind::HasKind;
use stream_errors::mode::ErrMode;
use stream_errors::parser_error::ParserError;
use winnow_ascii::ascii::impls::Space0;
use winnow_comb::combinator::{alt, preceded};
use winnow_core::parser::Parser;
use winnow_grammar::rule::Rule;
use winnow_token::token::take_while;

/// The name of a table of an array of tables, after the first bracket, as an item.
fn read_double_item<'i, A: Allocator + Copy>(
    alloc: A,
    input: &mut &'i str,
) -> Result<Item<A>, ErrMode<EmptyError>>
    ensures { Reads text_reading ⟦<ErrMode<EmptyError> as HasKind>⟧.kind
        (Meaning IsTables DoubleHeader)
        (text_input input.old.now) result (text_input input.new.now) }
{
    match read_double(alloc, input) {
        Ok(key) => Ok(Item::Tables(key)),
        Err(error) => Err(error),
    }
}

/// The name of a table, after the first bracket, as an item.
fn read_header_item<'i, A: Allocator + Copy>(
    alloc: A,
    input: &mut &'i str,
) -> Result<Item<A>, ErrMode<EmptyError>>
    ensures { Reads text_reading ⟦<ErrMode<EmptyError> as HasKind>⟧.kind (Meaning IsTable Header)
        (text_input input.old.now) result (text_input input.new.now) }
{
    match read_header(alloc, input) {
        Ok(key) => Ok(Item::Table(key)),
        Err(error) => Err(error),
    }
}

/// The name of what [`read_table`] reads.
#[derive(Clone, Copy, Drop)]
struct AnyTable<A>(A);

impl<'i, A: Allocator> Rule<&'i str, Item<A>> for AnyTable<A> {
    ghost grammar = { λ _. Table };

    ghost consumes = { λ _. ⊥ };

    fn name() {}

    ghost unique = { λ _. table_unique };

    ghost takes = { λ _ never. absurd never };
}

/// The name of a table, or of a table of an array of tables, after the first bracket.
fn read_table<'i, A: Allocator + Copy>(
    alloc: A,
    input: &mut &'i str,
) -> Result<Item<A>, ErrMode<EmptyError>>
    ensures { Reads text_reading ⟦<ErrMode<EmptyError> as HasKind>⟧.kind Table
        (text_input input.old.now) result (text_input input.new.now) }
{
    if begins_with(input, '[') {
        return read_double_item(alloc, input);
    }
    read_header_item(alloc, input)
}

/// The same with the first bracket.
fn read_table_item<'i, A: Allocator + Copy>(
    alloc: A,
    input: &mut &'i str,
) -> Result<Item<A>, ErrMode<EmptyError>>
    ensures { Reads text_reading ⟦<ErrMode<EmptyError> as HasKind>⟧.kind
        (Both latter (Char 91) Table)
        (text_input input.old.now) result (text_input input.new.now) }
{
    let table = AnyTable(alloc).by(|input: &mut &str| read_table(alloc, input));
    preceded('[', table).read(input)
}

/// Parses a key and a value as an item.
fn read_entry_item<'i, A: Allocator + Copy>(
    alloc: A,
    level: usize,
    input: &mut &'i str,
) -> Result<Item<A>, ErrMode<EmptyError>>
    ensures { Reads text_reading ⟦<ErrMode<EmptyError> as HasKind>⟧.kind
        (Meaning IsEntry (Entry level))
        (text_input input.old.now) result (text_input input.new.now) }
{
    match read_entry(alloc, level, input) {
        Ok((key, value)) => Ok(Item::Entry(key, value)),
        Err(error) => Err(error),
    }
}

/// The name of what [`read_item`] reads.
#[derive(Clone, Copy, Drop)]
struct TableOrEntry<A>(A, usize);

impl<'i, A: Allocator> Rule<&'i str, Item<A>> for TableOrEntry<A> {
    ghost grammar = { λ r. AnyItem r.1 };

    ghost consumes = { λ _. ⊥ };

    fn name() {}

    ghost unique = { λ r. item_unique r.1 };

    ghost takes = { λ _ never. absurd never };
}

/// Parses a table or an entry.
fn read_item<'i, A: Allocator + Copy>(
    alloc: A,
    level: usize,
    input: &mut &'i str,
) -> Result<Item<A>, ErrMode<EmptyError>>
    ensures { Reads text_reading ⟦<ErrMode<EmptyError> as HasKind>⟧.kind (AnyItem level)
        (text_input input.old.now) result (text_input input.new.now) }
{
    if begins_with(input, '[') {
        return read_table_item(alloc, input);
    }
    read_entry_item(alloc, level, input)
}

/// The name of what [`read_line`] reads.
#[derive(Clone, Copy, Drop)]
pub(crate) struct AnyLine<A>(pub(crate) A, pub(crate) usize);

impl<'i, A: Allocator> Rule<&'i str, Option<Item<A>>> for AnyLine<A> {
    ghost grammar = { λ r. Line r.1 };

    ghost consumes = { λ _. ⊥ };

    fn name() {}

    ghost unique = { λ r. line_unique r.1 };

    ghost takes = { λ _ never. absurd never };
}

/// Parses a line up to its line ending: an optional table or entry, and an optional comment.
pub(crate) fn read_line<'i, A: Allocator + Copy>(
    alloc: A,
    level: usize,
    input: &mut &'i str,
) -> Result<Option<Item<A>>, ErrMode<EmptyError>>
    ensures { Reads text_reading ⟦<ErrMode<EmptyError> as HasKind>⟧.kind (Line level)
        (text_input input.old.now) result (text_input input.new.now) }
{
    let item = TableOrEntry(alloc, level).by(|input: &mut &str| read_item(alloc, level, input));
    let comment = preceded('#', take_while(0.., Characters::Comment));
    read_line_of(item, comment, Space0, input)
}

/// Parses a document, all of the text: lines of TOML, separated by a line feed, or by a carriage
/// return and a line feed. Returns the statements of the lines in order; a line that is blank or
/// has only a comment has none, and takes no memory. An array may continue over line endings. The
/// arrays and inline tables of values are nested at most `level` deep, and each level uses some of
/// the stack, as in [`read_value`](crate::values::read_value). Lines may state a key or a table
/// again.
///
/// If the text is not such lines, the error gives the byte at which parsing stopped: at the first
/// line that is not TOML, which is tested, not proved. Otherwise the error is out of memory.
///
/// ```
/// use format_toml::lines::parse_lines;
/// use format_toml_tree::value::{Item, Value};
///
/// let text = "# who\n[server]\nport = 80 # of it\n";
/// let lines = parse_lines(alloc, 1, text);
/// assert!(rt; matches!(lines, Ok(lines) if lines.len() == 2));
/// let port = parse_lines(alloc, 1, "port = 80");
/// assert!(rt; matches!(port, Ok(lines)
///     if matches!(&lines[0], Item::Entry(_, Value::Integer(80)))));
/// assert!(rt; parse_lines(alloc, 1, "port = 080").is_err());
/// ```
pub fn parse_lines<'i, A: Allocator + Copy>(
    alloc: A,
    level: usize,
    text: &'i str,
) -> Result<Document<A>, ParseFault<&'i str, EmptyError>>
    ensures { IsTextOf ⟦<ErrMode<EmptyError> as ParserError<&'i str>>⟧.inner_kind
        (DocumentText level) (chars text.now) result }
{
    let line = AnyLine(alloc, level).by(|input: &mut &str| read_line(alloc, level, input));
    let newline = alt(('\n', preceded('\r', '\n')));
    parse_lines_of(alloc, line, newline, text)
}
