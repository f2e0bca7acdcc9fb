//! Statements about a name, and their effects.
ghost use Rattle.std.specs.Prelude.{◌≡◌, ℕ, Ok, Err};
ghost use Rattle.format_toml_tree.specs.Rules.{no_table, nothing, ruled};
ghost use Rattle.format_toml_tree.specs.Holds.{node_of, nodes_of, says_of};

use crate::tree::Kind;
use crate::value::Value;
use std::alloc::Allocator;
use std::error::Error;
use std::fmt;
use std::fmt::{Display, Formatter};

/// The reason why a line is rejected.
///
/// ```
/// use format_toml_tree::roles::Reason;
///
/// let said = format!(in alloc; "{}", Reason::Defined);
/// assert!(rt; matches!(said, Ok(said) if said.as_str() == "key is already defined"));
/// ```
#[derive(Debug, Clone, Copy, PartialEq, Eq, Drop)]
pub enum Reason {
    /// It defines a key that is defined already.
    Defined,
    /// It takes a value for a table.
    NoTable,
    /// It adds to a table that is closed: an inline table, or by dotted keys one of a header.
    Closed,
    /// It adds a table to a value that is not an array of tables.
    NoTables,
    /// It makes a table or an array that is nested more deeply than the level.
    TooDeep,
}

impl Display for Reason {
    fn fmt<W: fmt::Write>(&self, f: &mut Formatter<W>) -> fmt::Result {
        f.write_str(match *self {
            Reason::Defined => "key is already defined",
            Reason::NoTable => "key is not a table",
            Reason::Closed => "table cannot be extended",
            Reason::NoTables => "key is not an array of tables",
            Reason::TooDeep => "table or array is nested too deep",
        })
    }
}

impl Error for Reason {}

/// The statement of a line about a name.
#[derive(Clone, Copy)]
pub enum Role<'t, A: Allocator> {
    /// A header passes through it.
    Through,
    /// It is the table of a header.
    Header,
    /// It is an array of tables, to which the line adds one.
    Tables,
    /// A dotted key passes through it.
    Dotted,
    /// It has a value.
    Value(&'t Value<A>),
}

/// Returns why a value is not a table that a line can add to.
fn closed<A: Allocator>(value: &Value<A>) -> Reason
    ensures { result ≡ no_table value.now }
{
    match value {
        Value::Table(_) => Reason::Closed,
        _ => Reason::NoTable,
    }
}

/// Returns the kind that a new slot has after this statement of a line.
pub fn first<'t, A: Allocator>(role: Role<'t, A>) -> Kind<'t, A>
    ensures { ruled (says_of role.entry) nothing ≡ Ok (node_of result 0) }
{
    match role {
        Role::Through => Kind::Super,
        Role::Header => Kind::Header,
        Role::Tables => Kind::Tables,
        Role::Dotted => Kind::Dotted,
        Role::Value(value) => Kind::Value(value),
    }
}

/// Returns the kind that an existing slot has after this statement of a line, or why the line is
/// rejected.
pub fn next<'t, A: Allocator>(kind: &Kind<'t, A>, role: Role<'t, A>) -> Result<Kind<'t, A>, Reason>
    ensures { (n : ℕ) → ruled (says_of role.entry) (node_of kind.now n) ≡ nodes_of result n }
{
    match (role, kind) {
        (Role::Through, Kind::Super) => Ok(Kind::Super),
        (Role::Through, Kind::Header) => Ok(Kind::Header),
        (Role::Through, Kind::Dotted) => Ok(Kind::Dotted),
        (Role::Through, Kind::Tables) => Ok(Kind::Tables),
        (Role::Through, Kind::Value(value)) => Err(closed(*value)),
        (Role::Header, Kind::Super) => Ok(Kind::Header),
        (Role::Header, _) => Err(Reason::Defined),
        (Role::Tables, Kind::Tables) => Ok(Kind::Tables),
        (Role::Tables, _) => Err(Reason::NoTables),
        (Role::Dotted, Kind::Super | Kind::Dotted) => Ok(Kind::Dotted),
        (Role::Dotted, Kind::Value(value)) => Err(closed(*value)),
        (Role::Dotted, _) => Err(Reason::Closed),
        (Role::Value(_), _) => Err(Reason::Defined),
    }
}
