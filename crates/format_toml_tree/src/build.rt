//! From the statements of a document to its tree.
ghost use Rattle.std.specs.Prelude.{◌≡◌, ℕ, [], IfOk, Ok, Err};
ghost use Rattle.format_toml_tree.specs.Runs.{Gives, IsWithin, Tree as Given, empty};
ghost use Rattle.format_toml_tree.specs.Answer.{Answers};
ghost use Rattle.format_toml_tree.specs.Holds.{HoldsTree};
ghost use Rattle.format_toml_tree.specs.Order.{HoldsInOrder};
ghost use Rattle.format_toml_tree.specs.declared.build.TreeError.TheVariants.{Invalid};
ghost use Rattle.format_toml_tree.specs.declared.roles.Reason.{Reason};
ghost use Rattle.format_toml_tree.specs.declared.tree.Stop.TheVariants.{Invalid as StoppedBy};

use crate::roles::Reason;
use crate::tree::{Stop, Tree};
use crate::value::Item;
use std::alloc::{AllocError, Allocator};
use std::error::Error;
use std::fmt;
use std::fmt::{Display, Formatter};

/// Why some statements have no tree. As text the number of a statement is counted from 1.
///
/// ```
/// use format_toml_tree::build::TreeError;
/// use format_toml_tree::roles::Reason;
///
/// let fault = TreeError::Invalid { statement: 2, why: Reason::NoTable };
/// let said = format!(in alloc; "{fault}");
/// let wanted = "statement 3: key is not a table";
/// assert!(rt; matches!(said, Ok(said) if said.as_str() == wanted));
/// ```
#[derive(Debug, Clone, Copy, PartialEq, Eq, Drop)]
pub enum TreeError {
    /// Memory allocation failed.
    OutOfMemory,
    /// A statement is rejected.
    Invalid {
        /// Its number, counted from 0.
        statement: usize,
        /// The reason for the rejection.
        why: Reason,
    },
}

impl From<AllocError> for TreeError {
    ghost use Rattle.format_toml_tree.specs.declared.build.TreeError.TheVariants.{OutOfMemory};

    ghost from_gives = { λ _ r. r ≡ OutOfMemory };

    fn from(_e: AllocError) -> TreeError {
        TreeError::OutOfMemory
    }
}

impl Display for TreeError {
    fn fmt<W: fmt::Write>(&self, f: &mut Formatter<W>) -> fmt::Result {
        match *self {
            TreeError::OutOfMemory => f.write_str("out of memory"),
            TreeError::Invalid { statement, why } => {
                write!(f, "statement {}: {why}", statement.saturating_add(1))
            }
        }
    }
}

impl Error for TreeError {}

/// Why some statements have no tree, where the one on this line stops.
fn fault_at(line: usize, stop: Stop) -> TreeError
    ensures { (at : ℕ) (why : Reason) → result ≡ Invalid at why
        → (at ≡ line) × (stop ≡ StoppedBy why) }
{
    match stop {
        Stop::OutOfMemory => TreeError::OutOfMemory,
        Stop::Invalid(why) => TreeError::Invalid {
            statement: line,
            why,
        },
    }
}

/// Builds the tree of the statements of some lines, or returns the first that is rejected.
///
/// Each table and array of the tree is nested at most `level` deep: `[a]`, `a.b = 1` and `a = {}`
/// make a table at depth 1, `[[a]]` an array at depth 1 and its tables at depth 2. So a caller who
/// recurses into the tree needs a stack for `level` calls.
///
/// The error has the number of the statement, counted from 0, and why it is rejected; or memory
/// allocation failed. The tree borrows names and values from the lines. The time is by the number
/// of all names, and for each by the logarithm of the number of entries of its table.
///
/// ```
/// use format_toml_tree::build::build;
/// use format_toml_tree::value::{Item, Key, Value};
///
/// // What `port = 80` says.
/// let mut names = Vec::new(alloc);
/// if let Ok(name) = String::from_str(alloc, "port") {
///     let _ = names.push(name);
/// }
/// let lines = [Item::Entry(Key { names }, Value::Integer(80))];
/// match build(alloc, 0, &lines) {
///     Ok(tree) => {
///         let port = tree.root().get("port").and_then(|node| node.as_i64());
///         assert_eq!(rt; port, Some(80));
///     }
///     Err(_) => assert!(rt; false),
/// }
/// ```
pub fn build<'t, A: Allocator + Copy>(
    alloc: A,
    level: usize,
    lines: &'t [Item<A>],
) -> Result<Tree<'t, A>, TreeError>
    ensures answers { Answers level lines.now result }
    ensures accepted { IfOk result
        (λ tree. (given : Given A) × Gives level (empty, []) 0 lines.now (Ok given)
        × HoldsTree tree.slots.items given × IsWithin level given) }
    ensures order { IfOk result (λ tree. HoldsInOrder level lines.now tree.slots.items) }
    ensures refused { (line : ℕ) (why : Reason) → result ≡ Err (Invalid line why)
        → Gives level (empty, []) 0 lines.now (Err (line, why)) }
{
    let mut tree = Tree::new(alloc)?;
    let mut table = 0;
    for line in 0..lines.len() {
        match tree.add_line(alloc, level, table, &lines[line]) {
            Ok(next) => table = next,
            Err(stop) => return Err(fault_at(line, stop)),
        }
    }
    tree.slots.shrink_to_fit();
    Ok(tree)
}
