//! The tree of a TOML 1.0 document (toml.io/en/v1.0.0), from the statements of its lines.
//!
//! The lines of a document are given by their statements, `&[Item<A>]`; a blank line has none.
//! Their text is parsed elsewhere. `build` returns their tree, or the first line that the standard
//! rejects. The definition is in `specs/Rules.antt`, a table of the effects of statements in the
//! words of the standard, and in `specs/Runs.antt`, the statements in sequence over a tree of
//! paths.
//!
//! - `build` is proved to return a tree if and only if the definition gives one, unless an
//!   allocation fails. The tree has the same contents at each path. Otherwise `build` returns the
//!   first line that the definition rejects, and why. `Tree::root`, `Node::get` and `Node::value`
//!   are proved to find the contents of the tree at a path, and so are `as_str`, `as_i64`,
//!   `as_bool`, `as_float` and `as_date_time`. `is_table`, `is_array`, `as_table` and `as_array`
//!   are proved to return its kind.
//! - `date_time` is proved to return the parts of a date, a time or both by `specs/Dates.antt`, and
//!   `None` if and only if the bytes are none of these, unless an allocation fails.
//! - `get_path` is proved to find the contents along names. `at`, `len`, `is_empty` and `name` are
//!   proved to list the entries of a table, each once, and the elements of an array. An entry that
//!   earlier lines name comes before one that only later lines name. The order of the entries of
//!   one inline table is only tested.
//!
//! Choices where the standard leaves room, or gives only examples:
//!
//! - A dotted key may add to a table that headers passed through, and that no header defines, as
//!   `[a.b.c]`, then `[a]` and `b.d = 1`. Then no header may define it. Python's `tomllib` does so
//!   too.
//! - The caller gives the maximum depth of tables and arrays: the standard has none.
#![tactic(auto)]

pub mod build;
pub mod date_times;
mod dates;
pub mod node;
pub mod roles;
pub mod slots;
mod times;
pub mod tree;
pub mod value;
