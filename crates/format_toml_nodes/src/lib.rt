//! The tree of a TOML 1.0 document as an array of nodes, in two buffers of the caller: the nodes,
//! and the bytes of their names and texts. It does not allocate, and does not recurse.
//!
//! [`size_of`](nodes::size_of) returns how many nodes and bytes a tree needs, and
//! [`write_nodes`](nodes::write_nodes) writes them.
//!
//! [`find_entry`](find::find_entry) finds the node of a name in them, and
//! [`read_date_time`](date_times::read_date_time) returns a date-time as numbers.
//!
//! The nodes are in the order in which the document first mentions them. So the first is the table
//! that contains all others, and a table or an array precedes its contents. Each node has the
//! number of its parent, of its first child and of its next sibling, so that a caller walks them
//! with a loop.
#![tactic(auto)]

pub mod date_times;
pub mod find;
mod join;
mod links;
pub mod node;
pub mod nodes;
mod put;
mod values;
