//! The statements of a document.

use format_toml_tree::value::Item;
use std::alloc::Allocator;

/// The statements of the lines, in order. A line that is blank or has only a comment has none.
pub type Document<A> = Vec<Item<A>, A>;
