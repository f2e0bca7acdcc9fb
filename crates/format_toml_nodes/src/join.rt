//! Links from each node to its first child and to its next sibling.
ghost use Rattle.std.specs.Prelude.{◌<◌, length};
ghost use Rattle.format_toml_nodes.specs.Laying.{AreApart, JoinsFrom, JoinsOne};

use crate::node::TomlNode;
use crate::put::{put_first, put_next};

/// Puts a node first in the one that it is in.
fn join_one(number: usize, nodes: &mut [TomlNode])
    requires { number < length nodes.old }
    ensures { JoinsOne number nodes.old nodes.new }
{
    let parent = nodes[number].parent;
    if parent < nodes.len() {
        let next = nodes[parent].first;
        put_next(number, next, nodes);
        put_first(parent, number, nodes);
    }
}

/// Links nodes that have their parents.
pub(crate) fn join(nodes: &mut [TomlNode])
    requires { AreApart nodes.old }
    ensures { JoinsFrom 1 nodes.old nodes.new }
{
    let mut from = nodes.len();
    while from > 1 {
        from -= 1;
        join_one(from, nodes);
    }
}
