//! Nodes of the tree of a document.
ghost use Rattle.format_toml_tree.specs.Nodes.{Answers, AnswersAs, AnswersText, Finds, IsTop};
ghost use Rattle.format_toml_tree.specs.declared.value.DateTime.{DateTime as DateTimeOf};
ghost use Rattle.format_toml_tree.specs.declared.value.Float.{Float as FloatOf};
ghost use Rattle.format_toml_tree.specs.declared.value.Value.TheVariants as values;
ghost use Rattle.format_toml_tree.specs.Holds.{Contains, node_of};
ghost use Rattle.format_toml_tree.specs.Kinds.{AnswersItself, IsSlot, KindResult};
ghost use Rattle.format_toml_tree.specs.Rules.{IsArray, IsTable};
ghost use Rattle.format_toml_tree.specs.Access.{AreBelow, FindsAlong, FindsAt, IsLength, IsNameOf};
ghost use Rattle.std.specs.Borrow.{Bor};
ghost use Rattle.std.specs.Prelude.{◌↔◌, ◌≡◌, ℕ, IsTrue};

use crate::tree::{Kind, Slot, Tree};
use crate::value::{DateTime, Float, Value};
use std::alloc::Allocator;

/// A node at a path of a document: a table, an array, or another value.
#[derive(Clone, Copy)]
pub struct Node<'d, 't, A: Allocator> {
    tree: &'d Tree<'t, A>,
    place: usize,
}

/// Whether a place of this kind is a table.
fn shows_table<'t, A: Allocator>(kind: Kind<'t, A>) -> bool
    ensures { (n : ℕ) → IsTrue result ↔ IsTable (node_of kind.entry n) }
{
    match kind {
        Kind::Super | Kind::Header | Kind::Dotted => true,
        Kind::Tables => false,
        Kind::Value(value) => matches!(value, Value::Table(_)),
    }
}

/// Whether a place of this kind is an array.
fn shows_array<'t, A: Allocator>(kind: Kind<'t, A>) -> bool
    ensures { (n : ℕ) → IsTrue result ↔ IsArray (node_of kind.entry n) }
{
    match kind {
        Kind::Super | Kind::Header | Kind::Dotted => false,
        Kind::Tables => true,
        Kind::Value(value) => matches!(value, Value::Array(_)),
    }
}

/// Whether a place of this kind is a table or an array.
pub(crate) fn contains<'t, A: Allocator + Copy>(kind: Kind<'t, A>) -> bool
    ensures { IsTrue result ↔ Contains kind.entry }
{
    shows_table(kind) || shows_array(kind)
}

impl<'t, A: Allocator + Copy> Tree<'t, A> {
    /// The table that has all others.
    pub fn root(&self) -> Node<'_, 't, A>
        ensures { IsTop result self.now.slots.items }
    {
        Node {
            tree: self,
            place: 0,
        }
    }
}

impl<'d, 't, A: Allocator + Copy> Node<'d, 't, A> {
    /// Returns the slot at this path.
    fn slot(&self) -> Option<&'d Slot<'t, A>>
        ensures { IsSlot self.now result }
    {
        self.tree.slots.as_slice().get(self.place)
    }

    /// Returns the entry of a table with this name, if it has one. The time is by the logarithm of
    /// the number of entries. Returns `None` if the node is not a table.
    pub fn get(&self, name: &str) -> Option<Node<'d, 't, A>>
        ensures { Finds self.now name.now result }
    {
        let slot = self.slot()?;
        match slot.places.get(name).copied() {
            Some(place) => Some(Node {
                tree: self.tree,
                place,
            }),
            None => None,
        }
    }

    /// Returns the node along a path: an entry of this table, an entry of that, and so on.
    pub fn get_path(&self, names: &[&str]) -> Option<Node<'d, 't, A>>
        ensures { FindsAlong self.now names.now result }
    {
        let mut node = *self;
        for name in names {
            node = node.get(*name)?;
        }
        Some(node)
    }

    /// Returns the slots of the entries of a table, or of the elements of anything else.
    fn below(&self) -> &'d [usize]
        ensures { AreBelow self.now result.now }
    {
        match self.slot() {
            None => &[],
            Some(slot) if shows_table(slot.kind) => slot.entries.as_slice(),
            Some(slot) => slot.elements.as_slice(),
        }
    }

    /// Returns the number of entries of a table, or of elements of an array, and 0 for any other
    /// value.
    pub fn len(&self) -> usize
        ensures { IsLength self.now result }
    {
        self.below().len()
    }

    /// Returns whether the node has no entries and no elements.
    pub fn is_empty(&self) -> bool
        ensures { (n : ℕ) × IsLength self.now n × (IsTrue result ↔ n ≡ 0) }
    {
        self.len() == 0
    }

    /// Returns the entry of a table, or the element of an array, with this index. Entries are in
    /// the order in which the lines first name them.
    pub fn at(&self, index: usize) -> Option<Node<'d, 't, A>>
        ensures { FindsAt self.now index result }
    {
        match self.below().get(index).copied() {
            Some(place) => Some(Node {
                tree: self.tree,
                place,
            }),
            None => None,
        }
    }

    /// Returns the name of the node in its table. The name of the root and of an element of an
    /// array is empty.
    pub fn name(&self) -> &'t str
        ensures { IsNameOf self.now result.now }
    {
        match self.slot() {
            Some(slot) => slot.name,
            None => "",
        }
    }

    /// The value that a key gave it, as the line says it, if one did.
    pub fn value(&self) -> Option<&'t Value<A>>
        ensures { Answers self.now result }
    {
        let slot = self.slot()?;
        let kind = slot.kind;
        match kind {
            Kind::Value(value) => Some(value),
            _ => None,
        }
    }

    /// Whether it is a table, by headers, by dotted keys or inline.
    pub fn is_table(&self) -> bool
        ensures { KindResult IsTable self.now result }
    {
        match self.slot() {
            None => false,
            Some(slot) => shows_table(slot.kind),
        }
    }

    /// Whether it is an array, of tables or of values.
    pub fn is_array(&self) -> bool
        ensures { KindResult IsArray self.now result }
    {
        match self.slot() {
            None => false,
            Some(slot) => shows_array(slot.kind),
        }
    }

    /// The same, where it is a table.
    pub fn as_table(&self) -> Option<Node<'d, 't, A>>
        ensures { AnswersItself IsTable self.now result }
    {
        if self.is_table() { Some(*self) } else { None }
    }

    /// The same, where it is an array.
    pub fn as_array(&self) -> Option<Node<'d, 't, A>>
        ensures { AnswersItself IsArray self.now result }
    {
        if self.is_array() { Some(*self) } else { None }
    }

    /// The text, where it is a string.
    pub fn as_str(&self) -> Option<&'t str>
        ensures { AnswersText self.now result }
    {
        let value = self.value()?;
        match value {
            Value::Text(text) => Some(text.as_str()),
            _ => None,
        }
    }

    /// The number, where it is an integer.
    pub fn as_i64(&self) -> Option<i64>
        ensures { AnswersAs (λ n. values.Integer n) self.now result }
    {
        let value = self.value()?;
        match value {
            Value::Integer(number) => Some(*number),
            _ => None,
        }
    }

    /// The word, where it is `true` or `false`.
    pub fn as_bool(&self) -> Option<bool>
        ensures { AnswersAs (λ b. values.Boolean b) self.now result }
    {
        let value = self.value()?;
        match value {
            Value::Boolean(word) => Some(*word),
            _ => None,
        }
    }

    /// The float, where it is one.
    pub fn as_float(&self) -> Option<&'t Float<A>>
        ensures { AnswersAs (λ (f : Bor (FloatOf A)). values.Float f.now) self.now result }
    {
        let value = self.value()?;
        match value {
            Value::Float(float) => Some(float),
            _ => None,
        }
    }

    /// The date, the time or both, where it is such.
    pub fn as_date_time(&self) -> Option<&'t DateTime<A>>
        ensures { AnswersAs (λ (d : Bor (DateTimeOf A)). values.DateTime d.now) self.now result }
    {
        let value = self.value()?;
        match value {
            Value::DateTime(date_time) => Some(date_time),
            _ => None,
        }
    }
}
