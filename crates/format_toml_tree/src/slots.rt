//! The slots of a tree, in sequence.
ghost use Rattle.std.specs.Prelude.{◌≡◌};

use crate::tree::{Kind, Slot, Tree};
use std::alloc::Allocator;
use std::collections::BTreeMap;

impl<'t, A: Allocator + Copy> Tree<'t, A> {
    /// The places, in the order in which the lines first speak of them. The first is that of the
    /// table that has all others.
    ///
    /// ```
    /// use format_toml_tree::build::build;
    ///
    /// if let Ok(tree) = build(alloc, 0, &[]) {
    ///     assert_eq!(rt; tree.slots().len(), 1);
    /// }
    /// ```
    pub fn slots(&self) -> &[Slot<'t, A>]
        ensures { result.now ≡ self.now.slots.items }
    {
        self.slots.as_slice()
    }
}

impl<'t, A: Allocator + Copy> Slot<'t, A> {
    /// The value of a node.
    pub fn kind(&self) -> Kind<'t, A>
        ensures { result ≡ self.now.kind }
    {
        self.kind
    }

    /// Where the entries of a table are in [`Tree::slots`], by their names.
    pub fn places(&self) -> &BTreeMap<&'t str, usize, A>
        ensures { result.now ≡ self.now.places }
    {
        &self.places
    }

    /// Where the elements of an array are in [`Tree::slots`], in order.
    pub fn elements(&self) -> &[usize]
        ensures { result.now ≡ self.now.elements.items }
    {
        self.elements.as_slice()
    }
}
