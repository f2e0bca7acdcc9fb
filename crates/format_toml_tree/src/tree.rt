//! The tree of a document.
ghost use Rattle.std.specs.Prelude.{◌≡◌, ◌<◌, length, IfOk, slice_get, Some};
ghost use Rattle.format_toml_tree.specs.Runs.{Fills, FillsEntry, FillsNames, FillsPlaces};
ghost use Rattle.format_toml_tree.specs.Holds.{AddsElement, AddsEntry, AddsItem, AddsLine, FillsBy};
ghost use Rattle.format_toml_tree.specs.Holds.{FitResult, IsInside, IsValueAt, Opens};
ghost use Rattle.format_toml_tree.specs.Holds.{IsTreeAt, Pushes, SaysKey, SaysName, Sets};
ghost use Rattle.format_toml_tree.specs.Holds.{StartsEmpty, node_at};
ghost use Rattle.format_toml_tree.specs.Holds.{says_of};

use crate::node::contains;
use crate::roles::{Reason, Role, first, next};
use crate::value::{Item, Key, Value};
use std::alloc::{AllocError, AllocFailed, Allocator};
use std::collections::BTreeMap;

/// The contents of a slot of a tree.
#[derive(Clone, Copy)]
pub enum Kind<'t, A: Allocator> {
    /// A value. The places below it are those of its parts, where it has some.
    Value(&'t Value<A>),
    /// A table that headers pass through.
    Super,
    /// A table of a header, or of an array of tables.
    Header,
    /// A table that dotted keys pass through.
    Dotted,
    /// An array of tables.
    Tables,
}

/// A slot of a tree: its contents, and the slots below it.
#[derive(Drop)]
pub struct Slot<'t, A: Allocator> {
    /// The value of a node.
    pub(crate) kind: Kind<'t, A>,
    /// The number of steps to it from the first slot.
    pub(crate) depth: usize,
    /// Its name in the table that it is in; nothing where it is in an array.
    pub(crate) name: &'t str,
    /// Where its entries are, by their names.
    pub(crate) places: BTreeMap<&'t str, usize, A>,
    /// Where its entries are, in the order in which they were first named.
    pub(crate) entries: Vec<usize, A>,
    /// Where its elements are, in order.
    pub(crate) elements: Vec<usize, A>,
}

/// The tree of a document.
#[derive(Drop)]
pub struct Tree<'t, A: Allocator> {
    /// The places. The first is that of the table that has all others.
    pub(crate) slots: Vec<Slot<'t, A>, A>,
}

/// Why a line adds nothing more.
#[derive(Debug, Clone, Copy, PartialEq)]
pub enum Stop {
    /// Memory allocation failed.
    OutOfMemory,
    /// The line is rejected.
    Invalid(Reason),
}

impl From<AllocError> for Stop {
    ghost use Rattle.format_toml_tree.specs.declared.tree.Stop.TheVariants.{OutOfMemory};

    ghost from_gives = { λ _ r. r ≡ OutOfMemory };

    fn from(_e: AllocError) -> Stop {
        Stop::OutOfMemory
    }
}

impl<'t, A: Allocator + Copy> Tree<'t, A> {
    /// A tree with nothing in it.
    pub(crate) fn new(alloc: A) -> Result<Tree<'t, A>, AllocError>
        ensures { IfOk result (λ tree. StartsEmpty tree.slots.items) }
    {
        let mut tree = Tree {
            slots: Vec::new(alloc),
        };
        tree.push(alloc, 0, "", Kind::Header)?;
        Ok(tree)
    }

    /// Adds a place, below none, and answers it.
    fn push(
        &mut self,
        alloc: A,
        depth: usize,
        name: &'t str,
        kind: Kind<'t, A>,
    ) -> Result<usize, AllocError>
        ensures { IfOk result (λ j. Pushes self.old.slots.items depth name.now kind.entry j
            self.new.slots.items) }
    {
        let place = self.slots.len();
        let slot = Slot {
            kind,
            depth,
            name,
            places: BTreeMap::new(alloc),
            entries: Vec::new(alloc),
            elements: Vec::new(alloc),
        };
        self.slots.push(slot)?;
        Ok(place)
    }

    /// Adds an entry to a table, and answers its place.
    fn add_entry(
        &mut self,
        alloc: A,
        table: usize,
        name: &'t str,
        kind: Kind<'t, A>,
    ) -> Result<usize, AllocError>
        requires { table < length self.old.slots.items }
        ensures { IfOk result (λ j. AddsEntry self.old.slots.items table name.now kind.entry j
            self.new.slots.items) }
    {
        let depth = self.slots[table].depth.saturating_add(1);
        let place = self.push(alloc, depth, name, kind)?;
        let slot = &mut self.slots[table];
        slot.places.insert(name, place)?;
        slot.entries.push(place)?;
        Ok(place)
    }

    /// Adds an element to an array, and answers its place.
    fn add_element(
        &mut self,
        alloc: A,
        array: usize,
        kind: Kind<'t, A>,
    ) -> Result<usize, AllocError>
        requires { array < length self.old.slots.items }
        ensures { IfOk result (λ j. AddsElement self.old.slots.items array kind.entry j
            self.new.slots.items) }
    {
        let depth = self.slots[array].depth.saturating_add(1);
        let place = self.push(alloc, depth, "", kind)?;
        let slot = &mut self.slots[array];
        slot.elements.push(place)?;
        Ok(place)
    }

    /// Returns the slot in which lines that pass through `place` continue: of an array of tables,
    /// the last table.
    fn inside(&self, place: usize) -> usize
        requires { place < length self.now.slots.items }
        ensures { (s : Slot A) → slice_get self.now.slots.items place ≡ Some s
            → IsInside (node_at s) s.elements.items place result }
    {
        let slot = &self.slots[place];
        match (slot.kind, slot.elements.as_slice().last()) {
            (Kind::Tables, Some(last)) => *last,
            _ => place,
        }
    }

    /// Sets what there is at a name in a table, as a line says, and answers its place.
    fn set(
        &mut self,
        alloc: A,
        table: usize,
        name: &'t str,
        role: Role<'t, A>,
    ) -> Result<usize, Stop>
        requires { IsTreeAt self.old.slots.items table }
        ensures { Sets self.old.slots.items table name.now (says_of role.entry) result
            self.new.slots.items }
    {
        let found = self.slots[table].places.get(name).copied();
        match found {
            Some(place) => {
                let slot = &mut self.slots[place];
                match next(&slot.kind, role) {
                    Ok(kind) => {
                        slot.kind = kind;
                        Ok(place)
                    }
                    Err(why) => Err(Stop::Invalid(why)),
                }
            }
            None => Ok(self.add_entry(alloc, table, name, first(role))?),
        }
    }

    /// Returns the slot in which lines with a statement about `place` continue: the table that it
    /// adds, or the one inside.
    fn open(&mut self, alloc: A, place: usize, role: Role<'t, A>) -> Result<usize, AllocError>
        requires { place < length self.old.slots.items }
        ensures { IfOk result (λ j. Opens self.old.slots.items place (says_of role.entry) j
            self.new.slots.items) }
    {
        match role {
            Role::Tables => match self.slots[place].kind {
                Kind::Tables => self.add_element(alloc, place, Kind::Header),
                _ => Ok(place),
            },
            _ => Ok(self.inside(place)),
        }
    }

    /// Applies a statement to a name in a table, and returns the slot in which lines continue.
    fn say(
        &mut self,
        alloc: A,
        table: usize,
        name: &'t str,
        role: Role<'t, A>,
    ) -> Result<usize, Stop>
        requires { IsTreeAt self.old.slots.items table }
        ensures { SaysName self.old.slots.items table name.now (says_of role.entry) result
            self.new.slots.items }
    {
        let place = self.set(alloc, table, name, role)?;
        Ok(self.open(alloc, place, role)?)
    }

    /// Says something of the last name of a key, and of those before it that it passes them.
    fn say_key(
        &mut self,
        alloc: A,
        table: usize,
        key: &'t Key<A>,
        passes: Role<'t, A>,
        role: Role<'t, A>,
    ) -> Result<usize, Stop>
        requires { IsTreeAt self.old.slots.items table }
        ensures { SaysKey self.old.slots.items table key.now.names.items (says_of passes.entry)
            (says_of role.entry) result self.new.slots.items }
    {
        let names = key.names.as_slice();
        let mut table = table;
        for i in 0..names.len() {
            let here = if i + 1 < names.len() { passes } else { role };
            table = self.say(alloc, table, names[i].as_str(), here)?;
        }
        Ok(table)
    }

    /// Adds the parts of a value below its place: the elements of an array, the entries of an
    /// inline table.
    #[cycle(fill)]
    fn fill(&mut self, alloc: A, place: usize, value: &'t Value<A>) -> Result<(), Stop>
        requires { IsTreeAt self.old.slots.items place }
        ensures { FillsBy (λ t p r. Fills t p value.now r) self.old.slots.items place result
            self.new.slots.items }
    {
        let Kind::Value(_) = self.slots[place].kind else {
            return Ok(());
        };
        match value {
            Value::Array(parts) => self.fill_elements(alloc, place, parts.as_slice()),
            Value::Table(parts) => self.fill_entries(alloc, place, parts.as_slice()),
            _ => Ok(()),
        }
    }

    /// Adds elements to an array, with their parts.
    #[cycle(fill)]
    fn fill_elements(&mut self, alloc: A, place: usize, parts: &'t [Value<A>]) -> Result<(), Stop>
        requires stands { IsTreeAt self.old.slots.items place }
        requires valued { IsValueAt self.old.slots.items place }
        ensures { FillsBy (λ t p r. FillsPlaces t p parts.now r) self.old.slots.items place result
            self.new.slots.items }
    {
        for part in parts {
            let below = self.add_element(alloc, place, Kind::Value(part))?;
            self.fill(alloc, below, part)?;
        }
        Ok(())
    }

    /// Adds entries to an inline table, with their parts.
    #[cycle(fill)]
    fn fill_entries(
        &mut self,
        alloc: A,
        place: usize,
        parts: &'t [(Key<A>, Value<A>)],
    ) -> Result<(), Stop>
        requires { IsTreeAt self.old.slots.items place }
        ensures { FillsBy (λ t p r. FillsNames t p parts.now r) self.old.slots.items place result
            self.new.slots.items }
    {
        for part in parts {
            self.fill_entry(alloc, place, part)?;
        }
        Ok(())
    }

    /// Adds an entry to an inline table, with its parts.
    #[cycle(fill)]
    fn fill_entry(
        &mut self,
        alloc: A,
        place: usize,
        part: &'t (Key<A>, Value<A>),
    ) -> Result<(), Stop>
        requires { IsTreeAt self.old.slots.items place }
        ensures { FillsBy (λ t p r. FillsEntry t p part.now.0 part.now.1 r) self.old.slots.items
            place
            result self.new.slots.items }
    {
        let (key, value) = part;
        let below = self.say_key(alloc, place, key, Role::Dotted, Role::Value(value))?;
        self.fill(alloc, below, value)
    }

    /// Adds the content of a line, and returns the table of the next line.
    fn add(&mut self, alloc: A, table: usize, item: &'t Item<A>) -> Result<usize, Stop>
        requires { IsTreeAt self.old.slots.items table }
        ensures { AddsItem self.old.slots.items table item.now result self.new.slots.items }
    {
        match item {
            Item::Table(key) => self.say_key(alloc, 0, key, Role::Through, Role::Header),
            Item::Tables(key) => self.say_key(alloc, 0, key, Role::Through, Role::Tables),
            Item::Entry(key, value) => {
                let place = self.say_key(alloc, table, key, Role::Dotted, Role::Value(value))?;
                match self.fill(alloc, place, value) {
                    Ok(()) => Ok(table),
                    Err(stop) => Err(stop),
                }
            }
        }
    }

    /// Returns whether no slot from `from` on is a table or an array that is nested more than
    /// `level` deep.
    fn fits(&self, from: usize, level: usize) -> bool
        ensures { FitResult level self.now.slots.items from result }
    {
        for i in from..self.slots.len() {
            let slot = &self.slots[i];
            if slot.depth > level && contains(slot.kind) {
                return false;
            }
        }
        true
    }

    /// Adds the content of a line, and returns the table of the next line. Rejects it if it makes a
    /// table or an array that is nested more than `level` deep.
    pub(crate) fn add_line(
        &mut self,
        alloc: A,
        level: usize,
        table: usize,
        item: &'t Item<A>,
    ) -> Result<usize, Stop>
        requires { IsTreeAt self.old.slots.items table }
        ensures { AddsLine level self.old.slots.items table item.now result self.new.slots.items }
    {
        let from = self.slots.len();
        let next = self.add(alloc, table, item)?;
        if self.fits(from, level) {
            Ok(next)
        } else {
            Err(Stop::Invalid(Reason::TooDeep))
        }
    }
}
