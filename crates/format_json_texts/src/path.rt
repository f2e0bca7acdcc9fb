//! Paths into values: names of members, and places of elements.
ghost use Rattle.format_json_texts.specs.Kinds.{IsFoundAlong, IsStep};
ghost use Rattle.std.specs.Prelude.{option_map};

use crate::value::Value;
use std::alloc::Allocator;

/// A step of a path.
///
/// ```
/// use format_json_texts::path::Step;
///
/// assert!(rt; Step::Name("a") != Step::Place(0));
/// ```
#[derive(Clone, Copy, Debug, PartialEq, Eq, Drop)]
pub enum Step<'n> {
    /// To the value of the last member of this name.
    Name(&'n str),
    /// To the element at this index.
    Place(usize),
}

impl<A: Allocator> Value<A> {
    /// The value to which a step leads.
    fn next_along(&self, step: Step<'_>) -> Option<&Value<A>>
        ensures { IsStep step.entry self.now (option_map (λ v. v.now) result) }
    {
        match step {
            Step::Name(name) => self.get(name),
            Step::Place(index) => self.at(index),
        }
    }

    /// Returns the value at the end of a path. Each step leads to the value of the last member with
    /// a name, or to the element at an index, counted from 0. Returns `None` if a step leads to
    /// nothing: there is no such member or element, or the value is not an object or an array. An
    /// empty path leads to the value itself.
    ///
    /// ```
    /// use format_json_texts::path::Step;
    /// use format_json_texts::value::Value;
    ///
    /// let mut items = Vec::new(alloc);
    /// items.push(Value::Boolean(true)).unwrap();
    /// let mut members = Vec::new(alloc);
    /// members.push((String::from_str(alloc, "a").unwrap(), Value::Array(items))).unwrap();
    /// let value = Value::Object(members);
    /// let found = value.along(&[Step::Name("a"), Step::Place(0)]);
    /// assert!(rt; matches!(found, Some(Value::Boolean(true))));
    /// assert!(rt; value.along(&[Step::Name("a"), Step::Name("b")]).is_none());
    /// ```
    pub fn along(&self, path: &[Step<'_>]) -> Option<&Value<A>>
        ensures { IsFoundAlong path.now self.now (option_map (λ v. v.now) result) }
    {
        let mut target = self;
        'steps: for step in path {
            target = target.next_along(*step)?;
        }
        Some(target)
    }
}
