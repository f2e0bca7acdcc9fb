//! Copies of values.
ghost use Rattle.format_json_texts.specs.Contents.{content, items_content, members_content};
ghost use Rattle.std.specs.Prelude.{◌≡◌, IfOk};

use crate::value::Value;
use std::alloc::{AllocError, Allocator};

impl<A: Allocator + Copy> Clone for Value<A> {
    ghost is_clone = { λ v w. content w ≡ content v };

    fn clone(&self) -> Result<Value<A>, AllocError> {
        copy(self)
    }
}

/// A copy of a value.
#[cycle(copy)]
fn copy<A: Allocator + Copy>(value: &Value<A>) -> Result<Value<A>, AllocError>
    ensures { IfOk result (λ v. content v ≡ content value.now) }
{
    match value {
        Value::Null => Ok(Value::Null),
        Value::Boolean(is) => Ok(Value::Boolean(*is)),
        Value::Number(text) => Ok(Value::Number(text.clone()?)),
        Value::Text(text) => Ok(Value::Text(text.clone()?)),
        Value::Array(items) => Ok(Value::Array(copy_items(items)?)),
        Value::Object(members) => Ok(Value::Object(copy_members(members)?)),
    }
}

/// A copy of the elements of an array.
#[cycle(copy)]
fn copy_items<A: Allocator + Copy>(items: &Vec<Value<A>, A>) -> Result<Vec<Value<A>, A>, AllocError>
    ensures { IfOk result (λ v. items_content v.items ≡ items_content items.now.items) }
{
    let mut copies = Vec::with_capacity(*items.allocator(), items.len())?;
    for item in items {
        copies.push(copy(item)?)?;
    }
    Ok(copies)
}

/// A copy of the members of an object.
#[cycle(copy)]
fn copy_members<A: Allocator + Copy>(
    members: &Vec<(String<A>, Value<A>), A>,
) -> Result<Vec<(String<A>, Value<A>), A>, AllocError>
    ensures { IfOk result (λ v. members_content v.items ≡ members_content members.now.items) }
{
    let mut copies = Vec::with_capacity(*members.allocator(), members.len())?;
    for member in members {
        let (name, value) = member;
        copies.push((name.clone()?, copy(value)?))?;
    }
    Ok(copies)
}
