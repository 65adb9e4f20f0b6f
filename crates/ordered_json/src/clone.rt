//! Clones of values.
ghost use Rattle.std.specs.Prelude.{◌≡◌, IfOk};
ghost use Rattle.ordered_json.specs.View.{items_view, members_view, view};

use crate::value::{Map, Value};
use std::alloc::{AllocError, Global};
use std::default::Emptied;

/// Clones the whole value, in order, in O(n). It is written out, since a derived clone says nothing
/// of a type that holds itself.
impl Clone for Value {
    ghost is_clone = { λ v w. view w ≡ view v };

    fn clone(&self) -> Result<Value, AllocError> {
        copy(self)
    }
}

/// Clones a value, level by level.
#[cycle(copy)]
fn copy(value: &Value) -> Result<Value, AllocError>
    ensures { IfOk result (λ v. view v ≡ view value.now) }
{
    match value {
        Value::Null => Ok(Value::Null),
        Value::Bool(b) => Ok(Value::Bool(*b)),
        Value::Number(number) => Ok(Value::Number(number.clone()?)),
        Value::String(text) => Ok(Value::String(text.clone()?)),
        Value::Array(items) => Ok(Value::Array(copy_items(items)?)),
        Value::Object(members) => {
            let alloc = *Box::allocator(members);
            Ok(Value::of_members(alloc, copy_members(&**members)?)?)
        }
    }
}

/// Clones the items of an array.
#[cycle(copy)]
fn copy_items(items: &Vec<Value>) -> Result<Vec<Value>, AllocError>
    ensures { IfOk result (λ v. items_view v.items ≡ items_view items.now.items) }
{
    let mut copies = Vec::with_capacity(*items.allocator(), items.len())?;
    for item in items {
        copies.push(copy(item)?)?;
    }
    Ok(copies)
}

/// Clones the members of an object, in their order.
#[cycle(copy)]
fn copy_members(members: &Map) -> Result<Map, AllocError>
    ensures { IfOk result (λ m. members_view m.pairs ≡ members_view members.now.pairs) }
{
    let mut copies = Map::emptied(members)?;
    for (name, member) in members.iter() {
        let name = name.clone()?;
        drop(copies.replace(name, copy(member)?)?);
    }
    Ok(copies)
}
