//! Sorting the members of objects by their names.
ghost use Rattle.std.specs.Prelude.{◌≡◌, ◌≢◌, Err, IfErr, Ok, OnErr, OnOk};
ghost use Rattle.ordered_json.specs.Sorts.{in_order, sort_at, sorted, sorted_items, sorted_members};
ghost use Rattle.ordered_json.specs.View.{items_view, members_view, view};
ghost use Rattle.ordered_json.specs.declared.edit.EditError.TheVariants.{NoRoom};

use crate::edit::EditError;
use crate::edit_parent::{put_back, take_at};
use crate::pointer::names_of;
use crate::value::{Map, Value};
use std::alloc::Global;
use std::mem;

impl Value {
    /// Sorts the members of the object at a pointer by their names, and those of all objects in it,
    /// at any depth. Names are compared by their bytes, as `str`s are; items keep their order. A
    /// value that is neither an array nor an object stays as it is.
    ///
    /// If the text is no pointer, if the value is absent, or if an allocation fails, nothing
    /// changes. It takes memory for the names of the pointer alone. It recurses as deep as the
    /// value nests.
    ///
    /// # Examples
    ///
    /// ```rust
    /// use ordered_json::{from_str, to_string};
    /// use std::hash::RandomState;
    ///
    /// let hasher = RandomState::new(&rt)?;
    /// let text = "{\"sold\": [{\"b\": 1, \"a\": 2}], \"sail\": 7}";
    /// let mut boat = from_str(rt.alloc(), hasher, text)?;
    /// boat.sort_keys("", rt.alloc())?;
    /// let text = to_string(rt.alloc(), &boat)?;
    /// assert_eq!(rt; text.as_str(), "{\"sail\":7,\"sold\":[{\"a\":2,\"b\":1}]}");
    /// ```
    pub fn sort_keys(&mut self, pointer: &str, alloc: Global) -> Result<(), EditError>
        ensures document { OnOk result (sort_at pointer.now (view self.old) ≡ Ok (view self.new)) }
        ensures why { IfErr result (λ error. error ≢ NoRoom
            → sort_at pointer.now (view self.old) ≡ Err error) }
        ensures unchanged { OnErr result (view self.new ≡ view self.old) }
    {
        let path = names_of(alloc, pointer)?;
        let Some(mut taken) = take_at(self, path) else {
            return Err(EditError::Absent);
        };
        sort(&mut taken.parent);
        put_back(self, taken);
        Ok(())
    }
}

/// Sorts the members of all objects of a value.
#[cycle(sort)]
fn sort(value: &mut Value)
    ensures { view value.new ≡ sorted (view value.old) }
{
    match mem::replace(value, Value::Null) {
        Value::Array(mut items) => {
            sort_items(&mut items);
            *value = Value::Array(items);
        }
        Value::Object(mut members) => {
            sort_members(&mut *members);
            *value = Value::Object(members);
        }
        taken => *value = taken,
    }
}

/// The same of each item of an array.
#[cycle(sort)]
fn sort_items(items: &mut Vec<Value>)
    ensures { items_view items.new.items ≡ sorted_items (items_view items.old.items) }
{
    for at in 0..items.len() {
        sort(&mut items[at]);
    }
}

/// The same of each member of an object, from the first on, and then sorts these.
#[cycle(sort)]
fn sort_members(members: &mut Map)
    ensures { members_view members.new.pairs
        ≡ in_order (sorted_members (members_view members.old.pairs)) }
{
    for _turn in 0..members.len() {
        let Some(member) = members.front_mut() else {
            unreachable!()
        };
        sort(member);
        members.rotate_left(1);
    }
    members.sort_keys();
}
