//! Renaming a member by a pointer.
ghost use Rattle.std.specs.Prelude.{◌≡◌, ◌≢◌, ◌∷◌, ◌++◌, [], Err, IfErr, IfSome, None, Ok, OnErr, OnOk, String, string_bytes, string_eq};
ghost use Rattle.std.specs.List.{IsDistinct};
ghost use Rattle.std.specs.Map.{keys_of};
ghost use Rattle.std.specs.Str.{bytes_eq};
ghost use Rattle.std.specs.declared.alloc.Global.{Global};
ghost use Rattle.linked_hash_map.specs.Pairs.{set_value, value_at};
ghost use Rattle.json.specs.Json.{object};
ghost use Rattle.ordered_json.specs.Edits.{rename_at, rename_child};
ghost use Rattle.ordered_json.specs.View.{members_view, view};
ghost use Rattle.ordered_json.specs.declared.edit.EditError.TheVariants.{NoRoom};

use crate::edit::EditError;
use crate::edit_parent::{put_back, take_parent};
use crate::value::{Map, Value};
use std::alloc::Global;
use std::mem;

impl Value {
    /// Gives the member at a pointer another name, in its place. Its own name changes nothing.
    ///
    /// If there is none, if another member of its object has that name, or if an allocation fails,
    /// nothing changes. It takes memory for the names, and for one member more.
    ///
    /// # Examples
    ///
    /// ```rust
    /// use ordered_json::{from_str, to_string};
    /// use std::hash::RandomState;
    ///
    /// let hasher = RandomState::new(&rt)?;
    /// let mut boat = from_str(rt.alloc(), hasher, "{\"sail\": 7, \"sold\": null}")?;
    /// boat.rename("/sail", "sails", rt.alloc())?;
    /// let text = to_string(rt.alloc(), &boat)?;
    /// assert_eq!(rt; text.as_str(), "{\"sails\":7,\"sold\":null}");
    /// ```
    pub fn rename(&mut self, pointer: &str, to: &str, alloc: Global) -> Result<(), EditError>
        ensures document { OnOk result
            (rename_at pointer.now to.now (view self.old) ≡ Ok (view self.new)) }
        ensures why { IfErr result (λ error. error ≢ NoRoom
            → rename_at pointer.now to.now (view self.old) ≡ Err error) }
        ensures unchanged { OnErr result (view self.new ≡ view self.old) }
    {
        let (name, mut taken) = take_parent(self, pointer, alloc)?;
        let done = rename_in(&mut taken.parent, name.as_str(), to, alloc);
        put_back(self, taken);
        done
    }
}

/// Renames a member.
fn rename_in(parent: &mut Value, name: &str, to: &str, alloc: Global) -> Result<(), EditError>
    ensures child { OnOk result
        (rename_child to.now name.now (view parent.old) ≡ Ok (view parent.new)) }
    ensures why { IfErr result (λ error. error ≢ NoRoom
        → rename_child to.now name.now (view parent.old) ≡ Err error) }
    ensures unchanged { OnErr result (view parent.new ≡ view parent.old) }
{
    match mem::replace(parent, Value::Null) {
        Value::Object(mut members) => {
            let done = rename_member(&mut *members, name, to, alloc);
            *parent = Value::Object(members);
            done
        }
        taken => {
            *parent = taken;
            Err(EditError::Absent)
        }
    }
}

/// Renames a member of an object: a new one takes its place and its value.
fn rename_member(members: &mut Map, name: &str, to: &str, alloc: Global) -> Result<(), EditError>
    ensures child { OnOk result (rename_child to.now name.now
        (object (members_view members.old.pairs)) ≡ Ok (object (members_view members.new.pairs))) }
    ensures why { IfErr result (λ error. error ≢ NoRoom → rename_child to.now name.now
        (object (members_view members.old.pairs)) ≡ Err error) }
    ensures unchanged { OnErr result (members.new ≡ members.old) }
{
    if !members.contains_key(name) {
        return Err(EditError::Absent);
    }
    if name == to {
        return Ok(());
    }
    if members.contains_key(to) {
        return Err(EditError::Taken);
    }
    let Ok(()) = push_name(members, to, alloc) else {
        return Err(EditError::NoRoom);
    };
    members.move_before(to, name);
    let value = members.remove(name);
    give(members, to, value);
    Ok(())
}

/// Inserts a member of a new name behind the others, with `null` as its value, unless an allocation
/// fails.
fn push_name(members: &mut Map, name: &str, alloc: Global) -> Result<(), EditError>
    requires { value_at (λ text key. bytes_eq text (string_bytes key)) members.old.pairs name.now
        ≡ None }
    ensures pairs { OnOk result ((key : String Global) × (string_bytes key ≡ name.now)
        × (members.new.pairs ≡ members.old.pairs ++ (key, Value.Null) ∷ [])) }
    ensures distinct { OnOk result (IsDistinct string_eq (keys_of members.old.pairs)) }
    ensures unchanged { OnErr result (members.new ≡ members.old) }
{
    let Ok(key) = name.to_string(alloc) else {
        return Err(EditError::NoRoom);
    };
    match members.insert(key, Value::Null) {
        Ok(_none) => Ok(()),
        Err(_refused) => Err(EditError::NoRoom),
    }
}

/// Gives a member a value, if there is one.
fn give(members: &mut Map, name: &str, value: Option<Value>)
    ensures { IfSome value (λ v. members.new.pairs
        ≡ set_value (λ text key. bytes_eq text (string_bytes key)) members.old.pairs name.now v) }
{
    let Some(value) = value else {
        return;
    };
    match members.get_mut(name) {
        Some(member) => *member = value,
        None => {}
    }
}
