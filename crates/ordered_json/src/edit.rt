//! Edits of a document by pointers.
ghost use Rattle.std.specs.Prelude.{◌≡◌, ◌≢◌, ◌∷◌, ◌++◌, [], IfErr, IfOk, Ok, OnErr, OnOk, Err, Some, map, string_bytes};
ghost use Rattle.json.specs.Json.{array, object};
ghost use Rattle.ordered_json.specs.Edits.{put_at, put_child, remove_at, set_at, set_by, without_child};
ghost use Rattle.ordered_json.specs.Pointers.{child, pointed};
ghost use Rattle.ordered_json.specs.View.{items_view, members_view, view};
ghost use Rattle.ordered_json.specs.declared.edit.EditError.TheVariants.{NoRoom};

use crate::depth::fits_below;
use crate::edit_parent::{put_back, take_at, take_parent};
use crate::pointer::{index_of, names_of};
use crate::value::{Map, Value};
use std::alloc::{AllocError, AllocFailed, Global};
use std::error::Error;
use std::{fmt, mem};

/// Why a value was not edited.
#[derive(Clone, Copy, Debug, Drop, PartialEq, Eq)]
pub enum EditError {
    /// The text is no pointer.
    NotPointer,
    /// A member is absent, or what should have it is neither an array nor an object.
    Absent,
    /// The last name is no index of its array.
    OutOfRange,
    /// Another member of the object has the new name.
    Taken,
    /// The document would nest deeper than [`MAX_DEPTH`](crate::MAX_DEPTH).
    TooDeep,
    /// An allocation failed.
    NoRoom,
}

impl fmt::Display for EditError {
    fn fmt<W: fmt::Write>(&self, f: &mut fmt::Formatter<W>) -> fmt::Result {
        match self {
            EditError::NotPointer => f.write_str("no pointer"),
            EditError::Absent => f.write_str("absent"),
            EditError::OutOfRange => f.write_str("no index of the array"),
            EditError::Taken => f.write_str("a name that is taken"),
            EditError::TooDeep => f.write_str("too deep"),
            EditError::NoRoom => f.write_str("no memory for the edit"),
        }
    }
}

impl Error for EditError {}

impl From<AllocError> for EditError {
    ghost use Rattle.std.specs.Prelude.{◌≡◌};
    ghost use Rattle.ordered_json.specs.declared.edit.EditError.TheVariants.{NoRoom};

    ghost from_gives = { λ _ error. error ≡ NoRoom };

    fn from(_refused: AllocError) -> EditError {
        EditError::NoRoom
    }
}

impl<T: Drop> From<AllocFailed<T>> for EditError {
    ghost use Rattle.std.specs.Prelude.{◌≡◌};
    ghost use Rattle.ordered_json.specs.declared.edit.EditError.TheVariants.{NoRoom};

    ghost from_gives = { λ _ error. error ≡ NoRoom };

    fn from(_refused: AllocFailed<T>) -> EditError {
        EditError::NoRoom
    }
}

/// A value that was not set.
#[derive(Debug, Drop)]
pub struct NotSet {
    /// The value.
    pub value: Value,
    /// Why it was not set.
    pub error: EditError,
}

impl Value {
    /// Sets the value at a pointer: in place if it is there, else as the last member of its object,
    /// or behind the last item of its array, if the name is the length or `-`.
    ///
    /// If the value cannot be set, it comes back with the reason, and nothing changes. The reasons
    /// are in this order: the text is no pointer; the levels of the value and the names of the
    /// pointer are more than [`MAX_DEPTH`](crate::MAX_DEPTH) together; what the names before the
    /// last one lead to is absent, or neither an array nor an object; it is an array that has no
    /// such index. An allocation may fail too: it takes memory for the names, and for one member or
    /// item more. It is O(n) in the value, which it looks through.
    ///
    /// # Examples
    ///
    /// ```rust
    /// use ordered_json::{Value, from_str, to_string};
    /// use std::hash::RandomState;
    ///
    /// let hasher = RandomState::new(&rt)?;
    /// let mut boat = from_str(rt.alloc(), hasher, "{\"sails\": [7]}")?;
    /// let done = boat.set("/sails/-", Value::Bool(true), rt.alloc());
    /// assert!(rt; done.is_ok());
    /// let done = boat.set("/mast/height", Value::Null, rt.alloc());
    /// assert!(rt; done.is_err());
    /// let text = to_string(rt.alloc(), &boat)?;
    /// assert_eq!(rt; text.as_str(), "{\"sails\":[7,true]}");
    /// ```
    pub fn set(&mut self, pointer: &str, value: Value, alloc: Global) -> Result<(), NotSet>
        ensures document { OnOk result
            (set_at pointer.now (view value) (view self.old) ≡ Ok (view self.new)) }
        ensures why { IfErr result (λ refused. refused.error ≢ NoRoom
            → set_at pointer.now (view value) (view self.old) ≡ Err refused.error) }
        ensures value_back { IfErr result (λ refused. refused.value ≡ value) }
        ensures unchanged { OnErr result (view self.new ≡ view self.old) }
    {
        match names_of(alloc, pointer) {
            Ok(path) => set_by_names(self, path, value),
            Err(error) => Err(NotSet { value, error }),
        }
    }

    /// Removes the value at a pointer, and returns it. The others keep their order.
    ///
    /// If the text is no pointer, if the value is absent or the document itself, or if an allocation
    /// fails, nothing changes. It takes memory for the names alone.
    ///
    /// # Examples
    ///
    /// ```rust
    /// use ordered_json::{from_str, to_string};
    /// use std::hash::RandomState;
    ///
    /// let hasher = RandomState::new(&rt)?;
    /// let mut boat = from_str(rt.alloc(), hasher, "{\"sails\": [7, 2], \"sold\": null}")?;
    /// let sail = boat.remove("/sails/0", rt.alloc())?;
    /// assert_eq!(rt; sail.as_u64(), Some(7));
    /// let text = to_string(rt.alloc(), &boat)?;
    /// assert_eq!(rt; text.as_str(), "{\"sails\":[2],\"sold\":null}");
    /// ```
    pub fn remove(&mut self, pointer: &str, alloc: Global) -> Result<Value, EditError>
        ensures value { IfOk result (λ v. pointed pointer.now (view self.old) ≡ Some (view v)) }
        ensures document { OnOk result
            (remove_at pointer.now (view self.old) ≡ Ok (view self.new)) }
        ensures why { IfErr result (λ error. error ≢ NoRoom
            → remove_at pointer.now (view self.old) ≡ Err error) }
        ensures unchanged { OnErr result (view self.new ≡ view self.old) }
    {
        let (name, mut taken) = take_parent(self, pointer, alloc)?;
        let removed = take_from(&mut taken.parent, name.as_str());
        put_back(self, taken);
        removed
    }
}

/// Sets the value that names lead to.
fn set_by_names(document: &mut Value, path: Vec<String>, value: Value) -> Result<(), NotSet>
    ensures document { OnOk result (set_by (view value) (map string_bytes path.items)
        (view document.old) ≡ Ok (view document.new)) }
    ensures why { IfErr result (λ refused. refused.error ≢ NoRoom → set_by (view value)
        (map string_bytes path.items) (view document.old) ≡ Err refused.error) }
    ensures value_back { IfErr result (λ refused. refused.value ≡ value) }
    ensures unchanged { OnErr result (view document.new ≡ view document.old) }
{
    if !fits_below(path.len(), &value) {
        return Err(NotSet {
            value,
            error: EditError::TooDeep,
        });
    }
    put_by_names(document, path, value)
}

/// The same of a value that is not too deep.
fn put_by_names(document: &mut Value, mut path: Vec<String>, value: Value) -> Result<(), NotSet>
    ensures document { OnOk result (put_at (view value) (map string_bytes path.items)
        (view document.old) ≡ Ok (view document.new)) }
    ensures why { IfErr result (λ refused. refused.error ≢ NoRoom → put_at (view value)
        (map string_bytes path.items) (view document.old) ≡ Err refused.error) }
    ensures value_back { IfErr result (λ refused. refused.value ≡ value) }
    ensures unchanged { OnErr result (view document.new ≡ view document.old) }
{
    let Some(name) = path.pop() else {
        *document = value;
        return Ok(());
    };
    let Some(mut taken) = take_at(document, path) else {
        return Err(NotSet {
            value,
            error: EditError::Absent,
        });
    };
    let done = put_in(&mut taken.parent, name, value);
    put_back(document, taken);
    done
}

/// Sets the child of a name.
fn put_in(parent: &mut Value, name: String, value: Value) -> Result<(), NotSet>
    ensures child { OnOk result
        (put_child (view value) (string_bytes name) (view parent.old) ≡ Ok (view parent.new)) }
    ensures why { IfErr result (λ refused. refused.error ≢ NoRoom
        → put_child (view value) (string_bytes name) (view parent.old) ≡ Err refused.error) }
    ensures value_back { IfErr result (λ refused. refused.value ≡ value) }
    ensures unchanged { OnErr result (view parent.new ≡ view parent.old) }
{
    match mem::replace(parent, Value::Null) {
        Value::Array(mut items) => {
            let done = put_item(&mut items, name.as_str(), value);
            *parent = Value::Array(items);
            done
        }
        Value::Object(mut members) => {
            let done = put_member(&mut *members, name, value);
            *parent = Value::Object(members);
            done
        }
        taken => {
            *parent = taken;
            Err(NotSet {
                value,
                error: EditError::Absent,
            })
        }
    }
}

/// Sets the member of a name.
fn put_member(members: &mut Map, name: String, value: Value) -> Result<(), NotSet>
    ensures child { OnOk result (put_child (view value) (string_bytes name)
        (object (members_view members.old.pairs)) ≡ Ok (object (members_view members.new.pairs))) }
    ensures why { IfErr result (λ refused. refused.error ≡ NoRoom) }
    ensures value_back { IfErr result (λ refused. refused.value ≡ value) }
    ensures unchanged { OnErr result (members.new ≡ members.old) }
{
    match members.replace(name, value) {
        Ok(old) => {
            drop(old);
            Ok(())
        }
        Err(refused) => Err(NotSet {
            value: refused.value,
            error: EditError::NoRoom,
        }),
    }
}

/// Sets the item of a name.
fn put_item(items: &mut Vec<Value>, name: &str, value: Value) -> Result<(), NotSet>
    ensures child { OnOk result (put_child (view value) name.now
        (array (items_view items.old.items)) ≡ Ok (array (items_view items.new.items))) }
    ensures why { IfErr result (λ refused. refused.error ≢ NoRoom → put_child (view value) name.now
        (array (items_view items.old.items)) ≡ Err refused.error) }
    ensures value_back { IfErr result (λ refused. refused.value ≡ value) }
    ensures unchanged { OnErr result (items.new.items ≡ items.old.items) }
{
    if name == "-" {
        return push_item(items, value);
    }
    let Some(at) = index_of(name) else {
        return Err(NotSet {
            value,
            error: EditError::OutOfRange,
        });
    };
    if at == items.len() {
        return push_item(items, value);
    }
    if at > items.len() {
        return Err(NotSet {
            value,
            error: EditError::OutOfRange,
        });
    }
    items[at] = value;
    Ok(())
}

/// Pushes an item.
fn push_item(items: &mut Vec<Value>, value: Value) -> Result<(), NotSet>
    ensures items { OnOk result (items.new.items ≡ items.old.items ++ value ∷ []) }
    ensures why { IfErr result (λ refused. refused.error ≡ NoRoom) }
    ensures value_back { IfErr result (λ refused. refused.value ≡ value) }
    ensures unchanged { OnErr result (items.new.items ≡ items.old.items) }
{
    match items.push(value) {
        Ok(()) => Ok(()),
        Err(refused) => Err(NotSet {
            value: refused.value,
            error: EditError::NoRoom,
        }),
    }
}

/// Removes the child of a name.
fn take_from(parent: &mut Value, name: &str) -> Result<Value, EditError>
    ensures value { IfOk result (λ v. child name.now (view parent.old) ≡ Some (view v)) }
    ensures rest { OnOk result
        (without_child name.now (view parent.old) ≡ Ok (view parent.new)) }
    ensures why { IfErr result (λ error. without_child name.now (view parent.old) ≡ Err error) }
    ensures unchanged { OnErr result (view parent.new ≡ view parent.old) }
{
    match mem::replace(parent, Value::Null) {
        Value::Array(mut items) => {
            let taken = take_item(&mut items, name);
            *parent = Value::Array(items);
            taken
        }
        Value::Object(mut members) => {
            let taken = take_member(&mut *members, name);
            *parent = Value::Object(members);
            taken
        }
        taken => {
            *parent = taken;
            Err(EditError::Absent)
        }
    }
}

/// Removes the member of a name.
fn take_member(members: &mut Map, name: &str) -> Result<Value, EditError>
    ensures value { IfOk result (λ v.
        child name.now (object (members_view members.old.pairs)) ≡ Some (view v)) }
    ensures rest { OnOk result (without_child name.now (object (members_view members.old.pairs))
        ≡ Ok (object (members_view members.new.pairs))) }
    ensures why { IfErr result (λ error.
        without_child name.now (object (members_view members.old.pairs)) ≡ Err error) }
    ensures unchanged { OnErr result (members.new.pairs ≡ members.old.pairs) }
{
    match members.remove(name) {
        Some(value) => Ok(value),
        None => Err(EditError::Absent),
    }
}

/// Removes the item of a name.
fn take_item(items: &mut Vec<Value>, name: &str) -> Result<Value, EditError>
    ensures value { IfOk result (λ v.
        child name.now (array (items_view items.old.items)) ≡ Some (view v)) }
    ensures rest { OnOk result (without_child name.now (array (items_view items.old.items))
        ≡ Ok (array (items_view items.new.items))) }
    ensures why { IfErr result (λ error.
        without_child name.now (array (items_view items.old.items)) ≡ Err error) }
    ensures unchanged { OnErr result (items.new.items ≡ items.old.items) }
{
    let Some(at) = index_of(name) else {
        return Err(EditError::OutOfRange);
    };
    if at < items.len() {
        Ok(items.remove(at))
    } else {
        Err(EditError::OutOfRange)
    }
}
