//! A document of texts, numbers, lists and objects, which is read and edited by paths of names.
ghost use Rattle.std.specs.Prelude.{◌≡◌, ◌^◌, ◌+◌, ◌-◌, [], ◌∷◌, ◌++◌, Some, None, false, if◌then◌else◌, is_some, map, max, min, option_map, string_bytes, string_eq, String, IfErr, IfOk, IfNone, IfSome, IsErr, IsOk, IsTrue, OnErr, OnOk};
ghost use Rattle.std.specs.List.{IsDistinct};
ghost use Rattle.std.specs.Map.{keys_of};
ghost use Rattle.std.specs.Map.Iter.{deref};
ghost use Rattle.std.specs.declared.alloc.Global.{Global};
ghost use Rattle.linked_hash_map.specs.Pairs.{value_at};
ghost use Rattle.uses.specs.Texts.{names};
ghost use Rattle.uses.specs.Trees.{edit_at, get_at, get_member, has_place, is_free, is_object, member_at, object, rename_member, set_at, size, without_member};
ghost use Rattle.uses.specs.Documents.{members_view, view};
ghost use Rattle.uses.specs.declared.nested.EditError.{EditError};

use linked_hash_map::LinkedHashMap;
use std::alloc::{AllocError, Global};
use std::default::Emptied;

/// The members of an object.
type Members = LinkedHashMap<String, Value>;

/// A value of a document.
#[derive(Debug, Drop, PartialEq, Eq, PartialOrd, Ord, Hash)]
pub enum Value {
    /// Nothing.
    Null,
    /// A number.
    Number(u64),
    /// A text.
    Text(String),
    /// Values in order.
    List(Vec<Value>),
    /// Values with names, in order.
    Object(LinkedHashMap<String, Value>),
}

/// Why a document was not changed.
#[derive(Debug, Drop, PartialEq)]
pub enum EditError {
    /// A value is not there.
    Absent,
    /// The new name is there.
    Taken,
    /// An allocation failed.
    NoRoom,
}

/// A value that was not set.
#[derive(Debug, Drop)]
pub struct NotSet {
    /// The value.
    pub value: Value,
    /// Why it was not set.
    pub error: EditError,
}

impl Value {
    /// Returns the value at a path of names, each of a member of the object before it.
    pub fn get(&self, path: &[&str]) -> Option<&Value>
        ensures { option_map (λ v. view v.now) result
            ≡ get_at (map deref path.now) (view self.now) }
    {
        let Some((name, rest)) = path.split_first() else {
            return Some(self);
        };
        let Value::Object(members) = self else {
            return None;
        };
        members.get(*name)?.get(rest)
    }

    /// Lends the value at a path. The contract says what the value is, and not what the document is
    /// after a write to it.
    pub fn get_mut(&mut self, path: &[&str]) -> Option<&mut Value>
        ensures { option_map (λ v. view v.now) result
            ≡ get_at (map deref path.now) (view self.old) }
    {
        let Some((name, rest)) = path.split_first() else {
            return Some(self);
        };
        let Value::Object(members) = self else {
            return None;
        };
        members.get_mut(*name)?.get_mut(rest)
    }

    /// Returns how many values are neither lists nor objects, and how deep these nest, each up to
    /// `u64::MAX`.
    pub fn size(&self) -> (u64, u64)
        ensures leaves { result.0 ≡ min (size (view self.now)).0 (2 ^ 64 - 1) }
        ensures depth { result.1 ≡ min (size (view self.now)).1 (2 ^ 64 - 1) }
    {
        match self {
            Value::List(items) => {
                let mut total = (0, 1);
                for item in items {
                    total = add_size(total, item.size());
                }
                total
            }
            Value::Object(members) => {
                let mut total = (0, 1);
                for member in members.values() {
                    total = add_size(total, member.size());
                }
                total
            }
            _ => (1, 0),
        }
    }

    /// Sets the value at a path, in its place if there is one, and as the last of its object if
    /// the name is new. If that object is absent, or an allocation fails, nothing changes.
    pub fn set(&mut self, path: &[&str], value: Value, alloc: Global) -> Result<(), NotSet>
        ensures tree { OnOk result
            (view self.new ≡ set_at (map deref path.now) (view value) (view self.old)) }
        ensures place { IsOk result → IsTrue (has_place (map deref path.now) (view self.old)) }
        ensures value_back { IfErr result (λ refused. refused.value ≡ value) }
        ensures why { IfErr result (λ refused. refused.error
            ≡ (if has_place (map deref path.now) (view self.old) then EditError.NoRoom
            else EditError.Absent)) }
        ensures unchanged { OnErr result (view self.new ≡ view self.old) }
    {
        let Some((name, rest)) = path.split_first() else {
            *self = value;
            return Ok(());
        };
        let Some(mut members) = self.take_object() else {
            return refuse(value, EditError::Absent);
        };
        if let Some(member) = members.get_mut(*name) {
            let done = member.set(rest, value, alloc);
            *self = Value::Object(members);
            return done;
        }
        if !rest.is_empty() {
            *self = Value::Object(members);
            return refuse(value, EditError::Absent);
        }
        let done = push(&mut members, *name, value, alloc);
        *self = Value::Object(members);
        done
    }

    /// Removes the member at a path, and returns its value. The others keep their order. If there
    /// is none, nothing changes.
    pub fn remove(&mut self, path: &[&str]) -> Option<Value>
        ensures value { option_map view result ≡ member_at (map deref path.now) (view self.old) }
        ensures tree { view self.new ≡ edit_at without_member (map deref path.now) (view self.old) }
        ensures unchanged { IfNone result (view self.new ≡ view self.old) }
    {
        let (name, rest) = path.split_first()?;
        let mut members = self.take_object()?;
        if rest.is_empty() {
            let removed = members.remove(*name);
            *self = Value::Object(members);
            return removed;
        }
        let Some(member) = members.get_mut(*name) else {
            *self = Value::Object(members);
            return None;
        };
        let removed = member.remove(rest);
        *self = Value::Object(members);
        removed
    }

    /// Gives the member at a path another name, in its place. If there is none, if another member
    /// of its object has that name, or if an allocation fails, nothing changes.
    pub fn rename(&mut self, path: &[&str], to: &str, alloc: Global) -> Result<(), EditError>
        ensures tree { OnOk result (view self.new
            ≡ edit_at (rename_member to.now) (map deref path.now) (view self.old)) }
        ensures there { IsOk result
            → IsTrue (is_some (member_at (map deref path.now) (view self.old))) }
        ensures free { IsOk result
            → IsTrue (is_free (map deref path.now) to.now (view self.old)) }
        ensures why { IfErr result (λ error. error
            ≡ (if is_some (member_at (map deref path.now) (view self.old))
            then if is_free (map deref path.now) to.now (view self.old) then EditError.NoRoom
            else EditError.Taken else EditError.Absent)) }
        ensures unchanged { OnErr result (view self.new ≡ view self.old) }
    {
        let (name, rest) = path.split_first().ok_or(EditError::Absent)?;
        let mut members = self.take_object().ok_or(EditError::Absent)?;
        if rest.is_empty() {
            let done = rename_one(&mut members, *name, to, alloc);
            *self = Value::Object(members);
            return done;
        }
        let Some(member) = members.get_mut(*name) else {
            *self = Value::Object(members);
            return Err(EditError::Absent);
        };
        let done = member.rename(rest, to, alloc);
        *self = Value::Object(members);
        done
    }

    /// Takes the members of an object out, and leaves nothing in its place.
    fn take_object(&mut self) -> Option<Members>
        ensures taken { IfSome result (λ members.
            object (members_view members.pairs) ≡ view self.old) }
        ensures absent { IfNone result (is_object (view self.old) ≡ false) }
        ensures unchanged { IfNone result (self.new ≡ self.old) }
    {
        match std::mem::replace(self, Value::Null) {
            Value::Object(members) => Some(members),
            other => {
                *self = other;
                None
            }
        }
    }
}

/// Adds the size of a value to that of the list or the object that holds it.
fn add_size(total: (u64, u64), inner: (u64, u64)) -> (u64, u64)
    ensures leaves { result.0 ≡ min (total.0 + inner.0) (2 ^ 64 - 1) }
    ensures depth { result.1 ≡ min (max total.1 (inner.1 + 1)) (2 ^ 64 - 1) }
{
    let leaves = total.0.saturating_add(inner.0);
    (leaves, total.1.max(inner.1.saturating_add(1)))
}

/// Hands a value back.
fn refuse(value: Value, error: EditError) -> Result<(), NotSet>
    ensures refused { IsErr result }
    ensures value { IfErr result (λ refused. refused.value ≡ value) }
    ensures why { IfErr result (λ refused. refused.error ≡ error) }
{
    Err(NotSet { value, error })
}

/// Inserts a new member behind the others. If an allocation fails, its value comes back.
fn push(members: &mut Members, name: &str, value: Value, alloc: Global) -> Result<(), NotSet>
    requires { value_at names members.old.pairs name.now ≡ None }
    ensures pairs { OnOk result ((key : String Global) × (string_bytes key ≡ name.now)
        × (members.new.pairs ≡ members.old.pairs ++ (key, value) ∷ [])) }
    ensures distinct { OnOk result (IsDistinct string_eq (keys_of members.old.pairs)) }
    ensures value_back { IfErr result (λ refused. refused.value ≡ value) }
    ensures why { IfErr result (λ refused. refused.error ≡ EditError.NoRoom) }
    ensures unchanged { OnErr result (members.new ≡ members.old) }
{
    let Ok(key) = name.to_string(alloc) else {
        return refuse(value, EditError::NoRoom);
    };
    match members.insert(key, value) {
        Ok(_none) => Ok(()),
        Err(refused) => refuse(refused.value, EditError::NoRoom),
    }
}

/// Renames a member: a new one takes its place and its value. Only the new name takes memory.
fn rename_one(members: &mut Members, name: &str, to: &str, alloc: Global) -> Result<(), EditError>
    ensures tree { OnOk result (members_view members.new.pairs
        ≡ rename_member to.now name.now (members_view members.old.pairs)) }
    ensures there { IsOk result
        → IsTrue (is_some (get_member name.now (members_view members.old.pairs))) }
    ensures free { IsOk result → IsTrue (is_free (name.now ∷ []) to.now
        (object (members_view members.old.pairs))) }
    ensures why { IfErr result (λ error. error
        ≡ (if is_some (get_member name.now (members_view members.old.pairs))
        then if is_free (name.now ∷ []) to.now (object (members_view members.old.pairs))
        then EditError.NoRoom else EditError.Taken else EditError.Absent)) }
    ensures unchanged { OnErr result (members.new ≡ members.old) }
{
    if !members.contains_key(name) {
        return Err(EditError::Absent);
    }
    if name == to {
        return Ok(());
    }
    if members.contains_key(to) {
        return Err(EditError::Taken);
    }
    let Ok(()) = push(members, to, Value::Null, alloc) else {
        return Err(EditError::NoRoom);
    };
    members.move_before(to, name);
    let value = members.remove(name).unwrap_or(Value::Null);
    if let Some(member) = members.get_mut(to) {
        *member = value;
    }
    Ok(())
}

/// A clone, written out, since a derived one says nothing of a type that holds itself.
impl Clone for Value {
    ghost is_clone = { λ v w. view w ≡ view v };

    fn clone(&self) -> Result<Value, AllocError> {
        copy(self)
    }
}

/// Clones a value, level by level.
fn copy(value: &Value) -> Result<Value, AllocError>
    ensures { IfOk result (λ v. view v ≡ view value.now) }
{
    match value {
        Value::Null => Ok(Value::Null),
        Value::Number(number) => Ok(Value::Number(*number)),
        Value::Text(text) => Ok(Value::Text(text.clone()?)),
        Value::List(items) => {
            let mut copies = Vec::with_capacity(*items.allocator(), items.len())?;
            for item in items {
                copies.push(copy(item)?)?;
            }
            Ok(Value::List(copies))
        }
        Value::Object(members) => {
            let mut copies = LinkedHashMap::emptied(members)?;
            for (name, member) in members.iter() {
                drop(copies.insert(name.clone()?, copy(member)?)?);
            }
            copies.set_mode(members.mode());
            Ok(Value::Object(copies))
        }
    }
}
