//! Merge patches (RFC 7396).
ghost use Rattle.std.specs.Prelude.{◌≡◌, ◌≤◌, IfErr, IfNone, IfSome, List, None, OnErr, OnOk, false, length, max, string_bytes, ℕ};
ghost use Rattle.std.specs.Str.{bytes_eq};
ghost use Rattle.json.specs.Json.{Members, member, no_members, null, object};
ghost use Rattle.json.specs.Tree.{depth};
ghost use Rattle.ordered_json.specs.Merge.{members_in, merge_each, merged};
ghost use Rattle.ordered_json.specs.Pointers.{find_member};
ghost use Rattle.ordered_json.specs.Room.{Fits, FitsAt, FitsIn, at_name, merge_member, new_count, new_one};
ghost use Rattle.ordered_json.specs.View.{members_view, view};

use crate::value::{Map, Value};
use linked_hash_map::ReserveError;
use std::mem;

/// A merge patch that was not applied.
#[derive(Debug, Drop)]
pub struct NotMerged {
    /// The patch.
    pub patch: Value,
}

impl Value {
    /// Applies a merge patch (RFC 7396). A patch that is no object takes the place of the value.
    /// One that is an object changes the members that it names, in its order: `null` removes a
    /// member, and any other value is merged into it in turn. A member that is there keeps its
    /// place, and a new one goes to the end. What is no object becomes an empty one first.
    ///
    /// If an allocation fails, the patch comes back, and nothing changes except capacities. It takes
    /// memory only for new members of objects that are there, for all of them before anything
    /// changes: what the patch has is moved, and a new object is that of the patch. It is O(n) in
    /// the patch, apart from what it drops and from growing those objects.
    ///
    /// # Examples
    ///
    /// The first one of RFC 7396:
    ///
    /// ```rust
    /// use ordered_json::{from_str, to_string};
    /// use std::hash::RandomState;
    ///
    /// let hasher = RandomState::new(&rt)?;
    /// let text = "{\"a\": \"b\", \"c\": {\"d\": \"e\", \"f\": \"g\"}}";
    /// let mut document = from_str(rt.alloc(), hasher, text)?;
    /// let patch = from_str(rt.alloc(), hasher, "{\"a\": \"z\", \"c\": {\"f\": null}}")?;
    /// assert!(rt; document.merge(patch).is_ok());
    /// let text = to_string(rt.alloc(), &document)?;
    /// assert_eq!(rt; text.as_str(), "{\"a\":\"z\",\"c\":{\"d\":\"e\"}}");
    /// ```
    pub fn merge(&mut self, patch: Value) -> Result<(), NotMerged>
        ensures document { OnOk result (view self.new ≡ merged (view patch) (view self.old)) }
        ensures depth { OnOk result
            (depth (view self.new) ≤ max (depth (view patch)) (depth (view self.old))) }
        ensures patch_back { IfErr result (λ refused. refused.patch ≡ patch) }
        ensures unchanged { OnErr result (view self.new ≡ view self.old) }
    {
        match make_room(self, &patch) {
            Ok(()) => {
                apply(self, patch);
                Ok(())
            }
            Err(_refused) => Err(NotMerged { patch }),
        }
    }
}

/// Makes room for the members that a patch inserts, in each object that is there.
#[cycle(room)]
fn make_room(target: &mut Value, patch: &Value) -> Result<(), ReserveError>
    ensures view { view target.new ≡ view target.old }
    ensures fits { OnOk result (Fits (view patch.now) target.new) }
{
    let Value::Object(changes) = patch else {
        return Ok(());
    };
    match mem::replace(target, Value::Null) {
        Value::Object(mut members) => {
            let done = make_room_in(&mut *members, &**changes);
            *target = Value::Object(members);
            done
        }
        taken => {
            *target = taken;
            Ok(())
        }
    }
}

/// The same of the members of an object.
#[cycle(room)]
fn make_room_in(members: &mut Map, changes: &Map) -> Result<(), ReserveError>
    ensures view { members_view members.new.pairs ≡ members_view members.old.pairs }
    ensures fits { OnOk result (FitsIn (members_view changes.now.pairs) members.new) }
{
    members.reserve(count_new(members, changes))?;
    for (name, change) in changes.iter() {
        make_room_at(members, name.as_str(), change)?;
    }
    Ok(())
}

/// The same of the value of a name, if it is there.
#[cycle(room)]
fn make_room_at(members: &mut Map, name: &str, change: &Value) -> Result<(), ReserveError>
    ensures view { members_view members.new.pairs ≡ members_view members.old.pairs }
    ensures len { length members.new.pairs ≡ length members.old.pairs }
    ensures capacity { members.new.capacity ≡ members.old.capacity }
    ensures fits { OnOk result
        (FitsAt (view change.now) (at_name name.now members.new.pairs)) }
    ensures others { (other : List ℕ) → bytes_eq name.now other ≡ false
        → at_name other members.new.pairs ≡ at_name other members.old.pairs }
{
    match members.get_mut(name) {
        Some(member) => make_room(member, change),
        None => Ok(()),
    }
}

/// Returns how many members a patch inserts.
fn count_new(members: &Map, changes: &Map) -> usize
    ensures { result
        ≡ new_count (members_view changes.now.pairs) (members_view members.now.pairs) }
{
    let mut count: usize = 0;
    for (name, change) in changes.iter() {
        count += count_one(members, name.as_str(), change);
    }
    count
}

/// Returns 1 if a member of a patch is inserted, else 0.
fn count_one(members: &Map, name: &str, change: &Value) -> usize
    ensures { result ≡ new_one name.now (view change.now) (members_view members.now.pairs) }
{
    if change.is_null() {
        return 0;
    }
    if members.contains_key(name) {
        return 0;
    }
    1
}

/// Applies a patch for which there is room.
#[cycle(apply)]
fn apply(target: &mut Value, patch: Value)
    requires { Fits (view patch) target.old }
    ensures { view target.new ≡ merged (view patch) (view target.old) }
{
    match patch {
        Value::Object(changes) => apply_object(target, changes),
        patch => *target = patch,
    }
}

/// The same of one that is an object.
#[cycle(apply)]
fn apply_object(target: &mut Value, mut changes: Box<Map>)
    requires { Fits (object (members_view changes.value.pairs)) target.old }
    ensures { view target.new
        ≡ merged (object (members_view changes.value.pairs)) (view target.old) }
{
    let Some(mut members) = take_members(target) else {
        strip_each(&mut *changes);
        *target = Value::Object(changes);
        return;
    };
    apply_each(&mut *members, &mut *changes);
    *target = Value::Object(members);
}

/// Takes the members of an object out, and leaves `null` in its place.
fn take_members(value: &mut Value) -> Option<Box<Map>>
    ensures taken { IfSome result (λ members. value.old ≡ Value.Object members) }
    ensures absent { IfNone result (members_in (view value.old) ≡ no_members) }
{
    match mem::replace(value, Value::Null) {
        Value::Object(members) => Some(members),
        other => {
            *value = other;
            None
        }
    }
}

/// Applies the members of a patch, and takes them out.
#[cycle(apply)]
fn apply_each(members: &mut Map, changes: &mut Map)
    requires { FitsIn (members_view changes.old.pairs) members.old }
    ensures { members_view members.new.pairs
        ≡ merge_each (members_view changes.old.pairs) (members_view members.old.pairs) }
{
    'changes: while let Some(change) = changes.pop_front() {
        let (name, change) = change;
        apply_at(members, name, change);
    }
}

/// Applies one member of a patch.
#[cycle(apply)]
fn apply_at(members: &mut Map, name: String, mut change: Value)
    requires { FitsIn (member (string_bytes name) (view change) no_members) members.old }
    ensures members { members_view members.new.pairs
        ≡ merge_member (string_bytes name) (view change) (members_view members.old.pairs) }
    ensures fits { (others : Members) → find_member (string_bytes name) others ≡ None
        → FitsIn (member (string_bytes name) (view change) others) members.old
        → FitsIn others members.new }
{
    if change.is_null() {
        drop(members.remove(name.as_str()));
        return;
    }
    if let Some(member) = members.get_mut(name.as_str()) {
        apply(member, change);
        return;
    }
    strip(&mut change);
    drop(members.insert_within_capacity(name, change));
}

/// Removes all members that are `null`, outside of arrays.
#[cycle(strip)]
fn strip(value: &mut Value)
    ensures { view value.new ≡ merged (view value.old) null }
{
    match mem::replace(value, Value::Null) {
        Value::Object(mut members) => {
            strip_each(&mut *members);
            *value = Value::Object(members);
        }
        taken => *value = taken,
    }
}

/// The same of the members of an object, each of which goes from the front to the back.
#[cycle(strip)]
fn strip_each(members: &mut Map)
    ensures { members_view members.new.pairs
        ≡ merge_each (members_view members.old.pairs) no_members }
{
    for _turn in 0..members.len() {
        let Some(member) = members.pop_front() else {
            return;
        };
        let (name, mut value) = member;
        if !value.is_null() {
            strip(&mut value);
            drop(members.insert_within_capacity(name, value));
        }
    }
}
