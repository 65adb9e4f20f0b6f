//! A document: fields with names, in order.
ghost use Rattle.std.specs.Prelude.{◌≡◌, ◌∷◌, ◌++◌, [], Some, None, IsSome, IsTrue, IsFalse, map, if◌then◌else◌, option_copied, false, reverse, IfOk, OnOk, OnErr, IfErr};
ghost use Rattle.std.specs.Bool.{Decides};
ghost use Rattle.std.specs.List.Sorted.{IsPermutation, IsSorted, IsSortedByKey};
ghost use Rattle.std.specs.Map.{keys_of};
ghost use Rattle.linked_hash_map.specs.Pairs.{find, value_at, set_value, without};

use linked_hash_map::{LinkedHashMap, Refused};
use std::alloc::{AllocError, Global};
use std::hash::Hash;

/// Fields with names, in the order in which they were first set.
#[derive(Drop)]
pub struct Document<K: Eq + Hash, V> {
    fields: LinkedHashMap<K, V>,
}

impl<K: Eq + Hash, V> Document<K, V> {
    /// Makes a document without fields.
    pub fn new(alloc: Global) -> Self
        ensures { result.fields.pairs ≡ [] }
    {
        Document {
            fields: LinkedHashMap::new(alloc),
        }
    }

    /// Returns the value of a field.
    pub fn get(&self, name: &K) -> Option<&V>
        ensures { option_copied result ≡ value_at K.eq self.now.fields.pairs name.now }
    {
        self.fields.get(name)
    }

    /// Returns the value of a field that is there.
    pub fn value_of(&self, name: &K) -> &V
        requires there { IsSome (find K.eq self.now.fields.pairs name.now) }
        ensures { value_at K.eq self.now.fields.pairs name.now ≡ Some result.now }
    {
        &self.fields[name]
    }

    /// Replaces the value of a field that is there. All fields keep their places.
    pub fn replace(&mut self, name: &K, value: V)
    where
        V: Drop,
        requires there { IsSome (find K.eq self.old.fields.pairs name.now) }
        ensures { self.new.fields.pairs ≡ set_value K.eq self.old.fields.pairs name.now value }
    {
        self.fields[name] = value;
    }

    /// Sets a field: one that is there keeps its place, and a new one goes to the end. If there
    /// is no memory for a new one, name and value come back and nothing changes.
    pub fn set(&mut self, name: K, value: V) -> Result<(), Refused<K, V>>
    where
        K: Drop,
        V: Drop,
        ensures there { OnOk result
            (IsSome (find K.eq self.old.fields.pairs name)
            → self.new.fields.pairs ≡ set_value K.eq self.old.fields.pairs name value) }
        ensures new { OnOk result
            (find K.eq self.old.fields.pairs name ≡ None
            → self.new.fields.pairs ≡ self.old.fields.pairs ++ (name, value) ∷ []) }

        ensures handed_back { IfErr result (λ refused.
            (refused.key ≡ name) × (refused.value ≡ value)) }
        ensures unchanged { OnErr result (self.new ≡ self.old) }
    {
        if let Some(field) = self.fields.get_mut(&name) {
            *field = value;
            return Ok(());
        }
        self.fields.insert(name, value)?;
        Ok(())
    }

    /// Removes a field and returns its value. The others keep their order.
    pub fn remove(&mut self, name: &K) -> Option<V>
    where
        K: Drop,
        ensures value { result ≡ value_at K.eq self.old.fields.pairs name.now }
        ensures fields { self.new.fields.pairs ≡ without K.eq self.old.fields.pairs name.now }
        ensures gone { value_at K.eq self.new.fields.pairs name.now ≡ None }
        ensures others { (other : K) → K.eq name.now other ≡ false
            → value_at K.eq self.new.fields.pairs other
            ≡ value_at K.eq self.old.fields.pairs other }
    {
        self.fields.remove(name)
    }

    /// Sorts the fields by their names. Each keeps its value.
    pub fn sort(&mut self)
    where
        K: Ord,
        ensures sorted { IsSorted K.cmp (keys_of self.new.fields.pairs) }
        ensures same { IsPermutation self.old.fields.pairs self.new.fields.pairs }
        ensures values { (name : K) → value_at K.eq self.new.fields.pairs name
            ≡ value_at K.eq self.old.fields.pairs name }
    {
        self.fields.sort_keys();
    }

    /// Sorts the fields by their values.
    pub fn sort_by_value(&mut self)
    where
        V: Ord,
        ensures sorted { IsSortedByKey (λ field. field.1) V.cmp self.new.fields.pairs }
        ensures same { IsPermutation self.old.fields.pairs self.new.fields.pairs }
    {
        self.fields
            .sort_by(|_name, value, _other, other_value| value.cmp(other_value));
    }

    /// Puts the fields in the opposite order. Each keeps its value.
    pub fn reverse(&mut self)
        ensures fields { self.new.fields.pairs ≡ reverse self.old.fields.pairs }
        ensures values { (name : K) → value_at K.eq self.new.fields.pairs name
            ≡ value_at K.eq self.old.fields.pairs name }
    {
        self.fields.reverse();
    }

    /// Gives a field another name, in its place, and tells whether it did: only if the old name
    /// is there and the new one is not. It takes no memory and never fails: each field goes to the
    /// end once, in turn.
    pub fn rename(&mut self, from: &K, to: K) -> bool
    where
        K: Copy,
        V: Drop,
        ensures did { Decides result
            (IsSome (find K.eq self.old.fields.pairs from.now)
            × (find K.eq self.old.fields.pairs to ≡ None)) }
        ensures renamed { IsTrue result
            → self.new.fields.pairs
            ≡ map (λ field. if K.eq from.now field.0 then (to, field.1) else field)
            self.old.fields.pairs }
        ensures unchanged { IsFalse result → self.new.fields.pairs ≡ self.old.fields.pairs }
    {
        if !self.fields.contains_key(from) || self.fields.contains_key(&to) {
            return false;
        }
        for _turn in 0..self.fields.len() {
            let Some(field) = self.fields.pop_front() else {
                unreachable!()
            };
            match self.fields.insert(name_after(from, to, field.0), field.1) {
                Ok(_none) => {}
                Err(_refused) => unreachable!(),
            }
        }
        true
    }
}

/// Returns the name that a field has after a renaming.
fn name_after<K: Eq + Copy>(from: &K, to: K, name: K) -> K
    ensures { result ≡ if K.eq from.now name then to else name }
{
    if *from == name { to } else { name }
}

/// Tells whether two documents have the same fields in the same order.
pub fn is_same(a: &Document<u64, u64>, b: &Document<u64, u64>) -> bool
    ensures { Decides result (a.now.fields.pairs ≡ b.now.fields.pairs) }
{
    a.fields == b.fields
}

/// Copies a document. It is refused if an allocation fails, and the document stands.
pub fn copy_of(document: &Document<u64, u64>) -> Result<Document<u64, u64>, AllocError>
    ensures { IfOk result (λ copy. copy.fields.pairs ≡ document.now.fields.pairs) }
{
    let fields = document.fields.clone()?;
    Ok(Document { fields })
}
