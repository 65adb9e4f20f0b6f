//! The methods of `VacantEntry`.
ghost use Rattle.std.specs.Prelude.{◌≡◌, ◌<◌, [], ◌∷◌, ◌++◌, length, Some, None, IfOk, IfErr, OnOk, OnErr};
ghost use Rattle.std.specs.Borrow.{sem};
ghost use Rattle.linked_hash_map.specs.Pairs.{find};
ghost use Rattle.linked_hash_map.specs.Cursor.{to_visit};
ghost use Rattle.linked_hash_map.specs.Changes.{pushed};
ghost use Rattle.linked_hash_map.specs.Updates.{Updates};
ghost use Rattle.linked_hash_map.specs.Validity.{IsValid};
ghost use Rattle.linked_hash_map.specs.Entry.{vacant_map, vacant_key, lends_pushed};

use super::VacantEntry;
use crate::error::Refused;
use crate::map::LIMIT;
use std::hash::{BuildHasher, Hash};

impl<'a, K: Eq + Hash, V, S: BuildHasher> VacantEntry<'a, K, V, S> {
    /// Returns a reference to the key, in O(1).
    ///
    /// # Examples
    ///
    /// ```rust
    /// let mut map = LinkedHashMap::new(rt.alloc());
    /// if let Entry::Vacant(entry) = map.entry('x') {
    ///     assert_eq!(rt; *entry.key(), 'x');
    ///     let lent = entry.insert(1)?;
    ///     *lent = 2;
    /// }
    /// ```
    pub fn key(&self) -> &K
        ensures { result.now ≡ vacant_key self.now }
    {
        &self.key
    }

    /// Returns the key, in O(1). The map stays as it is.
    ///
    /// # Examples
    ///
    /// ```rust
    /// let mut map: LinkedHashMap<char, u64> = LinkedHashMap::new(rt.alloc());
    /// if let Entry::Vacant(entry) = map.entry('x') {
    ///     assert_eq!(rt; entry.into_key(), 'x');
    /// }
    /// assert!(rt; map.is_empty());
    /// ```
    pub fn into_key(self) -> K
        ensures key { result ≡ vacant_key self.entry }
        ensures unchanged { self.exit.0.now ≡ vacant_map self.entry }
    {
        let VacantEntry {
            map: _,
            key,
            hash: _,
        } = self;
        key
    }

    /// Inserts the key and a value at the back, and returns a mutable reference to the value. It
    /// allocates and is refused as [`insert`](crate::LinkedHashMap::insert) of a new key. It is
    /// O(1), or up to O(n) at full capacity.
    ///
    /// # Examples
    ///
    /// ```rust
    /// let mut map = LinkedHashMap::new(rt.alloc());
    /// if let Entry::Vacant(entry) = map.entry('x') {
    ///     assert_eq!(rt; *entry.key(), 'x');
    ///     let lent = entry.insert(1)?;
    ///     *lent = 2;
    /// }
    /// assert_eq!(rt; map.get(&'x'), Some(&2));
    /// ```
    pub fn insert(self, value: V) -> Result<&'a mut V, Refused<K, V>>
        ensures* writes_back { sem 𝓛
            (lends_pushed K.row V.row S.row S.Hasher.row K.Hash S.BuildHasher S.Hasher.Hasher
            self.entry result) }
        ensures value { IfOk result (λ lent. lent.now ≡ value) }
        ensures limit { OnOk result (length (vacant_map self.entry).pairs < LIMIT) }

        ensures key_back { IfErr result (λ refused. refused.key ≡ vacant_key self.entry) }
        ensures value_back { IfErr result (λ refused. refused.value ≡ value) }
        ensures absent { OnErr result
            (find K.eq (vacant_map self.entry).pairs (vacant_key self.entry) ≡ None) }
        ensures full { OnErr result
            (length (vacant_map self.entry).pairs ≡ (vacant_map self.entry).capacity) }
        ensures valid { IsValid K.eq (vacant_map self.entry) }

        // Laws of the map once a value is written, for the proofs of callers. The pair is not to be
        // visited, and those that are stay so.
        ensures to_visit { (v : V) → to_visit (pushed (vacant_map self.entry)
            (vacant_key self.entry) v) ≡ to_visit (vacant_map self.entry) }
        ensures updates { (v : V) → OnOk result
            (Updates K.eq (vacant_map self.entry).pairs
            ((vacant_map self.entry).pairs ++ (vacant_key self.entry, v) ∷ [])
            (vacant_key self.entry) (Some v)) }
    {
        let VacantEntry { map, key, hash } = self;
        if !map.make_room() {
            return Err(Refused { key, value });
        }
        map.push_back(hash, key, value);
        Ok(map.last_value_mut())
    }
}
