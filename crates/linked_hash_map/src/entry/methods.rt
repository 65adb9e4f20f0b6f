//! The call `entry`, and the methods of `Entry`.
ghost use Rattle.std.specs.Prelude.{◌≡◌, ◌<◌, length, is_some, Some, None, unwrap_or, IsTrue, IfOk, IfErr, OnOk, OnErr};
ghost use Rattle.std.specs.Borrow.{sem, Bor, MutBor};
ghost use Rattle.std.specs.Map.Calls.{ModifiesValue};
ghost use Rattle.std.specs.Option.{UnwrapsOrElse};
ghost use Rattle.std.specs.Fn.{FnOnceReturnsAt};
ghost use Rattle.linked_hash_map.specs.Pairs.{key_or, find, value_at, without, set_or_push, set_if_some, put, ActsAs};
ghost use Rattle.linked_hash_map.specs.Cursor.{to_visit, without_cursor};
ghost use Rattle.linked_hash_map.specs.Changes.{Keeps, set_or_pushed};
ghost use Rattle.linked_hash_map.specs.Updates.{Updates};
ghost use Rattle.linked_hash_map.specs.Validity.{IsValid};
ghost use Rattle.linked_hash_map.specs.Entry.{entry_map_ref, entry_map, is_occupied, entry_key, entry_value, lends_entry};

use super::{Entry, OccupiedEntry, VacantEntry};
use crate::error::Refused;
use crate::map::{LIMIT, LinkedHashMap};
use std::alloc::Global;
use std::default::MadeWith;
use std::hash::{BuildHasher, Hash};

impl<K: Eq + Hash, V, S: BuildHasher> LinkedHashMap<K, V, S> {
    /// Returns the entry of a key, in O(1). Hashes the key once. An occupied entry has the stored
    /// key, and the given one is dropped.
    ///
    /// # Examples
    ///
    /// ```rust
    /// use linked_hash_map::{Entry, LinkedHashMap};
    ///
    /// let mut map = LinkedHashMap::new(rt.alloc());
    /// map.insert('x', 1)?;
    /// assert!(rt; matches!(&map.entry('x'), Entry::Occupied(_)));
    /// assert!(rt; matches!(&map.entry('y'), Entry::Vacant(_)));
    /// ```
    #[inline]
    pub fn entry(&mut self, key: K) -> Entry<'_, K, V, S>
    where
        K: Drop,
        ensures same_map { (entry_map_ref result).ghost_name ≡ self.entry.ghost_name }
        ensures occupied { is_occupied result ≡ is_some (find K.eq self.old.pairs key) }
        ensures key { entry_key result ≡ key_or key (find K.eq self.old.pairs key) }
        // By the stored key the same is found and changed as by `key`.
        ensures acts { ActsAs K.eq self.old.pairs (entry_key result) key }
        ensures value { entry_value result ≡ value_at K.eq self.old.pairs key }
        ensures pairs { (entry_map result).pairs ≡ self.old.pairs }
        ensures keeps { Keeps self.old (entry_map result) }
        ensures ends_visit { IsTrue (is_occupied result)
            → entry_map result ≡ without_cursor self.old }
        ensures unchanged { entry_value result ≡ None → entry_map result ≡ self.old }
        ensures absent { entry_value result ≡ None
            → without K.eq self.old.pairs key ≡ self.old.pairs }
        ensures valid { IsValid K.eq self.old }

        // Laws of the map once the entry writes, inserts or removes a value, for the proofs of
        // callers.
        ensures updates { (v : V) → Updates K.eq self.old.pairs
            (set_or_push K.eq self.old.pairs (entry_key result) v) key (Some v) }
        ensures inserts { (v : V) → Updates K.eq self.old.pairs
            (put K.eq self.old.mode self.old.pairs (entry_key result) v) key (Some v) }
        ensures removes { Updates K.eq self.old.pairs
            (without K.eq self.old.pairs (entry_key result)) key None }
    {
        let (hash, found) = self.seek(&key);
        if found {
            Entry::Occupied(OccupiedEntry { map: self })
        } else {
            Entry::Vacant(VacantEntry {
                map: self,
                key,
                hash,
            })
        }
    }
}

impl<'a, K: Eq + Hash, V, S: BuildHasher> Entry<'a, K, V, S> {
    /// Returns the key, the stored one if occupied, in O(1).
    ///
    /// # Examples
    ///
    /// ```rust
    /// let mut map = LinkedHashMap::new(rt.alloc());
    /// map.insert('x', 1)?;
    /// assert_eq!(rt; *map.entry('x').key(), 'x');
    /// ```
    pub fn key(&self) -> &K
        ensures { result.now ≡ entry_key self.now }
    {
        match self {
            Entry::Occupied(entry) => entry.key(),
            Entry::Vacant(entry) => entry.key(),
        }
    }

    /// Returns the allocator that the map was made with.
    fn allocator(&self) -> Global {
        match self {
            Entry::Occupied(entry) => entry.map.allocator(),
            Entry::Vacant(entry) => entry.map.allocator(),
        }
    }

    /// Calls `f` on the value if occupied. Except for `f` it is O(1).
    ///
    /// # Examples
    ///
    /// ```rust
    /// let mut map = LinkedHashMap::new(rt.alloc());
    /// map.insert('x', 1)?;
    /// let lent = map.entry('x').and_modify(|value| *value = 2).or_insert(3)?;
    /// assert_eq!(rt; *lent, 2);
    /// ```
    pub fn and_modify<F: FnOnce(&mut V) + Drop>(self, f: F) -> Self
        requires { (value : MutBor V) → entry_value self ≡ Some value.now → F.pre f value }
        ensures same_map { (entry_map_ref result).ghost_name
            ≡ (entry_map_ref self.entry).ghost_name }
        ensures occupied { is_occupied result ≡ is_occupied self.entry }
        ensures key { entry_key result ≡ entry_key self.entry }
        ensures called { ModifiesValue F.FnOnce f (entry_value self.entry) (entry_value result) }
        ensures map { entry_map result
            ≡ record (entry_map self.entry) {
              pairs = set_if_some K.eq (entry_map self.entry).pairs (entry_key self.entry)
                  (entry_value result);
            } }
        ensures valid { IsValid K.eq (entry_map self.entry) }
        // A law of the map once the entry writes a value, for the proofs of callers.
        ensures writes { (v : V)
            → set_or_push K.eq (entry_map result).pairs (entry_key result) v
            ≡ set_or_push K.eq (entry_map self.entry).pairs (entry_key self.entry) v }
    {
        match self {
            Entry::Occupied(mut entry) => {
                f(entry.get_mut());
                Entry::Occupied(entry)
            }
            Entry::Vacant(entry) => {
                // Shows that the map is valid.
                let _len = entry.map.len();
                Entry::Vacant(entry)
            }
        }
    }

    /// Returns a mutable reference to the value, inserting `value` if vacant, as
    /// [`VacantEntry::insert`] does. An occupied entry keeps its place and drops `value`, in O(1).
    ///
    /// # Examples
    ///
    /// ```rust
    /// let mut map = LinkedHashMap::new(rt.alloc());
    /// let lent = map.entry('x').or_insert(1)?;
    /// *lent = 2;
    /// assert_eq!(rt; map.get(&'x'), Some(&2));
    /// ```
    #[inline]
    pub fn or_insert(self, value: V) -> Result<&'a mut V, Refused<K, V>>
    where
        V: Drop,
        ensures* writes_back { sem 𝓛
            (lends_entry K.row V.row S.row S.Hasher.row K.Hash S.BuildHasher S.Hasher.Hasher
            self.entry result) }
        ensures value { IfOk result (λ lent. lent.now ≡ unwrap_or (entry_value self.entry) value) }
        ensures limit { OnOk result
            (entry_value self.entry ≡ None → length (entry_map self.entry).pairs < LIMIT) }

        ensures key_back { IfErr result (λ refused. refused.key ≡ entry_key self.entry) }
        ensures value_back { IfErr result (λ refused. refused.value ≡ value) }
        ensures absent { OnErr result (entry_value self.entry ≡ None) }
        ensures full { OnErr result
            (length (entry_map self.entry).pairs ≡ (entry_map self.entry).capacity) }
        ensures valid { IsValid K.eq (entry_map self.entry) }
        // A law of the map once a value is written, for the proofs of callers. A new pair is not to
        // be visited, and those that are stay so.
        ensures to_visit { (v : V) → to_visit (set_or_pushed K.eq (entry_map self.entry)
            (entry_key self.entry) v) ≡ to_visit (entry_map self.entry) }
    {
        self.or_insert_with_key(move |_key: &K| value)
    }

    /// Does what `or_insert` does, with the result of `f`, which is called only if vacant, before
    /// an allocation. Except for `f` it is O(1), or up to O(n) if vacant at full capacity.
    ///
    /// # Examples
    ///
    /// ```rust
    /// let mut map = LinkedHashMap::new(rt.alloc());
    /// let lent = map.entry('x').or_insert_with(|| 1)?;
    /// assert_eq!(rt; *lent, 1);
    /// ```
    #[inline]
    pub fn or_insert_with<F: FnOnce() -> V + Drop>(self, f: F) -> Result<&'a mut V, Refused<K, V>>
        requires { entry_value self ≡ None → F.pre f }
        ensures* writes_back { sem 𝓛
            (lends_entry K.row V.row S.row S.Hasher.row K.Hash S.BuildHasher S.Hasher.Hasher
            self.entry result) }
        ensures value { IfOk result (λ lent.
            UnwrapsOrElse (entry_value self.entry) (F.post f) lent.now) }
        ensures limit { OnOk result
            (entry_value self.entry ≡ None → length (entry_map self.entry).pairs < LIMIT) }

        ensures key_back { IfErr result (λ refused. refused.key ≡ entry_key self.entry) }
        ensures value_back { IfErr result (λ refused. F.post f refused.value) }
        ensures absent { OnErr result (entry_value self.entry ≡ None) }
        ensures full { OnErr result
            (length (entry_map self.entry).pairs ≡ (entry_map self.entry).capacity) }
        ensures valid { IsValid K.eq (entry_map self.entry) }
        // A law, as that of `or_insert`.
        ensures to_visit { (v : V) → to_visit (set_or_pushed K.eq (entry_map self.entry)
            (entry_key self.entry) v) ≡ to_visit (entry_map self.entry) }
    {
        self.or_insert_with_key(move |_key: &K| f())
    }

    /// Does what `or_insert_with` does, with an `f` that is given the key. Except for `f` it is
    /// O(1), or up to O(n) if vacant at full capacity.
    ///
    /// # Examples
    ///
    /// ```rust
    /// let mut map = LinkedHashMap::new(rt.alloc());
    /// let lent = map.entry(7_u64).or_insert_with_key(|key| *key / 2)?;
    /// assert_eq!(rt; *lent, 3);
    /// ```
    #[inline]
    pub fn or_insert_with_key<F: FnOnce(&K) -> V + Drop>(
        self,
        f: F,
    ) -> Result<&'a mut V, Refused<K, V>>
        requires { entry_value self ≡ None
            → (key : Bor K) → key.now ≡ entry_key self → F.pre f key }
        ensures* writes_back { sem 𝓛
            (lends_entry K.row V.row S.row S.Hasher.row K.Hash S.BuildHasher S.Hasher.Hasher
            self.entry result) }
        ensures value { IfOk result (λ lent.
            UnwrapsOrElse (entry_value self.entry)
            (FnOnceReturnsAt F.FnOnce f (entry_key self.entry)) lent.now) }
        ensures limit { OnOk result
            (entry_value self.entry ≡ None → length (entry_map self.entry).pairs < LIMIT) }

        ensures key_back { IfErr result (λ refused. refused.key ≡ entry_key self.entry) }
        ensures value_back { IfErr result (λ refused.
            FnOnceReturnsAt F.FnOnce f (entry_key self.entry) refused.value) }
        ensures absent { OnErr result (entry_value self.entry ≡ None) }
        ensures full { OnErr result
            (length (entry_map self.entry).pairs ≡ (entry_map self.entry).capacity) }
        ensures valid { IsValid K.eq (entry_map self.entry) }
        // A law, as that of `or_insert`.
        ensures to_visit { (v : V) → to_visit (set_or_pushed K.eq (entry_map self.entry)
            (entry_key self.entry) v) ≡ to_visit (entry_map self.entry) }
    {
        let vacant = match self {
            Entry::Occupied(entry) => return Ok(entry.into_mut()),
            Entry::Vacant(vacant) => vacant,
        };
        let value = f(vacant.key());
        vacant.insert(value)
    }

    /// Does what `or_insert` does, with a value that is made only if vacant, before a growth: the
    /// default of a type that has one, such as a number, and otherwise what `MadeWith::made_with`
    /// makes on the map's allocator, such as an empty vector, text or map. Except for making the
    /// value it is O(1), or up to O(n) if vacant at full capacity.
    ///
    /// # Examples
    ///
    /// ```rust
    /// let mut map: LinkedHashMap<char, Vec<u64>> = LinkedHashMap::new(rt.alloc());
    /// map.entry('x').or_default()?.push(1)?;
    /// map.entry('x').or_default()?.push(2)?;
    /// assert_eq!(rt; map[&'x'].len(), 2);
    /// ```
    pub fn or_default(self) -> Result<&'a mut V, Refused<K, V>>
    where
        V: MadeWith<Global>,
        ensures* writes_back { sem 𝓛
            (lends_entry K.row V.row S.row S.Hasher.row K.Hash S.BuildHasher S.Hasher.Hasher
            self.entry result) }
        ensures value { IfOk result (λ lent.
            UnwrapsOrElse (entry_value self.entry) V.is_made_with lent.now) }
        ensures limit { OnOk result
            (entry_value self.entry ≡ None → length (entry_map self.entry).pairs < LIMIT) }

        ensures key_back { IfErr result (λ refused. refused.key ≡ entry_key self.entry) }
        ensures value_back { IfErr result (λ refused. V.is_made_with refused.value) }
        ensures absent { OnErr result (entry_value self.entry ≡ None) }
        ensures full { OnErr result
            (length (entry_map self.entry).pairs ≡ (entry_map self.entry).capacity) }
        ensures valid { IsValid K.eq (entry_map self.entry) }
        // A law, as that of `or_insert`.
        ensures to_visit { (v : V) → to_visit (set_or_pushed K.eq (entry_map self.entry)
            (entry_key self.entry) v) ≡ to_visit (entry_map self.entry) }
    {
        let alloc = self.allocator();
        self.or_insert_with(move || V::made_with(alloc))
    }
}
