//! The methods of `OccupiedEntry`.
ghost use Rattle.std.specs.Prelude.{◌≡◌, ◌+◌, length, Some, None, IfOk, IfErr, OnOk, OnErr, IsTrue, IsFalse};
ghost use Rattle.std.specs.Borrow.{sem};
ghost use Rattle.linked_hash_map.specs.Pairs.{find, value_at, without, put, replaced, set_key, set_value, to_back_as_is, to_front};
ghost use Rattle.linked_hash_map.specs.Cursor.{to_visit};
ghost use Rattle.linked_hash_map.specs.Changes.{Keeps};
ghost use Rattle.linked_hash_map.specs.Updates.{Updates};
ghost use Rattle.linked_hash_map.specs.Validity.{IsValid};
ghost use Rattle.linked_hash_map.specs.Entry.{occupied_map_ref, occupied_map, occupied_key, occupied_value, with_occupied_value, lends_in_entry, lends_occupied};

use super::OccupiedEntry;
use std::hash::{BuildHasher, Hash};

impl<'a, K: Eq + Hash, V, S: BuildHasher> OccupiedEntry<'a, K, V, S> {
    /// Returns a reference to the stored key.
    #[tactic(auto, using(crate::proofs::pairs::OccupiedEntries::shown_entries))]
    pub fn key(&self) -> &K
        ensures { result.now ≡ occupied_key self.now }
    {
        self.map.current_pair().0
    }

    /// Returns a reference to the value.
    #[tactic(auto, using(crate::proofs::pairs::OccupiedEntries::shown_entries))]
    pub fn get(&self) -> &V
        ensures { result.now ≡ occupied_value self.now }
    {
        self.map.current_pair().1
    }

    /// Returns a mutable reference to the value.
    pub fn get_mut(&mut self) -> &mut V
        ensures* writes_back { sem 𝓛
            (lends_in_entry K.row V.row S.row S.Hasher.row K.Hash S.BuildHasher S.Hasher.Hasher
            self.entry result) }
        ensures value { result.now ≡ occupied_value self.old }
        ensures valid { IsValid K.eq (occupied_map self.old) }

        // Laws of the entry once a value is written, for the proofs of callers.
        ensures key { (v : V) → occupied_key (with_occupied_value self.old v)
            ≡ occupied_key self.old }
        ensures written { (v : V) → occupied_value (with_occupied_value self.old v) ≡ v }
        ensures map { (v : V) → occupied_map (with_occupied_value self.old v)
            ≡ record (occupied_map self.old) {
              pairs = set_value K.eq (occupied_map self.old).pairs (occupied_key self.old) v;
            } }
        ensures to_visit { (v : V) → to_visit (occupied_map (with_occupied_value self.old v))
            ≡ to_visit (occupied_map self.old) }
    {
        self.map.current_value_mut()
    }

    /// Returns a mutable reference to the value that lives as long as the borrow of the map.
    ///
    /// # Examples
    ///
    /// ```rust
    /// let mut map = LinkedHashMap::new(rt.alloc());
    /// map.insert('x', 1)?;
    /// if let Entry::Occupied(entry) = map.entry('x') {
    ///     *entry.into_mut() = 2;
    /// }
    /// assert_eq!(rt; map.get(&'x'), Some(&2));
    /// ```
    pub fn into_mut(self) -> &'a mut V
        ensures* writes_back { sem 𝓛
            (lends_occupied K.row V.row S.row S.Hasher.row K.Hash S.BuildHasher S.Hasher.Hasher
            self.entry result) }
        ensures value { result.now ≡ occupied_value self.entry }
        ensures valid { IsValid K.eq (occupied_map self.entry) }

        // A law of the map once a value is written, for the proofs of callers.
        ensures to_visit { (v : V) → to_visit (record (occupied_map self.entry) {
          pairs = set_value K.eq (occupied_map self.entry).pairs (occupied_key self.entry) v;
        }) ≡ to_visit (occupied_map self.entry) }
    {
        let OccupiedEntry { map } = self;
        map.leave_current()
    }

    /// Replaces the value and returns the old one. The pair moves to the back, except in
    /// [`Mode::Keep`](crate::Mode::Keep), and stays that of the entry.
    ///
    /// # Examples
    ///
    /// ```rust
    /// let mut map = LinkedHashMap::new(rt.alloc());
    /// map.extend([('x', 1), ('y', 2)])?;
    /// if let Entry::Occupied(mut entry) = map.entry('x') {
    ///     assert_eq!(rt; entry.insert(3), 1);
    /// }
    /// assert_eq!(rt; map.back(), Some((&'x', &3)));
    /// ```
    #[tactic(auto, using(crate::proofs::pairs::OccupiedEntries::moved_entries))]
    pub fn insert(&mut self, value: V) -> V
        ensures same_map { (occupied_map_ref self.new).ghost_name
            ≡ (occupied_map_ref self.old).ghost_name }
        ensures old { result ≡ occupied_value self.old }
        ensures key { occupied_key self.new ≡ occupied_key self.old }
        ensures value { occupied_value self.new ≡ value }
        ensures pairs { (occupied_map self.new).pairs
            ≡ put K.eq (occupied_map self.old).mode (occupied_map self.old).pairs
            (occupied_key self.old) value }
        ensures keeps { Keeps (occupied_map self.old) (occupied_map self.new) }
        ensures to_visit { to_visit (occupied_map self.new) ≡ to_visit (occupied_map self.old) }
        ensures valid { IsValid K.eq (occupied_map self.old) }
        ensures stays_valid { IsValid K.eq (occupied_map self.new) }
        // The key has the value, and the others keep theirs.
        ensures updates { Updates K.eq (occupied_map self.old).pairs (occupied_map self.new).pairs
            (occupied_key self.old) (Some value) }
    {
        self.map.insert_current(value)
    }

    /// Moves the pair to the back, in both modes, in O(1). It stays that of the entry. Hashes no
    /// key.
    ///
    /// # Examples
    ///
    /// ```rust
    /// let mut map = LinkedHashMap::new(rt.alloc());
    /// map.extend([('x', 1), ('y', 2)])?;
    /// if let Entry::Occupied(mut entry) = map.entry('x') {
    ///     entry.move_to_back();
    /// }
    /// assert_eq!(rt; map.back(), Some((&'x', &1)));
    /// ```
    #[tactic(auto, using(crate::proofs::pairs::OccupiedEntries::moved_entries))]
    pub fn move_to_back(&mut self)
        ensures same_map { (occupied_map_ref self.new).ghost_name
            ≡ (occupied_map_ref self.old).ghost_name }
        ensures key { occupied_key self.new ≡ occupied_key self.old }
        ensures value { occupied_value self.new ≡ occupied_value self.old }
        ensures pairs { (occupied_map self.new).pairs
            ≡ to_back_as_is K.eq (occupied_map self.old).pairs (occupied_key self.old) }
        ensures keeps { Keeps (occupied_map self.old) (occupied_map self.new) }
        ensures to_visit { to_visit (occupied_map self.new) ≡ to_visit (occupied_map self.old) }
        ensures valid { IsValid K.eq (occupied_map self.old) }
        ensures stays_valid { IsValid K.eq (occupied_map self.new) }
        // As many pairs as before, and each key finds what it found.
        ensures len { length (occupied_map self.new).pairs
            ≡ length (occupied_map self.old).pairs }
        ensures finds { (q : K) → find K.eq (occupied_map self.new).pairs q
            ≡ find K.eq (occupied_map self.old).pairs q }
    {
        self.map.move_current_to_back();
    }

    /// Moves the pair to the front, in both modes, in O(1). It stays that of the entry. Hashes no
    /// key.
    ///
    /// # Examples
    ///
    /// ```rust
    /// let mut map = LinkedHashMap::new(rt.alloc());
    /// map.extend([('x', 1), ('y', 2)])?;
    /// if let Entry::Occupied(mut entry) = map.entry('y') {
    ///     entry.move_to_front();
    /// }
    /// assert_eq!(rt; map.front(), Some((&'y', &2)));
    /// ```
    #[tactic(auto, using(crate::proofs::pairs::OccupiedEntries::moved_entries))]
    pub fn move_to_front(&mut self)
        ensures same_map { (occupied_map_ref self.new).ghost_name
            ≡ (occupied_map_ref self.old).ghost_name }
        ensures key { occupied_key self.new ≡ occupied_key self.old }
        ensures value { occupied_value self.new ≡ occupied_value self.old }
        ensures pairs { (occupied_map self.new).pairs
            ≡ to_front K.eq (occupied_map self.old).pairs (occupied_key self.old) }
        ensures keeps { Keeps (occupied_map self.old) (occupied_map self.new) }
        ensures to_visit { to_visit (occupied_map self.new) ≡ to_visit (occupied_map self.old) }
        ensures valid { IsValid K.eq (occupied_map self.old) }
        ensures stays_valid { IsValid K.eq (occupied_map self.new) }
        // As many pairs as before, and each key finds what it found.
        ensures len { length (occupied_map self.new).pairs
            ≡ length (occupied_map self.old).pairs }
        ensures finds { (q : K) → find K.eq (occupied_map self.new).pairs q
            ≡ find K.eq (occupied_map self.old).pairs q }
    {
        self.map.move_current_to_front();
    }

    /// Stores `key` in place of the stored key, if it is the same, and returns the old one, in
    /// O(1). The pair keeps its value and its place. If `key` is another, it comes back in `Err`,
    /// and nothing changes. Compares the two keys.
    ///
    /// # Examples
    ///
    /// ```rust
    /// let mut map = LinkedHashMap::new(rt.alloc());
    /// map.insert('x', 1)?;
    /// if let Entry::Occupied(mut entry) = map.entry('x') {
    ///     assert_eq!(rt; entry.replace_key('x'), Ok('x'));
    ///     assert_eq!(rt; entry.replace_key('y'), Err('y'));
    /// }
    /// assert_eq!(rt; map.get(&'x'), Some(&1));
    /// ```
    #[tactic(auto, using(crate::proofs::pairs::OccupiedEntries::moved_entries))]
    pub fn replace_key(&mut self, key: K) -> Result<K, K>
        // On success the stored key is returned, and `key` stands in its place.
        ensures same_map { (occupied_map_ref self.new).ghost_name
            ≡ (occupied_map_ref self.old).ghost_name }
        ensures stored { IfOk result (λ stored. stored ≡ occupied_key self.old) }
        ensures same { OnOk result (IsTrue (K.eq key (occupied_key self.old))) }
        ensures key { occupied_key self.new ≡ replaced K.eq key (occupied_key self.old) }
        ensures value { occupied_value self.new ≡ occupied_value self.old }
        ensures pairs { OnOk result
            ((occupied_map self.new).pairs ≡ set_key K.eq (occupied_map self.old).pairs key) }
        ensures keeps { Keeps (occupied_map self.old) (occupied_map self.new) }
        ensures to_visit { to_visit (occupied_map self.new) ≡ to_visit (occupied_map self.old) }
        ensures valid { IsValid K.eq (occupied_map self.old) }
        ensures stays_valid { IsValid K.eq (occupied_map self.new) }
        // Each key has the value that it had.
        ensures values { (q : K) → value_at K.eq (occupied_map self.new).pairs q
            ≡ value_at K.eq (occupied_map self.old).pairs q }

        // On failure the key comes back and nothing changes: it is another one.
        ensures key_back { IfErr result (λ back. back ≡ key) }
        ensures unchanged { OnErr result (self.new ≡ self.old) }
        ensures differs { OnErr result (IsFalse (K.eq key (occupied_key self.old))) }
    {
        if self.has_key(&key) {
            Ok(self.map.replace_current_key(key))
        } else {
            Err(key)
        }
    }

    /// Returns whether a key is the same as the stored one.
    #[tactic(auto, using(crate::proofs::pairs::OccupiedEntries::shown_entries))]
    fn has_key(&self, key: &K) -> bool
        ensures same { result ≡ K.eq key.now (occupied_key self.now) }
        ensures valid { IsValid K.eq (occupied_map self.now) }
    {
        let (stored, _value) = self.map.current_pair();
        *key == *stored
    }

    /// Removes the pair, drops the stored key and returns the value. The others keep their order.
    pub fn remove(self) -> V
    where
        K: Drop,
        ensures value { result ≡ occupied_value self.entry }
        ensures pairs { self.exit.0.now.pairs
            ≡ without K.eq (occupied_map self.entry).pairs (occupied_key self.entry) }
        ensures keeps { Keeps (occupied_map self.entry) self.exit.0.now }
        ensures to_visit { to_visit self.exit.0.now ≡ to_visit (occupied_map self.entry) }
        ensures valid { IsValid K.eq (occupied_map self.entry) }
        ensures stays_valid { IsValid K.eq self.exit.0.now }
        // The key is gone, and the others keep their values.
        ensures updates { Updates K.eq (occupied_map self.entry).pairs self.exit.0.now.pairs
            (occupied_key self.entry) None }
        ensures fewer { length self.exit.0.now.pairs + 1 ≡ length (occupied_map self.entry).pairs }
    {
        let (_key, value) = self.remove_entry();
        value
    }

    /// Removes the pair and returns the stored key and the value. The others keep their order.
    ///
    /// # Examples
    ///
    /// ```rust
    /// let mut map = LinkedHashMap::new(rt.alloc());
    /// map.insert('x', 1)?;
    /// if let Entry::Occupied(entry) = map.entry('x') {
    ///     assert_eq!(rt; entry.remove_entry(), ('x', 1));
    /// }
    /// assert!(rt; map.is_empty());
    /// ```
    pub fn remove_entry(self) -> (K, V)
        ensures key { result.0 ≡ occupied_key self.entry }
        ensures value { result.1 ≡ occupied_value self.entry }
        ensures pairs { self.exit.0.now.pairs
            ≡ without K.eq (occupied_map self.entry).pairs (occupied_key self.entry) }
        ensures keeps { Keeps (occupied_map self.entry) self.exit.0.now }
        ensures to_visit { to_visit self.exit.0.now ≡ to_visit (occupied_map self.entry) }
        ensures valid { IsValid K.eq (occupied_map self.entry) }
        ensures stays_valid { IsValid K.eq self.exit.0.now }
        // The key is gone, and the others keep their values.
        ensures updates { Updates K.eq (occupied_map self.entry).pairs self.exit.0.now.pairs
            (occupied_key self.entry) None }
        ensures fewer { length self.exit.0.now.pairs + 1 ≡ length (occupied_map self.entry).pairs }
    {
        self.map.remove_current()
    }
}
