//! Insertion.
ghost use Rattle.std.specs.Prelude.{◌≡◌, ◌<◌, [], length, max, option_map, None, OnOk, OnErr, IfOk, IfErr, IfNone, OnSome, IsTrue, IsFalse, ◌-◌, ◌+◌, ◌++◌, ◌∷◌, slice_get, Some, IsSome};
ghost use Rattle.std.specs.Borrow.{sem};
ghost use Rattle.linked_hash_map.specs.Pairs.{last, key_or, find, value_at, put};
ghost use Rattle.linked_hash_map.specs.Cursor.{to_visit};
ghost use Rattle.linked_hash_map.specs.Changes.{Keeps, KeepsSettings};
ghost use Rattle.linked_hash_map.specs.Validity.{IsValid};
ghost use Rattle.linked_hash_map.specs.Hashers.{hash_by};
ghost use Rattle.linked_hash_map.specs.Counts.{rechained_raised};
ghost use Rattle.linked_hash_map.specs.Touches.{IsTouched};
ghost use Rattle.linked_hash_map.specs.Updates.{Updates};
ghost use Rattle.lhm_ring.specs.Pointer.{pointer_of};
ghost use Rattle.lhm_ring.specs.Ring.{IsHeld};
ghost use Rattle.lhm_ring.specs.Table.{KeepsCounts};

use super::get::locate;
use super::{LIMIT, LinkedHashMap, Mode};
use crate::error::Refused;
use lhm_ring::table::{Position, Table};
use std::hash::{BuildHasher, Hash};
use std::mem;

/// Moves the pair at a position to the back, except in `Keep`.
#[inline]
pub(super) fn touch<K, V>(table: &mut Table<K, V>, at: Position<K, V>, mode: Mode)
    requires { IsHeld table.old.held (pointer_of at) }
    ensures touched { IsTouched mode (pointer_of at) table.old.held table.new.held }
    ensures keeps { KeepsCounts table.old table.new }
{
    match mode {
        Mode::Touch => table.move_to_back(at),
        Mode::Keep => {}
    }
}

impl<K: Eq + Hash, V, S: BuildHasher> LinkedHashMap<K, V, S> {
    ghost use Rattle.linked_hash_map.specs.Lends.{lends_at};

    /// Inserts a pair at the back and returns the old value of its key, or `None` if the key is
    /// new. For a present key the stored key stays, `key` is dropped, and in [`Mode::Keep`] the
    /// pair keeps its place. Hashes the key once.
    ///
    /// Only a new key at full capacity allocates: it raises the capacity by one, or is refused and
    /// handed back with its value. It is O(1), or up to O(n) at full capacity.
    ///
    /// # Examples
    ///
    /// ```rust
    /// let mut map = LinkedHashMap::new(rt.alloc());
    /// assert_eq!(rt; map.insert('x', 1)?, None);
    /// assert_eq!(rt; map.insert('y', 2)?, None);
    /// assert_eq!(rt; map.insert('x', 3)?, Some(1));
    /// assert_eq!(rt; map.back(), Some((&'x', &3)));
    /// ```
    #[inline(always)]
    pub fn insert(&mut self, key: K, value: V) -> Result<Option<V>, Refused<K, V>>
    where
        K: Drop,
        // On success the key has the value, its old value is returned, and the others keep theirs.
        ensures old { IfOk result (λ old. old ≡ value_at K.eq self.old.pairs key) }
        ensures pairs { OnOk result
            (self.new.pairs ≡ put K.eq self.old.mode self.old.pairs key value) }
        ensures capacity { OnOk result
            (self.new.capacity ≡ max self.old.capacity (length self.new.pairs)) }
        ensures rechained { OnOk result
            (self.new.rechained ≡ rechained_raised self.old.rechained (length self.old.pairs)
            self.old.capacity self.new.capacity) }
        ensures settings { KeepsSettings self.old self.new }
        ensures ends_visit { IfOk result (λ old. OnSome old (to_visit self.new ≡ [])) }
        ensures to_visit { IfOk result (λ old. IfNone old (to_visit self.new ≡ to_visit self.old)) }
        ensures valid { IsValid K.eq self.old }
        ensures stays_valid { IsValid K.eq self.new }
        // Where the pair stands, how many there are, and when the capacity stays.
        ensures updates { OnOk result
            (Updates K.eq self.old.pairs self.new.pairs key (Some value)) }
        ensures last { OnOk result (self.old.mode ≡ Mode.Touch → last self.new.pairs
            ≡ Some (key_or key (find K.eq self.old.pairs key), value)) }
        ensures pushed { OnOk result (value_at K.eq self.old.pairs key ≡ None
            → self.new.pairs ≡ self.old.pairs ++ (key, value) ∷ []) }
        ensures more { OnOk result (value_at K.eq self.old.pairs key ≡ None
            → length self.new.pairs ≡ length self.old.pairs + 1) }
        ensures as_many { OnOk result (IsSome (value_at K.eq self.old.pairs key)
            → length self.new.pairs ≡ length self.old.pairs) }
        ensures same_room { OnOk result ((find K.eq self.old.pairs key ≡ None
            → length self.old.pairs < self.old.capacity) → self.new.capacity ≡ self.old.capacity) }

        // On failure the pair comes back and nothing changes: its key is new, and the map is full.
        ensures key_back { IfErr result (λ refused. refused.key ≡ key) }
        ensures value_back { IfErr result (λ refused. refused.value ≡ value) }
        ensures unchanged { OnErr result (self.new ≡ self.old) }
        ensures absent { OnErr result (find K.eq self.old.pairs key ≡ None) }
        ensures full { OnErr result (length self.old.pairs ≡ self.old.capacity) }
    {
        let (hash, found) = locate(&self.table, &self.hasher, &key);
        if let Some(at) = found {
            self.state.active = false;
            touch(&mut self.table, at, self.state.mode);
            return Ok(Some(mem::replace(self.table.value_mut(at), value)));
        }
        if !self.make_room() {
            return Err(Refused { key, value });
        }
        self.push_back(hash, key, value);
        Ok(None)
    }

    /// Inserts a pair and returns the old value of its key, or `None` if the key is new, as
    /// [`insert`](LinkedHashMap::insert) does in [`Mode::Keep`]: in both modes the pair of a present
    /// key keeps its place and its stored key, and `key` is dropped; a new one goes to the back.
    ///
    /// It hashes the key once, ends a visit if it is present, and allocates, is refused and hands
    /// back its pair as `insert` does. It is O(1), or up to O(n) at full capacity.
    ///
    /// # Examples
    ///
    /// ```rust
    /// let mut map = LinkedHashMap::new(rt.alloc());
    /// assert_eq!(rt; map.replace('x', 1)?, None);
    /// assert_eq!(rt; map.replace('y', 2)?, None);
    /// assert_eq!(rt; map.replace('x', 3)?, Some(1));
    /// assert_eq!(rt; map.front(), Some((&'x', &3)));
    /// ```
    pub fn replace(&mut self, key: K, value: V) -> Result<Option<V>, Refused<K, V>>
    where
        K: Drop,
        // On success the key has the value, its old value is returned, and the others keep theirs.
        ensures old { IfOk result (λ old. old ≡ value_at K.eq self.old.pairs key) }
        ensures pairs { OnOk result
            (self.new.pairs ≡ put K.eq Mode.Keep self.old.pairs key value) }
        ensures capacity { OnOk result
            (self.new.capacity ≡ max self.old.capacity (length self.new.pairs)) }
        ensures rechained { OnOk result
            (self.new.rechained ≡ rechained_raised self.old.rechained (length self.old.pairs)
            self.old.capacity self.new.capacity) }
        ensures settings { KeepsSettings self.old self.new }
        ensures ends_visit { IfOk result (λ old. OnSome old (to_visit self.new ≡ [])) }
        ensures to_visit { IfOk result (λ old. IfNone old (to_visit self.new ≡ to_visit self.old)) }
        ensures valid { IsValid K.eq self.old }
        ensures stays_valid { IsValid K.eq self.new }
        // Where a new pair stands, how many there are, and when the capacity stays.
        ensures updates { OnOk result
            (Updates K.eq self.old.pairs self.new.pairs key (Some value)) }
        ensures pushed { OnOk result (value_at K.eq self.old.pairs key ≡ None
            → self.new.pairs ≡ self.old.pairs ++ (key, value) ∷ []) }
        ensures more { OnOk result (value_at K.eq self.old.pairs key ≡ None
            → length self.new.pairs ≡ length self.old.pairs + 1) }
        ensures as_many { OnOk result (IsSome (value_at K.eq self.old.pairs key)
            → length self.new.pairs ≡ length self.old.pairs) }
        ensures same_room { OnOk result ((find K.eq self.old.pairs key ≡ None
            → length self.old.pairs < self.old.capacity) → self.new.capacity ≡ self.old.capacity) }

        // On failure the pair comes back and nothing changes: its key is new, and the map is full.
        ensures key_back { IfErr result (λ refused. refused.key ≡ key) }
        ensures value_back { IfErr result (λ refused. refused.value ≡ value) }
        ensures unchanged { OnErr result (self.new ≡ self.old) }
        ensures absent { OnErr result (find K.eq self.old.pairs key ≡ None) }
        ensures full { OnErr result (length self.old.pairs ≡ self.old.capacity) }
    {
        let mode = self.mode();
        self.set_mode(Mode::Keep);
        let old = self.insert(key, value);
        self.set_mode(mode);
        old
    }

    /// Inserts a pair as [`insert`](LinkedHashMap::insert) does, if the key is present or there is
    /// room for one more pair: so it allocates nothing and is not refused. It is O(1).
    ///
    /// # Examples
    ///
    /// ```rust
    /// let mut map = LinkedHashMap::with_capacity(rt.alloc(), 1)?;
    /// if map.len() < map.capacity() {
    ///     assert_eq!(rt; map.insert_within_capacity('x', 1), None);
    /// }
    /// assert_eq!(rt; map.get(&'x'), Some(&1));
    /// ```
    pub fn insert_within_capacity(&mut self, key: K, value: V) -> Option<V>
    where
        K: Drop,
        requires { find K.eq self.old.pairs key ≡ None → length self.old.pairs < self.old.capacity }
        // The key has the value, its old value is returned, and the others keep theirs.
        ensures old { result ≡ value_at K.eq self.old.pairs key }
        ensures pairs { self.new.pairs ≡ put K.eq self.old.mode self.old.pairs key value }
        ensures keeps { Keeps self.old self.new }
        ensures ends_visit { OnSome result (to_visit self.new ≡ []) }
        ensures to_visit { IfNone result (to_visit self.new ≡ to_visit self.old) }
        ensures valid { IsValid K.eq self.old }
        ensures stays_valid { IsValid K.eq self.new }
        // Where a new pair stands, and how many there are.
        ensures updates { Updates K.eq self.old.pairs self.new.pairs key (Some value) }
        ensures pushed { value_at K.eq self.old.pairs key ≡ None
            → self.new.pairs ≡ self.old.pairs ++ (key, value) ∷ [] }
        ensures more { value_at K.eq self.old.pairs key ≡ None
            → length self.new.pairs ≡ length self.old.pairs + 1 }
        ensures as_many { IsSome (value_at K.eq self.old.pairs key)
            → length self.new.pairs ≡ length self.old.pairs }
    {
        match self.insert(key, value) {
            Ok(old) => old,
            Err(_) => unreachable!(),
        }
    }

    /// Raises a full capacity by one, and returns whether there is room for one more pair.
    #[inline]
    pub(crate) fn make_room(&mut self) -> bool
        ensures pairs { self.new.pairs ≡ self.old.pairs }
        ensures settings { KeepsSettings self.old self.new }
        ensures cursor { self.new.cursor ≡ self.old.cursor }
        ensures made { IsTrue result
            → self.new.capacity ≡ max self.old.capacity (length self.old.pairs + 1) }
        ensures rechained { IsTrue result
            → self.new.rechained ≡ rechained_raised self.old.rechained (length self.old.pairs)
            self.old.capacity self.new.capacity }
        ensures refused { IsFalse result → self.new ≡ self.old }
        ensures full { IsFalse result → length self.old.pairs ≡ self.old.capacity }
        ensures valid { IsValid K.eq self.old }
    {
        if !self.table.is_full() {
            return true;
        }
        let capacity = self.table.capacity();
        if capacity == LIMIT {
            return false;
        }
        self.table.raise(capacity + 1).is_ok()
    }

    /// Inserts a pair of an absent key, with its hash, at the back.
    #[inline]
    pub(crate) fn push_back(&mut self, hash: u64, key: K, value: V)
        requires hash { hash ≡ hash_by S.Hasher.finish S.Hasher.write S.build_hasher K.hash_input
            self.old.hasher key }
        requires room { length self.old.pairs < self.old.capacity }
        requires absent { find K.eq self.old.pairs key ≡ None }
        ensures pairs { self.new.pairs ≡ self.old.pairs ++ (key, value) ∷ [] }
        ensures keeps { Keeps self.old self.new }
        ensures cursor { self.new.cursor ≡ self.old.cursor }
        ensures to_visit { to_visit self.new ≡ to_visit self.old }
        ensures stays_valid { IsValid K.eq self.new }
    {
        self.table.push_back(hash, key, value);
    }

    /// Returns a mutable reference to the value of the back pair.
    pub(crate) fn last_value_mut(&mut self) -> &mut V
        requires { 0 < length self.old.pairs }
        ensures* writes_back { sem 𝓛
            (lends_at K.row V.row S.row S.Hasher.row K.Hash S.BuildHasher S.Hasher.Hasher self.entry
            (length self.old.pairs - 1) result) }
        ensures value { option_map (λ pair. pair.1)
            (slice_get self.old.pairs (length self.old.pairs - 1))
            ≡ Some result.now }
        ensures valid { IsValid K.eq self.old }
    {
        let at = self.table.last().unwrap();
        self.table.value_mut(at)
    }
}
