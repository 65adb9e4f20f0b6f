//! Visits of a map, entry by entry.
ghost use Rattle.std.specs.Prelude.{◌≡◌, [], ◌∷◌, length, Some, IfSome, IfNone};
ghost use Rattle.std.specs.Borrow.{sem};
ghost use Rattle.std.specs.Map.{keys_of};
ghost use Rattle.linked_hash_map.specs.Pairs.{value_at};
ghost use Rattle.linked_hash_map.specs.Cursor.{to_visit};
ghost use Rattle.linked_hash_map.specs.Changes.{Keeps};
ghost use Rattle.linked_hash_map.specs.Validity.{IsValid};
ghost use Rattle.linked_hash_map.specs.Entry.{occupied_map_ref, occupied_map, occupied_key, occupied_value};
ghost use Rattle.linked_hash_map.specs.CursorLends.{cursor_map_ref, cursor_map, lends_map, lends_next_entry, lends_next};

use super::OccupiedEntry;
use crate::map::{DefaultHashBuilder, LinkedHashMap};
use std::hash::{BuildHasher, Hash};

/// A cursor over the entries of a map, front to back, returned by `entries`. It visits each pair
/// that the map had at that call once, whatever its entry does.
///
/// # Examples
///
/// ```rust
/// let mut map = LinkedHashMap::new(rt.alloc());
/// map.extend([('x', 1), ('y', 2)])?;
/// let mut cursor = map.entries();
/// if let Some(mut entry) = cursor.next() {
///     assert_eq!(rt; entry.insert(3), 1);
/// }
/// assert_eq!(rt; cursor.remaining(), 1);
/// assert_eq!(rt; map.back(), Some((&'x', &3)));
/// ```
#[derive(Drop)]
pub struct Entries<'a, K: Eq + Hash, V, S: BuildHasher = DefaultHashBuilder> {
    map: &'a mut LinkedHashMap<K, V, S>,
}

impl<K: Eq + Hash, V, S: BuildHasher> LinkedHashMap<K, V, S> {
    /// Returns a cursor over the entries, front to back, in O(1). A loop that counts by
    /// [`remaining`](Entries::remaining) is known to end.
    ///
    /// # Examples
    ///
    /// ```rust
    /// let mut map = LinkedHashMap::new(rt.alloc());
    /// map.extend([('x', 1), ('y', 0)])?;
    /// let mut cursor = map.entries();
    /// for _ in 0..cursor.remaining() {
    ///     if let Some(entry) = cursor.next() {
    ///         if *entry.get() == 0 {
    ///             entry.remove();
    ///         }
    ///     }
    /// }
    /// assert_eq!(rt; (map.len(), map.get(&'x')), (1, Some(&1)));
    /// ```
    pub fn entries(&mut self) -> Entries<'_, K, V, S>
        ensures same_map { (cursor_map_ref result).ghost_name ≡ self.entry.ghost_name }
        ensures to_visit { to_visit (cursor_map result) ≡ keys_of self.old.pairs }
        ensures pairs { (cursor_map result).pairs ≡ self.old.pairs }
        ensures keeps { Keeps self.old (cursor_map result) }
        ensures valid { IsValid K.eq self.old }
    {
        self.begin_visit();
        Entries { map: self }
    }

    /// Begins a visit of every pair, front to back, and returns the map, in O(1).
    /// [`next_entry`](LinkedHashMap::next_entry) returns the entries. A pair that goes in later, as
    /// by a vacant entry, is not visited, and leaves the visit.
    ///
    /// Another visit, by this call or by `entries`, ends it. So do `shrink_to_fit` and each call
    /// that may remove or move a pair, except an entry's. A call by keys does so only if they are
    /// present, and then also `entry`, and in both modes an insertion. `insert_front` and `append`
    /// do so with any keys, `truncate` also if it drops nothing, `front_entry` and `back_entry` if
    /// there is a pair. `replay` leaves a visit as it was, or ends it. A clone has no pair to visit.
    ///
    /// # Examples
    ///
    /// ```rust
    /// let mut map = LinkedHashMap::new(rt.alloc());
    /// map.extend([('x', 1), ('y', 0)])?;
    /// let entries = map.visit();
    /// while let Some(entry) = entries.next_entry() {
    ///     if *entry.get() == 0 {
    ///         entry.remove();
    ///     }
    /// }
    /// assert_eq!(rt; (map.len(), map.get(&'x')), (1, Some(&1)));
    /// ```
    pub fn visit(&mut self) -> &mut Self
        ensures same_map { result.ghost_name ≡ self.entry.ghost_name }
        ensures to_visit { to_visit result.now ≡ keys_of self.old.pairs }
        ensures pairs { result.now.pairs ≡ self.old.pairs }
        ensures keeps { Keeps self.old result.now }
        ensures valid { IsValid K.eq self.old }
    {
        self.begin_visit();
        self
    }

    /// Returns the entry of the next pair to visit, or `None` if none is left or there is no visit,
    /// in O(1). No pair comes twice, whatever its entry does.
    ///
    /// # Examples
    ///
    /// ```rust
    /// let mut map = LinkedHashMap::new(rt.alloc());
    /// map.extend([('x', 1), ('y', 2)])?;
    /// let entries = map.visit();
    /// if let Some(mut entry) = entries.next_entry() {
    ///     assert_eq!(rt; entry.insert(3), 1);
    /// }
    /// assert_eq!(rt; entries.remove(&'x'), Some(3));
    /// assert!(rt; entries.next_entry().is_none());
    /// ```
    pub fn next_entry(&mut self) -> Option<OccupiedEntry<'_, K, V, S>>
        ensures* lends { sem 𝓛 (lends_next_entry K.row V.row S.row S.Hasher.row K.Hash S.BuildHasher
            S.Hasher.Hasher self.entry result) }
        ensures same_map { IfSome result (λ entry.
            (occupied_map_ref entry).ghost_name ≡ self.entry.ghost_name) }
        ensures visits { IfSome result (λ entry.
            to_visit self.old ≡ occupied_key entry ∷ to_visit (occupied_map entry)) }
        ensures value { IfSome result (λ entry.
            value_at K.eq self.old.pairs (occupied_key entry) ≡ Some (occupied_value entry)) }
        ensures pairs { IfSome result (λ entry. (occupied_map entry).pairs ≡ self.old.pairs) }
        ensures keeps { IfSome result (λ entry. Keeps self.old (occupied_map entry)) }
        ensures valid { IsValid K.eq self.old }
        ensures none { IfNone result (to_visit self.old ≡ []) }
    {
        if self.visit_next() {
            Some(OccupiedEntry { map: self })
        } else {
            None
        }
    }
}

impl<'a, K: Eq + Hash, V, S: BuildHasher> Entries<'a, K, V, S> {
    /// Returns the entry of the next pair, lent until the cursor is used again, or `None` if none
    /// is left, in O(1).
    ///
    /// # Examples
    ///
    /// ```rust
    /// let mut map = LinkedHashMap::new(rt.alloc());
    /// map.extend([('x', 1), ('y', 2)])?;
    /// let mut cursor = map.entries();
    /// if let Some(mut entry) = cursor.next() {
    ///     assert_eq!(rt; entry.insert(3), 1);
    /// }
    /// ```
    pub fn next(&mut self) -> Option<OccupiedEntry<'_, K, V, S>>
        ensures* lends { sem 𝓛 (lends_next K.row V.row S.row S.Hasher.row K.Hash S.BuildHasher
            S.Hasher.Hasher self.entry result) }
        ensures visits { IfSome result (λ entry.
            to_visit (cursor_map self.old) ≡ occupied_key entry ∷ to_visit (occupied_map entry)) }
        ensures value { IfSome result (λ entry.
            value_at K.eq (cursor_map self.old).pairs (occupied_key entry)
            ≡ Some (occupied_value entry)) }
        ensures pairs { IfSome result (λ entry.
            (occupied_map entry).pairs ≡ (cursor_map self.old).pairs) }
        ensures keeps { IfSome result (λ entry. Keeps (cursor_map self.old) (occupied_map entry)) }
        ensures valid { IsValid K.eq (cursor_map self.old) }
        ensures none { IfNone result (to_visit (cursor_map self.old) ≡ []) }
    {
        let map = self.as_map();
        map.next_entry()
    }

    /// Returns the number of pairs left to visit, in O(1).
    ///
    /// # Examples
    ///
    /// ```rust
    /// let mut map = LinkedHashMap::new(rt.alloc());
    /// map.extend([('x', 1), ('y', 2)])?;
    /// let mut cursor = map.entries();
    /// if let Some(mut entry) = cursor.next() {
    ///     assert_eq!(rt; entry.insert(3), 1);
    /// }
    /// assert_eq!(rt; cursor.remaining(), 1);
    /// ```
    pub fn remaining(&self) -> usize
        ensures { result ≡ length (to_visit (cursor_map self.now)) }
    {
        self.map.unvisited()
    }

    /// Returns the map.
    fn as_map(&mut self) -> &mut LinkedHashMap<K, V, S>
        ensures* lends { sem 𝓛 (lends_map K.row V.row S.row S.Hasher.row K.Hash S.BuildHasher
            S.Hasher.Hasher self.entry result) }
        ensures now { result.now ≡ cursor_map self.old }
    {
        &mut *self.map
    }
}
