//! The entries of the pairs at the ends.
ghost use Rattle.std.specs.Prelude.{◌≡◌, option_map, Some, None, IfSome};
ghost use Rattle.std.specs.Borrow.{sem};
ghost use Rattle.linked_hash_map.specs.Pairs.{first, last, without, set_value};
ghost use Rattle.linked_hash_map.specs.Cursor.{without_cursor};
ghost use Rattle.linked_hash_map.specs.Changes.{Keeps};
ghost use Rattle.linked_hash_map.specs.Updates.{Updates};
ghost use Rattle.linked_hash_map.specs.Validity.{IsValid};
ghost use Rattle.linked_hash_map.specs.Entry.{occupied_map_ref, occupied_map, occupied_key, occupied_value};
ghost use Rattle.linked_hash_map.specs.CursorLends.{lends_next_entry};

use super::OccupiedEntry;
use crate::map::LinkedHashMap;
use std::hash::{BuildHasher, Hash};

impl<K: Eq + Hash, V, S: BuildHasher> LinkedHashMap<K, V, S> {
    /// Returns the entry of the front pair, if any, in O(1), to look at it and remove it if wished.
    /// Hashes no key. An entry ends a visit.
    ///
    /// # Examples
    ///
    /// ```rust
    /// let mut map = LinkedHashMap::new(rt.alloc());
    /// map.extend([('x', 1), ('y', 2)])?;
    /// if let Some(entry) = map.front_entry() {
    ///     assert_eq!(rt; (*entry.key(), entry.remove()), ('x', 1));
    /// }
    /// assert_eq!(rt; map.front(), Some((&'y', &2)));
    /// ```
    pub fn front_entry(&mut self) -> Option<OccupiedEntry<'_, K, V, S>>
        ensures* lends { sem 𝓛 (lends_next_entry K.row V.row S.row S.Hasher.row K.Hash S.BuildHasher
            S.Hasher.Hasher self.entry result) }
        ensures same_map { IfSome result (λ entry.
            (occupied_map_ref entry).ghost_name ≡ self.entry.ghost_name) }
        ensures pair { option_map (λ entry. (occupied_key entry, occupied_value entry)) result
            ≡ first self.old.pairs }
        ensures pairs { IfSome result (λ entry. (occupied_map entry).pairs ≡ self.old.pairs) }
        ensures keeps { IfSome result (λ entry. Keeps self.old (occupied_map entry)) }
        ensures ends_visit { IfSome result (λ entry.
            occupied_map entry ≡ without_cursor self.old) }
        ensures valid { IsValid K.eq self.old }

        // Laws of the map once the entry writes or removes its value, for the proofs of callers.
        ensures updates { (v : V) → IfSome result (λ entry. Updates K.eq self.old.pairs
            (set_value K.eq self.old.pairs (occupied_key entry) v) (occupied_key entry) (Some v)) }
        ensures removes { IfSome result (λ entry. Updates K.eq self.old.pairs
            (without K.eq self.old.pairs (occupied_key entry)) (occupied_key entry) None) }
    {
        if self.seek_front() {
            Some(OccupiedEntry { map: self })
        } else {
            None
        }
    }

    /// Returns the entry of the back pair, if any, in O(1), to look at it and remove it if wished.
    /// Hashes no key. An entry ends a visit.
    ///
    /// # Examples
    ///
    /// ```rust
    /// let mut map = LinkedHashMap::new(rt.alloc());
    /// map.extend([('x', 1), ('y', 2)])?;
    /// if let Some(entry) = map.back_entry() {
    ///     assert_eq!(rt; (*entry.key(), entry.remove()), ('y', 2));
    /// }
    /// assert_eq!(rt; map.back(), Some((&'x', &1)));
    /// ```
    pub fn back_entry(&mut self) -> Option<OccupiedEntry<'_, K, V, S>>
        ensures* lends { sem 𝓛 (lends_next_entry K.row V.row S.row S.Hasher.row K.Hash S.BuildHasher
            S.Hasher.Hasher self.entry result) }
        ensures same_map { IfSome result (λ entry.
            (occupied_map_ref entry).ghost_name ≡ self.entry.ghost_name) }
        ensures pair { option_map (λ entry. (occupied_key entry, occupied_value entry)) result
            ≡ last self.old.pairs }
        ensures pairs { IfSome result (λ entry. (occupied_map entry).pairs ≡ self.old.pairs) }
        ensures keeps { IfSome result (λ entry. Keeps self.old (occupied_map entry)) }
        ensures ends_visit { IfSome result (λ entry.
            occupied_map entry ≡ without_cursor self.old) }
        ensures valid { IsValid K.eq self.old }

        // Laws of the map once the entry writes or removes its value, for the proofs of callers.
        ensures updates { (v : V) → IfSome result (λ entry. Updates K.eq self.old.pairs
            (set_value K.eq self.old.pairs (occupied_key entry) v) (occupied_key entry) (Some v)) }
        ensures removes { IfSome result (λ entry. Updates K.eq self.old.pairs
            (without K.eq self.old.pairs (occupied_key entry)) (occupied_key entry) None) }
    {
        if self.seek_back() {
            Some(OccupiedEntry { map: self })
        } else {
            None
        }
    }
}
