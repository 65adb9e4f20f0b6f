//! Replacement of a stored key. `replace`, which replaces a value, is in `insert`.
ghost use Rattle.std.specs.Prelude.{◌≡◌, length, map, option_map, Some, None, IfOk, IfErr, OnErr};
ghost use Rattle.std.specs.Map.{keys_of};
ghost use Rattle.linked_hash_map.specs.Pairs.{find, value_at, replaced, set_key};
ghost use Rattle.linked_hash_map.specs.Cursor.{to_visit};
ghost use Rattle.linked_hash_map.specs.Changes.{Keeps};
ghost use Rattle.linked_hash_map.specs.Validity.{IsValid};

use super::LinkedHashMap;
use super::get::locate;
use std::hash::{BuildHasher, Hash};

impl<K: Eq + Hash, V, S: BuildHasher> LinkedHashMap<K, V, S> {
    /// Stores `key` in place of the stored key that is the same, and returns that, in O(1). The
    /// pair keeps its value and its place, and a visit goes on. If the key is absent, it comes back
    /// in `Err`, and the map is unchanged. Hashes the key once.
    ///
    /// # Examples
    ///
    /// ```rust
    /// let mut map = LinkedHashMap::new(rt.alloc());
    /// map.insert('x', 1)?;
    /// assert_eq!(rt; map.replace_key('x'), Ok('x'));
    /// assert_eq!(rt; map.replace_key('y'), Err('y'));
    /// assert_eq!(rt; map.len(), 1);
    /// ```
    pub fn replace_key(&mut self, key: K) -> Result<K, K>
        // On success the stored key is returned, and `key` stands in its place.
        ensures stored { IfOk result (λ stored.
            option_map (λ pair. pair.0) (find K.eq self.old.pairs key) ≡ Some stored) }
        ensures pairs { self.new.pairs ≡ set_key K.eq self.old.pairs key }
        ensures keeps { Keeps self.old self.new }
        ensures to_visit { to_visit self.new ≡ map (replaced K.eq key) (to_visit self.old) }
        ensures valid { IsValid K.eq self.old }
        ensures stays_valid { IsValid K.eq self.new }
        // Each key has the value that it had.
        ensures keys { keys_of self.new.pairs ≡ map (replaced K.eq key) (keys_of self.old.pairs) }
        ensures values { (q : K)
            → value_at K.eq self.new.pairs q ≡ value_at K.eq self.old.pairs q }
        ensures len { length self.new.pairs ≡ length self.old.pairs }

        // On failure the key comes back and nothing changes: it is absent.
        ensures key_back { IfErr result (λ back. back ≡ key) }
        ensures unchanged { OnErr result (self.new ≡ self.old) }
        ensures absent { OnErr result (find K.eq self.old.pairs key ≡ None) }
    {
        let (_, found) = locate(&self.table, &self.hasher, &key);
        match found {
            Some(at) => Ok(self.table.replace_key(at, key)),
            None => Err(key),
        }
    }
}
