//! Insertion of all pairs of another map.
ghost use Rattle.std.specs.Prelude.{◌≡◌, ◌<◌, ◌≤◌, [], not, is_some, length, count_by, max, IsErrOf, ◌↔◌, OnOk, OnErr};
ghost use Rattle.std.specs.Map.{keys_of};
ghost use Rattle.linked_hash_map.specs.Pairs.{find};
ghost use Rattle.linked_hash_map.specs.Inserts.{insert_each};
ghost use Rattle.linked_hash_map.specs.Cursor.{to_visit};
ghost use Rattle.linked_hash_map.specs.Changes.{KeepsSettings, drained};
ghost use Rattle.linked_hash_map.specs.Validity.{IsValid};
ghost use Rattle.linked_hash_map.specs.Counts.{rechained_raised};

use super::{LIMIT, LinkedHashMap};
use crate::error::ReserveError;
use std::hash::{BuildHasher, Hash};

impl<K: Eq + Hash, V, S: BuildHasher> LinkedHashMap<K, V, S> {
    /// Moves all pairs of another map to the back, in their order, each as
    /// [`insert`](LinkedHashMap::insert) does: for a present key the stored key stays, the new key
    /// and the old value are dropped, and in [`Mode::Keep`](crate::Mode::Keep) the pair keeps its
    /// place. The other map is then empty and keeps its capacity. A visit of either map ends.
    ///
    /// It first raises the capacity to exactly the new number of pairs, if it is below that, and
    /// returns `TooLarge` exactly if that number is above [`LIMIT`], or `NoRoom` if an allocation
    /// fails. Then neither map changes. If the capacity suffices, it allocates nothing.
    ///
    /// It hashes each key of the other map twice, by the hasher of this one. It is O(capacity) of
    /// the other map, and also of this one if it allocates.
    ///
    /// # Examples
    ///
    /// ```rust
    /// let mut map = LinkedHashMap::new(rt.alloc());
    /// map.extend([('x', 1), ('y', 2)])?;
    /// let mut other = LinkedHashMap::new(rt.alloc());
    /// other.extend([('x', 3), ('z', 4)])?;
    /// map.append(&mut other)?;
    /// assert_eq!(rt; map.front(), Some((&'y', &2)));
    /// assert_eq!(rt; map.back(), Some((&'z', &4)));
    /// assert_eq!(rt; (map.len(), other.len(), other.capacity()), (3, 0, 2));
    /// ```
    pub fn append<S2: BuildHasher>(
        &mut self,
        other: &mut LinkedHashMap<K, V, S2>,
    ) -> Result<(), ReserveError>
    where
        K: Drop,
        V: Drop,
        // On success the pairs of `other` are inserted, in order, and it is empty.
        ensures pairs { OnOk result (self.new.pairs
            ≡ insert_each K.eq self.old.mode self.old.pairs other.old.pairs) }
        ensures capacity { OnOk result
            (self.new.capacity ≡ max self.old.capacity (length self.new.pairs)) }
        ensures rechained { OnOk result
            (self.new.rechained ≡ rechained_raised self.old.rechained (length self.old.pairs)
            self.old.capacity self.new.capacity) }
        ensures settings { KeepsSettings self.old self.new }
        ensures ends_visit { OnOk result (to_visit self.new ≡ []) }
        ensures drains { OnOk result (other.new ≡ drained other.old) }
        ensures valid { IsValid K.eq self.old }
        ensures stays_valid { IsValid K.eq self.new }
        ensures other_valid { IsValid K.eq other.old }
        ensures other_stays_valid { IsValid K.eq other.new }

        // On failure nothing changes. It fails for more pairs than fit, or without memory.
        ensures unchanged { OnErr result (self.new ≡ self.old) }
        ensures other_unchanged { OnErr result (other.new ≡ other.old) }
        ensures too_large { IsErrOf result ReserveError.TooLarge ↔ (LIMIT
            < length (insert_each K.eq self.old.mode self.old.pairs other.old.pairs)) }
        ensures no_room { IsErrOf result ReserveError.NoRoom → self.old.capacity
            < length (insert_each K.eq self.old.mode self.old.pairs other.old.pairs) }
        ensures no_room_within { IsErrOf result ReserveError.NoRoom →
            length (insert_each K.eq self.old.mode self.old.pairs other.old.pairs) ≤ LIMIT }
    {
        let absent = self.count_absent(other);
        self.reserve(absent)?;
        match self.extend(other.drain()) {
            Ok(()) => {}
            Err(_) => unreachable!(),
        }
        self.state.active = false;
        Ok(())
    }

    /// Returns how many keys of another map are absent.
    fn count_absent<S2: BuildHasher>(&self, other: &LinkedHashMap<K, V, S2>) -> usize
        ensures count { result ≡ count_by (λ key. not (is_some (find K.eq self.now.pairs key)))
            (keys_of other.now.pairs) }
        ensures other_valid { IsValid K.eq other.now }
    {
        let mut absent = 0;
        for key in other.keys() {
            if !self.contains_key(key) {
                absent += 1;
            }
        }
        absent
    }
}
