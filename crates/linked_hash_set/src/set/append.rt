//! Moves of all items of another set behind those of a set.

ghost use Rattle.std.specs.Prelude.{◌≡◌, ◌<◌, ◌≤◌, ◌||◌, [], length, max, IsErrOf, ◌↔◌, OnOk, OnErr};
ghost use Rattle.linked_hash_set.specs.Inserts.{insert_each};
ghost use Rattle.linked_hash_set.specs.Items.{contains};
ghost use Rattle.linked_hash_set.specs.LinkedSet.{Keeps};
ghost use Rattle.linked_hash_set.specs.Validity.{IsValid};

use super::LinkedHashSet;
use linked_hash_map::{LIMIT, ReserveError};
use std::hash::{BuildHasher, Hash};

impl<T: Eq + Hash, S: BuildHasher> LinkedHashSet<T, S> {
    /// Moves all items of another set to the back, in their order, each as
    /// [`insert`](LinkedHashSet::insert) does: of a present item the stored one stays, and the
    /// other one is dropped. The other set is then empty and keeps its capacity.
    ///
    /// It first raises the capacity to exactly the new number of items, if it is below that, and
    /// returns `TooLarge` exactly if that number is above [`LIMIT`], or `NoRoom` if an allocation
    /// fails. Then neither set changes. If the capacity suffices, it allocates nothing.
    ///
    /// It hashes each item of the other set twice, by the hasher of this one. It is O(capacity) of
    /// the other set, and also of this one if it allocates.
    ///
    /// # Examples
    ///
    /// ```rust
    /// let mut set = LinkedHashSet::new(rt.alloc());
    /// set.extend(['x', 'y'])?;
    /// let mut other = LinkedHashSet::new(rt.alloc());
    /// other.extend(['x', 'z'])?;
    /// set.append(&mut other)?;
    /// assert!(rt; set.iter().eq(&['y', 'x', 'z']));
    /// assert_eq!(rt; (other.len(), other.capacity()), (0, 2));
    /// ```
    pub fn append<S2: BuildHasher>(
        &mut self,
        other: &mut LinkedHashSet<T, S2>,
    ) -> Result<(), ReserveError>
    where
        T: Drop,
        // On success the items of `other` are inserted, in order, and it is empty.
        ensures items { OnOk result
            (self.new.items ≡ insert_each T.eq self.old.items other.old.items) }
        ensures capacity { OnOk result
            (self.new.capacity ≡ max self.old.capacity (length self.new.items)) }
        ensures hasher { self.new.hasher ≡ self.old.hasher }
        ensures stays_valid { IsValid T.eq self.new }
        ensures drains { OnOk result (other.new.items ≡ []) }
        ensures other_keeps { Keeps other.old other.new }
        ensures other_valid { IsValid T.eq other.old }
        ensures other_stays_valid { IsValid T.eq other.new }
        // An item is there if it was in either set.
        ensures contains { OnOk result ((q : T) → contains T.eq self.new.items q
            ≡ (contains T.eq self.old.items q || contains T.eq other.old.items q)) }

        // On failure nothing changes. It fails for more items than fit, or without memory.
        ensures unchanged { OnErr result (self.new ≡ self.old) }
        ensures other_unchanged { OnErr result (other.new ≡ other.old) }
        ensures too_large { IsErrOf result ReserveError.TooLarge ↔
            (LIMIT < length (insert_each T.eq self.old.items other.old.items)) }
        ensures no_room { IsErrOf result ReserveError.NoRoom →
            self.old.capacity < length (insert_each T.eq self.old.items other.old.items) }
        ensures no_room_within { IsErrOf result ReserveError.NoRoom →
            length (insert_each T.eq self.old.items other.old.items) ≤ LIMIT }
    {
        self.map.append(&mut other.map)
    }
}
