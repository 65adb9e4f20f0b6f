//! Changes of the capacity.

ghost use Rattle.std.specs.Prelude.{◌≡◌, ◌+◌, ◌<◌, ◌≤◌, length, max, IsErrOf, ◌↔◌, OnOk, OnErr};
ghost use Rattle.linked_hash_map.specs.Counts.{buckets};
ghost use Rattle.linked_hash_set.specs.Validity.{IsValid};

use super::LinkedHashSet;
use linked_hash_map::{LIMIT, NoRoom, ReserveError};
use std::hash::{BuildHasher, Hash};

impl<T: Eq + Hash, S: BuildHasher> LinkedHashSet<T, S> {
    /// Raises the capacity to exactly the number of items plus `additional`, if it is below that.
    ///
    /// Returns `TooLarge` exactly if the sum is above [`LIMIT`] or overflows, and `NoRoom` if an
    /// allocation fails. It is O(capacity), the new one, or O(1) without allocating if the old one
    /// suffices.
    ///
    /// # Examples
    ///
    /// ```rust
    /// let mut set = LinkedHashSet::new(rt.alloc());
    /// set.insert('x')?;
    /// set.reserve(4)?;
    /// assert_eq!(rt; set.capacity(), 5);
    /// ```
    pub fn reserve(&mut self, additional: usize) -> Result<(), ReserveError>
        ensures items { self.new.items ≡ self.old.items }
        ensures hasher { self.new.hasher ≡ self.old.hasher }
        ensures capacity { OnOk result
            (self.new.capacity ≡ max self.old.capacity (length self.old.items + additional)) }
        ensures stays_valid { IsValid T.eq self.new }

        ensures unchanged { OnErr result (self.new ≡ self.old) }
        ensures too_large { IsErrOf result ReserveError.TooLarge ↔
            (LIMIT < length self.old.items + additional) }
        ensures no_room { IsErrOf result ReserveError.NoRoom →
            self.old.capacity < length self.old.items + additional }
        ensures no_room_within { IsErrOf result ReserveError.NoRoom →
            length self.old.items + additional ≤ LIMIT }
    {
        self.map.reserve(additional)
    }

    /// Lowers the capacity to exactly the number of items, in O(capacity), the old one.
    ///
    /// It frees memory only if the number of buckets falls, as the map's does. It then allocates
    /// first, unless the set is empty, and returns `NoRoom` if that fails.
    ///
    /// # Examples
    ///
    /// ```rust
    /// let mut set = LinkedHashSet::new(rt.alloc());
    /// set.insert('x')?;
    /// set.reserve(4)?;
    /// set.shrink_to_fit()?;
    /// assert_eq!(rt; set.capacity(), 1);
    /// ```
    pub fn shrink_to_fit(&mut self) -> Result<(), NoRoom>
        ensures items { self.new.items ≡ self.old.items }
        ensures hasher { self.new.hasher ≡ self.old.hasher }
        ensures capacity { OnOk result (self.new.capacity ≡ length self.old.items) }
        ensures stays_valid { IsValid T.eq self.new }

        ensures unchanged { OnErr result (self.new ≡ self.old) }
        ensures some { OnErr result (0 < length self.old.items) }
        ensures spare { OnErr result (length self.old.items < self.old.capacity) }
        ensures falls { OnErr result
            (buckets (length self.old.items) < buckets self.old.capacity) }
    {
        self.map.shrink_to_fit()
    }
}
