//! Changes of the capacity.
ghost use Rattle.std.specs.Prelude.{◌≡◌, ◌+◌, ◌*◌, ◌<◌, ◌≤◌, [], length, max, IsErrOf, ◌↔◌, OnOk, OnErr};
ghost use Rattle.linked_hash_map.specs.Cursor.{to_visit};
ghost use Rattle.linked_hash_map.specs.Changes.{KeepsSettings};
ghost use Rattle.linked_hash_map.specs.Validity.{IsValid};
ghost use Rattle.linked_hash_map.specs.Counts.{buckets, rechained_raised, rechained_fitted};

use super::{LIMIT, LinkedHashMap};
use crate::error::{NoRoom, ReserveError};
use std::hash::{BuildHasher, Hash};

impl<K: Eq + Hash, V, S: BuildHasher> LinkedHashMap<K, V, S> {
    /// Raises the capacity to exactly the number of pairs plus `additional`, if it is below that.
    ///
    /// Returns `TooLarge` exactly if the sum is above [`LIMIT`] or overflows, and `NoRoom` if an
    /// allocation fails. It is O(capacity), the new one, or O(1) without allocating if the old one
    /// suffices.
    ///
    /// # Examples
    ///
    /// ```rust
    /// let mut map = LinkedHashMap::new(rt.alloc());
    /// map.insert('x', 1)?;
    /// map.reserve(4)?;
    /// assert_eq!(rt; map.capacity(), 5);
    /// ```
    pub fn reserve(&mut self, additional: usize) -> Result<(), ReserveError>
        ensures pairs { self.new.pairs ≡ self.old.pairs }
        ensures settings { KeepsSettings self.old self.new }
        ensures capacity { OnOk result
            (self.new.capacity ≡ max self.old.capacity (length self.old.pairs + additional)) }
        ensures rechained { OnOk result
            (self.new.rechained ≡ rechained_raised self.old.rechained (length self.old.pairs)
            self.old.capacity self.new.capacity) }
        ensures to_visit { to_visit self.new ≡ to_visit self.old }
        ensures valid { IsValid K.eq self.old }
        ensures stays_valid { IsValid K.eq self.new }

        ensures unchanged { OnErr result (self.new ≡ self.old) }
        ensures too_large { IsErrOf result ReserveError.TooLarge ↔
            (LIMIT < length self.old.pairs + additional) }
        ensures no_room { IsErrOf result ReserveError.NoRoom →
            self.old.capacity < length self.old.pairs + additional }
        ensures no_room_within { IsErrOf result ReserveError.NoRoom →
            length self.old.pairs + additional ≤ LIMIT }
    {
        let len = self.len();
        if additional > LIMIT - len {
            return Err(ReserveError::TooLarge);
        }
        if len + additional <= self.capacity() {
            return Ok(());
        }
        match self.table.raise(len + additional) {
            Ok(()) => Ok(()),
            Err(_) => Err(ReserveError::NoRoom),
        }
    }

    /// Lowers the capacity to exactly the number of pairs, in O(capacity), the old one.
    ///
    /// It frees memory only if the number of buckets falls. It then allocates first, unless the map
    /// is empty, and returns `NoRoom` if that fails. Unless it is refused, a visit ends.
    ///
    /// # Examples
    ///
    /// ```rust
    /// use linked_hash_map::NoRoom;
    ///
    /// let mut map = LinkedHashMap::new(rt.alloc());
    /// map.insert('x', 1)?;
    /// map.reserve(4)?;
    /// let shrunk: Result<(), NoRoom> = map.shrink_to_fit();
    /// assert_eq!(rt; shrunk, Ok(()));
    /// assert_eq!(rt; map.capacity(), 1);
    /// ```
    pub fn shrink_to_fit(&mut self) -> Result<(), NoRoom>
        ensures pairs { self.new.pairs ≡ self.old.pairs }
        ensures settings { KeepsSettings self.old self.new }
        ensures capacity { OnOk result (self.new.capacity ≡ length self.old.pairs) }
        ensures rechained { OnOk result (self.new.rechained
            ≡ rechained_fitted self.old.rechained (length self.old.pairs) self.old.capacity) }
        ensures ends_visit { OnOk result (to_visit self.new ≡ []) }
        ensures valid { IsValid K.eq self.old }
        ensures stays_valid { IsValid K.eq self.new }

        ensures unchanged { OnErr result (self.new ≡ self.old) }
        ensures some { OnErr result (0 < length self.old.pairs) }
        ensures spare { OnErr result (length self.old.pairs < self.old.capacity) }
        ensures falls { OnErr result
            (buckets (length self.old.pairs) < buckets self.old.capacity) }
    {
        match self.table.shrink_to_fit() {
            Ok(()) => {
                self.state.active = false;
                Ok(())
            }
            Err(_) => Err(NoRoom),
        }
    }

    /// Returns how many nodes rehashes have moved since `shrink_to_fit` last lowered the capacity,
    /// that call included, in O(1).
    ///
    /// # Examples
    ///
    /// ```rust
    /// let mut map = LinkedHashMap::new(rt.alloc());
    /// for key in [1, 2, 3, 4, 5] {
    ///     map.insert(key, 0)?;
    /// }
    /// assert_eq!(rt; map.rechained(), 7);
    /// ```
    pub fn rechained(&self) -> usize
        ensures rechained { result ≡ self.now.rechained }
        ensures few { self.now.rechained ≤ buckets self.now.capacity }
        ensures below { 0 < self.now.capacity → self.now.rechained < 2 * self.now.capacity }
        ensures valid { IsValid K.eq self.now }
    {
        self.table.rechained()
    }
}
