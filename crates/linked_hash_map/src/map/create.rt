//! The constructors.
ghost use Rattle.std.specs.Prelude.{◌≡◌, ◌<◌, ◌≤◌, [], IsErrOf, ◌↔◌, IfOk};
ghost use Rattle.linked_hash_map.specs.Validity.{IsValid};
ghost use Rattle.linked_hash_map.specs.Hashers.{IsDefaultHashBuilder};

use super::{LIMIT, LinkedHashMap, Mode};
use crate::error::ReserveError;
use lhm_ring::table::Table;
use std::alloc::Global;
use std::hash::{BuildHasher, BuildHasherDefault, Hash};

impl<K: Eq + Hash, V> LinkedHashMap<K, V> {
    /// Creates an empty map of capacity 0 with the default hasher, in O(1) without allocating.
    ///
    /// # Examples
    ///
    /// ```rust
    /// let map: LinkedHashMap<char, u64> = LinkedHashMap::new(rt.alloc());
    /// assert_eq!(rt; (map.len(), map.capacity()), (0, 0));
    /// ```
    pub fn new(alloc: Global) -> Self
        ensures pairs { result.pairs ≡ [] }
        ensures capacity { result.capacity ≡ 0 }
        ensures hasher { IsDefaultHashBuilder result.hasher }
        ensures mode { result.mode ≡ Mode.Touch }
        ensures valid { IsValid K.eq result }
        ensures rechained { result.rechained ≡ 0 }
    {
        Self::with_hasher(alloc, BuildHasherDefault::new())
    }

    /// Creates an empty map of exactly this capacity with the default hasher, in O(capacity).
    ///
    /// Returns `TooLarge` exactly if it is above [`LIMIT`], and `NoRoom` if an allocation fails.
    /// Capacity 0 does not allocate.
    ///
    /// # Examples
    ///
    /// ```rust
    /// let map: LinkedHashMap<char, u64> = LinkedHashMap::with_capacity(rt.alloc(), 5)?;
    /// assert_eq!(rt; (map.len(), map.capacity()), (0, 5));
    /// ```
    pub fn with_capacity(alloc: Global, capacity: usize) -> Result<Self, ReserveError>
        ensures pairs { IfOk result (λ map. map.pairs ≡ []) }
        ensures capacity { IfOk result (λ map. map.capacity ≡ capacity) }
        ensures hasher { IfOk result (λ map. IsDefaultHashBuilder map.hasher) }
        ensures mode { IfOk result (λ map. map.mode ≡ Mode.Touch) }
        ensures valid { IfOk result (IsValid K.eq) }
        ensures rechained { IfOk result (λ map. map.rechained ≡ 0) }

        ensures too_large { IsErrOf result ReserveError.TooLarge ↔ (LIMIT < capacity) }
        ensures no_room { IsErrOf result ReserveError.NoRoom → 0 < capacity }
        ensures no_room_within { IsErrOf result ReserveError.NoRoom → capacity ≤ LIMIT }
    {
        Self::with_capacity_and_hasher(alloc, capacity, BuildHasherDefault::new())
    }
}

impl<K: Eq + Hash, V, S: BuildHasher> LinkedHashMap<K, V, S> {
    /// Creates an empty map of capacity 0 with a build hasher, in O(1) without allocating.
    ///
    /// # Examples
    ///
    /// ```rust
    /// use std::hash::RandomState;
    ///
    /// let builder = RandomState::new(&rt)?;
    /// let mut map = LinkedHashMap::with_hasher(rt.alloc(), builder);
    /// map.insert('x', 1)?;
    /// assert_eq!(rt; map.get(&'x'), Some(&1));
    /// ```
    pub fn with_hasher(alloc: Global, hasher: S) -> Self
        ensures pairs { result.pairs ≡ [] }
        ensures capacity { result.capacity ≡ 0 }
        ensures hasher { result.hasher ≡ hasher }
        ensures mode { result.mode ≡ Mode.Touch }
        ensures valid { IsValid K.eq result }
        ensures rechained { result.rechained ≡ 0 }
    {
        Self::of_empty(Table::new(alloc), hasher)
    }

    /// Creates an empty map of exactly this capacity with a build hasher, as `with_capacity` does.
    /// An error drops the hasher.
    ///
    /// # Examples
    ///
    /// ```rust
    /// use linked_hash_map::{DefaultHashBuilder, LinkedHashMap};
    ///
    /// let builder = DefaultHashBuilder::new();
    /// let mut map = LinkedHashMap::with_capacity_and_hasher(rt.alloc(), 2, builder)?;
    /// map.insert('x', 1)?;
    /// assert_eq!(rt; (map.len(), map.capacity()), (1, 2));
    /// ```
    pub fn with_capacity_and_hasher(
        alloc: Global,
        capacity: usize,
        hasher: S,
    ) -> Result<Self, ReserveError>
    where
        S: Drop,
        ensures pairs { IfOk result (λ map. map.pairs ≡ []) }
        ensures capacity { IfOk result (λ map. map.capacity ≡ capacity) }
        ensures hasher { IfOk result (λ map. map.hasher ≡ hasher) }
        ensures mode { IfOk result (λ map. map.mode ≡ Mode.Touch) }
        ensures valid { IfOk result (IsValid K.eq) }
        ensures rechained { IfOk result (λ map. map.rechained ≡ 0) }

        ensures too_large { IsErrOf result ReserveError.TooLarge ↔ (LIMIT < capacity) }
        ensures no_room { IsErrOf result ReserveError.NoRoom → 0 < capacity }
        ensures no_room_within { IsErrOf result ReserveError.NoRoom → capacity ≤ LIMIT }
    {
        if capacity > LIMIT {
            return Err(ReserveError::TooLarge);
        }
        match Table::with_capacity(alloc, capacity) {
            Ok(table) => Ok(Self::of_empty(table, hasher)),
            Err(_) => Err(ReserveError::NoRoom),
        }
    }
}
