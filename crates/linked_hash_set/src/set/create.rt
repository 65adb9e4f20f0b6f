//! The constructors.

ghost use Rattle.std.specs.Prelude.{◌≡◌, ◌<◌, ◌≤◌, [], IsErrOf, ◌↔◌, IfOk};
ghost use Rattle.linked_hash_map.specs.Hashers.{IsDefaultHashBuilder};
ghost use Rattle.linked_hash_set.specs.Validity.{IsValid};

use super::LinkedHashSet;
use linked_hash_map::{LIMIT, LinkedHashMap, ReserveError};
use std::alloc::Global;
use std::hash::{BuildHasher, Hash};

impl<T: Eq + Hash> LinkedHashSet<T> {
    /// Creates an empty set of capacity 0 with the default hasher, in O(1) without allocating.
    ///
    /// # Examples
    ///
    /// ```rust
    /// let set: LinkedHashSet<char> = LinkedHashSet::new(rt.alloc());
    /// assert_eq!(rt; (set.len(), set.capacity()), (0, 0));
    /// ```
    pub fn new(alloc: Global) -> Self
        ensures items { result.items ≡ [] }
        ensures capacity { result.capacity ≡ 0 }
        ensures hasher { IsDefaultHashBuilder result.hasher }
        ensures valid { IsValid T.eq result }
    {
        LinkedHashSet {
            map: LinkedHashMap::new(alloc),
        }
    }

    /// Creates an empty set of exactly this capacity with the default hasher, in O(capacity).
    ///
    /// Returns `TooLarge` exactly if it is above [`LIMIT`], and `NoRoom` if an allocation fails.
    /// Capacity 0 does not allocate.
    ///
    /// # Examples
    ///
    /// ```rust
    /// let set: LinkedHashSet<char> = LinkedHashSet::with_capacity(rt.alloc(), 5)?;
    /// assert_eq!(rt; (set.len(), set.capacity()), (0, 5));
    /// ```
    pub fn with_capacity(alloc: Global, capacity: usize) -> Result<Self, ReserveError>
        ensures items { IfOk result (λ set. set.items ≡ []) }
        ensures capacity { IfOk result (λ set. set.capacity ≡ capacity) }
        ensures hasher { IfOk result (λ set. IsDefaultHashBuilder set.hasher) }
        ensures valid { IfOk result (IsValid T.eq) }

        ensures too_large { IsErrOf result ReserveError.TooLarge ↔ (LIMIT < capacity) }
        ensures no_room { IsErrOf result ReserveError.NoRoom → 0 < capacity }
        ensures no_room_within { IsErrOf result ReserveError.NoRoom → capacity ≤ LIMIT }
    {
        let map = LinkedHashMap::with_capacity(alloc, capacity)?;
        Ok(LinkedHashSet { map })
    }
}

impl<T: Eq + Hash, S: BuildHasher> LinkedHashSet<T, S> {
    /// Creates an empty set of capacity 0 with a build hasher, in O(1) without allocating.
    ///
    /// # Examples
    ///
    /// ```rust
    /// use std::hash::RandomState;
    ///
    /// let builder = RandomState::new(&rt)?;
    /// let mut set = LinkedHashSet::with_hasher(rt.alloc(), builder);
    /// set.insert('x')?;
    /// assert!(rt; set.contains(&'x'));
    /// ```
    pub fn with_hasher(alloc: Global, hasher: S) -> Self
        ensures items { result.items ≡ [] }
        ensures capacity { result.capacity ≡ 0 }
        ensures hasher { result.hasher ≡ hasher }
        ensures valid { IsValid T.eq result }
    {
        LinkedHashSet {
            map: LinkedHashMap::with_hasher(alloc, hasher),
        }
    }

    /// Creates an empty set of exactly this capacity with a build hasher, as `with_capacity` does.
    /// An error drops the hasher.
    ///
    /// # Examples
    ///
    /// ```rust
    /// use linked_hash_set::{DefaultHashBuilder, LinkedHashSet};
    ///
    /// let builder = DefaultHashBuilder::new();
    /// let mut set = LinkedHashSet::with_capacity_and_hasher(rt.alloc(), 2, builder)?;
    /// set.insert('x')?;
    /// assert_eq!(rt; (set.len(), set.capacity()), (1, 2));
    /// ```
    pub fn with_capacity_and_hasher(
        alloc: Global,
        capacity: usize,
        hasher: S,
    ) -> Result<Self, ReserveError>
    where
        S: Drop,
        ensures items { IfOk result (λ set. set.items ≡ []) }
        ensures capacity { IfOk result (λ set. set.capacity ≡ capacity) }
        ensures hasher { IfOk result (λ set. set.hasher ≡ hasher) }
        ensures valid { IfOk result (IsValid T.eq) }

        ensures too_large { IsErrOf result ReserveError.TooLarge ↔ (LIMIT < capacity) }
        ensures no_room { IsErrOf result ReserveError.NoRoom → 0 < capacity }
        ensures no_room_within { IsErrOf result ReserveError.NoRoom → capacity ≤ LIMIT }
    {
        let map = LinkedHashMap::with_capacity_and_hasher(alloc, capacity, hasher)?;
        Ok(LinkedHashSet { map })
    }
}
