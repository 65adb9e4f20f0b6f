//! Clones of maps.
ghost use Rattle.std.specs.Prelude.{◌≡◌, []};
ghost use Rattle.linked_hash_map.specs.Clones.{IsClone};

use crate::map::LinkedHashMap;
use std::alloc::AllocError;
use std::hash::{BuildHasher, Hash};

/// Clones the hasher and the pairs, in order, in O(n). The mode stays, and the capacity is the
/// number of pairs. Hashes each cloned key once; if two are equal, the later replaces the earlier.
///
/// Returns an error if an allocation or a clone fails. Without pairs it allocates nothing, and only
/// the clone of the hasher can fail.
///
/// # Examples
///
/// ```rust
/// let mut map = LinkedHashMap::with_capacity(rt.alloc(), 5)?;
/// map.insert('x', 1)?;
/// let clone = map.clone()?;
/// assert!(rt; clone == map);
/// assert_eq!(rt; clone.capacity(), 1);
/// ```
impl<K: Eq + Hash + Clone, V: Clone, S: BuildHasher + Clone> Clone for LinkedHashMap<K, V, S> {
    ghost is_clone = { IsClone K.eq K.is_clone V.is_clone S.is_clone };

    ghost is_infallible = { λ m. (m.pairs ≡ []) × S.is_infallible m.hasher };

    fn clone(&self) -> Result<LinkedHashMap<K, V, S>, AllocError> {
        let hasher = self.hasher().clone()?;
        let Ok(mut map) = LinkedHashMap::with_capacity_and_hasher(
            self.allocator(),
            self.len(),
            hasher,
        ) else {
            return Err(AllocError);
        };
        for (key, value) in self.iter() {
            let key = key.clone()?;
            let Ok(old) = map.insert(key, value.clone()?) else {
                return Err(AllocError);
            };
            drop(old);
        }
        map.set_mode(self.mode());
        Ok(map)
    }
}
