//! Clones of caches.
ghost use Rattle.std.specs.Prelude.{◌≡◌, []};
ghost use Rattle.lru_cache.specs.Clones.{IsClone};

use super::LruCache;
use std::alloc::AllocError;
use std::hash::{BuildHasher, Hash};

/// Clones the hasher and the pairs, in order, in O(n). The limit stays, and there is room for the
/// pairs. Hashes each cloned key once; if two are equal, the later replaces the earlier.
///
/// Returns an error if an allocation or a clone fails. Without pairs it allocates nothing, and only
/// the clone of the hasher can fail.
///
/// # Examples
///
/// ```rust
/// let mut cache = LruCache::new(rt.alloc(), 2);
/// cache.insert('x', 1)?;
/// let clone = cache.clone()?;
/// assert_eq!(rt; (clone.peek(&'x'), clone.capacity()), (Some(&1), 2));
/// ```
impl<K: Eq + Hash + Clone, V: Clone, S: BuildHasher + Clone> Clone for LruCache<K, V, S> {
    ghost is_clone = { IsClone K.eq K.is_clone V.is_clone S.is_clone };

    ghost is_infallible = { λ c. (c.pairs ≡ []) × S.is_infallible c.hasher };

    fn clone(&self) -> Result<LruCache<K, V, S>, AllocError> {
        Ok(LruCache {
            map: self.map.clone()?,
            limit: self.limit,
        })
    }
}
