//! Clones of sets.
ghost use Rattle.std.specs.Prelude.{◌≡◌, []};
ghost use Rattle.linked_hash_set.specs.Clones.{IsClone};

use super::LinkedHashSet;
use std::alloc::AllocError;
use std::hash::{BuildHasher, Hash};

/// Clones the hasher and the items, in order, in O(n). The capacity is the number of items. Hashes
/// each cloned item once; if two are equal, the later replaces the earlier.
///
/// Returns an error if an allocation or a clone fails. Without items it allocates nothing, and only
/// the clone of the hasher can fail.
///
/// # Examples
///
/// ```rust
/// let mut set = LinkedHashSet::with_capacity(rt.alloc(), 5)?;
/// set.insert('x')?;
/// let clone = set.clone()?;
/// assert!(rt; clone == set);
/// assert_eq!(rt; clone.capacity(), 1);
/// ```
impl<T: Eq + Hash + Clone, S: BuildHasher + Clone> Clone for LinkedHashSet<T, S> {
    ghost is_clone = { IsClone T.eq T.is_clone S.is_clone };

    ghost is_infallible = { λ s. (s.items ≡ []) × S.is_infallible s.hasher };

    fn clone(&self) -> Result<LinkedHashSet<T, S>, AllocError> {
        Ok(LinkedHashSet {
            map: self.map.clone()?,
        })
    }
}
