//! The iterators that begin at the pair of a key.
ghost use Rattle.std.specs.Prelude.{◌≡◌, is_some, reverse, IfSome};
ghost use Rattle.std.specs.Map.Iter.{deref_pair, ShowsInOrder};
ghost use Rattle.linked_hash_map.specs.Pairs.{find, from};
ghost use Rattle.linked_hash_map.specs.Validity.{IsValid};

use super::LinkedHashMap;
use super::get::locate;
use crate::iter::{IterBackFrom, IterFrom};
use equivalent::Equivalent;
use std::hash::{BuildHasher, Hash};

impl<K: Eq + Hash, V, S: BuildHasher> LinkedHashMap<K, V, S> {
    /// Returns an iterator over the pairs from that of a key to the back, its own first, in O(1),
    /// or `None` if the key is absent. Hashes the key once.
    ///
    /// # Examples
    ///
    /// ```rust
    /// let mut map = LinkedHashMap::new(rt.alloc());
    /// map.extend([('x', 1), ('y', 2), ('z', 3)])?;
    /// if let Some(mut pairs) = map.iter_from(&'y') {
    ///     assert_eq!(rt; pairs.next(), Some((&'y', &2)));
    ///     assert_eq!(rt; pairs.next(), Some((&'z', &3)));
    ///     assert_eq!(rt; pairs.next(), None);
    /// }
    /// assert!(rt; map.iter_from(&'w').is_none());
    /// ```
    pub fn iter_from<Q: Equivalent<K>>(&self, key: Q) -> Option<IterFrom<'_, K, V>>
        ensures present { is_some result ≡ is_some (find Q.equivalent self.now.pairs key) }
        ensures pairs { IfSome result (λ iter. iter ≡ from Q.equivalent self.now.pairs key) }
        ensures valid { IsValid K.eq self.now }
        // A law of iterators, for the proofs of callers.
        ensures runs { ShowsInOrder (deref_pair {K = K} {X = V}) }
    {
        let (_, found) = locate(&self.table, &self.hasher, key);
        Some(IterFrom::new(&self.table, found?))
    }

    /// Returns an iterator over the pairs from that of a key to the front, its own first, in O(1),
    /// or `None` if the key is absent. Hashes the key once.
    ///
    /// # Examples
    ///
    /// ```rust
    /// let mut map = LinkedHashMap::new(rt.alloc());
    /// map.extend([('x', 1), ('y', 2), ('z', 3)])?;
    /// if let Some(mut pairs) = map.iter_back_from(&'y') {
    ///     assert_eq!(rt; pairs.next(), Some((&'y', &2)));
    ///     assert_eq!(rt; pairs.next(), Some((&'x', &1)));
    ///     assert_eq!(rt; pairs.next(), None);
    /// }
    /// assert!(rt; map.iter_back_from(&'w').is_none());
    /// ```
    pub fn iter_back_from<Q: Equivalent<K>>(&self, key: Q) -> Option<IterBackFrom<'_, K, V>>
        ensures present { is_some result ≡ is_some (find Q.equivalent self.now.pairs key) }
        ensures pairs { IfSome result (λ iter.
            iter ≡ from Q.equivalent (reverse self.now.pairs) key) }
        ensures valid { IsValid K.eq self.now }
        // A law of iterators, for the proofs of callers.
        ensures runs { ShowsInOrder (deref_pair {K = K} {X = V}) }
    {
        let (_, found) = locate(&self.table, &self.hasher, key);
        Some(IterBackFrom::new(&self.table, found?))
    }
}
