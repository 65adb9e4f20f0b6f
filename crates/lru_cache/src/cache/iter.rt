//! The iterators: all go from the pair used least recently on, and use no pair.
ghost use Rattle.std.specs.Prelude.{◌≡◌};
ghost use Rattle.std.specs.Map.Iter.{deref_pair, ShowsInOrder, ShowsInReverse, LendsValuesInOrder, LendsValuesInReverse};
ghost use Rattle.std.specs.Borrow.{sem};
ghost use Rattle.linked_hash_map.specs.Pairs.{KeysStand};
ghost use Rattle.linked_hash_map.specs.ValueIterators.{pairs_left, loan_name};
ghost use Rattle.lru_cache.specs.Cache.{IsValidCache};

use super::LruCache;
use linked_hash_map::{IntoIter, Iter, IterMut};
use std::hash::{BuildHasher, Hash};

impl<K: Eq + Hash, V, S: BuildHasher> LruCache<K, V, S> {
    ghost use Rattle.lru_cache.specs.Lends.{lends_values};

    /// Returns a double-ended iterator over the pairs, the one used least recently first, in O(1).
    /// It uses no pair.
    ///
    /// # Examples
    ///
    /// ```rust
    /// let mut cache = LruCache::new(rt.alloc(), 2);
    /// cache.insert('x', 1)?;
    /// cache.insert('y', 2)?;
    /// let mut pairs = cache.iter();
    /// assert_eq!(rt; pairs.next(), Some((&'x', &1)));
    /// assert_eq!(rt; pairs.next(), Some((&'y', &2)));
    /// assert_eq!(rt; pairs.next(), None);
    /// ```
    pub fn iter(&self) -> Iter<'_, K, V>
        ensures pairs { result ≡ self.now.pairs }
        ensures valid { IsValidCache K.eq self.now }
        // Laws of iterators, for the proofs of callers.
        ensures runs { ShowsInOrder (deref_pair {K = K} {X = V}) }
        ensures runs_back { ShowsInReverse (deref_pair {K = K} {X = V}) }
    {
        self.map.iter()
    }

    /// Returns a double-ended iterator over the pairs, the one used least recently first, with
    /// mutable references to the values, in O(1). It uses no pair.
    ///
    /// # Examples
    ///
    /// ```rust
    /// let mut cache = LruCache::new(rt.alloc(), 2);
    /// cache.insert('x', 1)?;
    /// let mut pairs = cache.iter_mut();
    /// if let Some((_key, value)) = pairs.next() {
    ///     *value = 3;
    /// }
    /// assert_eq!(rt; cache.peek(&'x'), Some(&3));
    /// ```
    pub fn iter_mut(&mut self) -> IterMut<'_, K, V>
        ensures* writes_back { sem 𝓛
            (lends_values K.row V.row S.row S.Hasher.row K.Hash S.BuildHasher S.Hasher.Hasher
            self.entry (loan_name result)) }
        // A law of lists, for the proofs of callers.
        ensures keeps { KeysStand self.old.pairs }
        ensures rest { pairs_left result ≡ self.old.pairs }
        ensures valid { IsValidCache K.eq self.old }
        // Laws of iterators, for the proofs of callers.
        ensures runs { LendsValuesInOrder (pairs_left {K = K} {V = V}) }
        ensures runs_back { LendsValuesInReverse (pairs_left {K = K} {V = V}) }
    {
        self.map.iter_mut()
    }
}

/// A loop over a cache: it takes the cache apart, the pair used least recently first, drops the
/// hasher and frees the memory.
///
/// # Examples
///
/// ```rust
/// let mut cache = LruCache::new(rt.alloc(), 2);
/// cache.extend([('x', 1), ('y', 2), ('z', 3)])?;
/// let mut last = None;
/// for pair in cache {
///     last = Some(pair);
/// }
/// assert_eq!(rt; last, Some(('z', 3)));
/// ```
impl<K: Eq + Hash + Drop, V: Drop, S: BuildHasher + Drop> IntoIterator for LruCache<K, V, S> {
    ghost use Rattle.std.specs.Map.Iter.{GivesInOrder, GivesInReverse};
    ghost use Rattle.lru_cache.specs.Cache.{IsValidCache};

    type Item = (K, V);

    type IntoIter = IntoIter<K, V>;

    // Its last two parts are laws of iterators, for the proofs of callers.
    ghost into_iter_gives = { λ cache iter.
        (iter ≡ cache.pairs) × IsValidCache K.eq cache × GivesInOrder (K × V)
        × GivesInReverse (K × V) };

    fn into_iter(self) -> IntoIter<K, V> {
        let LruCache { map, limit: _ } = self;
        map.into_iter()
    }
}

/// A loop over `&cache`, as over `iter`.
///
/// # Examples
///
/// ```rust
/// let mut cache = LruCache::new(rt.alloc(), 2);
/// cache.extend([('x', 1), ('y', 2), ('z', 3)])?;
/// let mut last = None;
/// for (key, value) in &cache {
///     last = Some((*key, *value));
/// }
/// assert_eq!(rt; last, Some(('z', 3)));
/// ```
impl<'a, K: Eq + Hash, V, S: BuildHasher> IntoIterator for &'a LruCache<K, V, S> {
    ghost use Rattle.std.specs.Map.Iter.{deref_pair, ShowsInOrder, ShowsInReverse};
    ghost use Rattle.lru_cache.specs.Cache.{IsValidCache};

    type Item = (&'a K, &'a V);

    type IntoIter = Iter<'a, K, V>;

    // Its last two parts are laws of iterators, for the proofs of callers.
    ghost into_iter_gives = { λ cache iter.
        (iter ≡ cache.now.pairs) × IsValidCache K.eq cache.now
        × ShowsInOrder (deref_pair {K = K} {X = V})
        × ShowsInReverse (deref_pair {K = K} {X = V}) };

    fn into_iter(self) -> Iter<'a, K, V> {
        self.iter()
    }
}

/// A loop over `&mut cache`, as over `iter_mut`.
///
/// # Examples
///
/// ```rust
/// let mut cache = LruCache::new(rt.alloc(), 2);
/// cache.insert('x', 1)?;
/// for (_key, value) in &mut cache {
///     *value = 3;
/// }
/// assert_eq!(rt; cache.peek(&'x'), Some(&3));
/// ```
impl<'a, K: Eq + Hash, V, S: BuildHasher> IntoIterator for &'a mut LruCache<K, V, S> {
    ghost use Rattle.std.specs.Borrow.{sem};
    ghost use Rattle.std.specs.Map.Iter.{LendsValuesInOrder, LendsValuesInReverse};
    ghost use Rattle.linked_hash_map.specs.Pairs.{KeysStand};
    ghost use Rattle.linked_hash_map.specs.ValueIterators.{pairs_left, loan_name};
    ghost use Rattle.lru_cache.specs.Cache.{IsValidCache};
    ghost use Rattle.lru_cache.specs.Lends.{lends_values};

    type Item = (&'a K, &'a mut V);

    type IntoIter = IterMut<'a, K, V>;

    // Its last two parts are laws of iterators, for the proofs of callers.
    ghost into_iter_gives = { λ cache iter.
        (pairs_left iter ≡ cache.now.pairs) × IsValidCache K.eq cache.now
        × LendsValuesInOrder (pairs_left {K = K} {V = V})
        × LendsValuesInReverse (pairs_left {K = K} {V = V}) };

    fn into_iter(self) -> IterMut<'a, K, V>
        ensures* writes_back { sem 𝓛
            (lends_values K.row V.row S.row S.Hasher.row K.Hash S.BuildHasher S.Hasher.Hasher
            self.entry (loan_name result)) }
        // A law of lists, for the proofs of callers.
        ensures keeps { KeysStand self.old.pairs }
        ensures into_iter_gives { (pairs_left result ≡ self.old.pairs) × IsValidCache K.eq self.old
            × LendsValuesInOrder (pairs_left {K = K} {V = V})
            × LendsValuesInReverse (pairs_left {K = K} {V = V}) }
    {
        self.iter_mut()
    }
}
