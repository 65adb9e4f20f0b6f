//! The iterators.
ghost use Rattle.std.specs.Prelude.{◌≡◌};
ghost use Rattle.std.specs.Map.{keys_of, values_of};
ghost use Rattle.std.specs.Map.Iter.{deref, deref_pair, GivesInOrder, GivesInReverse, ShowsInOrder, ShowsInReverse, LendsValuesInOrder, LendsValuesInReverse};
ghost use Rattle.std.specs.Borrow.{sem};
ghost use Rattle.linked_hash_map.specs.Pairs.{KeysStand};
ghost use Rattle.linked_hash_map.specs.Validity.{IsValid};

use super::LinkedHashMap;
use crate::iter::{IntoKeys, IntoValues, Iter, IterMut, Keys, Values, ValuesMut};
use std::hash::{BuildHasher, Hash};

impl<K: Eq + Hash, V, S: BuildHasher> LinkedHashMap<K, V, S> {
    ghost use Rattle.linked_hash_map.specs.Lends.{lends_values};
    ghost use Rattle.linked_hash_map.specs.ValueIterators.{pairs_left, loan_name};
    ghost use Rattle.linked_hash_map.specs.MutableValues.{values_left, values_loan, LendsFirstValue, LendsLastValue};
    ghost use Rattle.std.specs.Iterator.Runs.{YieldsMutRefsInOrder, YieldsMutRefsInReverse};

    /// Returns a double-ended iterator over the pairs, front to back, in O(1).
    ///
    /// # Examples
    ///
    /// ```rust
    /// let mut map = LinkedHashMap::new(rt.alloc());
    /// map.extend([('x', 1), ('y', 2)])?;
    /// let mut pairs = map.iter();
    /// assert_eq!(rt; pairs.next(), Some((&'x', &1)));
    /// let mut rest = pairs.clone()?;
    /// assert_eq!(rt; rest.next_back(), Some((&'y', &2)));
    /// assert_eq!(rt; (pairs.len(), rest.len()), (1, 0));
    /// ```
    pub fn iter(&self) -> Iter<'_, K, V>
        ensures pairs { result ≡ self.now.pairs }
        ensures valid { IsValid K.eq self.now }
        // Laws of iterators, for the proofs of callers.
        ensures runs { ShowsInOrder (deref_pair {K = K} {X = V}) }
        ensures runs_back { ShowsInReverse (deref_pair {K = K} {X = V}) }
    {
        Iter::new(&self.table)
    }

    /// Returns a double-ended iterator over the pairs, front to back, with mutable references to
    /// the values, in O(1).
    ///
    /// # Examples
    ///
    /// ```rust
    /// let mut map = LinkedHashMap::new(rt.alloc());
    /// map.insert('x', 1)?;
    /// let mut pairs = map.iter_mut();
    /// if let Some((_key, value)) = pairs.next() {
    ///     *value = 3;
    /// }
    /// assert_eq!(rt; map.get(&'x'), Some(&3));
    /// ```
    pub fn iter_mut(&mut self) -> IterMut<'_, K, V>
        ensures* writes_back { sem 𝓛
            (lends_values K.row V.row S.row S.Hasher.row K.Hash S.BuildHasher S.Hasher.Hasher
            self.entry (loan_name result)) }
        // A law of lists, for the proofs of callers.
        ensures keeps { KeysStand self.old.pairs }
        ensures rest { pairs_left result ≡ self.old.pairs }
        ensures valid { IsValid K.eq self.old }
        // Laws of iterators, for the proofs of callers.
        ensures runs { LendsValuesInOrder (pairs_left {K = K} {V = V}) }
        ensures runs_back { LendsValuesInReverse (pairs_left {K = K} {V = V}) }
    {
        IterMut::over(&mut self.table)
    }

    /// Returns a double-ended iterator over the keys, front to back, in O(1).
    ///
    /// # Examples
    ///
    /// ```rust
    /// let mut map = LinkedHashMap::new(rt.alloc());
    /// map.extend([('x', 1), ('y', 2)])?;
    /// let mut keys = map.keys();
    /// assert_eq!(rt; keys.next(), Some(&'x'));
    /// assert_eq!(rt; keys.next(), Some(&'y'));
    /// assert_eq!(rt; keys.next(), None);
    /// ```
    pub fn keys(&self) -> Keys<'_, K, V>
        ensures keys { result ≡ keys_of self.now.pairs }
        ensures valid { IsValid K.eq self.now }
        // Laws of iterators, for the proofs of callers.
        ensures runs { ShowsInOrder (deref {X = K}) }
        ensures runs_back { ShowsInReverse (deref {X = K}) }
    {
        Keys::new(self.iter())
    }

    /// Returns a double-ended iterator over the values, front to back, in O(1).
    ///
    /// # Examples
    ///
    /// ```rust
    /// let mut map = LinkedHashMap::new(rt.alloc());
    /// map.extend([('x', 1), ('y', 2)])?;
    /// let mut values = map.values();
    /// assert_eq!(rt; values.next_back(), Some(&2));
    /// assert_eq!(rt; values.next_back(), Some(&1));
    /// assert_eq!(rt; values.next_back(), None);
    /// ```
    pub fn values(&self) -> Values<'_, K, V>
        ensures values { result ≡ values_of self.now.pairs }
        ensures valid { IsValid K.eq self.now }
        // Laws of iterators, for the proofs of callers.
        ensures runs { ShowsInOrder (deref {X = V}) }
        ensures runs_back { ShowsInReverse (deref {X = V}) }
    {
        Values::new(self.iter())
    }

    /// Returns a double-ended iterator over mutable references to the values, front to back, in
    /// O(1).
    ///
    /// # Examples
    ///
    /// ```rust
    /// let mut map = LinkedHashMap::new(rt.alloc());
    /// map.extend([('x', 1), ('y', 2)])?;
    /// let mut values = map.values_mut();
    /// if let Some(value) = values.next_back() {
    ///     *value = 3;
    /// }
    /// assert_eq!(rt; values.len(), 1);
    /// assert_eq!(rt; map.get(&'y'), Some(&3));
    /// ```
    pub fn values_mut(&mut self) -> ValuesMut<'_, K, V>
        ensures* writes_back { sem 𝓛
            (lends_values K.row V.row S.row S.Hasher.row K.Hash S.BuildHasher S.Hasher.Hasher
            self.entry (values_loan result)) }
        // A law of lists, for the proofs of callers.
        ensures keeps { KeysStand self.old.pairs }
        ensures rest { values_left result ≡ values_of self.old.pairs }
        ensures valid { IsValid K.eq self.old }
        // Laws of iterators, for the proofs of callers.
        ensures runs { YieldsMutRefsInOrder (LendsFirstValue {K = K} {V = V}) values_left }
        ensures runs_back { YieldsMutRefsInReverse (LendsLastValue {K = K} {V = V}) values_left }
    {
        ValuesMut::over(&mut self.table)
    }

    /// Takes the map apart and returns a double-ended iterator that owns its pairs and yields the
    /// keys, front to back, in O(capacity). Drops the hasher and frees the buckets.
    ///
    /// # Examples
    ///
    /// ```rust
    /// let mut map = LinkedHashMap::new(rt.alloc());
    /// map.extend([('x', 1), ('y', 2)])?;
    /// let mut keys = map.into_keys();
    /// assert_eq!(rt; keys.next(), Some('x'));
    /// assert_eq!(rt; keys.next(), Some('y'));
    /// assert_eq!(rt; keys.next(), None);
    /// ```
    pub fn into_keys(self) -> IntoKeys<K, V>
    where
        S: Drop,
        ensures keys { result ≡ keys_of self.pairs }
        ensures valid { IsValid K.eq self }
        // Laws of iterators, for the proofs of callers.
        ensures runs { GivesInOrder K }
        ensures runs_back { GivesInReverse K }
    {
        IntoKeys::new(self.into_pairs())
    }

    /// Takes the map apart and returns a double-ended iterator that owns its pairs and yields the
    /// values, front to back, in O(capacity). Drops the hasher and frees the buckets.
    ///
    /// # Examples
    ///
    /// ```rust
    /// let mut map = LinkedHashMap::new(rt.alloc());
    /// map.extend([('x', 1), ('y', 2)])?;
    /// let mut values = map.into_values();
    /// assert_eq!(rt; values.next_back(), Some(2));
    /// assert_eq!(rt; values.next_back(), Some(1));
    /// assert_eq!(rt; values.next_back(), None);
    /// ```
    pub fn into_values(self) -> IntoValues<K, V>
    where
        S: Drop,
        ensures values { result ≡ values_of self.pairs }
        ensures valid { IsValid K.eq self }
        // Laws of iterators, for the proofs of callers.
        ensures runs { GivesInOrder V }
        ensures runs_back { GivesInReverse V }
    {
        IntoValues::new(self.into_pairs())
    }
}
