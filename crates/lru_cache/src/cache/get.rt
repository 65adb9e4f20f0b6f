//! Lookups.
ghost use Rattle.std.specs.Prelude.{◌≡◌, length, is_some, option_copied, option_map, Some, IfNone, IfSome, OnSome, IsFalse};
ghost use Rattle.std.specs.Borrow.{sem};
ghost use Rattle.std.specs.Map.Iter.{deref_pair};
ghost use Rattle.std.specs.Option.{option_copied_mut};
ghost use Rattle.linked_hash_map.specs.Pairs.{first, last, find, value_at, set_value, to_back_as_is, to_back_by};
ghost use Rattle.linked_hash_map.specs.Updates.{UpdatesBy};
ghost use Rattle.lru_cache.specs.Cache.{Keeps, IsValidCache};

use super::LruCache;
use linked_hash_map::Equivalent;
use std::hash::{BuildHasher, Hash};

impl<K: Eq + Hash, V, S: BuildHasher> LruCache<K, V, S> {
    ghost use Rattle.lru_cache.specs.Lends.{lends_used, lends_value, shows_used};

    /// Returns `true` if a key is present, in O(1), and uses its pair, as the original does. Hashes
    /// the key once.
    ///
    /// # Examples
    ///
    /// ```rust
    /// let mut cache = LruCache::new(rt.alloc(), 2);
    /// cache.insert('x', 1)?;
    /// cache.insert('y', 2)?;
    /// assert!(rt; cache.contains_key(&'x'));
    /// assert_eq!(rt; cache.remove_lru(), Some(('y', 2)));
    /// ```
    #[inline(always)]
    pub fn contains_key<Q: Equivalent<K>>(&mut self, key: Q) -> bool
        ensures present { result ≡ is_some (find Q.equivalent self.old.pairs key) }
        ensures pairs { self.new.pairs ≡ to_back_as_is Q.equivalent self.old.pairs key }
        ensures keeps { Keeps self.old self.new }
        ensures unchanged { IsFalse result → self.new ≡ self.old }
        ensures valid { IsValidCache K.eq self.old }
        ensures stays_valid { IsValidCache K.eq self.new }
        // Each key finds what it found.
        ensures finds { (q : K) → find K.eq self.new.pairs q ≡ find K.eq self.old.pairs q }
    {
        self.map.move_to_back(key)
    }

    /// Returns the value of a key, if present, in O(1), and uses its pair. Hashes the key once.
    ///
    /// # Examples
    ///
    /// ```rust
    /// let mut cache = LruCache::new(rt.alloc(), 2);
    /// cache.insert('x', 1)?;
    /// cache.insert('y', 2)?;
    /// assert_eq!(rt; cache.get(&'x'), Some(&1));
    /// assert_eq!(rt; cache.remove_lru(), Some(('y', 2)));
    /// ```
    #[tactic(auto, using(crate::proofs::Used::used))]
    #[inline(always)]
    pub fn get<Q: Equivalent<K>>(&mut self, key: Q) -> Option<&V>
        ensures* uses { sem 𝓛
            (shows_used K.row V.row S.row S.Hasher.row K.Hash S.BuildHasher S.Hasher.Hasher
            self.entry Q.equivalent key) }
        ensures value { option_copied result ≡ value_at Q.equivalent self.old.pairs key }
        ensures valid { IsValidCache K.eq self.old }

        // Laws of the cache once the pair is used, for the proofs of callers.
        ensures absent { IfNone result
            (to_back_as_is Q.equivalent self.old.pairs key ≡ self.old.pairs) }
        ensures finds { (q : K)
            → find K.eq (to_back_as_is Q.equivalent self.old.pairs key) q
            ≡ find K.eq self.old.pairs q }
        ensures stays_valid { IsValidCache K.eq
            (record self.old { pairs = to_back_as_is Q.equivalent self.old.pairs key }) }
    {
        if !self.map.move_to_back(key) {
            return None;
        }
        match self.map.back() {
            Some((_key, value)) => Some(value),
            None => None,
        }
    }

    /// Returns a mutable reference to the value of a key, if present, in O(1), and uses its pair.
    /// Hashes the key once.
    ///
    /// # Examples
    ///
    /// ```rust
    /// let mut cache = LruCache::new(rt.alloc(), 2);
    /// cache.insert('x', 1)?;
    /// if let Some(value) = cache.get_mut(&'x') {
    ///     *value = 3;
    /// }
    /// assert_eq!(rt; cache.peek(&'x'), Some(&3));
    /// ```
    #[inline(always)]
    pub fn get_mut<Q: Equivalent<K>>(&mut self, key: Q) -> Option<&mut V>
        ensures* writes_back { sem 𝓛
            (lends_used K.row V.row S.row S.Hasher.row K.Hash S.BuildHasher S.Hasher.Hasher
            self.entry Q.equivalent Q.as_key key result) }
        ensures value { option_copied_mut result ≡ value_at Q.equivalent self.old.pairs key }
        ensures valid { IsValidCache K.eq self.old }

        // Laws of the cache once a value is written, for the proofs of callers.
        ensures updates { (v : V) → OnSome result
            (UpdatesBy K.eq self.old.pairs (to_back_by Q.equivalent Q.as_key self.old.pairs key v)
            (Q.equivalent key) (Some v)) }
        ensures last { (v : V) → OnSome result
            (last (to_back_by Q.equivalent Q.as_key self.old.pairs key v)
            ≡ option_map (λ pair. (pair.0, v)) (find Q.equivalent self.old.pairs key)) }
        ensures as_many { (v : V) → OnSome result
            (length (to_back_by Q.equivalent Q.as_key self.old.pairs key v)
            ≡ length self.old.pairs) }
        ensures stays_valid { (v : V) → OnSome result (IsValidCache K.eq (record self.old {
          pairs = to_back_by Q.equivalent Q.as_key self.old.pairs key v;
        })) }
    {
        match self.map.get_refresh(key) {
            Some(value) => Some(value),
            None => None,
        }
    }

    /// Returns the value of a key, if present, in O(1). It uses no pair. Hashes the key once.
    ///
    /// # Examples
    ///
    /// ```rust
    /// let mut cache = LruCache::new(rt.alloc(), 2);
    /// cache.insert('x', 1)?;
    /// cache.insert('y', 2)?;
    /// assert_eq!(rt; cache.peek(&'x'), Some(&1));
    /// assert_eq!(rt; cache.remove_lru(), Some(('x', 1)));
    /// ```
    #[inline(always)]
    pub fn peek<Q: Equivalent<K>>(&self, key: Q) -> Option<&V>
        ensures value { option_copied result ≡ value_at Q.equivalent self.now.pairs key }
    {
        self.map.get(key)
    }

    /// Returns a mutable reference to the value of a key, if present, in O(1). It uses no pair.
    /// Hashes the key once.
    ///
    /// # Examples
    ///
    /// ```rust
    /// let mut cache = LruCache::new(rt.alloc(), 2);
    /// cache.insert('x', 1)?;
    /// cache.insert('y', 2)?;
    /// if let Some(value) = cache.peek_mut(&'x') {
    ///     *value = 3;
    /// }
    /// assert_eq!(rt; cache.remove_lru(), Some(('x', 3)));
    /// ```
    #[inline(always)]
    pub fn peek_mut<Q: Equivalent<K>>(&mut self, key: Q) -> Option<&mut V>
        ensures* writes_back { sem 𝓛
            (lends_value K.row V.row S.row S.Hasher.row K.Hash S.BuildHasher S.Hasher.Hasher
            self.entry Q.equivalent key result) }
        ensures value { option_copied_mut result ≡ value_at Q.equivalent self.old.pairs key }
        ensures valid { IsValidCache K.eq self.old }

        // Laws of the cache once a value is written, for the proofs of callers.
        ensures updates { (v : V) → OnSome result
            (UpdatesBy K.eq self.old.pairs (set_value Q.equivalent self.old.pairs key v)
            (Q.equivalent key) (Some v)) }
        ensures stays_valid { (v : V) → IsValidCache K.eq
            (record self.old { pairs = set_value Q.equivalent self.old.pairs key v }) }
    {
        match self.map.get_mut(key) {
            Some(value) => Some(value),
            None => None,
        }
    }

    /// Returns the pair used least recently, if any, in O(1). It uses no pair. Hashes no key.
    ///
    /// # Examples
    ///
    /// ```rust
    /// let mut cache = LruCache::new(rt.alloc(), 2);
    /// cache.insert('x', 1)?;
    /// cache.insert('y', 2)?;
    /// assert_eq!(rt; cache.peek_lru(), Some((&'x', &1)));
    /// assert_eq!(rt; cache.remove_lru(), Some(('x', 1)));
    /// ```
    pub fn peek_lru(&self) -> Option<(&K, &V)>
        ensures pair { option_map deref_pair result ≡ first self.now.pairs }
        // A law of lists, for the proofs of callers.
        ensures found { IfSome result (λ pair.
            find K.eq self.now.pairs pair.0.now ≡ Some (deref_pair pair)) }
    {
        self.map.front()
    }

    /// Returns the pair used last, if any, in O(1). It uses no pair. Hashes no key.
    ///
    /// # Examples
    ///
    /// ```rust
    /// let mut cache = LruCache::new(rt.alloc(), 2);
    /// cache.insert('x', 1)?;
    /// cache.insert('y', 2)?;
    /// cache.get(&'x');
    /// assert_eq!(rt; cache.peek_mru(), Some((&'x', &1)));
    /// ```
    pub fn peek_mru(&self) -> Option<(&K, &V)>
        ensures pair { option_map deref_pair result ≡ last self.now.pairs }
        // A law of lists, for the proofs of callers.
        ensures found { IfSome result (λ pair.
            find K.eq self.now.pairs pair.0.now ≡ Some (deref_pair pair)) }
    {
        self.map.back()
    }
}
