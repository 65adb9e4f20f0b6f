//! Removal, and the limit.
ghost use Rattle.std.specs.Prelude.{◌≡◌, ◌≤◌, [], length, None, IfNone, IfSome};
ghost use Rattle.std.specs.Borrow.{sem};
ghost use Rattle.std.specs.Map.{keys_of};
ghost use Rattle.std.specs.Map.Calls.{CallableOnEachPair, CalledAtPair, TakesPair, RetainsPairs};
ghost use Rattle.linked_hash_map.specs.Pairs.{find, value_at, without, first, without_first};
ghost use Rattle.linked_hash_map.specs.Retains.{IsSublist};
ghost use Rattle.linked_hash_map.specs.Updates.{Updates, UpdatesBy};
ghost use Rattle.lru_cache.specs.Cache.{newest, Keeps, SameOrNone, IsValidCache};

use super::LruCache;
use linked_hash_map::{Drain, Equivalent};
use std::hash::{BuildHasher, Hash};

impl<K: Eq + Hash, V, S: BuildHasher> LruCache<K, V, S> {
    ghost use Rattle.linked_hash_map.specs.Drains.{drain_rest, drain_name, DrainSteps, DrainStepsBack, DrainKeepsAlong};
    ghost use Rattle.std.specs.Iterator.Runs.{YieldsInOrder, YieldsInReverse};
    ghost use Rattle.lru_cache.specs.Lends.{lends_drained};

    /// Removes the pair of a key and returns its value, if present, in O(1). Hashes the key once.
    ///
    /// # Examples
    ///
    /// ```rust
    /// let mut cache = LruCache::new(rt.alloc(), 2);
    /// cache.insert('x', 1)?;
    /// assert_eq!(rt; cache.remove(&'x'), Some(1));
    /// assert_eq!(rt; cache.remove(&'x'), None);
    /// ```
    pub fn remove<Q: Equivalent<K>>(&mut self, key: Q) -> Option<V>
    where
        K: Drop,
        ensures value { result ≡ value_at Q.equivalent self.old.pairs key }
        ensures pairs { self.new.pairs ≡ without Q.equivalent self.old.pairs key }
        ensures keeps { Keeps self.old self.new }
        ensures valid { IsValidCache K.eq self.old }
        ensures stays_valid { IsValidCache K.eq self.new }
        // The key is gone, and the others keep their values.
        ensures updates { UpdatesBy K.eq self.old.pairs self.new.pairs (Q.equivalent key) None }
    {
        self.map.remove(key)
    }

    /// Removes and returns the pair of a key, if present, in O(1). The others keep their order.
    /// Hashes the key once.
    ///
    /// # Examples
    ///
    /// ```rust
    /// let mut cache = LruCache::new(rt.alloc(), 2);
    /// cache.insert('x', 1)?;
    /// assert_eq!(rt; cache.remove_entry(&'x'), Some(('x', 1)));
    /// assert_eq!(rt; cache.remove_entry(&'x'), None);
    /// assert_eq!(rt; (cache.len(), cache.room()), (0, 1));
    /// ```
    pub fn remove_entry<Q: Equivalent<K>>(&mut self, key: Q) -> Option<(K, V)>
        ensures pair { result ≡ find Q.equivalent self.old.pairs key }
        ensures pairs { self.new.pairs ≡ without Q.equivalent self.old.pairs key }
        ensures keeps { Keeps self.old self.new }
        ensures valid { IsValidCache K.eq self.old }
        ensures stays_valid { IsValidCache K.eq self.new }
        // The key is gone, and the others keep their values.
        ensures updates { UpdatesBy K.eq self.old.pairs self.new.pairs (Q.equivalent key) None }
    {
        self.map.remove_entry(key)
    }

    /// Removes the pair used least recently and returns it, if any, in O(1). Hashes no key.
    ///
    /// # Examples
    ///
    /// ```rust
    /// let mut cache = LruCache::new(rt.alloc(), 2);
    /// cache.insert('x', 1)?;
    /// cache.insert('y', 2)?;
    /// assert_eq!(rt; cache.remove_lru(), Some(('x', 1)));
    /// assert_eq!(rt; cache.len(), 1);
    /// ```
    pub fn remove_lru(&mut self) -> Option<(K, V)>
        ensures pair { result ≡ first self.old.pairs }
        ensures pairs { self.new.pairs ≡ without_first self.old.pairs }
        ensures keeps { Keeps self.old self.new }
        ensures unchanged { IfNone result (self.new ≡ self.old) }
        ensures valid { IsValidCache K.eq self.old }
        ensures stays_valid { IsValidCache K.eq self.new }
        // The key of the pair is gone, and the others keep their values.
        ensures updates { IfSome result (λ pair.
            Updates K.eq self.old.pairs self.new.pairs pair.0 None) }
        ensures finds { (q : K) → SameOrNone K.eq self.old.pairs self.new.pairs q }
    {
        self.map.pop_front()
    }

    /// Sets the largest number of pairs. If there are more, those used least recently are dropped,
    /// in O(1) each. It frees no memory. Hashes no key.
    ///
    /// # Examples
    ///
    /// ```rust
    /// let mut cache = LruCache::new(rt.alloc(), 3);
    /// cache.extend([('x', 1), ('y', 2), ('z', 3)])?;
    /// cache.set_capacity(1);
    /// assert_eq!(rt; (cache.len(), cache.peek(&'z')), (1, Some(&3)));
    /// ```
    #[tactic(auto, using(crate::proofs::Newest::newest_first, crate::proofs::Insertions::removals))]
    pub fn set_capacity(&mut self, capacity: usize)
    where
        K: Drop,
        V: Drop,
        ensures pairs { self.new.pairs ≡ newest capacity self.old.pairs }
        ensures limit { self.new.limit ≡ capacity }
        ensures room { self.new.room ≡ self.old.room }
        ensures hasher { self.new.hasher ≡ self.old.hasher }
        ensures valid { IsValidCache K.eq self.old }
        ensures stays_valid { IsValidCache K.eq self.new }
        // Each key finds what it found, or nothing.
        ensures finds { (q : K) → SameOrNone K.eq self.old.pairs self.new.pairs q }
    {
        #[tactic(auto, using(crate::proofs::Newest::newest_first))]
        while self.map.len() > capacity {
            let _first = self.map.pop_front();
        }
        self.limit = capacity;
    }

    /// Drops all pairs, in O(n) and the room, or O(1) if there is none. The room stays.
    ///
    /// # Examples
    ///
    /// ```rust
    /// let mut cache = LruCache::new(rt.alloc(), 2);
    /// cache.insert('x', 1)?;
    /// cache.clear();
    /// assert_eq!(rt; (cache.len(), cache.capacity()), (0, 2));
    /// ```
    pub fn clear(&mut self)
    where
        K: Drop,
        V: Drop,
        ensures pairs { self.new.pairs ≡ [] }
        ensures keeps { Keeps self.old self.new }
        ensures valid { IsValidCache K.eq self.old }
        ensures stays_valid { IsValidCache K.eq self.new }
    {
        self.map.clear();
    }

    /// Removes all pairs and returns them as a double-ended iterator, the one used least recently
    /// first. The cache is empty at once; forgetting the iterator leaks the pairs left. It is
    /// linear in the room, or O(1) if there is no pair.
    ///
    /// # Examples
    ///
    /// ```rust
    /// let mut cache = LruCache::new(rt.alloc(), 2);
    /// cache.insert('x', 1)?;
    /// cache.insert('y', 2)?;
    /// let mut pairs = cache.drain();
    /// assert_eq!(rt; pairs.next(), Some(('x', 1)));
    /// drop(pairs);
    /// assert!(rt; cache.is_empty());
    /// ```
    pub fn drain(&mut self) -> Drain<'_, K, V>
        ensures* writes_back { sem 𝓛
            (lends_drained K.row V.row S.row S.Hasher.row K.Hash S.BuildHasher S.Hasher.Hasher
            self.entry (drain_name result)) }
        ensures rest { drain_rest result ≡ self.old.pairs }
        ensures valid { IsValidCache K.eq self.old }
        ensures stays_valid { IsValidCache K.eq (record self.old { pairs = [] }) }
        // Laws of iterators, for the proofs of callers.
        ensures runs { YieldsInOrder (DrainSteps {K = K} {V = V}) drain_rest }
        ensures runs_back { YieldsInReverse (DrainStepsBack {K = K} {V = V}) drain_rest }
        ensures stays { DrainKeepsAlong DrainSteps result }
        ensures stays_back { DrainKeepsAlong DrainStepsBack result }
    {
        self.map.drain()
    }

    /// Keeps the pairs for which a closure returns `true`, in order, and drops the others, in O(n).
    /// It uses no pair, and hashes no key.
    ///
    /// The closure is called once with each pair, the one used least recently first, and may change
    /// the value. Whatever it does, the keys that stay are some of the old ones, in order.
    ///
    /// # Examples
    ///
    /// ```rust
    /// let mut cache = LruCache::new(rt.alloc(), 2);
    /// cache.insert('x', 1)?;
    /// cache.insert('y', 2)?;
    /// cache.retain(|_key, value| *value > 1);
    /// assert_eq!(rt; (cache.len(), cache.peek(&'y')), (1, Some(&2)));
    /// ```
    #[tactic(auto, using(crate::proofs::Retained::retained))]
    pub fn retain<F: FnMut(&K, &mut V) -> bool>(&mut self, keep: F)
    where
        K: Drop,
        V: Drop,
        requires { CallableOnEachPair (CalledAtPair F.FnMut) (TakesPair F.FnMut) keep
            self.old.pairs }
        ensures pairs { RetainsPairs (CalledAtPair F.FnMut) keep self.old.pairs self.new.pairs }
        ensures keys { IsSublist (keys_of self.new.pairs) (keys_of self.old.pairs) }
        ensures len { length self.new.pairs ≤ length self.old.pairs }
        ensures keeps { Keeps self.old self.new }
        ensures valid { IsValidCache K.eq self.old }
        ensures stays_valid { IsValidCache K.eq self.new }
        // No key comes.
        ensures absent { (q : K) → find K.eq self.old.pairs q ≡ None
            → find K.eq self.new.pairs q ≡ None }
    {
        self.map.retain(keep);
    }
}
