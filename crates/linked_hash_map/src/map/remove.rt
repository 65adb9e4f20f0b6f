//! Removal.
ghost use Rattle.std.specs.Prelude.{◌≡◌, ◌+◌, ◌≤◌, [], length, min, take, None, IfNone, IfSome, OnSome};
ghost use Rattle.std.specs.Borrow.{sem};
ghost use Rattle.std.specs.Map.{keys_of};
ghost use Rattle.std.specs.Map.Calls.{CallableOnEachPair, CalledAtPair, TakesPair, RetainsPairs};
ghost use Rattle.linked_hash_map.specs.Pairs.{find, value_at, without, first, last, without_first, without_last};
ghost use Rattle.linked_hash_map.specs.Cursor.{to_visit};
ghost use Rattle.linked_hash_map.specs.Changes.{Keeps, drained};
ghost use Rattle.linked_hash_map.specs.Retains.{IsSublist};
ghost use Rattle.linked_hash_map.specs.Updates.{Updates, UpdatesBy};
ghost use Rattle.linked_hash_map.specs.Validity.{IsValid};

use super::LinkedHashMap;
use crate::drain::Drain;
use equivalent::Equivalent;
use std::hash::{BuildHasher, Hash};

impl<K: Eq + Hash, V, S: BuildHasher> LinkedHashMap<K, V, S> {
    ghost use Rattle.linked_hash_map.specs.Drains.{drain_rest, drain_name, DrainSteps, DrainStepsBack, DrainKeepsAlong};
    ghost use Rattle.std.specs.Iterator.Runs.{YieldsInOrder, YieldsInReverse};
    ghost use Rattle.linked_hash_map.specs.Lends.{lends_drained};

    /// Removes the pair of a key, drops the stored key and returns the value, if present, in O(1).
    /// The others keep their order. Hashes the key once.
    ///
    /// # Examples
    ///
    /// ```rust
    /// let mut map = LinkedHashMap::new(rt.alloc());
    /// map.extend([('x', 1), ('y', 2)])?;
    /// assert_eq!(rt; map.remove(&'x'), Some(1));
    /// assert_eq!(rt; map.remove(&'x'), None);
    /// assert_eq!(rt; (map.len(), map.capacity()), (1, 2));
    /// ```
    #[inline]
    pub fn remove<Q: Equivalent<K>>(&mut self, key: Q) -> Option<V>
    where
        K: Drop,
        ensures value { result ≡ value_at Q.equivalent self.old.pairs key }
        ensures pairs { self.new.pairs ≡ without Q.equivalent self.old.pairs key }
        ensures keeps { Keeps self.old self.new }
        ensures ends_visit { OnSome result (to_visit self.new ≡ []) }
        ensures to_visit { IfNone result (to_visit self.new ≡ to_visit self.old) }
        ensures valid { IsValid K.eq self.old }
        ensures stays_valid { IsValid K.eq self.new }
        // The key is gone, the others keep their values, and a present one is one pair fewer.
        ensures updates { UpdatesBy K.eq self.old.pairs self.new.pairs (Q.equivalent key) None }
        ensures fewer { OnSome result (length self.new.pairs + 1 ≡ length self.old.pairs) }
        ensures same { IfNone result (self.new.pairs ≡ self.old.pairs) }
    {
        let (_stored, value) = self.remove_entry(key)?;
        Some(value)
    }

    /// Removes and returns the pair of a key, if present, in O(1). The others keep their order.
    /// Hashes the key once.
    ///
    /// # Examples
    ///
    /// ```rust
    /// let mut map = LinkedHashMap::new(rt.alloc());
    /// map.extend([('x', 1), ('y', 2)])?;
    /// assert_eq!(rt; map.remove_entry(&'x'), Some(('x', 1)));
    /// assert_eq!(rt; map.remove_entry(&'x'), None);
    /// assert_eq!(rt; (map.len(), map.capacity()), (1, 2));
    /// ```
    #[inline]
    pub fn remove_entry<Q: Equivalent<K>>(&mut self, key: Q) -> Option<(K, V)>
        ensures pair { result ≡ find Q.equivalent self.old.pairs key }
        ensures pairs { self.new.pairs ≡ without Q.equivalent self.old.pairs key }
        ensures keeps { Keeps self.old self.new }
        ensures ends_visit { OnSome result (to_visit self.new ≡ []) }
        ensures to_visit { IfNone result (to_visit self.new ≡ to_visit self.old) }
        ensures valid { IsValid K.eq self.old }
        ensures stays_valid { IsValid K.eq self.new }
        // The key is gone, the others keep their values, and a present one is one pair fewer.
        ensures updates { UpdatesBy K.eq self.old.pairs self.new.pairs (Q.equivalent key) None }
        ensures fewer { OnSome result (length self.new.pairs + 1 ≡ length self.old.pairs) }
        ensures same { IfNone result (self.new.pairs ≡ self.old.pairs) }
    {
        let hash = self.hasher.hash_one(key);
        let pair = self.table.remove(hash, key)?;
        self.state.active = false;
        Some(pair)
    }

    /// Removes and returns the front pair, if any, in O(1). Hashes no key.
    ///
    /// # Examples
    ///
    /// ```rust
    /// let mut map = LinkedHashMap::new(rt.alloc());
    /// map.extend([('x', 1), ('y', 2)])?;
    /// assert_eq!(rt; map.pop_front(), Some(('x', 1)));
    /// assert_eq!(rt; map.front(), Some((&'y', &2)));
    /// ```
    pub fn pop_front(&mut self) -> Option<(K, V)>
        ensures pair { result ≡ first self.old.pairs }
        ensures pairs { self.new.pairs ≡ without_first self.old.pairs }
        ensures keeps { Keeps self.old self.new }
        ensures ends_visit { to_visit self.new ≡ [] }
        ensures unchanged { IfNone result (self.new ≡ self.old) }
        ensures valid { IsValid K.eq self.old }
        ensures stays_valid { IsValid K.eq self.new }
        // The key of the pair is gone, and the others keep their values.
        ensures updates { IfSome result (λ pair.
            Updates K.eq self.old.pairs self.new.pairs pair.0 None) }
        ensures gone { IfSome result (λ pair. find K.eq self.new.pairs pair.0 ≡ None) }
    {
        let front = self.table.first()?;
        self.state.active = false;
        Some(self.table.remove_at(front))
    }

    /// Removes and returns the back pair, if any, in O(1). Hashes no key.
    ///
    /// # Examples
    ///
    /// ```rust
    /// let mut map = LinkedHashMap::new(rt.alloc());
    /// map.extend([('x', 1), ('y', 2)])?;
    /// assert_eq!(rt; map.pop_back(), Some(('y', 2)));
    /// assert_eq!(rt; map.back(), Some((&'x', &1)));
    /// ```
    pub fn pop_back(&mut self) -> Option<(K, V)>
        ensures pair { result ≡ last self.old.pairs }
        ensures pairs { self.new.pairs ≡ without_last self.old.pairs }
        ensures keeps { Keeps self.old self.new }
        ensures ends_visit { to_visit self.new ≡ [] }
        ensures unchanged { IfNone result (self.new ≡ self.old) }
        ensures valid { IsValid K.eq self.old }
        ensures stays_valid { IsValid K.eq self.new }
        // The key of the pair is gone, and the others keep their values.
        ensures updates { IfSome result (λ pair.
            Updates K.eq self.old.pairs self.new.pairs pair.0 None) }
        ensures gone { IfSome result (λ pair. find K.eq self.new.pairs pair.0 ≡ None) }
    {
        let back = self.table.last()?;
        self.state.active = false;
        Some(self.table.remove_at(back))
    }

    /// Drops the pairs behind the first `len`, if there are any, in O(1) each. The first ones keep
    /// their order, and the capacity stays. It allocates nothing, hashes no key, and ends a visit,
    /// even if it drops nothing.
    ///
    /// # Examples
    ///
    /// ```rust
    /// let mut map = LinkedHashMap::new(rt.alloc());
    /// map.extend([('x', 1), ('y', 2), ('z', 3)])?;
    /// map.truncate(2);
    /// assert_eq!(rt; (map.len(), map.capacity()), (2, 3));
    /// assert_eq!(rt; map.back(), Some((&'y', &2)));
    /// ```
    pub fn truncate(&mut self, len: usize)
    where
        K: Drop,
        V: Drop,
        ensures pairs { self.new.pairs ≡ take len self.old.pairs }
        ensures keeps { Keeps self.old self.new }
        ensures ends_visit { to_visit self.new ≡ [] }
        ensures valid { IsValid K.eq self.old }
        ensures stays_valid { IsValid K.eq self.new }
        // How many pairs are left.
        ensures len { length self.new.pairs ≡ min len (length self.old.pairs) }
    {
        self.state.active = false; // also if no pair goes
        while self.len() > len {
            let _last = self.pop_back();
        }
    }

    /// Keeps the pairs for which a closure returns `true`, in order, and drops the others, in O(n).
    /// Hashes no key.
    ///
    /// The closure is called once with each pair, front to back, and may change the value. Whatever
    /// it does, the keys that stay are some of the old ones, in order, and all else of the map
    /// stays, except that a visit ends.
    ///
    /// # Examples
    ///
    /// ```rust
    /// let mut map = LinkedHashMap::new(rt.alloc());
    /// map.extend([('x', 1), ('y', 2), ('z', 3)])?;
    /// map.retain(|key, value| {
    ///     *value = 7;
    ///     *key != 'y'
    /// });
    /// assert_eq!(rt; (map.len(), map.get(&'y')), (2, None));
    /// assert_eq!(rt; map.front(), Some((&'x', &7)));
    /// assert_eq!(rt; map.back(), Some((&'z', &7)));
    /// ```
    pub fn retain<F: FnMut(&K, &mut V) -> bool>(&mut self, keep: F)
    where
        K: Drop,
        V: Drop,
        requires { CallableOnEachPair (CalledAtPair F.FnMut) (TakesPair F.FnMut) keep
            self.old.pairs }
        ensures pairs { RetainsPairs (CalledAtPair F.FnMut) keep self.old.pairs self.new.pairs }
        ensures keys { IsSublist (keys_of self.new.pairs) (keys_of self.old.pairs) }
        ensures len { length self.new.pairs ≤ length self.old.pairs }
        ensures keeps { Keeps self.old self.new }
        ensures ends_visit { to_visit self.new ≡ [] }
        ensures valid { IsValid K.eq self.old }
        ensures stays_valid { IsValid K.eq self.new }
    {
        self.state.active = false;
        self.table.retain(keep);
    }

    /// Drops all pairs, in O(capacity), or O(1) if the map is empty. The capacity stays.
    ///
    /// # Examples
    ///
    /// ```rust
    /// let mut map = LinkedHashMap::new(rt.alloc());
    /// map.insert('x', 1)?;
    /// map.clear();
    /// assert_eq!(rt; (map.len(), map.capacity()), (0, 1));
    /// ```
    pub fn clear(&mut self)
    where
        K: Drop,
        V: Drop,
        ensures pairs { self.new.pairs ≡ [] }
        ensures keeps { Keeps self.old self.new }
        ensures ends_visit { to_visit self.new ≡ [] }
        ensures valid { IsValid K.eq self.old }
        ensures stays_valid { IsValid K.eq self.new }
    {
        self.state.active = false;
        drop(self.table.drain());
    }

    /// Removes all pairs and returns them as a double-ended iterator, front to back, in
    /// O(capacity), or O(1) if the map is empty. The map is empty at once and keeps its capacity;
    /// forgetting the iterator leaks the pairs left.
    ///
    /// # Examples
    ///
    /// ```rust
    /// let mut map = LinkedHashMap::new(rt.alloc());
    /// map.extend([('x', 1), ('y', 2)])?;
    /// let mut pairs = map.drain();
    /// assert_eq!(rt; pairs.next(), Some(('x', 1)));
    /// assert_eq!(rt; pairs.len(), 1);
    /// drop(pairs);
    /// assert_eq!(rt; (map.len(), map.capacity()), (0, 2));
    /// ```
    pub fn drain(&mut self) -> Drain<'_, K, V>
        ensures* writes_back { sem 𝓛
            (lends_drained K.row V.row S.row S.Hasher.row K.Hash S.BuildHasher S.Hasher.Hasher
            self.entry (drain_name result)) }
        ensures rest { drain_rest result ≡ self.old.pairs }
        ensures valid { IsValid K.eq self.old }
        ensures stays_valid { IsValid K.eq (drained self.old) }
        // Laws of iterators, for the proofs of callers.
        ensures runs { YieldsInOrder (DrainSteps {K = K} {V = V}) drain_rest }
        ensures runs_back { YieldsInReverse (DrainStepsBack {K = K} {V = V}) drain_rest }
        ensures stays { DrainKeepsAlong DrainSteps result }
        ensures stays_back { DrainKeepsAlong DrainStepsBack result }
    {
        self.state.active = false;
        Drain::new(self.table.drain())
    }
}
