//! A cache of a fixed size, which gives up the pair that was used least recently.
ghost use Rattle.std.specs.Prelude.{◌≡◌, ◌==◌, ◌&&◌, ◌<◌, ◌≤◌, [], ◌∷◌, ◌++◌, Some, None, IsNone, not, length, is_some, IfOk, IfSome, IsSome, IsErrOf, ◌↔◌};
ghost use Rattle.std.specs.Borrow.{sem};
ghost use Rattle.std.specs.Option.{option_copied_mut};
ghost use Rattle.std.specs.Map.{keys_of};
ghost use Rattle.linked_hash_map.specs.Pairs.{find, value_at, put, first, without_first, KeysStand};
ghost use Rattle.linked_hash_map.specs.ValueIterators.{pairs_left, loan_name};

use linked_hash_map::{IterMut, LIMIT, LinkedHashMap, Mode, ReserveError};
use std::alloc::Global;
use std::hash::Hash;

/// A cache of a fixed size. Its pairs stand in the order of their last use, the one used least
/// recently first.
#[derive(Drop)]
pub struct Cache<K: Eq + Hash, V> {
    map: LinkedHashMap<K, V>,
}

impl<K: Eq + Hash, V> Cache<K, V> {
    ghost use Rattle.uses.specs.Lending.{lends_recent, lends_values};

    /// Makes an empty cache for `size` pairs. All memory that it will ever have is taken here.
    pub fn new(alloc: Global, size: usize) -> Result<Self, ReserveError>
        ensures empty { IfOk result (λ cache. cache.map.pairs ≡ []) }
        ensures size { IfOk result (λ cache. cache.map.capacity ≡ size) }
        ensures mode { IfOk result (λ cache. cache.map.mode ≡ Mode.Touch) }
        ensures too_large { IsErrOf result ReserveError.TooLarge ↔ (LIMIT < size) }
    {
        let map = LinkedHashMap::with_capacity(alloc, size)?;
        Ok(Cache { map })
    }

    /// Returns the number of pairs.
    pub fn len(&self) -> usize
        ensures len { result ≡ length self.now.map.pairs }
        ensures within { result ≤ self.now.map.capacity }
    {
        self.map.len()
    }

    /// Puts a pair in as the one used last. It never fails. If the key is new and the cache is
    /// full, the pair used least recently leaves, and is returned.
    pub fn put(&mut self, key: K, value: V) -> Option<(K, V)>
    where
        K: Drop,
        V: Drop,
        requires room { 0 < self.old.map.capacity }
        ensures stored { value_at K.eq self.new.map.pairs key ≡ Some value }
        ensures size { self.new.map.capacity ≡ self.old.map.capacity }

        ensures evicts { is_some result
            ≡ not (is_some (find K.eq self.old.map.pairs key))
            && (length self.old.map.pairs == self.old.map.capacity) }
        ensures evicted { IsSome result → result ≡ first self.old.map.pairs }
        ensures others { IsSome result
            → self.new.map.pairs ≡ without_first self.old.map.pairs ++ (key, value) ∷ [] }
        ensures all { IsNone result
            → self.new.map.pairs ≡ put K.eq self.old.map.mode self.old.map.pairs key value }
        ensures mode { self.new.map.mode ≡ self.old.map.mode }
    {
        let evicted = self.make_place(&key);
        match self.map.insert(key, value) {
            Ok(_old) => evicted,
            Err(_refused) => unreachable!(),
        }
    }

    /// Takes out the pair used least recently and returns it, if the cache is full and does not
    /// have the key.
    fn make_place(&mut self, key: &K) -> Option<(K, V)>
        requires room { 0 < self.old.map.capacity }
        ensures evicts { is_some result
            ≡ not (is_some (find K.eq self.old.map.pairs key.now))
            && (length self.old.map.pairs == self.old.map.capacity) }
        ensures evicted { IsSome result → result ≡ first self.old.map.pairs }
        ensures others { IsSome result → self.new.map.pairs ≡ without_first self.old.map.pairs }
        ensures all { IsNone result → self.new.map.pairs ≡ self.old.map.pairs }
        ensures absent { IsSome result → value_at K.eq self.new.map.pairs key.now ≡ None }
        ensures room { find K.eq self.new.map.pairs key.now ≡ None
            → length self.new.map.pairs < self.new.map.capacity }
        ensures size { self.new.map.capacity ≡ self.old.map.capacity }
        ensures mode { self.new.map.mode ≡ self.old.map.mode }
    {
        if self.map.len() < self.map.capacity() || self.map.contains_key(key) {
            return None;
        }
        self.map.pop_front()
    }

    /// Gives the pair used least recently another value and makes it the one used last. Returns the
    /// pair as it was, or `None` if the cache is empty.
    #[tactic(auto, using(linked_hash_map::proofs::Callers::Rules::absent_keys))]
    pub fn renew_oldest(&mut self, value: V) -> Option<(K, V)>
    where
        K: Copy,
        V: Drop,
        ensures oldest { result ≡ first self.old.map.pairs }
        ensures turned { IfSome result (λ pair. self.new.map.pairs
            ≡ without_first self.old.map.pairs ++ (pair.0, value) ∷ []) }
        ensures size { self.new.map.capacity ≡ self.old.map.capacity }
    {
        let pair = self.map.pop_front()?;
        let _none = self.put(pair.0, value);
        Some(pair)
    }

    /// Lends the value of a key for writing, and makes it the one used last, or returns `None`
    /// if the key is absent, and changes nothing.
    pub fn get_mut(&mut self, key: &K) -> Option<&mut V>
        ensures* writes_back { sem 𝓛 (lends_recent K.row V.row K.Hash self.entry key.now result) }
        ensures value { option_copied_mut result ≡ value_at K.eq self.old.map.pairs key.now }
    {
        self.map.get_refresh(key)
    }

    /// Lends all values for writing, that of the pair used least recently first. The keys stand,
    /// each in its place.
    pub fn iter_mut(&mut self) -> IterMut<'_, K, V>
        ensures* writes_back { sem 𝓛
            (lends_values K.row V.row K.Hash self.entry (loan_name result)) }
        // A law of lists, for the proofs of callers.
        ensures keeps { KeysStand self.old.map.pairs }
        ensures rest { pairs_left result ≡ self.old.map.pairs }
    {
        self.map.iter_mut()
    }
}

/// Sets every value to zero: a loop over the values that the cache lends.
pub fn reset<K: Eq + Hash>(counts: &mut Cache<K, u64>)
    ensures keys { keys_of counts.new.map.pairs ≡ keys_of counts.old.map.pairs }
    ensures size { counts.new.map.capacity ≡ counts.old.map.capacity }
    ensures mode { counts.new.map.mode ≡ counts.old.map.mode }
{
    for (_key, count) in counts.iter_mut() {
        *count = 0;
    }
}
