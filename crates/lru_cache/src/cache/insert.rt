//! Insertion, and room for it.
ghost use Rattle.std.specs.Prelude.{◌≡◌, ◌<◌, ◌≤◌, ◌+◌, ◌⊎◌, ◌↔◌, false, length, max, Some, None, IsSome, IfOk, IfErr, OnOk, OnErr, IsErrOf};
ghost use Rattle.std.specs.Iterator.{IsFiniteIterable};
ghost use Rattle.linked_hash_map.specs.Pairs.{last, key_or, find, value_at};
ghost use Rattle.linked_hash_map.specs.Updates.{Updates};
ghost use Rattle.lru_cache.specs.Cache.{inserted, replaced_or_first, gone, SameOrNone, IsRoomAfter, IsValidCache};
ghost use Rattle.lru_cache.specs.Extension.{InsertsAll, InsertsUntil};

use super::LruCache;
use linked_hash_map::{LIMIT, Refused, ReserveError};
use std::hash::{BuildHasher, Hash};
use std::mem;

impl<K: Eq + Hash, V, S: BuildHasher> LruCache<K, V, S> {
    /// Inserts a pair as the one used last, and returns the old value of its key, or `None` if the
    /// key is new. For a present key the stored key stays, and `key` is dropped. If there are then
    /// more pairs than `capacity`, the one used least recently is dropped: at the capacity 0 it is
    /// the given one.
    ///
    /// Only a new key at a cache that is not full can be refused: it and its value are handed back.
    /// It is O(1), or up to O(n) if memory is asked for. Hashes the key once, or twice if the cache
    /// is full and the memory that it asks for is refused.
    ///
    /// # Examples
    ///
    /// ```rust
    /// let mut cache = LruCache::new(rt.alloc(), 2);
    /// assert_eq!(rt; cache.insert('x', 1)?, None);
    /// assert_eq!(rt; cache.insert('y', 2)?, None);
    /// assert_eq!(rt; cache.insert('x', 3)?, Some(1));
    /// assert_eq!(rt; cache.insert('z', 4)?, None);
    /// assert_eq!(rt; cache.peek(&'y'), None);
    /// ```
    #[tactic(auto, using(crate::proofs::Insertions::insertions))]
    pub fn insert(&mut self, key: K, value: V) -> Result<Option<V>, Refused<K, V>>
    where
        K: Drop,
        V: Drop,
        // On success the key has the value, and its old value is returned.
        ensures old { IfOk result (λ old. old ≡ value_at K.eq self.old.pairs key) }
        ensures pairs { OnOk result
            (self.new.pairs ≡ inserted K.eq self.old.limit self.old.pairs key value) }
        ensures limit { self.new.limit ≡ self.old.limit }
        ensures hasher { self.new.hasher ≡ self.old.hasher }
        ensures room { OnOk result (IsRoomAfter K.eq self.old key self.new.room) }
        ensures valid { IsValidCache K.eq self.old }
        ensures stays_valid { IsValidCache K.eq self.new }
        // Room for one pair more than the limit is room enough.
        ensures room_least { self.old.room ≤ self.new.room }
        ensures room_most { self.new.room ≤ max self.old.room (self.old.limit + 1) }
        ensures room_enough { self.old.limit < self.old.room → self.new.room ≡ self.old.room }
        // Where the pair stands, and what the other keys find.
        ensures here { OnOk result
            (0 < self.old.limit → value_at K.eq self.new.pairs key ≡ Some value) }
        ensures not_here { OnOk result
            (self.old.limit ≡ 0 → value_at K.eq self.new.pairs key ≡ None) }
        ensures last { OnOk result (0 < self.old.limit → last self.new.pairs
            ≡ Some (key_or key (find K.eq self.old.pairs key), value)) }
        ensures others { OnOk result ((q : K) → K.eq key q ≡ false
            → SameOrNone K.eq self.old.pairs self.new.pairs q) }
        // No pair goes if the key is present or the cache is not full.
        ensures updates { OnOk result (IsSome (find K.eq self.old.pairs key)
            ⊎ (length self.old.pairs < self.old.limit)
            → Updates K.eq self.old.pairs self.new.pairs key (Some value)) }

        // On failure the pair comes back and nothing changes: its key is new, below the limit.
        ensures key_back { IfErr result (λ refused. refused.key ≡ key) }
        ensures value_back { IfErr result (λ refused. refused.value ≡ value) }
        ensures unchanged { OnErr result (self.new ≡ self.old) }
        ensures absent { OnErr result (find K.eq self.old.pairs key ≡ None) }
        ensures not_full { OnErr result (length self.old.pairs < self.old.limit) }
        ensures no_room { OnErr result (length self.old.pairs ≡ self.old.room) }
    {
        match self.insert_or_replace(key, value) {
            Ok((old, _first)) => Ok(old),
            Err(refused) => Err(refused),
        }
    }

    /// Inserts a pair as [`insert`](LruCache::insert) does, and returns the pair that goes, or
    /// `None` if none does: of a present key the given key with the old value, and of a new one the
    /// pair used least recently, if the cache is full. At the capacity 0 the given pair comes back.
    ///
    /// It is refused if `insert` is. It is O(1), or up to O(n) if memory is asked for. Hashes a
    /// present key once and a new key twice, or three times if the cache is full and the memory
    /// that it asks for is refused.
    ///
    /// # Examples
    ///
    /// ```rust
    /// let mut cache = LruCache::new(rt.alloc(), 2);
    /// assert_eq!(rt; cache.put('x', 1)?, None);
    /// assert_eq!(rt; cache.put('y', 2)?, None);
    /// assert_eq!(rt; cache.put('x', 3)?, Some(('x', 1)));
    /// assert_eq!(rt; cache.put('z', 4)?, Some(('y', 2)));
    /// ```
    #[tactic(auto, using(crate::proofs::Insertions::insertions, crate::proofs::Rooms::rooms))]
    pub fn put(&mut self, key: K, value: V) -> Result<Option<(K, V)>, Refused<K, V>>
    where
        K: Drop,
        V: Drop,
        // On success the key has the value, and the pair comes back that it replaces or that goes.
        ensures gone { IfOk result (λ pair.
            pair ≡ gone K.eq self.old.limit self.old.pairs key value) }
        ensures pairs { OnOk result
            (self.new.pairs ≡ inserted K.eq self.old.limit self.old.pairs key value) }
        ensures limit { self.new.limit ≡ self.old.limit }
        ensures hasher { self.new.hasher ≡ self.old.hasher }
        ensures room { OnOk result (IsRoomAfter K.eq self.old key self.new.room) }
        ensures valid { IsValidCache K.eq self.old }
        ensures stays_valid { IsValidCache K.eq self.new }
        // Room for one pair more than the limit is room enough.
        ensures room_least { self.old.room ≤ self.new.room }
        ensures room_most { self.new.room ≤ max self.old.room (self.old.limit + 1) }
        ensures room_enough { self.old.limit < self.old.room → self.new.room ≡ self.old.room }
        // Where the pair stands, and what the other keys find.
        ensures here { OnOk result
            (0 < self.old.limit → value_at K.eq self.new.pairs key ≡ Some value) }
        ensures not_here { OnOk result
            (self.old.limit ≡ 0 → value_at K.eq self.new.pairs key ≡ None) }
        ensures last { OnOk result (0 < self.old.limit → last self.new.pairs
            ≡ Some (key_or key (find K.eq self.old.pairs key), value)) }
        ensures others { OnOk result ((q : K) → K.eq key q ≡ false
            → SameOrNone K.eq self.old.pairs self.new.pairs q) }
        // No pair goes if the key is present or the cache is not full.
        ensures updates { OnOk result (IsSome (find K.eq self.old.pairs key)
            ⊎ (length self.old.pairs < self.old.limit)
            → Updates K.eq self.old.pairs self.new.pairs key (Some value)) }

        // On failure the pair comes back and nothing changes: its key is new, below the limit.
        ensures key_back { IfErr result (λ refused. refused.key ≡ key) }
        ensures value_back { IfErr result (λ refused. refused.value ≡ value) }
        ensures unchanged { OnErr result (self.new ≡ self.old) }
        ensures absent { OnErr result (find K.eq self.old.pairs key ≡ None) }
        ensures not_full { OnErr result (length self.old.pairs < self.old.limit) }
        ensures no_room { OnErr result (length self.old.pairs ≡ self.old.room) }
    {
        if let Some(present) = self.map.get_refresh(&key) {
            return Ok(Some((key, mem::replace(present, value))));
        }
        match self.insert_or_replace(key, value) {
            Ok((_none, first)) => Ok(first),
            Err(refused) => Err(refused),
        }
    }

    /// Inserts a pair as `insert` does, and returns the old value of its key and the pair that goes
    /// for a new one.
    #[tactic(auto, using(crate::proofs::Rooms::rooms))]
    fn insert_or_replace(
        &mut self,
        key: K,
        value: V,
    ) -> Result<(Option<V>, Option<(K, V)>), Refused<K, V>>
    where
        K: Drop,
        V: Drop,
        ensures old { IfOk result (λ gone. gone.0 ≡ value_at K.eq self.old.pairs key) }
        ensures first { IfOk result (λ gone. gone.0 ≡ None
            → gone.1 ≡ replaced_or_first self.old.limit self.old.pairs key value None) }
        ensures pairs { OnOk result
            (self.new.pairs ≡ inserted K.eq self.old.limit self.old.pairs key value) }
        ensures limit { self.new.limit ≡ self.old.limit }
        ensures hasher { self.new.hasher ≡ self.old.hasher }
        ensures room { OnOk result (IsRoomAfter K.eq self.old key self.new.room) }
        ensures valid { IsValidCache K.eq self.old }
        ensures stays_valid { IsValidCache K.eq self.new }
        ensures room_least { self.old.room ≤ self.new.room }
        ensures room_most { self.new.room ≤ max self.old.room (self.old.limit + 1) }
        ensures room_enough { self.old.limit < self.old.room → self.new.room ≡ self.old.room }

        ensures key_back { IfErr result (λ refused. refused.key ≡ key) }
        ensures value_back { IfErr result (λ refused. refused.value ≡ value) }
        ensures unchanged { OnErr result (self.new ≡ self.old) }
        ensures absent { OnErr result (find K.eq self.old.pairs key ≡ None) }
        ensures not_full { OnErr result (length self.old.pairs < self.old.limit) }
        ensures no_room { OnErr result (length self.old.pairs ≡ self.old.room) }
    {
        let refused = match self.map.insert(key, value) {
            Ok(old) => {
                if self.map.len() <= self.limit {
                    return Ok((old, None));
                }
                return Ok((old, self.map.pop_front()));
            }
            Err(refused) => refused,
        };
        if self.map.len() < self.limit {
            return Err(refused);
        }
        // The cache is full, so the pair used least recently makes room.
        let Some(first) = self.map.pop_front() else {
            return Ok((None, Some((refused.key, refused.value))));
        };
        let _none = self.map.insert_within_capacity(refused.key, refused.value);
        Ok((None, Some(first)))
    }

    /// Inserts the items one by one, each as [`insert`](LruCache::insert) does.
    ///
    /// The first refused is the error: the pairs before it stay inserted, and no later item is
    /// taken.
    ///
    /// # Examples
    ///
    /// ```rust
    /// let mut cache = LruCache::new(rt.alloc(), 2);
    /// cache.extend([('x', 1), ('y', 2), ('z', 3)])?;
    /// assert_eq!(rt; cache.len(), 2);
    /// assert_eq!(rt; (cache.peek(&'x'), cache.peek(&'z')), (None, Some(&3)));
    /// ```
    #[tactic(auto, using(crate::proofs::Newest::insertions, crate::proofs::Rooms::more_rooms))]
    pub fn extend<I: IntoIterator<Item = (K, V)>>(&mut self, items: I) -> Result<(), Refused<K, V>>
    where
        K: Drop,
        V: Drop,
        I::IntoIter: Drop,
        requires ends { IsFiniteIterable I.into_iter_gives I.IntoIter.can_next
            I.IntoIter.remaining items }
        ensures all { OnOk result
            (InsertsAll I.into_iter_gives I.IntoIter.next_gives items K.eq self.old self.new) }
        ensures limit { self.new.limit ≡ self.old.limit }
        ensures hasher { self.new.hasher ≡ self.old.hasher }
        ensures room { self.old.room ≤ self.new.room }
        ensures room_most { self.new.room ≤ max self.old.room (self.old.limit + 1) }
        ensures room_enough { self.old.limit < self.old.room → self.new.room ≡ self.old.room }
        ensures stays_valid { IsValidCache K.eq self.new }

        ensures stopped { IfErr result (λ refused.
            InsertsUntil I.into_iter_gives I.IntoIter.next_gives items K.eq self.old self.new
            refused.key refused.value) }
        ensures absent { IfErr result (λ refused. find K.eq self.new.pairs refused.key ≡ None) }
        ensures not_full { OnErr result (length self.new.pairs < self.new.limit) }
        ensures no_room { OnErr result (length self.new.pairs ≡ self.new.room) }
    {
        // Shows that the cache is valid.
        let _is_empty = self.is_empty();
        for (key, value) in items {
            match self.insert(key, value) {
                Ok(_old) => {}
                Err(refused) => return Err(refused),
            }
        }
        Ok(())
    }

    /// Makes room for `additional` more pairs than there are. With room for one pair more than
    /// `capacity`, no insertion is refused or asks for memory, until `set_capacity` raises it.
    ///
    /// Returns `TooLarge` exactly if the sum is above the `LIMIT` of `linked_hash_map` or
    /// overflows, and `NoRoom` if an allocation fails. It is linear in the room that it makes, or
    /// O(1) if there is room.
    ///
    /// # Examples
    ///
    /// ```rust
    /// let mut cache = LruCache::new(rt.alloc(), 2);
    /// cache.reserve(3)?;
    /// for key in ['x', 'y', 'z'] {
    ///     assert_eq!(rt; cache.insert(key, 1), Ok(None)); // asks for no memory
    /// }
    /// ```
    pub fn reserve(&mut self, additional: usize) -> Result<(), ReserveError>
        ensures pairs { self.new.pairs ≡ self.old.pairs }
        ensures limit { self.new.limit ≡ self.old.limit }
        ensures hasher { self.new.hasher ≡ self.old.hasher }
        ensures room { OnOk result
            (self.new.room ≡ max self.old.room (length self.old.pairs + additional)) }

        ensures unchanged { OnErr result (self.new ≡ self.old) }
        ensures stays_valid { IsValidCache K.eq self.new }
        ensures too_large { IsErrOf result ReserveError.TooLarge ↔
            (LIMIT < length self.old.pairs + additional) }
        ensures no_room { IsErrOf result ReserveError.NoRoom →
            self.old.room < length self.old.pairs + additional }
    {
        self.map.reserve(additional)
    }
}
