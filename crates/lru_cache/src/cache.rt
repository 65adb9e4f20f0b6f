//! The cache: its type, length and limit.
ghost use Rattle.std.specs.Prelude.{◌≡◌, ◌==◌, [], length};
ghost use Rattle.linked_hash_map.specs.Hashers.{IsDefaultHashBuilder};
ghost use Rattle.lru_cache.specs.Cache.{IsValidCache};

mod clone;
mod debug;
mod get;
mod insert;
mod iter;
mod remove;

use linked_hash_map::{DefaultHashBuilder, LinkedHashMap};
use std::alloc::Global;
use std::hash::{BuildHasher, Hash};
use std::marker::Model;

/// A cache of at most `capacity` pairs, in the order of their last use.
///
/// An insertion and a lookup use their pair, except by the calls whose names begin with `peek`. If a
/// new pair is one too many, the one used least recently goes.
///
/// For all calls, with n the number of pairs:
///
/// - Only calls that return a `Result` allocate. An error changes nothing, except that `extend`
///   keeps what it inserted before. Nothing panics.
/// - A full cache refuses no pair. It asks for no memory once it has room for one pair more than
///   its capacity: since the first pair that went for another, if memory was given then, or by
///   `reserve`.
/// - Costs are averages: if all keys hash alike, each lookup and each removal of a pair is O(n).
///
/// # Examples
///
/// ```rust
/// use lru_cache::LruCache;
///
/// let mut cache = LruCache::new(rt.alloc(), 2);
/// assert_eq!(rt; cache.insert('x', 1)?, None);
/// assert_eq!(rt; cache.insert('y', 2)?, None);
/// assert_eq!(rt; cache.insert('x', 3)?, Some(1));
/// assert_eq!(rt; cache.insert('z', 4)?, None); // the pair of 'y' goes
/// assert_eq!(rt; (cache.peek(&'x'), cache.peek(&'y')), (Some(&3), None));
/// ```
#[derive(Drop)]
pub struct LruCache<K: Eq + Hash, V, S: BuildHasher = DefaultHashBuilder> {
    map: LinkedHashMap<K, V, S>,
    limit: usize,
}

/// A contract sees the pairs, the one used least recently first, the limit on their number, for how
/// many there is memory, and the hasher.
impl<K: Eq + Hash, V, S: BuildHasher> Model for LruCache<K, V, S> {
    ghost use Rattle.lru_cache.specs.Cache.{Cache, cache, IsKept};

    ghost Value = { Cache K V S };

    ghost view = { λ c. cache c.map.pairs c.limit c.map.capacity c.map.hasher };

    ghost invariant = { λ c. IsKept K.eq c.map c.limit };
}

impl<K: Eq + Hash, V> LruCache<K, V> {
    /// Creates an empty cache of at most `capacity` pairs with the default hasher, without
    /// allocating.
    ///
    /// # Examples
    ///
    /// ```rust
    /// let cache: LruCache<char, u64> = LruCache::new(rt.alloc(), 2);
    /// assert_eq!(rt; (cache.len(), cache.capacity()), (0, 2));
    /// ```
    pub fn new(alloc: Global, capacity: usize) -> Self
        ensures pairs { result.pairs ≡ [] }
        ensures limit { result.limit ≡ capacity }
        ensures room { result.room ≡ 0 }
        ensures hasher { IsDefaultHashBuilder result.hasher }
        ensures valid { IsValidCache K.eq result }
    {
        LruCache {
            map: LinkedHashMap::new(alloc),
            limit: capacity,
        }
    }
}

impl<K: Eq + Hash, V, S: BuildHasher> LruCache<K, V, S> {
    /// Creates an empty cache of at most `capacity` pairs with a build hasher, without allocating.
    ///
    /// # Examples
    ///
    /// ```rust
    /// use std::hash::RandomState;
    ///
    /// let mut cache = LruCache::with_hasher(rt.alloc(), 2, RandomState::new(&rt)?);
    /// cache.insert('x', 1)?;
    /// assert_eq!(rt; cache.get(&'x'), Some(&1));
    /// ```
    pub fn with_hasher(alloc: Global, capacity: usize, hasher: S) -> Self
        ensures pairs { result.pairs ≡ [] }
        ensures limit { result.limit ≡ capacity }
        ensures room { result.room ≡ 0 }
        ensures hasher { result.hasher ≡ hasher }
        ensures valid { IsValidCache K.eq result }
    {
        LruCache {
            map: LinkedHashMap::with_hasher(alloc, hasher),
            limit: capacity,
        }
    }

    /// Returns the largest number of pairs, in O(1).
    ///
    /// # Examples
    ///
    /// ```rust
    /// let mut cache: LruCache<char, u64> = LruCache::new(rt.alloc(), 2);
    /// cache.set_capacity(5);
    /// assert_eq!(rt; cache.capacity(), 5);
    /// ```
    pub fn capacity(&self) -> usize
        ensures limit { result ≡ self.now.limit }
        ensures valid { IsValidCache K.eq self.now }
    {
        self.limit
    }

    /// Returns for how many pairs there is memory, in O(1).
    ///
    /// # Examples
    ///
    /// ```rust
    /// let mut cache: LruCache<char, u64> = LruCache::new(rt.alloc(), 2);
    /// cache.reserve(3)?;
    /// assert_eq!(rt; (cache.room(), cache.capacity()), (3, 2));
    /// ```
    pub fn room(&self) -> usize
        ensures room { result ≡ self.now.room }
        ensures valid { IsValidCache K.eq self.now }
    {
        self.map.capacity()
    }

    /// Returns the number of pairs, in O(1).
    ///
    /// # Examples
    ///
    /// ```rust
    /// let mut cache = LruCache::new(rt.alloc(), 2);
    /// cache.insert('x', 1)?;
    /// assert_eq!(rt; cache.len(), 1);
    /// ```
    pub fn len(&self) -> usize
        ensures len { result ≡ length self.now.pairs }
        ensures valid { IsValidCache K.eq self.now }
    {
        self.map.len()
    }

    /// Returns `true` if the cache has no pairs, in O(1).
    ///
    /// # Examples
    ///
    /// ```rust
    /// let mut cache = LruCache::new(rt.alloc(), 2);
    /// assert!(rt; cache.is_empty());
    /// cache.insert('x', 1)?;
    /// assert!(rt; !cache.is_empty());
    /// ```
    pub fn is_empty(&self) -> bool
        ensures empty { result ≡ (length self.now.pairs == 0) }
        ensures valid { IsValidCache K.eq self.now }
    {
        self.map.is_empty()
    }
}
