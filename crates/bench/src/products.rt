//! The workloads of the cache and of the set, and the same by a map that is used as one. Those that
//! look up or iterate are compiled by themselves, as those of `maps` are.
ghost use Rattle.std.specs.Prelude.{◌<◌};

use super::order::{Order, mix};
use linked_hash_map::LinkedHashMap;
use linked_hash_set::LinkedHashSet;
use lru_cache::LruCache;
use std::alloc::{AllocError, Global};

/// The caches that are timed.
pub type Cache = LruCache<u64, u64>;

/// The maps that are timed as caches.
pub type CacheMap = LinkedHashMap<u64, u64>;

/// The sets that are timed.
pub type Set = LinkedHashSet<u64>;

/// The maps that are timed as sets.
pub type SetMap = LinkedHashMap<u64, ()>;

/// Makes a cache of at most `limit` pairs, and inserts `n`, with the keys of the indexes from
/// `start` on.
pub fn fill_cache(alloc: Global, start: u64, limit: u64, n: u64) -> Result<Cache, AllocError> {
    let mut cache = LruCache::new(alloc, limit as usize);
    for i in 0..n {
        cache.insert(mix(start.wrapping_add(i)), i)?;
    }
    Ok(cache)
}

/// Does the same with a map, from whose front it takes a pair that is one too many.
pub fn fill_cache_map(
    alloc: Global,
    start: u64,
    limit: u64,
    n: u64,
) -> Result<CacheMap, AllocError> {
    let mut map = LinkedHashMap::new(alloc);
    for i in 0..n {
        map.insert(mix(start.wrapping_add(i)), i)?;
        if map.len() > limit as usize {
            map.pop_front();
        }
    }
    Ok(map)
}

/// Gets `n` keys of a cache that has them, and returns the exclusive or of their values.
#[inline(never)]
pub fn cache_hit<O: Order>(cache: &mut Cache, order: &mut O, n: u64) -> u64
    requires { 0 < n }
{
    let mut sink = 0;
    for i in 0..n {
        if let Some(value) = cache.get_mut(&mix(order.index(i, n))) {
            sink ^= *value;
        }
    }
    sink
}

/// Does the same with a map.
#[inline(never)]
pub fn cache_map_hit<O: Order>(map: &mut CacheMap, order: &mut O, n: u64) -> u64
    requires { 0 < n }
{
    let mut sink = 0;
    for i in 0..n {
        if let Some(value) = map.get_refresh(&mix(order.index(i, n))) {
            sink ^= *value;
        }
    }
    sink
}

/// Makes a set of `n` items, those of the indexes from `start` on.
pub fn fill_set(alloc: Global, start: u64, n: u64) -> Result<Set, AllocError> {
    let mut set = LinkedHashSet::new(alloc);
    for i in 0..n {
        set.insert(mix(start.wrapping_add(i)))?;
    }
    Ok(set)
}

/// Does the same with a map.
pub fn fill_set_map(alloc: Global, start: u64, n: u64) -> Result<SetMap, AllocError> {
    let mut map = LinkedHashMap::new(alloc);
    for i in 0..n {
        map.insert(mix(start.wrapping_add(i)), ())?;
    }
    Ok(map)
}

/// Looks `n` items up, and returns how many there are.
#[inline(never)]
pub fn set_contains<O: Order>(set: &Set, order: &mut O, n: u64) -> u64
    requires { 0 < n }
{
    let mut count: u64 = 0;
    for i in 0..n {
        if set.contains(&mix(order.index(i, n))) {
            count = count.wrapping_add(1);
        }
    }
    count
}

/// Does the same with a map.
#[inline(never)]
pub fn set_map_contains<O: Order>(map: &SetMap, order: &mut O, n: u64) -> u64
    requires { 0 < n }
{
    let mut count: u64 = 0;
    for i in 0..n {
        if map.contains_key(&mix(order.index(i, n))) {
            count = count.wrapping_add(1);
        }
    }
    count
}

/// Goes over a set, and returns the exclusive or of its items.
#[inline(never)]
pub fn set_iterate(set: &Set) -> u64 {
    let mut sink = 0;
    for item in set {
        sink ^= *item;
    }
    sink
}

/// Does the same with a map.
#[inline(never)]
pub fn set_map_iterate(map: &SetMap) -> u64 {
    let mut sink = 0;
    for key in map.keys() {
        sink ^= *key;
    }
    sink
}
