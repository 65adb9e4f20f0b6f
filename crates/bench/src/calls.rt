//! The workload of the calls that no other workload makes, each as often as there are pairs. It
//! makes what it is done on, so no time of it is compared.

use super::maps::{Map, fill};
use super::order::mix;
use super::products::{Cache, fill_cache};
use linked_hash_map::LinkedHashMap;
use linked_hash_map::sessions::Sessions;
use std::alloc::{AllocError, Global};

/// Returns the exclusive or of a key and a value, or 0 if there are none.
fn mixed(pair: Option<(&u64, &u64)>) -> u64 {
    match pair {
        Some((key, value)) => *key ^ *value,
        None => 0,
    }
}

/// Replaces each key by itself, clones an iterator from it, and returns the sum of what it saw.
fn use_keys(map: &mut Map, n: u64) -> Result<u64, AllocError> {
    let mut sum: u64 = 0;
    for i in 0..n {
        let key = map.replace_key(mix(i)).unwrap_or(0);
        if let Some(pairs) = map.iter_from(&key) {
            sum = sum.wrapping_add(mixed(pairs.clone()?.next()));
        }
    }
    Ok(sum)
}

/// Takes out the back pair and inserts it again, and returns the sum of the keys.
fn use_back(map: &mut Map, n: u64) -> Result<u64, AllocError> {
    let mut sum: u64 = 0;
    for _ in 0..n {
        if let Some((key, value)) = map.pop_back() {
            sum = sum.wrapping_add(key);
            map.replace(key, value)?;
        }
    }
    Ok(sum)
}

/// Visits the pairs, and returns the sum of their keys.
fn visit(map: &mut Map, n: u64) -> u64 {
    let mut sum: u64 = 0;
    map.visit();
    for _ in 0..n {
        if let Some(entry) = map.next_entry() {
            sum = sum.wrapping_add(*entry.key());
        }
    }
    sum
}

/// Drops the pairs one by one, the last first, and returns the sum of the ends before each.
fn truncate(map: &mut Map, n: u64) -> u64 {
    let mut sum: u64 = 0;
    for i in 0..n {
        if !map.is_empty() {
            let ends = mixed(map.iter().next()) ^ mixed(map.back());
            sum = sum.wrapping_add(ends);
        }
        map.truncate((n - 1 - i) as usize);
    }
    sum
}

/// Uses each pair of a cache and takes it out. Returns the sum of the values and of the pairs used
/// least recently.
fn use_cache(cache: &mut Cache, n: u64) -> u64 {
    let mut sum: u64 = 0;
    for i in 0..n {
        let key = mix(i);
        if let Some(value) = cache.get(&key) {
            sum = sum.wrapping_add(*value);
        }
        sum = sum.wrapping_add(mixed(cache.peek_lru()));
        sum = sum.wrapping_add(cache.remove(&key).unwrap_or(0));
    }
    sum
}

/// Puts `n` sessions into a table with room for half of them, and returns how many it removed.
fn put_sessions(alloc: Global, n: u64) -> Result<u64, AllocError> {
    let mut sessions = Sessions::new(alloc, n / 2);
    let mut count: u64 = 0;
    for i in 0..n {
        let Ok(put) = sessions.put(mix(i), 1, ()) else {
            return Err(AllocError);
        };
        count = count.wrapping_add(put.gone.len() as u64);
    }
    Ok(count)
}

/// Drains an empty map of capacity `n`, and returns how many pairs there were.
fn drain_empty(alloc: Global, n: u64) -> Result<u64, AllocError> {
    let mut map: Map = LinkedHashMap::with_capacity(alloc, n as usize)?;
    let mut count: u64 = 0;
    for _ in 0..n {
        count = count.wrapping_add(map.drain().len() as u64);
    }
    Ok(count)
}

/// Makes each call `n` times, and returns the exclusive or of what they returned.
pub fn other_calls(alloc: Global, n: u64) -> Result<u64, AllocError> {
    let mut map = fill(alloc, 0, n)?;
    let of_keys = use_keys(&mut map, n)?;
    let of_back = use_back(&mut map, n)?;
    let of_visit = visit(&mut map, n);
    let of_ends = truncate(&mut map, n);
    let of_cache = use_cache(&mut fill_cache(alloc, 0, n, n)?, n);
    let of_sessions = put_sessions(alloc, n)?;
    let of_drains = drain_empty(alloc, n)?;
    Ok(of_keys ^ of_back ^ of_visit ^ of_ends ^ of_cache ^ of_sessions ^ of_drains)
}
