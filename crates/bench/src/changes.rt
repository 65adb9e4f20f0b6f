//! The workloads of calls that change many pairs, or one by its entry. They have maps of a type of
//! their own, so that those of `maps.rt` are compiled as without them.
ghost use Rattle.std.specs.Prelude.{◌<◌};

use super::order::{Order, mix};
use linked_hash_map::LinkedHashMap;
use std::alloc::{AllocError, Global};

/// Maps from keys to counts.
pub type Counts = LinkedHashMap<u64, u32>;

/// Makes a map of `n` pairs by its entries, with the keys of the indexes from `start` on.
pub fn entry_new(alloc: Global, start: u64, n: u64) -> Result<Counts, AllocError> {
    let mut map = LinkedHashMap::new(alloc);
    for i in 0..n {
        map.entry(mix(start.wrapping_add(i))).or_insert(1)?;
    }
    Ok(map)
}

/// Counts `n` keys that are there by their entries, and returns the exclusive or of the counts.
#[inline(never)]
pub fn entry_present<O: Order>(map: &mut Counts, order: &mut O, n: u64) -> Result<u64, AllocError>
    requires { 0 < n }
{
    let mut sink = 0;
    for i in 0..n {
        let count = map.entry(mix(order.index(i, n))).or_insert(0)?;
        *count = count.wrapping_add(1);
        sink ^= *count as u64;
    }
    Ok(sink)
}

/// Keeps the pairs with an even key, and returns how many there are.
pub fn retain_half(map: &mut Counts) -> u64 {
    map.retain(|key, _| *key % 2 == 0);
    map.len() as u64
}

/// Returns the keys of a map, in order.
fn keys_of(alloc: Global, map: &Counts) -> Result<Vec<u64>, AllocError> {
    let mut keys = Vec::new(alloc);
    for key in map.keys() {
        keys.push(*key)?;
    }
    Ok(keys)
}

/// Removes the pairs of some keys, and returns the exclusive or of their counts.
fn remove_all(map: &mut Counts, keys: &[u64]) -> u32 {
    let mut sink = 0;
    for key in keys {
        if let Some(count) = map.remove(key) {
            sink ^= count;
        }
    }
    sink
}

/// Removes all pairs by their keys, in order, inserts the keys again with the same count, and
/// returns that.
pub fn empty_refill(alloc: Global, map: &mut Counts) -> Result<u64, AllocError> {
    let keys = keys_of(alloc, map)?;
    let count = remove_all(map, keys.as_slice());
    for key in &keys {
        map.insert(*key, count)?;
    }
    Ok(count as u64)
}

/// Makes a map of `n` pairs by a single call, with the keys of the indexes from `start` on.
pub fn extend(alloc: Global, start: u64, n: u64) -> Result<Counts, AllocError> {
    let mut map = LinkedHashMap::new(alloc);
    map.extend((0..n).map(|i| (mix(start.wrapping_add(i)), 1)))?;
    Ok(map)
}

/// Makes a map of `n` pairs that has the capacity for them, with the keys of the indexes from
/// `start` on.
pub fn with_capacity(alloc: Global, start: u64, n: u64) -> Result<Counts, AllocError> {
    let mut map = LinkedHashMap::with_capacity(alloc, n as usize)?;
    for i in 0..n {
        map.insert(mix(start.wrapping_add(i)), 1)?;
    }
    Ok(map)
}
