//! The workloads of one map. They are compiled by themselves, so that what else the program does
//! changes nothing of them.
ghost use Rattle.std.specs.Prelude.{◌<◌};

use super::order::{Order, mix};
use linked_hash_map::LinkedHashMap;
use std::alloc::{AllocError, Global};

/// The maps that are timed.
pub type Map = LinkedHashMap<u64, u64>;

/// Inserts a pair, and returns the old value of its key.
#[inline(always)]
fn insert(map: &mut Map, key: u64, value: u64) -> Result<Option<u64>, AllocError> {
    match map.insert(key, value) {
        Ok(old) => Ok(old),
        Err(_) => Err(AllocError),
    }
}

/// Makes a map of `n` pairs, whose capacity is raised one by one. The keys are those of the indexes
/// from `start` on.
pub fn fill(alloc: Global, start: u64, n: u64) -> Result<Map, AllocError> {
    let mut map = LinkedHashMap::new(alloc);
    for i in 0..n {
        insert(&mut map, mix(start.wrapping_add(i)), i)?;
    }
    Ok(map)
}

#[inline(never)]
pub fn get_hit<O: Order>(map: &Map, order: &mut O, n: u64) -> u64
    requires { 0 < n }
{
    let mut sink = 0;
    for i in 0..n {
        if let Some(value) = map.get(&mix(order.index(i, n))) {
            sink ^= *value;
        }
    }
    sink
}

#[inline(never)]
pub fn get_miss<O: Order>(map: &Map, order: &mut O, n: u64) -> u64 {
    let start = order.start().wrapping_add(n);
    let mut count: u64 = 0;
    for i in 0..n {
        if map.get(&mix(start.wrapping_add(i))).is_some() {
            count = count.wrapping_add(1);
        }
    }
    count
}

#[inline(never)]
pub fn iterate(map: &Map) -> u64 {
    let mut sink = 0;
    for (key, value) in map.iter() {
        sink ^= *key ^ *value;
    }
    sink
}

/// Moves `n` pairs to the back, and returns the exclusive or of their values.
#[inline(never)]
pub fn get_refresh<O: Order>(map: &mut Map, order: &mut O, n: u64) -> u64
    requires { 0 < n }
{
    let mut sink = 0;
    for i in 0..n {
        if let Some(value) = map.get_refresh(&mix(order.index(i, n))) {
            sink ^= *value;
        }
    }
    sink
}

#[inline(never)]
pub fn insert_present<O: Order>(map: &mut Map, order: &mut O, n: u64) -> Result<u64, AllocError>
    requires { 0 < n }
{
    let mut sink = 0;
    for i in 0..n {
        if let Some(old) = insert(map, mix(order.index(i, n)), i)? {
            sink ^= old;
        }
    }
    Ok(sink)
}

#[inline(never)]
pub fn lru_cycle(map: &mut Map, n: u64) -> Result<u64, AllocError> {
    let mut sink = 0;
    for i in 0..n {
        if let Some((key, value)) = map.pop_front() {
            sink ^= key;
            insert(map, key.wrapping_add(i << 40 | 1), value)?;
        }
    }
    Ok(sink)
}

#[inline(never)]
pub fn remove_reinsert<O: Order>(
    alloc: Global,
    map: &mut Map,
    order: &mut O,
    n: u64,
) -> Result<u64, AllocError>
    requires { 0 < n }
{
    let mut keys = Vec::new(alloc);
    for key in map.keys() {
        keys.push(*key)?;
    }
    let mut sink = 0;
    for i in 0..n {
        if let Some(key) = keys.get(order.place(i, n) as usize) {
            if let Some(value) = map.remove(key) {
                sink ^= value;
                insert(map, *key, value)?;
            }
        }
    }
    Ok(sink)
}

#[inline(never)]
pub fn write_all(map: &mut Map) -> u64 {
    let mut sink = 0;
    for (key, value) in map.iter_mut() {
        *value = value.wrapping_add(*key);
        sink ^= *value;
    }
    sink
}
