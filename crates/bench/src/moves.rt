//! The workloads of the calls that change or follow the order of the pairs.
ghost use Rattle.std.specs.Prelude.{◌<◌};

use super::maps::{Map, get_refresh};
use super::order::{Order, mix};
use linked_hash_map::IterFrom;
use std::alloc::{AllocError, Global};

/// How many pairs an iteration from a key goes over at most.
const PAIRS: usize = 10;

/// Moves pairs before others, and returns how often both were there.
pub fn move_beside<O: Order>(map: &mut Map, order: &mut O, n: u64) -> u64
    requires { 0 < n }
{
    let mut count: u64 = 0;
    for i in 0..n {
        let key = mix(order.index(i, n));
        let other = mix(order.index(i.wrapping_mul(31), n));
        if map.move_before(&key, &other) {
            count = count.wrapping_add(1);
        }
    }
    count
}

/// Returns the exclusive or of `sink` and of the first keys and values.
fn first_of(pairs: IterFrom<'_, u64, u64>, sink: u64) -> u64 {
    let mut sink = sink;
    for (key, value) in pairs.take(PAIRS) {
        sink ^= *key ^ *value;
    }
    sink
}

/// Goes over a few pairs from each key on, and returns the exclusive or of what it saw.
pub fn iter_from<O: Order>(map: &Map, order: &mut O, n: u64) -> u64
    requires { 0 < n }
{
    let mut sink = 0;
    for i in 0..n {
        if let Some(pairs) = map.iter_from(&mix(order.index(i, n))) {
            sink = first_of(pairs, sink);
        }
    }
    sink
}

/// Inserts absent keys at the front, moves each to the back and to the front again by rotations, and
/// removes it by the front entry. Returns the exclusive or of the values.
pub fn ends(map: &mut Map, n: u64) -> Result<u64, AllocError> {
    let mut sink = 0;
    for i in 0..n {
        map.insert_front(mix(n.wrapping_add(i)), i)?;
        let len = map.len();
        if 0 < len {
            map.rotate_left(1);
            map.rotate_left(len - 1);
        }
        if let Some(entry) = map.front_entry() {
            sink ^= entry.remove();
        }
    }
    Ok(sink)
}

/// Puts the pairs in the order in which they were inserted, and in random order many of them behind
/// the others, as they are drawn: so that there is something to sort.
pub fn unsort<O: Order>(map: &mut Map, order: &mut O, n: u64)
    requires { 0 < n }
{
    for i in 0..n {
        map.move_to_back(&mix(i));
    }
    if order.is_random() {
        get_refresh(map, order, n);
    }
}

/// Puts the pairs in the order of falling keys.
pub fn fall(alloc: Global, map: &mut Map) -> Result<(), AllocError> {
    let mut keys = Vec::new(alloc);
    for key in map.keys() {
        keys.push(*key)?;
    }
    keys.sort()?;
    for key in keys.iter().rev() {
        map.move_to_back(key);
    }
    Ok(())
}

/// Returns the exclusive or of the first key and the last.
fn ends_of(map: &Map) -> u64 {
    match (map.front(), map.back()) {
        (Some((first, _)), Some((last, _))) => *first ^ *last,
        _ => 0,
    }
}

/// Sorts the pairs by their keys, and returns the exclusive or of the first key and the last.
#[inline(never)]
pub fn sort(map: &mut Map) -> u64 {
    map.sort_keys();
    ends_of(map)
}

/// Sorts the pairs by copies of their keys, and returns the exclusive or of the first key and the
/// last.
pub fn sort_cached(map: &mut Map) -> Result<u64, AllocError> {
    map.sort_by_cached_key(|key, _| *key)?;
    Ok(ends_of(map))
}
