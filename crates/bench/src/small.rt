//! The workloads of small maps: what is done with many maps of a few pairs.
ghost use Rattle.std.specs.Prelude.{◌<◌};

use super::maps::{Map, fill};
use super::order::{Order, mix};
use std::alloc::{AllocError, Global};

/// The most pairs of a small map.
pub const MOST_PAIRS: u64 = 64;

/// How many small maps there are.
pub const MAPS: u64 = 4_000;

/// Makes the maps, each of `n` pairs. The keys of the first are those of the indexes from `start`
/// on, and each has keys that no other has.
pub fn fill_all(alloc: Global, start: u64, n: u64) -> Result<Vec<Map>, AllocError> {
    let mut maps = Vec::with_capacity(alloc, MAPS as usize)?;
    let mut start = start;
    for _ in 0..MAPS {
        maps.push(fill(alloc, start, n)?)?;
        start = start.wrapping_add(MOST_PAIRS);
    }
    Ok(maps)
}

/// Returns how many pairs the maps have.
pub fn count(maps: &[Map]) -> u64 {
    let mut count: u64 = 0;
    for map in maps {
        count = count.wrapping_add(map.len() as u64);
    }
    count
}

/// Looks up `n` keys of a map, and adds the value of each that is there and one to `sink`.
fn lookup_in<O: Order>(map: &Map, start: u64, order: &mut O, n: u64, sink: u64) -> u64
    requires { 0 < n }
{
    let mut sink = sink;
    for i in 0..n {
        if let Some(value) = map.get(&mix(start.wrapping_add(order.index(i, n)))) {
            sink = sink.wrapping_add(*value).wrapping_add(1);
        }
    }
    sink
}

/// Looks up as many keys of each map as it has pairs, and returns the sum of the values and of how
/// many there were.
pub fn lookup<O: Order>(maps: &[Map], order: &mut O, n: u64) -> u64
    requires { 0 < n }
{
    let mut start: u64 = 0;
    let mut sink = 0;
    for map in maps {
        sink = lookup_in(map, start, order, n, sink);
        start = start.wrapping_add(MOST_PAIRS);
    }
    sink
}

/// Goes over the pairs of a map, and adds the exclusive or of each key and its value to `sink`.
fn iterate_one(map: &Map, sink: u64) -> u64 {
    let mut sink = sink;
    for (key, value) in map.iter() {
        sink = sink.wrapping_add(*key ^ *value);
    }
    sink
}

/// Goes over the pairs of each map, and returns the sum of the exclusive ors.
pub fn iterate(maps: &[Map]) -> u64 {
    let mut sink = 0;
    for map in maps {
        sink = iterate_one(map, sink);
    }
    sink
}
