//! Calls that make a map, and those that take in the pairs of another.

use super::Map;
use super::call::Call;
use super::hasher::BuildKeyHasher;
use std::default::{Emptied, MadeWith};
use std::mem;

/// Makes an empty map with the default hasher.
pub fn empty(call: &Call) -> Map {
    Map::with_hasher(call.alloc, BuildKeyHasher::default())
}

/// Takes a map, and leaves an empty one with the default hasher in its place.
pub fn take(call: &Call, map: &mut Map) -> Map {
    mem::replace(map, empty(call))
}

/// Runs the call of a line, and returns whether there is one.
pub fn run(call: &Call, map: &mut Map, other: &mut Map) -> bool {
    match call.name() {
        "with_hasher" => call.replace(map, Map::with_hasher(call.alloc, call.hasher())),
        "with_capacity" => {
            let (hasher, capacity) = (call.hasher(), call.size());
            let made = Map::with_capacity_and_hasher(call.alloc, capacity, hasher);
            call.store(map, made);
        }
        "default" => call.replace(map, empty(call)),
        "made_with" => call.replace(map, MadeWith::made_with(call.alloc)),
        "emptied" => call.store(map, Emptied::emptied(other)),
        "clone" => call.store(map, other.clone()),
        "swap" => mem::swap(map, other),
        _ => return false,
    }
    call.show(map.hasher());
    true
}
