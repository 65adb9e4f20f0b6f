//! What no line of `driver` can be: keys of other types, callers with contracts, signatures,
//! writers that fail, maps of many pairs, and the ring and its table (`refusals`, `rings`, `sorts`).

mod absent_keys;
mod borrowed;
mod caches;
mod calling;
mod chains;
mod compare;
mod documents;
mod entries;
mod equivalents;
mod failing_checks;
mod formats;
mod growths;
mod json;
mod references;
mod refusals;
mod rings;
mod signatures;
mod sorts;
mod support;

use linked_hash_map::LinkedHashMap;
use std::alloc::Global;
use std::process::Abort;
use support::calls::insert_all;
use support::checks::check_eq;

/// Makes a map into which these pairs were inserted.
fn map_of(rt: &impl Abort, alloc: Global, pairs: &[(u64, u64)]) -> LinkedHashMap<u64, u64> {
    let mut map = LinkedHashMap::new(alloc);
    insert_all(rt, &mut map, pairs);
    map
}

/// Checks which pairs a map has, in order.
fn assert_pairs(rt: &impl Abort, map: &LinkedHashMap<u64, u64>, expected: &[(u64, u64)]) {
    check_eq!(rt; map.len(), expected.len());
    let mut pairs = map.iter();
    for (key, value) in expected {
        check_eq!(rt; pairs.next(), Some((key, value)));
    }
}
