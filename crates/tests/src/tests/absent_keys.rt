//! Lookups of absent keys in a large map, each in constant time, also beside a long chain.

use super::support::checks::{check, check_eq, given};
use super::support::hashers::{BuildMultiple, KEY};
use linked_hash_map::{Entry, LinkedHashMap, Probe};
use std::alloc::Global;
use std::process::Abort;

const MANY: usize = 262_144;

type LargeMap = LinkedHashMap<u64, (), BuildMultiple>;

/// Makes a map of `MANY` keys.
fn many(rt: &impl Abort, alloc: Global) -> LargeMap {
    let mut map = given!(rt; LinkedHashMap::with_capacity_and_hasher(alloc, MANY, KEY));
    for key in 0..262_144u64 {
        check_eq!(rt; map.insert(key, ()), Ok(None));
    }
    map
}

/// Reads at a key that is absent, and falls into the bucket of one present key.
fn read_absent(rt: &impl Abort, map: &LargeMap, key: u64) {
    check_eq!(rt; map.get(&key), None);
    check_eq!(rt; map.get_counted(&key), (None, Probe { visited: 1, compared: 0 }));
    check!(rt; !map.contains_key(&key));
}

/// Asks for such a key to write its value, to move it or to take it out.
fn change_absent(rt: &impl Abort, map: &mut LargeMap, key: u64) {
    check!(rt; map.get_mut(&key).is_none());
    check!(rt; map.get_refresh(&key).is_none());
    check_eq!(rt; map.remove(&key), None);
    let is_vacant = matches!(map.entry(key), Entry::Vacant(_));
    check_eq!(rt; (key, is_vacant), (key, true));
}

/// Looks up as many absent keys. A scan of all pairs would reach 2^36 of them for each call.
fn look_up_absent(rt: &impl Abort, map: &mut LargeMap) {
    for key in 262_144..524_288u64 {
        read_absent(rt, map, key);
        change_absent(rt, map, key);
    }
}

#[test]
fn looks_up_absent_keys_in_a_large_map(rt: HostRuntime) {
    let mut map = many(&rt, rt.alloc());
    look_up_absent(&rt, &mut map);
    check_eq!(rt; (map.len(), map.capacity()), (MANY, MANY));
}

/// The hash is 2^32 + 2^15 times the key. Among 2^15 buckets all keys fall into one, and the upper
/// four bits are the key divided by 2^28.
const ONE_BUCKET: BuildMultiple = BuildMultiple {
    largest: u32::MAX,
    factor: 4_295_000_064,
};

/// Makes a map of 2^15 keys in one of as many buckets. It has 2^21 buckets first, so that the keys
/// are inserted into 64 shorter chains.
fn in_one_bucket(rt: &impl Abort, alloc: Global) -> LargeMap {
    let mut map = given!(rt; LinkedHashMap::with_capacity_and_hasher(alloc, 2_097_152, ONE_BUCKET));
    for key in 0..32_768u64 {
        check_eq!(rt; map.insert(key, ()), Ok(None));
    }
    given!(rt; map.shrink_to_fit());
    map
}

/// Looks up and removes 2^21 absent keys of this bucket, whose upper four bits are 1: the filter
/// lacks them. If either followed the chain, it would reach 2^36 pairs, and a test has a minute.
fn remove_absent(rt: &impl Abort, map: &mut LargeMap) {
    for key in 268_435_456..270_532_608u64 {
        check!(rt; !map.contains_key(&key));
        check_eq!(rt; map.remove(&key), None);
    }
}

#[test]
fn asks_the_filter_before_a_long_chain(rt: HostRuntime) {
    let mut map = in_one_bucket(&rt, rt.alloc());
    remove_absent(&rt, &mut map);
    check_eq!(rt; (map.len(), map.capacity()), (32_768, 32_768));
}
