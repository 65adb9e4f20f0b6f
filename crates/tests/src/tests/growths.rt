//! Many changes of capacity.

use super::support::calls::{
    assert_contains, assert_get, assert_sizes, check_insert, check_pop_front, check_remove,
};
use super::support::checks::{check, given};
use linked_hash_map::LinkedHashMap;
use std::process::Abort;

const HALF: u64 = 1 << 19;

const ALL: u64 = 1 << 20;

fn insert_all(rt: &impl Abort, map: &mut LinkedHashMap<u64, u64>) {
    for key in 0..ALL {
        check_insert(rt, map, key, key, None);
    }
}

fn find_all(rt: &impl Abort, map: &LinkedHashMap<u64, u64>) {
    for key in 0..ALL {
        assert_get(rt, map, &key, Some(&key));
        assert_contains(rt, map, &(key + ALL), false);
    }
}

fn remove_even(rt: &impl Abort, map: &mut LinkedHashMap<u64, u64>) {
    for half in 0..HALF {
        check_remove(rt, map, &(2 * half), Some(2 * half));
    }
}

fn pop_odd(rt: &impl Abort, map: &mut LinkedHashMap<u64, u64>) {
    for half in 0..HALF {
        assert_contains(rt, map, &(2 * half), false);
        check_pop_front(rt, map, Some((2 * half + 1, 2 * half + 1)));
    }
}

#[test]
fn holds_a_million_pairs(rt: HostRuntime) {
    let mut map = LinkedHashMap::new(rt.alloc());
    insert_all(&rt, &mut map);
    assert_sizes(&rt, &map, 1_048_576, 1_048_576);
    find_all(&rt, &map);
}

#[test]
fn gives_a_million_pairs_back(rt: HostRuntime) {
    let mut map = given!(rt; LinkedHashMap::with_capacity(rt.alloc(), 1_048_576));
    assert_sizes(&rt, &map, 0, 1_048_576);
    insert_all(&rt, &mut map);
    remove_even(&rt, &mut map);
    assert_sizes(&rt, &map, 524_288, 1_048_576);
    given!(rt; map.shrink_to_fit());
    assert_sizes(&rt, &map, 524_288, 524_288);
    pop_odd(&rt, &mut map);
    check_pop_front(&rt, &mut map, None);
    given!(rt; map.shrink_to_fit());
    assert_sizes(&rt, &map, 0, 0);
}

/// Clears and drains an empty map over and over.
fn empty_often(rt: &impl Abort, map: &mut LinkedHashMap<u64, u64>) {
    for _ in 0..ALL {
        map.clear();
        check!(rt; map.drain().next().is_none());
    }
}

/// If either call went over the buckets, a million of them would take hours, and a test has a
/// minute.
#[test]
fn empties_an_empty_map_in_constant_time(rt: HostRuntime) {
    let mut map = LinkedHashMap::new(rt.alloc());
    given!(rt; map.reserve(1_048_576));
    empty_often(&rt, &mut map);
    assert_sizes(&rt, &map, 0, 1_048_576);
}
