//! Iterators that a caller chains, collects or loops over, and callers that drain a map: however the
//! iterator ends, the map is empty then, and keeps its capacity and its hasher.
ghost use Rattle.std.specs.Prelude.{◌≡◌, ◌∷◌, ◌^◌, ◌<◌, [], filter, nat_lt, reverse, slice_get, sum_by, IfOk};
ghost use Rattle.std.specs.Map.{keys_of, values_of};

use super::support::calls::{assert_get, assert_sizes, check_insert, insert_all};
use super::support::checks::{check_eq, given};
use super::{assert_pairs, map_of};
use linked_hash_map::{LinkedHashMap, Refused};
use std::alloc::{AllocError, Global};
use std::hash::{BuildHasher, Hash};
use std::mem::forget;
use std::process::Abort;

// Callers that chain an iterator, and know what the list gives.

fn sum_of_large(map: &LinkedHashMap<u32, u32>) -> u64
    requires { sum_by (λ v. v) (values_of map.now.pairs) < 2 ^ 64 }
    ensures { result ≡ sum_by (λ v. v) (filter (λ v. nat_lt 10 v) (values_of map.now.pairs)) }
{
    map.values()
        .filter(|value| **value > 10)
        .map(|value| *value as u64)
        .sum()
}

fn newest_first(alloc: Global, map: &LinkedHashMap<u32, u32>) -> Result<Vec<u32>, AllocError>
    ensures { IfOk result (λ keys. keys.items ≡ reverse (keys_of map.now.pairs)) }
{
    map.keys().rev().map(|key| *key).collect(alloc)
}

// A caller that drains a map into a list.
fn drained(alloc: Global, map: &mut LinkedHashMap<u32, u32>) -> Result<Vec<(u32, u32)>, AllocError>
    ensures { IfOk result (λ pairs. pairs.items ≡ map.old.pairs) }
{
    map.drain().collect(alloc)
}

/// Makes a map of two pairs, whose values are known to have a sum that fits.
fn two_pairs(alloc: Global) -> Result<LinkedHashMap<u32, u32>, Refused<u32, u32>>
    ensures { IfOk result (λ map. map.pairs ≡ (1, 10) ∷ (2, 20) ∷ []) }
{
    let mut map = LinkedHashMap::new(alloc);
    map.insert(1, 10)?;
    map.insert(2, 20)?;
    Ok(map)
}

/// Checks what the chains give on those two pairs.
fn assert_chains(rt: &impl Abort, alloc: Global) {
    match two_pairs(alloc) {
        Ok(map) => {
            check_eq!(rt; sum_of_large(&map), 20);
            let keys = given!(rt; newest_first(alloc, &map));
            check_eq!(rt; keys.as_slice(), [2, 1].as_slice());
        }
        Err(_refused) => panic!(rt; "no memory for two pairs"),
    }
}

#[test]
fn chains_iterators(rt: HostRuntime) {
    assert_chains(&rt, rt.alloc());
}

/// Checks that a loop gives each key with its value.
fn assert_each(rt: &impl Abort, map: &LinkedHashMap<u32, u32>) {
    for (key, value) in map {
        assert_get(rt, map, key, Some(value));
    }
}

/// Checks that a loop that takes the map gives one pair alone.
fn assert_only(rt: &impl Abort, map: LinkedHashMap<u32, u32>, only: (u32, u32)) {
    for pair in map {
        check_eq!(rt; pair, only);
    }
}

#[test]
fn loops_over_a_map(rt: HostRuntime) {
    let mut map = LinkedHashMap::new(rt.alloc());
    insert_all(&rt, &mut map, &[(1, 10), (2, 20), (3, 30)]);
    assert_each(&rt, &map);
    let keys = given!(rt; newest_first(rt.alloc(), &map));
    check_eq!(rt; keys.as_slice(), [3, 2, 1].as_slice());
    map.clear();
    check_insert(&rt, &mut map, 4, 40, None);
    assert_only(&rt, map, (4, 40));
}

#[test]
fn drains_into_a_vector(rt: HostRuntime) {
    let mut map = LinkedHashMap::new(rt.alloc());
    insert_all(&rt, &mut map, &[(5, 50)]);
    let pairs = given!(rt; drained(rt.alloc(), &mut map));
    check_eq!(rt; pairs.as_slice(), [(5, 50)].as_slice());
}

// A step from each end. What is left is dropped.
fn drain_both_ends<K: Eq + Hash + Drop, V: Drop, S: BuildHasher>(
    map: &mut LinkedHashMap<K, V, S>,
) -> (Option<(K, V)>, Option<(K, V)>)
    ensures first { result.0 ≡ slice_get map.old.pairs 0 }
    ensures pairs { map.new.pairs ≡ [] }
    ensures capacity { map.new.capacity ≡ map.old.capacity }
    ensures hasher { map.new.hasher ≡ map.old.hasher }
{
    let mut pairs = map.drain();
    let first = pairs.next();
    (first, pairs.next_back())
}

// A step, after which the iterator is forgotten.
fn drain_and_forget(map: &mut LinkedHashMap<u64, u64>) -> usize
    ensures none { result ≡ 0 }
    ensures pairs { map.new.pairs ≡ [] }
    ensures capacity { map.new.capacity ≡ map.old.capacity }
    ensures hasher { map.new.hasher ≡ map.old.hasher }
{
    let mut pairs = map.drain();
    pairs.next();
    forget(pairs);
    map.len()
}

#[test]
fn empties_the_map_however_the_iterator_ends(rt: HostRuntime) {
    let mut map = map_of(&rt, rt.alloc(), &[(1, 10), (2, 20), (3, 30)]);
    check_eq!(rt; drain_both_ends(&mut map), (Some((1, 10)), Some((3, 30))));
    insert_all(&rt, &mut map, &[(1, 10), (2, 20)]);
    check_eq!(rt; drain_and_forget(&mut map), 0);
    assert_get(&rt, &map, &2, None);
    insert_all(&rt, &mut map, &[(2, 21)]);
    assert_pairs(&rt, &map, &[(2, 21)]);
    assert_sizes(&rt, &map, 1, 3);
}
