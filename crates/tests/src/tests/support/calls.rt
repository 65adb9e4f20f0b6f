//! Calls of a map, each with a check of what it returns.
//!
//! They have no clauses and return nothing, so the proof of a test that is a row of them is short.

use super::checks::{check_eq, given};
use linked_hash_map::LinkedHashMap;
use std::fmt::Debug;
use std::hash::{BuildHasher, Hash};
use std::process::Abort;

/// Inserts a pair, and checks the old value.
pub fn check_insert<K: Eq + Hash + Debug + Drop, V: PartialEq + Debug + Drop, S: BuildHasher>(
    rt: &impl Abort,
    map: &mut LinkedHashMap<K, V, S>,
    key: K,
    value: V,
    old: Option<V>,
) {
    check_eq!(rt; map.insert(key, value), Ok(old));
}

/// Inserts pairs.
pub fn insert_all<K: Eq + Hash + Copy + Debug + Drop, V: Copy + Debug + Drop, S: BuildHasher>(
    rt: &impl Abort,
    map: &mut LinkedHashMap<K, V, S>,
    pairs: &[(K, V)],
) {
    for (key, value) in pairs {
        given!(rt; map.insert(*key, *value));
    }
}

/// Removes a key, and checks the value that it had.
pub fn check_remove<K: Eq + Hash + Drop, V: PartialEq + Debug + Drop, S: BuildHasher>(
    rt: &impl Abort,
    map: &mut LinkedHashMap<K, V, S>,
    key: &K,
    value: Option<V>,
) {
    check_eq!(rt; map.remove(key), value);
}

/// Takes out the first pair, and checks it.
pub fn check_pop_front<K: Eq + Hash + Debug + Drop, V: PartialEq + Debug + Drop, S: BuildHasher>(
    rt: &impl Abort,
    map: &mut LinkedHashMap<K, V, S>,
    pair: Option<(K, V)>,
) {
    check_eq!(rt; map.pop_front(), pair);
}

/// Checks the value of a key.
pub fn assert_get<K: Eq + Hash, V: PartialEq + Debug, S: BuildHasher>(
    rt: &impl Abort,
    map: &LinkedHashMap<K, V, S>,
    key: &K,
    value: Option<&V>,
) {
    check_eq!(rt; map.get(key), value);
}

/// Checks whether a key is present.
pub fn assert_contains<K: Eq + Hash, V, S: BuildHasher>(
    rt: &impl Abort,
    map: &LinkedHashMap<K, V, S>,
    key: &K,
    is_present: bool,
) {
    check_eq!(rt; map.contains_key(key), is_present);
}

/// Checks the first and the last pair.
pub fn assert_ends<K: Eq + Hash + Debug, V: PartialEq + Debug, S: BuildHasher>(
    rt: &impl Abort,
    map: &LinkedHashMap<K, V, S>,
    front: Option<(&K, &V)>,
    back: Option<(&K, &V)>,
) {
    check_eq!(rt; map.front(), front);
    check_eq!(rt; map.back(), back);
}

/// Checks the length and the capacity.
pub fn assert_sizes<K: Eq + Hash, V, S: BuildHasher>(
    rt: &impl Abort,
    map: &LinkedHashMap<K, V, S>,
    len: usize,
    capacity: usize,
) {
    check_eq!(rt; (map.len(), map.capacity()), (len, capacity));
}

/// Checks that there is no pair.
pub fn assert_empty<K: Eq + Hash, V, S: BuildHasher>(
    rt: &impl Abort,
    map: &LinkedHashMap<K, V, S>,
) {
    check_eq!(rt; (map.len(), map.is_empty()), (0, true));
}
