//! The order of maps whose values have none, and what a map feeds to a hasher.

use super::map_of;
use super::support::checks::{check_eq, given};
use super::support::hashers::Written;
use linked_hash_map::LinkedHashMap;
use std::cmp::Ordering;
use std::hash::Hash;

#[test]
fn has_no_order_where_a_value_has_none(rt: HostRuntime) {
    let mut map = LinkedHashMap::new(rt.alloc());
    given!(rt; map.insert(1, f64::NAN));
    let mut greater = LinkedHashMap::new(rt.alloc());
    given!(rt; greater.insert(2, 0.0));
    check_eq!(rt; map.partial_cmp(&map), None);
    check_eq!(rt; map.partial_cmp(&greater), Some(Ordering::Less));
}

/// What the pairs (1, 10) and (2, 20) feed to a hasher.
const FED: [u8; 32] = [
    1, 0, 0, 0, 0, 0, 0, 0, 10, 0, 0, 0, 0, 0, 0, 0, 2, 0, 0, 0, 0, 0, 0, 0, 20, 0, 0, 0, 0, 0, 0,
    0,
];

#[test]
fn feeds_each_key_and_then_its_value(rt: HostRuntime) {
    let map = map_of(&rt, rt.alloc(), &[(1, 10), (2, 20)]);
    let mut written = Written::new();
    map.hash(&mut written);
    let expected = Written {
        bytes: FED,
        len: 32,
    };
    check_eq!(rt; written, expected);
}

#[test]
fn feeds_nothing_where_it_is_empty(rt: HostRuntime) {
    let empty: LinkedHashMap<u64, u64> = LinkedHashMap::new(rt.alloc());
    let mut nothing = Written::new();
    empty.hash(&mut nothing);
    check_eq!(rt; nothing, Written::new());
}
