//! Extensions by references, whose keys and values are copied.

use super::support::checks::{check, check_eq, given};
use super::{assert_pairs, map_of};
use linked_hash_map::{LinkedHashMap, Refused};
use std::alloc::Global;
use std::process::Abort;

#[test]
fn extends_by_references(rt: HostRuntime) {
    let mut map = map_of(&rt, rt.alloc(), &[(1, 10), (2, 20)]);
    check_eq!(rt; map.extend_refs([(&3, &30), (&1, &11)]), Ok(()));
    assert_pairs(&rt, &map, &[(2, 20), (3, 30), (1, 11)]);
    given!(rt; Extend::extend(&mut map, [(&4, &40), (&2, &21)]));
    assert_pairs(&rt, &map, &[(3, 30), (1, 11), (4, 40), (2, 21)]);
    check_eq!(rt; map.capacity(), 4);
}

/// Makes a map of the keys below 2,000, each with itself as its value.
fn many(rt: &impl Abort, alloc: Global) -> LinkedHashMap<u64, u64> {
    let mut map = LinkedHashMap::new(alloc);
    check_eq!(rt; map.extend((0..2000).map(|key| (key, key))), Ok(()));
    map
}

#[test]
fn extends_above_a_thousand_by_references(rt: HostRuntime) {
    let map = many(&rt, rt.alloc());
    let mut copied = LinkedHashMap::new(rt.alloc());
    check_eq!(rt; copied.extend_refs(map.iter()), Ok(()));
    check!(rt; copied == map);
    let mut by_trait = LinkedHashMap::new(rt.alloc());
    given!(rt; Extend::extend(&mut by_trait, map.iter()));
    check!(rt; by_trait == map);
}

/// Asks for one growth, and says that none was refused, if none was, and how many there are with
/// that one.
pub(super) fn say_if_given(rt: &(impl Print + AllocGlobal), given: bool, growths: u64) {
    if given && Box::new(rt.alloc(), 0).is_ok() {
        let _ = println!(rt; "every growth was given, {growths} in all");
    }
}

#[test]
fn refused_extension_by_references_keeps_what_went_in(rt: HostRuntime) {
    // The growths: buckets and a chunk of two nodes; another chunk for the third pair; one that the
    // test asks for itself.
    let mut map = LinkedHashMap::new(rt.alloc());
    let mut items = [(&1, &10), (&1, &11), (&2, &20), (&3, &30)].into_iter();
    let extended = map.extend_refs(items.by_ref());
    assert_extended(&rt, &map, extended, items.len());
    say_if_given(&rt, map.len() == 3, 4);
}

/// Checks what the extension returns that leaves these pairs, and how many items it leaves.
fn assert_extended(
    rt: &impl Abort,
    map: &LinkedHashMap<u8, u64>,
    extended: Result<(), Refused<u8, u64>>,
    left: usize,
) {
    let wanted = match map.len() {
        0 => (Err(Refused { key: 1, value: 10 }), 3),
        2 => (Err(Refused { key: 3, value: 30 }), 0),
        _ => (Ok(()), 0),
    };
    check_eq!(rt; (extended, left), wanted);
    check_eq!(rt; map.len() == 0 || map.get(&1) == Some(&11), true);
}
