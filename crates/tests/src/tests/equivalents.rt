//! What each implementation of `Equivalent` looks up.

use super::support::calls::check_insert;
use super::support::checks::{check, check_eq, given};
use super::support::counting::Counting;
use super::support::hashers::BuildSame;
use linked_hash_map::{Equivalent, LinkedHashMap};
use std::alloc::Global;
use std::boxed::{BoxedSlice, BoxedStr};
use std::cell::Cell;
use std::fmt::Debug;
use std::hash::{BuildHasher, Hash};
use std::process::Abort;
use std::rc::RcStr;

/// Inserts a key, and inserts it again over itself. After each it looks a present key and an absent
/// one up.
fn check_one_key<K: Eq + Hash + Debug + Drop, Q: Equivalent<K>, S: BuildHasher + Drop>(
    rt: &impl Abort,
    mut map: LinkedHashMap<K, u64, S>,
    keys: (K, K),
    present: Q,
    absent: Q,
) {
    check_insert(rt, &mut map, keys.0, 1, None);
    check_eq!(rt; (map.get(present), map.get(absent)), (Some(&1), None));
    check_insert(rt, &mut map, keys.1, 2, Some(1));
    check_eq!(rt; (map.get(present), map.get(absent)), (Some(&2), None));
    check_eq!(rt; (map.contains_key(absent), map.len()), (false, 1));
}

/// Looks a present and an absent key up in a map of the default hasher, by which equal keys are to
/// hash alike, and in one in which all keys hash alike.
fn check_lookups<K: Eq + Hash + Debug + Drop, Q: Equivalent<K>>(
    rt: &impl Abort,
    alloc: Global,
    keys: (K, K),
    same_keys: (K, K),
    present: Q,
    absent: Q,
) {
    check_one_key(rt, LinkedHashMap::new(alloc), keys, present, absent);
    let map = LinkedHashMap::with_hasher(alloc, BuildSame { hash: 1 });
    check_one_key(rt, map, same_keys, present, absent);
}

#[test]
fn a_reference_looks_up_a_key(rt: HostRuntime) {
    check_lookups(&rt, rt.alloc(), (1u8, 1), (1, 1), &1, &2);
}

/// Makes two equal texts.
fn two_strings(rt: &impl Abort, alloc: Global, text: &str) -> (String, String) {
    (
        given!(rt; String::from_str(alloc, text)),
        given!(rt; String::from_str(alloc, text)),
    )
}

#[test]
fn a_text_looks_up_a_string(rt: HostRuntime) {
    let keys = two_strings(&rt, rt.alloc(), "one");
    let same_keys = two_strings(&rt, rt.alloc(), "one");
    check_lookups(&rt, rt.alloc(), keys, same_keys, "one", "two");
}

/// Makes two equal texts in boxes.
fn two_boxed_texts(rt: &impl Abort, alloc: Global, text: &str) -> (BoxedStr, BoxedStr) {
    (
        given!(rt; BoxedStr::from_str(alloc, text)),
        given!(rt; BoxedStr::from_str(alloc, text)),
    )
}

#[test]
fn a_text_looks_up_a_boxed_text(rt: HostRuntime) {
    let keys = two_boxed_texts(&rt, rt.alloc(), "one");
    let same_keys = two_boxed_texts(&rt, rt.alloc(), "one");
    check_lookups(&rt, rt.alloc(), keys, same_keys, "one", "two");
}

/// Makes two equal texts with counts of their owners.
fn two_counted_texts(rt: &impl Abort, alloc: Global, text: &str) -> (RcStr, RcStr) {
    (
        given!(rt; RcStr::from_str(alloc, text)),
        given!(rt; RcStr::from_str(alloc, text)),
    )
}

#[test]
fn a_text_looks_up_a_counted_text(rt: HostRuntime) {
    let keys = two_counted_texts(&rt, rt.alloc(), "one");
    let same_keys = two_counted_texts(&rt, rt.alloc(), "one");
    check_lookups(&rt, rt.alloc(), keys, same_keys, "one", "two");
}

#[test]
fn a_text_looks_up_a_lent_text(rt: HostRuntime) {
    check_lookups(
        &rt,
        rt.alloc(),
        ("one", "one"),
        ("one", "one"),
        "one",
        "two",
    );
}

/// Makes two equal vectors.
fn two_vectors(rt: &impl Abort, alloc: Global, items: &[u8]) -> (Vec<u8>, Vec<u8>) {
    (
        given!(rt; Vec::from_slice(alloc, items)),
        given!(rt; Vec::from_slice(alloc, items)),
    )
}

#[test]
fn a_slice_looks_up_a_vector(rt: HostRuntime) {
    let (present, absent): (&[u8], &[u8]) = (&[1, 2], &[1, 3]);
    let keys = two_vectors(&rt, rt.alloc(), present);
    let same_keys = two_vectors(&rt, rt.alloc(), present);
    check_lookups(&rt, rt.alloc(), keys, same_keys, present, absent);
}

/// Makes two equal slices in boxes.
fn two_boxed_slices(
    rt: &impl Abort,
    alloc: Global,
    items: &[u8],
) -> (BoxedSlice<u8>, BoxedSlice<u8>) {
    (
        given!(rt; BoxedSlice::from_slice(alloc, items)),
        given!(rt; BoxedSlice::from_slice(alloc, items)),
    )
}

#[test]
fn a_slice_looks_up_a_boxed_slice(rt: HostRuntime) {
    let (present, absent): (&[u8], &[u8]) = (&[1, 2], &[1, 3]);
    let keys = two_boxed_slices(&rt, rt.alloc(), present);
    let same_keys = two_boxed_slices(&rt, rt.alloc(), present);
    check_lookups(&rt, rt.alloc(), keys, same_keys, present, absent);
}

#[test]
fn a_slice_looks_up_a_lent_slice(rt: HostRuntime) {
    let (present, absent): (&[u8], &[u8]) = (&[1, 2], &[1, 3]);
    check_lookups(
        &rt,
        rt.alloc(),
        (present, present),
        (present, present),
        present,
        absent,
    );
}

/// Makes two items whose comparisons are counted.
fn two_items(compared: &Cell<usize>) -> [Counting<'_>; 2] {
    [
        Counting {
            number: 1,
            compared,
        },
        Counting {
            number: 2,
            compared,
        },
    ]
}

#[test]
fn a_slice_compares_each_item_of_a_vector_once(rt: HostRuntime) {
    let compared = Cell::new(0);
    let items = two_items(&compared);
    let mut map = LinkedHashMap::new(rt.alloc());
    let key = given!(rt; Vec::from_slice(rt.alloc(), &items));
    check!(rt; map.insert(key, 1).is_ok());
    compared.set(0);
    let slice: &[Counting<'_>] = &items;
    check_eq!(rt; (map.get(slice), compared.get()), (Some(&1), 2));
}

#[test]
fn a_slice_compares_each_item_of_a_boxed_slice_once(rt: HostRuntime) {
    let compared = Cell::new(0);
    let items = two_items(&compared);
    let mut map = LinkedHashMap::new(rt.alloc());
    let key = given!(rt; BoxedSlice::from_slice(rt.alloc(), &items));
    check!(rt; map.insert(key, 1).is_ok());
    compared.set(0);
    let slice: &[Counting<'_>] = &items;
    check_eq!(rt; (map.get(slice), compared.get()), (Some(&1), 2));
}

#[test]
fn a_slice_compares_each_item_of_a_lent_slice_once(rt: HostRuntime) {
    let compared = Cell::new(0);
    let items = two_items(&compared);
    let slice: &[Counting<'_>] = &items;
    let mut map = LinkedHashMap::new(rt.alloc());
    check!(rt; map.insert(slice, 1).is_ok());
    compared.set(0);
    check_eq!(rt; (map.get(slice), compared.get()), (Some(&1), 2));
}
