//! Calls and traits of a map.

use super::super::support::checks::{check, check_eq, given};
use super::super::support::hashers::{BuildSame, Written};
use linked_hash_map::{
    Drain, Entries, Entry, IntoIter, Iter, IterMut, Keys, LIMIT, LinkedHashMap, Mode, NoRoom,
    Probe, Refused, ReserveError, Values,
};
use std::alloc::{AllocError, Global};
use std::cmp::Ordering;
use std::fmt::Debug;
use std::hash::{BuildHasher, Hash, Hasher};
use std::process::Abort;

const MAP_LIMIT: usize = LIMIT;

pub(super) fn new<K: Eq + Hash, V>(alloc: Global) -> LinkedHashMap<K, V> {
    LinkedHashMap::new(alloc)
}

fn with_capacity<K: Eq + Hash, V>(
    alloc: Global,
    n: usize,
) -> Result<LinkedHashMap<K, V>, ReserveError> {
    LinkedHashMap::with_capacity(alloc, n)
}

fn with_hasher<K: Eq + Hash, V, S: BuildHasher>(alloc: Global, s: S) -> LinkedHashMap<K, V, S> {
    LinkedHashMap::with_hasher(alloc, s)
}

fn with_capacity_and_hasher<K: Eq + Hash, V, S: BuildHasher + Drop>(
    alloc: Global,
    n: usize,
    s: S,
) -> Result<LinkedHashMap<K, V, S>, ReserveError> {
    LinkedHashMap::with_capacity_and_hasher(alloc, n, s)
}

fn reserve<K: Eq + Hash, V, S: BuildHasher>(
    map: &mut LinkedHashMap<K, V, S>,
    a: usize,
) -> Result<(), ReserveError> {
    map.reserve(a)
}

fn shrink_to_fit<K: Eq + Hash, V, S: BuildHasher>(
    map: &mut LinkedHashMap<K, V, S>,
) -> Result<(), NoRoom> {
    map.shrink_to_fit()
}

fn insert<K: Eq + Hash + Drop, V, S: BuildHasher>(
    map: &mut LinkedHashMap<K, V, S>,
    k: K,
    v: V,
) -> Result<Option<V>, Refused<K, V>> {
    map.insert(k, v)
}

fn get<'a, K: Eq + Hash, V, S: BuildHasher>(
    map: &'a LinkedHashMap<K, V, S>,
    k: &K,
) -> Option<&'a V> {
    map.get(k)
}

fn get_mut<'a, K: Eq + Hash, V, S: BuildHasher>(
    map: &'a mut LinkedHashMap<K, V, S>,
    k: &K,
) -> Option<&'a mut V> {
    map.get_mut(k)
}

fn get_refresh<'a, K: Eq + Hash, V, S: BuildHasher>(
    map: &'a mut LinkedHashMap<K, V, S>,
    k: &K,
) -> Option<&'a mut V> {
    map.get_refresh(k)
}

fn get_counted<'a, K: Eq + Hash, V, S: BuildHasher>(
    map: &'a LinkedHashMap<K, V, S>,
    k: &K,
) -> (Option<&'a V>, Probe) {
    map.get_counted(k)
}

fn rechained<K: Eq + Hash, V, S: BuildHasher>(map: &LinkedHashMap<K, V, S>) -> usize {
    map.rechained()
}

fn contains_key<K: Eq + Hash, V, S: BuildHasher>(map: &LinkedHashMap<K, V, S>, k: &K) -> bool {
    map.contains_key(k)
}

fn remove<K: Eq + Hash + Drop, V, S: BuildHasher>(
    map: &mut LinkedHashMap<K, V, S>,
    k: &K,
) -> Option<V> {
    map.remove(k)
}

fn front<K: Eq + Hash, V, S: BuildHasher>(map: &LinkedHashMap<K, V, S>) -> Option<(&K, &V)> {
    map.front()
}

fn back<K: Eq + Hash, V, S: BuildHasher>(map: &LinkedHashMap<K, V, S>) -> Option<(&K, &V)> {
    map.back()
}

fn pop_front<K: Eq + Hash, V, S: BuildHasher>(map: &mut LinkedHashMap<K, V, S>) -> Option<(K, V)> {
    map.pop_front()
}

fn pop_back<K: Eq + Hash, V, S: BuildHasher>(map: &mut LinkedHashMap<K, V, S>) -> Option<(K, V)> {
    map.pop_back()
}

pub(super) fn len<K: Eq + Hash, V, S: BuildHasher>(map: &LinkedHashMap<K, V, S>) -> usize {
    map.len()
}

fn is_empty<K: Eq + Hash, V, S: BuildHasher>(map: &LinkedHashMap<K, V, S>) -> bool {
    map.is_empty()
}

fn capacity<K: Eq + Hash, V, S: BuildHasher>(map: &LinkedHashMap<K, V, S>) -> usize {
    map.capacity()
}

fn hasher<K: Eq + Hash, V, S: BuildHasher>(map: &LinkedHashMap<K, V, S>) -> &S {
    map.hasher()
}

fn clear<K: Eq + Hash + Drop, V: Drop, S: BuildHasher>(map: &mut LinkedHashMap<K, V, S>) {
    map.clear()
}

fn set_mode<K: Eq + Hash, V, S: BuildHasher>(map: &mut LinkedHashMap<K, V, S>, m: Mode) {
    map.set_mode(m)
}

fn mode<K: Eq + Hash, V, S: BuildHasher>(map: &LinkedHashMap<K, V, S>) -> Mode {
    map.mode()
}

pub(super) fn entry<K: Eq + Hash + Drop, V, S: BuildHasher>(
    map: &mut LinkedHashMap<K, V, S>,
    k: K,
) -> Entry<'_, K, V, S> {
    map.entry(k)
}

pub(super) fn entries<K: Eq + Hash, V, S: BuildHasher>(
    map: &mut LinkedHashMap<K, V, S>,
) -> Entries<'_, K, V, S> {
    map.entries()
}

pub(super) fn iter<K: Eq + Hash, V, S: BuildHasher>(
    map: &LinkedHashMap<K, V, S>,
) -> Iter<'_, K, V> {
    map.iter()
}

pub(super) fn iter_mut<K: Eq + Hash, V, S: BuildHasher>(
    map: &mut LinkedHashMap<K, V, S>,
) -> IterMut<'_, K, V> {
    map.iter_mut()
}

pub(super) fn drain<K: Eq + Hash, V, S: BuildHasher>(
    map: &mut LinkedHashMap<K, V, S>,
) -> Drain<'_, K, V> {
    map.drain()
}

pub(super) fn keys<K: Eq + Hash, V, S: BuildHasher>(
    map: &LinkedHashMap<K, V, S>,
) -> Keys<'_, K, V> {
    map.keys()
}

pub(super) fn values<K: Eq + Hash, V, S: BuildHasher>(
    map: &LinkedHashMap<K, V, S>,
) -> Values<'_, K, V> {
    map.values()
}

// The error of `Clone` stands in the place of `NoRoom`.
pub(super) fn clone<K: Eq + Hash + Clone, V: Clone, S: BuildHasher + Clone>(
    map: &LinkedHashMap<K, V, S>,
) -> Result<LinkedHashMap<K, V, S>, AllocError> {
    map.clone()
}

pub(super) fn extend<K: Eq + Hash + Drop, V: Drop, S: BuildHasher>(
    map: &mut LinkedHashMap<K, V, S>,
    items: Vec<(K, V)>,
) -> Result<(), Refused<K, V>> {
    map.extend(items)
}

fn extend_refs<K: Eq + Hash + Copy, V: Copy, S: BuildHasher>(
    map: &mut LinkedHashMap<K, V, S>,
    items: &LinkedHashMap<K, V, S>,
) -> Result<(), Refused<K, V>> {
    map.extend_refs(items)
}

fn append<K: Eq + Hash + Drop, V: Drop, S: BuildHasher, S2: BuildHasher>(
    map: &mut LinkedHashMap<K, V, S>,
    other: &mut LinkedHashMap<K, V, S2>,
) -> Result<(), ReserveError> {
    map.append(other)
}

fn from_iter<K: Eq + Hash + Drop, V: Drop, S: BuildHasher + Default + Drop>(
    alloc: Global,
    items: Vec<(K, V)>,
) -> Result<LinkedHashMap<K, V, S>, ReserveError> {
    LinkedHashMap::from_iter(alloc, items)
}

fn index<'a, K: Eq + Hash, V, S: BuildHasher>(
    map: &'a LinkedHashMap<K, V, S>,
    k: &K,
) -> Option<&'a V> {
    if map.contains_key(k) {
        Some(&map[k])
    } else {
        None
    }
}

fn index_mut<K: Eq + Hash, V: Drop, S: BuildHasher>(map: &mut LinkedHashMap<K, V, S>, k: &K, v: V) {
    if map.contains_key(k) {
        map[k] = v;
    }
}

fn eq<K: Eq + Hash, V: PartialEq, S: BuildHasher>(
    map: &LinkedHashMap<K, V, S>,
    other: &LinkedHashMap<K, V, S>,
) -> bool {
    map == other
}

fn partial_cmp<K: Eq + Hash + PartialOrd, V: PartialOrd, S: BuildHasher>(
    map: &LinkedHashMap<K, V, S>,
    other: &LinkedHashMap<K, V, S>,
) -> Option<Ordering> {
    map.partial_cmp(other)
}

fn cmp<K: Ord + Hash, V: Ord, S: BuildHasher>(
    map: &LinkedHashMap<K, V, S>,
    other: &LinkedHashMap<K, V, S>,
) -> Ordering {
    map.cmp(other)
}

fn hash<K: Eq + Hash, V: Hash, S: BuildHasher, H: Hasher>(
    map: &LinkedHashMap<K, V, S>,
    state: &mut H,
) {
    map.hash(state)
}

fn debug<K: Eq + Hash + Debug, V: Debug, S: BuildHasher>(
    alloc: Global,
    map: &LinkedHashMap<K, V, S>,
) -> Result<String, AllocError> {
    format!(in alloc; "{map:?}")
}

fn drop_map<K: Eq + Hash + Drop, V: Drop, S: BuildHasher + Drop>(map: LinkedHashMap<K, V, S>) {
    drop(map)
}

pub(super) fn into_iter<K: Eq + Hash + Drop, V: Drop, S: BuildHasher + Drop>(
    map: LinkedHashMap<K, V, S>,
) -> IntoIter<K, V> {
    map.into_iter()
}

fn into_iter_of_ref<K: Eq + Hash, V, S: BuildHasher>(
    map: &LinkedHashMap<K, V, S>,
) -> Iter<'_, K, V> {
    map.into_iter()
}

fn into_iter_of_mut<K: Eq + Hash, V, S: BuildHasher>(
    map: &mut LinkedHashMap<K, V, S>,
) -> IterMut<'_, K, V> {
    map.into_iter()
}

/// Calls what makes a map.
pub fn make_maps(rt: &impl Abort, alloc: Global) {
    let map: LinkedHashMap<u64, u64> = new(alloc);
    check_eq!(rt; (len(&map), is_empty(&map), capacity(&map)), (0, true, 0));
    let map: LinkedHashMap<u64, u64> = given!(rt; with_capacity(alloc, 3));
    check_eq!(rt; capacity(&map), 3);
    let map: LinkedHashMap<u64, u64, BuildSame> = with_hasher(alloc, BuildSame { hash: 7 });
    check_eq!(rt; *hasher(&map), BuildSame { hash: 7 });
    let map: LinkedHashMap<u64, u64, BuildSame> =
        given!(rt; with_capacity_and_hasher(alloc, 3, BuildSame { hash: 7 }));
    check_eq!(rt; (capacity(&map), hasher(&map).hash), (3, 7));
    let items = given!(rt; vec![in alloc; (1, 10), (2, 20)]);
    let map: LinkedHashMap<u64, u64> = given!(rt; from_iter(alloc, items));
    check_eq!(rt; (back(&map), capacity(&map)), (Some((&2, &20)), 2));
    let too_many: Result<LinkedHashMap<u64, u64>, ReserveError> = with_capacity(
        alloc,
        MAP_LIMIT + 1,
    );
    check!(rt; too_many == Err(ReserveError::TooLarge));
}

/// Looks up and removes keys of a map that has (2, 20) and (1, 11).
fn look_up(rt: &impl Abort, map: &mut LinkedHashMap<u64, u64>) {
    check_eq!(rt; (get(map, &1), contains_key(map, &3)), (Some(&11), false));
    check_eq!(rt; get_mut(map, &1).copied(), Some(11));
    check_eq!(rt; get_refresh(map, &2).copied(), Some(20));
    check_eq!(rt; (front(map), back(map)), (Some((&1, &11)), Some((&2, &20))));
    check_eq!(rt; get_counted(map, &2).0, Some(&20));
    check_eq!(rt; rechained(map), 1);
    check_eq!(rt; remove(map, &1), Some(11));
}

/// Does the calls that change a map.
pub fn change(rt: &impl Abort, alloc: Global, map: &mut LinkedHashMap<u64, u64>) {
    check_eq!(rt; insert(map, 1, 10), Ok(None));
    check_eq!(rt; insert(map, 2, 20), Ok(None));
    check_eq!(rt; insert(map, 1, 11), Ok(Some(10)));
    look_up(rt, map);
    check_eq!(rt; (reserve(map, 3), capacity(map)), (Ok(()), 4));
    check_eq!(rt; (shrink_to_fit(map), capacity(map)), (Ok(()), 1));
    check_eq!(rt; extend(map, given!(rt; vec![in alloc; (3, 30), (4, 40)])), Ok(()));
    check_eq!(rt; (pop_front(map), pop_back(map)), (Some((2, 20)), Some((4, 40))));
    let mut copy = given!(rt; clone(map));
    clear(map);
    check_eq!(rt; (len(map), mode(map)), (0, Mode::Touch));
    set_mode(map, Mode::Keep);
    check_eq!(rt; (extend_refs(map, &copy), mode(map)), (Ok(()), Mode::Keep));
    check_eq!(rt; front(map), Some((&3, &30)));
    check_eq!(rt; (append(map, &mut copy), len(&copy)), (Ok(()), 0));
}

/// Calls the traits of a map that has (3, 30).
pub fn call_traits(rt: &impl Abort, alloc: Global, mut map: LinkedHashMap<u64, u64>) {
    let other = given!(rt; clone(&map));
    index_mut(&mut map, &3, 31);
    check_eq!(rt; (index(&map, &3), index(&map, &4)), (Some(&31), None));
    check_eq!(rt; (eq(&map, &other), cmp(&map, &other)), (false, Ordering::Greater));
    check_eq!(rt; partial_cmp(&other, &map), Some(Ordering::Less));
    check_eq!(rt; given!(rt; debug(alloc, &map)).as_str(), "{3: 31}");
    let mut written = Written::new();
    hash(&map, &mut written);
    check_eq!(rt; written.len, 16);
    check_eq!(rt; into_iter_of_ref(&map).next(), Some((&3, &31)));
    check_eq!(rt; into_iter_of_mut(&mut map).len(), 1);
    check_eq!(rt; into_iter(map).next(), Some((3, 31)));
    drop_map(other);
}
