//! Entries with their cursor, and iterators.

use super::super::support::checks::{check, check_eq, given};
use super::map::{
    clone, drain, entries, entry, extend, into_iter, iter, iter_mut, keys, len, new, values,
};
use linked_hash_map::{
    Drain, Entries, Entry, IntoIter, Iter, IterMut, Keys, LinkedHashMap, OccupiedEntry, Refused,
    VacantEntry, Values,
};
use std::alloc::{AllocError, Global};
use std::hash::{BuildHasher, Hash};
use std::process::Abort;

fn entry_key<'e, K: Eq + Hash, V, S: BuildHasher>(entry: &'e Entry<'_, K, V, S>) -> &'e K {
    entry.key()
}

fn entry_and_modify<'a, K: Eq + Hash + Drop, S: BuildHasher>(
    entry: Entry<'a, K, u64, S>,
) -> Entry<'a, K, u64, S> {
    entry.and_modify(|value| *value = 9)
}

fn entry_or_insert<'a, K: Eq + Hash + Drop, V: Drop, S: BuildHasher>(
    entry: Entry<'a, K, V, S>,
    v: V,
) -> Result<&'a mut V, Refused<K, V>> {
    entry.or_insert(v)
}

fn entry_or_insert_with<'a, K: Eq + Hash + Drop, S: BuildHasher>(
    entry: Entry<'a, K, u64, S>,
) -> Result<&'a mut u64, Refused<K, u64>> {
    entry.or_insert_with(|| 7)
}

fn entry_or_default<'a, K: Eq + Hash + Drop, V: Default + Drop, S: BuildHasher>(
    entry: Entry<'a, K, V, S>,
) -> Result<&'a mut V, Refused<K, V>> {
    entry.or_default()
}

fn occupied_key<'e, K: Eq + Hash, V, S: BuildHasher>(
    entry: &'e OccupiedEntry<'_, K, V, S>,
) -> &'e K {
    entry.key()
}

fn occupied_get<'e, K: Eq + Hash, V, S: BuildHasher>(
    entry: &'e OccupiedEntry<'_, K, V, S>,
) -> &'e V {
    entry.get()
}

fn occupied_get_mut<'e, K: Eq + Hash, V, S: BuildHasher>(
    entry: &'e mut OccupiedEntry<'_, K, V, S>,
) -> &'e mut V {
    entry.get_mut()
}

fn occupied_into_mut<'a, K: Eq + Hash, V, S: BuildHasher>(
    entry: OccupiedEntry<'a, K, V, S>,
) -> &'a mut V {
    entry.into_mut()
}

fn occupied_insert<K: Eq + Hash, V, S: BuildHasher>(
    entry: &mut OccupiedEntry<'_, K, V, S>,
    v: V,
) -> V {
    entry.insert(v)
}

fn occupied_remove<K: Eq + Hash + Drop, V, S: BuildHasher>(entry: OccupiedEntry<'_, K, V, S>) -> V {
    entry.remove()
}

fn vacant_key<'e, K: Eq + Hash, V, S: BuildHasher>(entry: &'e VacantEntry<'_, K, V, S>) -> &'e K {
    entry.key()
}

fn vacant_insert<'a, K: Eq + Hash + Drop, V: Drop, S: BuildHasher>(
    entry: VacantEntry<'a, K, V, S>,
    v: V,
) -> Result<&'a mut V, Refused<K, V>> {
    entry.insert(v)
}

fn entries_next<'e, K: Eq + Hash, V, S: BuildHasher>(
    cursor: &'e mut Entries<'_, K, V, S>,
) -> Option<OccupiedEntry<'e, K, V, S>> {
    cursor.next()
}

fn entries_remaining<K: Eq + Hash, V, S: BuildHasher>(cursor: &Entries<'_, K, V, S>) -> usize {
    cursor.remaining()
}

/// The variants of an entry.
fn is_occupied<K: Eq + Hash, V, S: BuildHasher>(entry: &Entry<'_, K, V, S>) -> bool {
    match entry {
        Entry::Occupied(_) => true,
        Entry::Vacant(_) => false,
    }
}

/// Calls the entry of an absent key. The borrow checker covers no call of a generic function that
/// takes an entry.
pub fn call_vacant(rt: &impl Abort, alloc: Global) {
    let mut map: LinkedHashMap<u64, u64> = new(alloc);
    let vacant = entry(&mut map, 1);
    check!(rt; !is_occupied(&vacant));
    check_eq!(rt; *entry_key(&vacant), 1);
}

/// Visits the pairs (1, 10), (2, 20) and (3, 30).
fn visit(rt: &impl Abort, map: &mut LinkedHashMap<u64, u64>) {
    let mut cursor = entries(map);
    check_eq!(rt; entries_remaining(&cursor), 3);
    let mut first = given!(rt; entries_next(&mut cursor).ok_or("no entry"));
    check_eq!(rt; (*occupied_key(&first), *occupied_get(&first)), (1, 10));
    *occupied_get_mut(&mut first) = 11;
    check_eq!(rt; occupied_insert(&mut first, 12), 11);
    let second = given!(rt; entries_next(&mut cursor).ok_or("no entry"));
    check_eq!(rt; occupied_remove(second), 20);
    let third = given!(rt; entries_next(&mut cursor).ok_or("no entry"));
    *occupied_into_mut(third) = 31;
    check!(rt; entries_next(&mut cursor).is_none());
}

fn iter_traits<'a, K, V>(
    mut iter: Iter<'a, K, V>,
) -> (usize, Option<(&'a K, &'a V)>, Option<(&'a K, &'a V)>) {
    (iter.len(), iter.next(), iter.next_back())
}

fn iter_mut_traits<'a, K, V>(
    mut iter: IterMut<'a, K, V>,
) -> (
    usize,
    Option<(&'a K, &'a mut V)>,
    Option<(&'a K, &'a mut V)>,
) {
    (iter.len(), iter.next(), iter.next_back())
}

fn into_iter_traits<K: Drop, V: Drop>(
    mut iter: IntoIter<K, V>,
) -> (usize, Option<(K, V)>, Option<(K, V)>) {
    (iter.len(), iter.next(), iter.next_back())
}

fn drain_traits<K: Drop, V: Drop>(
    mut iter: Drain<'_, K, V>,
) -> (usize, Option<(K, V)>, Option<(K, V)>) {
    (iter.len(), iter.next(), iter.next_back())
}

fn keys_traits<'a, K, V>(mut iter: Keys<'a, K, V>) -> (usize, Option<&'a K>, Option<&'a K>) {
    (iter.len(), iter.next(), iter.next_back())
}

fn values_traits<'a, K, V>(mut iter: Values<'a, K, V>) -> (usize, Option<&'a V>, Option<&'a V>) {
    (iter.len(), iter.next(), iter.next_back())
}

fn iter_clone<'a, K, V>(iter: &Iter<'a, K, V>) -> Result<Iter<'a, K, V>, AllocError> {
    iter.clone()
}

fn keys_clone<'a, K, V>(iter: &Keys<'a, K, V>) -> Result<Keys<'a, K, V>, AllocError> {
    iter.clone()
}

fn values_clone<'a, K, V>(iter: &Values<'a, K, V>) -> Result<Values<'a, K, V>, AllocError> {
    iter.clone()
}

fn into_iter_clone<K: Clone, V: Clone>(
    iter: &IntoIter<K, V>,
) -> Result<IntoIter<K, V>, AllocError> {
    iter.clone()
}

fn drop_into_iter<K: Drop, V: Drop>(iter: IntoIter<K, V>) {
    drop(iter)
}

fn drop_drain<K: Drop, V: Drop>(iter: Drain<'_, K, V>) {
    drop(iter)
}

/// Calls the iterators that borrow a map that has (3, 31) and (1, 12).
fn iterate(rt: &impl Abort, map: &mut LinkedHashMap<u64, u64>) {
    check_eq!(rt; iter_traits(iter(map)), (2, Some((&3, &31)), Some((&1, &12))));
    check_eq!(rt; keys_traits(keys(map)), (2, Some(&3), Some(&1)));
    check_eq!(rt; values_traits(values(map)), (2, Some(&31), Some(&12)));
    check_eq!(rt; given!(rt; iter_clone(&iter(map))).len(), 2);
    check_eq!(rt; given!(rt; keys_clone(&keys(map))).len(), 2);
    check_eq!(rt; given!(rt; values_clone(&values(map))).len(), 2);
    check_eq!(rt; iter_mut_traits(iter_mut(map)).0, 2);
}

/// Calls the iterators that hand out the pairs of such a map.
fn hand_out(rt: &impl Abort, mut map: LinkedHashMap<u64, u64>) {
    let copy = into_iter(given!(rt; clone(&map)));
    let pairs = given!(rt; into_iter_clone(&copy));
    check_eq!(rt; into_iter_traits(pairs), (2, Some((3, 31)), Some((1, 12))));
    drop_into_iter(copy);
    check_eq!(rt; drain_traits(drain(&mut map)), (2, Some((3, 31)), Some((1, 12))));
    drop_drain(drain(&mut map));
    check_eq!(rt; len(&map), 0);
}

/// Calls the cursor and the iterators.
pub fn walk(rt: &impl Abort, alloc: Global) {
    let mut map = new(alloc);
    let items = given!(rt; vec![in alloc; (1, 10), (2, 20), (3, 30)]);
    check_eq!(rt; extend(&mut map, items), Ok(()));
    visit(rt, &mut map);
    iterate(rt, &mut map);
    hand_out(rt, map);
}
