//! Keys and values that are borrowed.

use super::support::calls::{assert_empty, assert_ends, assert_get};
use super::support::checks::{check, check_eq, given};
use linked_hash_map::{Equivalent, LinkedHashMap, Refused};
use std::alloc::{AllocError, Global};
use std::hash::Hash;
use std::process::Abort;

/// How long a map of one borrowed pair is, by each call that borrows the map or iterates over it.
fn lengths_of_one<'a>(
    alloc: Global,
    text: &'a str,
) -> Result<(usize, usize, usize, usize), Refused<&'a str, &'a str>> {
    let mut map = LinkedHashMap::new(alloc);
    map.insert(text, text)?;
    let lengths = (map.len(), map.iter().len(), map.iter_mut().len());
    Ok((lengths.0, lengths.1, lengths.2, map.into_iter().len()))
}

#[test]
fn holds_borrowed_text(rt: HostRuntime) {
    let lengths = given!(rt; lengths_of_one(rt.alloc(), "one"));
    check_eq!(rt; lengths, (1, 1, 1, 1));
}

/// Inserts each number as its own value, all by reference.
fn insert_each<'a>(rt: &impl Abort, map: &mut LinkedHashMap<&'a u8, &'a u8>, numbers: &'a [u8]) {
    for number in numbers {
        check!(rt; map.insert(number, number).is_ok());
    }
}

/// Checks that each number is the value of itself.
fn assert_each<'a>(rt: &impl Abort, map: &LinkedHashMap<&'a u8, &'a u8>, numbers: &'a [u8]) {
    for number in numbers {
        assert_get(rt, map, &number, Some(&number));
    }
}

#[test]
fn holds_what_is_borrowed(rt: HostRuntime) {
    let numbers = [3, 1, 2];
    let mut map = LinkedHashMap::new(rt.alloc());
    insert_each(&rt, &mut map, &numbers);
    assert_each(&rt, &map, &numbers);
    assert_get(&rt, &map, &&4, None);
    assert_ends(&rt, &map, Some((&&3, &&3)), Some((&&2, &&2)));
    check_eq!(rt; map.drain().len(), 3);
    assert_empty(&rt, &map);
}

/// Whether a map has a key, by what looks it up.
fn has<K: Eq + Hash, Q: Equivalent<K>>(map: &LinkedHashMap<K, u64>, key: Q) -> bool {
    map.contains_key(key) && map.get(key).is_some() && map.get_key_value(key).is_some()
}

/// Whether a map has a key.
fn has_key<K: Eq + Hash + Drop>(map: &LinkedHashMap<K, u64>, key: K) -> bool {
    map.contains_key(&key) && has(map, &key)
}

/// Looks numbers up in a map whose first call is a lookup.
fn look_numbers_up(rt: &impl Abort, alloc: Global) {
    let mut map = LinkedHashMap::new(alloc);
    check_eq!(rt; map.get(&5), None);
    given!(rt; map.insert(5, 1));
    let (key, keys) = (5, [5]);
    let lent = &key;
    check_eq!(rt; (map.get(&key), map.get(lent), map.get(&keys[0])), (Some(&1), Some(&1), Some(&1)));
    check!(rt; has_key(&map, 5) && has(&map, lent));
    for key in keys.iter() {
        check_eq!(rt; map.get_mut(key), Some(&mut 1));
        check_eq!(rt; map.remove(key), Some(1));
    }
}

/// Reads the value of a lent text by index.
fn index_lent_texts(rt: &impl Abort, map: &LinkedHashMap<&str, u64>) {
    check!(rt; map.contains_key("a") && map["a"] == 1);
    check!(rt; map.contains_key(&"a") && map[&"a"] == 1);
}

/// Looks texts up that are lent, by texts and by references to them.
fn look_lent_texts_up(rt: &impl Abort, alloc: Global) {
    let mut map = LinkedHashMap::new(alloc);
    given!(rt; map.insert("a", 1));
    check_eq!(rt; (map.get(&"a"), map.get("a"), map.get(&"b")), (Some(&1), Some(&1), None));
    check_eq!(rt; map.get_refresh(&"a"), Some(&mut 1));
    index_lent_texts(rt, &map);
    check_eq!(rt; (map.remove_entry("a"), map.remove(&"a")), (Some(("a", 1)), None));
}

/// Makes a map of two texts, `a` first.
fn two_texts(alloc: Global) -> Result<LinkedHashMap<String, u64>, AllocError> {
    let mut map = LinkedHashMap::with_capacity(alloc, 2).map_err(|_refused| AllocError)?;
    for text in ["a", "b"] {
        map.insert(String::from_str(alloc, text)?, 1)
            .map_err(|_refused| AllocError)?;
    }
    Ok(map)
}

/// Reads the value of a text by index.
fn index_texts(rt: &impl Abort, map: &LinkedHashMap<String, u64>) {
    check!(rt; map.contains_key("a") && map["a"] == 1);
}

/// Looks texts up by literals and by a longer text.
fn look_texts_up(rt: &impl Abort, map: &mut LinkedHashMap<String, u64>, text: &str) {
    check_eq!(rt; (map.get("a"), map.get(text)), (Some(&1), None));
    check_eq!(rt; map.get_refresh("a"), Some(&mut 1));
    index_texts(rt, map);
    check_eq!(rt; map.back().map(|(key, _)| key.as_str()), Some("a"));
    check_eq!(rt; map.get_mut("b"), Some(&mut 1));
    check_eq!(rt; (map.remove("b"), map.remove("b")), (Some(1), None));
    check_eq!(rt; map.remove_entry("a").map(|(_, value)| value), Some(1));
}

/// Looks a list of numbers up by a part of another one.
fn look_lists_up(rt: &impl Abort, alloc: Global) {
    let mut map = LinkedHashMap::new(alloc);
    let list: Vec<u8> = given!(rt; Vec::from_array(alloc, [1, 2]));
    given!(rt; map.insert(list, 3));
    let numbers: &[u8] = &[1, 2, 3];
    check_eq!(rt; (map.get(&numbers[..2]), map.get(numbers)), (Some(&3), None));
    check!(rt; map.remove(&numbers[..2]).is_some());
}

#[test]
fn looks_keys_up_by_borrowed_forms(rt: HostRuntime) {
    look_numbers_up(&rt, rt.alloc());
    look_lent_texts_up(&rt, rt.alloc());
    look_texts_up(&rt, &mut given!(rt; two_texts(rt.alloc())), "ab");
    look_lists_up(&rt, rt.alloc());
}
