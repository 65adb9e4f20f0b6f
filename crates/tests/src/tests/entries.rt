//! Entries: values that `or_default` makes, and a vacant entry whose key is taken.

use super::references::say_if_given;
use super::support::checks::{check_eq, given};
use linked_hash_map::{Entry, LinkedHashMap};
use std::alloc::{AllocError, Global};
use std::default::MadeWith;
use std::fmt::Debug;
use std::process::Abort;

/// Checks which value is made for an absent key.
fn assert_made<V: MadeWith<Global> + PartialEq + Debug + Drop>(
    rt: &impl Abort,
    alloc: Global,
    wanted: &V,
) {
    let mut map = LinkedHashMap::new(alloc);
    check_eq!(rt; &*given!(rt; map.entry(1).or_default()), wanted);
}

#[test]
fn makes_a_number_a_vector_a_text_and_a_map(rt: HostRuntime) {
    assert_made(&rt, rt.alloc(), &0_u64);
    assert_made(&rt, rt.alloc(), &Vec::<u32>::new(rt.alloc()));
    assert_made(&rt, rt.alloc(), &String::new(rt.alloc()));
    assert_made(&rt, rt.alloc(), &LinkedHashMap::<u64, u64>::new(rt.alloc()));
}

/// Makes a map of the numbers by their remainders modulo 3.
fn by_remainder(
    alloc: Global,
    numbers: &[u32],
) -> Result<LinkedHashMap<u32, Vec<u32>>, AllocError> {
    let mut map: LinkedHashMap<u32, Vec<u32>> = LinkedHashMap::new(alloc);
    for number in numbers {
        map.entry(*number % 3).or_default()?.push(*number)?;
    }
    Ok(map)
}

/// Checks the numbers of a key.
fn assert_numbers(rt: &impl Abort, map: &LinkedHashMap<u32, Vec<u32>>, key: u32, wanted: &[u32]) {
    check_eq!(rt; map.get(&key).map(|numbers| numbers.as_slice()), Some(wanted));
}

#[test]
fn pushes_onto_vectors_that_are_made(rt: HostRuntime) {
    let map = given!(rt; by_remainder(rt.alloc(), &[5, 3, 2, 6, 8]));
    assert_numbers(&rt, &map, 2, &[5, 2, 8]);
    assert_numbers(&rt, &map, 0, &[3, 6]);
}

/// A value that asks for a box when it is made, and has none if that is refused.
#[derive(Drop)]
struct Boxed(Option<Box<u64>>);

impl MadeWith<Global> for Boxed {
    fn made_with(alloc: Global) -> Self {
        Boxed(Box::new(alloc, 7).ok())
    }
}

/// Makes a value for a key, and returns whether it has a box and there was memory for the pair.
fn make(map: &mut LinkedHashMap<u64, Boxed>, key: u64) -> (bool, bool) {
    match map.entry(key).or_default() {
        Ok(value) => (value.0.is_some(), true),
        Err(refused) => (refused.value.0.is_some(), false),
    }
}

#[test]
fn refused_default_asks_before_the_growth(rt: HostRuntime) {
    // Only the first growth is told from the others, and it is that of the value: a refused pair
    // comes back with its box.
    let mut map = LinkedHashMap::new(rt.alloc());
    let (is_boxed, _) = make(&mut map, 1);
    say_if_given(&rt, is_boxed, 1);
}

#[test]
fn refused_default_is_not_made_for_a_present_key(rt: HostRuntime) {
    // The growths: the box of the value; buckets and a chunk; one that the test asks for itself.
    let mut map = LinkedHashMap::new(rt.alloc());
    let first = make(&mut map, 1);
    make(&mut map, 1);
    say_if_given(&rt, first == (true, true), 4);
}

/// Takes the key of a vacant entry, if it is vacant.
fn taken_key(map: &mut LinkedHashMap<u64, u64>, key: u64) -> Option<u64> {
    match map.entry(key) {
        Entry::Vacant(entry) => Some(entry.into_key()),
        Entry::Occupied(_entry) => None,
    }
}

#[test]
fn refused_growth_is_not_asked_for_by_a_key_that_is_taken(rt: HostRuntime) {
    // The one growth is asked for by the test itself.
    let mut map = LinkedHashMap::new(rt.alloc());
    check_eq!(rt; taken_key(&mut map, 3), Some(3));
    say_if_given(&rt, map.is_empty(), 1);
}
