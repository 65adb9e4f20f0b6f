//! Calls that compare two maps, hash one or show it.

use super::Map;
use super::call::Call;
use super::copied::CopiedKey;
use super::hasher::BuildKeyHasher;
use super::value::Value;
use linked_hash_map::{LinkedHashMap, ReserveError};
use std::hash::BuildHasher;

/// A map whose keys are compared as they are.
type Ordered<'k> = LinkedHashMap<CopiedKey<'k>, Value>;

/// Makes a map of the same pairs whose keys are compared as they are.
pub fn ordered<'k>(call: &Call, map: &'k Map) -> Ordered<'k> {
    let mut ordered = Ordered::new(call.alloc);
    for (key, value) in map.iter() {
        call.note(ordered.insert(key.ordered(), value.copy()));
    }
    ordered
}

/// Appends the debug text of a map with the default hasher and the pair of a number.
fn show_new(call: &Call) {
    let mut map: LinkedHashMap<u64, u64> = LinkedHashMap::new(call.alloc);
    let number = call.number();
    call.show_refusal(map.insert(number, number));
    call.show(&map);
}

/// Does so with a map of a capacity, and appends the capacity too.
fn show_new_with_capacity(call: &Call) {
    let (capacity, number) = (call.size(), call.number());
    let made: Result<LinkedHashMap<u64, u64>, ReserveError> = LinkedHashMap::with_capacity(
        call.alloc, capacity,
    );
    match made {
        Ok(mut map) => {
            call.show_refusal(map.insert(number, number));
            call.show_two(&map, &map.capacity());
        }
        Err(refused) => call.show_refusal(Err::<(), _>(refused)),
    }
}

/// Appends the debug text of a map over several lines, as that of a string.
fn show_pretty(call: &Call, map: &Map) {
    call.end();
    match format!(in call.alloc; "{map:#?}") {
        Ok(text) => call.show(&text),
        Err(refused) => call.note(Err::<(), _>(refused)),
    }
}

/// Appends whether two collections are equal. Each comparison is within a window.
pub fn show_equal<T: PartialEq>(this: &T, other: &T, call: &Call) {
    call.begin();
    call.show(&(*this == *other));
    call.begin();
    call.show(&(*this != *other));
}

/// Appends which of two maps is less, if they have an order. Each comparison is within a window.
fn partial_compare<M: PartialOrd>(map: &M, other: &M, call: &Call) {
    call.begin();
    call.show(&map.partial_cmp(other));
    call.begin();
    call.show_two(&(*map < *other), &(*map <= *other));
    call.begin();
    call.show_two(&(*map > *other), &(*map >= *other));
}

/// Appends which of two maps of the same pairs is less.
fn compare(call: &Call, map: &Map, other: &Map) {
    call.end();
    let map = ordered(call, map);
    let other = ordered(call, other);
    call.begin();
    call.show(&map.cmp(&other));
    partial_compare(&map, &other, call);
}

/// Runs the call of a line, and returns whether there is one.
pub fn run(call: &Call, map: &Map, other: &Map) -> bool {
    match call.name() {
        "eq" => show_equal(map, other, call),
        "cmp" => compare(call, map, other),
        "partial_cmp" => partial_compare(map, other, call),
        "new" => show_new(call),
        "new_with_capacity" => show_new_with_capacity(call),
        "hash" => call.show(&BuildKeyHasher::default().hash_one(map)),
        "debug" => call.show_within(map),
        "debug_pretty" => show_pretty(call, map),
        _ => return false,
    }
    true
}
