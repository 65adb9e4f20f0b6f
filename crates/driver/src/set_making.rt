//! Calls that make a set, and those that take items in.

use super::call::Call;
use super::sets::Set;
use linked_hash_set::{LinkedHashSet, ReserveError};
use std::alloc::AllocError;
use std::default::{Emptied, MadeWith};

/// Makes a set of the words, by an iterator that knows how many they are.
fn from_iter(call: &Call, set: &mut Set) {
    let count = call.words_left();
    let items = (0..count).map(|_| call.key());
    call.store(set, Set::from_iter(call.alloc, items));
}

/// Makes a set of the words by `collect`.
fn collect(call: &Call, set: &mut Set) {
    let made: Result<Set, AllocError> = call.keys().collect(call.alloc);
    call.store(set, made);
}

/// Inserts copies of the items of another set. Each insertion is within a window.
fn extend_by_copies(set: &mut Set, other: &Set, call: &Call) {
    for item in other {
        call.begin();
        call.show_refusal(set.insert(item.copy()));
    }
}

/// Inserts a number twice, and appends the text of the set. Only the first insertion is counted.
fn insert_twice(set: &mut LinkedHashSet<u64>, number: u64, call: &Call) {
    call.show_result(set.insert(number));
    call.show_result(set.insert(number));
    call.show(set);
}

/// Does so with a set of a capacity, and appends the capacity too.
fn show_new_with_capacity(call: &Call) {
    let (capacity, number) = (call.size(), call.number());
    let made: Result<LinkedHashSet<u64>, ReserveError> = LinkedHashSet::with_capacity(
        call.alloc, capacity,
    );
    match made {
        Ok(mut set) => {
            insert_twice(&mut set, number, call);
            call.show(&set.capacity());
        }
        Err(refused) => call.show_refused(refused),
    }
}

/// Runs the call of a line that leaves the hasher to be shown, and returns whether there is one.
pub fn run(call: &Call, set: &mut Set, other: &Set) -> bool {
    match call.name() {
        "new" => insert_twice(&mut LinkedHashSet::new(call.alloc), call.number(), call),
        "new_with_capacity" => show_new_with_capacity(call),
        "with_hasher" => call.replace(set, Set::with_hasher(call.alloc, call.hasher())),
        "with_capacity" => {
            let (hasher, capacity) = (call.hasher(), call.size());
            let made = Set::with_capacity_and_hasher(call.alloc, capacity, hasher);
            call.store(set, made);
        }
        "emptied" => call.store(set, Emptied::emptied(other)),
        "made_with" => call.replace(set, MadeWith::made_with(call.alloc)),
        "from_iter" => from_iter(call, set),
        "collect" => collect(call, set),
        "extend" => call.show_refusal(set.extend(call.keys())),
        "extend_refs" => extend_by_copies(set, other, call),
        "clone" => call.store(set, other.clone()),
        _ => return false,
    }
    call.show(set.hasher());
    true
}
