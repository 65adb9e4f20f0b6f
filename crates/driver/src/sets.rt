//! Calls of a set.

use super::call::Call;
use super::hasher::BuildKeyHasher;
use super::iterators::{iterate_and_clone, iterate_to_the_end};
use super::key::Key;
use super::list::list;
use super::retaining::Calls;
use super::{set_fills, set_making, set_operations, set_order, set_refused_texts};
use linked_hash_set::LinkedHashSet;

/// The sets that the lines speak of.
pub type Set = LinkedHashSet<Key, BuildKeyHasher>;

/// Inserts an item that a closure makes anew, if it is absent.
fn get_or_insert_with(set: &mut Set, call: &Call) {
    let item = call.key();
    let guard = call.guard();
    let returned = set.get_or_insert_with(&item, move |item| {
        drop(guard);
        item.again()
    });
    call.show_result(returned);
}

/// Keeps the items whose texts, as numbers, are not the given number modulo 7.
fn retain(set: &mut Set, call: &Call) {
    let number = call.number();
    let guard = call.guard();
    let calls = Calls::new(call.counts());
    let noted = &calls;
    set.retain(move |item| {
        guard.hold();
        noted.note();
        item.number() % 7 != number % 7
    });
    calls.show(call);
}

/// Appends every item, in a loop over the set. Each step is within a window.
fn show_all(set: &Set, call: &Call) {
    for item in set {
        call.show(item);
        call.begin();
    }
}

/// Iterates over a clone that is taken.
fn into_iter(set: &Set, call: &Call) {
    match set.clone() {
        Ok(copy) => iterate_to_the_end(copy.into_iter(), call),
        Err(refused) => call.show_refused(refused),
    }
}

/// Runs the call of a line that only reads a set, and returns whether there is one.
fn read(call: &Call, set: &Set) -> bool {
    match call.name() {
        "contains" => call.show(&set.contains(&call.key())),
        "get" => call.show(&set.get(&call.key())),
        "front" => call.show(&set.front()),
        "back" => call.show(&set.back()),
        "iter" => iterate_and_clone(set.iter(), call),
        "into_iter" => into_iter(set, call),
        "loop" => show_all(set, call),
        "len" => call.show_two(&set.len(), &set.is_empty()),
        "capacity" => call.show(&set.capacity()),
        "hasher" => call.show(set.hasher()),
        "debug" => call.show_within(set),
        "refused_texts" => set_refused_texts::show_all(call),
        _ => return false,
    }
    true
}

/// Runs the call of a line that changes a set by one item, and returns whether there is one.
fn run_by_item(call: &Call, set: &mut Set) -> bool {
    match call.name() {
        "insert" => call.show_result(set.insert(call.key())),
        "insert_if_absent" => call.show_result(set.insert_if_absent(call.key())),
        "replace" => call.show_result(set.replace(call.key())),
        "get_or_insert" => call.show_result(set.get_or_insert(call.key())),
        "get_or_insert_with" => get_or_insert_with(set, call),
        "take" => call.show(&set.take(&call.key())),
        "remove" => call.show(&set.remove(&call.key())),
        "to_front" => call.show(&set.to_front(&call.key())),
        "refresh" => call.show(&set.refresh(&call.key())),
        "to_back" => call.show(&set.to_back(&call.key())),
        _ => return false,
    }
    true
}

/// Runs the call of a line that changes a set at an end or all of its items, and returns whether
/// there is one.
fn run_on_all(call: &Call, set: &mut Set) -> bool {
    match call.name() {
        "pop_front" => call.show(&set.pop_front()),
        "pop_back" => call.show(&set.pop_back()),
        "truncate" => set.truncate(call.size()),
        "clear" => set.clear(),
        "retain" => retain(set, call),
        "drain" => iterate_to_the_end(set.drain(), call),
        "reserve" => call.show_refusal(set.reserve(call.size())),
        "shrink_to_fit" => call.show_refusal(set.shrink_to_fit()),
        "fill" => set_fills::fill(set, call),
        "drop" => {
            let empty = Set::with_hasher(call.alloc, BuildKeyHasher::default());
            call.drop_and_replace(set, empty);
        }
        _ => return false,
    }
    true
}

/// Runs the call of a line, appends what it returns and the list, and returns whether there is such
/// a call.
pub fn run(call: &Call, set: &mut Set, other: &mut Set) -> bool {
    let is_known = read(call, set)
        || set_operations::run(call, set, other)
        || set_making::run(call, set, other)
        || run_by_item(call, set)
        || run_on_all(call, set)
        || set_order::run(call, set, other);
    if is_known {
        call.push_str("|");
        list(set.len(), set.iter(), call);
    }
    is_known
}
