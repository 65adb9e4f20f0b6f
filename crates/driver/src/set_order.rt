//! Calls of a set by the place of its items.

use super::call::Call;
use super::copied::CopiedKey;
use super::iterators_from::advance_if_present;
use super::retaining::Calls;
use super::sets::Set;
use super::sorts::compare;
use linked_hash_set::LinkedHashSet;

/// Sorts by the texts as numbers modulo 7, compared as a word says.
fn sort_by(set: &mut Set, call: &Call) {
    let word = call.word();
    let guard = call.guard();
    let calls = Calls::new(call.counts());
    let noted = &calls;
    set.sort_by(move |item, other| {
        guard.hold();
        compare(word, noted.note(), item.number() % 7, other.number() % 7)
    });
    calls.show(call);
}

/// Sorts by the texts as numbers modulo 7, each taken once.
fn sort_by_cached_key(set: &mut Set, call: &Call) {
    let guard = call.guard();
    let calls = Calls::new(call.counts());
    let noted = &calls;
    call.show_refusal(set.sort_by_cached_key(move |item| {
        guard.hold();
        noted.note_key(item);
        item.number() % 7
    }));
    calls.show_with_order(call);
}

/// Sorts a set of the same items that are compared as they are, and appends it.
fn sort(call: &Call, set: &Set) {
    call.end();
    let mut sorted: LinkedHashSet<CopiedKey> = LinkedHashSet::new(call.alloc);
    for item in set {
        call.note(sorted.insert(item.ordered()));
    }
    call.begin();
    sorted.sort();
    call.show(&sorted);
}

/// Runs the call of a line, and returns whether there is one.
pub fn run(call: &Call, set: &mut Set, other: &mut Set) -> bool {
    match call.name() {
        "append" => call.show_refusal(set.append(other)),
        "insert_front" => call.show_result(set.insert_front(call.key())),
        "move_before" => call.show(&set.move_before(&call.key(), &call.key())),
        "move_after" => call.show(&set.move_after(&call.key(), &call.key())),
        "sort_by" => sort_by(set, call),
        "sort_by_cached_key" => sort_by_cached_key(set, call),
        "sort" => sort(call, set),
        "reverse" => set.reverse(),
        "iter_from" => {
            let item = call.key();
            advance_if_present(set.iter_from(&item), call);
        }
        "iter_back_from" => {
            let item = call.key();
            advance_if_present(set.iter_back_from(&item), call);
        }
        _ => return false,
    }
    true
}
