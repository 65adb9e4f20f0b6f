//! Calls that sort the pairs.

use super::Map;
use super::call::Call;
use super::comparisons::ordered;
use super::retaining::Calls;
use std::cmp::Ordering;

/// Compares two numbers as a word says: `less` and `turn` are no orders.
pub fn compare(word: &str, call: u64, number: u64, other: u64) -> Ordering {
    match word {
        "less" => Ordering::Less,
        "turn" => (call % 2).cmp(&1),
        "down" => other.cmp(&number),
        _ => number.cmp(&other),
    }
}

/// Sorts by the values, compared as a word says.
fn sort_by(map: &mut Map, call: &Call) {
    let word = call.word();
    let guard = call.guard();
    let calls = Calls::new(call.counts());
    let noted = &calls;
    map.sort_by(move |_key, value, _other_key, other| {
        guard.hold();
        compare(word, noted.note(), value.number(), other.number())
    });
    calls.show(call);
}

/// Sorts by copies of the values, which the call drops.
fn sort_by_key(map: &mut Map, call: &Call) {
    let guard = call.guard();
    let calls = Calls::new(call.counts());
    let noted = &calls;
    map.sort_by_key(move |_key, value| {
        guard.hold();
        noted.note();
        value.copy()
    });
    calls.show(call);
}

/// Sorts by copies of the values, each made once, which the call drops.
fn sort_by_cached_key(map: &mut Map, call: &Call) {
    let guard = call.guard();
    let calls = Calls::new(call.counts());
    let noted = &calls;
    call.show_refusal(map.sort_by_cached_key(move |key, value| {
        guard.hold();
        noted.note_key(key);
        value.copy()
    }));
    calls.show_with_order(call);
}

/// Sorts a map of the same pairs whose keys are compared as they are, and appends it.
fn sort_keys(call: &Call, map: &Map) {
    call.end();
    let mut map = ordered(call, map);
    call.begin();
    map.sort_keys();
    call.show(&map);
}

/// Runs the call of a line, and returns whether there is one.
pub fn run(call: &Call, map: &mut Map) -> bool {
    match call.name() {
        "sort_by" => sort_by(map, call),
        "sort_by_key" => sort_by_key(map, call),
        "sort_by_cached_key" => sort_by_cached_key(map, call),
        "sort_keys" => sort_keys(call, map),
        "reverse" => map.reverse(),
        _ => return false,
    }
    true
}
