//! Calls that change what pairs there are, or how many fit.

use super::Map;
use super::call::Call;
use super::making::empty;

/// Inserts a pair, if its key is present or there is room.
fn insert_within_capacity(map: &mut Map, call: &Call) {
    let (key, value) = (call.key(), call.value());
    call.end();
    if map.len() < map.capacity() || map.contains_key(&key) {
        call.begin();
        call.show(&Ok::<_, ()>(map.insert_within_capacity(key, value)));
    } else {
        call.push_str("full ");
    }
}

/// Runs the call of a line, and returns whether there is one.
pub fn run(call: &Call, map: &mut Map) -> bool {
    match call.name() {
        "insert" => call.show_result(map.insert(call.key(), call.value())),
        "insert_front" => call.show_result(map.insert_front(call.key(), call.value())),
        "replace" => call.show_result(map.replace(call.key(), call.value())),
        "insert_within_capacity" => insert_within_capacity(map, call),
        "replace_key" => call.show_key(map.replace_key(call.key())),
        "remove" => call.show(&map.remove(&call.key())),
        "remove_entry" => call.show(&map.remove_entry(&call.key())),
        "pop_front" => call.show(&map.pop_front()),
        "pop_back" => call.show(&map.pop_back()),
        "truncate" => map.truncate(call.size()),
        "clear" => map.clear(),
        "reserve" => call.show_refusal(map.reserve(call.size())),
        "shrink_to_fit" => call.show_refusal(map.shrink_to_fit()),
        "drop" => call.drop_and_replace(map, empty(call)),
        _ => return false,
    }
    true
}
