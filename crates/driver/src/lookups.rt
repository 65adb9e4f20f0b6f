//! Calls that look up, and those that write one value.

use super::Map;
use super::call::Call;
use super::key::Key;
use super::value::Value;

/// Reads by index, if the key is present.
fn index(map: &Map, key: &Key, call: &Call) {
    call.end();
    if map.contains_key(key) {
        call.begin();
        call.show(&map[key]);
    } else {
        call.push_str("absent ");
    }
}

/// Writes by index, if the key is present.
fn index_mut(map: &mut Map, call: &Call) {
    let key = call.key();
    let value = call.value();
    call.end();
    if map.contains_key(&key) {
        call.begin();
        call.replace(&mut map[&key], value);
        call.push_str("written ");
    } else {
        call.push_str("absent ");
    }
}

/// Appends a value that is lent, and writes another, if there is one.
pub fn write_lent(lent: Option<&mut Value>, value: Value, call: &Call) {
    match lent {
        Some(lent) => {
            call.show(lent);
            call.replace(lent, value);
        }
        None => call.push_str("absent "),
    }
}

/// Runs the call of a line that only reads a map, and returns whether there is one.
pub fn run(call: &Call, map: &Map) -> bool {
    match call.name() {
        "get" => call.show(&map.get(&call.key())),
        "get_key_value" => call.show_lent_pair(map.get_key_value(&call.key())),
        "get_counted" => call.show(&map.get_counted(&call.key())),
        "contains_key" => call.show(&map.contains_key(&call.key())),
        "index" => index(map, &call.key(), call),
        "front" => call.show_lent_pair(map.front()),
        "back" => call.show_lent_pair(map.back()),
        "len" => call.show_two(&map.len(), &map.is_empty()),
        "hasher" => call.show(map.hasher()),
        "capacity" => call.show(&map.capacity()),
        "rechained" => call.show(&map.rechained()),
        "mode" => call.show(&map.mode()),
        "unvisited" => call.show(&map.unvisited()),
        _ => return false,
    }
    true
}

/// Runs the call of a line that writes one value, and returns whether there is one.
pub fn run_to_write(call: &Call, map: &mut Map) -> bool {
    match call.name() {
        "index_mut" => index_mut(map, call),
        "get_mut" => write_lent(map.get_mut(&call.key()), call.value(), call),
        "get_refresh" => write_lent(map.get_refresh(&call.key()), call.value(), call),
        "front_mut" => write_lent(map.front_mut(), call.value(), call),
        "back_mut" => write_lent(map.back_mut(), call.value(), call),
        _ => return false,
    }
    true
}
