//! Calls that move pairs, or set the mode.

use super::Map;
use super::call::Call;
use linked_hash_map::Mode;

/// Moves pairs from the front to the back, if there are so many.
fn rotate_left(map: &mut Map, count: usize, call: &Call) {
    if count <= map.len() {
        map.rotate_left(count);
    } else {
        call.push_str("too many ");
    }
}

/// Returns the mode of this name, `Touch` for any that is not known.
pub fn mode_named(name: &str) -> Mode {
    if name == "keep" {
        Mode::Keep
    } else {
        Mode::Touch
    }
}

/// Runs the call of a line, and returns whether there is one.
pub fn run(call: &Call, map: &mut Map) -> bool {
    match call.name() {
        "move_to_back" => call.show(&map.move_to_back(&call.key())),
        "move_to_front" => call.show(&map.move_to_front(&call.key())),
        "move_before" => call.show(&map.move_before(&call.key(), &call.key())),
        "move_after" => call.show(&map.move_after(&call.key(), &call.key())),
        "rotate_left" => rotate_left(map, call.size(), call),
        "set_mode" => map.set_mode(mode_named(call.word())),
        _ => return false,
    }
    true
}
