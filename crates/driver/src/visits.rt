//! Visits of the pairs, one entry after the other.

use super::Map;
use super::call::Call;
use super::entries::{Edit, Occupied, edit_in_place, edit_occupied};
use super::hasher::BuildKeyHasher;
use super::key::Key;
use super::value::Value;
use linked_hash_map::Entries;
use std::mem;

/// Makes an edit by the next entry of a cursor.
fn edit_next(entries: &mut Entries<Key, Value, BuildKeyHasher>, edit: &mut Edit, call: &Call) {
    call.begin();
    let Some(mut entry) = entries.next() else {
        call.push_str("end ");
        return;
    };
    edit_occupied!(entry, edit, call);
}

/// Makes an edit by each entry of a cursor, up to the end of the word, and drops or forgets the
/// cursor.
fn edit_each(map: &mut Map, call: &Call) {
    let edits = call.word();
    let mut edit = Edit::new("", edits, call);
    let mut entries = map.entries();
    for letter in edits.bytes() {
        call.show(&entries.remaining());
        edit.letter = letter;
        edit_next(&mut entries, &mut edit, call);
    }
    if call.word() == "forget" {
        mem::forget(entries);
    } else {
        call.drop_within(entries);
    }
}

/// Makes the call of a line that returns an entry.
fn entry_of<'m>(map: &'m mut Map, call: &Call) -> Option<Occupied<'m>> {
    match call.name() {
        "next_entry" => map.next_entry(),
        "front_entry" => map.front_entry(),
        _ => map.back_entry(),
    }
}

/// Makes an edit by the entry that a call returns, if there is one.
fn edit_one(map: &mut Map, call: &Call) {
    let mut edit = Edit::new("", call.word(), call);
    let Some(mut entry) = entry_of(map, call) else {
        call.push_str("end ");
        return;
    };
    edit_occupied!(entry, &mut edit, call);
}

/// Runs the call of a line, and returns whether there is one.
pub fn run(call: &Call, map: &mut Map) -> bool {
    match call.name() {
        "entries" => edit_each(map, call),
        "visit" => {
            let _map = map.visit();
        }
        "next_entry" | "front_entry" | "back_entry" => edit_one(map, call),
        _ => return false,
    }
    true
}
