//! Calls that go by the entry of a key.

use super::Map;
use super::call::Call;
use super::entries::{Lent, edit_entry, replace_entry_key};
use super::refusal::Refusal;
use std::alloc::Global;

/// Appends a value that is lent, and adds 1 to its number after that, or what is handed back.
fn show_and_increase(lent: &mut Lent<'_>, call: &Call) {
    match lent {
        Ok(value) => {
            call.show(&**value);
            let increased = value.increased(1);
            **value = increased;
        }
        Err(refused) => refused.show(call),
    }
}

fn and_modify(map: &mut Map, call: &Call) {
    let (key, value) = (call.key(), call.value());
    let guard = call.guard();
    let zero = call.zero();
    let entry = map.entry(key).and_modify(move |lent| {
        drop(guard);
        *lent = value;
    });
    show_and_increase(&mut entry.or_insert(zero), call);
}

/// Asks for one box, whether or not it is given.
fn ask_for_box(alloc: Global) {
    let _ = Box::new(alloc, 0u64);
}

/// Inserts what a closure makes, which may ask for memory too.
fn or_insert_with(map: &mut Map, asks: bool, call: &Call) {
    let (key, value) = (call.key(), call.value());
    let guard = call.guard();
    let alloc = call.alloc;
    let make = move || {
        drop(guard);
        if asks {
            ask_for_box(alloc);
        }
        value
    };
    show_and_increase(&mut map.entry(key).or_insert_with(make), call);
}

fn or_insert_with_key(map: &mut Map, call: &Call) {
    let (key, value) = (call.key(), call.value());
    let guard = call.guard();
    let make = move |_key: &_| {
        drop(guard);
        value
    };
    show_and_increase(&mut map.entry(key).or_insert_with_key(make), call);
}

/// Runs the call of a line, and returns whether there is one.
pub fn run(call: &Call, map: &mut Map) -> bool {
    match call.name() {
        "or_insert" => show_and_increase(&mut map.entry(call.key()).or_insert(call.value()), call),
        "or_insert_with" => or_insert_with(map, false, call),
        "or_insert_with_key" => or_insert_with_key(map, call),
        "or_insert_with_box" => or_insert_with(map, true, call),
        "or_default" => show_and_increase(&mut map.entry(call.key()).or_default(), call),
        "and_modify" => and_modify(map, call),
        "entry" => edit_entry(map, call),
        "entry_key" => {
            let entry = map.entry(call.key());
            call.show(entry.key());
            call.drop_within(entry);
        }
        "entry_replace_key" => replace_entry_key(map, call),
        _ => return false,
    }
    true
}
